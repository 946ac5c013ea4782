// Eight-byte words in slices of bytes, high byte first (R3.1, R4.1).
#![tactic(auto)]

ghost use Rattle.std.specs.Prelude.{◌≡◌, replicate, length};
ghost use Rattle.octets.specs.Octets.{word_of, placed, filled};

// The number that eight bytes write, or 0 for a slice of another length.
pub fn word(bytes: &[u8]) -> u64
    ensures { result ≡ word_of bytes.now }
{
    match <[u8; 8]>::try_from(bytes) {
        Ok(eight) => u64::from_be_bytes(eight),
        Err(_) => 0,
    }
}

// Writes a word over the eight bytes from index `at` on. A slice that has no room there stays as it is.
pub fn put(bytes: &mut [u8], at: usize, x: u64)
    ensures { bytes.new ≡ placed at x bytes.old }
{
    if bytes.len() < 8 {
        return;
    }
    if bytes.len() - 8 < at {
        return;
    }
    bytes[at..at + 8].copy_from_slice(&x.to_be_bytes());
}

// Writes four words over a slice of 32 bytes. A slice of another length stays as it is.
pub fn fill(bytes: &mut [u8], a: u64, b: u64, c: u64, d: u64)
    ensures { bytes.new ≡ filled bytes.old a b c d }
{
    if bytes.len() != 32 {
        return;
    }
    put(bytes, 0, a);
    put(bytes, 8, b);
    put(bytes, 16, c);
    put(bytes, 24, d);
}

// Makes every byte zero.
pub fn clear(bytes: &mut [u8])
    ensures { bytes.new ≡ replicate (length bytes.old) 0 }
{
    for byte in bytes.iter_mut() {
        *byte = 0;
    }
}
