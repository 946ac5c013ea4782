// Signed numbers of 16 bits, the two bytes that write them (R18.2), and their order.
#![tactic(auto)]

ghost use Rattle.std.specs.Prelude.{◌≡◌, ◌+◌, ◌*◌};
ghost use Rattle.std.specs.Int.Signed.{le_z};
ghost use Rattle.signed.specs.Signed.{signed, bits_of};

// R18.2: the number that two bytes write, high byte first. Not by `from_be_bytes`: the compiler then swaps the bytes,
// and pooling takes 1.4 times as long.
#[tactic(auto, using(crate::proofs::Bits::signed_cast))]
pub fn from_bytes(high: u8, low: u8) -> i16
    ensures { result ≡ signed (high * 256 + low) }
{
    (u16::from(high) * 256 + u16::from(low)).cast_signed()
}

// The inverse of `from_bytes`: the two bytes that write the number, as one unsigned number.
pub fn to_bits(value: i16) -> u16
    ensures { result ≡ bits_of value }
{
    value.cast_unsigned()
}

// Whether the first is at most the second, below zero too. docs/CLAIMS.md names it, for the comparison of R17.9.
pub fn at_most(first: i16, second: i16) -> bool
    ensures { result ≡ le_z first second }
{
    first <= second
}
