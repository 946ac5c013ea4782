// A payload (R3.4) as a value: its 16 bytes as two words, high byte first. The calls pass payloads on in
// this form; bundles, records and run files have them as bytes.
#![tactic(auto)]

ghost use Rattle.std.specs.Prelude.{◌≡◌};
ghost use Rattle.octets.specs.Octets.{same as same_bytes, blank};
ghost use Rattle.payload.specs.Payload.{bytes, loaded};

// A payload's bytes.
pub const SIZE: usize = 16;

#[derive(Clone, Copy, Debug, Default, PartialEq, Eq)]
pub struct Payload {
    // bytes 0 to 7
    pub high: u64,
    // bytes 8 to 15
    pub low: u64,
}

// The payload in a slice of 16 bytes; the payload of zeros for a slice of another length.
pub fn load(slice: &[u8]) -> Payload
    ensures { bytes result ≡ loaded slice.now }
{
    if slice.len() != SIZE {
        return Payload::default();
    }
    Payload {
        high: octets::word(&slice[..8]),
        low: octets::word(&slice[8..]),
    }
}

impl Payload {
    // The payload's 16 bytes.
    pub fn to_bytes(self) -> [u8; SIZE]
        ensures { result ≡ bytes self }
    {
        let mut out = [0u8; SIZE];
        octets::put(&mut out, 0, self.high);
        octets::put(&mut out, 8, self.low);
        out
    }

    // Whether all 16 bytes are zero.
    pub fn is_blank(self) -> bool
        ensures { result ≡ blank (bytes self) }
    {
        self == Payload::default()
    }

    // Whether the two have the same bytes.
    pub fn equals(self, other: Payload) -> bool
        ensures { result ≡ same_bytes (bytes self) (bytes other) }
    {
        self == other
    }
}
