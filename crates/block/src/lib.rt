// A block: 32 bytes as two words and a payload. A record is two of them, the half that is held and the half that is
// noted.
#![tactic(auto)]

ghost use Rattle.std.specs.Prelude.{◌≡◌, cond, eqb, length};
ghost use Rattle.octets.specs.Octets.{blank};
ghost use Rattle.block.specs.Block.{block_size, bytes, loaded};

use payload::Payload;

// A block's bytes.
pub const SIZE: usize = 32;

// Where in a block its second word starts, and its payload, with which it ends.
const SECOND_AT: usize = 8;

pub const PAYLOAD_AT: usize = 16;

#[derive(Clone, Copy, Debug, Default, PartialEq, Eq)]
pub struct Block {
    // bytes 0 to 7
    pub first: u64,
    // bytes 8 to 15
    pub second: u64,
    pub payload: Payload,
}

// The block in a slice of 32 bytes; of a slice of another length, one of zeros.
pub fn load(slice: &[u8]) -> Block
    ensures { bytes result ≡ loaded slice.now }
{
    if slice.len() != SIZE {
        return Block::default();
    }
    Block {
        first: octets::word(&slice[..SECOND_AT]),
        second: octets::word(&slice[SECOND_AT..PAYLOAD_AT]),
        payload: payload::load(&slice[PAYLOAD_AT..]),
    }
}

impl Block {
    // Writes the block over a slice of 32 bytes. A slice of another length stays as it is.
    pub fn store(self, slice: &mut [u8])
        ensures { slice.new ≡ cond (eqb (length slice.old) block_size) (bytes self) slice.old }
    {
        octets::fill(
            slice,
            self.first,
            self.second,
            self.payload.high,
            self.payload.low,
        );
    }

    // Whether all 32 bytes are zero. The words are asked for one by one, for speed: with `self == Block::default()` the
    // search for a number has five instructions more for each record, and thirteen more with `self.payload.is_blank()`.
    pub fn is_blank(self) -> bool
        ensures { result ≡ blank (bytes self) }
    {
        self.first == 0 && self.second == 0 && self.payload.high == 0 && self.payload.low == 0
    }
}
