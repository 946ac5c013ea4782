// What a record notes of a second payload, as the 32 bytes of its second half (R4.7) and as a value.
#![tactic(auto)]

ghost use Rattle.std.specs.Prelude.{◌≡◌, cond, eqb, length};
ghost use Rattle.octets.specs.Octets.{blank};
ghost use Rattle.payload.specs.Payload.{bytes as payload_bytes};
ghost use Rattle.signers.specs.Signers.{union};
ghost use Rattle.block.specs.Block.{loaded, bytes as block_bytes};
ghost use Rattle.protocol.specs.Update.{Nothing, Noted, noted_signers, notes_other};
ghost use Rattle.note.specs.Note.{note_size, bytes as bytes_in, encoding, decoded, well_formed};

use block::Block;
use config::Config;
use payload::Payload;

// A note's bytes.
pub const SIZE: usize = block::SIZE;

#[derive(Clone, Copy)]
pub struct Note {
    pub signers: u64,
    // eight bytes that are zero
    pub zero: u64,
    pub payload: Payload,
}

// The note in a slice of 32 bytes; of a slice of another length, that nothing is noted.
pub fn load(slice: &[u8]) -> Note
    ensures { bytes_in result ≡ loaded slice.now }
{
    let block = block::load(slice);
    Note {
        signers: block.first,
        zero: block.second,
        payload: block.payload,
    }
}

// That nothing is noted.
pub fn nothing() -> Note
    ensures { bytes_in result ≡ encoding Nothing }
{
    Note {
        signers: 0,
        zero: 0,
        payload: Payload { high: 0, low: 0 },
    }
}

// That a payload is noted with these signers.
pub fn noted(signers: u64, payload: Payload) -> Note
    ensures { bytes_in result ≡ encoding (Noted signers (payload_bytes payload)) }
{
    Note {
        signers,
        zero: 0,
        payload,
    }
}

impl Note {
    // Writes the note over a slice of 32 bytes. A slice of another length stays as it is.
    pub fn store(self, slice: &mut [u8])
        ensures { slice.new ≡ cond (eqb (length slice.old) note_size) (bytes_in self) slice.old }
    {
        self.block().store(slice);
    }

    // Whether all 32 bytes are zero.
    pub fn is_blank(self) -> bool
        ensures { result ≡ blank (bytes_in self) }
    {
        self.block().is_blank()
    }

    // R4.8: whether the note is well-formed, in a slot of the sender and beside the payload that the record holds.
    pub fn well_formed(self, config: Config, sender: u8, held: Payload) -> bool
        ensures { result ≡ well_formed config sender (payload_bytes held) (bytes_in self) }
    {
        if self.zero != 0 {
            return false;
        }
        if self.signers == 0 {
            return self.payload.is_blank();
        }
        if signers::below(config.n) < self.signers {
            return false;
        }
        if !signers::member(self.signers, sender) {
            return false;
        }
        !self.payload.equals(held)
    }

    // Whether another payload than this one is noted.
    pub fn notes_other(self, payload: Payload) -> bool
        ensures { result ≡ notes_other (decoded (bytes_in self)) (payload_bytes payload) }
    {
        if self.signers == 0 {
            return false;
        }
        !self.payload.equals(payload)
    }

    // R8.14: the note with the signers of a bundle beside those that it has, of the payload that the bundle has.
    pub fn joined(self, signers: u64, payload: Payload) -> Note
        ensures { bytes_in result ≡ encoding (Noted (union (noted_signers (decoded (bytes_in self))) signers) (payload_bytes payload)) }
    {
        noted(signers::union(self.signers, signers), payload)
    }
}

impl Note {
    // Its words, in their order.
    fn block(self) -> Block
        ensures { block_bytes result ≡ bytes_in self }
    {
        Block {
            first: self.signers,
            second: self.zero,
            payload: self.payload,
        }
    }
}
