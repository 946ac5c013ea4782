// What a node keeps of a slot, as the 64 bytes of a record (R4.1) and as a value.
//
// A record is loaded by value, a bundle is received on the value, and the result is stored again. Beside
// these only showing looks at a record's bytes, and only at its payload.
#![tactic(auto)]

ghost use Rattle.std.specs.Prelude.{◌≡◌, cond, false, eqb, length, Ok};
ghost use Rattle.octets.specs.Octets.{blank, same};
ghost use Rattle.payload.specs.Payload.{bytes as payload_bytes};
ghost use Rattle.block.specs.Block.{bytes as block_bytes};
ghost use Rattle.note.specs.Note.{bytes as note_bytes, decoded as decoded_note};
ghost use Rattle.config.specs.Config.{quorum, record_size};
ghost use Rattle.protocol.specs.Update.{update as update_of, sends, Nothing, Empty, Held, is_delivered};
ghost use Rattle.record.specs.Record.{bytes as bytes_in, loaded, layout, encoding, well_formed, decoded, received, answer_of, received_of, encoded_update};
ghost use Rattle.record.specs.Inner.{HasState, NoteReads, half_well_formed, held_block};

use block::Block;
use config::Config;
use note::Note;
use payload::Payload;
use refusal::Refusal;

// The first word of a record: its state in the highest byte, the others zero.
const HELD: u64 = 0x100_0000_0000_0000;

const DELIVERED: u64 = 0x200_0000_0000_0000;

// Where in a record its payload starts, and what it notes, with which it ends.
pub const PAYLOAD_AT: usize = block::PAYLOAD_AT;

const NOTE_AT: usize = block::SIZE;

#[derive(Clone, Copy)]
pub struct Record {
    // the state's byte and seven that are zero
    pub head: u64,
    pub signers: u64,
    pub payload: Payload,
    pub note: Note,
}

// What a bundle that is not refused does to a record (R8.6, R8.14).
#[derive(Clone, Copy, PartialEq, Eq, Debug)]
pub enum Answer {
    Kept,
    Signed,
    Delivered,
    Noted,
}

impl Answer {
    // R8.7: whether the record's bundle is to be sent.
    pub fn sends(self) -> bool
        ensures { result ≡ sends (answer_of self) }
    {
        matches!(self, Answer::Signed | Answer::Delivered)
    }
}

// The answer, and the record afterwards.
#[derive(Clone, Copy)]
pub struct Received {
    pub answer: Answer,
    pub record: Record,
}

// The record in a slice of 64 bytes; of a slice of another length, an empty one.
pub fn load(slice: &[u8]) -> Record
    ensures { bytes_in result ≡ loaded slice.now }
{
    if slice.len() != config::RECORD_SIZE {
        return Record {
            head: 0,
            signers: 0,
            payload: Payload { high: 0, low: 0 },
            note: note::nothing(),
        };
    }
    let block = block::load(&slice[0..NOTE_AT]);
    Record {
        head: block.first,
        signers: block.second,
        payload: block.payload,
        note: note::load(&slice[NOTE_AT..config::RECORD_SIZE]),
    }
}

impl Record {
    // A record that holds a payload with these signers, and notes nothing.
    pub fn held(signers: u64, payload: Payload) -> Record
        ensures { bytes_in result ≡ encoding (Held signers (payload_bytes payload) Nothing) }
    {
        Record::holding(signers, payload, note::nothing())
    }

    // Writes the record over a slice of 64 bytes. A slice of another length stays as it is.
    pub fn store(self, slice: &mut [u8])
        ensures { slice.new ≡ cond (eqb (length slice.old) record_size) (bytes_in self) slice.old }
    {
        if slice.len() != config::RECORD_SIZE {
            return;
        }
        self.half().store(&mut slice[0..NOTE_AT]);
        self.note.store(&mut slice[NOTE_AT..config::RECORD_SIZE]);
    }

    // Whether all 64 bytes are zero, and so the record empty (R4.5).
    pub fn is_blank(self) -> bool
        ensures { result ≡ blank (bytes_in self) }
    {
        if !self.half().is_blank() {
            return false;
        }
        self.note.is_blank()
    }

    // R4.4: whether the record is well-formed, for a slot of the sender at this node. The calls refuse any
    // other.
    pub fn well_formed(self, config: Config, sender: u8) -> bool
        ensures { result ≡ well_formed config sender (bytes_in self) }
    {
        if self.head == 0 {
            return self.is_blank();
        }
        if !self.note.well_formed(config, sender, self.payload) {
            return false;
        }
        self.half_well_formed(
            signers::below(config.n),
            config.quorum(),
            signers::insert(0, config.own),
            signers::insert(0, sender),
        )
    }

    // Whether the slot is delivered, of a record that is well-formed.
    pub fn is_delivered(self) -> bool
        ensures { result ≡ is_delivered (decoded (bytes_in self)) }
    {
        1 < self.head / HELD
    }

    // R8.2 to R8.6, R8.14 and R8.16: what a bundle with these signers and this payload does to the record of a slot of the
    // sender.
    pub fn receive(
        self,
        config: Config,
        sender: u8,
        signers: u64,
        payload: Payload,
    ) -> Result<Received, Refusal>
        ensures { received_of result ≡ encoded_update (received config sender signers (payload_bytes payload) (bytes_in self)) }
    {
        if !self.well_formed(config, sender) {
            return Err(Refusal::MalformedRecord);
        }
        // Named word by word, so that the compiler passes two numbers. Given the struct, it takes the
        // record's words for the bundle's where they are equal, and then has to move them.
        let payload = Payload {
            high: payload.high,
            low: payload.low,
        };
        self.update(config, signers, payload)
    }
}

impl Record {
    // A record that holds a payload with these signers and this note.
    fn holding(signers: u64, payload: Payload, note: Note) -> Record
        ensures { bytes_in result ≡ layout 1 signers (payload_bytes payload) (note_bytes note) }
    {
        Record {
            head: HELD,
            signers,
            payload,
            note,
        }
    }

    // A record of a payload that these signers delivered, with this note.
    fn delivered(signers: u64, payload: Payload, note: Note) -> Record
        ensures { bytes_in result ≡ layout 2 signers (payload_bytes payload) (note_bytes note) }
    {
        Record {
            head: DELIVERED,
            signers,
            payload,
            note,
        }
    }

    // Its first half: what it holds.
    fn half(self) -> Block
        ensures { result ≡ held_block self }
    {
        Block {
            first: self.head,
            second: self.signers,
            payload: self.payload,
        }
    }

    // Whether the first half of a record that is not empty is well-formed, by the sets of all nodes, of us and of the sender.
    // The sender is asked for in each branch: before them, the compiler joins two tests into flags, which costs more than
    // both.
    fn half_well_formed(self, all: u64, quorum: u32, own: u64, sender: u64) -> bool
        ensures { result ≡ half_well_formed all quorum own sender self }
    {
        if all < self.signers {
            return false;
        }
        if self.head == HELD {
            if !signers::meets(self.signers, sender) {
                return false;
            }
            return signers::meets(self.signers, own);
        }
        if !signers::meets(self.signers, sender) {
            return false;
        }
        if self.head == DELIVERED {
            return quorum <= signers::size(self.signers);
        }
        false
    }

    // What a bundle does to a record that is well-formed. Its first word is tested by the same equalities
    // as in `half_well_formed`, so that the compiler tests it once.
    fn update(self, config: Config, signers: u64, payload: Payload) -> Result<Received, Refusal>
        requires has_state { HasState self }
        requires note_reads { NoteReads self.note }
        ensures { received_of result ≡ encoded_update (update_of config.own (quorum config) signers (payload_bytes payload) (decoded (bytes_in self))) }
    {
        let state = self.head;
        if state == DELIVERED {
            return Err(Refusal::AlreadyDelivered);
        }
        if state == 0 {
            return sign(config, signers, payload);
        }
        if payload.equals(self.payload) {
            return Ok(join(config, self.signers, signers, payload, self.note));
        }
        second(config, self, signers, payload)
    }
}

// R8.2: a bundle on an empty record. We sign.
fn sign(config: Config, signers: u64, payload: Payload) -> Result<Received, Refusal>
    ensures { received_of result ≡ encoded_update (update_of config.own (quorum config) signers (payload_bytes payload) Empty) }
{
    if signers::member(signers, config.own) {
        return Err(Refusal::OwnSignatureUnknown);
    }
    let signed = signers::insert(signers, config.own);
    if config.quorum() <= signers::size(signed) {
        return Ok(Received {
            answer: Answer::Delivered,
            record: Record::delivered(signed, payload, note::nothing()),
        });
    }
    Ok(Received {
        answer: Answer::Signed,
        record: Record::held(signed, payload),
    })
}

// R8.3: a bundle with the payload that is held, and so far signed by `known`. The signers join, and what is noted stays.
fn join(config: Config, known: u64, signers: u64, payload: Payload, note: Note) -> Received
    requires { NoteReads note }
    ensures { received_of (Ok result) ≡ encoded_update (update_of config.own (quorum config) signers (payload_bytes payload) (Held known (payload_bytes payload) (decoded_note (note_bytes note)))) }
{
    let joined = signers::union(known, signers);
    if config.quorum() <= signers::size(joined) {
        return Received {
            answer: Answer::Delivered,
            record: Record::delivered(joined, payload, note),
        };
    }
    Received {
        answer: Answer::Kept,
        record: Record::holding(joined, payload, note),
    }
}

// A bundle with another payload than the one held. A full quorum replaces what is held, which is noted then (R8.4, R8.16);
// fewer signers are noted, unless a third payload is (R8.14, R8.15).
fn second(
    config: Config,
    found: Record,
    signers: u64,
    payload: Payload,
) -> Result<Received, Refusal>
    requires { same (payload_bytes found.payload) (payload_bytes payload) ≡ false }
    ensures { received_of result ≡ encoded_update (update_of config.own (quorum config) signers (payload_bytes payload) (Held found.signers (payload_bytes found.payload) (decoded_note (note_bytes found.note)))) }
{
    if signers::member(signers, config.own) {
        return Err(Refusal::OwnSignatureUnknown);
    }
    let held = found.payload;
    if config.quorum() <= signers::size(signers) {
        return Ok(Received {
            answer: Answer::Delivered,
            record: Record::delivered(signers, payload, note::noted(found.signers, held)),
        });
    }
    if found.note.notes_other(payload) {
        return Err(Refusal::OtherPayload);
    }
    Ok(Received {
        answer: Answer::Noted,
        record: Record::holding(found.signers, held, found.note.joined(signers, payload)),
    })
}
