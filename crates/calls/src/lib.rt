// R1.1: the calls of a node: opening a day, broadcasting, receiving, looking at what receiving would do, and showing what
// was delivered.
//
// Each is defined for all bytes, lengths and numbers over the buffers that it is given (R1.4). It refuses by
// the first reason that applies (R5.2), and then leaves every byte as it is (R5.1).
#![tactic(auto)]

ghost use Rattle.std.specs.Prelude.{◌≡◌, true, ◌+◌, ◌≤◌, length, Ok};
ghost use Rattle.octets.specs.Octets.{part, advance};
ghost use Rattle.refusal.specs.Refusal.{verdict_of};
ghost use Rattle.refusal.specs.Outcome.{plain, ◌and_then◌, done};
ghost use Rattle.config.specs.Config.{good, slots, record_size, records_size, slot_of_day};
ghost use Rattle.bundle.specs.Bundle.{slot_of, bundle_size};
ghost use Rattle.record.specs.Record.{bytes, received_of, encoded_update};
ghost use Rattle.calls.specs.Records.{replaced};
ghost use Rattle.calls.specs.Open.{opened, open_records};
ghost use Rattle.calls.specs.Broadcast.{search as search_of, broadcast as broadcast_of, broadcast_records, broadcast_out, announcement_of, announcement_count};
ghost use Rattle.calls.specs.Receive.{receive as receive_of, receive_records, receive_out, reported, receipt_of, receipt_count};
ghost use Rattle.calls.specs.Showing.{delivered as delivered_of, delivered_part, delivered_place};
ghost use Rattle.calls.specs.Inner.{decision_of, Placed, settled_receipt, settled_out, sent};

mod day;

use bundle::Header;
use config::Config;
pub use day::Day;
use record::{Answer, Received, Record};
use refusal::Refusal;

// What receiving answers (R8.6, R8.14), with how many signers the record then has, or its note (R8.8); and what a preview
// does, with how many it would have (R8.9).
#[derive(Clone, Copy, PartialEq, Eq, Debug)]
pub struct Receipt {
    pub answer: Answer,
    pub count: u32,
}

// R7.3: how many signers the record has after broadcasting: the node itself, and none after a refusal (R5.1).
pub fn announcement_count(announcement: Result<u8, Refusal>) -> u32
    ensures { result ≡ announcement_count announcement }
{
    announcement.map_or(0, |_| 1)
}

// R8.8: how many signers the record has after receiving, or its note; 0 after a refusal (R5.1).
pub fn receipt_count(receipt: Result<Receipt, Refusal>) -> u32
    ensures { result ≡ receipt_count receipt }
{
    receipt.map_or(0, |receipt| receipt.count)
}

// R6.1: opens the day. Every record becomes empty.
pub fn open(config: Config, records: &mut [u8]) -> Result<(), Refusal>
    ensures result_value { verdict_of result ≡ plain (opened config records.old) }
    ensures records_after { records.new ≡ open_records config records.old }
{
    if !config.good() {
        return Err(Refusal::BadConfig);
    }
    if records.len() != config.records_size() {
        return Err(Refusal::RecordsLength);
    }
    octets::clear(records);
    Ok(())
}

// R7.3: signs a payload of our own, keeps it under our lowest free number and writes its bundle to `out`.
// What is announced is to be sent. Delivery comes by receiving alone (R7.4).
pub fn broadcast(
    config: Config,
    payload: &[u8],
    records: &mut [u8],
    out: &mut [u8],
) -> Result<u8, Refusal>
    ensures result_value { announcement_of result ≡ broadcast_of config payload.now records.old out.old }
    ensures records_after { records.new ≡ broadcast_records config payload.now records.old out.old }
    ensures out_after { out.new ≡ broadcast_out config payload.now records.old out.old }
{
    if !config.good() {
        return Err(Refusal::BadConfig);
    }
    if payload.len() != payload::SIZE {
        return Err(Refusal::PayloadLength);
    }
    if out.len() != bundle::SIZE {
        return Err(Refusal::OutLength);
    }
    let day = Day::new(config, records)?;
    let seq = search(day)?;
    let ours = signers::insert(0, config.own);
    let record = Record::held(ours, payload::load(payload));
    let start = config.slot_of_day(config.own, seq).place();
    put(start, record, records);
    let header = Header {
        day: config.day,
        sender: config.own,
        seq,
        signers: ours,
    };
    send(header, record, out);
    Ok(seq)
}

// RULES section 8: receives a bundle that came in. What is answered signed or delivered is to be sent: `out` then has
// the bundle of the record (R8.7).
pub fn receive(
    config: Config,
    bundle: &[u8],
    records: &mut [u8],
    out: &mut [u8],
) -> Result<Receipt, Refusal>
    ensures value { receipt_of result ≡ (receive_of config bundle.now records.old out.old and_then λ received. done (reported received)) }
    ensures records_after { records.new ≡ receive_records config bundle.now records.old out.old }
    ensures out_after { out.new ≡ receive_out config bundle.now records.old out.old }
{
    let (start, received) = decide(config, bundle, records, out)?;
    let receipt = answer(bundle, received, out);
    put(start, received.record, records);
    Ok(receipt)
}

// R8.9 to R8.12: what receiving the bundle would answer and leave in `out`. The records are lent for reading, and what
// `out` then has is not to be sent.
pub fn preview(
    config: Config,
    bundle: &[u8],
    records: &[u8],
    out: &mut [u8],
) -> Result<Receipt, Refusal>
    ensures value { receipt_of result ≡ (receive_of config bundle.now records.now out.old and_then λ received. done (reported received)) }
    ensures out_after { out.new ≡ receive_out config bundle.now records.now out.old }
{
    let (_, received) = decide(config, bundle, records, out)?;
    Ok(answer(bundle, received, out))
}

// R9.1: whether the slot is delivered, or why it cannot be shown.
pub fn check_delivered(config: Config, sender: u8, seq: u8, records: &[u8]) -> Result<(), Refusal>
    ensures { verdict_of result ≡ plain (delivered_of config (slot_of_day config sender seq) records.now) }
{
    if !config.good() {
        return Err(Refusal::BadConfig);
    }
    if config.n <= sender {
        return Err(Refusal::SenderRange);
    }
    if config::SLOTS <= seq {
        return Err(Refusal::SeqRange);
    }
    let day = Day::new(config, records)?;
    let record = day.record(sender, seq);
    if !record.well_formed(config, sender) {
        return Err(Refusal::MalformedRecord);
    }
    if !record.is_delivered() {
        return Err(Refusal::NotDelivered);
    }
    Ok(())
}

// R9.2: the delivered payload as a part of the records that the caller gave; the empty part at their start
// where `check_delivered` refuses.
pub fn delivered(config: Config, sender: u8, seq: u8, records: &[u8]) -> &[u8]
    ensures result_value { result.now ≡ delivered_part config (slot_of_day config sender seq) records.now }
    ensures ref_ptr_value { result.ref_ptr ≡ advance (delivered_place config (slot_of_day config sender seq) records.now) records.entry.ref_ptr }
{
    match check_delivered(config, sender, seq, records) {
        Ok(()) => {
            let start = config.slot_of_day(sender, seq).place() + record::PAYLOAD_AT;
            &records[start..start + payload::SIZE]
        }
        Err(_) => &records[0..0],
    }
}

// R7.2: our lowest free number, or why there is none. It is a loop, since the radio task may call nothing that calls
// itself (R7.5).
fn search(day: Day<'_>) -> Result<u8, Refusal>
    ensures { announcement_of result ≡ search_of day.entry.config day.entry.records.now 0 slots }
{
    for seq in 0..config::SLOTS {
        let record = day.record(day.config.own, seq);
        if record.is_blank() {
            return Ok(seq);
        }
        if !record.well_formed(day.config, day.config.own) {
            return Err(Refusal::MalformedRecord);
        }
    }
    Err(Refusal::NoFreeSlot)
}

// R8.1 to R8.6, R8.14 and R8.16: what a bundle comes to, before anything is stored or sent: where its slot's record starts,
// and what that record makes of it. Receiving and its preview differ in what becomes of this.
fn decide(
    config: Config,
    bundle: &[u8],
    records: &[u8],
    outgoing: &[u8],
) -> Result<(usize, Received), Refusal>
    ensures result_value { decision_of result ≡ encoded_update (receive_of config bundle.now records.now outgoing.now) }
    ensures placed { Placed config bundle.now records.now result }
{
    // `let .. else` is the form that R17.9 asks for here, where `?` would do.
    let reading = bundle::read(config, bundle);
    let Ok(header) = reading else {
        return Err(reading.unwrap_err());
    };
    if outgoing.len() != bundle::SIZE {
        return Err(Refusal::OutLength);
    }
    if records.len() != config.records_size() {
        return Err(Refusal::RecordsLength);
    }
    let slot = config.slot_of_day(header.sender, header.seq);
    let start = slot.place();
    let record = get(start, records);
    let payload = bundle::load_payload(bundle);
    let received = record.receive(config, header.sender, header.signers, payload)?;
    Ok((start, received))
}

// R8.6 to R8.8, R8.14: the answer to a bundle, and what goes out: the record's bundle, which is in the slot of the one
// that came in.
fn answer(bundle: &[u8], received: Received, out: &mut [u8]) -> Receipt
    ensures result_value { receipt_of (Ok result) ≡ settled_receipt (received_of (Ok received)) }
    ensures out_after { out.new ≡ settled_out bundle.now (received_of (Ok received)) out.old }
{
    let Received { answer, record } = received;
    if answer.sends() {
        bundle::encode_like(bundle, record.signers, record.payload, out);
    }
    let counted = match answer {
        Answer::Noted => record.note.signers,
        _ => record.signers,
    };
    Receipt {
        answer,
        count: signers::size(counted),
    }
}

// The record that starts there.
fn get(start: usize, records: &[u8]) -> Record
    requires { start + record_size ≤ length records.now }
    ensures { bytes result ≡ part start record_size records.now }
{
    record::load(&records[start..start + config::RECORD_SIZE])
}

// Stores a record there.
fn put(start: usize, record: Record, records: &mut [u8])
    requires { start + record_size ≤ length records.old }
    ensures { records.new ≡ replaced start (bytes «record») records.old }
{
    record.store(&mut records[start..start + config::RECORD_SIZE]);
}

// Writes the record's bundle, in the header's slot.
fn send(header: Header, record: Record, out: &mut [u8])
    requires { length out.old ≡ bundle_size }
    ensures { out.new ≡ sent (slot_of header) (bytes «record») }
{
    let header = Header {
        signers: record.signers,
        ..header
    };
    bundle::encode(header, record.payload, out);
}
