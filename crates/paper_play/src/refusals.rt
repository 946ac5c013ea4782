// Each reason for which opening, announcing, taking and showing refuse (R5.3), call by call in the order of the
// numbers, provoked by one call each.
//
// A refusal changes no byte (R5.1): the records are compared with a copy from before the call, and the outgoing
// bytes, which are all ee before it, with that.
use crate::PAYLOAD;
use crate::node::{Node, Outgoing, Records, config_at};
use refusal::Refusal;
use std::io;

// On the records that the run left: `held` of node 1, which holds node 0's payload, and `done` of node 2, which
// delivered it. The bundle is the one that node 0 announced.
pub(crate) fn all(
    rt: &impl Print,
    held: &Records,
    done: &Records,
    bundle: &Outgoing,
) -> io::Result<()> {
    println!(rt; "refused: call, reason, records and outgoing bytes")?;
    openings(rt, held)?;
    announcements(rt, held)?;
    readings(rt, held, bundle)?;
    takings(rt, held, done, bundle)?;
    println!(rt; "refused, and records are lent for reading only: call, reason, body")?;
    showings(rt, held)
}

// Reasons 1 and 20.
fn openings(rt: &impl Print, held: &Records) -> io::Result<()> {
    refused(rt, "opening", held, |records, _| {
        calls::open(config_at(4), records).err()
    })?;
    // One byte too few for records.
    refused(rt, "opening", held, |records, _| {
        calls::open(config_at(1), &mut records[1..]).err()
    })
}

// Reasons 1, 9, 10, 20, 21 and 25.
fn announcements(rt: &impl Print, held: &Records) -> io::Result<()> {
    announcing(rt, 4, &PAYLOAD, held)?;
    announcing(rt, 1, b"fifteen bytes..", held)?;
    // Outgoing bytes, and then records, that are one byte short.
    refused(rt, "announcing", held, |records, out| {
        calls::broadcast(config_at(1), &PAYLOAD, records, &mut out[1..]).err()
    })?;
    refused(rt, "announcing", held, |records, out| {
        calls::broadcast(config_at(1), &PAYLOAD, &mut records[1..], out).err()
    })?;
    announcing(rt, 1, &PAYLOAD, &malformed(held, 1))?;
    announcing(rt, 1, &PAYLOAD, &used_up())
}

// Reasons 1 to 8, the reader's.
fn readings(rt: &impl Print, held: &Records, bundle: &Outgoing) -> io::Result<()> {
    taking(rt, 4, bundle, held)?;
    taking(rt, 1, b"not a bundle", held)?;
    for (at, value) in [(6, 1), (3, 8), (4, 4), (5, 16), (15, 17), (15, 2)] {
        taking(rt, 1, &with_byte(bundle, at, value), held)?;
    }
    Ok(())
}

// Reasons 10 and 20 to 24.
fn takings(rt: &impl Print, held: &Records, done: &Records, bundle: &Outgoing) -> io::Result<()> {
    // Outgoing bytes, and then records, that are one byte short.
    refused(rt, "taking", held, |records, out| {
        calls::receive(config_at(1), bundle, records, &mut out[1..]).err()
    })?;
    refused(rt, "taking", held, |records, out| {
        calls::receive(config_at(1), bundle, &mut records[1..], out).err()
    })?;
    taking(rt, 1, bundle, &malformed(held, 0))?;
    taking(rt, 2, bundle, done)?;
    // Our own signature, in a slot of which we know nothing.
    taking(rt, 1, &with_byte(bundle, 15, 3), &Node::open(1).records)?;
    // A third payload, signed by its sender alone, where one is held and another noted.
    let noted = noting(held, &with_byte(bundle, 31, 0));
    taking(rt, 1, &with_byte(bundle, 31, 1), &noted)
}

// Reasons 1, 5, 6, 20, 21 and 26. Node 1 holds the payload and has not delivered it. `check_delivered` says why there
// is nothing to show, and what `delivered` lends is then empty.
fn showings(rt: &impl Print, held: &Records) -> io::Result<()> {
    let wrong = malformed(held, 0);
    for (own, sender, seq, records) in [
        (4, 0, 0, held.as_slice()),
        (1, 4, 0, held),
        (1, 0, 16, held),
        (1, 0, 0, &held[1..]),
        (1, 0, 0, &wrong),
        (1, 0, 0, held),
    ] {
        let config = config_at(own);
        let reason = calls::check_delivered(config, sender, seq, records).err();
        let shown = calls::delivered(config, sender, seq, records);
        let body = if shown.is_empty() { "none" } else { "some" };
        println!(rt; "showing {} {body}", number(reason))?;
    }
    Ok(())
}

// A node announces a payload.
fn announcing(rt: &impl Print, own: u8, payload: &[u8], before: &Records) -> io::Result<()> {
    refused(rt, "announcing", before, |records, out| {
        calls::broadcast(config_at(own), payload, records, out).err()
    })
}

// A node receives a bundle.
fn taking(rt: &impl Print, own: u8, bundle: &[u8], before: &Records) -> io::Result<()> {
    refused(rt, "taking", before, |records, out| {
        calls::receive(config_at(own), bundle, records, out).err()
    })
}

// A call, which is made over a copy of the records and outgoing bytes that are all ee: the reason for which it
// refused, and whether it left every byte as it was.
fn refused<F: FnOnce(&mut Records, &mut Outgoing) -> Option<Refusal>>(
    rt: &impl Print,
    name: &str,
    before: &Records,
    call: F,
) -> io::Result<()>
    requires { F.IsAlwaysCallable call }
{
    let mut records = *before;
    let mut out = [0xee; bundle::SIZE];
    let reason = call(&mut records, &mut out);
    let same = records == *before && out == [0xee; bundle::SIZE];
    let bytes = if same { "unchanged" } else { "changed" };
    println!(rt; "{name} {} {bytes}", number(reason))
}

// The number of the reason, or 0 where there is none.
fn number(reason: Option<Refusal>) -> u32 {
    reason.map_or(0, u32::from)
}

// The bundle with another byte at one place.
fn with_byte(bundle: &Outgoing, at: usize, value: u8) -> Outgoing {
    let mut other = *bundle;
    if let Some(byte) = other.get_mut(at) {
        *byte = value;
    }
    other
}

// The records after node 1 noted a second payload.
fn noting(held: &Records, bundle: &[u8]) -> Records {
    let mut records = *held;
    let _ = calls::receive(config_at(1), bundle, &mut records, &mut [0; bundle::SIZE]);
    records
}

// The records with the sender's first one in state 3, which no record has.
fn malformed(records: &Records, sender: u8) -> Records {
    let mut other = *records;
    let config = config_at(1);
    if let Some(state) = other.get_mut(config.place(config.slot_of_day(sender, 0))) {
        *state = 3;
    }
    other
}

// The records of node 1 after it announced as often as a day allows, once for each of its slots.
fn used_up() -> Records {
    let mut records = Node::open(1).records;
    for _ in 0..config::SLOTS {
        let _ = calls::broadcast(config_at(1), &PAYLOAD, &mut records, &mut [0; bundle::SIZE]);
    }
    records
}
