// Runs the examples that docs/RULES.md gives and writes what the library answers; the file `stdout` holds what
// the rules say. First the tables (R2.7) and a few more, then the bundles that the layout (R3.1) makes of the
// steps of the first run (R16.5), written and read back, then each reason for which reading and writing refuse
// (R5.3). Where a write fails, the program ends with its error.
#![tactic(auto)]

use config::Config;
use std::{fmt, io};

fn main(rt: HostRuntime) -> io::Result<()> {
    tables(&rt)?;
    bundles(&rt)?;
    readings(&rt)?;
    writings(&rt)
}

// The numbers of a table, and the quorum that it gives, which is 0 if it is not good.
fn tables(rt: &impl Print) -> io::Result<()> {
    println!(rt; "units faults losses chosen quorum")?;
    for (n, t, d, q) in [
        (1, 0, 0, 1),
        (2, 0, 0, 2),
        (4, 1, 0, 3),
        (6, 1, 1, 4),
        (64, 21, 0, 43),
        (64, 0, 31, 33),
        (0, 0, 0, 1),
        (5, 1, 1, 4),
        (64, 0, 32, 33),
        (65, 0, 0, 33),
        // Half of n + t, rounded up, is 3 here and too few (R17.5).
        (5, 1, 0, 3),
        (5, 1, 0, 4),
        // What a site with these units may choose (R2.11), and what it may not.
        (8, 1, 1, 0),
        (8, 1, 1, 4),
        (8, 1, 1, 5),
        (8, 1, 1, 6),
        (8, 1, 1, 7),
        (8, 1, 1, u32::MAX),
    ] {
        let quorum = Config::new(n, t, d, 0, 7, q).quorum();
        println!(rt; "{n} {t} {d} {q} {quorum}")?;
    }
    Ok(())
}

// The play's configuration at one of its nodes: four nodes, one of which may lie, on day 7, with the least
// quorum, which is 3.
fn play(own: u8) -> Config {
    Config::new(4, 1, 0, own, 7, config::least_quorum(4, 1))
}

// The bundles of the play's steps, by step: node, then the bytes, then what that node reads in them. The signers
// are put in afterwards: step 6 lacks its sender's signature, and `bundle::write` would refuse it.
fn bundles(rt: &impl Print) -> io::Result<()> {
    println!(rt; "step unit bundle reading")?;
    for (step, node, signers) in [
        (2, 1, 1),
        (3, 1, 1),
        (4, 2, 3),
        (5, 2, 7),
        (6, 3, 2),
        (7, 0, 7),
    ] {
        let bytes = with_byte(15, signers);
        println!(rt;
            "{step} {node} {} {}",
            Hex(&bytes),
            Seen(play(node), &bytes)
        )?;
    }
    println!(rt; "signers of step 5: {}", heard(&with_byte(15, 7)))
}

// How many have signed, as node 1 reads it; where it refuses, the reason's number.
fn heard(bytes: &[u8]) -> u32 {
    bundle::read(play(1), bytes).map_or_else(u32::from, |header| signers::size(header.signers))
}

// The bundle of step 2 with another byte at one place. That it was written shows in what is printed of it.
fn with_byte(at: usize, value: u8) -> [u8; bundle::SIZE] {
    let mut bytes = [0; bundle::SIZE];
    let payload = b"\x00\x01\x02\x03\x04\x05\x06\x07\x08\x09\x0a\x0b\x0c\x0d\x0e\x0f";
    let _ = bundle::write(play(1), 0, 0, 1, payload, &mut bytes);
    if let Some(byte) = bytes.get_mut(at) {
        *byte = value;
    }
    bytes
}

// Reasons 1 to 8, the reader's, in the order of the numbers.
fn readings(rt: &impl Print) -> io::Result<()> {
    println!(rt; "reasons of reading")?;
    println!(rt; "{}", Seen(play(4), &with_byte(15, 1)))?;
    println!(rt; "{}", Seen(play(1), b"not a bundle"))?;
    for (at, value) in [(6, 1), (3, 8), (4, 4), (5, 16), (15, 17), (15, 2)] {
        println!(rt; "{}", Seen(play(1), &with_byte(at, value)))?;
    }
    Ok(())
}

// The reasons of writing in the order of the numbers, with what the outgoing bytes are then, which are ee before it.
fn writings(rt: &impl Print) -> io::Result<()> {
    println!(rt; "reasons of writing")?;
    let payload = b"sixteen bytes ok";
    for (own, sender, seq, signers, payload, size) in [
        (4, 0, 0, 1, payload.as_slice(), bundle::SIZE),
        (1, 4, 0, 1, payload, bundle::SIZE),
        (1, 0, 16, 1, payload, bundle::SIZE),
        (1, 0, 0, 17, payload, bundle::SIZE),
        (1, 0, 0, 2, payload, bundle::SIZE),
        (1, 0, 0, 1, b"fifteen bytes..", bundle::SIZE),
        (1, 0, 0, 1, payload, bundle::SIZE - 1),
        (1, 0, 0, 1, payload, bundle::SIZE),
    ] {
        let mut out = [0xee; bundle::SIZE];
        let out = &mut out[..size];
        match bundle::write(play(own), sender, seq, signers, payload, out) {
            Ok(()) => println!(rt; "written {}", Hex(out))?,
            Err(reason) => println!(rt; "refused {} {}", u32::from(reason), Hex(out))?,
        }
    }
    Ok(())
}

// What the node of a configuration reads in a bundle: the fields and the payload, or why it refuses.
#[derive(Clone, Copy)]
struct Seen<'a>(Config, &'a [u8]);

impl fmt::Display for Seen<'_> {
    fn fmt<W: fmt::Write>(&self, f: &mut fmt::Formatter<W>) -> fmt::Result {
        let Seen(config, bytes) = *self;
        match bundle::read(config, bytes) {
            Ok(header) => write!(
                f,
                "{} {} {:016x} {}",
                header.sender,
                header.seq,
                header.signers,
                Hex(bundle::payload(config, bytes))
            ),
            Err(reason) => write!(f, "refused {}", u32::from(reason)),
        }
    }
}

// Bytes in hexadecimal, word by word; what is less than a word at the end is left out.
#[derive(Clone, Copy)]
struct Hex<'a>(&'a [u8]);

impl fmt::Display for Hex<'_> {
    fn fmt<W: fmt::Write>(&self, f: &mut fmt::Formatter<W>) -> fmt::Result {
        for word in self.0.chunks_exact(8) {
            write!(f, "{:016x}", octets::word(word))?;
        }
        Ok(())
    }
}
