// A node of the run: it keeps its records, and lends them to each call.
use crate::PAYLOAD;
use config::Config;
use record::Answer;
use std::io;

// How many bytes of records each of the four nodes has for a day.
const RECORDS_SIZE: usize = config::RECORD_SIZE * (config::SLOTS as usize) * 4;

pub(crate) type Records = [u8; RECORDS_SIZE];

// Outgoing bytes, which a call makes a bundle.
pub(crate) type Outgoing = [u8; bundle::SIZE];

#[derive(Clone, Copy)]
pub(crate) struct Node {
    own: u8,
    pub(crate) records: Records,
}

// The configuration at one of the run's four nodes, of which one may lie, on day 7, with the least quorum, which is 3.
pub(crate) fn config_at(own: u8) -> Config {
    Config::new(4, 1, 0, own, 7, config::least_quorum(4, 1))
}

impl Node {
    // The node at the start of its day. The buffer may hold anything before. If opening refused and left it so, each
    // later call would find a record that no node writes, and refuse with 21.
    pub(crate) fn open(own: u8) -> Node {
        let mut records = [0xee; RECORDS_SIZE];
        let _ = calls::open(config_at(own), &mut records);
        Node { own, records }
    }

    // A step of act A: the node announces the payload. The number that was used is in the answer, too; the printed
    // row does not have it (R16.2).
    pub(crate) fn broadcast(&mut self, rt: &impl Print, step: u32) -> io::Result<Outgoing> {
        let own = self.own;
        let mut out = [0; bundle::SIZE];
        let answer = calls::broadcast(config_at(own), &PAYLOAD, &mut self.records, &mut out);
        let (word, reason) = match answer {
            Ok(_) => ("announced", 0),
            Err(reason) => ("refused", u32::from(reason)),
        };
        let count = calls::announcement_count(answer);
        println!(rt; "{step} A {own} {word} {reason} {count}")?;
        Ok(out)
    }

    // A step of act B: the node receives a bundle. What is signed or delivered is to be sent; what is kept or noted
    // is not.
    pub(crate) fn receive(
        &mut self,
        rt: &impl Print,
        step: u32,
        bundle: &[u8],
    ) -> io::Result<Outgoing> {
        let own = self.own;
        let mut out = [0; bundle::SIZE];
        let answer = calls::receive(config_at(own), bundle, &mut self.records, &mut out);
        let (word, reason) = match answer {
            Ok(receipt) => (word_of(receipt.answer), 0),
            Err(reason) => ("refused", u32::from(reason)),
        };
        let count = calls::receipt_count(answer);
        println!(rt; "{step} B {own} {word} {reason} {count}")?;
        Ok(out)
    }

    // Whether the node has delivered the slot.
    pub(crate) fn has_delivered(&self, sender: u8, seq: u8) -> bool {
        calls::check_delivered(config_at(self.own), sender, seq, &self.records).is_ok()
    }

    // The payload that the node has delivered in the slot, lent out of the records: nothing is copied. It is empty
    // where there is none.
    pub(crate) fn delivered(&self, sender: u8, seq: u8) -> &[u8] {
        calls::delivered(config_at(self.own), sender, seq, &self.records)
    }
}

fn word_of(answer: Answer) -> &'static str {
    match answer {
        Answer::Kept => "kept",
        Answer::Signed => "signed",
        Answer::Delivered => "delivered",
        Answer::Noted => "noted",
    }
}
