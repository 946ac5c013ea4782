// Plays the first run (R16.5 of docs/RULES.md) by a node's calls, and writes what is printed for it: the file
// `stdout` holds that. Then come the bundles that were sent, a delivered payload, whether one node has something
// to send on, and each reason for which the calls refuse (R5.3).
//
// It shows how the calls are used. A node has 1,024 bytes of records for each node of the system, opens the day
// over them once, and from then on lends them, with 32 outgoing bytes, to each call. It sends the outgoing
// bytes to all when the answer is announced, signed or delivered. No call keeps anything elsewhere.
//
// Where a write fails, the program ends with its error.
#![tactic(auto)]

mod node;
mod refusals;

use crate::node::{Node, Outgoing, config_at};
use bundle::Header;
use config::Config;
use std::{fmt, io};

// The payload of the run.
const PAYLOAD: [u8; payload::SIZE] = [0, 1, 2, 3, 4, 5, 6, 7, 8, 9, 10, 11, 12, 13, 14, 15];

// The seven steps; of each step that sends, the outgoing bytes are kept. What a node receives is what a node
// sent, as the rows of the run have it, but for step 6.
fn main(rt: HostRuntime) -> io::Result<()> {
    let mut nodes = [Node::open(0), Node::open(1), Node::open(2), Node::open(3)];
    println!(rt; "line act unit answer reason count")?;
    // Node 0 announces, and node 1 signs what it hears. On hearing it again node 1 has nothing to send.
    let sent1 = nodes[0].broadcast(&rt, 1)?;
    let sent2 = nodes[1].receive(&rt, 2, &sent1)?;
    nodes[1].receive(&rt, 3, &sent1)?;
    // Two signatures and its own make a quorum of three at node 2. Then its own bundle comes back to it.
    let sent4 = nodes[2].receive(&rt, 4, &sent2)?;
    nodes[2].receive(&rt, 5, &sent4)?;
    // Node 3 gets a bundle for a slot of node 0, signed by node 1 alone.
    nodes[3].receive(&rt, 6, &forged())?;
    // Node 0 hears of a quorum for its own payload, and delivers it like any other.
    let sent7 = nodes[0].receive(&rt, 7, &sent4)?;
    deliveries(&rt, &nodes)?;
    println!(rt; "what was sent: line, unit, bundle")?;
    for (step, own, sent) in [(1, 0, sent1), (2, 1, sent2), (4, 2, sent4), (7, 0, sent7)] {
        println!(rt; "{step} {own} {}", Hex(&sent))?;
    }
    println!(rt;
        "the body that unit 2 shows\n{}",
        Hex(nodes[2].delivered(0, 0))
    )?;
    quorum_heard(&rt, nodes[1], &sent4)?;
    refusals::all(&rt, &nodes[1].records, &nodes[2].records, &sent1)
}

// The bundle of step 6. `bundle::write` refuses to write it, and `encode` checks nothing.
fn forged() -> Outgoing {
    let mut bundle = [0; bundle::SIZE];
    let header = Header {
        day: config_at(3).day,
        sender: 0,
        seq: 0,
        signers: 2,
    };
    bundle::encode(header, payload::load(&PAYLOAD), &mut bundle);
    bundle
}

// The slots that some node has delivered, by sender and then by sequence number, each with how many nodes delivered
// it and how many percent of the four that is: quarters, so that nothing is rounded (R16.8).
fn deliveries(rt: &impl Print, nodes: &[Node; 4]) -> io::Result<()> {
    println!(rt; "sender number units percent")?;
    for sender in 0..4 {
        for seq in 0..config::SLOTS {
            let units = nodes
                .iter()
                .filter(|node| node.has_delivered(sender, seq))
                .count();
            if units != 0 {
                println!(rt; "{sender} {seq} {units} {}", 100 * units / 4)?;
            }
        }
    }
    Ok(())
}

// Node 1 has signed, and now hears of a quorum. The node is a copy: the run goes on without this.
fn quorum_heard(rt: &impl Print, mut node: Node, bundle: &[u8]) -> io::Result<()> {
    let mut out = [0; bundle::SIZE];
    println!(rt; "has unit 1 something to send on taking the bundle of line 4")?;
    if to_send(bundle, &mut node.records, &mut out) {
        println!(rt; "yes")
    } else {
        println!(rt; "no")
    }
}

// Four nodes, one of which may lie; we are node 1, on day 7. A bundle has come in. Whether there is
// something to send: it stands in `out` then, 32 bytes for all nodes.
fn to_send(bundle: &[u8], records: &mut [u8], out: &mut [u8]) -> bool {
    let config = Config::new(4, 1, 0, 1, 7, config::least_quorum(4, 1));
    calls::receive(config, bundle, records, out).is_ok_and(|receipt| receipt.answer.sends())
}

// Bytes in hexadecimal.
#[derive(Clone, Copy)]
struct Hex<'a>(&'a [u8]);

impl fmt::Display for Hex<'_> {
    fn fmt<W: fmt::Write>(&self, f: &mut fmt::Formatter<W>) -> fmt::Result {
        for byte in self.0 {
            write!(f, "{byte:02x}")?;
        }
        Ok(())
    }
}
