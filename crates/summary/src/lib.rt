// The last rows of a run (R16.4): each slot that some node has delivered, with how many nodes did and how many
// percent of all nodes that is.
#![tactic(auto)]

ghost use Rattle.std.specs.Prelude.{◌≡◌, ◌+◌, ◌*◌, ◌≤◌, length};
ghost use Rattle.config.specs.Config.{slots};
ghost use Rattle.text.specs.Text.{written};
ghost use Rattle.nodes.specs.Nodes.{records_space};
ghost use Rattle.summary.specs.DisplayNorm.{percent as percent_of};
ghost use Rattle.summary.specs.Summary.{slot_text, sender_text, slots_text, summary_text, shown_count, slot_space, summary_over, summary_end};

use config::{Config, SLOTS};
use nodes::{NODE_SPACE, RECORDS_SPACE};
use std::cmp::Ordering;

// Room for any of the rows: four numbers of at most twenty digits, with a byte after each.
const ROW_SPACE: usize = 84;

// Room for the names line and for the rows of as many senders as a byte can count.
pub const SPACE: usize = 28 + ROW_SPACE * (SLOTS as usize) * 256;

// The whole percent nearest to `delivered` of n nodes, half way between two the even one (R16.8); 0 where n is 0
// (R16.10). Hundredths are those of a node.
pub fn percent(n: u8, delivered: u8) -> u64
    ensures { result ≡ percent_of n delivered }
{
    if n == 0 {
        return 0;
    }
    let all = n as u64;
    let hundredths = 100 * (delivered as u64);
    let whole = hundredths / all;
    let twice_rest = 2 * (hundredths % all);
    match twice_rest.cmp(&all) {
        Ordering::Less => whole,
        Ordering::Equal => whole + whole % 2,
        Ordering::Greater => whole + 1,
    }
}

// Prints the names line (R16.1) and the rows over `out` from index `at` on, and answers where they end. A
// buffer that has fewer than SPACE bytes there stays as it is, whatever the rows, and the answer is `at`.
pub fn print(config: Config, records: &[u8; RECORDS_SPACE], at: usize, out: &mut [u8]) -> usize
    ensures value { result ≡ summary_end at (summary_text config (shown_count config records.now)) out.old }
    ensures out_after { out.new ≡ summary_over at (summary_text config (shown_count config records.now)) out.old }
{
    if !text::has_room(SPACE, at, out) {
        return at;
    }
    let start = text::put(b"sender number units percent\n", at, out);
    rows(config, records, start, out)
}

// The rows, by sender.
fn rows(config: Config, records: &[u8; RECORDS_SPACE], at: usize, out: &mut [u8]) -> usize
    requires { at + slot_space * slots * 256 ≤ length out.old }
    ensures value { result ≡ at + length (slots_text config (shown_count config records.now)) }
    ensures out_after { out.new ≡ written at (slots_text config (shown_count config records.now)) out.old }
{
    let mut end = at;
    for sender in 0..config.n {
        end = sender_rows(config, sender, records, end, out);
    }
    end
}

// The rows of a sender, by seq.
fn sender_rows(
    config: Config,
    sender: u8,
    records: &[u8; RECORDS_SPACE],
    at: usize,
    out: &mut [u8],
) -> usize
    requires { at + slot_space * slots ≤ length out.old }
    ensures value { result ≡ at + length (sender_text config (shown_count config records.now) sender) }
    ensures out_after { out.new ≡ written at (sender_text config (shown_count config records.now) sender) out.old }
{
    let mut end = at;
    for seq in 0..SLOTS {
        let delivered = shown(config, sender, seq, records);
        end = slot_row(config.n, sender, seq, delivered, end, out);
    }
    end
}

// How many nodes show a payload in a slot: those that have delivered it.
fn shown(config: Config, sender: u8, seq: u8, records: &[u8; RECORDS_SPACE]) -> u8
    ensures { result ≡ shown_count config records.now sender seq }
{
    let size = config.records_size();
    let mut count = 0;
    for node in 0..nodes::played(config) {
        let start = NODE_SPACE * (node as usize);
        let own = &records[start..start + size];
        if calls::check_delivered(config.with_own(node), sender, seq, own).is_ok() {
            count += 1;
        }
    }
    count
}

// The row of a slot, if some node has delivered it.
fn slot_row(n: u8, sender: u8, seq: u8, delivered: u8, at: usize, out: &mut [u8]) -> usize
    requires { at + slot_space ≤ length out.old }
    ensures value { result ≡ at + length (slot_text n sender seq delivered) }
    ensures out_after { out.new ≡ written at (slot_text n sender seq delivered) out.old }
{
    if delivered == 0 {
        return at;
    }
    let a = text::decimal(sender as u64, at, out);
    let b = text::put(b" ", a, out);
    let c = text::decimal(seq as u64, b, out);
    let d = text::put(b" ", c, out);
    let e = text::decimal(delivered as u64, d, out);
    let f = text::put(b" ", e, out);
    let g = text::decimal(percent(n, delivered), f, out);
    text::put(b"\n", g, out)
}
