// The records of up to eight nodes in one buffer: the day is opened at every node, and a step row is played
// over the records of its node and printed.
#![tactic(auto)]

ghost use Rattle.std.specs.Prelude.{◌≡◌};
ghost use Rattle.row.specs.Row.{row_in};
ghost use Rattle.step.specs.Step.{printed_over, printed_end};
ghost use Rattle.nodes.specs.Nodes.{played_nodes, opened_records, row_records, read_text};

use config::{Config, RECORD_SIZE, SLOTS};
use row::StepRow;

// How many nodes a run may have (R15.1).
pub const NODES: u8 = 8;

// Each node has a part of the buffer, all of one length: what the records take in a system of eight nodes.
pub const NODE_SPACE: usize = RECORD_SIZE * (SLOTS as usize) * (NODES as usize);

// The whole buffer. It is flat, and no array of arrays: what run promises is of these bytes in a row.
pub const RECORDS_SPACE: usize = NODE_SPACE * (NODES as usize);

// How many nodes are played: all of a system of at most eight, and else none.
pub fn played(config: Config) -> u8
    ensures { result ≡ played_nodes config }
{
    if NODES < config.n {
        return 0;
    }
    config.n
}

// Opens the day at every node that is played (R15.2).
pub fn open(config: Config, records: &mut [u8; RECORDS_SPACE])
    ensures { records.new ≡ opened_records config records.old }
{
    let size = config.records_size();
    for node in 0..played(config) {
        let start = NODE_SPACE * usize::from(node);
        // Where the configuration is not good, each call refuses, and every byte stays.
        let _ = calls::open(config.with_own(node), &mut records[start..start + size]);
    }
}

// Plays a step row at its node and prints it over `out` from index `at` on. The answer is where the printed
// row ends. A row that is not read does nothing, and the answer is `at`; for a row that is read it is `at`
// only if `out` has fewer than `step::ROW_SPACE` bytes there.
//
// It is the one place that reads a row, so that a row is never passed on by way of memory, which costs five
// percent of a run each time.
pub fn play_line(
    config: Config,
    ordinal: u64,
    line: &[u8],
    records: &mut [u8; RECORDS_SPACE],
    at: usize,
    out: &mut [u8],
) -> usize
    ensures value { result ≡ printed_end at (read_text config ordinal (row_in (played_nodes config) line.now) records.old) out.old }
    ensures out_after { out.new ≡ printed_over at (read_text config ordinal (row_in (played_nodes config) line.now) records.old) out.old }
    ensures records_after { records.new ≡ row_records config (row_in (played_nodes config) line.now) records.old }
{
    let Some(StepRow { node, step }) = row::read_row(played(config), line) else {
        return at;
    };
    let start = NODE_SPACE * usize::from(node);
    let end = start + config.records_size();
    let answer = step::play(config.with_own(node), step, &mut records[start..end]);
    step::print(ordinal, node, answer, at, out)
}
