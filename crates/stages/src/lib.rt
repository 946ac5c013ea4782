// A run file line by line (R15.1): what a line does once it has ended, and what is printed for it. The first
// line is to be a names line, the second the table row, the third another names line, and all others are step
// rows.
#![tactic(auto)]

ghost use Rattle.std.specs.Prelude.{◌≡◌, [], if◌then◌else◌};
ghost use Rattle.octets.specs.Octets.{same};
ghost use Rattle.row.specs.Row.{table_names, step_names, row_in};
ghost use Rattle.step.specs.Step.{printed_over, printed_end};
ghost use Rattle.nodes.specs.Nodes.{played_nodes, opened_records, row_records, row_text};
ghost use Rattle.stages.specs.Stages.{start_state, with_stage, after_table_row, after_step_names, after_step_row, after_line, line_records, row_names, line_text, read_records, read_text};

use config::Config;
use nodes::RECORDS_SPACE;
use step::ROW_SPACE;

// So many bytes of a line are enough to know what it does: one more than a row may have (R15.10). A line that
// is longer is wrong whatever follows.
pub const LINE_SPACE: usize = 121;

// What the next line is to be; after a wrong one of the first three there is no table (R15.7).
#[derive(Clone, Copy, PartialEq, Eq, Debug)]
pub enum Stage {
    TableNames,
    TableRow,
    StepNames,
    Steps,
    NoTable,
}

// What is known after some lines, beside the records: what the next line is to be, the config that the table
// row gives, and the ordinal of the next step row. Three fields and no stage with values: specs/Stages gives a state as
// these three, and the laws of the stream cite it.
#[derive(Clone, Copy)]
pub struct State {
    pub stage: Stage,
    pub config: Config,
    pub ordinal: u64,
}

// What is known after a line, and where the text that is printed for it ends.
#[derive(Clone, Copy)]
pub struct Ended {
    pub state: State,
    pub len: usize,
}

// Before the first line.
#[tactic(auto, unfolding(crate::specs::Stages::start_state))]
pub fn start() -> State
    ensures { result ≡ start_state }
{
    State {
        stage: Stage::TableNames,
        config: Config::new(0, 0, 0, 0, 0, 0),
        ordinal: 0,
    }
}

// Does what a line that has ended asks for, and prints over `out` from index `at` on. If `out` has fewer than
// ROW_SPACE bytes there, nothing is printed, and all else is done.
pub fn end_line(
    state: State,
    line: &[u8],
    records: &mut [u8; RECORDS_SPACE],
    at: usize,
    out: &mut [u8],
) -> Ended
    ensures state_value { result.state ≡ after_line state line.now }
    ensures records_after { records.new ≡ line_records state line.now records.old }
    ensures len_value { result.len ≡ printed_end at (line_text state line.now records.old) out.old }
    ensures out_after { out.new ≡ printed_over at (line_text state line.now records.old) out.old }
{
    match state.stage {
        Stage::TableNames => Ended {
            state: end_table_names(state, line),
            len: at,
        },
        Stage::TableRow => Ended {
            state: end_table_row(state, row::read_table(line)),
            len: at,
        },
        Stage::StepNames => end_step_names(state, line, records, at, out),
        Stage::Steps => end_step_row(state, line, records, at, out),
        Stage::NoTable => Ended { state, len: at },
    }
}

// Does the same, but only for a step row that is read: any other line does nothing, and the answer is `at`.
// What is known after such a row is what `after_step_row` gives.
// The answer is no Option: by `printed_end` it is `at` for a row that is read too, where `out` has no room.
pub fn play_step_row(
    state: State,
    line: &[u8],
    records: &mut [u8; RECORDS_SPACE],
    at: usize,
    out: &mut [u8],
) -> usize
    ensures value { result ≡ printed_end at (read_text state line.now records.old) out.old }
    ensures out_after { out.new ≡ printed_over at (read_text state line.now records.old) out.old }
    ensures records_after { records.new ≡ read_records state line.now records.old }
{
    if let Stage::Steps = state.stage {
        nodes::play_line(state.config, state.ordinal, line, records, at, out)
    } else {
        at
    }
}

// What is known after a step row. The ordinal is counted in 64 bits.
#[tactic(auto, unfolding(crate::specs::Stages::after_step_row))]
pub fn after_step_row(state: State) -> State
    ensures { result ≡ after_step_row state }
{
    State {
        stage: Stage::Steps,
        ordinal: state.ordinal.wrapping_add(1),
        ..state
    }
}

// The first names line.
#[tactic(auto, unfolding(crate::specs::Stages::with_stage))]
fn end_table_names(state: State, line: &[u8]) -> State
    ensures { result ≡ with_stage state (if same line.now table_names then Stage.TableRow else Stage.NoTable) }
{
    let stage = if row::is_table_names(line) {
        Stage::TableRow
    } else {
        Stage::NoTable
    };
    State { stage, ..state }
}

// The table row.
#[tactic(auto, unfolding(crate::specs::Stages::with_stage))]
fn end_table_row(state: State, table: Option<Config>) -> State
    ensures { result ≡ after_table_row state table }
{
    let Some(config) = table else {
        return State {
            stage: Stage::NoTable,
            ..state
        };
    };
    if nodes::NODES < config.n {
        return State {
            stage: Stage::NoTable,
            ..state
        };
    }
    State {
        stage: Stage::StepNames,
        config,
        ..state
    }
}

// The second names line.
#[tactic(auto, unfolding(crate::specs::Stages::with_stage))]
fn end_step_names(
    state: State,
    line: &[u8],
    records: &mut [u8; RECORDS_SPACE],
    at: usize,
    out: &mut [u8],
) -> Ended
    ensures state_value { result.state ≡ (if same line.now step_names then after_step_names state else with_stage state Stage.NoTable) }
    ensures records_after { records.new ≡ (if same line.now step_names then opened_records state.config records.old else records.old) }
    ensures len_value { result.len ≡ printed_end at (if same line.now step_names then row_names else []) out.old }
    ensures out_after { out.new ≡ printed_over at (if same line.now step_names then row_names else []) out.old }
{
    if row::is_step_names(line) {
        begin(state, records, at, out)
    } else {
        Ended {
            state: State {
                stage: Stage::NoTable,
                ..state
            },
            len: at,
        }
    }
}

// Opens the day at every node that is played, and prints the names line above the step rows.
#[tactic(auto, unfolding(crate::specs::Stages::after_step_names))]
fn begin(state: State, records: &mut [u8; RECORDS_SPACE], at: usize, out: &mut [u8]) -> Ended
    ensures state_value { result.state ≡ after_step_names state }
    ensures records_after { records.new ≡ opened_records state.config records.old }
    ensures len_value { result.len ≡ printed_end at row_names out.old }
    ensures out_after { out.new ≡ printed_over at row_names out.old }
{
    nodes::open(state.config, records);
    Ended {
        state: State {
            stage: Stage::Steps,
            ordinal: 1,
            ..state
        },
        len: print_names(at, out),
    }
}

// Prints the names line above the step rows, as a row is printed.
fn print_names(at: usize, out: &mut [u8]) -> usize
    ensures value { result ≡ printed_end at row_names out.old }
    ensures out_after { out.new ≡ printed_over at row_names out.old }
{
    if !text::has_room(ROW_SPACE, at, out) {
        return at;
    }
    text::put(b"line act unit answer reason count\n", at, out)
}

// A step row. One for which nothing is printed was not read, or `out` has fewer than ROW_SPACE bytes there.
fn end_step_row(
    state: State,
    line: &[u8],
    records: &mut [u8; RECORDS_SPACE],
    at: usize,
    out: &mut [u8],
) -> Ended
    ensures state_value { result.state ≡ after_step_row state }
    ensures records_after { records.new ≡ row_records state.config (row_in (played_nodes state.config) line.now) records.old }
    ensures len_value { result.len ≡ printed_end at (row_text state.config state.ordinal (row_in (played_nodes state.config) line.now) records.old) out.old }
    ensures out_after { out.new ≡ printed_over at (row_text state.config state.ordinal (row_in (played_nodes state.config) line.now) records.old) out.old }
{
    let read = nodes::play_line(state.config, state.ordinal, line, records, at, out);
    let len = if at < read {
        read
    } else {
        step::print_unread(state.ordinal, at, out)
    };
    Ended {
        state: after_step_row(state),
        len,
    }
}
