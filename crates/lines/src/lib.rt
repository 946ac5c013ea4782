// Lines (R15.3) of an input that comes in pieces (R15.11): a line that has not ended yet is held, and one that
// has ended does what it asks for.
#![tactic(auto)]

ghost use Rattle.std.specs.Prelude.{◌≡◌, ◌++◌, ◌+◌, ◌≤◌, length, take};
ghost use Rattle.text.specs.Text.{written};
ghost use Rattle.step.specs.Step.{row_space};
ghost use Rattle.stages.specs.Stages.{line_space};
ghost use Rattle.lines.specs.Bytes.{held_bytes, progress, after_bytes, bytes_text, used_bytes};
ghost use Rattle.lines.specs.Inner.{FeedAt, InPlace, UsesLine};

use nodes::RECORDS_SPACE;
use stages::{LINE_SPACE, State};
use step::ROW_SPACE;

// What is known of the input so far, beside the records and the bytes that are held: what the lines left that
// have ended, and how many bytes are held of the next. The bytes are in a buffer that the caller lends, since nothing
// here takes memory from a heap.
#[derive(Clone, Copy)]
pub struct Run {
    pub state: State,
    pub held: usize,
}

// A run after some bytes of the input, how many of them were used, and where the text ends that is printed for them.
#[derive(Clone, Copy)]
pub struct Next {
    pub run: Run,
    pub used: usize,
    pub len: usize,
}

// How many bytes of the line are held: no more than there is room for.
#[tactic(auto, unfolding(crate::specs::Bytes::held_bytes))]
pub fn held_bytes(run: Run) -> usize
    ensures { result ≡ held_bytes run }
{
    run.held.min(LINE_SPACE)
}

// Plays the first line of the chunk with its line feed, or holds what there is of it, and prints what is
// printed for it over `out` from index `at` on. If `out` has fewer than ROW_SPACE bytes there, nothing is
// done.
//
// What stands in `line` behind the held bytes is scratch: the contract gives the run and the line by what is
// known (`progress`), which does not look there, since to clear it for each line would cost time.
pub fn next_line(
    run: Run,
    chunk: &[u8],
    line: &mut [u8; LINE_SPACE],
    records: &mut [u8; RECORDS_SPACE],
    at: usize,
    out: &mut [u8],
) -> Next
    ensures used_value { result.used ≡ used_bytes at chunk.now out.old }
    ensures records_after { progress result.run line.new records.new ≡ after_bytes (progress run line.old records.old) (take result.used chunk.now) }
    ensures len_value { result.len ≡ at + length (bytes_text (progress run line.old records.old) (take result.used chunk.now)) }
    ensures out_after { out.new ≡ written at (bytes_text (progress run line.old records.old) (take result.used chunk.now)) out.old }
{
    if !text::has_room(ROW_SPACE, at, out) {
        return Next {
            run,
            used: 0,
            len: at,
        };
    }
    first_line(run, chunk, line, records, at, out)
}

// The same where `out` has ROW_SPACE bytes there.
fn first_line(
    run: Run,
    chunk: &[u8],
    line: &mut [u8; LINE_SPACE],
    records: &mut [u8; RECORDS_SPACE],
    at: usize,
    out: &mut [u8],
) -> Next
    requires { at + row_space ≤ length out.old }
    ensures { UsesLine run line.old records.old chunk.now at out.old result.run line.new records.new result.used result.len out.new }
{
    if let Some(next) = play_in_place(run, chunk, records, at, out) {
        return next;
    }
    put_together(run, chunk, line, records, at, out)
}

// Plays the first line where it stands, if nothing is held of it, it ends where a usual row does, and it is a step
// row that is read. Else nothing is done. A row that is read has no line feed in it. So where a line feed stands
// after such a row, that row is the line, and its bytes are not looked through for the end.
fn play_in_place(
    run: Run,
    chunk: &[u8],
    records: &mut [u8; RECORDS_SPACE],
    at: usize,
    out: &mut [u8],
) -> Option<Next>
    requires { at + row_space ≤ length out.old }
    ensures { InPlace run chunk.now records.old at out.old result records.new out.new }
{
    if run.held != 0 {
        return None;
    }
    let feed = usual_end(chunk)?;
    let len = stages::play_step_row(run.state, &chunk[..feed], records, at, out);
    // For a row that is read some text is printed.
    if len <= at {
        return None;
    }
    let run = Run {
        state: stages::after_step_row(run.state),
        held: 0,
    };
    Some(Next {
        run,
        used: feed + 1,
        len,
    })
}

// An index at which a line feed stands, of those at which it stands after a usual row. The most usual comes first.
fn usual_end(chunk: &[u8]) -> Option<usize>
    ensures { FeedAt result chunk.now }
{
    [57, 58, 42]
        .iter()
        .copied()
        .find(|index| chunk.get(*index) == Some(&b'\n'))
}

// Puts what there is of the line together in `line`. If it has ended, it does what it asks for.
fn put_together(
    run: Run,
    chunk: &[u8],
    line: &mut [u8; LINE_SPACE],
    records: &mut [u8; RECORDS_SPACE],
    at: usize,
    out: &mut [u8],
) -> Next
    requires { at + row_space ≤ length out.old }
    ensures { UsesLine run line.old records.old chunk.now at out.old result.run line.new records.new result.used result.len out.new }
{
    let end = text::find(b'\n', chunk);
    let held = hold(run, &chunk[..end], line);
    if end == chunk.len() {
        return Next {
            run: Run { held, ..run },
            used: end,
            len: at,
        };
    }
    let ended = stages::end_line(run.state, &line[..held], records, at, out);
    Next {
        run: Run {
            state: ended.state,
            held: 0,
        },
        used: end + 1,
        len: ended.len,
    }
}

// Adds bytes to those that are held, as far as there is room, and answers how many are held then. A line
// that has no room is too long for any row.
fn hold(run: Run, bytes: &[u8], line: &mut [u8; LINE_SPACE]) -> usize
    ensures upper_bound { result ≤ line_space }
    ensures line_after { take result line.new ≡ take line_space (take (held_bytes run) line.old ++ bytes.now) }
{
    let held = held_bytes(run);
    let room = LINE_SPACE - held;
    let more = bytes.len().min(room);
    line[held..held + more].copy_from_slice(&bytes[..more]);
    held + more
}
