// A run file, played as it comes in: what the run program (sections 15 and 16 of docs/RULES.md) does between
// reading and writing.
//
// The input is given in pieces of any length (R15.11). A call uses at most the first 16,384 bytes of a piece
// and says how many, and writes what is to be printed for them to a buffer given by the caller. All else that
// is kept from one piece to the next is a small struct, the line that has not ended yet and the records of
// eight nodes: nothing grows with the input.
#![tactic(auto)]

ghost use Rattle.std.specs.Prelude.{◌≡◌, ◌++◌, ◌+◌, ◌-◌, ◌≤◌, length, take, replicate};
ghost use Rattle.text.specs.Text.{written};
ghost use Rattle.summary.specs.Summary.{summary_space};
ghost use Rattle.lines.specs.Bytes.{progress, after_bytes, bytes_text, kept_run, kept_line};
ghost use Rattle.run.specs.Stream.{start_run, most_chunk, out_space, used_of_piece, after_piece, piece_text, closing_text, finished_text, finished_records};

use lines::{Next, Run};
use nodes::RECORDS_SPACE;
use stages::{LINE_SPACE, Stage, State};
use step::ROW_SPACE;

// So many bytes of a piece are used, or all of a shorter one.
pub const CHUNK: usize = 16384;

// Room for whatever so many bytes print: each may end a line, and a line prints a row at most.
pub const OUT_SPACE: usize = ROW_SPACE * CHUNK;

// Before the first byte of the input.
#[tactic(auto, unfolding(crate::specs::Stream::start_run))]
pub fn start() -> Run
    ensures { result ≡ start_run }
{
    Run {
        state: stages::start(),
        held: 0,
    }
}

// Plays a piece of the input, of any length, and writes what is printed for it to `out`. At most the first
// CHUNK bytes are used, and a caller goes on after those that were. The answer's `len` is how many bytes are to
// be printed. `line` is where a line is held that has not ended yet; behind it all is made zero, so that nothing
// is kept but what is known.
pub fn feed(
    run: Run,
    chunk: &[u8],
    line: &mut [u8; LINE_SPACE],
    records: &mut [u8; RECORDS_SPACE],
    out: &mut [u8; OUT_SPACE],
) -> Next
    ensures used_value { result.used ≡ used_of_piece chunk.now }
    ensures run_value { result.run ≡ kept_run (after_piece run line.old records.old chunk.now) }
    ensures line_after { line.new ≡ kept_line (after_piece run line.old records.old chunk.now) }
    ensures records_after { records.new ≡ (after_piece run line.old records.old chunk.now).records }
    ensures len_value { result.len ≡ length (piece_text run line.old records.old chunk.now) }
    ensures out_after { out.new ≡ written 0 (piece_text run line.old records.old chunk.now) out.old }
    ensures len_in_bounds { result.len ≤ length out.new }
{
    let used = chunk.len().min(CHUNK);
    let fed = feed_lines(run, &chunk[..used], line, records, out);
    let held = lines::held_bytes(fed.run);
    line[held..].fill(0);
    let run = Run { held, ..fed.run };
    Next { run, ..fed }
}

// Ends the input: plays what there is of a last line, and writes what is printed at the end to `out`. The
// answer is how many bytes that is.
pub fn finish(
    run: Run,
    line: &[u8; LINE_SPACE],
    records: &mut [u8; RECORDS_SPACE],
    out: &mut [u8; OUT_SPACE],
) -> usize
    ensures value { result ≡ length (finished_text (progress run line.now records.old)) }
    ensures out_after { out.new ≡ written 0 (finished_text (progress run line.now records.old)) out.old }
    ensures records_after { records.new ≡ finished_records (progress run line.now records.old) }
    ensures upper_bound { result ≤ length out.new }
{
    let held = lines::held_bytes(run);
    if held == 0 {
        return close(run.state, records, 0, out);
    }
    let ended = stages::end_line(run.state, &line[..held], records, 0, out);
    close(ended.state, records, ended.len, out)
}

// The last names line and rows, or that there was no table.
fn close(state: State, records: &[u8; RECORDS_SPACE], at: usize, out: &mut [u8]) -> usize
    requires { at + summary_space ≤ length out.old }
    ensures value { result ≡ at + length (closing_text state records.now) }
    ensures out_after { out.new ≡ written at (closing_text state records.now) out.old }
{
    match state.stage {
        Stage::Steps => summary::print(state.config, records, at, out),
        _ => text::put(b"no table\n", at, out),
    }
}

// Every line that ends in the chunk, and what there is of the next.
fn feed_lines(
    run: Run,
    chunk: &[u8],
    line: &mut [u8; LINE_SPACE],
    records: &mut [u8; RECORDS_SPACE],
    out: &mut [u8],
) -> Next
    requires chunk_len_bound { length chunk.now ≤ most_chunk }
    requires out_len { length out.old ≡ out_space }
    ensures records_after { progress result.run line.new records.new ≡ after_bytes (progress run line.old records.old) chunk.now }
    ensures used_value { result.used ≡ length chunk.now }
    ensures len_value { result.len ≡ length (bytes_text (progress run line.old records.old) chunk.now) }
    ensures out_after { out.new ≡ written 0 (bytes_text (progress run line.old records.old) chunk.now) out.old }
    ensures len_in_bounds { result.len ≤ length out.new }
{
    let mut fed = Next {
        run,
        used: 0,
        len: 0,
    };
    // A turn goes on by as many bytes as the line has, so no `for` fits.
    while fed.used < chunk.len() {
        let rest = &chunk[fed.used..];
        let next = lines::next_line(fed.run, rest, line, records, fed.len, out);
        fed = Next {
            used: fed.used + next.used,
            ..next
        };
    }
    fed
}
