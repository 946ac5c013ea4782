// A step of a run: played at its node by the call that it stands for, and printed.
#![tactic(auto)]

ghost use Rattle.std.specs.Prelude.{◌≡◌, ◌++◌, ◌+◌, ◌≤◌, length};
ghost use Rattle.refusal.specs.Outcome.{refused as refused_for};
ghost use Rattle.refusal.specs.Refusal.{number_of};
ghost use Rattle.record.specs.Record.{answer_of};
ghost use Rattle.calls.specs.Receive.{receipt_of};
ghost use Rattle.text.specs.Text.{ascii, written};
ghost use Rattle.step.specs.Step.{AnswersOver, records_over, out_over, Answers, records_by, answered, act_by, answer_text, answer_word, step_text, unread_text, printed_over, printed_end};

use bundle::Header;
use calls::Receipt;
use config::Config;
use refusal::Refusal;
use row::Step;

// Room for any row that is printed.
pub const ROW_SPACE: usize = 80;

// The answer of a step.
#[derive(Clone, Copy)]
pub enum Answer {
    Broadcast(Result<u8, Refusal>),
    Receive(Result<Receipt, Refusal>),
}

// Plays a step at the node of this configuration, over its records (R15.8). What it sends is not looked at.
pub fn play(config: Config, step: Step, records: &mut [u8]) -> Answer
    ensures answers { Answers config step records.old result }
    ensures records_after { records.new ≡ records_by config step records.old }
{
    let mut out = [0u8; bundle::SIZE];
    call(config, step, records, &mut out)
}

// Makes the call that a step stands for, at the node of this configuration. What is announced, signed or
// delivered is sent: it stands in `out` then, of 32 bytes.
pub fn call(config: Config, step: Step, records: &mut [u8], out: &mut [u8]) -> Answer
    ensures answers_over { AnswersOver config out.old step records.old result }
    ensures records_after { records.new ≡ records_over config out.old step records.old }
    ensures out_after { out.new ≡ out_over config out.old step records.old }
{
    match step {
        Step::Broadcast { payload } => {
            let bytes = payload.to_bytes();
            Answer::Broadcast(calls::broadcast(config, &bytes, records, out))
        }
        Step::Receive {
            sender,
            seq,
            signers,
            payload,
        } => {
            let header = Header {
                day: config.day,
                sender,
                seq,
                signers,
            };
            let mut bundle = [0u8; bundle::SIZE];
            bundle::encode(header, payload, &mut bundle);
            Answer::Receive(calls::receive(config, &bundle, records, out))
        }
    }
}

// Prints a step's row (R16.2) over `out` from index `at` on, and answers where it ends. A buffer that has
// fewer than ROW_SPACE bytes there stays as it is, whatever the row, and the answer is `at`.
pub fn print(ordinal: u64, node: u8, answer: Answer, at: usize, out: &mut [u8]) -> usize
    ensures value { result ≡ printed_end at (step_text ordinal node (act_by answer) (answered answer)) out.old }
    ensures out_after { out.new ≡ printed_over at (step_text ordinal node (act_by answer) (answered answer)) out.old }
{
    if !text::has_room(ROW_SPACE, at, out) {
        return at;
    }
    let a = text::decimal(ordinal, at, out);
    let b = text::put(act(answer), a, out);
    let c = text::decimal(u64::from(node), b, out);
    match answer {
        Answer::Broadcast(announcement) => announced(announcement, c, out),
        Answer::Receive(receipt) => received(receipt, c, out),
    }
}

// Prints the row of a step that is not read (R16.3), in the same way.
pub fn print_unread(ordinal: u64, at: usize, out: &mut [u8]) -> usize
    ensures value { result ≡ printed_end at (unread_text ordinal) out.old }
    ensures out_after { out.new ≡ printed_over at (unread_text ordinal) out.old }
{
    if !text::has_room(ROW_SPACE, at, out) {
        return at;
    }
    let a = text::decimal(ordinal, at, out);
    text::put(b" - - unread 0 0\n", a, out)
}

// The act of the step that was answered, between spaces.
fn act(answer: Answer) -> &'static [u8]
    ensures { result.now ≡ act_by answer }
{
    match answer {
        Answer::Broadcast(_) => b" A ",
        Answer::Receive(_) => b" B ",
    }
}

// The rest of a row, after its node.
fn announced(announcement: Result<u8, Refusal>, at: usize, out: &mut [u8]) -> usize
    requires { at + 34 ≤ length out.old }
    ensures value { result ≡ at + length (ascii " " ++ answer_text (answered (Answer.Broadcast announcement))) }
    ensures out_after { out.new ≡ written at (ascii " " ++ answer_text (answered (Answer.Broadcast announcement))) out.old }
{
    match announcement {
        Ok(_) => text::put(b" announced 0 1\n", at, out),
        Err(reason) => refused(reason, at, out),
    }
}

fn received(receipt: Result<Receipt, Refusal>, at: usize, out: &mut [u8]) -> usize
    requires { at + 34 ≤ length out.old }
    ensures value { result ≡ at + length (ascii " " ++ answer_text (receipt_of receipt)) }
    ensures out_after { out.new ≡ written at (ascii " " ++ answer_text (receipt_of receipt)) out.old }
{
    match receipt {
        Ok(receipt) => {
            let a = text::put(word(receipt.answer), at, out);
            let b = text::decimal(u64::from(receipt.count), a, out);
            text::put(b"\n", b, out)
        }
        Err(reason) => refused(reason, at, out),
    }
}

// The word of an answer, with the space before it and what stands between it and the count.
fn word(answer: record::Answer) -> &'static [u8]
    ensures { result.now ≡ ascii " " ++ (answer_word (answer_of answer) ++ ascii " 0 ") }
{
    match answer {
        record::Answer::Kept => b" kept 0 ",
        record::Answer::Signed => b" signed 0 ",
        record::Answer::Delivered => b" delivered 0 ",
        record::Answer::Noted => b" noted 0 ",
    }
}

fn refused(reason: Refusal, at: usize, out: &mut [u8]) -> usize
    requires { at + 34 ≤ length out.old }
    ensures value { result ≡ at + length (ascii " " ++ answer_text (refused_for (number_of reason))) }
    ensures out_after { out.new ≡ written at (ascii " " ++ answer_text (refused_for (number_of reason))) out.old }
{
    let a = text::put(b" refused ", at, out);
    let number = u32::from(reason);
    let b = text::decimal(u64::from(number), a, out);
    text::put(b" 0\n", b, out)
}
