// The C interface: opening a day and receiving through numbers and byte slices, with one code for an answer.
//
// Crate mbrb_c exports the two to C, and a caller in Rattle has them here, since no crate can use a static library. The
// codes and their definitions serve mbrb_broadcast, mbrb_preview, mbrb_setpoint and mbrb_equivocators too.
#![tactic(auto)]

ghost use Rattle.std.specs.Prelude.{◌≡◌};
ghost use Rattle.refusal.specs.Refusal.{verdict_of};
ghost use Rattle.config.specs.Config.{config_of};
ghost use Rattle.record.specs.Record.{answer_of};
ghost use Rattle.calls.specs.Open.{opened, open_records};
ghost use Rattle.calls.specs.Receive.{receive, receive_records, receive_out, receipt_of};
ghost use Rattle.mbrb.specs.Code.{opened_code, received_code, reported_code, answer_code};

use calls::Receipt;
use config::Config;
use record::Answer;
use refusal::Refusal;

// Opens the day: makes every record empty. The code is 0, or the refusal's number.
pub fn mbrb_open(n: u8, t: u8, d: u8, own: u8, day: u32, quorum: u32, records: &mut [u8]) -> u32
    ensures value { result ≡ opened_code (opened (config_of n t d own day quorum) records.old) }
    ensures records_after { records.new ≡ open_records (config_of n t d own day quorum) records.old }
{
    verdict_code(calls::open(Config::new(n, t, d, own, day, quorum), records))
}

// Receives a bundle. The code is 100 for kept, 101 for signed, 102 for delivered, 103 for noted, or the refusal's
// number.
#[tactic(auto, using(crate::proofs::Codes::reported_received))]
pub fn mbrb_receive(
    n: u8,
    t: u8,
    d: u8,
    own: u8,
    day: u32,
    quorum: u32,
    bundle: &[u8],
    records: &mut [u8],
    out: &mut [u8],
) -> u32
    ensures value { result ≡ received_code (receive (config_of n t d own day quorum) bundle.now records.old out.old) }
    ensures records_after { records.new ≡ receive_records (config_of n t d own day quorum) bundle.now records.old out.old }
    ensures out_after { out.new ≡ receive_out (config_of n t d own day quorum) bundle.now records.old out.old }
{
    let config = Config::new(n, t, d, own, day, quorum);
    receipt_code(calls::receive(config, bundle, records, out))
}

// The code of opening, and of checking whether two nodes' records are compared.
pub fn verdict_code(verdict: Result<(), Refusal>) -> u32
    ensures { result ≡ opened_code (verdict_of verdict) }
{
    verdict.map_or_else(u32::from, |()| 0)
}

// The code of receiving, and of a preview.
pub fn receipt_code(receipt: Result<Receipt, Refusal>) -> u32
    ensures { result ≡ reported_code (receipt_of receipt) }
{
    receipt.map_or_else(u32::from, |receipt| answer_code(receipt.answer))
}

// The code of each answer.
fn answer_code(answer: Answer) -> u32
    ensures { result ≡ answer_code (answer_of answer) }
{
    match answer {
        Answer::Kept => 100,
        Answer::Signed => 101,
        Answer::Delivered => 102,
        Answer::Noted => 103,
    }
}
