// The C interface: opening a day and receiving, exported to C.
//
// include/mbrb.h declares the functions for C and C++, with those of crates mbrb_broadcast, mbrb_preview, mbrb_setpoint
// and mbrb_equivocators. A slice passes as a pointer and a length; what the host must see to there is in that file. Each
// function is that of crate mbrb with the very same clauses: no crate can use a static library, so a caller in Rattle
// has those of mbrb.
#![tactic(auto)]

ghost use Rattle.std.specs.Prelude.{◌≡◌};
ghost use Rattle.config.specs.Config.{config_of};
ghost use Rattle.calls.specs.Open.{opened, open_records};
ghost use Rattle.calls.specs.Receive.{receive, receive_records, receive_out};
ghost use Rattle.mbrb.specs.Code.{opened_code, received_code};

// Opens the day: makes every record empty. The code is 0, or the refusal's number.
#[unsafe(no_mangle)]
pub extern "C" fn mbrb_open(
    n: u8,
    t: u8,
    d: u8,
    own: u8,
    day: u32,
    quorum: u32,
    records: &mut [u8],
) -> u32
    ensures value { result ≡ opened_code (opened (config_of n t d own day quorum) records.old) }
    ensures records_after { records.new ≡ open_records (config_of n t d own day quorum) records.old }
{
    mbrb::mbrb_open(n, t, d, own, day, quorum, records)
}

// Receives a bundle. The code is 100 for kept, 101 for signed, 102 for delivered, 103 for noted, or the refusal's
// number.
#[unsafe(no_mangle)]
pub extern "C" fn mbrb_receive(
    n: u8,
    t: u8,
    d: u8,
    own: u8,
    day: u32,
    quorum: u32,
    bundle: &[u8],
    records: &mut [u8],
    out: &mut [u8],
) -> u32
    ensures value { result ≡ received_code (receive (config_of n t d own day quorum) bundle.now records.old out.old) }
    ensures records_after { records.new ≡ receive_records (config_of n t d own day quorum) bundle.now records.old out.old }
    ensures out_after { out.new ≡ receive_out (config_of n t d own day quorum) bundle.now records.old out.old }
{
    mbrb::mbrb_receive(n, t, d, own, day, quorum, bundle, records, out)
}
