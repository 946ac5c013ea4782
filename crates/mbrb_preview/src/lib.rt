// The C interface: what receiving a bundle would do, through numbers and byte slices, with receiving's codes.
//
// include/mbrb.h declares the function beside those of crate mbrb_c. It is a crate of its own since a static library is
// compiled as one module: there the decision that receiving and its preview share would have two callers, and the
// compiler would call it in place of joining it to each, which costs receiving more than half as many instructions again.
#![tactic(auto)]

ghost use Rattle.std.specs.Prelude.{◌≡◌};
ghost use Rattle.config.specs.Config.{config_of};
ghost use Rattle.calls.specs.Receive.{receive, receive_out};
ghost use Rattle.mbrb.specs.Code.{received_code};

use config::Config;

// Looks at a bundle: the code that mbrb_receive would give, and in `out` what it would leave there.
#[tactic(auto, using(mbrb::proofs::Codes::reported_received))]
#[unsafe(no_mangle)]
pub extern "C" fn mbrb_preview(
    n: u8,
    t: u8,
    d: u8,
    own: u8,
    day: u32,
    quorum: u32,
    bundle: &[u8],
    records: &[u8],
    out: &mut [u8],
) -> u32
    ensures value { result ≡ received_code (receive (config_of n t d own day quorum) bundle.now records.now out.old) }
    ensures out_after { out.new ≡ receive_out (config_of n t d own day quorum) bundle.now records.now out.old }
{
    let config = Config::new(n, t, d, own, day, quorum);
    mbrb::receipt_code(calls::preview(config, bundle, records, out))
}
