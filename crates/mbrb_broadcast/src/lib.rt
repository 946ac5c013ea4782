// The C interface: broadcasting through numbers and byte slices, with one code for an answer.
//
// include/mbrb.h declares the function beside those of crate mbrb_c. It is a crate of its own since a static library is
// compiled as one module: there the test of a record, which receiving and the search for a number share, would have two
// callers, and the compiler would call it in place of joining it to each, which makes the search more than twice as long.
#![tactic(auto)]

ghost use Rattle.std.specs.Prelude.{◌≡◌};
ghost use Rattle.config.specs.Config.{config_of};
ghost use Rattle.calls.specs.Broadcast.{broadcast, broadcast_records, broadcast_out, announcement_of};
ghost use Rattle.mbrb.specs.Code.{announced_code};

use config::Config;
use refusal::Refusal;

// Broadcasts a payload. The code is 200 plus the sequence number, or the refusal's number.
#[unsafe(no_mangle)]
pub extern "C" fn mbrb_broadcast(
    n: u8,
    t: u8,
    d: u8,
    own: u8,
    day: u32,
    quorum: u32,
    payload: &[u8],
    records: &mut [u8],
    out: &mut [u8],
) -> u32
    ensures value { result ≡ announced_code (broadcast (config_of n t d own day quorum) payload.now records.old out.old) }
    ensures records_after { records.new ≡ broadcast_records (config_of n t d own day quorum) payload.now records.old out.old }
    ensures out_after { out.new ≡ broadcast_out (config_of n t d own day quorum) payload.now records.old out.old }
{
    let config = Config::new(n, t, d, own, day, quorum);
    announcement_code(calls::broadcast(config, payload, records, out))
}

fn announcement_code(announcement: Result<u8, Refusal>) -> u32
    ensures { result ≡ announced_code (announcement_of announcement) }
{
    announcement.map_or_else(u32::from, |seq| 200 + u32::from(seq))
}
