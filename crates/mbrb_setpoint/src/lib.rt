// The C interface: one setpoint from what a node has delivered, through numbers and a byte slice, with one code.
//
// include/mbrb.h declares the function beside those of crate mbrb_c. It is a crate of its own, so that a host which
// does not pool setpoints does not link it.
#![tactic(auto)]

ghost use Rattle.std.specs.Prelude.{◌≡◌};
ghost use Rattle.config.specs.Config.{config_of};
ghost use Rattle.pool.specs.Pool.{setpoint, pooling_of};
ghost use Rattle.mbrb_setpoint.specs.Code.{setpoint_code};

use config::Config;
use refusal::Refusal;

// Pools the setpoints that are delivered. The code is 65,536 plus the setpoint's two bytes as an unsigned number, or
// the refusal's number.
#[unsafe(no_mangle)]
pub extern "C" fn mbrb_setpoint(
    n: u8,
    t: u8,
    d: u8,
    own: u8,
    day: u32,
    quorum: u32,
    records: &[u8],
) -> u32
    ensures { result ≡ setpoint_code (setpoint (config_of n t d own day quorum) records.now) }
{
    pooled_code(pool::setpoint(Config::new(n, t, d, own, day, quorum), records))
}

fn pooled_code(pooled: Result<i16, Refusal>) -> u32
    ensures { result ≡ setpoint_code (pooling_of pooled) }
{
    pooled.map_or_else(u32::from, |value| 65536 + u32::from(signed::to_bits(value)))
}
