// RULES section 18: one setpoint from many. Of each sender the delivered setpoint with the highest number is pooled,
// called its latest here, and the outcome is the lower middle of the pool.
#![tactic(auto)]

ghost use Rattle.std.specs.Prelude.{◌≡◌, ◌<◌, length};
ghost use Rattle.pool.specs.Pool.{setpoint as setpoint_of, pooling_of};
ghost use Rattle.pool.specs.Inner.{Scanned, Collects};

use calls::Day;
use config::Config;
use refusal::Refusal;

// How many values the pool can have: one for each node.
const SPACE: usize = 64;

// R18.7: the setpoint of the whole system, in hundredths of a degree Celsius, from what this node has delivered. The
// records are lent for reading. Each of them is tested, whether it counts or not.
pub fn setpoint(config: Config, records: &[u8]) -> Result<i16, Refusal>
    ensures { pooling_of result ≡ setpoint_of config records.now }
{
    let day = Day::new(config, records)?;
    let mut values = [0i16; SPACE];
    let count = collect(day, &mut values)?;
    if count <= 2 * usize::from(config.t) {
        return Err(Refusal::TooFewSetpoints);
    }
    Ok(middle::lower_middle(&mut values[..count]))
}

// R18.5: stores each sender's latest setpoint in `values`, one after the other, and tells how many there are. They lie
// in a buffer with a count beside it, since the library takes no memory from a heap.
fn collect(day: Day<'_>, values: &mut [i16]) -> Result<usize, Refusal>
    requires { length values.old ≡ 64 }
    ensures { Collects day.entry.config day.entry.records.now result values.new }
{
    let mut count: usize = 0;
    for sender in 0..day.config.n {
        let latest = scan(day, sender)?;
        if let Some(value) = latest {
            values[count] = value;
            count += 1;
        }
    }
    Ok(count)
}

// R18.4: looks at the sixteen records of a sender for its latest setpoint. The last one found has the highest number.
fn scan(day: Day<'_>, sender: u8) -> Result<Option<i16>, Refusal>
    requires { sender < day.config.n }
    ensures { Scanned day.entry.config day.entry.records.now sender result }
{
    let mut latest = None;
    for seq in 0..config::SLOTS {
        let record = day.well_formed_record(sender, seq)?;
        if record.is_delivered() {
            latest = setpoint::read(record.payload).or(latest);
        }
    }
    Ok(latest)
}
