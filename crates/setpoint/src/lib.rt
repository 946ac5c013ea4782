// R18.1 and R18.2: a payload that says a setpoint.
#![tactic(auto)]

ghost use Rattle.std.specs.Prelude.{◌≡◌};
ghost use Rattle.payload.specs.Payload.{bytes};
ghost use Rattle.setpoint.specs.Setpoint.{setpoint_in, value_in};

use payload::Payload;

// The first byte of a payload that says a setpoint.
const TAG: u8 = 1;

// The setpoint that a payload says, in hundredths of a degree Celsius, and none if it says something else. Byte 0 is
// the tag and bytes 1 and 2 are the value; the five others of the high word, and the low word, are zero.
pub fn read(payload: Payload) -> Option<i16>
    ensures { value_in result ≡ setpoint_in (bytes payload) }
{
    let [tag, high, low, ..] = payload.high.to_be_bytes();
    if tag != TAG || payload.high % 0x100_0000_0000 != 0 || payload.low != 0 {
        return None;
    }
    Some(signed::from_bytes(high, low))
}
