//! The glance at pairings of up to 240 hours.
ghost use Rattle.std.specs.Prelude.{◌≡◌};
ghost use Rattle.crew_room.specs.Machinery.Glances.{glance_of, glances_rise, narrowed};

use crate::Glanced;
use crew_answers::{LongResource, LongValue};

/// The nearest number of 32 bits.
#[inline]
fn narrow(number: i64) -> i32
    ensures { result ≡ narrowed number }
{
    number.clamp(-2_147_483_648, 2_147_483_647) as i32
}

impl Glanced for LongResource {
    ghost glance_of = { glance_of };

    ghost glances_rise = { glances_rise };

    /// The guarantee, the minutes of duty and of flight and those away, each as near as 32 bits
    /// come.
    #[inline]
    fn glance(&self, value: &LongValue) -> [i32; 4] {
        let sums = &value.sums;
        [
            narrow(sums.guarantee),
            narrow(sums.fdp),
            narrow(sums.fly),
            narrow(sums.away),
        ]
    }
}
