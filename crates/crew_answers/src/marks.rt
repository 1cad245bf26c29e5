//! The marks of values of pairings of up to 240 hours.
ghost use Rattle.std.specs.Prelude.{◌≡◌};
ghost use Rattle.crew_answers.specs.Machinery.Marks.{narrowed, turned, minutes_since, marks_of, marks_rise};

use crate::{LongResource, LongValue};
use crew_forgetful::Marked;
use crew_history::History;
use crew_pairing::Duty;

/// The nearest number of 32 bits.
#[inline]
fn narrow(number: i64) -> i32
    ensures { result ≡ narrowed number }
{
    number.clamp(-2_147_483_648, 2_147_483_647) as i32
}

/// The nearest number of 32 bits to -1 less the number: it falls where the number rises.
#[inline]
fn complement(number: i64) -> i32
    ensures { result ≡ turned number }
{
    narrow(-1 - number)
}

/// The duty minutes after the instant that lies so many minutes before a moment.
#[inline]
fn since(history: &History, moment: i32, back: i32) -> i32
    ensures { result ≡ minutes_since history.now moment back }
{
    narrow(history.minutes_after(moment.saturating_sub(back)))
}

impl Marked<Duty> for LongResource {
    ghost marks_of = { λ _ v moment. marks_of v moment };

    ghost marks_rise = { λ _ moment a b h. marks_rise moment a b h };

    /// The seven sums; the end of the last long rest, the later the lesser; and the duty minutes
    /// from each of eight days on, the first of which begins at the moment.
    fn marks(&self, value: &LongValue, moment: i32) -> [i32; 16] {
        let sums = &value.sums;
        let history = &value.recent.history;
        [
            narrow(sums.duty_pay),
            narrow(sums.trip_rig),
            narrow(sums.guarantee),
            narrow(sums.fdp),
            narrow(sums.fly),
            narrow(sums.duties),
            narrow(sums.away),
            complement(value.rest_end.minute),
            since(history, moment, 0),
            since(history, moment, 1_440),
            since(history, moment, 2_880),
            since(history, moment, 4_320),
            since(history, moment, 5_760),
            since(history, moment, 7_200),
            since(history, moment, 8_640),
            since(history, moment, 10_080),
        ]
    }

    /// The end of the last flight duty period, and 0 where there is none.
    #[inline]
    fn moment(&self, value: &LongValue) -> i32 {
        value.recent.history.end()
    }
}
