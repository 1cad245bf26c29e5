//! Zones, and their clocks.

ghost use Rattle.std.specs.Prelude.{◌≡◌, ◌↔◌, IsOk, IsSome, IsUtf8, true, pos, ◌+ℤ◌, ◌/◌, ◌<◌, unsigned_abs};
ghost use Rattle.std.specs.Int.{int_rem_euclid};
ghost use Rattle.jiff_core.specs.Calendar.{IsBetween};
ghost use Rattle.jiff_core.specs.Timestamp.{IsOffsetSeconds};
ghost use Rattle.crew_clocks.specs.Zone.{begins_zone, clock_of, text_zone};
ghost use Rattle.jiff_tz.specs.PosixReader.{read_whole};

use crate::fault::TimeFault;
use crew_time::{ClockMinute, Minute};
use jiff::Timestamp;
use jiff::tz::TimeZone;
use std::alloc::AllocError;
use std::marker::Model;
use std::str;

/// A zone: a POSIX rule, as `EST5EDT,M3.2.0,M11.1.0`.
///
/// A contract sees what the rule says, as its text is read.
#[derive(Drop)]
pub struct Zone {
    rule: TimeZone<'static>,
}

impl Model for Zone {
    ghost use Rattle.std.specs.Prelude.{IsSome};
    ghost use Rattle.jiff.specs.ZoneView.{plain_zone};
    ghost use Rattle.jiff_tz.specs.PosixText.{TzText};
    ghost use Rattle.crew_clocks.specs.Zone.{rule_of, rule_or_utc};

    ghost Value = { TzText };

    ghost view = { λ zone. rule_or_utc (rule_of (plain_zone zone.rule)) };

    ghost invariant = { λ zone. IsSome (rule_of (plain_zone zone.rule)) };
}

// Whether the text begins as a zone's name does.
fn begins_name(text: &[u8]) -> bool
    ensures { result ≡ begins_zone text.now }
{
    match text.first() {
        Some(b) => b.is_ascii_alphabetic() || *b == b'<',
        None => false,
    }
}

// The minute of the local day, at an offset from UTC.
fn of_day(seconds: i64, offset: i32) -> u16
    requires seconds { IsBetween (pos 0) (pos 5_000_000_000) seconds }
    requires offset { IsOffsetSeconds offset }
    ensures value { result ≡ unsigned_abs (int_rem_euclid (seconds +ℤ offset) (pos 86_400)) / 60 }
    ensures bound { result < 1_440 }
{
    let local = (seconds + offset as i64).rem_euclid(86_400) as u32;
    (local / 60) as u16
}

impl Zone {
    /// Reads a POSIX rule of a zone, the whole of `text`.
    ///
    /// It is `BadZone` where the text is not UTF-8, where it does not begin with an ASCII letter
    /// or `<`, and where `jiff` reads no rule from it: a name of 3 to 15 letters (or between `<`
    /// and `>` also of digits, `+` and `-`), an offset of at most 24 hours that counts west, and
    /// then nothing, or a name, perhaps an offset, and both changes of daylight saving time.
    pub fn read(text: &[u8]) -> Result<Zone, TimeFault>
        ensures succeeds { IsOk result
            ↔ (IsUtf8 text.now × (begins_zone text.now ≡ true) × IsSome (read_whole text.now)) }
        ensures value { result ≡ text_zone text.now }
    {
        let Ok(rule) = str::from_utf8(text) else {
            return Err(TimeFault::BadZone);
        };
        if !begins_name(text) {
            return Err(TimeFault::BadZone);
        }
        match TimeZone::posix(rule) {
            Ok(rule) => Ok(Zone { rule }),
            Err(_) => Err(TimeFault::BadZone),
        }
    }

    /// What a clock in the zone shows at the instant, with the seconds cut off.
    ///
    /// It takes no memory.
    pub fn clock(&self, minute: Minute) -> ClockMinute
        ensures { result ≡ clock_of self.now minute }
    {
        let seconds = minute.get() * 60;
        let Ok(instant) = Timestamp::from_second(seconds) else {
            unreachable!();
        };
        match ClockMinute::new(of_day(seconds, self.rule.to_offset(instant).seconds())) {
            Some(clock) => clock,
            None => unreachable!(),
        }
    }
}

// The same rule, with no memory taken.
impl Clone for Zone {
    ghost use Rattle.std.specs.Prelude.{◌≡◌, ⊤};

    ghost is_clone = { λ zone copy. copy ≡ zone };

    ghost is_infallible = { λ _. ⊤ };

    fn clone(&self) -> Result<Zone, AllocError> {
        Ok(Zone { rule: self.rule })
    }
}
