//! Instants and what clocks show, in whole minutes.
//!
//! An instant takes four bytes, though its number is of 64 bits for callers: a log of a million
//! entries takes a fifth less memory for it.

ghost use Rattle.std.specs.Prelude.{◌≡◌, ◌<◌, ◌↔◌, ℕ, ℤ, IsSome, IfSome};

use std::marker::Model;

/// An instant: the number of minutes since 1970-01-01T00:00 UTC, from 15,776,640, which is
/// 1999-12-31T00:00, to 68,375,519, which is 2100-01-01T23:59.
///
/// A text names an instant of the years 2000 to 2099; the day on either side is for reports before
/// a departure and releases after an arrival. A contract sees the number.
#[derive(Clone, Copy, Debug, PartialEq, Eq, PartialOrd, Ord, Hash)]
pub struct Minute {
    // All of the range fits; half the bytes of the number that callers see.
    value: i32,
}

impl Model for Minute {
    ghost use Rattle.std.specs.Prelude.{ℤ};
    ghost use Rattle.crew_time.specs.Instant.{IsInstant};

    ghost Value = { ℤ };

    ghost view = { λ minute. minute.value };

    ghost invariant = { λ minute. IsInstant minute.value };

    ghost inverse = { λ value. record { value = value } };
}

impl Minute {
    ghost use Rattle.crew_time.specs.Instant.{IsInstant};

    /// The instant of a number of minutes, and none where the number is out of range.
    pub fn new(value: i64) -> Option<Self>
        ensures valid { IsSome result ↔ IsInstant value }
        ensures value { IfSome result (λ minute. minute ≡ value) }
    {
        if (15_776_640..=68_375_519).contains(&value) {
            Some(Minute {
                value: value as i32,
            })
        } else {
            None
        }
    }

    /// The number of minutes since 1970-01-01T00:00 UTC.
    pub fn get(self) -> i64
        ensures value { result ≡ self }
        ensures range { IsInstant result }
    {
        i64::from(self.value)
    }
}

/// What a clock shows: the minute of the day, from 0 at 00:00 to 1,439 at 23:59.
///
/// A contract sees the number.
#[derive(Clone, Copy, Debug, PartialEq, Eq, PartialOrd, Ord, Hash)]
pub struct ClockMinute {
    of_day: u16,
}

impl Model for ClockMinute {
    ghost Value = { ℕ };

    ghost view = { λ clock. clock.of_day };

    ghost invariant = { λ clock. clock.of_day < 1_440 };

    ghost inverse = { λ value. record { of_day = value } };
}

impl ClockMinute {
    /// What a clock shows at that minute of a day, and none from 1,440 on.
    pub fn new(value: u16) -> Option<Self>
        ensures valid { IsSome result ↔ (value < 1_440) }
        ensures value { IfSome result (λ clock. clock ≡ value) }
    {
        if value < 1_440 {
            Some(ClockMinute { of_day: value })
        } else {
            None
        }
    }

    /// The minute of the day, from 0 to 1,439.
    pub fn get(self) -> u16
        ensures value { result ≡ self }
        ensures range { result < 1_440 }
    {
        self.of_day
    }
}
