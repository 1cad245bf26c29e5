//! Why a text is refused.

ghost use Rattle.std.specs.Prelude.{◌≡◌};
ghost use Rattle.crew_clocks.specs.Faults.{fault_number};

use std::error::Error;
use std::fmt;

/// Why a text of a time or of a zone is refused.
///
/// A text of a time gets the first that applies, in the order of the variants.
#[derive(Clone, Copy, Debug, PartialEq, Eq, Hash)]
pub enum TimeFault {
    /// The text is not of the form `YYYY-MM-DDTHH:MM`.
    BadTimeText = 1,
    /// The calendar has no such date, or the clock no such time.
    NoSuchTime = 2,
    /// The time is outside the years 2000 to 2099.
    YearRange = 3,
    /// The text is no POSIX rule of a zone.
    BadZone = 4,
}

impl TimeFault {
    /// The number by which a session prints the refusal: 1 to 4, in the order of the variants.
    pub fn number(self) -> u8
        ensures { result ≡ fault_number self }
    {
        self as u8
    }
}

impl fmt::Display for TimeFault {
    fn fmt<W: fmt::Write>(&self, f: &mut fmt::Formatter<W>) -> fmt::Result {
        match self {
            TimeFault::BadTimeText => write!(f, "the time is not written YYYY-MM-DDTHH:MM"),
            TimeFault::NoSuchTime => write!(f, "there is no such time"),
            TimeFault::YearRange => write!(f, "the time is outside the years 2000 to 2099"),
            TimeFault::BadZone => write!(f, "the zone is no POSIX rule"),
        }
    }
}

impl Error for TimeFault {}
