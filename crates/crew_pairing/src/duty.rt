//! Duties.

ghost use Rattle.std.specs.Prelude.{◌≡◌};

use crate::key::Key;
use crew_flights::Code;

/// A duty with all its facts. Times are minutes since 1970-01-01T00:00 UTC, money is in points.
#[derive(Debug, Drop)]
pub struct Duty {
    /// Its legs.
    pub key: Key,
    /// Where its first leg departs.
    pub from: Code,
    /// Where its last leg arrives.
    pub to: Code,
    /// When the crew reports.
    pub report: i32,
    /// When the crew is released.
    pub release: i32,
    /// The minutes of its flight duty period, from report to the last arrival.
    pub fdp: i32,
    /// Its flight minutes, those of the legs that the crew flies.
    pub fly: i32,
    /// Its pay.
    pub pay: i32,
    /// The prices of the flights that the crew flies.
    pub price: i64,
}

impl Duty {
    /// An equal duty.
    pub fn copy(&self) -> Duty
        ensures { result ≡ self.now }
    {
        Duty {
            key: self.key.copy(),
            ..*self
        }
    }
}
