//! The events that duties leave and arrive at.
ghost use Rattle.std.specs.Prelude.{◌≡◌};
ghost use Rattle.crew_pairing.specs.Events.{IsSound, MayFollow};

use crate::duty::Duty;
use crew_flights::Code;
use crew_resource::Placed;

/// The end of a duty: where its last leg arrives, and when the crew is released.
#[derive(Clone, Copy, Debug)]
pub struct Arrival {
    pub airport: Code,
    /// In minutes since 1970-01-01T00:00 UTC.
    pub release: i64,
}

/// The begin of a duty: where its first leg departs, and when the crew reports.
#[derive(Clone, Copy, Debug)]
pub struct Departure {
    pub airport: Code,
    /// In minutes since 1970-01-01T00:00 UTC.
    pub report: i64,
}

impl Placed for Duty {
    type Arrival = Arrival;

    type Departure = Departure;

    ghost arrives = { λ d. record { airport = d.to; release = d.release } };

    ghost leaves = { λ d. record { airport = d.from; report = d.report } };

    ghost is_sound = { IsSound };

    ghost may_begin = { λ _. Unit {0} };

    ghost may_follow = { MayFollow };

    #[inline]
    fn arrival(&self) -> Arrival {
        Arrival {
            airport: self.to,
            release: i64::from(self.release),
        }
    }

    #[inline]
    fn departure(&self) -> Departure {
        Departure {
            airport: self.from,
            report: i64::from(self.report),
        }
    }
}
