//! What the legs of a duty come to, leg by leg.

ghost use Rattle.std.specs.Prelude.{◌++◌, ◌∷◌, [], List};
ghost use Rattle.crew_flights.specs.Timetable.{IsFlight};
ghost use Rattle.crew_pairing.specs.Machinery.Listing.{timed};
ghost use Rattle.crew_pairing.specs.declared.leg.TimedLeg.{TimedLeg};
ghost use Rattle.crew_duty.specs.Machinery.Running.{AreTotals, StayBounded};

use crew_flights::Flight;

/// What the legs so far come to, kept along a path so that no leg is looked at twice.
#[derive(Clone, Copy)]
pub(crate) struct Totals {
    /// How many of the legs the crew rides as passengers.
    pub(crate) deadheads: usize,
    /// How many of the legs the crew flies.
    pub(crate) segments: usize,
    /// The minutes that the crew flies.
    pub(crate) fly: i64,
    /// The prices of the flights that the crew flies.
    pub(crate) price: i64,
}

impl Totals {
    /// Of a first leg alone.
    #[inline(always)]
    pub(crate) fn of(flight: &Flight, deadhead: bool) -> Totals
        requires { IsFlight flight.now.id flight.now }
        ensures { AreTotals (timed deadhead flight.now ∷ []) result }
    {
        let none = Totals {
            deadheads: 0,
            segments: 0,
            fly: 0,
            price: 0,
        };
        none.after(flight, deadhead)
    }

    /// With one leg more.
    #[inline(always)]
    pub(crate) fn after(self, flight: &Flight, deadhead: bool) -> Totals
        requires sound { IsFlight flight.now.id flight.now }
        requires bounded { StayBounded self }
        ensures { (legs : List TimedLeg) → AreTotals legs self
            → AreTotals (legs ++ timed deadhead flight.now ∷ []) result }
    {
        if deadhead {
            return Totals {
                deadheads: self.deadheads + 1,
                ..self
            };
        }
        let minutes = flight.arr.get() - flight.dep.get();
        Totals {
            deadheads: self.deadheads,
            segments: self.segments + 1,
            fly: self.fly + minutes,
            price: self.price + flight.price,
        }
    }
}
