//! Legs.
//!
//! A leg is one number of 32 bits: twice its flight's, and one more where the crew rides.

ghost use Rattle.std.specs.Prelude.{◌≡◌, ◌/◌};
ghost use Rattle.std.proofs.Common.{refl};
ghost use Rattle.std.specs.Ordering.{as_partial_cmp, eq_by_cmp};
ghost use Rattle.std.specs.Cmp.{eq_by_cmp_equiv, partial_equiv_from_equiv, partial_order_from_total};
ghost use Rattle.crew_flights.specs.Codes.{IsFlightNumber};
ghost use Rattle.crew_pairing.specs.Legs as Spec;
ghost use Rattle.crew_pairing.specs.Legs.{leg_of_number, number_of, number-back};
ghost use Rattle.crew_pairing.specs.Keys.{leg_cmp, leg_total};
ghost use Rattle.crew_pairing.specs.Legality.{leg_of};

use crew_flights::{Flight, FlightId};
use std::cmp::Ordering;
use std::marker::Model;

/// A leg of a duty: a flight that the crew flies, or that it rides as passengers.
///
/// A contract sees the flight's number and whether the crew rides.
#[derive(Clone, Copy, Debug)]
pub struct Leg {
    // Twice the flight's number, and one more where the crew rides.
    number: u32,
}

impl Model for Leg {
    ghost Value = { Spec.Leg };

    ghost view = { λ leg. leg_of_number leg.number };

    ghost invariant = { λ leg. IsFlightNumber (leg.number / 2) };

    ghost inverse = { λ leg. record { number = number_of leg } };

    ghost inverse_ok = { λ leg _ i. record { number = number-back leg.number i } };
}

impl Leg {
    /// The leg of a flight, ridden as passengers or flown.
    pub fn new(flight: FlightId, deadhead: bool) -> Leg
        ensures { result ≡ record { flight = flight; deadhead = deadhead } }
    {
        let twice = flight.get() * 2;
        Leg {
            number: if deadhead { twice + 1 } else { twice },
        }
    }

    /// The flight.
    pub fn flight(self) -> FlightId
        ensures { result ≡ self.flight }
    {
        match FlightId::new(self.number / 2) {
            Some(flight) => flight,
            None => unreachable!(),
        }
    }

    /// Whether the crew rides it as passengers.
    pub fn is_deadhead(self) -> bool
        ensures { result ≡ self.deadhead }
    {
        self.number % 2 == 1
    }
}

/// A leg with all of its flight.
#[derive(Clone, Copy, Debug)]
pub struct TimedLeg {
    /// The flight.
    pub flight: Flight,
    /// Whether the crew rides it as passengers.
    pub deadhead: bool,
}

impl TimedLeg {
    /// The leg, by its flight's number.
    pub fn leg(&self) -> Leg
        ensures { result ≡ leg_of self.now }
    {
        Leg::new(self.flight.id, self.deadhead)
    }
}

impl PartialEq for Leg {
    ghost eq = { eq_by_cmp leg_cmp };

    ghost laws = { partial_equiv_from_equiv (eq_by_cmp_equiv leg_total) };

    fn eq(&self, other: &Leg) -> bool {
        self.cmp(other) == Ordering::Equal
    }
}

impl Eq for Leg {
    ghost laws = { eq_by_cmp_equiv leg_total };
}

impl PartialOrd for Leg {
    ghost partial_cmp = { as_partial_cmp leg_cmp };

    ghost laws = { partial_order_from_total leg_total };

    fn partial_cmp(&self, other: &Leg) -> Option<Ordering> {
        Some(self.cmp(other))
    }
}

impl Ord for Leg {
    ghost cmp = { leg_cmp };

    ghost total = { leg_total };

    ghost matches_partial_cmp = { λ a b. refl };

    ghost matches_eq = { λ a b. refl };

    fn cmp(&self, other: &Leg) -> Ordering {
        self.number.cmp(&other.number)
    }
}
