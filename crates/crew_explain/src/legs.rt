//! Legs with their flights, and the duty of such a list.

ghost use Rattle.std.specs.Prelude.{◌≡◌, ◌≤◌, ◌+◌, ◌++◌, ◌∷◌, [], length};
ghost use Rattle.crew_flights.specs.Places.{placed_flight};
ghost use Rattle.crew_flights.specs.Timetable.{IsFlight, IsSound, Turns};
ghost use Rattle.crew_rules.specs.Settings.{IsChecked};
ghost use Rattle.crew_pairing.specs.Legality.{AllConnect, duty_of};
ghost use Rattle.crew_resource.specs.Members.{Each};
ghost use Rattle.crew_explain.specs.Machinery.Ranges.{IsInRange};
ghost use Rattle.crew_explain.specs.Rules.{held, timed_after, timed_leg};

use crate::breach::{Breach, Rule};
use crew_flights::{Flight, FlightId, Timetable};
use crew_pairing::facts::{flight_duty_period, flight_time, last_leg, price, release, report};
use crew_pairing::{Duty, Key, Leg, TimedLeg};
use crew_rules::{Settings, duty_pay};
use std::marker::Model;

/// The most legs of a duty.
pub(crate) const LEGS: usize = 8;

/// The facts of these legs, as those of a duty.
pub(crate) fn duty_from(settings: &Settings, first: &TimedLeg, others: &[TimedLeg]) -> Duty
    requires checked { IsChecked settings.now }
    requires few { length others.now ≤ 7 }
    requires sound { Each (λ l. IsFlight l.flight.id l.flight) (first.now ∷ others.now) }
    requires connected { (turns : Turns) × AllConnect settings.now turns first.now others.now }
    ensures value { result ≡ duty_of settings.now first.now others.now }
    ensures range { IsInRange result }
{
    let mut key = Key::of(first.leg());
    for leg in others {
        key.push(leg.leg());
    }
    let report = report(settings, first);
    let release = release(settings, first, others);
    let fly = flight_time(first, others);
    Duty {
        key,
        from: first.flight.from,
        to: last_leg(first, others).flight.to,
        report: report as i32,
        release: release as i32,
        fdp: flight_duty_period(settings, first, others) as i32,
        fly: fly as i32,
        pay: duty_pay(settings, release - report, fly) as i32,
        price: price(first, others),
    }
}

/// Legs in order, eight at most, in place.
///
/// A contract sees the list of them.
#[derive(Drop)]
pub(crate) struct Legs {
    legs: [TimedLeg; LEGS],
    count: u8,
}

impl Model for Legs {
    ghost use Rattle.std.specs.Prelude.{◌≤◌, List, take};
    ghost use Rattle.crew_pairing.specs.declared.leg.TimedLeg.{TimedLeg};

    ghost Value = { List TimedLeg };

    ghost view = { λ l. take l.count l.legs };

    ghost invariant = { λ l. l.count ≤ 8 };
}

impl Legs {
    // One leg.
    fn of(leg: &TimedLeg) -> Legs
        ensures { result ≡ leg.now ∷ [] }
    {
        Legs {
            legs: [*leg; LEGS],
            count: 1,
        }
    }

    /// The legs.
    pub(crate) fn as_slice(&self) -> &[TimedLeg]
        ensures { result.now ≡ self.now }
    {
        &self.legs[..self.count as usize]
    }

    // Appends a leg.
    fn push(&mut self, leg: &TimedLeg)
        requires { length self.old ≤ 7 }
        ensures { self.new ≡ self.old ++ leg.now ∷ [] }
    {
        self.legs[self.count as usize] = *leg;
        self.count += 1;
    }
}

// The flight of a leg, where it is held.
fn flight_of(timetable: &Timetable, duty: usize, leg: usize, id: FlightId) -> Result<Flight, Breach>
    ensures value { result ≡ held duty leg (placed_flight timetable.now id) }
    ensures sound { IsSound timetable.now }
{
    match timetable.placed_flight(id) {
        Some(flight) => Ok(flight),
        None => Err(Breach::of(Rule::Flight, duty, leg)),
    }
}

// A leg with its flight, where it is held.
fn timed(timetable: &Timetable, duty: usize, place: usize, leg: Leg) -> Result<TimedLeg, Breach>
    ensures value { result ≡ timed_leg timetable.now duty place leg }
    ensures sound { IsSound timetable.now }
{
    Ok(TimedLeg {
        flight: flight_of(timetable, duty, place, leg.flight())?,
        deadhead: leg.is_deadhead(),
    })
}

/// The legs of a duty with their flights, where all are held.
pub(crate) fn read_legs(
    timetable: &Timetable,
    duty: usize,
    first: Leg,
    others: &[Leg],
) -> Result<Legs, Breach>
    requires { length others.now ≤ 7 }
    ensures value { result ≡ timed_after timetable.now duty [] (first ∷ others.now) }
    ensures sound { IsSound timetable.now }
{
    let first = timed(timetable, duty, 1, first)?;
    let mut legs = Legs::of(&first);
    for leg in others {
        let next = timed(timetable, duty, legs.as_slice().len() + 1, *leg)?;
        legs.push(&next);
    }
    Ok(legs)
}
