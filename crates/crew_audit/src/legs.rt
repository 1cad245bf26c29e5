//! Lists of legs: which may go on, which can begin a duty, and the duty of such a list.

ghost use Rattle.std.specs.Prelude.{◌≡◌, ◌≤◌, ◌++◌, ◌∷◌, [], length};
ghost use Rattle.crew_flights.specs.Timetable.{IsFlight, Turns};
ghost use Rattle.crew_rules.specs.Settings.{IsChecked};
ghost use Rattle.crew_pairing.specs.Legality.{AllConnect, duty_of, may_follow};
ghost use Rattle.crew_pairing.specs.Machinery.Listing.{is_hopeless, timed};
ghost use Rattle.crew_resource.specs.Members.{Each};
ghost use Rattle.crew_audit.specs.Machinery.Ranges.{IsInRange};

use crate::flight_list::FlightList;
use crew_flights::Flight;
use crew_pairing::facts::{
    deadheads, flight_duty_period, flight_time, last_leg, price, release, report, segments,
};
use crew_pairing::{Duty, Key, TimedLeg};
use crew_rules::{Settings, duty_pay, table_a, table_b};
use std::marker::Model;

/// The most legs of a duty.
pub(crate) const LEGS: usize = 8;

/// Whether a flight may come next after another.
pub(crate) fn may_come_next(
    settings: &Settings,
    flights: &FlightList<'_>,
    before: &Flight,
    next: &Flight,
) -> bool
    requires { IsChecked settings.now }
    ensures { result ≡ may_follow settings.now flights.now.turns before.now next.now }
{
    let gap = next.dep.get() - before.arr.get();
    before.to == next.from
        && gap <= i64::from(settings.sit)
        && i64::from(flights.turn_time(settings, before, next)) <= gap
}

/// Whether no duty can begin with these legs.
pub(crate) fn cannot_begin(settings: &Settings, first: &TimedLeg, others: &[TimedLeg]) -> bool
    requires checked { IsChecked settings.now }
    requires few { length others.now ≤ 7 }
    ensures { result ≡ is_hopeless settings.now first.now others.now }
{
    if deadheads(first, others) > settings.deadheads as usize {
        return true;
    }
    let clock = first.flight.report_clock;
    let counted = segments(first, others).max(1) as u8;
    flight_time(first, others) > i64::from(table_a(clock))
        || flight_duty_period(settings, first, others) > i64::from(table_b(clock, counted))
}

/// The facts of these legs, as those of a duty.
pub(crate) fn duty_from(settings: &Settings, first: &TimedLeg, others: &[TimedLeg]) -> Duty
    requires checked { IsChecked settings.now }
    requires few { length others.now ≤ 7 }
    requires sound { Each (λ l. IsFlight l.flight.id l.flight) (first.now ∷ others.now) }
    requires connected { (turns : Turns) × AllConnect settings.now turns first.now others.now }
    ensures value { result ≡ duty_of settings.now first.now others.now }
    ensures range { IsInRange result }
{
    let mut key = Key::of(first.leg());
    for leg in others {
        key.push(leg.leg());
    }
    let report = report(settings, first);
    let release = release(settings, first, others);
    let fly = flight_time(first, others);
    Duty {
        key,
        from: first.flight.from,
        to: last_leg(first, others).flight.to,
        report: report as i32,
        release: release as i32,
        fdp: flight_duty_period(settings, first, others) as i32,
        fly: fly as i32,
        pay: duty_pay(settings, release - report, fly) as i32,
        price: price(first, others),
    }
}

/// Legs in order, eight at most, in place.
///
/// A contract sees the list of them.
#[derive(Drop)]
pub(crate) struct Legs {
    legs: [TimedLeg; LEGS],
    count: u8,
}

impl Model for Legs {
    ghost use Rattle.std.specs.Prelude.{◌≤◌, List, take};
    ghost use Rattle.crew_pairing.specs.declared.leg.TimedLeg.{TimedLeg};

    ghost Value = { List TimedLeg };

    ghost view = { λ l. take l.count l.legs };

    ghost invariant = { λ l. l.count ≤ 8 };
}

impl Legs {
    // None; the leg fills their places.
    fn none(leg: &TimedLeg) -> Legs
        ensures { result ≡ [] }
    {
        Legs {
            legs: [*leg; LEGS],
            count: 0,
        }
    }

    /// The legs.
    pub(crate) fn as_slice(&self) -> &[TimedLeg]
        ensures { result.now ≡ self.now }
    {
        &self.legs[..self.count as usize]
    }

    // Appends a leg.
    fn push(&mut self, leg: &TimedLeg)
        requires { length self.old ≤ 7 }
        ensures { self.new ≡ self.old ++ leg.now ∷ [] }
    {
        self.legs[self.count as usize] = *leg;
        self.count += 1;
    }
}

/// These legs, and then one more.
pub(crate) fn followed_by(legs: &[TimedLeg], flight: &Flight, deadhead: bool) -> Legs
    requires { length legs.now ≤ 7 }
    ensures { result ≡ legs.now ++ timed deadhead flight.now ∷ [] }
{
    let last = TimedLeg {
        flight: *flight,
        deadhead,
    };
    let mut longer = Legs::none(&last);
    for leg in legs {
        longer.push(leg);
    }
    longer.push(&last);
    longer
}
