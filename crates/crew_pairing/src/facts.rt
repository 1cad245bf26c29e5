//! The facts of a list of legs, which stands as its first leg and the list of the others.
//!
//! What a list of legs comes to is computed here alone, by plain passes over the list. The search
//! for duties keeps running totals, which are proved to be the same.

ghost use Rattle.std.specs.Prelude.{◌≡◌, ◌+◌, ◌*◌, ◌≤◌, ◌+ℤ◌, ◌-ℤ◌, ◌*ℤ◌, ◌≤ℤ◌, pos, length, ◌∷◌};
ghost use Rattle.crew_flights.specs.Timetable.{IsFlight};
ghost use Rattle.crew_resource.specs.Members.{Each};
ghost use Rattle.crew_rules.specs.Settings.{IsChecked};
ghost use Rattle.crew_pairing.specs.Legality as Spec;
ghost use Rattle.crew_pairing.specs.Legality.{total};

use crate::leg::TimedLeg;
use crew_rules::Settings;

// The minutes that the crew flies on a leg.
fn minutes_flown(leg: &TimedLeg) -> i64
    ensures value { result ≡ Spec.minutes_flown leg.now }
    ensures bound { ((pos 0 -ℤ pos 60_000_000) ≤ℤ result) × (result ≤ℤ pos 60_000_000) }
{
    if leg.deadhead {
        0
    } else {
        leg.flight.arr.get() - leg.flight.dep.get()
    }
}

/// The minutes that the crew flies on these legs.
pub fn flight_time(first: &TimedLeg, others: &[TimedLeg]) -> i64
    requires { length others.now ≤ 8 }
    ensures { result ≡ Spec.flight_time first.now others.now }
{
    let mut minutes = minutes_flown(first);
    for leg in others {
        minutes += minutes_flown(leg);
    }
    minutes
}

/// The last leg.
pub fn last_leg(first: &TimedLeg, others: &[TimedLeg]) -> TimedLeg
    ensures { result ≡ Spec.last_of first.now others.now }
{
    match others.last() {
        Some(leg) => *leg,
        None => *first,
    }
}

/// How many of the legs the crew flies.
pub fn segments(first: &TimedLeg, others: &[TimedLeg]) -> usize
    ensures { result ≡ Spec.segments (first.now ∷ others.now) }
{
    let flown = others.iter().filter(|leg| !leg.deadhead).count();
    if first.deadhead { flown } else { flown + 1 }
}

/// How many of the legs the crew rides as passengers.
pub fn deadheads(first: &TimedLeg, others: &[TimedLeg]) -> usize
    ensures { result ≡ Spec.deadheads (first.now ∷ others.now) }
{
    let ridden = others.iter().filter(|leg| leg.deadhead).count();
    if first.deadhead { ridden + 1 } else { ridden }
}

/// When the crew reports.
pub fn report(settings: &Settings, first: &TimedLeg) -> i64
    requires { IsChecked settings.now }
    ensures value { result ≡ Spec.report settings.now first.now }
    ensures bound { (pos 15_000_000 ≤ℤ result) × (result ≤ℤ pos 70_000_000) }
{
    first.flight.dep.get() - i64::from(settings.lead)
}

/// The minutes from report to the last arrival.
pub fn flight_duty_period(settings: &Settings, first: &TimedLeg, others: &[TimedLeg]) -> i64
    requires { IsChecked settings.now }
    ensures { result ≡ Spec.flight_duty_period settings.now first.now others.now }
{
    last_leg(first, others).flight.arr.get() - report(settings, first)
}

/// When the crew is released.
pub fn release(settings: &Settings, first: &TimedLeg, others: &[TimedLeg]) -> i64
    requires { IsChecked settings.now }
    ensures value { result ≡ Spec.release settings.now first.now others.now }
    ensures bound { (pos 15_000_000 ≤ℤ result) × (result ≤ℤ pos 70_000_000) }
{
    last_leg(first, others).flight.arr.get() + i64::from(settings.debrief)
}

// The price of a leg that the crew flies.
fn price_flown(leg: &TimedLeg) -> i64
    requires { IsFlight leg.now.flight.id leg.now.flight }
    ensures value { result ≡ Spec.price_of leg.now }
    ensures bound { ((pos 0 -ℤ pos 1_000_000_000) ≤ℤ result) × (result ≤ℤ pos 1_000_000_000) }
{
    if leg.deadhead { 0 } else { leg.flight.price }
}

/// The prices of the flights that the crew flies.
pub fn price(first: &TimedLeg, others: &[TimedLeg]) -> i64
    requires few { length others.now ≤ 7 }
    requires sound { Each (λ l. IsFlight l.flight.id l.flight) (first.now ∷ others.now) }
    ensures value { result ≡ total Spec.price_of (first.now ∷ others.now) }
    ensures bound { ((pos 0 -ℤ pos 9_000_000_000) ≤ℤ result) × (result ≤ℤ pos 9_000_000_000) }
{
    let mut sum = price_flown(first);
    for leg in others {
        sum += price_flown(leg);
    }
    sum
}
