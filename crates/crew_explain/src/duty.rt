//! A duty of a walk: its legs, and the first rule that they break.

ghost use Rattle.std.specs.Prelude.{◌≡◌, ◌≤◌, IfOk, length};
ghost use Rattle.crew_flights.specs.Timetable.{IsFlight};
ghost use Rattle.crew_rules.specs.Settings.{IsChecked};
ghost use Rattle.crew_resource.specs.Members.{Each};
ghost use Rattle.crew_explain.specs.Machinery.Ranges.{IsInRange};
ghost use Rattle.crew_explain.specs.Rules.{checked, duty_limits, duty_rules, first_of, limits_of, read_duty};

use crate::breach::{Breach, Rule, at_most, earliest, first_broken};
use crate::connections::connections_breach;
use crate::explained::Limits;
use crate::legs::{LEGS, duty_from, read_legs};
use crew_flights::Timetable;
use crew_pairing::facts::{deadheads, flight_duty_period, flight_time, last_leg, segments};
use crew_pairing::{Duty, Leg, TimedLeg};
use crew_rules::{Settings, table_a, table_b};

// What a duty of these legs may have.
fn limits_of(first: &TimedLeg, others: &[TimedLeg]) -> Limits
    requires { length others.now ≤ 7 }
    ensures { result ≡ limits_of first.now others.now }
{
    let clock = first.flight.report_clock;
    let counted = segments(first, others).max(1) as u8;
    Limits {
        clock,
        fly: table_a(clock),
        fdp: table_b(clock, counted),
    }
}

// Which limit these legs pass first.
fn limits_breach(
    settings: &Settings,
    duty: usize,
    first: &TimedLeg,
    others: &[TimedLeg],
) -> Option<Breach>
    requires checked { IsChecked settings.now }
    requires few { length others.now ≤ 7 }
    ensures { result ≡ first_of (duty_limits settings.now duty first.now others.now) }
{
    let limits = limits_of(first, others);
    let ridden = deadheads(first, others) as i64;
    let fly = flight_time(first, others);
    let fdp = flight_duty_period(settings, first, others);
    let last = last_leg(first, others);
    let most = i64::from(settings.deadheads);
    first_broken(&[
        at_most(Rule::Deadheads, duty, 0, ridden, most),
        (
            !last.deadhead,
            Breach::of(Rule::LastLeg, duty, others.len() + 1),
        ),
        at_most(Rule::FlightTime, duty, 0, fly, i64::from(limits.fly)),
        at_most(Rule::FlightDuty, duty, 0, fdp, i64::from(limits.fdp)),
    ])
}

// What a duty of these legs breaks first.
fn duty_breach(
    settings: &Settings,
    timetable: &Timetable,
    duty: usize,
    first: &TimedLeg,
    others: &[TimedLeg],
) -> Option<Breach>
    requires checked { IsChecked settings.now }
    requires few { length others.now ≤ 7 }
    ensures { result ≡ first_of
        (duty_rules settings.now timetable.now.turns duty first.now others.now) }
{
    earliest(&[
        connections_breach(settings, timetable, duty, first, others),
        limits_breach(settings, duty, first, others),
    ])
}

// The duty of these legs with what it may have, or the first rule that they break.
fn checked(
    settings: &Settings,
    timetable: &Timetable,
    duty: usize,
    legs: &[TimedLeg],
) -> Result<(Duty, Limits), Breach>
    requires checked { IsChecked settings.now }
    requires few { length legs.now ≤ 8 }
    requires sound { Each (λ l. IsFlight l.flight.id l.flight) legs.now }
    ensures value { result ≡ checked settings.now timetable.now.turns duty legs.now }
    ensures range { IfOk result (λ read. IsInRange read.0) }
{
    let Some((first, others)) = legs.split_first() else {
        return Err(Breach::of(Rule::LastLeg, duty, 0));
    };
    match duty_breach(settings, timetable, duty, first, others) {
        Some(breach) => Err(breach),
        None => Ok((duty_from(settings, first, others), limits_of(first, others))),
    }
}

/// A duty of a walk with what it may have, or the first rule that its legs break.
pub(crate) fn read_duty(
    settings: &Settings,
    timetable: &Timetable,
    duty: usize,
    key: &[Leg],
) -> Result<(Duty, Limits), Breach>
    requires { IsChecked settings.now }
    ensures value { result ≡ read_duty settings.now timetable.now duty key.now }
    ensures range { IfOk result (λ read. IsInRange read.0) }
{
    if key.len() > LEGS {
        return Err(Breach {
            rule: Rule::Legs,
            duty,
            leg: 0,
            found: key.len() as i64,
            limit: LEGS as i64,
        });
    }
    let Some((first, others)) = key.split_first() else {
        return Err(Breach::of(Rule::LastLeg, duty, 0));
    };
    let legs = read_legs(timetable, duty, *first, others)?;
    checked(settings, timetable, duty, legs.as_slice())
}
