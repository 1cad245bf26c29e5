//! Which legs may follow each other.

ghost use Rattle.std.specs.Prelude.{◌≡◌, ◌≤◌, ◌≤ℤ◌, length, pos};
ghost use Rattle.crew_rules.specs.Settings.{IsChecked};
ghost use Rattle.crew_explain.specs.Rules.{connection, connections, first_of, least_gap};

use crate::breach::{Breach, Rule, at_least, at_most, first_broken};
use crew_flights::{Flight, Timetable};
use crew_pairing::TimedLeg;
use crew_rules::Settings;

// The least minutes between two legs by their turn, and the rule that asks for them.
fn least_gap(settings: &Settings, turn: Option<u32>) -> (Rule, i64)
    ensures value { result ≡ least_gap settings.now turn }
    ensures range { (pos 0 ≤ℤ result.1) × (result.1 ≤ℤ pos 4_294_967_295) }
{
    match turn {
        Some(minutes) => (Rule::Turn, i64::from(minutes)),
        None => (Rule::Connect, i64::from(settings.connect)),
    }
}

// What a leg and the next break first.
fn connection_breach(
    settings: &Settings,
    timetable: &Timetable,
    duty: usize,
    leg: usize,
    before: &Flight,
    next: &Flight,
) -> Option<Breach>
    requires { IsChecked settings.now }
    ensures { result ≡ first_of
        (connection settings.now timetable.now.turns duty leg before.now next.now) }
{
    let gap = next.dep.get() - before.arr.get();
    let (rule, least) = least_gap(settings, timetable.turn(before.id, next.id));
    let most = i64::from(settings.sit);
    first_broken(&[
        (before.to == next.from, Breach::of(Rule::Airport, duty, leg)),
        at_least(rule, duty, leg, gap, least),
        at_most(Rule::Sit, duty, leg, gap, most),
    ])
}

/// What neighbouring legs break first.
pub(crate) fn connections_breach(
    settings: &Settings,
    timetable: &Timetable,
    duty: usize,
    first: &TimedLeg,
    others: &[TimedLeg],
) -> Option<Breach>
    requires checked { IsChecked settings.now }
    requires few { length others.now ≤ 8 }
    ensures { result ≡ first_of
        (connections settings.now timetable.now.turns duty 2 first.now others.now) }
{
    let mut last = first;
    let mut leg = 2;
    for next in others {
        let broken = connection_breach(settings, timetable, duty, leg, &last.flight, &next.flight);
        if let Some(breach) = broken {
            return Some(breach);
        }
        last = next;
        leg += 1;
    }
    None
}
