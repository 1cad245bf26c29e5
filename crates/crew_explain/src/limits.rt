//! The windows of 168 hours and the free time before reports.

ghost use Rattle.std.specs.Prelude.{◌≡◌, ◌≤◌, ◌∷◌, ◌≤ℤ◌, ◌-ℤ◌, length, pos};
ghost use Rattle.crew_resource.specs.Members.{Each, Member};
ghost use Rattle.crew_pairing.specs.Legality.{total};
ghost use Rattle.crew_history.specs.Limits as Spec;
ghost use Rattle.crew_explain.specs.Rules.{first_of, free_times, rest_end, window_to, windows};
ghost use Rattle.crew_explain.specs.Machinery.Ranges.{IsInRange};

use crate::breach::{Breach, Rule};
use crew_pairing::Duty;
use crew_rules::Settings;

/// The minutes of a window, 168 hours: 14 CFR 117.23(c)(1).
const WINDOW: i64 = 10_080;

/// The minutes of a long rest, 30 hours: 14 CFR 117.25(b).
const LONG_REST: i64 = 1_800;

/// The most minutes from the end of a long rest to a report: the rest lies within the 168 hours
/// before it.
const MOST_SINCE_REST: i64 = WINDOW - LONG_REST;

// The last arrival of a duty.
fn arrival(duty: &Duty) -> i64
    requires { IsInRange duty.now }
    ensures value { result ≡ Spec.arrival duty.now }
    ensures bound { ((pos 0 -ℤ pos 200_000_000) ≤ℤ result) × (result ≤ℤ pos 200_000_000) }
{
    i64::from(duty.report) + i64::from(duty.fdp)
}

// The flight duty minutes of a duty between two instants.
fn fdp_between(from: i64, to: i64, duty: &Duty) -> i64
    requires range { IsInRange duty.now }
    requires from { ((pos 0 -ℤ pos 300_000_000) ≤ℤ from) × (from ≤ℤ pos 300_000_000) }
    requires to { ((pos 0 -ℤ pos 300_000_000) ≤ℤ to) × (to ≤ℤ pos 300_000_000) }
    ensures value { result ≡ Spec.fdp_between from to duty.now }
    ensures bound { (pos 0 ≤ℤ result) × (result ≤ℤ pos 1_000_000_000) }
{
    (arrival(duty).min(to) - i64::from(duty.report).max(from)).max(0)
}

// The flight duty minutes of these duties between two instants.
fn minutes_between(from: i64, to: i64, duties: &[Duty]) -> i64
    requires few { length duties.now ≤ 13 }
    requires ranges { Each IsInRange duties.now }
    requires from { ((pos 0 -ℤ pos 300_000_000) ≤ℤ from) × (from ≤ℤ pos 300_000_000) }
    requires to { ((pos 0 -ℤ pos 300_000_000) ≤ℤ to) × (to ≤ℤ pos 300_000_000) }
    ensures { result ≡ total (Spec.fdp_between from to) duties.now }
{
    let mut minutes = 0;
    for duty in duties {
        minutes += fdp_between(from, to, duty);
    }
    minutes
}

// Those within the window that ends with a duty's last arrival.
fn window_to(duties: &[Duty], duty: &Duty) -> i64
    requires few { length duties.now ≤ 13 }
    requires ranges { Each IsInRange duties.now }
    requires range { IsInRange duty.now }
    ensures { result ≡ window_to duties.now duty.now }
{
    let end = arrival(duty);
    minutes_between(end - WINDOW, end, duties)
}

/// The first window that passes the cap.
pub(crate) fn windows_breach(settings: &Settings, duties: &[Duty]) -> Option<Breach>
    requires few { length duties.now ≤ 13 }
    requires ranges { Each IsInRange duties.now }
    ensures { result ≡ first_of (windows settings.now duties.now 1 duties.now) }
{
    let limit = i64::from(settings.fdp_cap);
    let mut place = 1;
    for duty in duties {
        let found = window_to(duties, duty);
        if found > limit {
            return Some(Breach {
                rule: Rule::Window,
                duty: place,
                leg: 0,
                found,
                limit,
            });
        }
        place += 1;
    }
    None
}

// The end of the last long rest, given the one before and a duty with the next.
fn rest_end(rested: i32, last: &Duty, next: &Duty) -> i32
    requires last { IsInRange last.now }
    requires next { IsInRange next.now }
    ensures { result ≡ rest_end rested last.now next.now }
{
    if i64::from(next.report) - i64::from(last.release) >= LONG_REST {
        next.report
    } else {
        rested
    }
}

/// The first report that comes too late after a long rest, or after the first report.
pub(crate) fn free_times_breach(first: &Duty, others: &[Duty]) -> Option<Breach>
    requires few { length others.now ≤ 13 }
    requires ranges { Each IsInRange (first.now ∷ others.now) }
    ensures { result ≡ first_of (free_times 2 first.now.report first.now others.now) }
{
    let mut rested = first.report;
    let mut last = first;
    let mut place = 2;
    for next in others {
        rested = rest_end(rested, last, next);
        let found = i64::from(next.report) - i64::from(rested);
        if found > MOST_SINCE_REST {
            return Some(Breach {
                rule: Rule::FreeTime,
                duty: place,
                leg: 0,
                found,
                limit: MOST_SINCE_REST,
            });
        }
        last = next;
        place += 1;
    }
    None
}
