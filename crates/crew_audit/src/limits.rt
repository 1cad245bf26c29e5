//! What is asked of a list of duties where it ends: the window of 168 hours that ends with its last
//! arrival keeps its cap, and its last report comes soon enough after a rest of 30 hours.

ghost use Rattle.std.specs.Prelude.{◌≡◌, ◌≤◌, ◌∷◌, ◌≤ℤ◌, ◌-ℤ◌, cond, int_le, length, pos};
ghost use Rattle.crew_resource.specs.Members.{Each};
ghost use Rattle.crew_pairing.specs.Legality.{total};
ghost use Rattle.crew_pairing.specs.Pairings.{rest};
ghost use Rattle.crew_history.specs.Limits as Spec;
ghost use Rattle.crew_audit.specs.Machinery.Endings.{keeps_limits, last_window, since_last_rest, window_to};
ghost use Rattle.crew_audit.specs.Machinery.Ranges.{IsInRange};

use crew_pairing::Duty;
use crew_rules::Settings;

/// The minutes of a window, 168 hours: 14 CFR 117.23(c)(1).
const WINDOW: i64 = 10_080;

/// The minutes of a long rest, 30 hours: 14 CFR 117.25(b).
const LONG_REST: i64 = 1_800;

/// The most minutes from the end of a long rest to a report: the rest lies within the 168 hours
/// before it.
const MOST_SINCE_REST: i64 = WINDOW - LONG_REST;

// The last arrival of a duty.
fn arrival(duty: &Duty) -> i64
    requires { IsInRange duty.now }
    ensures value { result ≡ Spec.arrival duty.now }
    ensures bound { ((pos 0 -ℤ pos 200_000_000) ≤ℤ result) × (result ≤ℤ pos 200_000_000) }
{
    i64::from(duty.report) + i64::from(duty.fdp)
}

// The flight duty minutes of a duty between two instants.
fn fdp_between(from: i64, to: i64, duty: &Duty) -> i64
    requires range { IsInRange duty.now }
    requires from { ((pos 0 -ℤ pos 300_000_000) ≤ℤ from) × (from ≤ℤ pos 300_000_000) }
    requires to { ((pos 0 -ℤ pos 300_000_000) ≤ℤ to) × (to ≤ℤ pos 300_000_000) }
    ensures value { result ≡ Spec.fdp_between from to duty.now }
    ensures bound { (pos 0 ≤ℤ result) × (result ≤ℤ pos 1_000_000_000) }
{
    (arrival(duty).min(to) - i64::from(duty.report).max(from)).max(0)
}

// The flight duty minutes of these duties between two instants.
fn minutes_between(from: i64, to: i64, duties: &[Duty]) -> i64
    requires few { length duties.now ≤ 13 }
    requires ranges { Each IsInRange duties.now }
    requires from { ((pos 0 -ℤ pos 300_000_000) ≤ℤ from) × (from ≤ℤ pos 300_000_000) }
    requires to { ((pos 0 -ℤ pos 300_000_000) ≤ℤ to) × (to ≤ℤ pos 300_000_000) }
    ensures { result ≡ total (Spec.fdp_between from to) duties.now }
{
    let mut minutes = 0;
    for duty in duties {
        minutes += fdp_between(from, to, duty);
    }
    minutes
}

// Those within the window that ends with an instant.
fn window_to(end: i64, duties: &[Duty]) -> i64
    requires few { length duties.now ≤ 13 }
    requires ranges { Each IsInRange duties.now }
    requires end { ((pos 0 -ℤ pos 200_000_000) ≤ℤ end) × (end ≤ℤ pos 200_000_000) }
    ensures { result ≡ window_to end duties.now }
{
    minutes_between(end - WINDOW, end, duties)
}

// Those within the window that ends with the last arrival.
fn last_window(duties: &[Duty]) -> i64
    requires few { length duties.now ≤ 13 }
    requires ranges { Each IsInRange duties.now }
    ensures { result ≡ last_window duties.now }
{
    match duties.last() {
        Some(last) => window_to(arrival(last), duties),
        None => 0,
    }
}

// The end of the last long rest, given the one before and a duty with the next.
fn rest_end(rested: i32, last: &Duty, next: &Duty) -> i32
    requires last { IsInRange last.now }
    requires next { IsInRange next.now }
    ensures { result ≡ cond (int_le (pos 1_800) (rest last.now next.now)) next.now.report rested }
{
    if i64::from(next.report) - i64::from(last.release) >= LONG_REST {
        next.report
    } else {
        rested
    }
}

// Minutes from the end of the last long rest, or the first report, to the last report.
fn since_rest(first: &Duty, others: &[Duty]) -> i64
    requires { Each IsInRange (first.now ∷ others.now) }
    ensures { result ≡ Spec.since_rest first.now others.now }
{
    let mut rested = first.report;
    let mut last = first;
    for next in others {
        rested = rest_end(rested, last, next);
        last = next;
    }
    i64::from(last.report) - i64::from(rested)
}

fn since_last_rest(duties: &[Duty]) -> i64
    requires { Each IsInRange duties.now }
    ensures { result ≡ since_last_rest duties.now }
{
    match duties.split_first() {
        Some((first, others)) => since_rest(first, others),
        None => 0,
    }
}

/// Whether the window that ends with the last arrival keeps its cap, and the last report comes soon
/// enough after a long rest, or after the first report.
pub(crate) fn keep_limits(settings: &Settings, duties: &[Duty]) -> bool
    requires few { length duties.now ≤ 13 }
    requires ranges { Each IsInRange duties.now }
    ensures { result ≡ keeps_limits settings.now duties.now }
{
    last_window(duties) <= i64::from(settings.fdp_cap) && since_last_rest(duties) <= MOST_SINCE_REST
}
