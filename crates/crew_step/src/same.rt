//! Whether what two jobs hold is the same.
ghost use Rattle.std.specs.Prelude.{◌≡◌, ◌↔◌, IsTrue};
ghost use Rattle.crew_step.specs.Machinery.Feeds.{feed_of};

use crate::feed::Predecessor;
use crew_flights::Code;
use crew_pairing::{Duty, PairingVector, Walk};
use crew_rules::Settings;

/// Whether two settings are equal.
pub(crate) fn are_same_settings(a: &Settings, b: &Settings) -> bool
    ensures { IsTrue result ↔ (a.now ≡ b.now) }
{
    a == b
}

/// Whether two airports are one.
pub(crate) fn is_same_airport(a: Code, b: Code) -> bool
    ensures { IsTrue result ↔ (a ≡ b) }
{
    a == b
}

/// Whether two duties are equal, with all their facts.
pub fn is_same_duty(a: &Duty, b: &Duty) -> bool
    ensures { IsTrue result ↔ (a.now ≡ b.now) }
{
    is_same_route(a, b) && is_same_work(a, b)
}

// Whether the legs and the airports are.
fn is_same_route(a: &Duty, b: &Duty) -> bool
    ensures { IsTrue result ↔ ((a.now.key ≡ b.now.key) × (a.now.from ≡ b.now.from)
        × (a.now.to ≡ b.now.to)) }
{
    (a.key == b.key) & (is_same_airport(a.from, b.from) & is_same_airport(a.to, b.to))
}

// Whether the times, the minutes, the pay and the price are.
fn is_same_work(a: &Duty, b: &Duty) -> bool
    ensures { IsTrue result ↔ ((a.now.report ≡ b.now.report) × (a.now.release ≡ b.now.release)
        × (a.now.fdp ≡ b.now.fdp) × (a.now.fly ≡ b.now.fly) × (a.now.pay ≡ b.now.pay)
        × (a.now.price ≡ b.now.price)) }
{
    (a.report == b.report)
        & (a.release == b.release)
        & (a.fdp == b.fdp)
        & (a.fly == b.fly)
        & (a.pay == b.pay)
        & (a.price == b.price)
}

// Whether the entries of two fronts are equal.
fn are_same_entries(a: &[(PairingVector, Walk)], b: &[(PairingVector, Walk)]) -> bool
    ensures { IsTrue result ↔ (a.now ≡ b.now) }
{
    a == b
}

// Whether a duty with its front is.
fn is_same_predecessor(a: &Predecessor, b: &Predecessor) -> bool
    ensures { IsTrue result ↔ ((a.now.duty ≡ b.now.duty)
        × (a.now.front.value ≡ b.now.front.value)) }
{
    is_same_duty(&a.duty, &b.duty) && are_same_entries(a.front.as_slice(), b.front.as_slice())
}

/// Whether two lists of duties with their fronts are equal.
pub(crate) fn are_same_predecessors(a: &[Predecessor], b: &[Predecessor]) -> bool
    ensures { IsTrue result ↔ (feed_of a.now ≡ feed_of b.now) }
{
    if a.len() != b.len() {
        return false;
    }
    for place in 0..a.len() {
        if !is_same_predecessor(&a[place], &b[place]) {
            return false;
        }
    }
    true
}
