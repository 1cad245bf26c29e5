//! Lists in one order, side by side.
ghost use Rattle.std.specs.Prelude.{◌≡◌, ◌<◌, ◌≤◌, ◌^◌, ℕ, IfOk, IfSome, IsNone, Some, length, slice_get};
ghost use Rattle.std.specs.Cmp.{IsTotalOrder, int_cmp_total, on_total, then_total};
ghost use Rattle.std.specs.declared.cmp.Ordering.{Ordering};
ghost use Rattle.std.specs.declared.cmp.Ordering.TheVariants.{Equal, Less};
ghost use Rattle.crew_carry.specs.Machinery.Matches.{AreMatches};
ghost use Rattle.crew_net.specs.crew_flights.Codes.{code_cmp_total};
ghost use Rattle.crew_net.specs.Events.{arrival_cmp, departure_cmp};

use crew_pairing::{Arrival, Departure};
use std::alloc::{AllocError, Global};
use std::cmp::Ordering;

/// What stands in an order.
pub(crate) trait InLine {
    ghost order: { Self → Self → Ordering };

    /// How the two stand.
    fn order(&self, other: &Self) -> Ordering
        ensures { result ≡ order self.now other.now };

    ghost total: { IsTotalOrder order };
}

impl InLine for Departure {
    ghost order = { departure_cmp };

    ghost total = { then_total (on_total (λ g. g.airport) code_cmp_total)
        (on_total (λ g. g.report) int_cmp_total) };

    fn order(&self, other: &Departure) -> Ordering {
        self.airport
            .cmp(&other.airport)
            .then(self.report.cmp(&other.report))
    }
}

impl InLine for Arrival {
    ghost order = { arrival_cmp };

    ghost total = { then_total (on_total (λ x. x.airport) code_cmp_total)
        (on_total (λ x. x.release) int_cmp_total) };

    fn order(&self, other: &Arrival) -> Ordering {
        self.airport
            .cmp(&other.airport)
            .then(self.release.cmp(&other.release))
    }
}

/// By place of one list, where the other has what is tied with it.
pub(crate) fn match_up<X: InLine>(
    alloc: Global,
    xs: &[X],
    ys: &[X],
) -> Result<Vec<Option<u32>>, AllocError>
    ensures { IfOk result (λ places. AreMatches X.order xs.now ys.now places.items) }
{
    let mut places = Vec::with_capacity(alloc, xs.len())?;
    let mut next = 0;
    for x in xs {
        next = first_from(ys, next, x);
        places.push(tied_at(ys, next, x))?;
    }
    Ok(places)
}

// The place of the first, from one on, that is no less.
fn first_from<X: InLine>(ys: &[X], from: usize, x: &X) -> usize
    requires { from ≤ length ys.now }
    ensures within { (from ≤ result) × (result ≤ length ys.now) }
    ensures before { (k : ℕ) (y : X) → from ≤ k → k < result → slice_get ys.now k ≡ Some y
        → X.order y x.now ≡ Less }
    ensures there { (y : X) → slice_get ys.now result ≡ Some y → X.order y x.now ≡ Less → ⊥ }
{
    let mut at = from;
    while at < ys.len() && ys[at].order(x).is_lt() {
        at += 1;
    }
    at
}

// The place, if what stands there is tied.
fn tied_at<X: InLine>(ys: &[X], at: usize, x: &X) -> Option<u32>
    requires { at ≤ length ys.now }
    ensures some { IfSome result (λ place. (place ≡ at) × (y : X)
        × (slice_get ys.now at ≡ Some y) × (X.order y x.now ≡ Equal)) }
    ensures none { length ys.now < 2 ^ 32 → IsNone result → (y : X)
        → slice_get ys.now at ≡ Some y → X.order y x.now ≡ Equal → ⊥ }
{
    if at < ys.len() && ys[at].order(x).is_eq() {
        return u32::try_from(at).ok();
    }
    None
}
