//! Two lists of duties by key, side by side.
ghost use Rattle.std.specs.Prelude.{◌≡◌, ◌<◌, ◌≤◌, ◌^◌, ℕ, IfOk, IfSome, IsNone, Some, length, slice_get};
ghost use Rattle.std.specs.declared.cmp.Ordering.TheVariants.{Equal, Less};
ghost use Rattle.crew_carry.specs.Machinery.Matches.{AreMatches};
ghost use Rattle.crew_pairing.specs.Keys.{key_cmp};
ghost use Rattle.crew_pairing.specs.declared.duty.Duty.{Duty as DutySpec};

use crew_pairing::{Duties, Duty};
use std::alloc::{AllocError, Global};

/// By rank of one list of duties, the rank in the other of that with its key.
pub(crate) fn match_ranks(
    alloc: Global,
    xs: &Duties,
    ys: &Duties,
) -> Result<Vec<Option<u32>>, AllocError>
    ensures { IfOk result (λ places. AreMatches (λ d e. key_cmp d.key e.key) xs.now ys.now
        places.items) }
{
    let mut places = Vec::with_capacity(alloc, xs.len())?;
    let mut next = 0;
    for rank in 0..xs.len() {
        let x = xs.at(rank);
        next = first_from(ys, next, x);
        places.push(tied_at(ys, next, x))?;
    }
    Ok(places)
}

// The rank of the first, from one on, whose key is no less.
fn first_from(ys: &Duties, from: usize, x: &Duty) -> usize
    requires { from ≤ length ys.now }
    ensures within { (from ≤ result) × (result ≤ length ys.now) }
    ensures before { (k : ℕ) (y : DutySpec) → from ≤ k → k < result → slice_get ys.now k ≡ Some y
        → key_cmp y.key x.now.key ≡ Less }
    ensures there { (y : DutySpec) → slice_get ys.now result ≡ Some y
        → key_cmp y.key x.now.key ≡ Less → ⊥ }
{
    let mut at = from;
    while at < ys.len() && ys.at(at).key.cmp(&x.key).is_lt() {
        at += 1;
    }
    at
}

// The rank, if the duty there has the same key.
fn tied_at(ys: &Duties, at: usize, x: &Duty) -> Option<u32>
    requires { at ≤ length ys.now }
    ensures some { IfSome result (λ place. (place ≡ at) × (y : DutySpec)
        × (slice_get ys.now at ≡ Some y) × (key_cmp y.key x.now.key ≡ Equal)) }
    ensures none { length ys.now < 2 ^ 32 → IsNone result → (y : DutySpec)
        → slice_get ys.now at ≡ Some y → key_cmp y.key x.now.key ≡ Equal → ⊥ }
{
    if at < ys.len() && ys.at(at).key.cmp(&x.key).is_eq() {
        return u32::try_from(at).ok();
    }
    None
}
