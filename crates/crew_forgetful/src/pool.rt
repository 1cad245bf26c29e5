//! A pool by the rule that looks at walks, label by label.
ghost use Rattle.std.specs.Prelude.{◌≡◌, ℕ, List, [], ◌∷◌, ◌++◌, not, nat_le, OnOk};
ghost use Rattle.std.specs.List.{filter, list_any};
ghost use Rattle.crew_resource.specs.Members.{Member};
ghost use Rattle.crew_forgetful.specs.Forgetful.{IsPool, stands};

use crate::{Forgets, stands_for};
use crew_resource::Placed;
use std::alloc::AllocError;

/// Offers a label to a pool. It stays out where an entry may stand for it; else it joins, and those
/// that it may stand for go.
///
/// Walks are numbers here, in their order.
pub fn offer<P: Placed, R: Forgets<P>>(
    resource: &R,
    pool: &mut Vec<(R::Value, u32)>,
    value: R::Value,
    walk: u32,
) -> Result<(), AllocError>
    ensures { OnOk result ((candidates : List (R.Value × ℕ))
        → IsPool R.below R.same_sums nat_le (λ v w. Member candidates (v, w)) pool.old.items
        → IsPool R.below R.same_sums nat_le
        (λ v w. Member (candidates ++ (value, walk) ∷ []) (v, w)) pool.new.items) }
{
    if is_reached::<P, R>(resource, pool.as_slice(), &value, walk) {
        return Ok(());
    }
    drop_reached::<P, R>(resource, pool, &value, walk);
    pool.push((value, walk))?;
    Ok(())
}

// Whether a label stands for another.
fn is_reached<P: Placed, R: Forgets<P>>(
    resource: &R,
    pool: &[(R::Value, u32)],
    value: &R::Value,
    walk: u32,
) -> bool
    ensures { result ≡ list_any (λ e. stands R.below R.same_sums nat_le e.0 e.1 value.now walk)
        pool.now }
{
    pool.iter().any(|entry| stands_for::<P, R>(resource, &entry.0, value, entry.1 <= walk))
}

// Drops the labels for which another stands.
fn drop_reached<P: Placed, R: Forgets<P>>(
    resource: &R,
    pool: &mut Vec<(R::Value, u32)>,
    value: &R::Value,
    walk: u32,
)
    ensures { pool.new.items
        ≡ filter (λ e. not (stands R.below R.same_sums nat_le value.now walk e.0 e.1))
        pool.old.items }
{
    pool.retain(|entry| !stands_for::<P, R>(resource, value, &entry.0, walk <= entry.1));
}
