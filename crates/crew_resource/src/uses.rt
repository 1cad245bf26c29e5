//! What any code over a resource may conclude from the laws.
ghost use Rattle.std.specs.Prelude.{◌≡◌, ◌↔◌, true, ℕ, Some, IsTrue, IfOk};
ghost use Rattle.crew_resource.specs.Machinery.Uses.{IsNoWorse, HasRoom, KeepsBound};

use crate::{Placed, Resource, Staged};
use std::alloc::AllocError;

/// Whether two values are the same, asked by at most both ways.
#[inline]
pub fn is_same<R: Resource>(resource: &R, a: &R::Value, b: &R::Value) -> bool
    ensures { IsTrue result ↔ (a.now ≡ b.now) }
{
    resource.at_most(a, b) && resource.at_most(b, a)
}

/// Extends a value and a greater one by the same item: the lesser extends where the greater does,
/// to no greater value.
pub fn extend_ordered<R: Resource>(
    resource: &R,
    lesser: &R::Value,
    greater: &R::Value,
    last: &R::Item,
    next: &R::Item,
) -> Result<(Option<R::Value>, Option<R::Value>), AllocError>
    requires ordered { R.below lesser.now greater.now ≡ true }
    requires lesser_fits { R.can_extend resource.now lesser.now last.now next.now }
    requires greater_fits { R.can_extend resource.now greater.now last.now next.now }
    ensures lesser { IfOk result (λ both. both.0 ≡ R.extends resource.now lesser.now last.now
        next.now) }
    ensures greater { IfOk result (λ both. both.1 ≡ R.extends resource.now greater.now last.now
        next.now) }
    ensures ordered { IfOk result (λ both. IsNoWorse R.below both.0 both.1) }
{
    let first = resource.extend(lesser, last, next)?;
    let second = resource.extend(greater, last, next)?;
    Ok((first, second))
}

/// The value of the list of one item, by its stages.
#[inline]
pub fn start_staged<P: Placed, R: Staged<P>>(resource: &R, item: &P) -> Option<R::Value>
    requires sound { P.is_sound item.now }
    requires begins { P.may_begin (P.leaves item.now) }
    requires fits { R.fits resource.now 1 }
    ensures value { result ≡ R.opens resource.now item.now }
    ensures bound { (z : R.Value) → result ≡ Some z → R.arrived resource.now 1 z }
{
    let empty = resource.idle(&item.departure());
    resource.board(&empty, item)
}

/// The value of a list with one more item, by its stages.
#[inline]
pub fn extend_staged<P: Placed, R: Staged<P>>(
    resource: &R,
    value: &R::Value,
    last: &P,
    next: &P,
) -> Option<R::Value>
    requires sound { P.is_sound next.now }
    requires follows { P.may_follow (P.arrives last.now) (P.leaves next.now) }
    requires room { HasRoom (R.fits resource.now) (R.arrived resource.now) value.now }
    ensures value { result ≡ R.extends resource.now value.now last.now next.now }
    ensures bound { KeepsBound (R.arrived resource.now) value.now result }
{
    let waited = resource.wait(value, &last.arrival(), &next.departure());
    resource.board(&waited, next)
}
