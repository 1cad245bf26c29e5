//! Views of pools.
ghost use Rattle.std.specs.Prelude.{◌≡◌, ◌<◌, ◌↔◌, ℕ, List, [], ◌∷◌, ◌++◌, length, map, IsTrue, IfOk};
ghost use Rattle.std.specs.List.{flat_map};
ghost use Rattle.std.specs.List.Sorted.{IsPermutation};
ghost use Rattle.crew_resource.specs.Events.{labelled};
ghost use Rattle.crew_resource.specs.Members.{Member};
ghost use Rattle.crew_resource.specs.Entries.{IsApart};
ghost use Rattle.crew_pool.specs.Apart.{AreApart};
ghost use Rattle.crew_pool.specs.Counted.{boarded_labels, AreWhole};
ghost use Rattle.crew_pool.specs.Machinery.Meets.{vectors_of};
ghost use Rattle.crew_pool.specs.LabelWalks.{shown};
ghost use Rattle.crew_pool.specs.declared.label_walk.LabelWalk.{LabelWalk};

use crate::entries::Entries;
use crate::label_walk::LabelWalk;
use crate::pool::Pool;
use crew_resource::{Placed, Resource, Staged};
use std::alloc::{AllocError, Global};
use std::marker::Model;

/// A departure's labels that board a duty, extended along it: each with its vector at the duty's
/// end, and its path a duty longer.
///
/// A contract sees the list of these entries, in the pool's order. No call but `list` takes memory.
#[derive(Drop)]
pub struct View<'a, P: Placed, R: Staged<P>> {
    resource: &'a R,
    labels: &'a [(R::Value, LabelWalk)],
    item: &'a P,
    duty: u32,
}

impl<'a, P: Placed, R: Staged<P>> Model for View<'a, P, R> {
    ghost Value = { List (R.Value × LabelWalk) };

    ghost view = { λ v. boarded_labels (λ u. R.boards v.resource.now u v.item.now) v.duty
        v.labels.now };

    ghost invariant = { λ v. ((l : R.Value × LabelWalk) → Member v.labels.now l
        → R.can_board v.resource.now l.0 v.item.now)
        × AreApart R.below (vectors_of
        (boarded_labels (λ u. R.boards v.resource.now u v.item.now) v.duty v.labels.now)) };
}

impl<'a, P: Placed, R: Staged<P>> View<'a, P, R> {
    /// The view of a pool at a duty of this rank. The pool's labels stand whole, with no duty after
    /// their walks.
    pub fn new(resource: &'a R, pool: &'a Pool<R>, item: &'a P, duty: u32) -> Self
        requires shift { R.is_shift resource.now }
        requires can { (l : R.Value × LabelWalk) → Member pool.now l
            → R.can_board resource.now l.0 item.now }
        requires duty { duty < 4_294_967_295 }
        requires whole { AreWhole pool.now }
        ensures labels { result ≡ boarded_labels (λ v. R.boards resource.now v item.now) duty
            pool.now }
        ensures entries { (walks : List (List ℕ))
            → map (shown walks) result ≡ flat_map
            (λ e. labelled (R.boards resource.now e.0 item.now) (e.1 ++ duty ∷ []))
            (map (shown walks) pool.now) }
    {
        View {
            resource,
            labels: pool.as_slice(),
            item,
            duty,
        }
    }

    /// How many entries there are.
    pub fn len(&self) -> usize
        ensures { result ≡ length self.now }
    {
        count_boarding(self.resource, self.labels, self.item)
    }

    /// Whether there are none.
    pub fn is_empty(&self) -> bool
        ensures { IsTrue result ↔ (self.now ≡ []) }
    {
        self.iter().next().is_none()
    }

    /// The entries, one by one: none is at most another.
    pub fn iter(&self) -> Entries<'a, P, R>
        ensures all { result ≡ self.now }
        ensures apart { AreApart R.below (vectors_of self.now) }
    {
        Entries::new(self.resource, self.labels.iter(), self.item, self.duty)
    }

    /// The entries in order of vector.
    pub fn list(&self, alloc: Global) -> Result<Vec<(R::Value, LabelWalk)>, AllocError>
        ensures same { IfOk result (λ list. IsPermutation self.now list.items) }
        ensures rises { IfOk result (λ list. IsApart R.Value.cmp R.below (vectors_of list.items)) }
    {
        let mut list = Vec::new(alloc);
        for entry in self.iter() {
            list.push(entry)?;
        }
        list.sort_unstable();
        Ok(list)
    }
}

// How many labels board an item.
fn count_boarding<P: Placed, R: Staged<P>>(
    resource: &R,
    labels: &[(R::Value, LabelWalk)],
    item: &P,
) -> usize
    requires { (l : R.Value × LabelWalk) → Member labels.now l
        → R.can_board resource.now l.0 item.now }
    ensures { (duty : ℕ) → result ≡ length
        (boarded_labels (λ v. R.boards resource.now v item.now) duty labels.now) }
{
    let mut count = 0;
    for label in labels {
        if resource.board(&label.0, item).is_some() {
            count += 1;
        }
    }
    count
}
