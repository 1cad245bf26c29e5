//! Pools.
ghost use Rattle.std.specs.Prelude.{◌≡◌, ◌↔◌, ℕ, List, [], length, slice_get, IsTrue, MatchOption, None, Some, map, IfOk};
ghost use Rattle.crew_resource.specs.Members.{Member};
ghost use Rattle.crew_forgetful.specs.Sweeps.{TellCount};
ghost use Rattle.crew_label.specs.Pools.{AreCounted, ArePoolOf, ArePoolsOf, AreRising};
ghost use Rattle.crew_label.specs.declared.label.Label.{Label};

use crate::label::Label;
use crate::trails::Trails;
use crate::whole::{merge_pools, moment_of_pools};
use crew_forgetful::Marked;
use crew_resource::{Placed, Resource};
use std::alloc::{AllocError, Global};
use std::marker::Model;

/// The labels of one event after dominance, in the listing order of their values; no value stands twice.
///
/// A contract sees the list of the labels.
pub struct Pool<R: Resource> {
    labels: Vec<Label<R::Value>>,
}

impl<R: Resource> Drop for Pool<R> {
    fn drop(self) {
        let Self { labels: _ } = self;
    }
}

impl<R: Resource> Model for Pool<R> {
    ghost Value = { List (Label R.Value) };

    ghost view = { λ p. p.labels.items };

    ghost invariant = { λ p. AreRising R.Value.cmp p.labels.items };
}

impl<R: Resource> Pool<R> {
    /// No labels.
    pub fn new(alloc: Global) -> Self
        ensures { result ≡ [] }
    {
        Pool {
            labels: Vec::new(alloc),
        }
    }

    /// The labels of a list whose values rise.
    pub fn from_rising(labels: Vec<Label<R::Value>>) -> Self
        requires { AreRising R.Value.cmp labels.items }
        ensures { result ≡ labels.items }
    {
        Pool { labels }
    }

    /// How many labels there are.
    pub fn len(&self) -> usize
        ensures { result ≡ length self.now }
    {
        self.labels.len()
    }

    /// Whether there are none.
    pub fn is_empty(&self) -> bool
        ensures { IsTrue result ↔ (self.now ≡ []) }
    {
        self.labels.is_empty()
    }

    /// The labels: their values rise.
    pub fn as_slice(&self) -> &[Label<R::Value>]
        ensures all { result.now ≡ self.now }
        ensures rises { AreRising R.Value.cmp self.now }
    {
        self.labels.as_slice()
    }

    /// The label at a place.
    pub fn get(&self, place: usize) -> Option<&Label<R::Value>>
        ensures { MatchOption result (slice_get self.now place ≡ None)
            (λ label. slice_get self.now place ≡ Some label.now) }
    {
        self.labels.get(place)
    }

    /// The pool of several pools: if each is the pool of a list of candidates, this is the pool of
    /// all these lists.
    ///
    /// Values count the duties of their walks, so walks are as long where sums are the same: only
    /// then are they compared.
    pub fn of_pools<P: Placed, T: Trails>(
        alloc: Global,
        resource: &R,
        trails: &T,
        pools: &[&Pool<R>],
    ) -> Result<Self, AllocError>
    where
        R: Marked<P>,
        requires tell { TellCount R.same_sums (R.count_of resource.now) }
        requires counts { (labels : List (Label R.Value)) → Member (map (λ p. p.now) pools.now) labels
            → AreCounted (R.count_of resource.now) (T.leads trails.now) (T.trail trails.now)
            labels }
        ensures pool { IfOk result (λ whole. (candidates : List (R.Value × List ℕ))
            → ArePoolsOf R.below R.same_sums (T.trail trails.now) candidates
            (map (λ p. p.now) pools.now)
            → ArePoolOf R.below R.same_sums (T.trail trails.now) candidates whole) }
        ensures from { IfOk result (λ whole. (l : Label R.Value) → Member whole l
            → (labels : List (Label R.Value)) × Member (map (λ p. p.now) pools.now) labels
            × Member labels l) }
    {
        let moment = moment_of_pools::<P, R>(resource, pools);
        let labels = merge_pools::<P, R, T>(alloc, resource, trails, moment, &[], pools)?;
        Ok(Pool { labels })
    }
}
