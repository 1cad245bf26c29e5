//! Rooms.
ghost use Rattle.std.specs.Prelude.{◌≡◌, ◌↔◌, ◌⊎◌, ◌++◌, ℕ, Bool, false, List, [], length, map, IfOk, IsTrue, OnErr, OnOk, Some};
ghost use Rattle.std.specs.List.Sorted.{IsPermutation};
ghost use Rattle.crew_forgetful.specs.Sweeps.{TellCount};
ghost use Rattle.crew_label.specs.Boarding.{LeadInto, boarded_from};
ghost use Rattle.crew_label.specs.Pools.{AreCounted, ArePoolOf, AreRising};
ghost use Rattle.crew_label.specs.Walks.{shown};
ghost use Rattle.crew_label.specs.declared.label.Label.{Label};
ghost use Rattle.crew_label.specs.declared.label.Link.{Link};
ghost use Rattle.crew_resource.specs.Members.{Member};
ghost use Rattle.crew_room.specs.Rooms.{HaveOwnValues};

use crate::copy::{copy_labels, sort_labels};
use crate::glance::Glanced;
use crate::held::Held;
use crate::join::{join_boarding, join_labels};
use crew_forgetful::{Forgets, Lapses};
use crew_label::{Label, Pool, Trails};
use crew_resource::{Placed, Resource};
use std::alloc::{AllocError, Global};
use std::marker::Model;

/// A pool under way, in memory that serves one pool after another; no value stands twice.
///
/// A contract sees the list of the labels. Their order is free, and statements on pools speak of
/// membership.
pub struct Room<R: Glanced> {
    held: Held<R>,
    free: Held<R>,
}

impl<R: Glanced> Drop for Room<R> {
    fn drop(self) {
        let Self { held: _, free: _ } = self;
    }
}

impl<R: Glanced> Model for Room<R> {
    ghost Value = { List (Label R.Value) };

    ghost view = { λ r. r.held };

    ghost invariant = { λ r. HaveOwnValues r.held };
}

impl<R: Glanced> Room<R> {
    /// No labels.
    pub fn new(alloc: Global) -> Self
        ensures { result ≡ [] }
    {
        Room {
            held: Held::new(alloc),
            free: Held::new(alloc),
        }
    }

    /// How many labels there are.
    pub fn len(&self) -> usize
        ensures { result ≡ length self.now }
    {
        self.held.len()
    }

    /// Whether there are none.
    pub fn is_empty(&self) -> bool
        ensures { IsTrue result ↔ (self.now ≡ []) }
    {
        self.held.is_empty()
    }

    /// The labels.
    pub fn as_slice(&self) -> &[Label<R::Value>]
        ensures all { result.now ≡ self.now }
        ensures apart { HaveOwnValues self.now }
    {
        self.held.as_slice()
    }

    /// Lets go of all labels, and keeps the memory.
    pub fn clear(&mut self)
        ensures { self.new ≡ [] }
    {
        self.held.clear();
    }

    /// Labels of another pool join: of these stay out those for which one of the room may stand, and
    /// of the room go those for which a newcomer may stand.
    ///
    /// If what the room had was the pool of some candidates and the labels are the pool of others,
    /// it then has the pool of both. Values count the duties of their walks, so walks are as long
    /// where sums are the same: only then are they compared. On want of memory the labels stay, in some
    /// order.
    pub fn wait<P: Placed, T: Trails>(
        &mut self,
        resource: &R,
        trails: &T,
        labels: &[Label<R::Value>],
    ) -> Result<(), AllocError>
    where
        R: Forgets<P>,
        requires tell { TellCount R.same_sums (R.count_of resource.now) }
        requires counts { AreCounted (R.count_of resource.now) (T.leads trails.now)
            (T.trail trails.now) self.old }
        requires others { AreCounted (R.count_of resource.now) (T.leads trails.now)
            (T.trail trails.now) labels.now }
        requires rises { AreRising R.Value.cmp labels.now }
        ensures pool { OnOk result ((firsts seconds : List (R.Value × List ℕ))
            → ArePoolOf R.below R.same_sums (T.trail trails.now) firsts self.old
            → ArePoolOf R.below R.same_sums (T.trail trails.now) seconds labels.now
            → ArePoolOf R.below R.same_sums (T.trail trails.now) (firsts ++ seconds) self.new) }
        ensures from { (l : Label R.Value) → Member self.new l
            → Member self.old l ⊎ Member labels.now l }
        ensures counts { AreCounted (R.count_of resource.now) (T.leads trails.now)
            (T.trail trails.now) self.new }
        ensures err { OnErr result (IsPermutation self.old self.new) }
    {
        join_labels::<P, R, T>(resource, trails, &mut self.held, &mut self.free, labels)?;
        Ok(())
    }

    /// What of a departure's pool boards an item joins, where nothing of it lapses as it does. `duty`
    /// is the item's number.
    ///
    /// If what the room had was the pool of some candidates, it then has the pool of these and of
    /// the labels that boarded. A pool of 2^32 labels is refused as want of memory is. On want of
    /// memory the labels stay, in some order.
    pub fn board<P: Placed, T: Trails>(
        &mut self,
        resource: &R,
        trails: &T,
        pool: &Pool<R>,
        item: &P,
        duty: u32,
    ) -> Result<(), AllocError>
    where
        R: Lapses<P>,
        requires boards { (l : Label R.Value) → Member pool.now l
            → R.can_board resource.now l.value item.now }
        requires stays { (l : Label R.Value) → Member pool.now l
            → R.lapses resource.now l.value item.now ≡ false }
        requires tell { TellCount R.same_sums (R.count_of resource.now) }
        requires into { (rank : ℕ) × LeadInto (T.leads trails.now) (T.trail trails.now) duty rank
            pool.now }
        requires most { (most : ℕ) × (R.most resource.now ≡ Some most) }
        requires counts { AreCounted (R.count_of resource.now) (T.leads trails.now)
            (T.trail trails.now) self.old }
        requires others { AreCounted (R.count_of resource.now) (T.leads trails.now)
            (T.trail trails.now) pool.now }
        requires clean { (candidates : List (R.Value × List ℕ)) × ArePoolOf R.below R.same_sums
            (T.trail trails.now) candidates pool.now }
        ensures pool { OnOk result ((candidates : List (R.Value × List ℕ))
            → ArePoolOf R.below R.same_sums (T.trail trails.now) candidates self.old
            → ArePoolOf R.below R.same_sums (T.trail trails.now) (candidates
            ++ map (shown (T.trail trails.now)) (boarded_from
            (λ v. R.boards resource.now v item.now) duty 0 pool.now)) self.new) }
        ensures from { (l : Label R.Value) → Member self.new l → Member self.old l
            ⊎ Member (boarded_from (λ v. R.boards resource.now v item.now) duty 0 pool.now) l }
        ensures counts { AreCounted (R.count_of resource.now) (T.leads trails.now)
            (T.trail trails.now) self.new }
        ensures err { OnErr result (IsPermutation self.old self.new) }
    {
        let labels = pool.as_slice();
        join_boarding::<P, R, T>(
            resource,
            trails,
            &mut self.held,
            &mut self.free,
            labels,
            item,
            duty,
        )?;
        Ok(())
    }

    /// The labels in the listing order, copied once, into a list of their number. If they are the
    /// pool of some candidates, so are the copies.
    pub fn sorted(&self, alloc: Global, resource: &R) -> Result<Pool<R>, AllocError>
        ensures same { IfOk result (λ sorted. IsPermutation self.now sorted) }
        ensures pool { IfOk result (λ sorted. (same : R.Value → R.Value → Bool)
            (trail : Link → List ℕ) (candidates : List (R.Value × List ℕ))
            → ArePoolOf R.below same trail candidates self.now
            → ArePoolOf R.below same trail candidates sorted) }
        ensures from { IfOk result (λ sorted. (l : Label R.Value) → Member sorted l
            → Member self.now l) }
    {
        let mut labels = copy_labels(alloc, resource, self.held.as_slice())?;
        sort_labels::<R>(&mut labels);
        Ok(Pool::from_rising(labels))
    }
}
