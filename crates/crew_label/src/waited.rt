//! Pools of labels that have waited.
ghost use Rattle.std.specs.Prelude.{◌≡◌, ◌⊎◌, false, true, ℕ, List, map, IfOk};
ghost use Rattle.crew_forgetful.specs.Sweeps.{TellCount};
ghost use Rattle.crew_label.specs.Boarding.{AreRested, waited_label};
ghost use Rattle.crew_label.specs.Pools.{AreCounted, ArePoolOf, AreRising};
ghost use Rattle.crew_label.specs.Walks.{shown};
ghost use Rattle.crew_label.specs.declared.label.Label.{Label};
ghost use Rattle.crew_label.specs.declared.label.Link.{Link};
ghost use Rattle.crew_resource.specs.Members.{Member};
ghost use Rattle.std.specs.declared.cmp.Ordering.TheVariants.{Less};

use crate::gather::gather;
use crate::label::Label;
use crate::pool::Pool;
use crate::stand::Rule;
use crate::trails::Trails;
use crew_forgetful::Lapses;
use crew_resource::{Placed, Resource, Staged};
use std::alloc::{AllocError, Global};

impl<R: Resource> Pool<R> {
    /// The pool of labels that have waited, where they stand to each other as they did: the wait is
    /// no rest, or their values are those that a rest goes by (`rested`).
    ///
    /// If the labels were the pool of a list of candidates, these are the pool of the candidates
    /// that have waited.
    pub fn waited<P: Placed>(
        &self,
        alloc: Global,
        resource: &R,
        arrival: &P::Arrival,
        departure: &P::Departure,
    ) -> Result<Self, AllocError>
    where
        R: Lapses<P>,
        requires wait { (l : Label R.Value) → Member self.now l
            → R.can_wait resource.now l.value arrival.now departure.now }
        requires stays { (R.rests resource.now arrival.now departure.now ≡ false)
            ⊎ ((R.rests resource.now arrival.now departure.now ≡ true)
            × AreRested (R.rested_of resource.now) self.now) }
        ensures labels { IfOk result (λ waited. waited
            ≡ map (waited_label (λ v. R.waited resource.now v arrival.now departure.now)) self.now) }
        ensures pool { IfOk result (λ waited. (trail : Link → List ℕ)
            (candidates : List (R.Value × List ℕ))
            → ArePoolOf R.below R.same_sums trail candidates self.now
            → ArePoolOf R.below R.same_sums trail
            (map (λ e. (R.waited resource.now e.0 arrival.now departure.now, e.1)) candidates)
            waited) }
    {
        let labels = waited_labels::<P, R>(alloc, resource, self, arrival, departure)?;
        Ok(Pool::from_rising(labels))
    }

    /// The pool of what a rest goes by: of the labels with their values rested.
    ///
    /// It is made once for all departures to which the wait is a rest.
    pub fn rested<P: Placed, T: Trails>(
        &self,
        alloc: Global,
        resource: &R,
        trails: &T,
    ) -> Result<Self, AllocError>
    where
        R: Lapses<P>,
        requires tell { TellCount R.same_sums (R.count_of resource.now) }
        requires counts { AreCounted (R.count_of resource.now) (T.leads trails.now)
            (T.trail trails.now) self.now }
        ensures pool { IfOk result (λ rested. ArePoolOf R.below R.same_sums (T.trail trails.now)
            (map (λ e. (R.rested_of resource.now e.0, e.1)) (map (shown (T.trail trails.now)) self.now))
            rested) }
        ensures from { IfOk result (λ rested. (l : Label R.Value) → Member rested l
            → Member (map (waited_label (R.rested_of resource.now)) self.now) l) }
    {
        let labels = rested_labels::<P, R>(alloc, resource, self.as_slice())?;
        let pool = gather::<P, R, T>(alloc, resource, trails, Rule::Sums, &labels)?;
        Ok(Pool::from_rising(pool))
    }
}

// The labels with their values moved on. If the waits keep their values in order, they rise.
fn waited_labels<P: Placed, R: Staged<P>>(
    alloc: Global,
    resource: &R,
    pool: &Pool<R>,
    arrival: &P::Arrival,
    departure: &P::Departure,
) -> Result<Vec<Label<R::Value>>, AllocError>
    requires { (l : Label R.Value) → Member pool.now l
        → R.can_wait resource.now l.value arrival.now departure.now }
    ensures labels { IfOk result (λ waited. waited.items
        ≡ map (waited_label (λ v. R.waited resource.now v arrival.now departure.now)) pool.now) }
    ensures listed { IfOk result (λ waited. ((a b : Label R.Value) → Member pool.now a
        → Member pool.now b → R.Value.cmp a.value b.value ≡ Less
        → R.Value.cmp (R.waited resource.now a.value arrival.now departure.now)
        (R.waited resource.now b.value arrival.now departure.now) ≡ Less)
        → AreRising R.Value.cmp waited.items) }
{
    let mut waited = Vec::with_capacity(alloc, pool.len())?;
    for label in pool.as_slice() {
        let value = resource.wait(&label.value, arrival, departure);
        let before = label.before;
        waited.push(Label { value, before })?;
    }
    Ok(waited)
}

// The labels with their values rested.
fn rested_labels<P: Placed, R: Lapses<P>>(
    alloc: Global,
    resource: &R,
    labels: &[Label<R::Value>],
) -> Result<Vec<Label<R::Value>>, AllocError>
    ensures { IfOk result (λ rested. rested.items
        ≡ map (waited_label (R.rested_of resource.now)) labels.now) }
{
    let mut rested = Vec::with_capacity(alloc, labels.len())?;
    for label in labels {
        let value = resource.rested(&label.value);
        let before = label.before;
        rested.push(Label { value, before })?;
    }
    Ok(rested)
}
