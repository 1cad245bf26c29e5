//! Several pools, as one.
ghost use Rattle.std.specs.Prelude.{◌≡◌, ◌⊎◌, ◌++◌, ℕ, ℤ, List, map, IfOk};
ghost use Rattle.crew_resource.specs.Members.{Member};
ghost use Rattle.crew_forgetful.specs.Sweeps.{TellCount};
ghost use Rattle.crew_label.specs.Machinery.Seeing.{AreTold, labels_of};
ghost use Rattle.crew_label.specs.declared.seen.Seen.{Seen};
ghost use Rattle.crew_label.specs.Pools.{AreCounted, ArePoolOf, ArePoolsOf, AreRising};
ghost use Rattle.crew_label.specs.declared.label.Label.{Label};

use crate::label::Label;
use crate::merge::merge_seen;
use crate::pool::Pool;
use crate::seen::{Seen, copy_seen, marks_where, moment_of, see};
use crate::stand::Rule;
use crate::trails::Trails;
use crew_forgetful::Marked;
use crew_resource::{Placed, Resource};
use std::alloc::{AllocError, Global};

// The labels that several pools leave of each other, and of labels where they stand.
//
// The pools are merged into the whole one after another, and no label is copied until all are. A
// tree of merges takes longer: of a later pool most labels fall to those that were merged first.
// Each call holds the marks of its own pool.
pub(crate) fn merge_pools<'a, P: Placed, R: Marked<P>, T: Trails>(
    alloc: Global,
    resource: &R,
    trails: &T,
    moment: i32,
    whole: &[Seen<'a, R::Value>],
    pools: &[&Pool<R>],
) -> Result<Vec<Label<R::Value>>, AllocError>
    requires tell { TellCount R.same_sums (R.count_of resource.now) }
    requires rises { AreRising R.Value.cmp (labels_of whole.now) }
    requires whole_counts { AreCounted (R.count_of resource.now) (T.leads trails.now)
        (T.trail trails.now) (labels_of whole.now) }
    requires counts { (labels : List (Label R.Value)) → Member (map (λ p. p.now) pools.now) labels
        → AreCounted (R.count_of resource.now) (T.leads trails.now) (T.trail trails.now) labels }
    requires told { AreTold (λ v. R.marks_of resource.now v moment) whole.now }
    ensures rises { IfOk result (λ labels. AreRising R.Value.cmp labels.items) }
    ensures pool { IfOk result (λ labels. (firsts others : List (R.Value × List ℕ))
        → ArePoolOf R.below R.same_sums (T.trail trails.now) firsts (labels_of whole.now)
        → ArePoolsOf R.below R.same_sums (T.trail trails.now) others
        (map (λ p. p.now) pools.now)
        → ArePoolOf R.below R.same_sums (T.trail trails.now) (firsts ++ others) labels.items) }
    ensures from { IfOk result (λ labels. (l : Label R.Value) → Member labels.items l
        → Member (labels_of whole.now) l ⊎ ((each : List (Label R.Value))
        × Member (map (λ p. p.now) pools.now) each × Member each l)) }
{
    let [first, rest @ ..] = pools else {
        return copy_seen(alloc, resource, whole);
    };
    let labels = first.as_slice();
    let marks = marks_where::<P, R>(alloc, resource, true, labels, moment)?;
    let none = [0; 16];
    let seen = see::<R>(alloc, labels, &marks, &none)?;
    let whole = merge_seen::<P, R, T>(alloc, resource, trails, Rule::Sums, true, &*whole, &seen)?;
    merge_pools::<P, R, T>(alloc, resource, trails, moment, &whole, rest)
}

// The moment from which the marks of pools' labels are told: that of the last pool which has any. The
// first pool of a departure may be the empty list of duties, whose past tells nothing apart.
pub(crate) fn moment_of_pools<P: Placed, R: Marked<P>>(resource: &R, pools: &[&Pool<R>]) -> i32 {
    let mut moment = 0;
    for pool in pools {
        if !pool.is_empty() {
            moment = moment_of::<P, R>(resource, pool.as_slice());
        }
    }
    moment
}
