//! Two pools, as one.
//!
//! Each label is tried against the whole other list, and none against its own. The listing order
//! and the order of dominance need not agree: of two histories the lesser may be listed later. The
//! listing order serves to lay the two lists together, and to tell that no value stands twice.
ghost use Rattle.std.specs.Prelude.{◌≡◌, ◌⊎◌, ◌++◌, true, ℕ, List, IfOk};
ghost use Rattle.crew_resource.specs.Members.{Member};
ghost use Rattle.crew_forgetful.specs.Sweeps.{TellCount};
ghost use Rattle.crew_label.specs.Machinery.Rules.{same_by};
ghost use Rattle.crew_label.specs.Machinery.Seeing.{AreMarked, labels_of};
ghost use Rattle.crew_label.specs.declared.seen.Seen.{Seen};
ghost use Rattle.crew_label.specs.Pools.{AreCounted, ArePoolOf, AreRising};
ghost use Rattle.crew_label.specs.declared.label.Label.{Label};

use crate::interleave::interleave;
use crate::label::Label;
use crate::seen::{Seen, copy_seen, marks_where, moment_of, see};
use crate::stand::{Rule, are_many, free_of};
use crate::trails::Trails;
use crew_forgetful::Marked;
use crew_resource::{Placed, Resource};
use std::alloc::{AllocError, Global};

// Two lists of labels that rise, merged: of the second one those for which none of the first may
// stand, and of the first those for which none of these may.
pub(crate) fn merge_lists<P: Placed, R: Marked<P>, T: Trails>(
    alloc: Global,
    resource: &R,
    trails: &T,
    rule: Rule,
    one: &[Label<R::Value>],
    two: &[Label<R::Value>],
) -> Result<Vec<Label<R::Value>>, AllocError>
    requires tell { TellCount R.same_sums (R.count_of resource.now) }
    requires one_rises { AreRising R.Value.cmp one.now }
    requires two_rises { AreRising R.Value.cmp two.now }
    requires one_counts { AreCounted (R.count_of resource.now) (T.leads trails.now)
        (T.trail trails.now) one.now }
    requires two_counts { AreCounted (R.count_of resource.now) (T.leads trails.now)
        (T.trail trails.now) two.now }
    ensures rises { IfOk result (λ labels. AreRising R.Value.cmp labels.items) }
    ensures pool { IfOk result (λ labels. (firsts seconds : List (R.Value × List ℕ))
        → ArePoolOf R.below (same_by R.below R.same_sums rule) (T.trail trails.now) firsts one.now
        → ArePoolOf R.below (same_by R.below R.same_sums rule) (T.trail trails.now) seconds two.now
        → ArePoolOf R.below (same_by R.below R.same_sums rule) (T.trail trails.now)
        (firsts ++ seconds) labels.items) }
    ensures from { IfOk result (λ labels. (l : Label R.Value) → Member labels.items l
        → Member one.now l ⊎ Member two.now l) }
{
    let marked = are_many(one.len(), two.len());
    let moment = moment_of::<P, R>(resource, one);
    let first = marks_where::<P, R>(alloc, resource, marked, one, moment)?;
    let second = marks_where::<P, R>(alloc, resource, marked, two, moment)?;
    let none = [0; 16];
    let one = see::<R>(alloc, one, &first, &none)?;
    let two = see::<R>(alloc, two, &second, &none)?;
    let whole = merge_seen::<P, R, T>(alloc, resource, trails, rule, marked, &one, &two)?;
    let labels = copy_seen(alloc, resource, &whole)?;
    Ok(labels)
}

// The same of labels where they stand: those of both lists that stay.
pub(crate) fn merge_seen<'a, P: Placed, R: Marked<P>, T: Trails>(
    alloc: Global,
    resource: &R,
    trails: &T,
    rule: Rule,
    marked: bool,
    one: &[Seen<'a, R::Value>],
    two: &[Seen<'a, R::Value>],
) -> Result<Vec<Seen<'a, R::Value>>, AllocError>
    requires tell { TellCount R.same_sums (R.count_of resource.now) }
    requires one_rises { AreRising R.Value.cmp (labels_of one.now) }
    requires two_rises { AreRising R.Value.cmp (labels_of two.now) }
    requires one_counts { AreCounted (R.count_of resource.now) (T.leads trails.now)
        (T.trail trails.now) (labels_of one.now) }
    requires two_counts { AreCounted (R.count_of resource.now) (T.leads trails.now)
        (T.trail trails.now) (labels_of two.now) }
    requires told { marked ≡ true → AreMarked (R.marks_of resource.now) one.now two.now }
    ensures rises { IfOk result (λ whole. AreRising R.Value.cmp (labels_of whole.items)) }
    ensures pool { IfOk result (λ whole. (firsts seconds : List (R.Value × List ℕ))
        → ArePoolOf R.below (same_by R.below R.same_sums rule) (T.trail trails.now) firsts
        (labels_of one.now)
        → ArePoolOf R.below (same_by R.below R.same_sums rule) (T.trail trails.now) seconds
        (labels_of two.now)
        → ArePoolOf R.below (same_by R.below R.same_sums rule) (T.trail trails.now)
        (firsts ++ seconds) (labels_of whole.items)) }
    ensures from { IfOk result (λ whole. (s : Seen R.Value) → Member whole.items s
        → Member one.now s ⊎ Member two.now s) }
{
    let free = free_of::<P, R, T>(alloc, resource, trails, rule, marked, two, one)?;
    let kept = free_of::<P, R, T>(alloc, resource, trails, rule, marked, one, &free)?;
    let whole = interleave::<R>(alloc, &kept, &free)?;
    Ok(whole)
}
