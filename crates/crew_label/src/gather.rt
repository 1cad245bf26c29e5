//! What labels leave of themselves.
ghost use Rattle.std.specs.Prelude.{◌≡◌, true, ℤ, List, map, IfOk};
ghost use Rattle.crew_resource.specs.Members.{Member};
ghost use Rattle.crew_forgetful.specs.Sweeps.{TellCount};
ghost use Rattle.crew_label.specs.Machinery.Rules.{same_by};
ghost use Rattle.crew_label.specs.Machinery.Seeing.{AreTold, labels_of};
ghost use Rattle.crew_label.specs.declared.seen.Seen.{Seen};
ghost use Rattle.crew_label.specs.Pools.{AreCounted, ArePoolOf, AreRising};
ghost use Rattle.crew_label.specs.Walks.{shown};
ghost use Rattle.crew_label.specs.declared.label.Label.{Label};

use crate::label::Label;
use crate::merge::merge_seen;
use crate::seen::{Seen, copy_seen, marks_where, moment_of, push_seen, see};
use crate::stand::{FEW, Rule};
use crate::trails::Trails;
use crew_forgetful::Marked;
use crew_resource::{Placed, Resource};
use std::alloc::{AllocError, Global};

// The labels of a list for which no other may stand, in the order of their values: those of its
// halves, merged.
pub(crate) fn gather<P: Placed, R: Marked<P>, T: Trails>(
    alloc: Global,
    resource: &R,
    trails: &T,
    rule: Rule,
    labels: &[Label<R::Value>],
) -> Result<Vec<Label<R::Value>>, AllocError>
    requires tell { TellCount R.same_sums (R.count_of resource.now) }
    requires counts { AreCounted (R.count_of resource.now) (T.leads trails.now)
        (T.trail trails.now) labels.now }
    ensures rises { IfOk result (λ pool. AreRising R.Value.cmp pool.items) }
    ensures pool { IfOk result (λ pool. ArePoolOf R.below (same_by R.below R.same_sums rule)
        (T.trail trails.now) (map (shown (T.trail trails.now)) labels.now) pool.items) }
    ensures from { IfOk result (λ pool. (l : Label R.Value) → Member pool.items l
        → Member labels.now l) }
{
    let marked = labels.len() / 2 >= FEW;
    let moment = moment_of::<P, R>(resource, labels);
    let marks = marks_where::<P, R>(alloc, resource, marked, labels, moment)?;
    let none = [0; 16];
    let seen = see::<R>(alloc, labels, &marks, &none)?;
    let pool = gather_seen::<P, R, T>(alloc, resource, trails, rule, marked, &seen)?;
    copy_seen(alloc, resource, &pool)
}

// The same of labels where they stand.
fn gather_seen<'a, P: Placed, R: Marked<P>, T: Trails>(
    alloc: Global,
    resource: &R,
    trails: &T,
    rule: Rule,
    marked: bool,
    seen: &[Seen<'a, R::Value>],
) -> Result<Vec<Seen<'a, R::Value>>, AllocError>
    requires tell { TellCount R.same_sums (R.count_of resource.now) }
    requires counts { AreCounted (R.count_of resource.now) (T.leads trails.now)
        (T.trail trails.now) (labels_of seen.now) }
    requires told { marked ≡ true → (moment : ℤ)
        × AreTold (λ v. R.marks_of resource.now v moment) seen.now }
    ensures rises { IfOk result (λ pool. AreRising R.Value.cmp (labels_of pool.items)) }
    ensures pool { IfOk result (λ pool. ArePoolOf R.below (same_by R.below R.same_sums rule)
        (T.trail trails.now) (map (shown (T.trail trails.now)) (labels_of seen.now))
        (labels_of pool.items)) }
    ensures from { IfOk result (λ pool. (s : Seen R.Value) → Member pool.items s
        → Member seen.now s) }
{
    if seen.len() < 2 {
        return seen_again::<R>(alloc, seen);
    }
    let middle = seen.len() / 2;
    let one = gather_seen::<P, R, T>(alloc, resource, trails, rule, marked, &seen[..middle])?;
    let two = gather_seen::<P, R, T>(alloc, resource, trails, rule, marked, &seen[middle..])?;
    merge_seen::<P, R, T>(alloc, resource, trails, rule, marked, &one, &two)
}

// The same once more.
fn seen_again<'a, R: Resource>(
    alloc: Global,
    seen: &[Seen<'a, R::Value>],
) -> Result<Vec<Seen<'a, R::Value>>, AllocError>
    ensures { IfOk result (λ again. again.items ≡ seen.now) }
{
    let mut again = Vec::with_capacity(alloc, seen.len())?;
    for each in seen {
        push_seen::<R>(&mut again, each)?;
    }
    Ok(again)
}
