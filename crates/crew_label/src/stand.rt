//! Which labels may stand for others.
ghost use Rattle.std.specs.Prelude.{◌≡◌, true, [], ◌∷◌, ◌++◌, not, IfOk, OnOk};
ghost use Rattle.std.specs.List.{filter, list_any};
ghost use Rattle.crew_forgetful.specs.Sweeps.{TellCount};
ghost use Rattle.crew_label.specs.Machinery.Rules.{same_by};
ghost use Rattle.crew_label.specs.Machinery.Seeing.{AreMarked, labels_of};
ghost use Rattle.crew_label.specs.Pools.{AreCounted, IsCounted, stands_label};

use crate::index::{groups_by_marks, is_reached_by};
use crate::label::Label;
use crate::seen::{Seen, push_seen};
use crate::trails::{Trails, walk_at_most};
use crew_forgetful::{Forgets, Marked};
use crew_resource::{Placed, Resource};
use std::alloc::{AllocError, Global};
use std::sync::atomic::AtomicUsize;

// Where a label that stands for another must have the lesser walk: at values with the same sums, as
// at an event, or only at the same value, as in a front.
#[derive(Clone, Copy)]
pub(crate) enum Rule {
    Sums,
    Values,
}

// Whether walks decide between two values.
fn is_same<P: Placed, R: Forgets<P>>(resource: &R, rule: Rule, a: &R::Value, b: &R::Value) -> bool
    ensures { result ≡ same_by R.below R.same_sums rule a.now b.now }
{
    match rule {
        Rule::Sums => resource.has_same_sums(a, b),
        Rule::Values => resource.at_most(a, b) && resource.at_most(b, a),
    }
}

// Whether a label may stand for another: its value is at most the other's, and its walk too where
// the rule asks it. Walks are compared only there.
pub(crate) fn may_stand<P: Placed, R: Forgets<P>, T: Trails>(
    resource: &R,
    trails: &T,
    rule: Rule,
    a: &Label<R::Value>,
    b: &Label<R::Value>,
) -> bool
    requires tell { TellCount R.same_sums (R.count_of resource.now) }
    requires first { IsCounted (R.count_of resource.now) (T.leads trails.now)
        (T.trail trails.now) a.now }
    requires second { IsCounted (R.count_of resource.now) (T.leads trails.now)
        (T.trail trails.now) b.now }
    ensures { result ≡ stands_label R.below (same_by R.below R.same_sums rule)
        (T.trail trails.now) a.now b.now }
{
    resource.at_most(&a.value, &b.value)
        && (!is_same::<P, R>(resource, rule, &a.value, &b.value)
            || walk_at_most(trails, a.before, b.before))
}

// Whether a label of a list may stand for another label.
fn is_reached<P: Placed, R: Forgets<P>, T: Trails>(
    resource: &R,
    trails: &T,
    rule: Rule,
    others: &[Seen<'_, R::Value>],
    label: &Label<R::Value>,
) -> bool
    requires tell { TellCount R.same_sums (R.count_of resource.now) }
    requires counted { AreCounted (R.count_of resource.now) (T.leads trails.now)
        (T.trail trails.now) (labels_of others.now) }
    requires label { IsCounted (R.count_of resource.now) (T.leads trails.now)
        (T.trail trails.now) label.now }
    ensures { result ≡ list_any
        (λ s. stands_label R.below (same_by R.below R.same_sums rule) (T.trail trails.now)
        s.label.now label.now) others.now }
{
    for held in others {
        if may_stand::<P, R, T>(resource, trails, rule, held.label, label) {
            return true;
        }
    }
    false
}

// So few labels are tried one by one: an index of them costs more than it saves.
pub(crate) const FEW: usize = 32;

// Whether neither list has so few.
#[inline]
pub(crate) fn are_many(one: usize, two: usize) -> bool {
    one >= FEW && two >= FEW
}

// The labels of a list for which none of another list may stand.
pub(crate) fn free_of<'a, P: Placed, R: Marked<P>, T: Trails>(
    alloc: Global,
    resource: &R,
    trails: &T,
    rule: Rule,
    marked: bool,
    list: &[Seen<'a, R::Value>],
    others: &[Seen<'a, R::Value>],
) -> Result<Vec<Seen<'a, R::Value>>, AllocError>
    requires tell { TellCount R.same_sums (R.count_of resource.now) }
    requires list { AreCounted (R.count_of resource.now) (T.leads trails.now)
        (T.trail trails.now) (labels_of list.now) }
    requires others { AreCounted (R.count_of resource.now) (T.leads trails.now)
        (T.trail trails.now) (labels_of others.now) }
    requires told { marked ≡ true → AreMarked (R.marks_of resource.now) list.now others.now }
    ensures { IfOk result (λ free. free.items ≡ filter (λ m. not (list_any
        (λ s. stands_label R.below (same_by R.below R.same_sums rule) (T.trail trails.now)
        s.label.now m.label.now) others.now)) list.now) }
{
    if marked && are_many(list.len(), others.len()) {
        free_of_many::<P, R, T>(alloc, resource, trails, rule, list, others)
    } else {
        free_of_few::<P, R, T>(alloc, resource, trails, rule, list, others)
    }
}

// The same, label by label.
fn free_of_few<'a, P: Placed, R: Forgets<P>, T: Trails>(
    alloc: Global,
    resource: &R,
    trails: &T,
    rule: Rule,
    list: &[Seen<'a, R::Value>],
    others: &[Seen<'a, R::Value>],
) -> Result<Vec<Seen<'a, R::Value>>, AllocError>
    requires tell { TellCount R.same_sums (R.count_of resource.now) }
    requires list { AreCounted (R.count_of resource.now) (T.leads trails.now)
        (T.trail trails.now) (labels_of list.now) }
    requires others { AreCounted (R.count_of resource.now) (T.leads trails.now)
        (T.trail trails.now) (labels_of others.now) }
    ensures { IfOk result (λ free. free.items ≡ filter (λ m. not (list_any
        (λ s. stands_label R.below (same_by R.below R.same_sums rule) (T.trail trails.now)
        s.label.now m.label.now) others.now)) list.now) }
{
    let mut free = Vec::with_capacity(alloc, list.len())?;
    for seen in list {
        if !is_reached::<P, R, T>(resource, trails, rule, others, seen.label) {
            push_seen::<R>(&mut free, seen)?;
        }
    }
    Ok(free)
}

// The same, by an index of the others.
fn free_of_many<'a, P: Placed, R: Marked<P>, T: Trails>(
    alloc: Global,
    resource: &R,
    trails: &T,
    rule: Rule,
    list: &[Seen<'a, R::Value>],
    others: &[Seen<'a, R::Value>],
) -> Result<Vec<Seen<'a, R::Value>>, AllocError>
    requires tell { TellCount R.same_sums (R.count_of resource.now) }
    requires list { AreCounted (R.count_of resource.now) (T.leads trails.now)
        (T.trail trails.now) (labels_of list.now) }
    requires others { AreCounted (R.count_of resource.now) (T.leads trails.now)
        (T.trail trails.now) (labels_of others.now) }
    requires told { AreMarked (R.marks_of resource.now) list.now others.now }
    ensures { IfOk result (λ free. free.items ≡ filter (λ m. not (list_any
        (λ s. stands_label R.below (same_by R.below R.same_sums rule) (T.trail trails.now)
        s.label.now m.label.now) others.now)) list.now) }
{
    let mut free = Vec::with_capacity(alloc, list.len())?;
    let groups = groups_by_marks::<R>(alloc, others)?;
    let hint = AtomicUsize::new(0);
    for seen in list {
        if !is_reached_by::<P, R, T>(resource, trails, rule, &groups, others, seen, &hint) {
            push_seen::<R>(&mut free, seen)?;
        }
    }
    Ok(free)
}

// Puts an equal label at the end of a list.
pub(crate) fn push_copy<R: Resource>(
    resource: &R,
    labels: &mut Vec<Label<R::Value>>,
    label: &Label<R::Value>,
) -> Result<(), AllocError>
    ensures { OnOk result (labels.new.items ≡ labels.old.items ++ label.now ∷ []) }
{
    let value = resource.copy(&label.value)?;
    let before = label.before;
    labels.push(Label { value, before })?;
    Ok(())
}
