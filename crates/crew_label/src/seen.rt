//! Labels where they stand, with their marks.
//!
//! A label with a past has some 180 bytes, and its marks cost as much as comparing it with many
//! others: so both are handled where they stand, marks are made once for all pools of one event,
//! and what stays is copied once, into a list of its size.
ghost use Rattle.std.specs.Prelude.{◌≡◌, [], ◌∷◌, ◌++◌, true, ℤ, List, None, Some, MatchOption, map, slice_get, IfOk, OnOk};
ghost use Rattle.crew_label.specs.Machinery.Seeing.{AreTold, labels_of};

use crate::label::Label;
use crate::stand::push_copy;
use crew_forgetful::Marked;
use crew_resource::{Placed, Resource};
use std::alloc::{AllocError, Global};

/// A label where it stands, and its marks, where they were made.
#[derive(Drop)]
pub(crate) struct Seen<'a, V> {
    pub(crate) label: &'a Label<V>,
    pub(crate) marks: &'a [i32; 16],
}

// The moment from which labels' marks are told: any serves.
pub(crate) fn moment_of<P: Placed, R: Marked<P>>(resource: &R, labels: &[Label<R::Value>]) -> i32 {
    match labels.first() {
        None => 0,
        Some(label) => resource.moment(&label.value),
    }
}

// The marks of labels, in order, or none at all where labels go unmarked.
pub(crate) fn marks_where<P: Placed, R: Marked<P>>(
    alloc: Global,
    resource: &R,
    marked: bool,
    labels: &[Label<R::Value>],
    moment: i32,
) -> Result<Vec<[i32; 16]>, AllocError>
    ensures { IfOk result (λ made. marked ≡ true → made.items
        ≡ map (λ l. R.marks_of resource.now l.value moment) labels.now) }
{
    if !marked {
        return Ok(Vec::new(alloc));
    }
    let mut made = Vec::with_capacity(alloc, labels.len())?;
    for label in labels {
        made.push(resource.marks(&label.value, moment))?;
    }
    Ok(made)
}

// The marks at a place, or others where there are none.
fn marks_at<'a>(marks: &'a [[i32; 16]], place: usize, others: &'a [i32; 16]) -> &'a [i32; 16]
    ensures { (m : List ℤ) → slice_get marks.now place ≡ Some m → result.now ≡ m }
{
    marks.get(place).unwrap_or(others)
}

// Labels with the marks that stand at their places, or with others where there are none.
pub(crate) fn see<'a, R: Resource>(
    alloc: Global,
    labels: &'a [Label<R::Value>],
    marks: &'a [[i32; 16]],
    others: &'a [i32; 16],
) -> Result<Vec<Seen<'a, R::Value>>, AllocError>
    ensures labels { IfOk result (λ seen. labels_of seen.items ≡ labels.now) }
    ensures told { IfOk result (λ seen. (f : R.Value → List ℤ)
        → marks.now ≡ map (λ l. f l.value) labels.now → AreTold f seen.items) }
{
    let mut seen = Vec::with_capacity(alloc, labels.len())?;
    for (place, label) in labels.iter().enumerate() {
        let marks = marks_at(marks, place, others);
        seen.push(Seen { label, marks })?;
    }
    Ok(seen)
}

// What is seen at a place.
#[inline]
pub(crate) fn seen_at<'s, 'a, V>(list: &'s [Seen<'a, V>], place: usize) -> Option<&'s Seen<'a, V>>
    ensures { MatchOption result (slice_get list.now place ≡ None)
        (λ seen. slice_get list.now place ≡ Some seen.now) }
{
    list.get(place)
}

// Puts one that is seen at the end of some.
pub(crate) fn push_seen<'a, R: Resource>(
    list: &mut Vec<Seen<'a, R::Value>>,
    seen: &Seen<'a, R::Value>,
) -> Result<(), AllocError>
    ensures { OnOk result (list.new.items ≡ list.old.items ++ seen.now ∷ []) }
{
    let label = seen.label;
    let marks = seen.marks;
    list.push(Seen { label, marks })?;
    Ok(())
}

// Equal labels.
pub(crate) fn copy_seen<R: Resource>(
    alloc: Global,
    resource: &R,
    seen: &[Seen<'_, R::Value>],
) -> Result<Vec<Label<R::Value>>, AllocError>
    ensures { IfOk result (λ labels. labels.items ≡ labels_of seen.now) }
{
    let mut labels = Vec::with_capacity(alloc, seen.len())?;
    for each in seen {
        push_copy(resource, &mut labels, each.label)?;
    }
    Ok(labels)
}
