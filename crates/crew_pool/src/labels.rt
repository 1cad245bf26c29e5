//! Labels with their marks.
ghost use Rattle.std.specs.Prelude.{◌≡◌, ◌<◌, ◌≤◌, ◌++◌, ◌∷◌, ◌↔◌, List, [], length, map, not, slice_get, slice_set, vec_capacity, vec_len, OnErr, OnOk, IfOk, IsTrue, Some};
ghost use Rattle.std.specs.List.{SwappedAt, filter, list_any, position, swap};
ghost use Rattle.crew_pool.specs.Machinery.Columns.{IsBelowAll};
ghost use Rattle.crew_pool.specs.LabelWalks.{AreAlike, lesser_label_walk};
ghost use Rattle.crew_pool.specs.declared.label_walk.LabelWalk.{LabelWalk};

use crate::arena::Walks;
use crate::columns::Columns;
use crate::label_walk::{LabelWalk, compare_label_walks};
use crate::marks::{Marked, are_at_most};
use std::alloc::{AllocError, Global};
use std::marker::Model;

/// Labels, and beside each the marks of its vector: a label whose marks aren't at most those of a
/// vector is passed over, and its vector isn't looked at.
///
/// A contract sees the list of the labels.
#[derive(Drop)]
pub(crate) struct Labels<R: Marked> {
    labels: Vec<(R::Value, LabelWalk)>,
    marks: Columns,
}

impl<R: Marked> Model for Labels<R> {
    ghost Value = { List (R.Value × LabelWalk) };

    ghost view = { λ l. l.labels.items };

    ghost invariant = { λ l. l.marks.rows ≡ map (λ e. R.marks_of e.0) l.labels.items };
}

impl<R: Marked> Labels<R> {
    /// No labels.
    pub(crate) fn new(alloc: Global) -> Self
        ensures { result ≡ [] }
    {
        Labels {
            labels: Vec::new(alloc),
            marks: Columns::new(alloc),
        }
    }

    /// A list of labels, with their marks.
    pub(crate) fn of(
        alloc: Global,
        resource: &R,
        labels: Vec<(R::Value, LabelWalk)>,
    ) -> Result<Self, AllocError>
        ensures { IfOk result (λ marked. marked ≡ labels.items) }
    {
        let mut columns = Columns::new(alloc);
        columns.reserve(labels.len())?;
        for label in &labels {
            columns.push(resource.marks(&label.0))?;
        }
        Ok(Labels {
            labels,
            marks: columns,
        })
    }

    /// Adds labels like those of a list. On want of memory some may have been added.
    pub(crate) fn copy_in(
        &mut self,
        resource: &R,
        list: &[(R::Value, LabelWalk)],
    ) -> Result<(), AllocError>
        ensures { OnOk result (self.new ≡ self.old ++ list.now) }
    {
        self.labels.reserve(list.len())?;
        self.marks.reserve(list.len())?;
        for label in list {
            let marks = resource.marks(&label.0);
            let value = resource.copy(&label.0)?;
            self.push((value, label.1), marks)?;
        }
        Ok(())
    }

    /// The list of the labels alone.
    pub(crate) fn into_vec(self) -> Vec<(R::Value, LabelWalk)>
        ensures { result.items ≡ self }
    {
        self.labels
    }

    /// The labels.
    pub(crate) fn as_slice(&self) -> &[(R::Value, LabelWalk)]
        ensures { result.now ≡ self.now }
    {
        self.labels.as_slice()
    }

    /// Whether there are none.
    pub(crate) fn is_empty(&self) -> bool
        ensures { IsTrue result ↔ (self.now ≡ []) }
    {
        self.labels.is_empty()
    }

    /// Lets go of all labels, and keeps the memory.
    pub(crate) fn clear(&mut self)
        ensures { self.new ≡ [] }
    {
        self.labels.clear();
        self.marks.clear();
    }

    /// Adds a label with its marks. On want of memory nothing changes.
    pub(crate) fn push(
        &mut self,
        label: (R::Value, LabelWalk),
        marks: [i32; 4],
    ) -> Result<(), AllocError>
        requires { marks ≡ R.marks_of label.0 }
        ensures ok { OnOk result (self.new ≡ self.old ++ label ∷ []) }
        ensures err { OnErr result (self.new ≡ self.old) }
    {
        self.labels.reserve(1)?;
        self.marks.push(marks)?;
        self.labels.push(label)?;
        Ok(())
    }

    /// The place of the first label whose vector is at most another, which has these marks.
    pub(crate) fn first_at_most(
        &self,
        resource: &R,
        value: &R::Value,
        marks: &[i32; 4],
    ) -> Option<usize>
        requires { marks.now ≡ R.marks_of value.now }
        ensures { result ≡ position (λ l. R.below l.0 value.now) self.now }
    {
        let mut from = 0;
        while let Some(place) = self.marks.next_at_most(from, marks) {
            if resource.at_most(&self.labels[place].0, value) {
                return Some(place);
            }
            from = place + 1;
        }
        None
    }

    /// Whether a value is at most the vector of the label at a place.
    pub(crate) fn is_reached(&self, resource: &R, place: usize, value: &R::Value) -> bool
        requires { place < length self.now }
        ensures { (held : R.Value × LabelWalk) → slice_get self.now place ≡ Some held
            → result ≡ R.below value.now held.0 }
    {
        resource.at_most(value, &self.labels[place].0)
    }

    /// The labels of two places, each in the other's.
    pub(crate) fn swap(&mut self, a: usize, b: usize)
        requires first { a < length self.old }
        requires second { b < length self.old }
        ensures { self.new ≡ swap self.old a b }
    {
        self.labels.swap(a, b);
        self.marks.swap(a, b);
    }

    /// Puts the lesser of its walk and this one into a label.
    pub(crate) fn lower(&mut self, place: usize, walk: LabelWalk, walks: &Walks)
        requires place { place < length self.old }
        requires alike { (value : R.Value) (was : LabelWalk)
            → slice_get self.old place ≡ Some (value, was) → AreAlike walks.now was walk }
        ensures long { length self.new ≡ length self.old }
        ensures lowered { (value : R.Value) (was : LabelWalk)
            → slice_get self.old place ≡ Some (value, was)
            → self.new ≡ slice_set self.old place (value, lesser_label_walk walks.now was walk) }
    {
        let label = &mut self.labels[place];
        if compare_label_walks(walks, walk, label.1).is_lt() {
            label.1 = walk;
        }
    }

    /// Takes in other labels, and lets go of those that one of them is at most. On want of memory
    /// nothing changes.
    pub(crate) fn take_in(&mut self, resource: &R, joins: &mut Labels<R>) -> Result<(), AllocError>
        ensures ok { OnOk result (self.new
            ≡ filter (λ e. not (list_any (λ l. R.below l.0 e.0) joins.old)) self.old
            ++ joins.old) }
        ensures err { OnErr result (self.new ≡ self.old) }
    {
        if joins.is_empty() {
            return Ok(());
        }
        self.labels.reserve(joins.labels.len())?;
        self.marks.reserve(joins.labels.len())?;
        drop_reached(resource, &mut self.labels, &mut self.marks, joins);
        self.labels.append(&mut joins.labels)?;
        self.marks.append(&mut joins.marks);
        Ok(())
    }
}

// Whether one of some labels is at most a value, which has these marks. `least` is at most the marks of
// each of them: a value whose marks it isn't at most needs no search.
fn reach<R: Marked>(
    resource: &R,
    joins: &Labels<R>,
    least: &[i32; 4],
    value: &R::Value,
    marks: &[i32; 4],
) -> bool
    requires least { IsBelowAll least.now (map (λ e. R.marks_of e.0) joins.now) }
    requires marks { marks.now ≡ R.marks_of value.now }
    ensures { result ≡ list_any (λ l. R.below l.0 value.now) joins.now }
{
    are_at_most(least, marks) && joins.first_at_most(resource, value, marks).is_some()
}

// Lets go of the labels that one of others is at most, and of their marks.
fn drop_reached<R: Marked>(
    resource: &R,
    labels: &mut Vec<(R::Value, LabelWalk)>,
    marks: &mut Columns,
    joins: &Labels<R>,
)
    requires { marks.old.rows ≡ map (λ e. R.marks_of e.0) labels.old.items }
    ensures kept { labels.new.items
        ≡ filter (λ e. not (list_any (λ l. R.below l.0 e.0) joins.now)) labels.old.items }
    ensures marked { marks.new.rows ≡ map (λ e. R.marks_of e.0) labels.new.items }
    ensures fewer { vec_len labels.new ≤ vec_len labels.old }
    ensures room { (vec_capacity labels.new ≡ vec_capacity labels.old)
        × (marks.new.room ≡ marks.old.room) }
{
    let least = joins.marks.least();
    let mut kept = 0;
    for place in 0..labels.len() {
        if !reach(resource, joins, &least, &labels[place].0, &marks.at(place)) {
            bring_forward::<R>(labels, marks, place, kept);
            kept += 1;
        }
    }
    labels.truncate(kept);
    marks.truncate(kept);
}

// Puts the label of a place, with its marks, at one that isn't after it, and what stood there in its
// place.
fn bring_forward<R: Marked>(
    labels: &mut Vec<(R::Value, LabelWalk)>,
    marks: &mut Columns,
    place: usize,
    to: usize,
)
    requires marked { marks.old.rows ≡ map (λ e. R.marks_of e.0) labels.old.items }
    requires there { place < vec_len labels.old }
    requires before { to ≤ place }
    ensures moved { SwappedAt labels.old.items labels.new.items to place }
    ensures marked { marks.new.rows ≡ map (λ e. R.marks_of e.0) labels.new.items }
    ensures room { (vec_capacity labels.new ≡ vec_capacity labels.old)
        × (marks.new.room ≡ marks.old.room) }
{
    if to < place {
        labels.swap(to, place);
        marks.swap(to, place);
    }
}
