//! Labels with their marks.
ghost use Rattle.std.specs.Prelude.{◌≡◌, ◌<◌, ◌≤◌, ◌++◌, ◌∷◌, ◌↔◌, List, [], length, map, not, vec_capacity, vec_len, OnErr, OnOk, IsTrue};
ghost use Rattle.std.specs.List.{SwappedAt, filter, list_any, position, swap};
ghost use Rattle.std.specs.List.Sorted.{IsPermutation};
ghost use Rattle.crew_forgetful.specs.Sweeps.{TellCount};
ghost use Rattle.crew_label.specs.Pools.{AreCounted, IsCounted, stands_label};
ghost use Rattle.crew_label.specs.declared.label.Label.{Label};
ghost use Rattle.crew_pool.specs.Machinery.Columns.{IsBelowAll};

use crate::columns::Columns;
use crate::glance::{Glanced, are_at_most};
use crate::stand::may_stand;
use crew_forgetful::Forgets;
use crew_label::{Label, Trails};
use crew_resource::Placed;
use std::alloc::{AllocError, Global};
use std::marker::Model;

// The first places, from which no label moves forward.
const SETTLED: usize = 4;

/// Labels, and beside each the marks of its value: a label whose marks aren't at most those of
/// another is passed over, and its value isn't looked at.
///
/// A contract sees the list of the labels.
#[derive(Drop)]
pub(crate) struct Held<R: Glanced> {
    labels: Vec<Label<R::Value>>,
    marks: Columns,
}

impl<R: Glanced> Model for Held<R> {
    ghost Value = { List (Label R.Value) };

    ghost view = { λ h. h.labels.items };

    ghost invariant = { λ h. h.marks.rows ≡ map (λ l. R.glance_of l.value) h.labels.items };
}

impl<R: Glanced> Held<R> {
    /// No labels.
    pub(crate) fn new(alloc: Global) -> Self
        ensures { result ≡ [] }
    {
        Held {
            labels: Vec::new(alloc),
            marks: Columns::new(alloc),
        }
    }

    /// How many labels there are.
    pub(crate) fn len(&self) -> usize
        ensures { result ≡ length self.now }
    {
        self.labels.len()
    }

    /// Whether there are none.
    pub(crate) fn is_empty(&self) -> bool
        ensures { IsTrue result ↔ (self.now ≡ []) }
    {
        self.labels.is_empty()
    }

    /// The labels.
    pub(crate) fn as_slice(&self) -> &[Label<R::Value>]
        ensures { result.now ≡ self.now }
    {
        self.labels.as_slice()
    }

    /// Lets go of all labels, and keeps the memory.
    pub(crate) fn clear(&mut self)
        ensures { self.new ≡ [] }
    {
        self.labels.clear();
        self.marks.clear();
    }

    /// Adds a label with its marks. On want of memory nothing changes.
    pub(crate) fn push(&mut self, label: Label<R::Value>, marks: [i32; 4]) -> Result<(), AllocError>
        requires { marks ≡ R.glance_of label.value }
        ensures ok { OnOk result (self.new ≡ self.old ++ label ∷ []) }
        ensures err { OnErr result (self.new ≡ self.old) }
    {
        self.labels.reserve(1)?;
        self.marks.push(marks)?;
        self.labels.push(label)?;
        Ok(())
    }

    /// The place of the first label that may stand for another, which has these marks.
    pub(crate) fn first_standing<P: Placed, T: Trails>(
        &self,
        resource: &R,
        trails: &T,
        label: &Label<R::Value>,
        marks: &[i32; 4],
    ) -> Option<usize>
    where
        R: Forgets<P>,
        requires tell { TellCount R.same_sums (R.count_of resource.now) }
        requires held { AreCounted (R.count_of resource.now) (T.leads trails.now)
            (T.trail trails.now) self.now }
        requires label { IsCounted (R.count_of resource.now) (T.leads trails.now)
            (T.trail trails.now) label.now }
        requires marks { marks.now ≡ R.glance_of label.now.value }
        ensures { result ≡ position
            (λ l. stands_label R.below R.same_sums (T.trail trails.now) l label.now) self.now }
    {
        let mut from = 0;
        while let Some(place) = self.marks.next_at_most(from, marks) {
            if may_stand::<P, R, T>(resource, trails, &self.labels[place], label) {
                return Some(place);
            }
            from = place + 1;
        }
        None
    }

    /// Moves the label of a place halfway to the front, so that those that stand for many are found
    /// soon.
    pub(crate) fn advance(&mut self, place: usize)
        requires { place < length self.old }
        ensures { IsPermutation self.old self.new }
    {
        if place >= SETTLED {
            self.swap(place, place / 2);
        }
    }

    // The labels of two places, each in the other's.
    fn swap(&mut self, a: usize, b: usize)
        requires first { a < length self.old }
        requires second { b < length self.old }
        ensures { self.new ≡ swap self.old a b }
    {
        self.labels.swap(a, b);
        self.marks.swap(a, b);
    }

    /// Takes in other labels, and lets go of those for which one of them may stand. On want of
    /// memory nothing changes.
    pub(crate) fn take_in<P: Placed, T: Trails>(
        &mut self,
        resource: &R,
        trails: &T,
        joins: &mut Held<R>,
    ) -> Result<(), AllocError>
    where
        R: Forgets<P>,
        requires tell { TellCount R.same_sums (R.count_of resource.now) }
        requires held { AreCounted (R.count_of resource.now) (T.leads trails.now)
            (T.trail trails.now) self.old }
        requires joins { AreCounted (R.count_of resource.now) (T.leads trails.now)
            (T.trail trails.now) joins.old }
        ensures ok { OnOk result (self.new
            ≡ filter (λ m. not (list_any
            (λ l. stands_label R.below R.same_sums (T.trail trails.now) l m) joins.old)) self.old
            ++ joins.old) }
        ensures err { OnErr result (self.new ≡ self.old) }
    {
        if joins.is_empty() {
            return Ok(());
        }
        self.labels.reserve(joins.labels.len())?;
        self.marks.reserve(joins.labels.len())?;
        drop_reached::<P, R, T>(resource, trails, &mut self.labels, &mut self.marks, joins);
        self.labels.append(&mut joins.labels)?;
        self.marks.append(&mut joins.marks);
        Ok(())
    }
}

// Whether one of some labels may stand for another, which has these marks. `least` is at most the
// marks of each of them: a label whose marks it isn't at most needs no search.
fn reach<P: Placed, R: Forgets<P> + Glanced, T: Trails>(
    resource: &R,
    trails: &T,
    joins: &Held<R>,
    least: &[i32; 4],
    label: &Label<R::Value>,
    marks: &[i32; 4],
) -> bool
    requires tell { TellCount R.same_sums (R.count_of resource.now) }
    requires joins { AreCounted (R.count_of resource.now) (T.leads trails.now)
        (T.trail trails.now) joins.now }
    requires label { IsCounted (R.count_of resource.now) (T.leads trails.now)
        (T.trail trails.now) label.now }
    requires least { IsBelowAll least.now (map (λ l. R.glance_of l.value) joins.now) }
    requires marks { marks.now ≡ R.glance_of label.now.value }
    ensures { result ≡ list_any
        (λ l. stands_label R.below R.same_sums (T.trail trails.now) l label.now) joins.now }
{
    are_at_most(least, marks)
        && joins
            .first_standing::<P, T>(resource, trails, label, marks)
            .is_some()
}

// Lets go of the labels for which one of others may stand, and of their marks.
fn drop_reached<P: Placed, R: Forgets<P> + Glanced, T: Trails>(
    resource: &R,
    trails: &T,
    labels: &mut Vec<Label<R::Value>>,
    marks: &mut Columns,
    joins: &Held<R>,
)
    requires tell { TellCount R.same_sums (R.count_of resource.now) }
    requires held { AreCounted (R.count_of resource.now) (T.leads trails.now)
        (T.trail trails.now) labels.old.items }
    requires joins { AreCounted (R.count_of resource.now) (T.leads trails.now)
        (T.trail trails.now) joins.now }
    requires marked { marks.old.rows ≡ map (λ l. R.glance_of l.value) labels.old.items }
    ensures kept { labels.new.items ≡ filter (λ m. not (list_any
        (λ l. stands_label R.below R.same_sums (T.trail trails.now) l m) joins.now))
        labels.old.items }
    ensures marked { marks.new.rows ≡ map (λ l. R.glance_of l.value) labels.new.items }
    ensures fewer { vec_len labels.new ≤ vec_len labels.old }
    ensures room { (vec_capacity labels.new ≡ vec_capacity labels.old)
        × (marks.new.room ≡ marks.old.room) }
{
    let least = joins.marks.least();
    let mut kept = 0;
    for place in 0..labels.len() {
        let row = marks.at(place);
        if !reach::<P, R, T>(resource, trails, joins, &least, &labels[place], &row) {
            bring_forward::<R>(labels, marks, place, kept);
            kept += 1;
        }
    }
    labels.truncate(kept);
    marks.truncate(kept);
}

// Puts the label of a place, with its marks, at one that isn't after it, and what stood there in its
// place.
fn bring_forward<R: Glanced>(
    labels: &mut Vec<Label<R::Value>>,
    marks: &mut Columns,
    place: usize,
    to: usize,
)
    requires marked { marks.old.rows ≡ map (λ l. R.glance_of l.value) labels.old.items }
    requires there { place < vec_len labels.old }
    requires before { to ≤ place }
    ensures moved { SwappedAt labels.old.items labels.new.items to place }
    ensures marked { marks.new.rows ≡ map (λ l. R.glance_of l.value) labels.new.items }
    ensures room { (vec_capacity labels.new ≡ vec_capacity labels.old)
        × (marks.new.room ≡ marks.old.room) }
{
    if to < place {
        labels.swap(to, place);
        marks.swap(to, place);
    }
}
