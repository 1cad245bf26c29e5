//! Fronts that are lent.
ghost use Rattle.std.specs.Prelude.{◌≡◌, ◌↔◌, IsTrue, length};
ghost use Rattle.std.specs.Iterator.{YieldsFirst, item_count};
ghost use Rattle.crew_answers.specs.ShortPairings.{with_no_pasts};
ghost use Rattle.crew_fronts.specs.Fronts.{Entries};

use crate::passed_front::PassedFront;
use crate::vector::Vector;
use crate::walk_view::WalkView;
use std::marker::Model;

/// The Pareto front of a base and a duty (the non-dominated labels there), lent.
///
/// A contract sees the list of its entries, in order of vector: each vector with its walk. No call
/// takes memory.
#[derive(Drop)]
pub struct FrontView<'a> {
    kind: FrontKind<'a>,
}

// What the front has been made by.
#[derive(Drop)]
pub(crate) enum FrontKind<'a> {
    Swept(crew_solve::FrontView<'a>),
    Passed(PassedFront<'a>),
}

impl<'a> Model for FrontView<'a> {
    ghost use Rattle.crew_fronts.specs.Fronts.{Entries};
    ghost use Rattle.crew_fronts.specs.Machinery.Kinds.{entries_of};

    ghost Value = { Entries };

    ghost view = { λ f. entries_of f.kind };
}

/// The entries of a front that are still to come.
///
/// A contract sees their list.
#[derive(Drop)]
pub struct FrontEntries<'b, 'a> {
    kind: EntriesKind<'b, 'a>,
}

// What the front has been made by.
#[derive(Drop)]
pub(crate) enum EntriesKind<'b, 'a> {
    Swept(crew_solve::FrontEntries<'b, 'a>),
    Passed(PassedFront<'a>),
}

impl<'b, 'a> Model for FrontEntries<'b, 'a> {
    ghost use Rattle.crew_fronts.specs.Fronts.{Entries};
    ghost use Rattle.crew_fronts.specs.Machinery.Kinds.{entries_left};

    ghost Value = { Entries };

    ghost view = { λ e. entries_left e.kind };
}

// Whether two entries are one.
#[inline]
fn is_same_entry(one: &(Vector, WalkView<'_>), other: &(Vector, WalkView<'_>)) -> bool
    ensures { IsTrue result ↔ (one.now ≡ other.now) }
{
    one.0.is_same(&other.0) && one.1.is_same(&other.1)
}

// Whether the entries that are still to come are the same.
fn are_same_entries(mut one: FrontEntries<'_, '_>, mut other: FrontEntries<'_, '_>) -> bool
    ensures { IsTrue result ↔ (one.entry ≡ other.entry) }
{
    while let Some(entry) = one.next() {
        let Some(other_entry) = other.next() else {
            return false;
        };
        if !is_same_entry(&entry, &other_entry) {
            return false;
        }
    }
    other.next().is_none()
}

impl<'a> FrontView<'a> {
    // A front of a sweep.
    #[inline]
    pub(crate) fn swept(front: crew_solve::FrontView<'a>) -> FrontView<'a>
        ensures { result ≡ with_no_pasts front.entry }
    {
        FrontView {
            kind: FrontKind::Swept(front),
        }
    }

    // A front of a pass.
    #[inline]
    pub(crate) fn passed(front: PassedFront<'a>) -> FrontView<'a>
        ensures { result ≡ front.entry }
    {
        FrontView {
            kind: FrontKind::Passed(front),
        }
    }

    /// How many entries there are.
    pub fn len(&self) -> usize
        ensures { result ≡ length self.now }
    {
        match &self.kind {
            FrontKind::Swept(front) => front.len(),
            FrontKind::Passed(front) => front.len(),
        }
    }

    /// The entries in order of vector.
    pub fn iter(&self) -> FrontEntries<'_, 'a>
        ensures { result ≡ self.now }
    {
        let kind = match &self.kind {
            FrontKind::Swept(front) => EntriesKind::Swept(front.iter()),
            FrontKind::Passed(front) => EntriesKind::Passed(front.copy()),
        };
        FrontEntries { kind }
    }

    /// Whether another front has the same entries: each vector with its walk. It takes no memory.
    pub fn is_same(&self, other: &FrontView<'_>) -> bool
        ensures { IsTrue result ↔ (self.now ≡ other.now) }
    {
        match (&self.kind, &other.kind) {
            (FrontKind::Swept(one), FrontKind::Swept(other)) => one.is_same(other),
            _ => self.len() == other.len() && are_same_entries(self.iter(), other.iter()),
        }
    }
}

impl<'b, 'a> Iterator for FrontEntries<'b, 'a> {
    type Item = (Vector, WalkView<'a>);

    ghost next_gives = { YieldsFirst (λ s. s) };

    ghost remaining = { item_count (λ s. s) };

    fn next(&mut self) -> Option<(Vector, WalkView<'a>)> {
        match &mut self.kind {
            EntriesKind::Swept(entries) => {
                let (sums, walk) = entries.next()?;
                Some((Vector::with_no_past(sums), WalkView::swept(walk)))
            }
            EntriesKind::Passed(entries) => entries.next(),
        }
    }
}
