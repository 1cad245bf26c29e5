//! The marks of nodes.
ghost use Rattle.std.specs.Prelude.{◌≡◌, ◌↔◌, ◌+◌, ◌<◌, ◌≤◌, IfOk, IsTrue, MatchOption, Some, filter, length, map, replicate, slice_get, slice_set};
ghost use Rattle.crew_ready.specs.Firsts.{IsFirst, NoneSet};
ghost use Rattle.crew_round.specs.Machinery.Cells as Spec;
ghost use Rattle.crew_round.specs.Marks as Marks;
ghost use Rattle.crew_round.specs.declared.mark.Mark.TheVariants.{Done, Waiting};

use crate::mark::Mark;
use crate::progress::Progress;
use crew_ready::PlaceSet;
use std::alloc::{AllocError, Global};
use std::marker::Model;

/// The marks of nodes by place, with how many are done and out, and the least that isn't done at
/// hand.
#[derive(Drop)]
pub(crate) struct Cells {
    marks: Vec<Mark>,
    undone: PlaceSet,
    done: usize,
    out: usize,
}

impl Model for Cells {
    ghost use Rattle.std.specs.Prelude.{List};
    ghost use Rattle.crew_round.specs.declared.mark.Mark.{Mark};
    ghost use Rattle.crew_round.specs.Machinery.Cells.{AreTallied};

    ghost Value = { List Mark };

    ghost view = { λ c. c.marks.items };

    ghost invariant = { λ c. AreTallied c.marks.items c.undone c.done c.out };
}

// Whether a mark is that of a node that is done.
fn is_done(mark: Mark) -> bool
    ensures { result ≡ Marks.is_done mark }
{
    match mark {
        Mark::Done => true,
        Mark::Waiting | Mark::Out => false,
    }
}

// Whether a mark is that of a node that is out.
fn is_out(mark: Mark) -> bool
    ensures { result ≡ Marks.is_out mark }
{
    match mark {
        Mark::Out => true,
        Mark::Waiting | Mark::Done => false,
    }
}

/// Whether a node stands there and waits.
pub(crate) fn is_waiting(mark: Option<Mark>) -> bool
    ensures { IsTrue result ↔ (mark ≡ Some Waiting) }
{
    match mark {
        Some(Mark::Waiting) => true,
        Some(Mark::Out) | Some(Mark::Done) | None => false,
    }
}

// A count after one that was told of is told of anew.
fn counted_anew(count: usize, was: bool, is: bool) -> usize
    requires some { Spec.one_if was ≤ count }
    requires few { count ≤ 4_294_967_296 }
    ensures { result + Spec.one_if was ≡ count + Spec.one_if is }
{
    count - usize::from(was) + usize::from(is)
}

impl Cells {
    /// So many nodes that are done.
    pub(crate) fn all_done(alloc: Global, count: usize) -> Result<Cells, AllocError>
        requires { count ≤ 4_294_967_295 }
        ensures { IfOk result (λ cells. cells ≡ replicate count Done) }
    {
        let marks = vec![in alloc; Mark::Done; count]?;
        let undone = PlaceSet::new(alloc, count)?;
        Ok(Cells {
            marks,
            undone,
            done: count,
            out: 0,
        })
    }

    /// How many there are.
    pub(crate) fn len(&self) -> usize
        ensures { result ≡ length self.now }
    {
        self.marks.len()
    }

    /// The mark of a place, and `None` where no node stands there.
    pub(crate) fn get(&self, place: usize) -> Option<Mark>
        ensures { result ≡ slice_get self.now place }
    {
        if place < self.marks.len() {
            return Some(self.marks[place]);
        }
        None
    }

    /// Puts a mark at a place.
    pub(crate) fn set(&mut self, place: usize, mark: Mark)
        requires place { place < length self.old }
        requires few { length self.old ≤ 4_294_967_295 }
        ensures { self.new ≡ slice_set self.old place mark }
    {
        let was = self.marks[place];
        self.done = counted_anew(self.done, is_done(was), is_done(mark));
        self.out = counted_anew(self.out, is_out(was), is_out(mark));
        self.undone.set(place, !is_done(mark));
        self.marks[place] = mark;
    }

    /// The least place of a node that isn't done.
    pub(crate) fn first_undone(&self) -> Option<usize>
        ensures { MatchOption result (NoneSet (map Spec.is_undone self.now))
            (IsFirst (map Spec.is_undone self.now)) }
    {
        self.undone.first()
    }

    /// How many nodes there are, are done, and are out.
    pub(crate) fn progress(&self) -> Progress
        ensures nodes { result.nodes ≡ length self.now }
        ensures done { result.done ≡ length (filter Marks.is_done self.now) }
        ensures out { result.out ≡ length (filter Marks.is_out self.now) }
    {
        Progress {
            nodes: self.marks.len(),
            done: self.done,
            out: self.out,
        }
    }
}

// The mark of a node as a round begins.
fn mark_of(done: bool) -> Mark
    ensures { result ≡ Spec.mark_of done }
{
    if done { Mark::Done } else { Mark::Waiting }
}

/// The marks of nodes where the flagged ones are done, and the others wait.
pub(crate) fn cells_of(alloc: Global, done: &[bool]) -> Result<Cells, AllocError>
    requires { length done.now ≤ 4_294_967_295 }
    ensures { IfOk result (Spec.AreMarksOf done.now) }
{
    let mut cells = Cells::all_done(alloc, done.len())?;
    for place in 0..done.len() {
        let mark = mark_of(done[place]);
        cells.set(place, mark);
    }
    Ok(cells)
}
