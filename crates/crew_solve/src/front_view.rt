//! Fronts that a solution lends.
//!
//! Pools stand in no order of vector, since to keep them in one would cost each sweep a sort of
//! each pool. So each step over a front looks through its labels once for the least that comes
//! after the last: a front of n entries takes n^2 looks.
ghost use Rattle.std.specs.Prelude.{◌≡◌, Some, length, map, slice_get};
ghost use Rattle.std.specs.Iterator.{YieldsFirst, item_count};
ghost use Rattle.crew_pairing.specs.Events.{IsSound, departure_of};
ghost use Rattle.crew_solve.specs.Machinery.Homes.{IsFit};
ghost use Rattle.crew_solve.specs.Machinery.Lent as Spec;
ghost use Rattle.crew_solve.specs.Machinery.Solved.{AreShownAt};
ghost use Rattle.crew_net.specs.Positions.{in_order};
ghost use Rattle.crew_vector.specs.Fronts.{RiseByVector};

use crate::lookup::Lookup;
use crate::shown_entries::ShownEntries;
use crate::walk_view::WalkView;
use crew_anchor::{AnchoredResource, AnchoredVector};
use crew_pairing::{Duty, PairingVector};
use crew_pool::{LabelWalk, View};
use crew_sweep::Sweep;
use std::marker::Model;

/// The Pareto front of a base and a duty (the non-dominated labels there), lent.
///
/// A contract sees the list of its entries, in order of vector: each vector with its walk. No call
/// takes memory.
#[derive(Drop)]
pub struct FrontView<'a> {
    sweep: &'a Sweep,
    duty: &'a Duty,
    view: View<'a, Duty, AnchoredResource>,
    rank: u32,
    labels: &'a [(AnchoredVector, LabelWalk)],
}

impl<'a> Model for FrontView<'a> {
    ghost use Rattle.std.specs.Prelude.{List, map};
    ghost use Rattle.crew_pairing.specs.Legs.{Leg};
    ghost use Rattle.crew_pairing.specs.declared.vector.PairingVector.{PairingVector as Vector};
    ghost use Rattle.crew_solve.specs.Machinery.Lent.{IsLent, by_vector, entry_of};

    ghost Value = { List (Vector × List (List Leg)) };

    ghost view = { λ f. by_vector (map (entry_of f.sweep.now f.duty.now.release) f.view) };

    ghost invariant = { λ f. IsLent f.sweep.now f.duty.now f.rank f.labels.now f.view };
}

/// The entries of a front that are still to come.
///
/// A contract sees their list.
#[derive(Drop)]
pub struct FrontEntries<'b, 'a> {
    front: &'b FrontView<'a>,
    last: Option<PairingVector>,
}

impl<'b, 'a> Model for FrontEntries<'b, 'a> {
    ghost use Rattle.std.specs.Prelude.{List};
    ghost use Rattle.crew_pairing.specs.Legs.{Leg};
    ghost use Rattle.crew_pairing.specs.declared.vector.PairingVector.{PairingVector as Vector};
    ghost use Rattle.crew_solve.specs.Machinery.Lent.{after};

    ghost Value = { List (Vector × List (List Leg)) };

    ghost view = { λ e. after e.last e.front.now };
}

// Whether a vector comes after one, if there is one.
fn is_after(last: &Option<PairingVector>, vector: &PairingVector) -> bool
    ensures { result ≡ Spec.is_after last.now vector.now }
{
    match last {
        None => true,
        Some(last) => *last < *vector,
    }
}

// Whether a vector comes after one, if there is one, and before the least such entry so far.
fn is_next(
    last: &Option<PairingVector>,
    least: &Option<(PairingVector, WalkView<'_>)>,
    vector: &PairingVector,
) -> bool
    ensures { result ≡ Spec.is_next last.now least.now vector.now }
{
    match least {
        None => is_after(last, vector),
        Some(least) => is_after(last, vector) && *vector < least.0,
    }
}

// The least entry of some labels after a vector, or the least of all.
fn least_after<'a>(
    sweep: &'a Sweep,
    duty: &Duty,
    view: &View<'a, Duty, AnchoredResource>,
    last: &Option<PairingVector>,
) -> Option<(PairingVector, WalkView<'a>)>
    requires { Spec.AreLent sweep.now duty.now view.now }
    ensures { result ≡ slice_get (Spec.after last.now (Spec.by_vector
        (map (Spec.entry_of sweep.now duty.now.release) view.now))) 0 }
{
    let minute = i64::from(duty.release);
    let mut least = None;
    for (value, label) in view.iter() {
        let vector = sweep.resource().show(&value, minute);
        if is_next(last, &least, &vector) {
            least = Some((vector, WalkView::new(sweep, label)));
        }
    }
    least
}

impl<'a> FrontView<'a> {
    // What a departure's pool shows of the duty of a rank.
    pub(crate) fn new(sweep: &'a Sweep, index: usize, rank: u32, duty: &'a Duty) -> FrontView<'a>
        requires duty { slice_get sweep.now.net.duties rank ≡ Some duty.now }
        requires own { slice_get (in_order sweep.now.net) index ≡ Some (departure_of duty.now) }
        requires sound { IsSound duty.now }
        requires fit { IsFit sweep.now }
        ensures { AreShownAt sweep.now index duty.now result }
    {
        let pool = sweep.pool(index);
        let view = View::new(sweep.resource(), pool, duty, rank);
        let _entries = view.iter();
        FrontView {
            sweep,
            duty,
            view,
            rank,
            labels: pool.as_slice(),
        }
    }

    /// How many entries there are.
    pub fn len(&self) -> usize
        ensures { result ≡ length self.now }
    {
        self.view.len()
    }

    /// The entries in order of vector. Each step goes over the front once.
    pub fn iter(&self) -> FrontEntries<'_, 'a>
        ensures { result ≡ self.now }
    {
        FrontEntries {
            front: self,
            last: None,
        }
    }

    // The entries as the labels stand.
    pub(crate) fn shown(&self) -> ShownEntries<'a>
        ensures entries { self.now ≡ Spec.by_vector result }
        ensures rises { RiseByVector self.now }
    {
        ShownEntries::new(self.sweep, self.duty, &self.view)
    }

    // The labels, among which entries are looked for.
    pub(crate) fn lookup(&self) -> Lookup<'a>
        ensures entries { self.now ≡ Spec.by_vector result }
        ensures rises { RiseByVector self.now }
    {
        Lookup::new(self.sweep, self.duty, self.rank, self.labels)
    }

    // The first entry after a vector, or the first of all.
    fn first_after(&self, last: &Option<PairingVector>) -> Option<(PairingVector, WalkView<'a>)>
        ensures first { result ≡ slice_get (Spec.after last.now self.now) 0 }
        ensures rises { RiseByVector self.now }
    {
        least_after(self.sweep, self.duty, &self.view, last)
    }
}

impl<'b, 'a> Iterator for FrontEntries<'b, 'a> {
    type Item = (PairingVector, WalkView<'a>);

    ghost next_gives = { YieldsFirst (λ s. s) };

    ghost remaining = { item_count (λ s. s) };

    fn next(&mut self) -> Option<(PairingVector, WalkView<'a>)> {
        let entry = self.front.first_after(&self.last)?;
        self.last = Some(entry.0);
        Some(entry)
    }
}
