//! A pass beside an earlier one.
//!
//! What is made of the same comes out the same. So the pool of an arrival into which the same duties go,
//! from departures whose pools are alike, is the earlier one; so is that of a departure that waits on the
//! same arrivals, all of whose pools are the earlier ones. Cells note which are: one is written where it
//! is known, and an empty one says nothing.
ghost use Rattle.std.specs.Prelude.{◌≡◌, ◌<◌, true, IfOk, length};
ghost use Rattle.crew_pass.specs.Machinery.Beside.{AreBeside, IsAlikeThere, IsSameThere};
ghost use Rattle.crew_pass.specs.Machinery.Ended.{passed_terms};
ghost use Rattle.crew_pass.specs.Machinery.Terms.{ArePlaces, ArePlacesOf, basis_terms, terms};

use crate::ground::{Basis, Ground};
use crate::passed::Passed;
use crate::places::Places;
use crate::twins::{Twins, between};
use crew_cells::{CellRule, OnceCells};
use crew_forgetful::Lapses;
use crew_pairing::Duty;
use std::alloc::{AllocError, Global};
use std::snapshot::Snapshot;

/// What a pass and an earlier one go by, for clauses alone.
#[derive(Drop)]
pub(crate) struct Bases<R: Lapses<Duty>> {
    now: Basis<R>,
    earlier: Snapshot<Passed<R>>,
}

/// Departures whose pools are alike to the earlier ones, by position.
pub(crate) struct Alike;

/// Arrivals whose pools are the earlier ones, by place.
pub(crate) struct Same;

impl<R: Lapses<Duty>> CellRule<Bases<R>, ()> for Alike {
    ghost holds = { λ over position _. IsAlikeThere
        (basis_terms R.Value.cmp R.Lapses.own R.Staged.own R.Forgets.own R.Resource.own over.now)
        (passed_terms R.Value.cmp R.Lapses.own R.Staged.own R.Forgets.own R.Resource.own
        over.earlier.value) position };
}

impl<R: Lapses<Duty>> CellRule<Bases<R>, ()> for Same {
    ghost holds = { λ over place _. IsSameThere
        (basis_terms R.Value.cmp R.Lapses.own R.Staged.own R.Forgets.own R.Resource.own over.now)
        (passed_terms R.Value.cmp R.Lapses.own R.Staged.own R.Forgets.own R.Resource.own
        over.earlier.value) place };
}

/// An earlier pass, what its course has in common with this pass's, and what is known to be the same.
#[derive(Drop)]
pub(crate) struct Beside<'p, R: Lapses<Duty>> {
    pub(crate) earlier: &'p Passed<R>,
    pub(crate) twins: Twins,
    pub(crate) alike: OnceCells<Bases<R>, (), Alike>,
    pub(crate) same: OnceCells<Bases<R>, (), Same>,
}

impl<'p, R: Lapses<Duty>> Beside<'p, R> {
    /// Nothing is known yet.
    pub(crate) fn new(
        alloc: Global,
        ground: &Ground<R>,
        places: &Places,
        earlier: &'p Passed<R>,
    ) -> Result<Self, AllocError>
        requires are_places { ArePlaces ground.now.net.now places.now }
        requires places { ArePlacesOf ground.now places.now }
        requires resource { earlier.now.resource ≡ ground.now.resource.now }
        requires base { earlier.now.base ≡ ground.now.base }
        ensures { IfOk result (AreBeside ground.now) }
    {
        let twins = between(alloc, ground.net, places, earlier.net(), earlier.places())?;
        let bases = Bases {
            now: Basis::of(ground, places),
            earlier: Snapshot::of(earlier),
        };
        Ok(Beside {
            earlier,
            twins,
            alike: OnceCells::new(alloc, &bases, ground.net.by_report().len())?,
            same: OnceCells::new(alloc, &bases, ground.net.arrivals().len())?,
        })
    }

    /// Whether the pool of the departure at a position is known to be alike to the earlier one.
    pub(crate) fn is_alike(&self, ground: &Ground<R>, position: usize) -> bool
        requires beside { AreBeside ground.now self.now }
        requires position { position < length ground.now.net.now.by_report }
        ensures { result ≡ true → IsAlikeThere
            (terms R.Value.cmp R.Lapses.own R.Staged.own R.Forgets.own R.Resource.own ground.now)
            (passed_terms R.Value.cmp R.Lapses.own R.Staged.own R.Forgets.own R.Resource.own
            self.now.earlier.now) position }
    {
        self.alike.get(position).is_some()
    }

    /// Whether the pool of the arrival at a place is known to be the earlier one.
    pub(crate) fn is_same(&self, ground: &Ground<R>, place: usize) -> bool
        requires beside { AreBeside ground.now self.now }
        requires place { place < length ground.now.net.now.arrivals }
        ensures { result ≡ true → IsSameThere
            (terms R.Value.cmp R.Lapses.own R.Staged.own R.Forgets.own R.Resource.own ground.now)
            (passed_terms R.Value.cmp R.Lapses.own R.Staged.own R.Forgets.own R.Resource.own
            self.now.earlier.now) place }
    {
        self.same.get(place).is_some()
    }

    /// Notes that the pool of the departure at a position is alike to the earlier one.
    pub(crate) fn note_alike(&self, ground: &Ground<R>, position: usize)
        requires beside { AreBeside ground.now self.now }
        requires position { position < length ground.now.net.now.by_report }
        requires alike { IsAlikeThere
            (terms R.Value.cmp R.Lapses.own R.Staged.own R.Forgets.own R.Resource.own ground.now)
            (passed_terms R.Value.cmp R.Lapses.own R.Staged.own R.Forgets.own R.Resource.own
            self.now.earlier.now) position }
    {
        let _ = self.alike.offer(position, ());
    }

    /// Notes that the pool of the arrival at a place is the earlier one.
    pub(crate) fn note_same(&self, ground: &Ground<R>, place: usize)
        requires beside { AreBeside ground.now self.now }
        requires place { place < length ground.now.net.now.arrivals }
        requires same { IsSameThere
            (terms R.Value.cmp R.Lapses.own R.Staged.own R.Forgets.own R.Resource.own ground.now)
            (passed_terms R.Value.cmp R.Lapses.own R.Staged.own R.Forgets.own R.Resource.own
            self.now.earlier.now) place }
    {
        let _ = self.same.offer(place, ());
    }
}
