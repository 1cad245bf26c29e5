//! The cells of a pass: pools that are made once, by whichever thread needs them first.
//!
//! In each cell one pool is right, the one that the labelling of the network has there
//! (`crew_labelling`). So nothing depends on which thread made it.
ghost use Rattle.std.specs.Prelude.{◌≡◌, ◌+◌, [], IfOk, IfSome, get_or};
ghost use Rattle.std.specs.Arc.{arc_value};
ghost use Rattle.crew_labelling.specs.Labellings.{labelling_of};
ghost use Rattle.crew_pass.specs.Machinery.Beside.{AreBeside};
ghost use Rattle.crew_pass.specs.Machinery.Cells.{AreCells};
ghost use Rattle.crew_pass.specs.Machinery.Stretches.{IsStretch};
ghost use Rattle.crew_pass.specs.Machinery.Terms.{ArePlacesOf, basis_terms};

use crate::beside::Beside;
use crate::ground::{Basis, Ground};
use crate::places::Places;
use crate::stretch::Stretch;
use crew_cells::{CellRule, OnceCells};
use crew_forgetful::Lapses;
use crew_label::Pool;
use crew_pairing::Duty;
use std::alloc::{AllocError, Global};
use std::sync::Arc;

/// The pools of departures, by position.
pub(crate) struct Departures;

/// The pools of arrivals, by place.
pub(crate) struct Arrivals;

/// The pools that rests after arrivals go by, by place.
pub(crate) struct Rests;

/// The fronts of duties, by rank.
pub(crate) struct Fronts;

impl<R: Lapses<Duty>> CellRule<Basis<R>, Arc<Pool<R>, Global>> for Departures {
    ghost holds = { λ over position pool. arc_value pool ≡ get_or (labelling_of
        (basis_terms R.Value.cmp R.Lapses.own R.Staged.own R.Forgets.own R.Resource.own over)).departures
        position [] };
}

impl<R: Lapses<Duty>> CellRule<Basis<R>, Arc<Pool<R>, Global>> for Arrivals {
    ghost holds = { λ over place pool. arc_value pool ≡ get_or (labelling_of
        (basis_terms R.Value.cmp R.Lapses.own R.Staged.own R.Forgets.own R.Resource.own over)).arrivals
        place [] };
}

impl<R: Lapses<Duty>> CellRule<Basis<R>, Arc<Pool<R>, Global>> for Rests {
    ghost holds = { λ over place pool. arc_value pool ≡ get_or (labelling_of
        (basis_terms R.Value.cmp R.Lapses.own R.Staged.own R.Forgets.own R.Resource.own over)).rested
        place [] };
}

impl<R: Lapses<Duty>> CellRule<Basis<R>, Arc<Pool<R>, Global>> for Fronts {
    ghost holds = { λ over rank pool. arc_value pool ≡ get_or (labelling_of
        (basis_terms R.Value.cmp R.Lapses.own R.Staged.own R.Forgets.own R.Resource.own over)).fronts
        rank [] };
}

/// The stretches down to places from their middles.
pub(crate) struct Downs;

/// The stretches up to places from their middles.
pub(crate) struct Ups;

impl<R: Lapses<Duty>> CellRule<Basis<R>, Arc<Stretch<R>, Global>> for Downs {
    ghost holds = { λ over place stretch. IsStretch
        (basis_terms R.Value.cmp R.Lapses.own R.Staged.own R.Forgets.own R.Resource.own over)
        place (arc_value stretch).middle (arc_value stretch).pool };
}

impl<R: Lapses<Duty>> CellRule<Basis<R>, Arc<Stretch<R>, Global>> for Ups {
    ghost holds = { λ over place stretch. IsStretch
        (basis_terms R.Value.cmp R.Lapses.own R.Staged.own R.Forgets.own R.Resource.own over)
        (arc_value stretch).middle (place + 1) (arc_value stretch).pool };
}

// Cells of pools over what a pass goes by.
type PoolCells<R, K> = OnceCells<Basis<R>, Arc<Pool<R>, Global>, K>;

// Cells of stretches.
type StretchCells<R, K> = OnceCells<Basis<R>, Arc<Stretch<R>, Global>, K>;

/// The cells of a pass, and what it may take over.
#[derive(Drop)]
pub(crate) struct Cells<'p, R: Lapses<Duty>> {
    pub(crate) beside: Option<Beside<'p, R>>,
    pub(crate) departures: PoolCells<R, Departures>,
    pub(crate) arrivals: PoolCells<R, Arrivals>,
    pub(crate) rested: PoolCells<R, Rests>,
    pub(crate) fronts: PoolCells<R, Fronts>,
    pub(crate) downs: StretchCells<R, Downs>,
    pub(crate) ups: StretchCells<R, Ups>,
}

impl<'p, R: Lapses<Duty>> Cells<'p, R> {
    /// Empty cells for all pools of a pass.
    pub(crate) fn new(
        alloc: Global,
        ground: &Ground<R>,
        places: &Places,
        beside: Option<Beside<'p, R>>,
    ) -> Result<Self, AllocError>
        requires places { ArePlacesOf ground.now places.now }
        requires beside { IfSome beside (AreBeside ground.now) }
        ensures { IfOk result (AreCells ground.now) }
    {
        let basis = Basis::of(ground, places);
        let net = ground.net;
        let departures = net.by_report().len();
        let arrivals = net.arrivals().len();
        Ok(Cells {
            beside,
            departures: OnceCells::new(alloc, &basis, departures)?,
            arrivals: OnceCells::new(alloc, &basis, arrivals)?,
            rested: OnceCells::new(alloc, &basis, arrivals)?,
            fronts: OnceCells::new(alloc, &basis, net.duty_count())?,
            downs: OnceCells::new(alloc, &basis, arrivals)?,
            ups: OnceCells::new(alloc, &basis, arrivals)?,
        })
    }
}
