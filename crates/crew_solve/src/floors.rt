//! What the pairings of each departure cost at least that may still be taken.
//!
//! A round goes through those departures alone whose floors are at most the greatest of its list,
//! those of the lowest floors first. Floors are found as a base's fronts are made, from the least
//! duty pay of each departure's labels and what its duties add; a look at its labels makes one
//! higher. A duty that may end no pairing any more has no floor. A mark takes one byte a walk of
//! each base.
ghost use Rattle.std.specs.Prelude.{◌≡◌, ◌<◌, IfOk, List, None, OnOk, Option, false, length, map, replicate};
ghost use Rattle.std.specs.Arc.{arc_value};
ghost use Rattle.std.specs.List.{flat_map};
ghost use Rattle.crew_resource.specs.Members.{Each};
ghost use Rattle.crew_solve.specs.Machinery.Floors.{AreFloors, AreKnown, AreMarks, IsKnown, MayCost};
ghost use Rattle.crew_solve.specs.Machinery.Homes as Spec;
ghost use Rattle.crew_solve.specs.Machinery.Homes.{IsFit};
ghost use Rattle.crew_solve.specs.Machinery.Keeps.{KeepsSome, keep_all};
ghost use Rattle.crew_solve.specs.Machinery.Takes.{Taken};
ghost use Rattle.crew_vector.specs.declared.priced.PricedPairing.{PricedPairing as Pairing};

use crate::base_fronts::BaseFronts;
use crate::best::keep_of_departure;
use crate::cheapest_so_far::CheapestSoFar;
use crew_sweep::Sweep;
use std::alloc::{AllocError, Global};
use std::collections::BTreeSet;
use std::marker::Model;
use std::sync::Arc;

/// The floors of a base's departures, by their places in order of report: no pairing that comes home
/// by a departure and may still be taken costs less than its floor. What may be taken gets less with
/// each pairing that is taken, so a floor stays true.
///
/// A contract sees the list of the floors.
#[derive(Drop)]
pub(crate) struct Floors {
    floors: Vec<Option<i64>>,
}

impl Model for Floors {
    ghost use Rattle.std.specs.Prelude.{ℤ, List, Option};

    ghost Value = { List (Option ℤ) };

    ghost view = { λ f. f.floors.items };
}

// Whether pairings may be among the least that cost no less than a floor, where it is known.
fn may_want(kept: &CheapestSoFar, floor: Option<i64>) -> bool
    ensures { result ≡ false → (ps : List Pairing) → MayCost kept.now.beside floor ps
        → keep_all kept.now ps ≡ kept.now }
{
    match floor {
        None => true,
        Some(least) => kept.wants(least),
    }
}

// Keeps the least of what comes home by a departure, unless its floor is more than is asked for, and
// gives its floor after that.
fn keep_of_departure_by_floor(
    alloc: Global,
    sweep: &Sweep,
    trip_rig: u32,
    index: usize,
    floor: Option<i64>,
    marks: &mut [bool],
    kept: &mut CheapestSoFar,
) -> Result<Option<i64>, AllocError>
    requires rate { trip_rig ≡ sweep.now.net.settings.trip_rig }
    requires index { index < length sweep.now.net.by_report }
    requires fit { IsFit sweep.now }
    requires floor { MayCost kept.old.beside floor (Spec.home_from sweep.now index) }
    requires marks { AreMarks kept.old.beside sweep.now marks.old }
    ensures kept { OnOk result (kept.new ≡ keep_all kept.old (Spec.home_from sweep.now index)) }
    ensures floor { IfOk result (λ floor.
        MayCost kept.old.beside floor (Spec.home_from sweep.now index)) }
    ensures marks { AreMarks kept.old.beside sweep.now marks.new }
{
    if !may_want(kept, floor) {
        return Ok(floor);
    }
    let least = keep_of_departure(alloc, sweep, trip_rig, index, marks, kept)?;
    Ok(Some(least))
}

// Keeps the least of all that comes home to a base.
fn keep_of_base(
    alloc: Global,
    sweep: &Sweep,
    trip_rig: u32,
    floors: &mut [Option<i64>],
    marks: &mut [bool],
    kept: &mut CheapestSoFar,
) -> Result<(), AllocError>
    requires rate { trip_rig ≡ sweep.now.net.settings.trip_rig }
    requires fit { IsFit sweep.now }
    requires floors { AreFloors kept.old.beside sweep.now floors.old }
    requires marks { AreMarks kept.old.beside sweep.now marks.old }
    ensures kept { OnOk result (kept.new ≡ keep_all kept.old (Spec.home_of sweep.now)) }
    ensures floors { OnOk result (AreFloors kept.old.beside sweep.now floors.new) }
    ensures marks { OnOk result (AreMarks kept.old.beside sweep.now marks.new) }
{
    for index in 0..sweep.net().by_report().len() {
        let floor = keep_of_departure_by_floor(
            alloc,
            sweep,
            trip_rig,
            index,
            floors[index],
            marks,
            kept,
        )?;
        floors[index] = floor;
    }
    Ok(())
}

// Whether a floor is known and not above one.
fn is_low(floor: Option<i64>, most: i64) -> bool {
    match floor {
        None => false,
        Some(least) => least <= most,
    }
}

// Keeps the least of what comes home by a departure, if its floor is low, and gives its floor after
// that.
fn keep_low_of_departure(
    alloc: Global,
    sweep: &Sweep,
    trip_rig: u32,
    index: usize,
    most: i64,
    floor: Option<i64>,
    marks: &mut [bool],
    kept: &mut CheapestSoFar,
) -> Result<Option<i64>, AllocError>
    requires rate { trip_rig ≡ sweep.now.net.settings.trip_rig }
    requires index { index < length sweep.now.net.by_report }
    requires fit { IsFit sweep.now }
    requires floor { MayCost kept.old.beside floor (Spec.home_from sweep.now index) }
    requires marks { AreMarks kept.old.beside sweep.now marks.old }
    ensures kept { OnOk result (KeepsSome (Spec.home_from sweep.now index) kept.old kept.new) }
    ensures floor { IfOk result (λ floor.
        MayCost kept.old.beside floor (Spec.home_from sweep.now index)) }
    ensures marks { AreMarks kept.old.beside sweep.now marks.new }
{
    if !is_low(floor, most) {
        return Ok(floor);
    }
    let floor = keep_of_departure_by_floor(alloc, sweep, trip_rig, index, floor, marks, kept)?;
    Ok(floor)
}

// Keeps the least of what comes home to a base by the departures whose floors are low.
fn keep_low_of_base(
    alloc: Global,
    sweep: &Sweep,
    trip_rig: u32,
    most: i64,
    floors: &mut [Option<i64>],
    marks: &mut [bool],
    kept: &mut CheapestSoFar,
) -> Result<(), AllocError>
    requires rate { trip_rig ≡ sweep.now.net.settings.trip_rig }
    requires fit { IsFit sweep.now }
    requires floors { AreFloors kept.old.beside sweep.now floors.old }
    requires marks { AreMarks kept.old.beside sweep.now marks.old }
    ensures kept { OnOk result (KeepsSome (Spec.home_of sweep.now) kept.old kept.new) }
    ensures floors { OnOk result (AreFloors kept.old.beside sweep.now floors.new) }
    ensures marks { OnOk result (AreMarks kept.old.beside sweep.now marks.new) }
{
    for index in 0..sweep.net().by_report().len() {
        let floor = keep_low_of_departure(
            alloc,
            sweep,
            trip_rig,
            index,
            most,
            floors[index],
            marks,
            kept,
        )?;
        floors[index] = floor;
    }
    Ok(())
}

// Puts a floor among the least of so many different ones.
fn put_floor(floor: i64, many: usize, least: &mut BTreeSet<i64>) -> Result<(), AllocError> {
    least.insert(floor)?;
    if least.len() > many {
        least.pop_last();
    }
    Ok(())
}

// Puts the floors that are known among the least of so many different ones.
fn put_floors(
    floors: &[Option<i64>],
    many: usize,
    least: &mut BTreeSet<i64>,
) -> Result<(), AllocError> {
    let mut most = i64::MAX;
    for &floor in floors {
        if is_low(floor, most) {
            put_floor(floor.unwrap_or(most), many, least)?;
            if least.len() >= many {
                most = least.last().copied().unwrap_or(most);
            }
        }
    }
    Ok(())
}

impl Floors {
    /// The floors of a base's departures, before any pairing is taken: by the least duty pay of the
    /// labels that each leaves with, and by what its duties add.
    pub(crate) fn of(alloc: Global, sweep: &Sweep) -> Result<Floors, AllocError>
        requires { IsFit sweep.now }
        ensures { IfOk result (AreFloors None sweep.now) }
    {
        let net = sweep.net();
        let trip_rig = net.settings().trip_rig;
        let mut floors = Floors::unknown(alloc, net.by_report().len())?;
        let mut none = CheapestSoFar::new(alloc, 0);
        floors.find(alloc, sweep, trip_rig, &mut none)?;
        Ok(floors)
    }

    // The same floors.
    fn copy(&self, alloc: Global) -> Result<Floors, AllocError>
        ensures { IfOk result (λ floors. floors ≡ self.now) }
    {
        let floors = self.floors.iter().copied().collect(alloc)?;
        Ok(Floors { floors })
    }

    // The floors of so many departures, none of which is known.
    fn unknown(alloc: Global, many: usize) -> Result<Floors, AllocError>
        ensures { IfOk result (λ floors. floors ≡ replicate many None) }
    {
        let floors = vec![in alloc; None; many]?;
        Ok(Floors { floors })
    }

    // Finds the floors, and keeps the least of all that comes home to the base.
    fn find(
        &mut self,
        alloc: Global,
        sweep: &Sweep,
        trip_rig: u32,
        kept: &mut CheapestSoFar,
    ) -> Result<(), AllocError>
        requires rate { trip_rig ≡ sweep.now.net.settings.trip_rig }
        requires fit { IsFit sweep.now }
        requires floors { AreFloors kept.old.beside sweep.now self.old }
        ensures kept { OnOk result (kept.new ≡ keep_all kept.old (Spec.home_of sweep.now)) }
        ensures floors { OnOk result (AreFloors kept.old.beside sweep.now self.new) }
    {
        let mut none = Vec::new(alloc);
        keep_of_base(alloc, sweep, trip_rig, &mut self.floors, &mut none, kept)
    }
}

/// What is known of a base: the floors of its departures, and a mark for each walk that was found to
/// begin no pairing that may still be taken. Both stay true, as less and less may be taken.
///
/// A contract sees the list of the floors and that of the marks.
pub(crate) struct BaseKnown {
    floors: Vec<Option<i64>>,
    marks: Vec<bool>,
}

impl Drop for BaseKnown {
    fn drop(self) {
        let Self {
            floors: _,
            marks: _,
        } = self;
    }
}

impl Model for BaseKnown {
    ghost use Rattle.crew_solve.specs.Machinery.Floors as Floors;

    ghost Value = { Floors.Known };

    ghost view = { λ k. record { floors = k.floors.items; marks = k.marks.items } };
}

impl BaseKnown {
    // The floors of a base before any pairing is taken, and no mark, for so many walks.
    fn of(alloc: Global, base: &BaseFronts, walks: usize) -> Result<BaseKnown, AllocError>
        ensures { IfOk result (IsKnown None base.now) }
    {
        let Floors { floors } = base.floors().copy(alloc)?;
        let marks = vec![in alloc; false; walks]?;
        Ok(BaseKnown { floors, marks })
    }

    // Keeps the least of all that comes home to the base.
    fn keep_of_base(
        &mut self,
        alloc: Global,
        sweep: &Sweep,
        trip_rig: u32,
        kept: &mut CheapestSoFar,
    ) -> Result<(), AllocError>
        requires rate { trip_rig ≡ sweep.now.net.settings.trip_rig }
        requires fit { IsFit sweep.now }
        requires known { IsKnown kept.old.beside sweep.now self.old }
        ensures kept { OnOk result (kept.new ≡ keep_all kept.old (Spec.home_of sweep.now)) }
        ensures known { OnOk result (IsKnown kept.old.beside sweep.now self.new) }
    {
        keep_of_base(
            alloc,
            sweep,
            trip_rig,
            &mut self.floors,
            &mut self.marks,
            kept,
        )
    }

    // Keeps the least of what comes home to the base by the departures whose floors are low.
    fn keep_low_of_base(
        &mut self,
        alloc: Global,
        sweep: &Sweep,
        trip_rig: u32,
        most: i64,
        kept: &mut CheapestSoFar,
    ) -> Result<(), AllocError>
        requires rate { trip_rig ≡ sweep.now.net.settings.trip_rig }
        requires fit { IsFit sweep.now }
        requires known { IsKnown kept.old.beside sweep.now self.old }
        ensures kept { OnOk result (KeepsSome (Spec.home_of sweep.now) kept.old kept.new) }
        ensures known { OnOk result (IsKnown kept.old.beside sweep.now self.new) }
    {
        keep_low_of_base(
            alloc,
            sweep,
            trip_rig,
            most,
            &mut self.floors,
            &mut self.marks,
            kept,
        )
    }
}

/// What is known of each base before any pairing is taken, with room for marks or without.
pub(crate) fn known(
    alloc: Global,
    fronts: &[Arc<BaseFronts, Global>],
    marked: bool,
) -> Result<Vec<BaseKnown>, AllocError>
    ensures { IfOk result (λ known. (beside : Option Taken)
        → AreKnown beside (map arc_value fronts.now) known.items) }
{
    let mut known = Vec::with_capacity(alloc, fronts.len())?;
    for base in fronts {
        let walks = if marked {
            base.sweep().walks().count()
        } else {
            0
        };
        let one = BaseKnown::of(alloc, base, walks)?;
        known.push(one)?;
    }
    Ok(known)
}

/// A floor that at most so many different ones of those that are known don't exceed.
pub(crate) fn low_floor(
    alloc: Global,
    known: &[BaseKnown],
    many: usize,
) -> Result<i64, AllocError> {
    let mut least = BTreeSet::new(alloc);
    for base in known {
        put_floors(&base.floors, many, &mut least)?;
    }
    Ok(least.last().copied().unwrap_or(i64::MIN))
}

/// Keeps the least of what comes home to its base by the departures whose floors are low.
pub(crate) fn keep_low_of_bases(
    alloc: Global,
    fronts: &[Arc<BaseFronts, Global>],
    trip_rig: u32,
    most: i64,
    known: &mut [BaseKnown],
    kept: &mut CheapestSoFar,
) -> Result<(), AllocError>
    requires rate { Each (λ b. trip_rig ≡ b.net.settings.trip_rig) (map arc_value fronts.now) }
    requires known { AreKnown kept.old.beside (map arc_value fronts.now) known.old }
    ensures kept { OnOk result
        (KeepsSome (flat_map Spec.home_of (map arc_value fronts.now)) kept.old kept.new) }
    ensures known { OnOk result
        (AreKnown kept.old.beside (map arc_value fronts.now) known.new) }
{
    for (place, base) in fronts.iter().enumerate() {
        known[place].keep_low_of_base(alloc, base.sweep(), trip_rig, most, kept)?;
    }
    Ok(())
}

/// Keeps the least of all that comes home to its base by the departures whose floors aren't more than
/// is asked for.
pub(crate) fn keep_of_bases_by_floors(
    alloc: Global,
    fronts: &[Arc<BaseFronts, Global>],
    trip_rig: u32,
    known: &mut [BaseKnown],
    kept: &mut CheapestSoFar,
) -> Result<(), AllocError>
    requires rate { Each (λ b. trip_rig ≡ b.net.settings.trip_rig) (map arc_value fronts.now) }
    requires known { AreKnown kept.old.beside (map arc_value fronts.now) known.old }
    ensures kept { OnOk result
        (kept.new ≡ keep_all kept.old (flat_map Spec.home_of (map arc_value fronts.now))) }
    ensures known { OnOk result
        (AreKnown kept.old.beside (map arc_value fronts.now) known.new) }
{
    for (place, base) in fronts.iter().enumerate() {
        known[place].keep_of_base(alloc, base.sweep(), trip_rig, kept)?;
    }
    Ok(())
}

/// Keeps the least of all that comes home to its base.
pub(crate) fn keep_of_bases(
    alloc: Global,
    fronts: &[Arc<BaseFronts, Global>],
    trip_rig: u32,
    kept: &mut CheapestSoFar,
) -> Result<(), AllocError>
    requires { Each (λ b. trip_rig ≡ b.net.settings.trip_rig) (map arc_value fronts.now) }
    ensures { OnOk result
        (kept.new ≡ keep_all kept.old (flat_map Spec.home_of (map arc_value fronts.now))) }
{
    let mut known = known(alloc, fronts, false)?;
    keep_of_bases_by_floors(alloc, fronts, trip_rig, &mut known, kept)
}
