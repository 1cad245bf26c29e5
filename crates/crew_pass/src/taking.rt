//! Taking what is in a cell, or making it.
//!
//! A thread takes the pool that is in its cell. Where the cell is empty, it makes the pool of what it
//! has seen and offers it; and where another thread was quicker, it goes on with that thread's. All
//! are the same, since only one is right.
ghost use Rattle.std.specs.Prelude.{◌≡◌, ◌<◌, false, ℕ, [], IfOk, OnOk, get_or, length};
ghost use Rattle.std.specs.Arc.{arc_value};
ghost use Rattle.crew_labelling.specs.Labellings.{labelling_of};
ghost use Rattle.crew_pass.specs.Machinery.Cells.{AreCells};
ghost use Rattle.crew_pass.specs.Machinery.Passing.{ArrivesAt, MayWaitAt};
ghost use Rattle.crew_pass.specs.Machinery.Seen.{AreSeen, StaySeen};
ghost use Rattle.crew_pass.specs.Machinery.Shelves.{IsThere};
ghost use Rattle.crew_pass.specs.Machinery.Terms.{MayPass, terms};

use crate::cells::Cells;
use crate::ground::Ground;
use crate::making::{made_arrival, made_departure, made_front, made_rest};
use crate::pooled::Pooled;
use crate::seen::Seen;
use crew_label::Pool;
use crew_room::Room;
use std::alloc::{AllocError, Global};
use std::sync::Arc;

// The pool of the departure at a position, whose arrivals have been seen.
fn departure_in<R: Pooled>(
    alloc: Global,
    ground: &Ground<R>,
    cells: &Cells<R>,
    seen: &Seen<R>,
    room: &mut Room<R>,
    position: usize,
) -> Result<Arc<Pool<R>, Global>, AllocError>
    requires may { MayPass (terms R.Value.cmp R.Lapses.own R.Staged.own R.Forgets.own R.Resource.own ground.now) }
    requires cells { AreCells ground.now cells.now }
    requires seen { AreSeen (terms R.Value.cmp R.Lapses.own R.Staged.own R.Forgets.own R.Resource.own ground.now) seen.now }
    requires position { position < length ground.now.net.now.by_report }
    requires there { (place : ℕ) → MayWaitAt ground.now.net.now position place
        → IsThere seen.now.arrivals place }
    requires rested { R.plain ground.now.resource.now ≡ false → (place : ℕ)
        → MayWaitAt ground.now.net.now position place → IsThere seen.now.rested place }
    ensures { IfOk result (λ pool. arc_value pool ≡ get_or (labelling_of (terms R.Value.cmp R.Lapses.own R.Staged.own R.Forgets.own R.Resource.own ground.now)).departures position []) }
{
    if let Some(pool) = cells.departures.get(position) {
        return Ok(Arc::try_clone(pool)?);
    }
    let pool = made_departure(alloc, ground, cells, seen, room, position)?;
    let pool = cells.departures.offer(position, pool);
    Ok(Arc::try_clone(pool.value())?)
}

/// Sees the pool of the departure at a position, whose arrivals have been seen.
pub(crate) fn take_departure<R: Pooled>(
    alloc: Global,
    ground: &Ground<R>,
    cells: &Cells<R>,
    seen: &mut Seen<R>,
    room: &mut Room<R>,
    position: usize,
) -> Result<(), AllocError>
    requires may { MayPass (terms R.Value.cmp R.Lapses.own R.Staged.own R.Forgets.own R.Resource.own ground.now) }
    requires cells { AreCells ground.now cells.now }
    requires seen { AreSeen (terms R.Value.cmp R.Lapses.own R.Staged.own R.Forgets.own R.Resource.own ground.now) seen.old }
    requires position { position < length ground.now.net.now.by_report }
    requires there { (place : ℕ) → MayWaitAt ground.now.net.now position place
        → IsThere seen.old.arrivals place }
    requires rested { R.plain ground.now.resource.now ≡ false → (place : ℕ)
        → MayWaitAt ground.now.net.now position place → IsThere seen.old.rested place }
    ensures seen { OnOk result (AreSeen (terms R.Value.cmp R.Lapses.own R.Staged.own R.Forgets.own R.Resource.own ground.now) seen.new) }
    ensures stays { OnOk result (StaySeen seen.old seen.new) }
    ensures there { OnOk result (IsThere seen.new.departures position) }
{
    let pool = departure_in(alloc, ground, cells, seen, room, position)?;
    seen.departures.put(position, pool);
    Ok(())
}

// The pool of the arrival at a place, whose boardings have been seen.
fn arrival_in<R: Pooled>(
    alloc: Global,
    ground: &Ground<R>,
    cells: &Cells<R>,
    seen: &Seen<R>,
    room: &mut Room<R>,
    place: usize,
) -> Result<Arc<Pool<R>, Global>, AllocError>
    requires may { MayPass (terms R.Value.cmp R.Lapses.own R.Staged.own R.Forgets.own R.Resource.own ground.now) }
    requires cells { AreCells ground.now cells.now }
    requires seen { AreSeen (terms R.Value.cmp R.Lapses.own R.Staged.own R.Forgets.own R.Resource.own ground.now) seen.now }
    requires place { place < length ground.now.net.now.arrivals }
    requires there { (rank : ℕ) → ArrivesAt ground.now.net.now place rank
        → IsThere seen.now.departures (get_or ground.now.positions.now rank 0) }
    requires fronts { R.plain ground.now.resource.now ≡ false → (rank : ℕ)
        → ArrivesAt ground.now.net.now place rank → IsThere seen.now.fronts rank }
    ensures { IfOk result (λ pool. arc_value pool ≡ get_or (labelling_of (terms R.Value.cmp R.Lapses.own R.Staged.own R.Forgets.own R.Resource.own ground.now)).arrivals place []) }
{
    if let Some(pool) = cells.arrivals.get(place) {
        return Ok(Arc::try_clone(pool)?);
    }
    let pool = made_arrival(alloc, ground, cells, seen, room, place)?;
    let pool = cells.arrivals.offer(place, pool);
    Ok(Arc::try_clone(pool.value())?)
}

/// Sees the pool of the arrival at a place, whose boardings have been seen.
pub(crate) fn take_arrival<R: Pooled>(
    alloc: Global,
    ground: &Ground<R>,
    cells: &Cells<R>,
    seen: &mut Seen<R>,
    room: &mut Room<R>,
    place: usize,
) -> Result<(), AllocError>
    requires may { MayPass (terms R.Value.cmp R.Lapses.own R.Staged.own R.Forgets.own R.Resource.own ground.now) }
    requires cells { AreCells ground.now cells.now }
    requires seen { AreSeen (terms R.Value.cmp R.Lapses.own R.Staged.own R.Forgets.own R.Resource.own ground.now) seen.old }
    requires place { place < length ground.now.net.now.arrivals }
    requires there { (rank : ℕ) → ArrivesAt ground.now.net.now place rank
        → IsThere seen.old.departures (get_or ground.now.positions.now rank 0) }
    requires fronts { R.plain ground.now.resource.now ≡ false → (rank : ℕ)
        → ArrivesAt ground.now.net.now place rank → IsThere seen.old.fronts rank }
    ensures seen { OnOk result (AreSeen (terms R.Value.cmp R.Lapses.own R.Staged.own R.Forgets.own R.Resource.own ground.now) seen.new) }
    ensures stays { OnOk result (StaySeen seen.old seen.new) }
    ensures there { OnOk result (IsThere seen.new.arrivals place) }
{
    let pool = arrival_in(alloc, ground, cells, seen, room, place)?;
    seen.arrivals.put(place, pool);
    Ok(())
}

// What a rest after the arrival at a place goes by, whose labels have been seen.
fn rest_in<R: Pooled>(
    alloc: Global,
    ground: &Ground<R>,
    cells: &Cells<R>,
    seen: &Seen<R>,
    place: usize,
) -> Result<Arc<Pool<R>, Global>, AllocError>
    requires may { MayPass (terms R.Value.cmp R.Lapses.own R.Staged.own R.Forgets.own R.Resource.own ground.now) }
    requires cells { AreCells ground.now cells.now }
    requires seen { AreSeen (terms R.Value.cmp R.Lapses.own R.Staged.own R.Forgets.own R.Resource.own ground.now) seen.now }
    requires place { place < length ground.now.net.now.arrivals }
    requires there { IsThere seen.now.arrivals place }
    ensures { IfOk result (λ pool. arc_value pool ≡ get_or (labelling_of (terms R.Value.cmp R.Lapses.own R.Staged.own R.Forgets.own R.Resource.own ground.now)).rested place []) }
{
    if let Some(pool) = cells.rested.get(place) {
        return Ok(Arc::try_clone(pool)?);
    }
    let pool = made_rest(alloc, ground, cells, seen, place)?;
    let pool = cells.rested.offer(place, pool);
    Ok(Arc::try_clone(pool.value())?)
}

/// Sees what a rest after the arrival at a place goes by, whose labels have been seen.
pub(crate) fn take_rest<R: Pooled>(
    alloc: Global,
    ground: &Ground<R>,
    cells: &Cells<R>,
    seen: &mut Seen<R>,
    place: usize,
) -> Result<(), AllocError>
    requires may { MayPass (terms R.Value.cmp R.Lapses.own R.Staged.own R.Forgets.own R.Resource.own ground.now) }
    requires cells { AreCells ground.now cells.now }
    requires seen { AreSeen (terms R.Value.cmp R.Lapses.own R.Staged.own R.Forgets.own R.Resource.own ground.now) seen.old }
    requires place { place < length ground.now.net.now.arrivals }
    requires there { IsThere seen.old.arrivals place }
    ensures seen { OnOk result (AreSeen (terms R.Value.cmp R.Lapses.own R.Staged.own R.Forgets.own R.Resource.own ground.now) seen.new) }
    ensures stays { OnOk result (StaySeen seen.old seen.new) }
    ensures there { OnOk result (IsThere seen.new.rested place) }
{
    let pool = rest_in(alloc, ground, cells, seen, place)?;
    seen.rested.put(place, pool);
    Ok(())
}

// The front of the duty of a rank, whose departure has been seen.
fn front_in<R: Pooled>(
    alloc: Global,
    ground: &Ground<R>,
    cells: &Cells<R>,
    seen: &Seen<R>,
    rank: u32,
) -> Result<Arc<Pool<R>, Global>, AllocError>
    requires may { MayPass (terms R.Value.cmp R.Lapses.own R.Staged.own R.Forgets.own R.Resource.own ground.now) }
    requires cells { AreCells ground.now cells.now }
    requires seen { AreSeen (terms R.Value.cmp R.Lapses.own R.Staged.own R.Forgets.own R.Resource.own ground.now) seen.now }
    requires rank { rank < length ground.now.net.now.duties }
    requires there { IsThere seen.now.departures (get_or ground.now.positions.now rank 0) }
    ensures { IfOk result (λ pool. arc_value pool ≡ get_or (labelling_of (terms R.Value.cmp R.Lapses.own R.Staged.own R.Forgets.own R.Resource.own ground.now)).fronts rank []) }
{
    if let Some(pool) = cells.fronts.get(rank as usize) {
        return Ok(Arc::try_clone(pool)?);
    }
    let pool = made_front(alloc, ground, cells, seen, rank)?;
    let pool = cells.fronts.offer(rank as usize, pool);
    Ok(Arc::try_clone(pool.value())?)
}

/// Sees the front of the duty of a rank, whose departure has been seen.
pub(crate) fn take_front<R: Pooled>(
    alloc: Global,
    ground: &Ground<R>,
    cells: &Cells<R>,
    seen: &mut Seen<R>,
    rank: u32,
) -> Result<(), AllocError>
    requires may { MayPass (terms R.Value.cmp R.Lapses.own R.Staged.own R.Forgets.own R.Resource.own ground.now) }
    requires cells { AreCells ground.now cells.now }
    requires seen { AreSeen (terms R.Value.cmp R.Lapses.own R.Staged.own R.Forgets.own R.Resource.own ground.now) seen.old }
    requires rank { rank < length ground.now.net.now.duties }
    requires there { IsThere seen.old.departures (get_or ground.now.positions.now rank 0) }
    ensures seen { OnOk result (AreSeen (terms R.Value.cmp R.Lapses.own R.Staged.own R.Forgets.own R.Resource.own ground.now) seen.new) }
    ensures stays { OnOk result (StaySeen seen.old seen.new) }
    ensures there { OnOk result (IsThere seen.new.fronts rank) }
{
    if seen.fronts.has(rank as usize) {
        return Ok(());
    }
    let pool = front_in(alloc, ground, cells, seen, rank)?;
    seen.fronts.put(rank as usize, pool);
    Ok(())
}
