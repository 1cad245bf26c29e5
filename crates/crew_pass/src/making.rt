//! Making a pool, or taking over the one that an earlier pass has made.
ghost use Rattle.std.specs.Prelude.{◌≡◌, ◌<◌, false, ℕ, [], IfOk, get_or, length};
ghost use Rattle.std.specs.Arc.{arc_value};
ghost use Rattle.crew_labelling.specs.Labellings.{labelling_of};
ghost use Rattle.crew_pass.specs.Machinery.Cells.{AreCells};
ghost use Rattle.crew_pass.specs.Machinery.Passing.{ArrivesAt, MayWaitAt};
ghost use Rattle.crew_pass.specs.Machinery.Seen.{AreSeen};
ghost use Rattle.crew_pass.specs.Machinery.Shelves.{IsThere};
ghost use Rattle.crew_pass.specs.Machinery.Terms.{MayPass, terms};

use crate::arrivals::{arrival_pool, rested_pool};
use crate::boards::duty_front;
use crate::cells::Cells;
use crate::ground::Ground;
use crate::likeness::{note_arrival, note_departure};
use crate::pooled::Pooled;
use crate::seen::Seen;
use crate::takeover::{arrival_there, departure_there, front_there, rest_there};
use crate::waits::departure_pool;
use crew_label::Pool;
use crew_room::Room;
use std::alloc::{AllocError, Global};
use std::sync::Arc;

/// The pool of the departure at a position, whose arrivals have been seen.
pub(crate) fn made_departure<R: Pooled>(
    alloc: Global,
    ground: &Ground<R>,
    cells: &Cells<R>,
    seen: &Seen<R>,
    room: &mut Room<R>,
    position: usize,
) -> Result<Arc<Pool<R>, Global>, AllocError>
    requires may { MayPass (terms R.Value.cmp R.Lapses.own R.Staged.own R.Forgets.own R.Resource.own ground.now) }
    requires cells { AreCells ground.now cells.now }
    requires seen { AreSeen (terms R.Value.cmp R.Lapses.own R.Staged.own R.Forgets.own R.Resource.own ground.now) seen.now }
    requires position { position < length ground.now.net.now.by_report }
    requires there { (place : ℕ) → MayWaitAt ground.now.net.now position place
        → IsThere seen.now.arrivals place }
    requires rested { R.plain ground.now.resource.now ≡ false → (place : ℕ)
        → MayWaitAt ground.now.net.now position place → IsThere seen.now.rested place }
    ensures { IfOk result (λ pool. arc_value pool ≡ get_or (labelling_of (terms R.Value.cmp R.Lapses.own R.Staged.own R.Forgets.own R.Resource.own ground.now)).departures position []) }
{
    let Some(beside) = &cells.beside else {
        let pool = departure_pool(alloc, ground, cells, seen, room, position)?;
        return Ok(Arc::new(alloc, pool)?);
    };
    if let Some(pool) = departure_there(ground, beside, position) {
        beside.note_alike(ground, position);
        return Ok(Arc::try_clone(pool)?);
    }
    let pool = departure_pool(alloc, ground, cells, seen, room, position)?;
    note_departure(ground, beside, seen, &pool, position);
    Ok(Arc::new(alloc, pool)?)
}

/// The pool of the arrival at a place, whose boardings have been seen.
pub(crate) fn made_arrival<R: Pooled>(
    alloc: Global,
    ground: &Ground<R>,
    cells: &Cells<R>,
    seen: &Seen<R>,
    room: &mut Room<R>,
    place: usize,
) -> Result<Arc<Pool<R>, Global>, AllocError>
    requires may { MayPass (terms R.Value.cmp R.Lapses.own R.Staged.own R.Forgets.own R.Resource.own ground.now) }
    requires cells { AreCells ground.now cells.now }
    requires seen { AreSeen (terms R.Value.cmp R.Lapses.own R.Staged.own R.Forgets.own R.Resource.own ground.now) seen.now }
    requires place { place < length ground.now.net.now.arrivals }
    requires there { (rank : ℕ) → ArrivesAt ground.now.net.now place rank
        → IsThere seen.now.departures (get_or ground.now.positions.now rank 0) }
    requires fronts { R.plain ground.now.resource.now ≡ false → (rank : ℕ)
        → ArrivesAt ground.now.net.now place rank → IsThere seen.now.fronts rank }
    ensures { IfOk result (λ pool. arc_value pool ≡ get_or (labelling_of (terms R.Value.cmp R.Lapses.own R.Staged.own R.Forgets.own R.Resource.own ground.now)).arrivals place []) }
{
    let Some(beside) = &cells.beside else {
        let pool = arrival_pool(alloc, ground, seen, room, place)?;
        return Ok(Arc::new(alloc, pool)?);
    };
    if let Some(pool) = arrival_there(ground, beside, place) {
        beside.note_same(ground, place);
        return Ok(Arc::try_clone(pool)?);
    }
    let pool = arrival_pool(alloc, ground, seen, room, place)?;
    note_arrival(ground, beside, seen, &pool, place);
    Ok(Arc::new(alloc, pool)?)
}

/// What a rest after the arrival at a place goes by, whose labels have been seen.
pub(crate) fn made_rest<R: Pooled>(
    alloc: Global,
    ground: &Ground<R>,
    cells: &Cells<R>,
    seen: &Seen<R>,
    place: usize,
) -> Result<Arc<Pool<R>, Global>, AllocError>
    requires may { MayPass (terms R.Value.cmp R.Lapses.own R.Staged.own R.Forgets.own R.Resource.own ground.now) }
    requires cells { AreCells ground.now cells.now }
    requires seen { AreSeen (terms R.Value.cmp R.Lapses.own R.Staged.own R.Forgets.own R.Resource.own ground.now) seen.now }
    requires place { place < length ground.now.net.now.arrivals }
    requires there { IsThere seen.now.arrivals place }
    ensures { IfOk result (λ pool. arc_value pool ≡ get_or (labelling_of (terms R.Value.cmp R.Lapses.own R.Staged.own R.Forgets.own R.Resource.own ground.now)).rested place []) }
{
    if let Some(beside) = &cells.beside {
        if let Some(pool) = rest_there(ground, beside, place) {
            return Ok(Arc::try_clone(pool)?);
        }
    }
    let pool = rested_pool(alloc, ground, seen, place)?;
    Ok(Arc::new(alloc, pool)?)
}

/// The front of the duty of a rank, whose departure has been seen.
pub(crate) fn made_front<R: Pooled>(
    alloc: Global,
    ground: &Ground<R>,
    cells: &Cells<R>,
    seen: &Seen<R>,
    rank: u32,
) -> Result<Arc<Pool<R>, Global>, AllocError>
    requires may { MayPass (terms R.Value.cmp R.Lapses.own R.Staged.own R.Forgets.own R.Resource.own ground.now) }
    requires cells { AreCells ground.now cells.now }
    requires seen { AreSeen (terms R.Value.cmp R.Lapses.own R.Staged.own R.Forgets.own R.Resource.own ground.now) seen.now }
    requires rank { rank < length ground.now.net.now.duties }
    requires there { IsThere seen.now.departures (get_or ground.now.positions.now rank 0) }
    ensures { IfOk result (λ pool. arc_value pool ≡ get_or (labelling_of (terms R.Value.cmp R.Lapses.own R.Staged.own R.Forgets.own R.Resource.own ground.now)).fronts rank []) }
{
    if let Some(beside) = &cells.beside {
        if let Some(pool) = front_there(ground, beside, rank) {
            return Ok(Arc::try_clone(pool)?);
        }
    }
    let pool = duty_front(alloc, ground, seen, rank)?;
    Ok(Arc::new(alloc, pool)?)
}
