//! Seeing a pool after all that it is made of, back in time.
//!
//! A departure is made of arrivals, and an arrival of departures that report earlier. So a thread
//! that needs a pool sees first what that is made of, and so on back, until it comes to what it has
//! seen already.
ghost use Rattle.std.specs.Prelude.{◌≡◌, ◌<◌, false, ℕ, OnOk, get_or, length};
ghost use Rattle.crew_pass.specs.Machinery.Cells.{AreCells};
ghost use Rattle.crew_pass.specs.Machinery.Passing.{ArrivesAt};
ghost use Rattle.crew_pass.specs.Machinery.Seen.{AreSeen, StaySeen};
ghost use Rattle.crew_pass.specs.Machinery.Shelves.{IsThere};
ghost use Rattle.crew_pass.specs.Machinery.Terms.{MayPass, terms};

use crate::cells::Cells;
use crate::ground::Ground;
use crate::pooled::Pooled;
use crate::seen::Seen;
use crate::taking::{take_arrival, take_departure, take_front, take_rest};
use crate::waits::window_at;
use crew_room::Room;
use std::alloc::{AllocError, Global};

/// Sees the pool of the departure at a position.
#[cycle(sight)]
pub(crate) fn see_departure<R: Pooled>(
    alloc: Global,
    ground: &Ground<R>,
    cells: &Cells<R>,
    seen: &mut Seen<R>,
    room: &mut Room<R>,
    position: usize,
) -> Result<(), AllocError>
    requires may { MayPass (terms R.Value.cmp R.Lapses.own R.Staged.own R.Forgets.own R.Resource.own ground.now) }
    requires cells { AreCells ground.now cells.now }
    requires seen { AreSeen (terms R.Value.cmp R.Lapses.own R.Staged.own R.Forgets.own R.Resource.own ground.now) seen.old }
    requires position { position < length ground.now.net.now.by_report }
    ensures seen { OnOk result (AreSeen (terms R.Value.cmp R.Lapses.own R.Staged.own R.Forgets.own R.Resource.own ground.now) seen.new) }
    ensures stays { OnOk result (StaySeen seen.old seen.new) }
    ensures there { OnOk result (IsThere seen.new.departures position) }
{
    if seen.departures.has(position) {
        return Ok(());
    }
    let window = window_at(ground, position);
    for place in window.from..window.end {
        see_arrival(alloc, ground, cells, seen, room, place)?;
    }
    take_departure(alloc, ground, cells, seen, room, position)
}

// Sees the pool of the arrival at a place, and what a rest after it goes by.
#[cycle(sight)]
fn see_arrival<R: Pooled>(
    alloc: Global,
    ground: &Ground<R>,
    cells: &Cells<R>,
    seen: &mut Seen<R>,
    room: &mut Room<R>,
    place: usize,
) -> Result<(), AllocError>
    requires may { MayPass (terms R.Value.cmp R.Lapses.own R.Staged.own R.Forgets.own R.Resource.own ground.now) }
    requires cells { AreCells ground.now cells.now }
    requires seen { AreSeen (terms R.Value.cmp R.Lapses.own R.Staged.own R.Forgets.own R.Resource.own ground.now) seen.old }
    requires place { place < length ground.now.net.now.arrivals }
    ensures seen { OnOk result (AreSeen (terms R.Value.cmp R.Lapses.own R.Staged.own R.Forgets.own R.Resource.own ground.now) seen.new) }
    ensures stays { OnOk result (StaySeen seen.old seen.new) }
    ensures there { OnOk result (IsThere seen.new.arrivals place) }
    ensures rested { OnOk result (R.plain ground.now.resource.now ≡ false
        → IsThere seen.new.rested place) }
{
    if seen.arrivals.has(place) {
        return see_rest(alloc, ground, cells, seen, place);
    }
    for rank in ground.net.arriving(place) {
        let from = ground.positions[*rank as usize];
        see_departure(alloc, ground, cells, seen, room, from as usize)?;
    }
    see_fronts_between(alloc, ground, cells, seen, place)?;
    take_arrival(alloc, ground, cells, seen, room, place)?;
    see_rest(alloc, ground, cells, seen, place)
}

/// Sees the front of the duty of a rank.
pub(crate) fn see_front<R: Pooled>(
    alloc: Global,
    ground: &Ground<R>,
    cells: &Cells<R>,
    seen: &mut Seen<R>,
    room: &mut Room<R>,
    rank: u32,
) -> Result<(), AllocError>
    requires may { MayPass (terms R.Value.cmp R.Lapses.own R.Staged.own R.Forgets.own R.Resource.own ground.now) }
    requires cells { AreCells ground.now cells.now }
    requires seen { AreSeen (terms R.Value.cmp R.Lapses.own R.Staged.own R.Forgets.own R.Resource.own ground.now) seen.old }
    requires rank { rank < length ground.now.net.now.duties }
    ensures seen { OnOk result (AreSeen (terms R.Value.cmp R.Lapses.own R.Staged.own R.Forgets.own R.Resource.own ground.now) seen.new) }
    ensures stays { OnOk result (StaySeen seen.old seen.new) }
    ensures there { OnOk result (IsThere seen.new.fronts rank) }
{
    let position = ground.positions[rank as usize];
    see_departure(alloc, ground, cells, seen, room, position as usize)?;
    take_front(alloc, ground, cells, seen, rank)
}

// Sees the fronts of the duties that arrive at a place, whose departures have been seen, where they
// come between: of a plain resource they don't.
fn see_fronts_between<R: Pooled>(
    alloc: Global,
    ground: &Ground<R>,
    cells: &Cells<R>,
    seen: &mut Seen<R>,
    place: usize,
) -> Result<(), AllocError>
    requires may { MayPass (terms R.Value.cmp R.Lapses.own R.Staged.own R.Forgets.own R.Resource.own ground.now) }
    requires cells { AreCells ground.now cells.now }
    requires seen { AreSeen (terms R.Value.cmp R.Lapses.own R.Staged.own R.Forgets.own R.Resource.own ground.now) seen.old }
    requires place { place < length ground.now.net.now.arrivals }
    requires there { (rank : ℕ) → ArrivesAt ground.now.net.now place rank
        → IsThere seen.old.departures (get_or ground.now.positions.now rank 0) }
    ensures seen { OnOk result (AreSeen (terms R.Value.cmp R.Lapses.own R.Staged.own R.Forgets.own R.Resource.own ground.now) seen.new) }
    ensures stays { OnOk result (StaySeen seen.old seen.new) }
    ensures fronts { OnOk result (R.plain ground.now.resource.now ≡ false → (rank : ℕ)
        → ArrivesAt ground.now.net.now place rank → IsThere seen.new.fronts rank) }
{
    if ground.resource.is_plain() {
        return Ok(());
    }
    for rank in ground.net.arriving(place) {
        take_front(alloc, ground, cells, seen, *rank)?;
    }
    Ok(())
}

// Sees what a rest after the arrival at a place goes by, whose labels have been seen, where rests go by
// anything else: of a plain resource they don't.
fn see_rest<R: Pooled>(
    alloc: Global,
    ground: &Ground<R>,
    cells: &Cells<R>,
    seen: &mut Seen<R>,
    place: usize,
) -> Result<(), AllocError>
    requires may { MayPass (terms R.Value.cmp R.Lapses.own R.Staged.own R.Forgets.own R.Resource.own ground.now) }
    requires cells { AreCells ground.now cells.now }
    requires seen { AreSeen (terms R.Value.cmp R.Lapses.own R.Staged.own R.Forgets.own R.Resource.own ground.now) seen.old }
    requires place { place < length ground.now.net.now.arrivals }
    requires there { IsThere seen.old.arrivals place }
    ensures seen { OnOk result (AreSeen (terms R.Value.cmp R.Lapses.own R.Staged.own R.Forgets.own R.Resource.own ground.now) seen.new) }
    ensures stays { OnOk result (StaySeen seen.old seen.new) }
    ensures there { OnOk result (IsThere seen.new.arrivals place) }
    ensures rested { OnOk result (R.plain ground.now.resource.now ≡ false
        → IsThere seen.new.rested place) }
{
    if ground.resource.is_plain() {
        return Ok(());
    }
    if seen.rested.has(place) {
        return Ok(());
    }
    take_rest(alloc, ground, cells, seen, place)
}
