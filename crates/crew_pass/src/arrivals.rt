//! The pools of an arrival: its labels, and those that a rest of them goes by.
ghost use Rattle.std.specs.Prelude.{◌≡◌, ◌<◌, ◌++◌, true, false, ℕ, List, [], IfOk, OnOk, get_or, length, map};
ghost use Rattle.crew_label.specs.Pools.{ArePoolOf};
ghost use Rattle.crew_label.specs.Walks.{shown};
ghost use Rattle.crew_labelling.specs.Held.{HaveArrived, trail_of};
ghost use Rattle.crew_labelling.specs.Labellings.{labelling_of};
ghost use Rattle.crew_pass.specs.Machinery.Passing.{ArrivesAt};
ghost use Rattle.crew_pass.specs.Machinery.Seen.{AreSeen};
ghost use Rattle.crew_pass.specs.Machinery.Shelves.{AreKnown, IsThere};
ghost use Rattle.crew_pass.specs.Machinery.Terms.{MayPass, labels_table, leaving_of, terms};

use crate::ground::Ground;
use crate::pooled::Pooled;
use crate::seen::Seen;
use crate::sight::Sight;
use crate::waits::rises;
use crew_label::Pool;
use crew_pairing::Duty;
use crew_room::Room;
use std::alloc::{AllocError, Global};

// The pool of the arrival at a place, of the fronts of the duties that arrive there, which have been
// seen.
fn gathered_pool<R: Pooled>(
    alloc: Global,
    ground: &Ground<R>,
    seen: &Seen<R>,
    place: usize,
) -> Result<Pool<R>, AllocError>
    requires may { MayPass (terms R.Value.cmp R.Lapses.own R.Staged.own R.Forgets.own R.Resource.own ground.now) }
    requires seen { AreSeen (terms R.Value.cmp R.Lapses.own R.Staged.own R.Forgets.own R.Resource.own ground.now) seen.now }
    requires place { place < length ground.now.net.now.arrivals }
    requires there { (rank : ℕ) → ArrivesAt ground.now.net.now place rank
        → IsThere seen.now.fronts rank }
    ensures { IfOk result (λ pool. pool ≡ get_or (labelling_of (terms R.Value.cmp R.Lapses.own R.Staged.own R.Forgets.own R.Resource.own ground.now)).arrivals place []) }
{
    let mut pools = Vec::new(alloc);
    for rank in ground.net.arriving(place) {
        pools.push(seen.fronts.at(*rank as usize))?;
    }
    let sight = Sight::over(ground, seen);
    let pool = Pool::of_pools::<Duty, Sight<R>>(alloc, ground.resource, &sight, &pools)?;
    rises(&pool);
    Ok(pool)
}

// What boards the duty of a rank joins a room, whose departure has been seen.
fn join_boarding<R: Pooled>(
    ground: &Ground<R>,
    seen: &Seen<R>,
    room: &mut Room<R>,
    rank: u32,
) -> Result<(), AllocError>
    requires plain { R.plain ground.now.resource.now ≡ true }
    requires may { MayPass (terms R.Value.cmp R.Lapses.own R.Staged.own R.Forgets.own R.Resource.own ground.now) }
    requires seen { AreSeen (terms R.Value.cmp R.Lapses.own R.Staged.own R.Forgets.own R.Resource.own ground.now) seen.now }
    requires rank { rank < length ground.now.net.now.duties }
    requires there { IsThere seen.now.departures (get_or ground.now.positions.now rank 0) }
    requires held { HaveArrived (terms R.Value.cmp R.Lapses.own R.Staged.own R.Forgets.own R.Resource.own ground.now) (labels_table (terms R.Value.cmp R.Lapses.own R.Staged.own R.Forgets.own R.Resource.own ground.now)) room.old }
    requires known { AreKnown (leaving_of ground.now) seen.now.departures room.old }
    ensures pool { OnOk result ((candidates : List (R.Value × List ℕ))
        → ArePoolOf R.below R.same_sums (trail_of (labels_table (terms R.Value.cmp R.Lapses.own R.Staged.own R.Forgets.own R.Resource.own ground.now))) candidates room.old
        → ArePoolOf R.below R.same_sums (trail_of (labels_table (terms R.Value.cmp R.Lapses.own R.Staged.own R.Forgets.own R.Resource.own ground.now)))
        (candidates ++ map (shown (trail_of (labels_table (terms R.Value.cmp R.Lapses.own R.Staged.own R.Forgets.own R.Resource.own ground.now))))
        (get_or (labelling_of (terms R.Value.cmp R.Lapses.own R.Staged.own R.Forgets.own R.Resource.own ground.now)).fronts rank [])) room.new) }
    ensures held { OnOk result (HaveArrived (terms R.Value.cmp R.Lapses.own R.Staged.own R.Forgets.own R.Resource.own ground.now) (labels_table (terms R.Value.cmp R.Lapses.own R.Staged.own R.Forgets.own R.Resource.own ground.now)) room.new) }
    ensures known { OnOk result
        (AreKnown (leaving_of ground.now) seen.now.departures room.new) }
{
    let duty = ground.net.duty(rank as usize);
    let position = ground.positions[rank as usize];
    let pool = seen.departures.at(position as usize);
    let sight = Sight::over(ground, seen);
    let number = ground.numbers[rank as usize];
    room.board::<Duty, Sight<R>>(ground.resource, &sight, pool, duty, number)
}

// The pool of the arrival at a place, of what boards the duties that arrive there, whose departures
// have been seen.
fn boarded_pool<R: Pooled>(
    alloc: Global,
    ground: &Ground<R>,
    seen: &Seen<R>,
    room: &mut Room<R>,
    place: usize,
) -> Result<Pool<R>, AllocError>
    requires plain { R.plain ground.now.resource.now ≡ true }
    requires may { MayPass (terms R.Value.cmp R.Lapses.own R.Staged.own R.Forgets.own R.Resource.own ground.now) }
    requires seen { AreSeen (terms R.Value.cmp R.Lapses.own R.Staged.own R.Forgets.own R.Resource.own ground.now) seen.now }
    requires place { place < length ground.now.net.now.arrivals }
    requires there { (rank : ℕ) → ArrivesAt ground.now.net.now place rank
        → IsThere seen.now.departures (get_or ground.now.positions.now rank 0) }
    ensures { IfOk result (λ pool. pool ≡ get_or (labelling_of (terms R.Value.cmp R.Lapses.own R.Staged.own R.Forgets.own R.Resource.own ground.now)).arrivals place []) }
{
    room.clear();
    for rank in ground.net.arriving(place) {
        join_boarding(ground, seen, room, *rank)?;
    }
    let pool = room.sorted(alloc, ground.resource)?;
    rises(&pool);
    Ok(pool)
}

/// The pool of the arrival at a place, whose boardings have been seen: the departures of the duties
/// that arrive there, and their fronts where these come between.
pub(crate) fn arrival_pool<R: Pooled>(
    alloc: Global,
    ground: &Ground<R>,
    seen: &Seen<R>,
    room: &mut Room<R>,
    place: usize,
) -> Result<Pool<R>, AllocError>
    requires may { MayPass (terms R.Value.cmp R.Lapses.own R.Staged.own R.Forgets.own R.Resource.own ground.now) }
    requires seen { AreSeen (terms R.Value.cmp R.Lapses.own R.Staged.own R.Forgets.own R.Resource.own ground.now) seen.now }
    requires place { place < length ground.now.net.now.arrivals }
    requires there { (rank : ℕ) → ArrivesAt ground.now.net.now place rank
        → IsThere seen.now.departures (get_or ground.now.positions.now rank 0) }
    requires fronts { R.plain ground.now.resource.now ≡ false → (rank : ℕ)
        → ArrivesAt ground.now.net.now place rank → IsThere seen.now.fronts rank }
    ensures { IfOk result (λ pool. pool ≡ get_or (labelling_of (terms R.Value.cmp R.Lapses.own R.Staged.own R.Forgets.own R.Resource.own ground.now)).arrivals place []) }
{
    if ground.resource.is_plain() {
        return boarded_pool(alloc, ground, seen, room, place);
    }
    gathered_pool(alloc, ground, seen, place)
}

/// What a rest after the arrival at a place goes by, whose labels have been seen.
pub(crate) fn rested_pool<R: Pooled>(
    alloc: Global,
    ground: &Ground<R>,
    seen: &Seen<R>,
    place: usize,
) -> Result<Pool<R>, AllocError>
    requires may { MayPass (terms R.Value.cmp R.Lapses.own R.Staged.own R.Forgets.own R.Resource.own ground.now) }
    requires seen { AreSeen (terms R.Value.cmp R.Lapses.own R.Staged.own R.Forgets.own R.Resource.own ground.now) seen.now }
    requires place { place < length ground.now.net.now.arrivals }
    requires there { IsThere seen.now.arrivals place }
    ensures { IfOk result (λ pool. pool ≡ get_or (labelling_of (terms R.Value.cmp R.Lapses.own R.Staged.own R.Forgets.own R.Resource.own ground.now)).rested place []) }
{
    let held = seen.arrivals.at(place);
    let sight = Sight::over(ground, seen);
    let pool = held.rested::<Duty, Sight<R>>(alloc, ground.resource, &sight)?;
    rises(&pool);
    Ok(pool)
}
