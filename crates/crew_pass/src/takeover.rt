//! Taking over what an earlier pass has made, where it is made of the same.
ghost use Rattle.std.specs.Prelude.{◌≡◌, ◌≢◌, ◌<◌, ◌≤◌, true, ℕ, [], Some, IfSome, get_or, length, slice_get};
ghost use Rattle.std.specs.Arc.{arc_value};
ghost use Rattle.crew_labelling.specs.Beside.{WaitAlike};
ghost use Rattle.crew_labelling.specs.Labellings.{labelling_of};
ghost use Rattle.crew_net.specs.Events.{IsWindow};
ghost use Rattle.crew_net.specs.Positions.{in_order};
ghost use Rattle.crew_pairing.specs.Events.{may_wait};
ghost use Rattle.crew_pairing.specs.declared.events.Departure.{Departure};
ghost use Rattle.crew_pass.specs.Machinery.Beside.{AreBeside, IsAlikeThere, IsSameAs, IsSameThere};
ghost use Rattle.crew_pass.specs.Machinery.Passing.{ArrivesAt};
ghost use Rattle.crew_pass.specs.Machinery.Ended.{passed_terms};
ghost use Rattle.crew_pass.specs.Machinery.Terms.{MayPass, terms};

use crate::beside::Beside;
use crate::ground::Ground;
use crate::passed::Passed;
use crate::pooled::Pooled;
use crate::waits::window_at;
use crew_label::Pool;
use crew_net::Window;
use std::alloc::Global;
use std::sync::Arc;

// What stands for no twin.
const NONE: u32 = 4_294_967_295;

/// The twin at a place of a list, if there is one.
pub(crate) fn twin_at(twins: &[u32], place: usize) -> Option<usize>
    ensures at { IfSome result (λ other. slice_get twins.now place ≡ Some other) }
    ensures some { IfSome result (λ other. other < 4_294_967_295) }
{
    let twin = *twins.get(place)?;
    if twin == NONE {
        return None;
    }
    Some(twin as usize)
}

// The window of the departure at a position of an earlier pass.
fn window_there<R: Pooled>(earlier: &Passed<R>, position: usize) -> Window
    requires position { position < length earlier.now.pass.net.by_report }
    ensures window { (g : Departure) → slice_get (in_order earlier.now.pass.net) position ≡ Some g
        → IsWindow (λ x. may_wait earlier.now.pass.net.settings x g) earlier.now.pass.net.arrivals
        result }
    ensures few { result.end ≤ 200_000 }
{
    let net = earlier.net();
    let _ = net.arrivals();
    let place = net.by_report()[position] as usize;
    net.window(place)
}

// Whether the pool of the arrival at a place is known to be that of the arrival at a place of the earlier
// pass.
fn is_same_as<R: Pooled>(ground: &Ground<R>, beside: &Beside<R>, place: usize, other: usize) -> bool
    requires beside { AreBeside ground.now beside.now }
    requires place { place < length ground.now.net.now.arrivals }
    requires other { other < 200_000 }
    ensures { result ≡ true → IsSameAs (terms R.Value.cmp R.Lapses.own R.Staged.own R.Forgets.own R.Resource.own ground.now) (passed_terms R.Value.cmp R.Lapses.own R.Staged.own R.Forgets.own R.Resource.own beside.now.earlier.now) place other }
{
    beside.twins.arrivals[place] as usize == other && beside.is_same(ground, place)
}

// Whether two windows are of the same arrivals, one by one, whose pools are known to be the earlier ones.
fn wait_alike<R: Pooled>(
    ground: &Ground<R>,
    beside: &Beside<R>,
    here: Window,
    there: Window,
) -> bool
    requires beside { AreBeside ground.now beside.now }
    requires ordered { here.from ≤ here.end }
    requires others_ordered { there.from ≤ there.end }
    requires within { here.end ≤ length ground.now.net.now.arrivals }
    requires others_within { there.end ≤ 200_000 }
    ensures { result ≡ true → WaitAlike (terms R.Value.cmp R.Lapses.own R.Staged.own R.Forgets.own R.Resource.own ground.now) (passed_terms R.Value.cmp R.Lapses.own R.Staged.own R.Forgets.own R.Resource.own beside.now.earlier.now) here there }
{
    let many = here.end - here.from;
    if there.end - there.from != many {
        return false;
    }
    for k in 0..many {
        if !is_same_as(ground, beside, here.from + k, there.from + k) {
            return false;
        }
    }
    true
}

/// The earlier pool of the departure at a position, where that waits on the same arrivals, all of whose
/// pools are known to be the earlier ones.
pub(crate) fn departure_there<'b, 'p, R: Pooled>(
    ground: &Ground<R>,
    beside: &'b Beside<'p, R>,
    position: usize,
) -> Option<&'b Arc<Pool<R>, Global>>
    requires may { MayPass (terms R.Value.cmp R.Lapses.own R.Staged.own R.Forgets.own R.Resource.own ground.now) }
    requires beside { AreBeside ground.now beside.now }
    requires position { position < length ground.now.net.now.by_report }
    ensures pool { IfSome result (λ pool. arc_value pool.now
        ≡ get_or (labelling_of (terms R.Value.cmp R.Lapses.own R.Staged.own R.Forgets.own R.Resource.own ground.now)).departures position []) }
    ensures alike { IfSome result (λ _. IsAlikeThere (terms R.Value.cmp R.Lapses.own R.Staged.own R.Forgets.own R.Resource.own ground.now) (passed_terms R.Value.cmp R.Lapses.own R.Staged.own R.Forgets.own R.Resource.own beside.now.earlier.now) position) }
{
    let other = twin_at(&beside.twins.departures, position)?;
    let here = window_at(ground, position);
    let there = window_there(beside.earlier, other);
    if !wait_alike(ground, beside, here, there) {
        return None;
    }
    beside.earlier.fronts().table().get(other)
}

// Whether the duty of a rank boards from a pool that is known to be alike.
fn boards_alike<R: Pooled>(ground: &Ground<R>, beside: &Beside<R>, rank: u32) -> bool
    requires may { MayPass (terms R.Value.cmp R.Lapses.own R.Staged.own R.Forgets.own R.Resource.own ground.now) }
    requires beside { AreBeside ground.now beside.now }
    requires rank { rank < length ground.now.net.now.duties }
    ensures { result ≡ true → IsAlikeThere (terms R.Value.cmp R.Lapses.own R.Staged.own R.Forgets.own R.Resource.own ground.now) (passed_terms R.Value.cmp R.Lapses.own R.Staged.own R.Forgets.own R.Resource.own beside.now.earlier.now) (get_or ground.now.positions.now rank 0) }
{
    let position = ground.positions[rank as usize];
    beside.is_alike(ground, position as usize)
}

// Whether all duties that arrive at a place do.
fn board_alike<R: Pooled>(ground: &Ground<R>, beside: &Beside<R>, place: usize) -> bool
    requires may { MayPass (terms R.Value.cmp R.Lapses.own R.Staged.own R.Forgets.own R.Resource.own ground.now) }
    requires beside { AreBeside ground.now beside.now }
    requires place { place < length ground.now.net.now.arrivals }
    ensures { result ≡ true → (rank : ℕ) → ArrivesAt ground.now.net.now place rank
        → IsAlikeThere (terms R.Value.cmp R.Lapses.own R.Staged.own R.Forgets.own R.Resource.own ground.now) (passed_terms R.Value.cmp R.Lapses.own R.Staged.own R.Forgets.own R.Resource.own beside.now.earlier.now) (get_or ground.now.positions.now rank 0) }
{
    for rank in ground.net.arriving(place) {
        if !boards_alike(ground, beside, *rank) {
            return false;
        }
    }
    true
}

/// The earlier pool of the arrival at a place, where the same duties arrive there, and board from pools
/// that are known to be alike.
pub(crate) fn arrival_there<'b, 'p, R: Pooled>(
    ground: &Ground<R>,
    beside: &'b Beside<'p, R>,
    place: usize,
) -> Option<&'b Arc<Pool<R>, Global>>
    requires may { MayPass (terms R.Value.cmp R.Lapses.own R.Staged.own R.Forgets.own R.Resource.own ground.now) }
    requires beside { AreBeside ground.now beside.now }
    requires place { place < length ground.now.net.now.arrivals }
    ensures pool { IfSome result (λ pool. arc_value pool.now
        ≡ get_or (labelling_of (terms R.Value.cmp R.Lapses.own R.Staged.own R.Forgets.own R.Resource.own ground.now)).arrivals place []) }
    ensures same { IfSome result (λ _. IsSameThere (terms R.Value.cmp R.Lapses.own R.Staged.own R.Forgets.own R.Resource.own ground.now) (passed_terms R.Value.cmp R.Lapses.own R.Staged.own R.Forgets.own R.Resource.own beside.now.earlier.now) place) }
{
    let other = twin_at(&beside.twins.arrivals, place)?;
    if !beside.twins.fed[place] || !board_alike(ground, beside, place) {
        return None;
    }
    beside.earlier.arrivals().get(other)
}

/// What a rest after the arrival at a place went by in the earlier pass, where the arrival's pool is known
/// to be the earlier one.
pub(crate) fn rest_there<'b, 'p, R: Pooled>(
    ground: &Ground<R>,
    beside: &'b Beside<'p, R>,
    place: usize,
) -> Option<&'b Arc<Pool<R>, Global>>
    requires may { MayPass (terms R.Value.cmp R.Lapses.own R.Staged.own R.Forgets.own R.Resource.own ground.now) }
    requires beside { AreBeside ground.now beside.now }
    requires place { place < length ground.now.net.now.arrivals }
    ensures { IfSome result (λ pool. arc_value pool.now
        ≡ get_or (labelling_of (terms R.Value.cmp R.Lapses.own R.Staged.own R.Forgets.own R.Resource.own ground.now)).rested place []) }
{
    let other = twin_at(&beside.twins.arrivals, place)?;
    if !beside.is_same(ground, place) {
        return None;
    }
    beside.earlier.rested().get(other)
}

/// The earlier front of the duty of a rank, where it boards from a pool that is known to be alike.
pub(crate) fn front_there<'b, 'p, R: Pooled>(
    ground: &Ground<R>,
    beside: &'b Beside<'p, R>,
    rank: u32,
) -> Option<&'b Arc<Pool<R>, Global>>
    requires may { MayPass (terms R.Value.cmp R.Lapses.own R.Staged.own R.Forgets.own R.Resource.own ground.now) }
    requires beside { AreBeside ground.now beside.now }
    requires rank { rank < length ground.now.net.now.duties }
    ensures { IfSome result (λ pool. arc_value pool.now
        ≡ get_or (labelling_of (terms R.Value.cmp R.Lapses.own R.Staged.own R.Forgets.own R.Resource.own ground.now)).fronts rank []) }
{
    let other = twin_at(&beside.twins.duties, rank as usize)?;
    if !boards_alike(ground, beside, rank) {
        return None;
    }
    Some(beside.earlier.fronts().front(other))
}
