//! The pool of a departure.
ghost use Rattle.std.specs.Prelude.{◌≡◌, ◌⊎◌, ◌<◌, ◌≤◌, true, false, ℕ, List, [], Some, IfOk, get_or, length, map, slice_get};
ghost use Rattle.std.specs.Ordering.{eq_by_cmp};
ghost use Rattle.crew_flights.specs.Codes.{code_cmp};
ghost use Rattle.crew_label.specs.Pools.{ArePoolOf, ArePoolsOf, AreRising};
ghost use Rattle.crew_label.specs.Walks.{shown};
ghost use Rattle.crew_label.specs.declared.label.Label.{Label};
ghost use Rattle.crew_labelling.specs.Candidates.{AreGathered, IsRested, Waits, idle_labels, waited_entries};
ghost use Rattle.crew_labelling.specs.Held.{AreReady, HaveArrived, trail_of};
ghost use Rattle.crew_labelling.specs.Labellings.{labelling_of};
ghost use Rattle.crew_net.specs.Events.{IsWindow};
ghost use Rattle.crew_net.specs.Positions.{in_order};
ghost use Rattle.crew_pairing.specs.Events.{MayFollow, may_wait};
ghost use Rattle.crew_pairing.specs.declared.events.Arrival.{Arrival};
ghost use Rattle.crew_pairing.specs.declared.events.Departure.{Departure};
ghost use Rattle.crew_resource.specs.Members.{Member};
ghost use Rattle.crew_pass.specs.Machinery.Cells.{AreCells};
ghost use Rattle.crew_pass.specs.Machinery.Passing.{AreCollected, IsClean, MayWaitAt};
ghost use Rattle.crew_pass.specs.Machinery.Seen.{AreSeen};
ghost use Rattle.crew_pass.specs.Machinery.Shelves.{AreKnown, IsThere};
ghost use Rattle.crew_pass.specs.Machinery.Terms.{MayPass, labels_table, leaving_of, terms};

use crate::cells::Cells;
use crate::ground::Ground;
use crate::pooled::Pooled;
use crate::seen::Seen;
use crate::sight::Sight;
use crate::standing::standing_pool;
use crew_label::{Label, Pool};
use crew_net::Window;
use crew_pairing::{Arrival, Departure, Duty};
use crew_resource::Resource;
use crew_room::Room;
use std::alloc::{AllocError, Global};

/// The empty label of a departure, where the base is.
pub(crate) fn idle_pool<R: Pooled>(
    alloc: Global,
    ground: &Ground<R>,
    departure: &Departure,
) -> Result<Pool<R>, AllocError>
    requires { R.can_idle ground.now.resource.now departure.now }
    ensures { IfOk result (λ pool. pool
        ≡ idle_labels (eq_by_cmp code_cmp departure.now.airport ground.now.base)
        (R.idle_of ground.now.resource.now departure.now)) }
{
    if departure.airport != ground.base {
        return Ok(Pool::new(alloc));
    }
    let value = ground.resource.idle(departure);
    let mut labels = Vec::new(alloc);
    labels.push(Label {
        value,
        before: None,
    })?;
    Ok(Pool::from_rising(labels))
}

/// The window of a departure, and where it is cut.
#[derive(Clone, Copy)]
pub(crate) struct CutWindow {
    pub(crate) window: Window,
    pub(crate) middle: usize,
}

// The labels of an arrival as they stand at a departure: as they have waited, or where the wait is a
// rest those that it goes by.
fn waited_at<R: Pooled>(
    alloc: Global,
    ground: &Ground<R>,
    departure: &Departure,
    arrival: &Arrival,
    held: &Pool<R>,
    rested: &Pool<R>,
) -> Result<Pool<R>, AllocError>
    requires may { MayPass (terms R.Value.cmp R.Lapses.own R.Staged.own R.Forgets.own R.Resource.own ground.now) }
    requires follows { MayFollow arrival.now departure.now }
    requires held { HaveArrived (terms R.Value.cmp R.Lapses.own R.Staged.own R.Forgets.own R.Resource.own ground.now) (labels_table (terms R.Value.cmp R.Lapses.own R.Staged.own R.Forgets.own R.Resource.own ground.now)) held.now }
    requires clean { IsClean (terms R.Value.cmp R.Lapses.own R.Staged.own R.Forgets.own R.Resource.own ground.now) (trail_of (labels_table (terms R.Value.cmp R.Lapses.own R.Staged.own R.Forgets.own R.Resource.own ground.now))) held.now }
    requires rested { IsRested (terms R.Value.cmp R.Lapses.own R.Staged.own R.Forgets.own R.Resource.own ground.now) (labels_table (terms R.Value.cmp R.Lapses.own R.Staged.own R.Forgets.own R.Resource.own ground.now)) held.now rested.now }
    ensures pool { IfOk result (λ waited. ArePoolOf R.below R.same_sums (trail_of (labels_table (terms R.Value.cmp R.Lapses.own R.Staged.own R.Forgets.own R.Resource.own ground.now)))
        (waited_entries (λ v. R.waited ground.now.resource.now v arrival.now departure.now)
        (map (shown (trail_of (labels_table (terms R.Value.cmp R.Lapses.own R.Staged.own R.Forgets.own R.Resource.own ground.now)))) held.now)) waited) }
    ensures held { IfOk result (AreReady (terms R.Value.cmp R.Lapses.own R.Staged.own R.Forgets.own R.Resource.own ground.now) (labels_table (terms R.Value.cmp R.Lapses.own R.Staged.own R.Forgets.own R.Resource.own ground.now))) }
    ensures from { IfOk result (λ waited. (l : Label R.Value) → Member waited l
        → (m : Label R.Value) × (Member held.now m ⊎ Member rested.now m)
        × (l.before ≡ m.before)) }
{
    let resource = ground.resource;
    if resource.is_rest(arrival, departure) {
        rested.waited::<Duty>(alloc, resource, arrival, departure)
    } else {
        held.waited::<Duty>(alloc, resource, arrival, departure)
    }
}

// The labels of the arrival at a place, which have been seen, as they stand at a departure.
fn waited_from<R: Pooled>(
    alloc: Global,
    ground: &Ground<R>,
    seen: &Seen<R>,
    departure: &Departure,
    place: usize,
) -> Result<Pool<R>, AllocError>
    requires may { MayPass (terms R.Value.cmp R.Lapses.own R.Staged.own R.Forgets.own R.Resource.own ground.now) }
    requires seen { AreSeen (terms R.Value.cmp R.Lapses.own R.Staged.own R.Forgets.own R.Resource.own ground.now) seen.now }
    requires place { place < length ground.now.net.now.arrivals }
    requires waits { (x : Arrival) → slice_get ground.now.net.now.arrivals place ≡ Some x
        → may_wait ground.now.net.now.settings x departure.now ≡ true }
    requires there { IsThere seen.now.arrivals place }
    requires rested { IsThere seen.now.rested place }
    ensures pool { IfOk result (λ waited. (x : Arrival)
        → slice_get ground.now.net.now.arrivals place ≡ Some x → ArePoolOf R.below R.same_sums
        (trail_of (labels_table (terms R.Value.cmp R.Lapses.own R.Staged.own R.Forgets.own R.Resource.own ground.now)))
        (waited_entries (λ v. R.waited ground.now.resource.now v x departure.now)
        (map (shown (trail_of (labels_table (terms R.Value.cmp R.Lapses.own R.Staged.own R.Forgets.own R.Resource.own ground.now)))) (get_or (labelling_of (terms R.Value.cmp R.Lapses.own R.Staged.own R.Forgets.own R.Resource.own ground.now)).arrivals place [])))
        waited) }
    ensures held { IfOk result (AreReady (terms R.Value.cmp R.Lapses.own R.Staged.own R.Forgets.own R.Resource.own ground.now) (labels_table (terms R.Value.cmp R.Lapses.own R.Staged.own R.Forgets.own R.Resource.own ground.now))) }
    ensures known { IfOk result (AreKnown (leaving_of ground.now) seen.now.departures) }
{
    let arrival = &ground.net.arrivals()[place];
    let held = seen.arrivals.at(place);
    let rested = seen.rested.at(place);
    waited_at(alloc, ground, departure, arrival, held, rested)
}

// The empty label of a departure, where the base is, and the labels of each arrival of its window as
// they stand there.
fn window_pools<R: Pooled>(
    alloc: Global,
    ground: &Ground<R>,
    seen: &Seen<R>,
    departure: &Departure,
    window: Window,
) -> Result<Vec<Pool<R>>, AllocError>
    requires may { MayPass (terms R.Value.cmp R.Lapses.own R.Staged.own R.Forgets.own R.Resource.own ground.now) }
    requires seen { AreSeen (terms R.Value.cmp R.Lapses.own R.Staged.own R.Forgets.own R.Resource.own ground.now) seen.now }
    requires window { IsWindow (λ x. may_wait ground.now.net.now.settings x departure.now)
        ground.now.net.now.arrivals window }
    requires can_idle { R.can_idle ground.now.resource.now departure.now }
    requires there { (place : ℕ) → window.from ≤ place → place < window.end
        → IsThere seen.now.arrivals place }
    requires rested { (place : ℕ) → window.from ≤ place → place < window.end
        → IsThere seen.now.rested place }
    ensures collected { IfOk result (λ pools. AreCollected (terms R.Value.cmp R.Lapses.own R.Staged.own R.Forgets.own R.Resource.own ground.now) (trail_of (labels_table (terms R.Value.cmp R.Lapses.own R.Staged.own R.Forgets.own R.Resource.own ground.now)))
        (Waits (terms R.Value.cmp R.Lapses.own R.Staged.own R.Forgets.own R.Resource.own ground.now) (trail_of (labels_table (terms R.Value.cmp R.Lapses.own R.Staged.own R.Forgets.own R.Resource.own ground.now))) (labelling_of (terms R.Value.cmp R.Lapses.own R.Staged.own R.Forgets.own R.Resource.own ground.now)).arrivals departure.now)
        pools.items) }
    ensures held { IfOk result (λ pools. (labels : List (Label R.Value))
        → Member pools.items labels → AreReady (terms R.Value.cmp R.Lapses.own R.Staged.own R.Forgets.own R.Resource.own ground.now) (labels_table (terms R.Value.cmp R.Lapses.own R.Staged.own R.Forgets.own R.Resource.own ground.now)) labels) }
    ensures known { IfOk result (λ pools. (labels : List (Label R.Value))
        → Member pools.items labels
        → AreKnown (leaving_of ground.now) seen.now.departures labels) }
{
    let mut pools = Vec::new(alloc);
    pools.push(idle_pool(alloc, ground, departure)?)?;
    for place in window.from..window.end {
        let waited = waited_from(alloc, ground, seen, departure, place)?;
        pools.push(waited)?;
    }
    Ok(pools)
}

// The pool of several pools of labels at one event.
fn joined<R: Pooled>(
    alloc: Global,
    ground: &Ground<R>,
    seen: &Seen<R>,
    pools: &[Pool<R>],
) -> Result<Pool<R>, AllocError>
    requires may { MayPass (terms R.Value.cmp R.Lapses.own R.Staged.own R.Forgets.own R.Resource.own ground.now) }
    requires seen { AreSeen (terms R.Value.cmp R.Lapses.own R.Staged.own R.Forgets.own R.Resource.own ground.now) seen.now }
    requires held { (labels : List (Label R.Value)) → Member pools.now labels
        → AreReady (terms R.Value.cmp R.Lapses.own R.Staged.own R.Forgets.own R.Resource.own ground.now) (labels_table (terms R.Value.cmp R.Lapses.own R.Staged.own R.Forgets.own R.Resource.own ground.now)) labels }
    requires known { (labels : List (Label R.Value)) → Member pools.now labels
        → AreKnown (leaving_of ground.now) seen.now.departures labels }
    ensures pool { IfOk result (λ whole. (candidates : List (R.Value × List ℕ))
        → ArePoolsOf R.below R.same_sums (trail_of (labels_table (terms R.Value.cmp R.Lapses.own R.Staged.own R.Forgets.own R.Resource.own ground.now))) candidates pools.now
        → ArePoolOf R.below R.same_sums (trail_of (labels_table (terms R.Value.cmp R.Lapses.own R.Staged.own R.Forgets.own R.Resource.own ground.now))) candidates whole) }
    ensures held { IfOk result (AreReady (terms R.Value.cmp R.Lapses.own R.Staged.own R.Forgets.own R.Resource.own ground.now) (labels_table (terms R.Value.cmp R.Lapses.own R.Staged.own R.Forgets.own R.Resource.own ground.now))) }
{
    let mut each = Vec::with_capacity(alloc, pools.len())?;
    for pool in pools {
        each.push(pool)?;
    }
    let sight = Sight::over(ground, seen);
    Pool::of_pools::<Duty, Sight<R>>(alloc, ground.resource, &sight, &each)
}

// The pool of a departure, of the labels of all arrivals in its window as they have waited.
fn waited_pool<R: Pooled>(
    alloc: Global,
    ground: &Ground<R>,
    seen: &Seen<R>,
    departure: &Departure,
    window: Window,
) -> Result<Pool<R>, AllocError>
    requires may { MayPass (terms R.Value.cmp R.Lapses.own R.Staged.own R.Forgets.own R.Resource.own ground.now) }
    requires seen { AreSeen (terms R.Value.cmp R.Lapses.own R.Staged.own R.Forgets.own R.Resource.own ground.now) seen.now }
    requires window { IsWindow (λ x. may_wait ground.now.net.now.settings x departure.now)
        ground.now.net.now.arrivals window }
    requires can_idle { R.can_idle ground.now.resource.now departure.now }
    requires there { (place : ℕ) → window.from ≤ place → place < window.end
        → IsThere seen.now.arrivals place }
    requires rested { (place : ℕ) → window.from ≤ place → place < window.end
        → IsThere seen.now.rested place }
    ensures pool { IfOk result (AreGathered (terms R.Value.cmp R.Lapses.own R.Staged.own R.Forgets.own R.Resource.own ground.now) (trail_of (labels_table (terms R.Value.cmp R.Lapses.own R.Staged.own R.Forgets.own R.Resource.own ground.now)))
        (Waits (terms R.Value.cmp R.Lapses.own R.Staged.own R.Forgets.own R.Resource.own ground.now) (trail_of (labels_table (terms R.Value.cmp R.Lapses.own R.Staged.own R.Forgets.own R.Resource.own ground.now))) (labelling_of (terms R.Value.cmp R.Lapses.own R.Staged.own R.Forgets.own R.Resource.own ground.now)).arrivals departure.now)) }
    ensures held { IfOk result (AreReady (terms R.Value.cmp R.Lapses.own R.Staged.own R.Forgets.own R.Resource.own ground.now) (labels_table (terms R.Value.cmp R.Lapses.own R.Staged.own R.Forgets.own R.Resource.own ground.now))) }
{
    let pools = window_pools(alloc, ground, seen, departure, window)?;
    joined(alloc, ground, seen, &pools)
}

// The same in either way.
fn event_pool<R: Pooled>(
    alloc: Global,
    ground: &Ground<R>,
    cells: &Cells<R>,
    seen: &Seen<R>,
    room: &mut Room<R>,
    departure: &Departure,
    cut: CutWindow,
) -> Result<Pool<R>, AllocError>
    requires may { MayPass (terms R.Value.cmp R.Lapses.own R.Staged.own R.Forgets.own R.Resource.own ground.now) }
    requires cells { AreCells ground.now cells.now }
    requires seen { AreSeen (terms R.Value.cmp R.Lapses.own R.Staged.own R.Forgets.own R.Resource.own ground.now) seen.now }
    requires window { IsWindow (λ x. may_wait ground.now.net.now.settings x departure.now)
        ground.now.net.now.arrivals cut.window }
    requires can_idle { R.can_idle ground.now.resource.now departure.now }
    requires there { (place : ℕ) → cut.window.from ≤ place → place < cut.window.end
        → IsThere seen.now.arrivals place }
    requires rested { R.plain ground.now.resource.now ≡ false → (place : ℕ)
        → cut.window.from ≤ place → place < cut.window.end → IsThere seen.now.rested place }
    ensures pool { IfOk result (AreGathered (terms R.Value.cmp R.Lapses.own R.Staged.own R.Forgets.own R.Resource.own ground.now) (trail_of (labels_table (terms R.Value.cmp R.Lapses.own R.Staged.own R.Forgets.own R.Resource.own ground.now)))
        (Waits (terms R.Value.cmp R.Lapses.own R.Staged.own R.Forgets.own R.Resource.own ground.now) (trail_of (labels_table (terms R.Value.cmp R.Lapses.own R.Staged.own R.Forgets.own R.Resource.own ground.now))) (labelling_of (terms R.Value.cmp R.Lapses.own R.Staged.own R.Forgets.own R.Resource.own ground.now)).arrivals departure.now)) }
    ensures held { IfOk result (AreReady (terms R.Value.cmp R.Lapses.own R.Staged.own R.Forgets.own R.Resource.own ground.now) (labels_table (terms R.Value.cmp R.Lapses.own R.Staged.own R.Forgets.own R.Resource.own ground.now))) }
{
    if ground.resource.is_plain() {
        return standing_pool(alloc, ground, cells, seen, room, departure, cut);
    }
    waited_pool(alloc, ground, seen, departure, cut.window)
}

/// The labels of a pool rise.
pub(crate) fn rises<R: Resource>(pool: &Pool<R>)
    ensures { AreRising R.Value.cmp pool.now }
{
    let _ = pool.as_slice();
}

/// The window of the departure at a position.
pub(crate) fn window_at<R: Pooled>(ground: &Ground<R>, position: usize) -> Window
    requires may { MayPass (terms R.Value.cmp R.Lapses.own R.Staged.own R.Forgets.own R.Resource.own ground.now) }
    requires position { position < length ground.now.net.now.by_report }
    ensures { (g : Departure) → slice_get (in_order ground.now.net.now) position ≡ Some g
        → IsWindow (λ x. may_wait ground.now.net.now.settings x g) ground.now.net.now.arrivals
        result }
{
    let place = ground.net.by_report()[position] as usize;
    ground.net.window(place)
}

/// The pool of the departure at a position, whose arrivals have been seen: of the empty label, where
/// the base is, and of the labels of all arrivals in its window, as they stand at the departure.
pub(crate) fn departure_pool<R: Pooled>(
    alloc: Global,
    ground: &Ground<R>,
    cells: &Cells<R>,
    seen: &Seen<R>,
    room: &mut Room<R>,
    position: usize,
) -> Result<Pool<R>, AllocError>
    requires may { MayPass (terms R.Value.cmp R.Lapses.own R.Staged.own R.Forgets.own R.Resource.own ground.now) }
    requires cells { AreCells ground.now cells.now }
    requires seen { AreSeen (terms R.Value.cmp R.Lapses.own R.Staged.own R.Forgets.own R.Resource.own ground.now) seen.now }
    requires position { position < length ground.now.net.now.by_report }
    requires there { (place : ℕ) → MayWaitAt ground.now.net.now position place
        → IsThere seen.now.arrivals place }
    requires rested { R.plain ground.now.resource.now ≡ false → (place : ℕ)
        → MayWaitAt ground.now.net.now position place → IsThere seen.now.rested place }
    ensures { IfOk result (λ pool. pool ≡ get_or (labelling_of (terms R.Value.cmp R.Lapses.own R.Staged.own R.Forgets.own R.Resource.own ground.now)).departures position []) }
{
    let place = ground.net.by_report()[position] as usize;
    let departure = &ground.net.departures()[place];
    let window = window_at(ground, position);
    let middle = ground.middles.get(place).copied().unwrap_or(window.end);
    let cut = CutWindow { window, middle };
    let pool = event_pool(alloc, ground, cells, seen, room, departure, cut)?;
    rises(&pool);
    Ok(pool)
}
