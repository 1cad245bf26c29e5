//! The pool of a departure where labels stand as they arrived.
ghost use Rattle.std.specs.Prelude.{◌≡◌, ◌⊎◌, ◌<◌, ◌≤◌, ◌++◌, true, ℕ, List, IfOk, length};
ghost use Rattle.crew_label.specs.Pools.{ArePoolOf};
ghost use Rattle.crew_label.specs.declared.label.Label.{Label};
ghost use Rattle.crew_labelling.specs.Candidates.{AreGathered, Waits};
ghost use Rattle.crew_labelling.specs.Held.{AreReady, trail_of};
ghost use Rattle.crew_labelling.specs.Labellings.{labelling_of};
ghost use Rattle.crew_net.specs.Events.{IsWindow};
ghost use Rattle.crew_pairing.specs.Events.{may_wait};
ghost use Rattle.crew_resource.specs.Members.{Member};
ghost use Rattle.crew_pass.specs.Machinery.Cells.{AreCells};
ghost use Rattle.crew_pass.specs.Machinery.Seen.{AreSeen};
ghost use Rattle.crew_pass.specs.Machinery.Shelves.{IsThere};
ghost use Rattle.crew_pass.specs.Machinery.Stretches.{CountThere};
ghost use Rattle.crew_pass.specs.Machinery.Terms.{MayPass, labels_table, terms};

use crate::cells::Cells;
use crate::ground::Ground;
use crate::joining::join;
use crate::pooled::Pooled;
use crate::seen::Seen;
use crate::stretching::{stretch_down, stretch_up};
use crate::waits::{CutWindow, idle_pool};
use crew_label::Pool;
use crew_net::Window;
use crew_pairing::Departure;
use crew_room::Room;
use std::alloc::{AllocError, Global};

// The pool of three pools of labels that are ready at one event.
fn three<R: Pooled>(
    alloc: Global,
    ground: &Ground<R>,
    seen: &Seen<R>,
    room: &mut Room<R>,
    down: &Pool<R>,
    up: &Pool<R>,
    idle: &Pool<R>,
) -> Result<Pool<R>, AllocError>
    requires may { MayPass (terms R.Value.cmp R.Lapses.own R.Staged.own R.Forgets.own R.Resource.own ground.now) }
    requires seen { AreSeen (terms R.Value.cmp R.Lapses.own R.Staged.own R.Forgets.own R.Resource.own ground.now) seen.now }
    requires first { CountThere (terms R.Value.cmp R.Lapses.own R.Staged.own R.Forgets.own R.Resource.own ground.now) seen.now.departures down.now }
    requires second { CountThere (terms R.Value.cmp R.Lapses.own R.Staged.own R.Forgets.own R.Resource.own ground.now) seen.now.departures up.now }
    requires third { CountThere (terms R.Value.cmp R.Lapses.own R.Staged.own R.Forgets.own R.Resource.own ground.now) seen.now.departures idle.now }
    ensures pool { IfOk result (λ whole. (firsts seconds thirds : List (R.Value × List ℕ))
        → ArePoolOf R.below R.same_sums (trail_of (labels_table (terms R.Value.cmp R.Lapses.own R.Staged.own R.Forgets.own R.Resource.own ground.now))) firsts down.now
        → ArePoolOf R.below R.same_sums (trail_of (labels_table (terms R.Value.cmp R.Lapses.own R.Staged.own R.Forgets.own R.Resource.own ground.now))) seconds up.now
        → ArePoolOf R.below R.same_sums (trail_of (labels_table (terms R.Value.cmp R.Lapses.own R.Staged.own R.Forgets.own R.Resource.own ground.now))) thirds idle.now
        → ArePoolOf R.below R.same_sums (trail_of (labels_table (terms R.Value.cmp R.Lapses.own R.Staged.own R.Forgets.own R.Resource.own ground.now)))
        ((firsts ++ seconds) ++ thirds) whole) }
    ensures from { IfOk result (λ whole. (l : Label R.Value) → Member whole l
        → Member down.now l ⊎ Member up.now l ⊎ Member idle.now l) }
{
    room.clear();
    join(ground, seen, room, down)?;
    join(ground, seen, room, up)?;
    join(ground, seen, room, idle)?;
    room.sorted(alloc, ground.resource)
}

// Where a window is cut, which is within it.
fn within(cut: CutWindow) -> usize
    requires { cut.window.from ≤ cut.window.end }
    ensures first { cut.window.from ≤ result }
    ensures last { result ≤ cut.window.end }
{
    cut.middle.clamp(cut.window.from, cut.window.end)
}

/// The pool of a departure of a plain resource, put together in a room: of the empty label, where the
/// base is, and of the labels of all arrivals in its window, as they arrived. The window is the stretch
/// down from its middle and the one up from there.
pub(crate) fn standing_pool<R: Pooled>(
    alloc: Global,
    ground: &Ground<R>,
    cells: &Cells<R>,
    seen: &Seen<R>,
    room: &mut Room<R>,
    departure: &Departure,
    cut: CutWindow,
) -> Result<Pool<R>, AllocError>
    requires plain { R.plain ground.now.resource.now ≡ true }
    requires may { MayPass (terms R.Value.cmp R.Lapses.own R.Staged.own R.Forgets.own R.Resource.own ground.now) }
    requires cells { AreCells ground.now cells.now }
    requires seen { AreSeen (terms R.Value.cmp R.Lapses.own R.Staged.own R.Forgets.own R.Resource.own ground.now) seen.now }
    requires window { IsWindow (λ x. may_wait ground.now.net.now.settings x departure.now)
        ground.now.net.now.arrivals cut.window }
    requires can_idle { R.can_idle ground.now.resource.now departure.now }
    requires there { (place : ℕ) → cut.window.from ≤ place → place < cut.window.end
        → IsThere seen.now.arrivals place }
    ensures pool { IfOk result (AreGathered (terms R.Value.cmp R.Lapses.own R.Staged.own R.Forgets.own R.Resource.own ground.now) (trail_of (labels_table (terms R.Value.cmp R.Lapses.own R.Staged.own R.Forgets.own R.Resource.own ground.now)))
        (Waits (terms R.Value.cmp R.Lapses.own R.Staged.own R.Forgets.own R.Resource.own ground.now) (trail_of (labels_table (terms R.Value.cmp R.Lapses.own R.Staged.own R.Forgets.own R.Resource.own ground.now))) (labelling_of (terms R.Value.cmp R.Lapses.own R.Staged.own R.Forgets.own R.Resource.own ground.now)).arrivals departure.now)) }
    ensures held { IfOk result (AreReady (terms R.Value.cmp R.Lapses.own R.Staged.own R.Forgets.own R.Resource.own ground.now) (labels_table (terms R.Value.cmp R.Lapses.own R.Staged.own R.Forgets.own R.Resource.own ground.now))) }
{
    let Window { from, end } = cut.window;
    let middle = within(cut);
    let down = stretch_down(alloc, ground, cells, seen, room, from, middle)?;
    let up = stretch_up(alloc, ground, cells, seen, room, middle, end)?;
    let idle = idle_pool(alloc, ground, departure)?;
    three(alloc, ground, seen, room, &down.pool, &up.pool, &idle)
}
