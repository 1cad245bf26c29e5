//! The pools of arrivals that stand side by side, from the middle of a window down to its first and up
//! to its last.
//!
//! Windows slide, so those of departures one after another have most of their arrivals in common.
//! Several are cut at one middle: each is a stretch down from there and one up, and each of these is made
//! once, of one that is shorter by an arrival. A cell of a stretch has the middle beside the pool, so who
//! finds one made from another middle makes its own.
ghost use Rattle.std.specs.Prelude.{◌≡◌, ◌⊎◌, ◌<◌, ◌≤◌, ◌++◌, true, ℕ, List, [], Some, IfOk, IfSome, get_or, length};
ghost use Rattle.std.specs.Arc.{arc_value};
ghost use Rattle.crew_label.specs.Pools.{ArePoolOf};
ghost use Rattle.crew_label.specs.declared.label.Label.{Label};
ghost use Rattle.crew_labelling.specs.Held.{trail_of};
ghost use Rattle.crew_labelling.specs.Labellings.{labelling_of};
ghost use Rattle.crew_resource.specs.Members.{Member};
ghost use Rattle.crew_pass.specs.Machinery.Cells.{AreCells};
ghost use Rattle.crew_pass.specs.Machinery.Seen.{AreSeen};
ghost use Rattle.crew_pass.specs.Machinery.Shelves.{IsThere};
ghost use Rattle.crew_pass.specs.Machinery.Stretches.{CountThere, IsStretch};
ghost use Rattle.crew_pass.specs.Machinery.Terms.{MayPass, labels_table, terms};

use crate::cells::Cells;
use crate::ground::Ground;
use crate::joining::join;
use crate::pooled::Pooled;
use crate::seen::Seen;
use crate::stretch::Stretch;
use crew_label::Pool;
use crew_room::Room;
use std::alloc::{AllocError, Global};
use std::sync::Arc;

// The pool of a pool of arrivals and of one arrival more, which has been seen.
fn one_more<R: Pooled>(
    alloc: Global,
    ground: &Ground<R>,
    seen: &Seen<R>,
    room: &mut Room<R>,
    shorter: &Pool<R>,
    place: usize,
) -> Result<Pool<R>, AllocError>
    requires may { MayPass (terms R.Value.cmp R.Lapses.own R.Staged.own R.Forgets.own R.Resource.own ground.now) }
    requires seen { AreSeen (terms R.Value.cmp R.Lapses.own R.Staged.own R.Forgets.own R.Resource.own ground.now) seen.now }
    requires place { place < length ground.now.net.now.arrivals }
    requires there { IsThere seen.now.arrivals place }
    requires counts { CountThere (terms R.Value.cmp R.Lapses.own R.Staged.own R.Forgets.own R.Resource.own ground.now) seen.now.departures shorter.now }
    ensures pool { IfOk result (λ whole. (firsts seconds : List (R.Value × List ℕ))
        → ArePoolOf R.below R.same_sums (trail_of (labels_table (terms R.Value.cmp R.Lapses.own R.Staged.own R.Forgets.own R.Resource.own ground.now))) firsts shorter.now
        → ArePoolOf R.below R.same_sums (trail_of (labels_table (terms R.Value.cmp R.Lapses.own R.Staged.own R.Forgets.own R.Resource.own ground.now))) seconds
        (get_or (labelling_of (terms R.Value.cmp R.Lapses.own R.Staged.own R.Forgets.own R.Resource.own ground.now)).arrivals place [])
        → ArePoolOf R.below R.same_sums (trail_of (labels_table (terms R.Value.cmp R.Lapses.own R.Staged.own R.Forgets.own R.Resource.own ground.now))) (firsts ++ seconds) whole) }
    ensures from { IfOk result (λ whole. (l : Label R.Value) → Member whole l
        → Member shorter.now l ⊎ Member (get_or (labelling_of (terms R.Value.cmp R.Lapses.own R.Staged.own R.Forgets.own R.Resource.own ground.now)).arrivals place []) l) }
{
    room.clear();
    join(ground, seen, room, shorter)?;
    join(ground, seen, room, seen.arrivals.at(place))?;
    room.sorted(alloc, ground.resource)
}

// The stretch of a cell, if it was made from a middle.
fn from_middle<R: Pooled>(
    stretch: Option<&Arc<Stretch<R>, Global>>,
    middle: usize,
) -> Option<&Arc<Stretch<R>, Global>>
    ensures { IfSome result (λ found. ((arc_value found.now).middle ≡ middle)
        × (stretch.entry ≡ Some found)) }
{
    let stretch = stretch?;
    if stretch.middle == middle {
        return Some(stretch);
    }
    None
}

/// The stretch from a place up to a middle, all of whose arrivals have been seen.
#[cycle(down)]
pub(crate) fn stretch_down<R: Pooled>(
    alloc: Global,
    ground: &Ground<R>,
    cells: &Cells<R>,
    seen: &Seen<R>,
    room: &mut Room<R>,
    from: usize,
    middle: usize,
) -> Result<Arc<Stretch<R>, Global>, AllocError>
    requires plain { R.plain ground.now.resource.now ≡ true }
    requires may { MayPass (terms R.Value.cmp R.Lapses.own R.Staged.own R.Forgets.own R.Resource.own ground.now) }
    requires cells { AreCells ground.now cells.now }
    requires seen { AreSeen (terms R.Value.cmp R.Lapses.own R.Staged.own R.Forgets.own R.Resource.own ground.now) seen.now }
    requires within { middle ≤ length ground.now.net.now.arrivals }
    requires there { (place : ℕ) → from ≤ place → place < middle → IsThere seen.now.arrivals place }
    ensures stretch { IfOk result (λ stretch. IsStretch (terms R.Value.cmp R.Lapses.own R.Staged.own R.Forgets.own R.Resource.own ground.now) from middle (arc_value stretch).pool) }
{
    if middle <= from {
        return Ok(Arc::new(alloc, Stretch::none(alloc, middle))?);
    }
    if let Some(stretch) = from_middle(cells.downs.get(from), middle) {
        return Ok(Arc::try_clone(stretch)?);
    }
    let shorter = stretch_down(alloc, ground, cells, seen, room, from + 1, middle)?;
    let pool = one_more(alloc, ground, seen, room, &shorter.pool, from)?;
    let stretch = Arc::new(alloc, Stretch { middle, pool })?;
    let _ = cells.downs.offer(from, Arc::try_clone(&stretch)?);
    Ok(stretch)
}

/// The stretch from a middle up to a place, which isn't one of them, all of whose arrivals have been seen.
#[cycle(up)]
pub(crate) fn stretch_up<R: Pooled>(
    alloc: Global,
    ground: &Ground<R>,
    cells: &Cells<R>,
    seen: &Seen<R>,
    room: &mut Room<R>,
    middle: usize,
    end: usize,
) -> Result<Arc<Stretch<R>, Global>, AllocError>
    requires plain { R.plain ground.now.resource.now ≡ true }
    requires may { MayPass (terms R.Value.cmp R.Lapses.own R.Staged.own R.Forgets.own R.Resource.own ground.now) }
    requires cells { AreCells ground.now cells.now }
    requires seen { AreSeen (terms R.Value.cmp R.Lapses.own R.Staged.own R.Forgets.own R.Resource.own ground.now) seen.now }
    requires within { end ≤ length ground.now.net.now.arrivals }
    requires there { (place : ℕ) → middle ≤ place → place < end → IsThere seen.now.arrivals place }
    ensures stretch { IfOk result (λ stretch. IsStretch (terms R.Value.cmp R.Lapses.own R.Staged.own R.Forgets.own R.Resource.own ground.now) middle end (arc_value stretch).pool) }
{
    if end <= middle {
        return Ok(Arc::new(alloc, Stretch::none(alloc, middle))?);
    }
    let last = end - 1;
    if let Some(stretch) = from_middle(cells.ups.get(last), middle) {
        return Ok(Arc::try_clone(stretch)?);
    }
    let shorter = stretch_up(alloc, ground, cells, seen, room, middle, last)?;
    let pool = one_more(alloc, ground, seen, room, &shorter.pool, last)?;
    let stretch = Arc::new(alloc, Stretch { middle, pool })?;
    let _ = cells.ups.offer(last, Arc::try_clone(&stretch)?);
    Ok(stretch)
}
