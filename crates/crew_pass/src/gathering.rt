//! What a pass leaves, of what one thread has seen.
ghost use Rattle.std.specs.Prelude.{◌≡◌, ◌<◌, ℕ, IfOk, OnOk, length, map};
ghost use Rattle.std.specs.Arc.{arc_value};
ghost use Rattle.crew_labelling.specs.Labellings.{labelling_of};
ghost use Rattle.crew_pass.specs.Machinery.Cells.{AreCells};
ghost use Rattle.crew_pass.specs.Machinery.Seen.{AreSeen, StaySeen};
ghost use Rattle.crew_pass.specs.Machinery.Shelves.{IsThere};
ghost use Rattle.crew_pass.specs.Machinery.Terms.{ArePlacesOf, MayPass, labels_table, terms};

use crate::cells::Cells;
use crate::ground::Ground;
use crate::places::Places;
use crate::pooled::Pooled;
use crate::seeing::{see_departure, see_front};
use crate::seen::Seen;
use crew_label::{Pool, Table};
use crew_room::Room;
use std::alloc::{AllocError, Global};
use std::sync::Arc;

/// Sees all departures, in order of report.
pub(crate) fn see_departures<R: Pooled>(
    alloc: Global,
    ground: &Ground<R>,
    cells: &Cells<R>,
    seen: &mut Seen<R>,
    room: &mut Room<R>,
) -> Result<(), AllocError>
    requires may { MayPass (terms R.Value.cmp R.Lapses.own R.Staged.own R.Forgets.own R.Resource.own ground.now) }
    requires cells { AreCells ground.now cells.now }
    requires seen { AreSeen (terms R.Value.cmp R.Lapses.own R.Staged.own R.Forgets.own R.Resource.own ground.now) seen.old }
    ensures seen { OnOk result (AreSeen (terms R.Value.cmp R.Lapses.own R.Staged.own R.Forgets.own R.Resource.own ground.now) seen.new) }
    ensures there { OnOk result ((position : ℕ)
        → position < length ground.now.net.now.by_report
        → IsThere seen.new.departures position) }
{
    for position in 0..ground.net.by_report().len() {
        see_departure(alloc, ground, cells, seen, room, position)?;
    }
    Ok(())
}

/// Sees the fronts of all duties.
pub(crate) fn see_fronts<R: Pooled>(
    alloc: Global,
    ground: &Ground<R>,
    cells: &Cells<R>,
    seen: &mut Seen<R>,
    room: &mut Room<R>,
) -> Result<(), AllocError>
    requires may { MayPass (terms R.Value.cmp R.Lapses.own R.Staged.own R.Forgets.own R.Resource.own ground.now) }
    requires cells { AreCells ground.now cells.now }
    requires seen { AreSeen (terms R.Value.cmp R.Lapses.own R.Staged.own R.Forgets.own R.Resource.own ground.now) seen.old }
    ensures seen { OnOk result (AreSeen (terms R.Value.cmp R.Lapses.own R.Staged.own R.Forgets.own R.Resource.own ground.now) seen.new) }
    ensures stays { OnOk result (StaySeen seen.old seen.new) }
    ensures there { OnOk result ((rank : ℕ) → rank < length ground.now.net.now.duties
        → IsThere seen.new.fronts rank) }
{
    for rank in 0..ground.net.duty_count() {
        see_front(alloc, ground, cells, seen, room, rank as u32)?;
    }
    Ok(())
}

/// The table of the departures, all of which have been seen.
pub(crate) fn table_of<R: Pooled>(
    alloc: Global,
    ground: &Ground<R>,
    places: &Places,
    seen: &Seen<R>,
) -> Result<Table<R>, AllocError>
    requires may { MayPass (terms R.Value.cmp R.Lapses.own R.Staged.own R.Forgets.own R.Resource.own ground.now) }
    requires places { ArePlacesOf ground.now places.now }
    requires seen { AreSeen (terms R.Value.cmp R.Lapses.own R.Staged.own R.Forgets.own R.Resource.own ground.now) seen.now }
    requires there { (position : ℕ) → position < length ground.now.net.now.by_report
        → IsThere seen.now.departures position }
    ensures { IfOk result (λ table. table ≡ labels_table (terms R.Value.cmp R.Lapses.own R.Staged.own R.Forgets.own R.Resource.own ground.now)) }
{
    let ranks = Arc::try_clone(&places.ranks)?;
    let positions = Arc::try_clone(&places.positions)?;
    let mut table = Table::new(alloc, ranks, positions);
    for position in 0..ground.net.by_report().len() {
        let Some(pool) = seen.departures.get(position) else {
            unreachable!();
        };
        table.add(Arc::try_clone(pool)?)?;
    }
    Ok(table)
}

/// The fronts of the duties by rank, all of which have been seen.
pub(crate) fn fronts_of<R: Pooled>(
    alloc: Global,
    ground: &Ground<R>,
    seen: &Seen<R>,
) -> Result<Vec<Arc<Pool<R>, Global>>, AllocError>
    requires may { MayPass (terms R.Value.cmp R.Lapses.own R.Staged.own R.Forgets.own R.Resource.own ground.now) }
    requires seen { AreSeen (terms R.Value.cmp R.Lapses.own R.Staged.own R.Forgets.own R.Resource.own ground.now) seen.now }
    requires there { (rank : ℕ) → rank < length ground.now.net.now.duties
        → IsThere seen.now.fronts rank }
    ensures { IfOk result (λ fronts. map arc_value fronts.items ≡ (labelling_of (terms R.Value.cmp R.Lapses.own R.Staged.own R.Forgets.own R.Resource.own ground.now)).fronts) }
{
    let mut fronts = Vec::new(alloc);
    for rank in 0..ground.net.duty_count() {
        let Some(front) = seen.fronts.get(rank) else {
            unreachable!();
        };
        fronts.push(Arc::try_clone(front)?)?;
    }
    Ok(fronts)
}
