//! The threads of a pass.
//!
//! Each has a room of its own. It takes the next position that nobody has taken yet, and sees the departure there; and when all
//! are taken, the next duty, and sees its front, since some end where nobody waits. Another thread
//! may be making what it needs just then: it makes that too, and who is quicker fills the cell.
ghost use Rattle.std.specs.Prelude.{◌≡◌, OnOk, length};
ghost use Rattle.crew_pass.specs.Machinery.Cells.{AreCells};
ghost use Rattle.crew_pass.specs.Machinery.Seen.{AreSeen};
ghost use Rattle.crew_pass.specs.Machinery.Terms.{MayPass, terms};

use crate::cells::Cells;
use crate::ground::Ground;
use crate::pooled::Pooled;
use crate::seeing::{see_departure, see_front};
use crate::seen::Seen;
use crew_claims::{Claims, map_jobs};
use crew_room::Room;
use std::alloc::{AllocError, Global};
use std::thread::Threads;

// Sees the departures whose positions it takes.
fn see_taken_departures<R: Pooled>(
    alloc: Global,
    ground: &Ground<R>,
    cells: &Cells<R>,
    seen: &mut Seen<R>,
    room: &mut Room<R>,
    positions: &Claims,
) -> Result<(), AllocError>
    requires may { MayPass (terms R.Value.cmp R.Lapses.own R.Staged.own R.Forgets.own R.Resource.own ground.now) }
    requires cells { AreCells ground.now cells.now }
    requires positions { positions.now ≡ length ground.now.net.now.by_report }
    requires seen { AreSeen (terms R.Value.cmp R.Lapses.own R.Staged.own R.Forgets.own R.Resource.own ground.now) seen.old }
    ensures seen { OnOk result (AreSeen (terms R.Value.cmp R.Lapses.own R.Staged.own R.Forgets.own R.Resource.own ground.now) seen.new) }
{
    for _ in 0..positions.count() {
        let Some(position) = positions.next() else {
            break;
        };
        see_departure(alloc, ground, cells, seen, room, position)?;
    }
    Ok(())
}

// Sees the fronts of the duties whose ranks it takes.
fn see_taken_fronts<R: Pooled>(
    alloc: Global,
    ground: &Ground<R>,
    cells: &Cells<R>,
    seen: &mut Seen<R>,
    room: &mut Room<R>,
    ranks: &Claims,
) -> Result<(), AllocError>
    requires may { MayPass (terms R.Value.cmp R.Lapses.own R.Staged.own R.Forgets.own R.Resource.own ground.now) }
    requires cells { AreCells ground.now cells.now }
    requires ranks { ranks.now ≡ length ground.now.net.now.duties }
    requires seen { AreSeen (terms R.Value.cmp R.Lapses.own R.Staged.own R.Forgets.own R.Resource.own ground.now) seen.old }
    ensures seen { OnOk result (AreSeen (terms R.Value.cmp R.Lapses.own R.Staged.own R.Forgets.own R.Resource.own ground.now) seen.new) }
{
    for _ in 0..ranks.count() {
        let Some(rank) = ranks.next() else {
            break;
        };
        see_front(alloc, ground, cells, seen, room, rank as u32)?;
    }
    Ok(())
}

// What one thread does.
fn work<R: Pooled>(
    alloc: Global,
    ground: &Ground<R>,
    cells: &Cells<R>,
    positions: &Claims,
    ranks: &Claims,
) -> Result<(), AllocError>
    requires may { MayPass (terms R.Value.cmp R.Lapses.own R.Staged.own R.Forgets.own R.Resource.own ground.now) }
    requires cells { AreCells ground.now cells.now }
    requires positions { positions.now ≡ length ground.now.net.now.by_report }
    requires ranks { ranks.now ≡ length ground.now.net.now.duties }
{
    let mut seen = Seen::new(alloc, ground)?;
    let mut room = Room::new(alloc);
    see_taken_departures(alloc, ground, cells, &mut seen, &mut room, positions)?;
    see_taken_fronts(alloc, ground, cells, &mut seen, &mut room, ranks)
}

/// Fills the cells of a pass by so many threads, this one among them.
///
/// No contract says that any cell is filled: who reads an empty one makes what is wanting.
pub(crate) fn fill_by_threads<T: Threads + Sync, R: Pooled + Send + Sync>(
    rt: &T,
    alloc: Global,
    threads: usize,
    ground: &Ground<R>,
    cells: &Cells<R>,
) -> Result<(), AllocError>
where
    R::Value: Send + Sync,
    requires may { MayPass (terms R.Value.cmp R.Lapses.own R.Staged.own R.Forgets.own R.Resource.own ground.now) }
    requires cells { AreCells ground.now cells.now }
{
    let positions = Claims::new(ground.net.by_report().len());
    let ranks = Claims::new(ground.net.duty_count());
    let idle = vec![in alloc; (); threads.min(positions.count())]?;
    let one = |_: ()| -> Result<(), AllocError>
        requires { MayPass (terms R.Value.cmp R.Lapses.own R.Staged.own R.Forgets.own R.Resource.own ground.now) × AreCells ground.now cells.now
            × (positions ≡ length ground.now.net.now.by_report)
            × (ranks ≡ length ground.now.net.now.duties) }
    { work(alloc, ground, cells, &positions, &ranks) };
    for done in map_jobs(rt, alloc, idle, &one)? {
        done?;
    }
    Ok(())
}
