//! All duties of a timetable, counted and then listed by as many threads as there are processors, each
//! of which takes first flights that stand beside one another.
//!
//! Below 32 first flights to count, or 8,192 duties to list, a thread costs more than it gives.

ghost use Rattle.std.specs.Prelude.{◌≡◌, ◌+◌, ◌≤◌, ◌<◌, All, IfOk, OnOk, length, map, min, sum};
ghost use Rattle.std.specs.Thread.{IsSync};
ghost use Rattle.std.specs.Arc.{arc_value};
ghost use Rattle.crew_duty.specs.Machinery.Counts.{AreCounts, AreExact};
ghost use Rattle.crew_pairing.specs.Machinery.Listing.{all_duties, from_place};
ghost use Rattle.crew_duty.specs.Machinery.Held.{held};
ghost use Rattle.crew_duty.specs.Machinery.Plans.{IsPlan};
ghost use Rattle.crew_duty.specs.Machinery.Rooms.{IsRoom};

use crate::plan::Plan;
use crate::rooms::{Room, cut_at, fill_each, join_rooms, rooms_for};
use crate::search::walk_from;
use crew_pairing::{Duties, Duty};
use rayon::current_num_threads;
use std::alloc::{AllocError, Global};
use std::sync::Arc;
use std::thread::{Threads, join_mut};

// The fewest first flights that a thread of their own is started for.
const FLIGHTS: usize = 32;

// The fewest duties that a thread of their own is started for.
const LISTED: usize = 8_192;

// How many pieces some work is cut into: one for each processor, and none of less than `least`.
fn pieces_of<R: Threads>(rt: &R, work: usize, least: usize) -> usize
    requires { 0 < least }
{
    let most = work / least;
    let threads = current_num_threads(rt);
    if most < threads { most } else { threads }
}

// Counts the duties of each first flight from a place on, in turn, and ends the count at one more
// than may be listed.
fn count_piece(
    alloc: Global,
    plan: &Plan<'_>,
    from: usize,
    counts: &mut [usize],
) -> Result<(), AllocError>
    requires plan { IsPlan plan.now.settings.now (held plan.now) plan.now.slots.now
        plan.now.next.now }
    requires within { from + length counts.old ≤ length plan.now.flights.now }
    ensures { OnOk result (AreCounts (from_place plan.now.settings.now (held plan.now)) from
        (length counts.old) counts.new) }
{
    let mut total = 0;
    for place in 0..counts.len() {
        let longer = walk_from(alloc, &mut [], plan, from + place, total)?;
        counts[place] = longer - total;
        total = longer;
    }
    Ok(())
}

// The same, by as many threads as there are pieces. This thread starts each of the others itself, in a
// row: threads that were started by one that had itself just been started often stay on one processor
// for a while.
fn count_in<R: Threads + Sync>(
    rt: &R,
    alloc: Global,
    plan: &Plan<'_>,
    from: usize,
    pieces: usize,
    counts: &mut [usize],
) -> Result<(), AllocError>
    requires plan { IsPlan plan.now.settings.now (held plan.now) plan.now.slots.now
        plan.now.next.now }
    requires within { from + length counts.old ≤ length plan.now.flights.now }
    ensures { OnOk result (AreCounts (from_place plan.now.settings.now (held plan.now)) from
        (length counts.old) counts.new) }
{
    if pieces < 2 || counts.len() < 2 {
        return count_piece(alloc, plan, from, counts);
    }
    let middle = counts.len() / pieces;
    let others = pieces - 1;
    let (front, back) = counts.split_at_mut(middle);
    let (these, those) = join_mut(
        rt,
        &mut || -> Result<(), AllocError>
            requires { IsPlan plan.now.settings.now (held plan.now) plan.now.slots.now
                plan.now.next.now × (from + length front.now ≤ length plan.now.flights.now) }
            ensures { OnOk result (AreCounts
                (from_place plan.entry.now.settings.now (held plan.entry.now)) from
                (length front.entry.now) front.exit.now) }
        { count_piece(alloc, plan, from, front) },
        &mut || -> Result<(), AllocError>
            requires { IsSync R.row × IsPlan plan.now.settings.now (held plan.now)
                plan.now.slots.now plan.now.next.now
                × (from + middle + length back.now ≤ length plan.now.flights.now) }
            ensures { OnOk result (AreCounts
                (from_place plan.entry.now.settings.now (held plan.entry.now))
                (from + middle) (length back.entry.now) back.exit.now) }
        { count_in(rt, alloc, plan, from + middle, others, back) },
    );
    these?;
    those?;
    Ok(())
}

/// How many duties begin with each flight; where these are more than may be listed in all, some may
/// be left out.
pub(crate) fn count_all<R: Threads + Sync>(
    rt: &R,
    alloc: Global,
    plan: &Plan<'_>,
) -> Result<Vec<usize>, AllocError>
    requires { IsPlan plan.now.settings.now (held plan.now) plan.now.slots.now
        plan.now.next.now }
    ensures { IfOk result (λ counts. AreCounts
        (from_place plan.now.settings.now (held plan.now)) 0 (length plan.now.flights.now)
        counts.items) }
{
    let mut counts = vec![in alloc; 0usize; plan.flights.len()]?;
    let pieces = pieces_of(rt, plan.flights.len(), FLIGHTS);
    count_in(rt, alloc, plan, 0, pieces, &mut counts)?;
    Ok(counts)
}

/// The sum of some counts.
pub(crate) fn total_of(counts: &[usize]) -> usize
    ensures { result ≡ min (sum counts.now) 18_446_744_073_709_551_615 }
{
    let mut total: usize = 0;
    for count in counts {
        total = total.saturating_add(*count);
    }
    total
}

/// The duties that begin with the flight at a place, of which there are so many, as a block.
pub(crate) fn block_at(
    alloc: Global,
    plan: &Plan<'_>,
    place: usize,
    count: usize,
) -> Result<Arc<Vec<Duty>, Global>, AllocError>
    requires plan { IsPlan plan.now.settings.now (held plan.now) plan.now.slots.now
        plan.now.next.now }
    requires place { place < length plan.now.flights.now }
    requires count { count
        ≡ length (from_place plan.now.settings.now (held plan.now) place) }
    requires room { count ≤ 200_000 }
    ensures { IfOk result (λ block. (arc_value block).items
        ≡ from_place plan.now.settings.now (held plan.now) place) }
{
    let mut room = Room::new(alloc, place, count)?;
    room.fill(alloc, plan)?;
    room.into_block(alloc)
}

// Fills some rooms, by as many threads as there are pieces: each but the last fills rooms for a share of
// the duties, or somewhat more. This thread starts each of the others itself, as where they are counted.
fn fill_in<R: Threads + Sync>(
    rt: &R,
    alloc: Global,
    plan: &Plan<'_>,
    pieces: usize,
    share: usize,
    rooms: &mut [Room],
) -> Result<(), AllocError>
    requires plan { IsPlan plan.now.settings.now (held plan.now) plan.now.slots.now
        plan.now.next.now }
    requires rooms { All (IsRoom plan.now.settings.now (held plan.now)) rooms.old }
    ensures { OnOk result (map (λ room. room.duties.items) rooms.new ≡ map
        (λ room. from_place plan.now.settings.now (held plan.now) room.place) rooms.old) }
{
    if pieces < 2 {
        return fill_each(alloc, plan, rooms);
    }
    let others = pieces - 1;
    let middle = cut_at(rooms, share);
    let (front, back) = rooms.split_at_mut(middle);
    let (these, those) = join_mut(
        rt,
        &mut || -> Result<(), AllocError>
            requires { IsPlan plan.now.settings.now (held plan.now) plan.now.slots.now
                plan.now.next.now
                × All (IsRoom plan.now.settings.now (held plan.now)) front.now }
            ensures { OnOk result (map (λ room. room.duties.items) front.exit.now ≡ map
                (λ room. from_place plan.entry.now.settings.now (held plan.entry.now)
                room.place) front.entry.now) }
        { fill_each(alloc, plan, front) },
        &mut || -> Result<(), AllocError>
            requires { IsSync R.row × IsPlan plan.now.settings.now (held plan.now)
                plan.now.slots.now plan.now.next.now
                × All (IsRoom plan.now.settings.now (held plan.now)) back.now }
            ensures { OnOk result (map (λ room. room.duties.items) back.exit.now ≡ map
                (λ room. from_place plan.entry.now.settings.now (held plan.entry.now)
                room.place) back.entry.now) }
        { fill_in(rt, alloc, plan, others, share, back) },
    );
    these?;
    those?;
    Ok(())
}

/// All duties, those of each first flight after those of the flights before it: a block for each.
pub(crate) fn list_all<R: Threads + Sync>(
    rt: &R,
    alloc: Global,
    plan: &Plan<'_>,
    counts: &[usize],
    total: usize,
) -> Result<Duties, AllocError>
    requires plan { IsPlan plan.now.settings.now (held plan.now) plan.now.slots.now
        plan.now.next.now }
    requires counts { AreCounts (from_place plan.now.settings.now (held plan.now)) 0
        (length plan.now.flights.now) counts.now }
    requires total { total ≡ sum counts.now }
    requires few { total ≤ 200_000 }
    ensures { IfOk result (λ found. found
        ≡ all_duties plan.now.settings.now (held plan.now)) }
{
    let pieces = pieces_of(rt, total, LISTED).max(1);
    let mut rooms = rooms_for(alloc, counts)?;
    fill_in(rt, alloc, plan, pieces, total / pieces, &mut rooms)?;
    join_rooms(alloc, total, rooms)
}
