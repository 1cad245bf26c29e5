//! Room for the duties of each first flight, which the calling thread takes and any thread may fill.
//! What is let go of in another thread than it was taken in may stay with that one, for nobody's use:
//! so blocks, which outlive the call, are taken in the thread that lets go of them, too.
//!
//! One list whose blanks the calling thread writes takes nearly half of a listing by four threads;
//! lists of threads put one behind the other at the end write each duty twice.

ghost use Rattle.std.specs.Prelude.{◌≡◌, ◌≤◌, ◌+◌, All, IfOk, OnOk, length, map};
ghost use Rattle.std.specs.Arc.{arc_value};
ghost use Rattle.std.specs.List.{flat_map, range_with_len};
ghost use Rattle.crew_pairing.specs.Machinery.Listing.{from_place};
ghost use Rattle.crew_duty.specs.Machinery.Held.{held};
ghost use Rattle.crew_duty.specs.Machinery.Plans.{IsPlan};
ghost use Rattle.crew_duty.specs.Machinery.Rooms.{IsRoom};

use crate::plan::Plan;
use crate::search::walk_from;
use crew_flights::Flight;
use crew_pairing::{Duties, Duty, Key, Leg};
use std::alloc::{AllocError, Global};
use std::sync::Arc;

/// Room for so many duties, those that begin with the flight at a place. They stand in it once it is
/// filled.
#[derive(Drop)]
pub(crate) struct Room {
    pub(crate) place: usize,
    pub(crate) count: usize,
    pub(crate) duties: Vec<Duty>,
}

impl Room {
    /// Room for so many duties of the flight at a place.
    pub(crate) fn new(alloc: Global, place: usize, count: usize) -> Result<Room, AllocError>
        ensures place { IfOk result (λ room. room.place ≡ place) }
        ensures count { IfOk result (λ room. room.count ≡ count) }
    {
        let duties = Vec::with_capacity(alloc, count)?;
        Ok(Room {
            place,
            count,
            duties,
        })
    }

    /// Finds the duties, in place of those that stand here.
    pub(crate) fn fill(&mut self, alloc: Global, plan: &Plan<'_>) -> Result<(), AllocError>
        requires plan { IsPlan plan.now.settings.now (held plan.now) plan.now.slots.now
            plan.now.next.now }
        requires room { IsRoom plan.now.settings.now (held plan.now) self.old }
        ensures { OnOk result (self.new.duties.items
            ≡ from_place plan.now.settings.now (held plan.now) self.old.place) }
    {
        self.duties.clear();
        put_blanks(&mut self.duties, &plan.flights[self.place], self.count)?;
        walk_from(alloc, &mut self.duties, plan, self.place, 0)?;
        Ok(())
    }

    /// The duties that stand here, as a block.
    pub(crate) fn into_block(self, alloc: Global) -> Result<Arc<Vec<Duty>, Global>, AllocError>
        ensures { IfOk result (λ block. (arc_value block).items ≡ self.duties.items) }
    {
        Ok(Arc::new(alloc, self.duties)?)
    }
}

// Adds so many duties, which others will replace.
fn put_blanks(list: &mut Vec<Duty>, flight: &Flight, many: usize) -> Result<(), AllocError>
    ensures { OnOk result (length list.new.items ≡ length list.old.items + many) }
{
    let blank = Duty {
        key: Key::of(Leg::new(flight.id, false)),
        from: flight.from,
        to: flight.to,
        report: 0,
        release: 0,
        fdp: 0,
        fly: 0,
        pay: 0,
        price: 0,
    };
    for _ in 0..many {
        list.push(blank.copy())?;
    }
    Ok(())
}

/// Room for the duties of each first flight, of which there are so many.
pub(crate) fn rooms_for(alloc: Global, counts: &[usize]) -> Result<Vec<Room>, AllocError>
    ensures places { IfOk result (λ rooms. map (λ room. room.place) rooms.items
        ≡ range_with_len 0 (length counts.now)) }
    ensures counts { IfOk result (λ rooms. map (λ room. room.count) rooms.items ≡ counts.now) }
{
    let mut rooms = Vec::with_capacity(alloc, counts.len())?;
    for place in 0..counts.len() {
        rooms.push(Room::new(alloc, place, counts[place])?)?;
    }
    Ok(rooms)
}

/// Fills some rooms, in turn.
pub(crate) fn fill_each(
    alloc: Global,
    plan: &Plan<'_>,
    rooms: &mut [Room],
) -> Result<(), AllocError>
    requires plan { IsPlan plan.now.settings.now (held plan.now) plan.now.slots.now
        plan.now.next.now }
    requires rooms { All (IsRoom plan.now.settings.now (held plan.now)) rooms.old }
    ensures { OnOk result (map (λ room. room.duties.items) rooms.new ≡ map
        (λ room. from_place plan.now.settings.now (held plan.now) room.place) rooms.old) }
{
    for room in rooms.iter_mut() {
        room.fill(alloc, plan)?;
    }
    Ok(())
}

/// How many of these rooms, from the first on, are for so many duties or more. It decides only which
/// thread fills what, so what it promises is to stay within them.
pub(crate) fn cut_at(rooms: &[Room], share: usize) -> usize
    ensures { result ≤ length rooms.now }
{
    let mut before: usize = 0;
    for place in 0..rooms.len() {
        if before >= share {
            return place;
        }
        before = before.saturating_add(rooms[place].count);
    }
    rooms.len()
}

/// The duties that stand in some rooms, one room's after another's: a block for each.
pub(crate) fn join_rooms(
    alloc: Global,
    total: usize,
    rooms: Vec<Room>,
) -> Result<Duties, AllocError>
    requires few { length (flat_map (λ room. room.duties.items) rooms.items) ≤ 4_294_967_295 }
    ensures { IfOk result (λ list. list ≡ flat_map (λ room. room.duties.items) rooms.items) }
{
    let mut list = Duties::new(alloc);
    list.reserve(rooms.len(), total)?;
    for room in rooms {
        list.push(room.into_block(alloc)?)?;
    }
    Ok(list)
}
