//! All duties of a timetable beside those of an earlier one, by one thread.

ghost use Rattle.std.specs.Prelude.{◌≡◌, ◌+◌, ◌++◌, ◌≤◌, ◌<◌, List, IfOk, IfSome, OnOk, length, min, sum};
ghost use Rattle.std.specs.List.{flat_map, range_with_len};
ghost use Rattle.crew_pairing.specs.Flights.{Flights};
ghost use Rattle.crew_rules.specs.declared.settings.Settings.{Settings};
ghost use Rattle.crew_duty.specs.Machinery.Counts.{AreCounts, AreExact};
ghost use Rattle.std.specs.Arc.{arc_value};
ghost use Rattle.crew_pairing.specs.Machinery.Blocks.{part_of};
ghost use Rattle.crew_pairing.specs.Machinery.Listing.{from_place};
ghost use Rattle.crew_rules.specs.Settings.{IsChecked};
ghost use Rattle.crew_duty.specs.Machinery.Kept.{AreKept, ClimbInTime};
ghost use Rattle.crew_duty.specs.Machinery.Held.{held, over};
ghost use Rattle.crew_duty.specs.Machinery.Plans.{AreNext, IsNext, IsPlan};
ghost use Rattle.crew_duty.specs.Machinery.Slots.{IsIndex};

use crate::changes::are_apart;
use crate::departures::Slot;
use crate::past::Block;
use crate::pieces::block_at;
use crate::plan::{Next, Plan, next_of};
use crate::search::{DUTIES, walk_from};
use crate::turns::HeldTurns;
use crew_flights::Flight;
use crew_pairing::{Duties, Duty};
use crew_rules::Settings;
use std::alloc::{AllocError, Global};
use std::sync::Arc;

// Legs of one duty depart within so many minutes.
const SPAN: i64 = 840;

/// Earlier duties, and of each flight where its duties stand among them, where they do.
#[derive(Drop)]
pub(crate) struct EarlierDuties<'a> {
    pub(crate) duties: &'a Duties,
    pub(crate) stands: &'a [Option<Block>],
}

impl<'a> EarlierDuties<'a> {
    // The duties that begin with the flight at a place, where they stand among these.
    fn at(&self, place: usize) -> Option<Block>
        requires { (s : Settings) × (flights : Flights) × AreKept s flights
            self.now.duties.now flights.list self.now.stands.now × (place < length flights.list) }
        ensures { IfSome result (λ block. (s : Settings) (flights : Flights) → AreKept s flights
            self.now.duties.now flights.list self.now.stands.now → place < length flights.list
            → (block.from ≤ block.to) × (block.to ≤ length self.now.duties.now)
            × (part_of self.now.duties.now block.from block.to ≡ from_place s flights place)) }
    {
        match self.stands.get(place) {
            Some(Some(block)) => Some(*block),
            _ => None,
        }
    }
}

// What may follow a flight, where it may be a leg of a duty that is listed anew, and else nothing
// that is known of it.
fn next_beside(
    alloc: Global,
    settings: &Settings,
    flights: &[Flight],
    turns: &HeldTurns,
    slots: &[Slot],
    minutes: &[i64],
    before: &Flight,
) -> Result<Next, AllocError>
    requires checked { IsChecked settings.now }
    requires index { IsIndex flights.now slots.now }
    requires minutes { ClimbInTime minutes.now }
    ensures { IfOk result (IsNext settings.now (over flights.now turns.now) before.now) }
{
    let departs = before.dep.get();
    let apart = are_apart(minutes, departs - SPAN, departs + SPAN);
    if apart {
        return Ok(Next {
            places: None,
            soonest: 0,
        });
    }
    next_of(alloc, settings, flights, turns, slots, before)
}

/// What may follow each flight that may be a leg of a duty that is listed anew. Such a flight
/// departs within a duty's length of one of some minutes.
pub(crate) fn all_next_beside(
    alloc: Global,
    settings: &Settings,
    flights: &[Flight],
    turns: &HeldTurns,
    slots: &[Slot],
    minutes: &[i64],
) -> Result<Vec<Next>, AllocError>
    requires checked { IsChecked settings.now }
    requires index { IsIndex flights.now slots.now }
    requires minutes { ClimbInTime minutes.now }
    ensures { IfOk result (λ next. AreNext settings.now (over flights.now turns.now) flights.now
        next.items) }
{
    let mut next = Vec::with_capacity(alloc, flights.len())?;
    for flight in flights {
        next.push(next_beside(alloc, settings, flights, turns, slots, minutes, flight)?)?;
    }
    Ok(next)
}

// The duties that begin with the flight at a place, counted to one more than may be listed, behind
// `so_far` others.
fn count_from(
    alloc: Global,
    plan: &Plan<'_>,
    kept: &EarlierDuties<'_>,
    place: usize,
    so_far: usize,
) -> Result<usize, AllocError>
    requires plan { IsPlan plan.now.settings.now (held plan.now) plan.now.slots.now
        plan.now.next.now }
    requires kept { AreKept plan.now.settings.now (held plan.now) kept.now.duties.now
        plan.now.flights.now kept.now.stands.now }
    requires place { place < length plan.now.flights.now }
    requires so_far { so_far ≤ 200_001 }
    ensures { IfOk result (λ n. n ≡ min (so_far
        + length (from_place plan.now.settings.now (held plan.now) place)) 200_001) }
{
    if let Some(block) = kept.at(place) {
        return Ok(so_far.saturating_add(block.to - block.from).min(DUTIES + 1));
    }
    walk_from(alloc, &mut [], plan, place, so_far)
}

/// How many duties begin with each flight, to one more than may be listed in all.
pub(crate) fn count_beside(
    alloc: Global,
    plan: &Plan<'_>,
    kept: &EarlierDuties<'_>,
) -> Result<Vec<usize>, AllocError>
    requires plan { IsPlan plan.now.settings.now (held plan.now) plan.now.slots.now
        plan.now.next.now }
    requires kept { AreKept plan.now.settings.now (held plan.now) kept.now.duties.now
        plan.now.flights.now kept.now.stands.now }
    ensures { IfOk result (λ counts. AreCounts
        (from_place plan.now.settings.now (held plan.now)) 0 (length plan.now.flights.now)
        counts.items) }
{
    let mut counts = Vec::with_capacity(alloc, plan.flights.len())?;
    let mut total = 0;
    for place in 0..plan.flights.len() {
        let longer = count_from(alloc, plan, kept, place, total)?;
        counts.push(longer - total)?;
        total = longer;
    }
    Ok(counts)
}

// The duties that begin with the flight at a place, of which there are so many, as a block: that of
// the earlier ones where they are kept.
fn block_beside(
    alloc: Global,
    plan: &Plan<'_>,
    kept: &EarlierDuties<'_>,
    place: usize,
    count: usize,
) -> Result<Arc<Vec<Duty>, Global>, AllocError>
    requires plan { IsPlan plan.now.settings.now (held plan.now) plan.now.slots.now
        plan.now.next.now }
    requires kept { AreKept plan.now.settings.now (held plan.now) kept.now.duties.now
        plan.now.flights.now kept.now.stands.now }
    requires place { place < length plan.now.flights.now }
    requires count { count
        ≡ length (from_place plan.now.settings.now (held plan.now) place) }
    requires room { count ≤ 200_000 }
    ensures { IfOk result (λ block. (arc_value block).items
        ≡ from_place plan.now.settings.now (held plan.now) place) }
{
    if let Some(block) = kept.at(place) {
        return kept.duties.part(alloc, block.from, block.to);
    }
    block_at(alloc, plan, place, count)
}

/// All duties, those of each first flight after those of the flights before it.
pub(crate) fn fill_beside(
    alloc: Global,
    plan: &Plan<'_>,
    kept: &EarlierDuties<'_>,
    counts: &[usize],
    total: usize,
) -> Result<Duties, AllocError>
    requires plan { IsPlan plan.now.settings.now (held plan.now) plan.now.slots.now
        plan.now.next.now }
    requires kept { AreKept plan.now.settings.now (held plan.now) kept.now.duties.now
        plan.now.flights.now kept.now.stands.now }
    requires all { length counts.now ≡ length plan.now.flights.now }
    requires counts { AreExact (from_place plan.now.settings.now (held plan.now)) 0
        counts.now }
    requires few { sum counts.now ≤ 200_000 }
    ensures { IfOk result (λ found. found
        ≡ flat_map (from_place plan.now.settings.now (held plan.now))
        (range_with_len 0 (length counts.now))) }
{
    let mut list = Duties::new(alloc);
    list.reserve(counts.len(), total)?;
    for place in 0..counts.len() {
        list.push(block_beside(alloc, plan, kept, place, counts[place])?)?;
    }
    Ok(list)
}
