//! The search for legal duties: a tree for each first leg, with the next legs in order.
//!
//! A beginning is left where no duty can begin with it: more deadheads than are allowed, more
//! flight time than Table A gives, or more flight duty period than Table B gives to the segments so
//! far, which is never less than what it gives to more of them. In preorder the tree is in order of
//! keys, so nothing is sorted. The path is one key, to which legs are put and from which they are
//! taken off, with running totals beside it: no flight is copied, no minute is added twice on one
//! path, and a next leg is tested before it joins. Most beginnings are a duty that no leg goes on
//! from; the earliest arrival of what may follow tells that without a call. Duties are counted
//! first and then listed, by one walk with two uses: a count passes no room for duties. Each count
//! ends at one more than may be listed, so a timetable with far too many is refused quickly.

ghost use Rattle.std.specs.Prelude.{◌≡◌, ◌-◌, ◌<◌, ◌≤◌, ◌++◌, ◌∷◌, [], List, OnOk, IfOk, false, length, slice_get, Some};
ghost use Rattle.crew_flights.specs.declared.flight.Flight.{Flight};
ghost use Rattle.crew_duty.specs.Machinery.Filling.{Goes};
ghost use Rattle.crew_pairing.specs.Legality.{duty_of};
ghost use Rattle.crew_duty.specs.Machinery.Limits.{AreLimits};
ghost use Rattle.crew_pairing.specs.Machinery.Listing.{from_place, listing, own, timed};
ghost use Rattle.crew_pairing.specs.declared.leg.TimedLeg.{TimedLeg};
ghost use Rattle.crew_duty.specs.Machinery.Paths.{EndsAt, GoesOn, IsPath, LastAt, onward};
ghost use Rattle.crew_duty.specs.Machinery.Held.{held};
ghost use Rattle.crew_duty.specs.Machinery.Plans.{IsPlan};

use crate::limits::Limits;
use crate::plan::{Plan, follow_on};
use crate::totals::Totals;
use crew_flights::Flight;
use crew_pairing::{Duty, Key, Leg, TimedLeg};
use crew_rules::duty_pay;
use std::alloc::{AllocError, Global};

/// The most legs of a duty.
const LEGS: usize = 8;

/// The most duties that are listed.
pub(crate) const DUTIES: usize = 200_000;

// The duty of the legs of a key, of which the last is of the flight at a place.
#[inline(always)]
fn duty_from(
    plan: &Plan<'_>,
    first: &TimedLeg,
    limits: &Limits,
    key: &Key,
    last: usize,
    totals: Totals,
) -> Duty
    requires plan { IsPlan plan.now.settings.now (held plan.now) plan.now.slots.now
        plan.now.next.now }
    requires limits { AreLimits plan.now.settings.now first.now limits.now }
    requires path { (others : List TimedLeg) × IsPath plan.now.settings.now (held plan.now)
        first.now others key.now totals × EndsAt plan.now.flights.now first.now others last false }
    ensures { (others : List TimedLeg) → IsPath plan.now.settings.now (held plan.now)
        first.now others key.now totals → EndsAt plan.now.flights.now first.now others last false
        → result ≡ duty_of plan.now.settings.now first.now others }
{
    let flight = &plan.flights[last];
    let arrival = flight.arr.get();
    let release = arrival + i64::from(plan.settings.debrief);
    Duty {
        key: key.copy(),
        from: first.flight.from,
        to: flight.to,
        report: limits.report as i32,
        release: release as i32,
        fdp: (arrival - limits.report) as i32,
        fly: totals.fly as i32,
        pay: duty_pay(plan.settings, release - limits.report, totals.fly) as i32,
        price: totals.price,
    }
}

// Puts the duty of these legs themselves in its place, where there is one, and counts it. A
// deadhead ends no duty.
#[inline(always)]
fn put_own(
    found: &mut [Duty],
    plan: &Plan<'_>,
    first: &TimedLeg,
    limits: &Limits,
    key: &Key,
    last: usize,
    ridden: bool,
    totals: Totals,
    so_far: usize,
) -> usize
    requires plan { IsPlan plan.now.settings.now (held plan.now) plan.now.slots.now
        plan.now.next.now }
    requires limits { AreLimits plan.now.settings.now first.now limits.now }
    requires path { (others : List TimedLeg) × IsPath plan.now.settings.now (held plan.now)
        first.now others key.now totals × EndsAt plan.now.flights.now first.now others last ridden }
    requires so_far { so_far ≤ 200_000 }
    ensures { (others : List TimedLeg) → IsPath plan.now.settings.now (held plan.now)
        first.now others key.now totals → EndsAt plan.now.flights.now first.now others last ridden
        → Goes so_far (own plan.now.settings.now first.now others) found.old result found.new }
{
    if ridden {
        return so_far;
    }
    if so_far < found.len() {
        found[so_far] = duty_from(plan, first, limits, key, last, totals);
    }
    so_far + 1
}

// Counts the duties that begin with the legs of a key and go on, and puts those in their places that
// there is room for: they stand behind `so_far` others. The last leg is of the flight at `last`. The
// count ends at one more than may be listed.
#[cycle(tree)]
fn walk(
    alloc: Global,
    found: &mut [Duty],
    plan: &Plan<'_>,
    first: &TimedLeg,
    limits: &Limits,
    key: &mut Key,
    last: usize,
    totals: Totals,
    so_far: usize,
) -> Result<usize, AllocError>
    requires plan { IsPlan plan.now.settings.now (held plan.now) plan.now.slots.now
        plan.now.next.now }
    requires limits { AreLimits plan.now.settings.now first.now limits.now }
    requires few { length key.old ≤ 7 }
    requires path { (others : List TimedLeg) × IsPath plan.now.settings.now (held plan.now)
        first.now others key.old totals × LastAt plan.now.flights.now first.now others last }
    requires so_far { so_far ≤ 200_001 }
    requires room { length found.old ≤ 200_000 }
    ensures goes { IfOk result (λ n. (others : List TimedLeg)
        → IsPath plan.now.settings.now (held plan.now) first.now others key.old totals
        → LastAt plan.now.flights.now first.now others last
        → Goes so_far (onward (7 - length others) plan.now.settings.now (held plan.now)
        first.now others) found.old n found.new) }
    ensures kept { OnOk result (key.new ≡ key.old) }
{
    let next = follow_on(alloc, plan, limits, last, totals)?;
    let mut counted = so_far;
    for place in next.as_slice() {
        let place = *place as usize;
        counted = step(
            alloc, found, plan, first, limits, key, place, false, totals, counted,
        )?;
        counted = step(
            alloc, found, plan, first, limits, key, place, true, totals, counted,
        )?;
    }
    Ok(counted)
}

// The same of the duties that begin with the flight at a place after these legs.
#[cycle(tree)]
#[inline(always)]
fn step(
    alloc: Global,
    found: &mut [Duty],
    plan: &Plan<'_>,
    first: &TimedLeg,
    limits: &Limits,
    key: &mut Key,
    place: usize,
    deadhead: bool,
    totals: Totals,
    so_far: usize,
) -> Result<usize, AllocError>
    requires plan { IsPlan plan.now.settings.now (held plan.now) plan.now.slots.now
        plan.now.next.now }
    requires limits { AreLimits plan.now.settings.now first.now limits.now }
    requires few { length key.old ≤ 7 }
    requires path { (others : List TimedLeg) × (g : Flight) × IsPath plan.now.settings.now
        (held plan.now) first.now others key.old totals × GoesOn plan.now.settings.now
        (held plan.now) first.now others place g }
    requires so_far { so_far ≤ 200_001 }
    requires room { length found.old ≤ 200_000 }
    ensures goes { IfOk result (λ n. (others : List TimedLeg) (g : Flight)
        → IsPath plan.now.settings.now (held plan.now) first.now others key.old totals
        → GoesOn plan.now.settings.now (held plan.now) first.now others place g
        → Goes so_far (listing (7 - length others) plan.now.settings.now (held plan.now)
        first.now (others ++ timed deadhead g ∷ [])) found.old n found.new) }
    ensures kept { OnOk result (key.new ≡ key.old) }
{
    if deadhead && totals.deadheads >= limits.deadheads {
        return Ok(so_far);
    }
    let flight = &plan.flights[place];
    let longer = totals.after(flight, deadhead);
    if limits.forbid(flight, longer) {
        return Ok(so_far);
    }
    key.push(Leg::new(flight.id, deadhead));
    let counted = enter(
        alloc, found, plan, first, limits, key, place, deadhead, longer, so_far,
    )?;
    key.pop();
    Ok(counted)
}

// The same of these legs themselves and of those that go on from them. Most go on no more: then even
// the next flight that is there soonest arrives too late.
#[cycle(tree)]
#[inline(always)]
fn enter(
    alloc: Global,
    found: &mut [Duty],
    plan: &Plan<'_>,
    first: &TimedLeg,
    limits: &Limits,
    key: &mut Key,
    last: usize,
    ridden: bool,
    totals: Totals,
    so_far: usize,
) -> Result<usize, AllocError>
    requires plan { IsPlan plan.now.settings.now (held plan.now) plan.now.slots.now
        plan.now.next.now }
    requires limits { AreLimits plan.now.settings.now first.now limits.now }
    requires path { (others : List TimedLeg) × IsPath plan.now.settings.now (held plan.now)
        first.now others key.old totals × EndsAt plan.now.flights.now first.now others last ridden }
    requires so_far { so_far ≤ 200_001 }
    requires room { length found.old ≤ 200_000 }
    ensures goes { IfOk result (λ n. (others : List TimedLeg)
        → IsPath plan.now.settings.now (held plan.now) first.now others key.old totals
        → EndsAt plan.now.flights.now first.now others last ridden
        → Goes so_far (listing (8 - length others) plan.now.settings.now (held plan.now)
        first.now others) found.old n found.new) }
    ensures kept { OnOk result (key.new ≡ key.old) }
{
    if so_far > DUTIES {
        return Ok(so_far);
    }
    let counted = put_own(
        found, plan, first, limits, key, last, ridden, totals, so_far,
    );
    if key.legs().len() >= LEGS {
        return Ok(counted);
    }
    if limits.latest(totals) < plan.next[last].soonest {
        return Ok(counted);
    }
    walk(
        alloc, found, plan, first, limits, key, last, totals, counted,
    )
}

// A flight as a leg.
fn timed_leg(flight: &Flight, deadhead: bool) -> TimedLeg
    ensures { result ≡ timed deadhead flight.now }
{
    TimedLeg {
        flight: *flight,
        deadhead,
    }
}

// The same of the duties that begin with the flight at a place, flown or deadheaded.
fn walk_first(
    alloc: Global,
    found: &mut [Duty],
    plan: &Plan<'_>,
    place: usize,
    deadhead: bool,
    so_far: usize,
) -> Result<usize, AllocError>
    requires plan { IsPlan plan.now.settings.now (held plan.now) plan.now.slots.now
        plan.now.next.now }
    requires place { place < length plan.now.flights.now }
    requires so_far { so_far ≤ 200_001 }
    requires room { length found.old ≤ 200_000 }
    ensures { IfOk result (λ n. (flight : Flight)
        → slice_get plan.now.flights.now place ≡ Some flight
        → Goes so_far (listing 8 plan.now.settings.now (held plan.now)
        (timed deadhead flight) []) found.old n found.new) }
{
    if deadhead && plan.settings.deadheads == 0 {
        return Ok(so_far);
    }
    let flight = &plan.flights[place];
    let first = timed_leg(flight, deadhead);
    let limits = Limits::of(plan.settings, &first);
    let totals = Totals::of(flight, deadhead);
    if limits.forbid(flight, totals) {
        return Ok(so_far);
    }
    let mut key = Key::of(first.leg());
    enter(
        alloc, found, plan, &first, &limits, &mut key, place, deadhead, totals, so_far,
    )
}

/// Counts the duties that begin with the flight at a place, to one more than may be listed, and
/// puts those in their places that there is room for: they stand behind `so_far` others.
pub(crate) fn walk_from(
    alloc: Global,
    found: &mut [Duty],
    plan: &Plan<'_>,
    place: usize,
    so_far: usize,
) -> Result<usize, AllocError>
    requires plan { IsPlan plan.now.settings.now (held plan.now) plan.now.slots.now
        plan.now.next.now }
    requires place { place < length plan.now.flights.now }
    requires so_far { so_far ≤ 200_001 }
    requires room { length found.old ≤ 200_000 }
    ensures { IfOk result (λ n. Goes so_far
        (from_place plan.now.settings.now (held plan.now) place) found.old n found.new) }
{
    let flown = walk_first(alloc, found, plan, place, false, so_far)?;
    walk_first(alloc, found, plan, place, true, flown)
}
