//! Departures by airport and time: which flights may follow one, by binary search.
//!
//! Where and when a flight departs is one number, the letters of its airport and then the minute:
//! airports lie further apart than any two minutes, so the flights that may follow one are one
//! range. Up to 32 of them are put in order once, before the search. Where they are more nothing is
//! stored, and each beginning takes those that don't depart too late for Table B: so a dense
//! timetable is refused quickly. Of a flight that has turns, all that leave after it has arrived are
//! looked through, each by its own turn.

ghost use Rattle.std.specs.Prelude.{◌≡◌, ◌≤◌, ◌<◌, ◌≤ℤ◌, ◌+ℤ◌, ◌++◌, ◌∷◌, [], ℤ, pos, true, IfOk, OnOk, if◌then◌else◌, List, IsPermutation, IsSorted, filter, length, map};
ghost use Rattle.std.specs.Ordering.{nat_cmp};
ghost use Rattle.crew_flights.specs.Codes.{is_code};
ghost use Rattle.crew_flights.specs.declared.flight.Flight.{Flight};
ghost use Rattle.crew_rules.specs.Settings.{IsChecked};
ghost use Rattle.crew_flights.specs.Timetable.{Turns};
ghost use Rattle.crew_duty.specs.Machinery.Held.{over};
ghost use Rattle.crew_duty.specs.Machinery.Plans.{Knows, StandAt};
ghost use Rattle.crew_duty.specs.Machinery.Slots as Spec;
ghost use Rattle.crew_duty.specs.Machinery.Slots.{Ascend, IsIndex, IsNamed, earlier, follows_by, is_between};
ghost use Rattle.crew_duty.specs.Machinery.Turns.{is_late_enough as late_enough, least_gap as least_minutes, turns_from};

use crate::turns::{HeldTurns, Turn, minutes_to};
use crew_flights::{Code, Flight};
use crew_rules::Settings;
use std::alloc::{AllocError, Global};

/// The most followers of a flight that are put in order once for all.
const FEW: usize = 32;

/// Later than any departure or arrival.
pub(crate) const NEVER: i64 = 100_000_000;

/// A departure: where and when as one number, and the place of its flight among all.
#[derive(Clone, Copy, PartialEq, Eq, PartialOrd, Ord)]
pub(crate) struct Slot {
    pub(crate) at: i64,
    pub(crate) place: u32,
}

// The letters of an airport as one number.
fn code_number(airport: Code) -> u32
    ensures value { result ≡ Spec.code_number airport }
    ensures bound { result < 16_777_216 }
    ensures code { is_code airport ≡ true }
{
    let [first, second, third] = airport.get();
    u32::from(first) * 65_536 + u32::from(second) * 256 + u32::from(third)
}

// An airport and a minute as one number: airports lie further apart than any two minutes.
fn moment(airport: Code, minute: i64) -> i64
    requires least { pos 0 ≤ℤ minute }
    requires most { minute ≤ℤ pos 100_000_000 }
    ensures value { result ≡ Spec.moment airport minute }
    ensures code { is_code airport ≡ true }
{
    i64::from(code_number(airport)) * 134_217_728 + minute
}

fn slot_of(place: u32, flight: &Flight) -> Slot
    ensures value { result ≡ Spec.slot_of place flight.now }
    ensures named { IsNamed flight.now }
{
    Slot {
        at: moment(flight.from, flight.dep.get()),
        place,
    }
}

// The slots from one moment to another, both included.
fn slots_between(slots: &[Slot], earliest: i64, latest: i64) -> &[Slot]
    requires { Ascend slots.now }
    ensures { result.now ≡ filter (is_between earliest latest) slots.now }
{
    let from = slots.partition_point(|slot| slot.at < earliest);
    let later = &slots[from..];
    let count = later.partition_point(|slot| slot.at <= latest);
    &later[..count]
}

// The places of these slots' flights.
fn places_of_slots(alloc: Global, slots: &[Slot]) -> Result<Vec<u32>, AllocError>
    ensures { IfOk result (λ places. places.items ≡ map (λ s. s.place) slots.now) }
{
    slots.iter().map(|slot| slot.place).collect(alloc)
}

/// The departures of these flights, by airport and time.
pub(crate) fn index_of(alloc: Global, flights: &[Flight]) -> Result<Vec<Slot>, AllocError>
    requires { length flights.now ≤ 5_000 }
    ensures { IfOk result (λ slots. IsIndex flights.now slots.items) }
{
    let mut slots = Vec::with_capacity(alloc, flights.len())?;
    for (place, flight) in flights.iter().enumerate() {
        slots.push(slot_of(place as u32, flight))?;
    }
    slots.sort_unstable();
    Ok(slots)
}

/// The earlier of two minutes.
pub(crate) fn earlier_of(first: i64, second: i64) -> i64
    ensures value { result ≡ earlier first second }
    ensures most { (result ≤ℤ first) × (result ≤ℤ second) }
    ensures least { (least : ℤ) → least ≤ℤ first → least ≤ℤ second → least ≤ℤ result }
{
    if first < second { first } else { second }
}

// The slots of the flights that leave where this one arrives, after a gap from so many minutes to
// `sit`, and depart by a minute, by time.
fn slots_after<'a>(
    slots: &'a [Slot],
    settings: &Settings,
    before: &Flight,
    gap: u32,
    latest: i64,
) -> &'a [Slot]
    requires checked { IsChecked settings.now }
    requires index { Ascend slots.now }
    requires soon { gap ≤ settings.now.connect }
    requires least { pos 0 ≤ℤ latest }
    requires most { latest ≤ℤ pos 100_000_000 }
    ensures slots { result.now ≡ filter
        (is_between (Spec.moment before.now.to (before.now.arr +ℤ pos gap))
        (Spec.moment before.now.to (earlier (before.now.arr +ℤ pos settings.now.sit) latest)))
        slots.now }
    ensures code { is_code before.now.to ≡ true }
    ensures time { Spec.IsTime before.now.arr }
{
    let arrival = before.arr.get();
    let earliest = moment(before.to, arrival + i64::from(gap));
    let last = earlier_of(arrival + i64::from(settings.sit), latest);
    slots_between(slots, earliest, moment(before.to, last))
}

// The places of these slots' flights, in order.
fn places_in_order(alloc: Global, slots: &[Slot]) -> Result<Vec<u32>, AllocError>
    ensures same { IfOk result (λ places. IsPermutation (map (λ s. s.place) slots.now)
        places.items) }
    ensures sorted { IfOk result (λ places. IsSorted nat_cmp places.items) }
{
    let mut places = places_of_slots(alloc, slots)?;
    places.sort_unstable();
    Ok(places)
}

// No flight follows after fewer minutes than these, where the one before has these turns.
fn least_gap(settings: &Settings, own: &[Turn]) -> u32
    ensures value { result ≡ least_minutes settings.now own.now }
    ensures most { result ≤ settings.now.connect }
{
    if own.is_empty() { settings.connect } else { 0 }
}

// Whether a flight departs no sooner after another than the turns of that one let it.
fn is_late_enough(settings: &Settings, own: &[Turn], before: &Flight, next: &Flight) -> bool
    ensures { result ≡ late_enough settings.now own.now before.now next.now }
{
    let least = minutes_to(own, next.id).unwrap_or(settings.connect);
    i64::from(least) <= next.dep.get() - before.arr.get()
}

// Appends a place, where something holds.
fn add_where(kept: &mut Vec<u32>, place: u32, holds: bool) -> Result<(), AllocError>
    ensures { OnOk result (kept.new.items
        ≡ kept.old.items ++ (if holds then place ∷ [] else [])) }
{
    if holds {
        kept.push(place)?;
    }
    Ok(())
}

// Of the flights at these places, those that depart no sooner than the turns of the one before let
// them.
fn without_early(
    alloc: Global,
    settings: &Settings,
    flights: &[Flight],
    own: &[Turn],
    before: &Flight,
    places: &[u32],
) -> Result<Vec<u32>, AllocError>
    requires { (gs : List Flight) × StandAt flights.now places.now gs }
    ensures { IfOk result (λ kept. (gs : List Flight) → StandAt flights.now places.now gs
        → StandAt flights.now kept.items
        (filter (late_enough settings.now own.now before.now) gs)) }
{
    let mut kept = Vec::new(alloc);
    for place in places {
        let next = &flights[*place as usize];
        let late = is_late_enough(settings, own, before, next);
        add_where(&mut kept, *place, late)?;
    }
    Ok(kept)
}

// The places of those of these slots' flights that may follow one: the slots of those that leave
// where it arrives, after a gap that its turns may let be, by a minute.
fn places_among(
    alloc: Global,
    settings: &Settings,
    flights: &[Flight],
    slots: &[Slot],
    own: &[Turn],
    before: &Flight,
    latest: i64,
    after: &[Slot],
) -> Result<Vec<u32>, AllocError>
    requires checked { IsChecked settings.now }
    requires index { IsIndex flights.now slots.now }
    requires most { latest ≤ℤ pos 100_000_000 }
    requires after { after.now ≡ filter
        (is_between (Spec.moment before.now.to
        (before.now.arr +ℤ pos (least_minutes settings.now own.now)))
        (Spec.moment before.now.to (earlier (before.now.arr +ℤ pos settings.now.sit) latest)))
        slots.now }
    requires code { is_code before.now.to ≡ true }
    requires time { Spec.IsTime before.now.arr }
    ensures { IfOk result (λ places. (turns : Turns) → own.now ≡ turns_from turns before.now.id
        → StandAt flights.now places.items
        (filter (follows_by settings.now turns latest before.now) flights.now)) }
{
    let places = places_in_order(alloc, after)?;
    if own.is_empty() {
        return Ok(places);
    }
    without_early(alloc, settings, flights, own, before, &places)
}

/// The places of the flights that may follow this one, and `None` where they are many.
pub(crate) fn few_after(
    alloc: Global,
    settings: &Settings,
    flights: &[Flight],
    turns: &HeldTurns,
    slots: &[Slot],
    before: &Flight,
) -> Result<Option<Vec<u32>>, AllocError>
    requires checked { IsChecked settings.now }
    requires index { IsIndex flights.now slots.now }
    ensures { IfOk result (Knows settings.now (over flights.now turns.now) before.now) }
{
    let own = turns.after(before.id);
    let after = slots_after(slots, settings, before, least_gap(settings, own), NEVER);
    if after.len() > FEW {
        return Ok(None);
    }
    let places = places_among(alloc, settings, flights, slots, own, before, NEVER, after)?;
    Ok(Some(places))
}

/// The places of the flights that may follow this one and depart by a minute.
#[inline(never)]
pub(crate) fn places_by(
    alloc: Global,
    settings: &Settings,
    flights: &[Flight],
    turns: &HeldTurns,
    slots: &[Slot],
    before: &Flight,
    latest: i64,
) -> Result<Vec<u32>, AllocError>
    requires checked { IsChecked settings.now }
    requires index { IsIndex flights.now slots.now }
    requires least { pos 0 ≤ℤ latest }
    requires most { latest ≤ℤ pos 100_000_000 }
    ensures { IfOk result (λ places. StandAt flights.now places.items
        (filter (follows_by settings.now turns.now latest before.now) flights.now)) }
{
    let own = turns.after(before.id);
    let after = slots_after(slots, settings, before, least_gap(settings, own), latest);
    places_among(alloc, settings, flights, slots, own, before, latest, after)
}
