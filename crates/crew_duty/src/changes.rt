//! When flights depart that two timetables don't have alike, or whose turns to next legs they don't.

ghost use Rattle.std.specs.Prelude.{◌≡◌, ◌⊎◌, ℤ, List, IsTrue, IfOk, OnOk};
ghost use Rattle.crew_resource.specs.Members.{Member};
ghost use Rattle.crew_duty.specs.Machinery.Held.{over};
ghost use Rattle.crew_duty.specs.Machinery.Kept.{AreApart, AreChanges, ClimbInTime, TellChanges, TellTurns};
ghost use Rattle.crew_duty.specs.Machinery.Turns.{turns_from};

use crate::turns::{HeldTurns, are_same_turns};
use crew_flights::Flight;
use std::alloc::{AllocError, Global};

// Whether a flight stands at a place of others, with the same facts.
fn stands_at(others: &[Flight], place: usize, flight: &Flight) -> bool
    ensures { IsTrue result → Member others.now flight.now }
{
    match others.get(place) {
        Some(other) => other == flight,
        None => false,
    }
}

// The first place, from one on, where a flight has no lesser number than this one.
fn seek(others: &[Flight], from: usize, flight: &Flight) -> usize {
    for place in from..others.len() {
        if others[place].id >= flight.id {
            return place;
        }
    }
    others.len()
}

// Appends when a flight departs, unless it stands at a place of others.
fn add_unless_at(
    minutes: &mut Vec<i64>,
    others: &[Flight],
    place: usize,
    flight: &Flight,
) -> Result<(), AllocError>
    ensures told { OnOk result (Member others.now flight.now ⊎ Member minutes.new.items
        flight.now.dep) }
    ensures kept { OnOk result ((m : ℤ) → Member minutes.old.items m
        → Member minutes.new.items m) }
{
    let stands = stands_at(others, place, flight);
    if !stands {
        minutes.push(flight.dep.get())?;
    }
    Ok(())
}

// Appends when those of some flights depart that don't stand in others with the same facts. Both go
// by number, so they are gone over side by side.
fn add_changes(
    minutes: &mut Vec<i64>,
    flights: &[Flight],
    others: &[Flight],
) -> Result<(), AllocError>
    ensures told { OnOk result (TellChanges flights.now others.now minutes.new.items) }
    ensures kept { OnOk result ((m : ℤ) → Member minutes.old.items m
        → Member minutes.new.items m) }
{
    let mut place = 0;
    for flight in flights {
        place = seek(others, place, flight);
        add_unless_at(minutes, others, place, flight)?;
    }
    Ok(())
}

// Appends when a flight departs, unless its turns to next legs are those of before.
fn add_unless_same(
    minutes: &mut Vec<i64>,
    flight: &Flight,
    turns: &HeldTurns,
    earlier: &HeldTurns,
) -> Result<(), AllocError>
    ensures told { OnOk result ((turns_from turns.now flight.now.id
        ≡ turns_from earlier.now flight.now.id) ⊎ Member minutes.new.items flight.now.dep) }
    ensures kept { OnOk result ((m : ℤ) → Member minutes.old.items m
        → Member minutes.new.items m) }
{
    let same = are_same_turns(turns.after(flight.id), earlier.after(flight.id));
    if !same {
        minutes.push(flight.dep.get())?;
    }
    Ok(())
}

// Appends when those of some flights depart whose turns to next legs have changed.
fn add_turned(
    minutes: &mut Vec<i64>,
    flights: &[Flight],
    turns: &HeldTurns,
    earlier: &HeldTurns,
) -> Result<(), AllocError>
    ensures told { OnOk result (TellTurns flights.now turns.now earlier.now minutes.new.items) }
    ensures kept { OnOk result ((m : ℤ) → Member minutes.old.items m
        → Member minutes.new.items m) }
{
    if turns.are(earlier) {
        return Ok(());
    }
    for flight in flights {
        add_unless_same(minutes, flight, turns, earlier)?;
    }
    Ok(())
}

/// When flights depart that stand in one of two lists and not in the other with the same facts, or
/// whose turns to next legs have changed, in order. Both lists go by number.
pub(crate) fn changes_between(
    alloc: Global,
    flights: &[Flight],
    turns: &HeldTurns,
    others: &[Flight],
    earlier: &HeldTurns,
) -> Result<Vec<i64>, AllocError>
    ensures { IfOk result (λ minutes. AreChanges (over flights.now turns.now)
        (over others.now earlier.now) minutes.items) }
{
    let mut minutes = Vec::new(alloc);
    add_changes(&mut minutes, flights, others)?;
    add_changes(&mut minutes, others, flights)?;
    add_turned(&mut minutes, flights, turns, earlier)?;
    minutes.sort_unstable();
    Ok(minutes)
}

/// Whether none of these minutes lies between two, both included.
pub(crate) fn are_apart(minutes: &[i64], from: i64, to: i64) -> bool
    requires { ClimbInTime minutes.now }
    ensures { IsTrue result → AreApart from to minutes.now }
{
    let before = minutes.partition_point(|minute| *minute < from);
    let by = minutes.partition_point(|minute| *minute <= to);
    before == by
}
