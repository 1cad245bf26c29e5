//! The turns of a timetable at hand: those between a flight and its next legs are one range.

ghost use Rattle.std.specs.Prelude.{◌≡◌, IfOk, IsTrue};
ghost use Rattle.std.specs.FinMap as map;
ghost use Rattle.crew_duty.specs.Machinery.Turns as Spec;
ghost use Rattle.crew_duty.specs.Machinery.Turns.{turns_from};

use crew_flights::{FlightId, Timetable};
use std::alloc::{AllocError, Global};
use std::marker::Model;

/// A turn: the numbers of its two flights, and its minutes.
pub(crate) type Turn = ((FlightId, FlightId), u32);

/// The turns of a timetable, by the numbers of their flights.
///
/// A contract sees the finite map.
#[derive(Drop)]
pub(crate) struct HeldTurns {
    all: Vec<Turn>,
}

impl Model for HeldTurns {
    ghost use Rattle.std.specs.Prelude.{◌≡◌, true};
    ghost use Rattle.std.specs.FinMap as map;
    ghost use Rattle.std.specs.FinMap.{is_sorted};
    ghost use Rattle.crew_flights.specs.Codes.{pair_cmp};
    ghost use Rattle.crew_flights.specs.Timetable.{Turns, turns_code};

    ghost Value = { Turns };

    ghost coded = { turns_code };

    ghost view = { λ t. map.from_sorted t.all.items };

    ghost invariant = { λ t. is_sorted pair_cmp t.all.items ≡ true };
}

/// Whether two lists of turns are the same.
pub(crate) fn are_same_turns(turns: &[Turn], others: &[Turn]) -> bool
    ensures { IsTrue result → turns.now ≡ others.now }
{
    turns == others
}

/// The minutes of the turn before a flight, among the turns of one earlier flight.
pub(crate) fn minutes_to(turns: &[Turn], after: FlightId) -> Option<u32>
    ensures { result ≡ Spec.minutes_to after turns.now }
{
    for turn in turns {
        if turn.0.1 == after {
            return Some(turn.1);
        }
    }
    None
}

// The turns of a timetable.
fn turns_of(alloc: Global, timetable: &Timetable) -> Result<Vec<Turn>, AllocError>
    ensures { IfOk result (λ turns. turns.items ≡ map.entries timetable.now.turns) }
{
    timetable
        .turns()
        .map(|(pair, minutes)| (*pair, *minutes))
        .collect(alloc)
}

impl HeldTurns {
    /// Those of a timetable.
    pub(crate) fn of(alloc: Global, timetable: &Timetable) -> Result<HeldTurns, AllocError>
        ensures { IfOk result (λ turns. turns ≡ timetable.now.turns) }
    {
        let all = turns_of(alloc, timetable)?;
        Ok(HeldTurns { all })
    }

    // All of them, in order.
    fn entries(&self) -> &[Turn]
        ensures { result.now ≡ map.entries self.now }
    {
        &self.all
    }

    /// Those between a flight and its next legs.
    pub(crate) fn after(&self, before: FlightId) -> &[Turn]
        ensures { result.now ≡ turns_from self.now before }
    {
        let number = before.get();
        let all = self.entries();
        let from = all.partition_point(|turn| turn.0.0.get() < number);
        let later = &all[from..];
        let count = later.partition_point(|turn| turn.0.0.get() <= number);
        &later[..count]
    }

    /// Whether these are the same.
    pub(crate) fn are(&self, others: &HeldTurns) -> bool
        ensures { IsTrue result → self.now ≡ others.now }
    {
        are_same_turns(self.entries(), others.entries())
    }
}
