//! What follows from the definitions alone.

ghost use Rattle.crew_flights.specs.Turns.{AreNumberedInTurn};

/// Of each seat, the entries in turn are numbered 0, 1, 2, .. in place order.
pub fn turns_are_numbered()
    ensures { AreNumberedInTurn }
{}
