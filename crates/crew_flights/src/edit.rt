//! Edits of a timetable, and what becomes of them.

ghost use Rattle.std.specs.Prelude.{◌≡◌};

use crate::flight::{Code, Flight, FlightId};
use crew_time::{ClockMinute, Minute};

/// An edit of a timetable. Prices are in points.
#[derive(Clone, Copy, Debug, PartialEq, Eq)]
pub enum Edit {
    /// A base, with the price of a pairing that starts there.
    AddBase {
        code: Code,
        price: i64,
    },
    /// Another price for a base.
    BasePrice {
        code: Code,
        price: i64,
    },
    /// A flight.
    AddFlight(Flight),
    /// The flight goes.
    Cancel(FlightId),
    /// Other times for a flight. `from` is its own airport, whose clock `report_clock` is.
    Retime {
        id: FlightId,
        from: Code,
        dep: Minute,
        arr: Minute,
        report_clock: ClockMinute,
    },
    /// Another price for a flight.
    Price {
        id: FlightId,
        price: i64,
    },
    /// A turn: the least minutes on the ground between the arrival of one flight and the departure
    /// of another, where this is the next leg after that one in a duty, in place of those that the
    /// settings ask for. Another turn of the two goes.
    Turn {
        before: FlightId,
        after: FlightId,
        minutes: u32,
    },
    /// The turn between two flights goes.
    TakeTurn {
        before: FlightId,
        after: FlightId,
    },
    /// A follow-on: in each pairing one flight is the next leg after another, in the same duty or
    /// as the first of the next duty, or neither is there.
    Follow {
        before: FlightId,
        after: FlightId,
    },
    /// The follow-on after a flight goes.
    TakeFollow {
        before: FlightId,
    },
}

/// Why an entry is refused.
#[derive(Clone, Copy, Debug, PartialEq, Eq)]
pub enum Refusal {
    /// The base is there already.
    BaseExists = 21,
    /// There is no such base.
    NoBase = 22,
    /// The flight is there already.
    FlightExists = 23,
    /// There is no such flight.
    NoFlight = 24,
    /// The arrival isn't from 1 to 1,440 minutes after the departure.
    BadTimes = 25,
    /// The flight arrives where it leaves.
    SameAirport = 26,
    /// The flight leaves another airport.
    WrongOrigin = 27,
    /// The price is more than 1,000,000,000 points from zero.
    PriceRange = 28,
    /// 5,000 flights are there.
    TooManyFlights = 29,
    /// 16 bases are there.
    TooManyBases = 30,
    /// The entry's number isn't its seat's next.
    OutOfTurn = 31,
    /// The later flight of a turn or of a follow-on leaves another airport than the earlier one
    /// reaches, or departs before that arrives.
    NoConnection = 32,
    /// There is no such turn.
    NoTurn = 33,
    /// The turn is more than 1,441 minutes.
    TurnRange = 34,
    /// 10,000 turns are there.
    TooManyTurns = 35,
    /// Another flight follows the earlier one, or the later one follows another.
    Taken = 36,
    /// No flight follows this one.
    NoFollowOn = 37,
    /// A base or an end of a flight is no airport.
    NoAirport = 38,
}

impl Refusal {
    ghost use Rattle.crew_flights.specs.Refusals.{number_of};

    /// The number of this refusal, from 21 to 38.
    pub fn number(self) -> u8
        ensures { result ≡ number_of self }
    {
        self as u8
    }
}

/// What became of an edit.
#[derive(Clone, Copy, Debug, PartialEq, Eq)]
pub enum Verdict {
    Accepted,
    Refused(Refusal),
}
