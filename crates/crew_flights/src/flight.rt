//! Flights, their numbers, and the codes of places.

ghost use Rattle.std.specs.Prelude.{◌≡◌, ◌↔◌, ℕ, List, true, IsSome, IfSome};
ghost use Rattle.std.proofs.Common.{refl};
ghost use Rattle.std.specs.Ordering.{nat_cmp, eq_by_cmp, as_partial_cmp};
ghost use Rattle.std.specs.Cmp.{nat_cmp_total, eq_by_cmp_equiv, partial_equiv_from_equiv, partial_order_from_total};
ghost use Rattle.crew_flights.specs.Codes.{IsFlightNumber, is_airport, is_code, code_cmp, code_cmp_total};
ghost use Rattle.crew_flights.specs.Codes as Spec;

use crew_time::{ClockMinute, Minute};
use std::cmp::Ordering;
use std::marker::Model;

/// A flight's number, from 1 to 999,999.
///
/// A contract sees the number.
#[derive(Clone, Copy, Debug)]
pub struct FlightId {
    number: u32,
}

impl Model for FlightId {
    ghost Value = { ℕ };

    ghost view = { λ id. id.number };

    ghost invariant = { λ id. IsFlightNumber id.number };

    ghost inverse = { λ number. record { number = number } };
}

impl FlightId {
    /// The flight of a number, if a flight may have it.
    pub fn new(number: u32) -> Option<Self>
        ensures valid { IsSome result ↔ IsFlightNumber number }
        ensures value { IfSome result (λ id. id ≡ number) }
    {
        if (1..=999_999).contains(&number) {
            Some(FlightId { number })
        } else {
            None
        }
    }

    /// The number.
    pub fn get(self) -> u32
        ensures value { result ≡ self }
        ensures range { IsFlightNumber result }
    {
        self.number
    }
}

impl PartialEq for FlightId {
    ghost eq = { eq_by_cmp nat_cmp };

    ghost laws = { partial_equiv_from_equiv (eq_by_cmp_equiv nat_cmp_total) };

    fn eq(&self, other: &FlightId) -> bool {
        self.cmp(other) == Ordering::Equal
    }
}

impl Eq for FlightId {
    ghost laws = { eq_by_cmp_equiv nat_cmp_total };
}

impl PartialOrd for FlightId {
    ghost partial_cmp = { as_partial_cmp nat_cmp };

    ghost laws = { partial_order_from_total nat_cmp_total };

    fn partial_cmp(&self, other: &FlightId) -> Option<Ordering> {
        Some(self.cmp(other))
    }
}

impl Ord for FlightId {
    ghost cmp = { nat_cmp };

    ghost total = { nat_cmp_total };

    ghost matches_partial_cmp = { λ a b. refl };

    ghost matches_eq = { λ a b. refl };

    fn cmp(&self, other: &FlightId) -> Ordering {
        self.get().cmp(&other.get())
    }
}

/// The code of a place: an airport's three letters of A to Z, or the place between a flight and the
/// one that follows it.
///
/// A contract sees the three bytes.
#[derive(Clone, Copy, Debug)]
pub struct Code {
    bytes: [u8; 3],
}

impl Model for Code {
    ghost Value = { List ℕ };

    ghost view = { λ code. code.bytes };

    ghost invariant = { λ code. is_code code.bytes ≡ true };

    ghost inverse = { λ bytes. record { bytes = bytes } };
}

impl Code {
    /// The airport of three bytes, if they are letters.
    pub fn new(letters: [u8; 3]) -> Option<Self>
        ensures valid { IsSome result ↔ (is_airport letters ≡ true) }
        ensures value { IfSome result (λ code. code ≡ letters) }
    {
        if are_letters(&letters) {
            Some(Code { bytes: letters })
        } else {
            None
        }
    }

    /// The place between a flight and the one that follows it. No airport has its code, and no
    /// other flight.
    pub fn own_place(id: FlightId) -> Self
        ensures { result ≡ Spec.own_place id }
    {
        let number = id.get();
        Code {
            bytes: [
                (128 + number / 16_384) as u8,
                (128 + number / 128 % 128) as u8,
                (128 + number % 128) as u8,
            ],
        }
    }

    /// Whether the place is an airport.
    pub fn is_airport(self) -> bool
        ensures { result ≡ is_airport self }
    {
        are_letters(&self.bytes)
    }

    /// The three bytes.
    pub fn get(self) -> [u8; 3]
        ensures value { result ≡ self }
        ensures range { is_code result ≡ true }
    {
        self.bytes
    }
}

// Whether three bytes are letters of A to Z.
fn are_letters(bytes: &[u8; 3]) -> bool
    ensures { result ≡ is_airport bytes.now }
{
    bytes.iter().all(|byte| byte.is_ascii_uppercase())
}

impl PartialEq for Code {
    ghost eq = { eq_by_cmp code_cmp };

    ghost laws = { partial_equiv_from_equiv (eq_by_cmp_equiv code_cmp_total) };

    fn eq(&self, other: &Code) -> bool {
        self.cmp(other) == Ordering::Equal
    }
}

impl Eq for Code {
    ghost laws = { eq_by_cmp_equiv code_cmp_total };
}

impl PartialOrd for Code {
    ghost partial_cmp = { as_partial_cmp code_cmp };

    ghost laws = { partial_order_from_total code_cmp_total };

    fn partial_cmp(&self, other: &Code) -> Option<Ordering> {
        Some(self.cmp(other))
    }
}

impl Ord for Code {
    ghost cmp = { code_cmp };

    ghost total = { code_cmp_total };

    ghost matches_partial_cmp = { λ a b. refl };

    ghost matches_eq = { λ a b. refl };

    fn cmp(&self, other: &Code) -> Ordering {
        self.get().cmp(&other.get())
    }
}

/// A flight of a timetable.
#[derive(Clone, Copy, Debug, PartialEq, Eq)]
pub struct Flight {
    pub id: FlightId,
    /// The airport that it leaves.
    pub from: Code,
    /// The airport that it reaches.
    pub to: Code,
    /// When it leaves.
    pub dep: Minute,
    /// When it arrives.
    pub arr: Minute,
    /// What a clock of `from` shows when a duty that begins with this flight reports.
    pub report_clock: ClockMinute,
    /// What covering it is worth, in points.
    pub price: i64,
}
