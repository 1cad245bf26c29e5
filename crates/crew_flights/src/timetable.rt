//! A timetable in memory.

ghost use Rattle.std.specs.Prelude.{◌≡◌, ℕ, ℤ, List, IfOk, OnOk, OnErr, filter, not, map as list_map};
ghost use Rattle.std.specs.FinMap as map;
ghost use Rattle.std.specs.BTreeMap.{IsFromIterResult, IsOrdered};
ghost use Rattle.crew_flights.specs.Codes.{pair_cmp};
ghost use Rattle.crew_flights.specs.Edits.{is_price, is_block, first_of};
ghost use Rattle.crew_flights.specs.Edits as Spec;
ghost use Rattle.crew_flights.specs.Places as Places;
ghost use Rattle.std.specs.Map.Iter.{ShowsInOrder, deref, deref_pair};

use crate::edit::{Edit, Refusal, Verdict};
use crate::flight::{Code, Flight, FlightId};
use crate::follow_ons::FollowOns;
use crew_time::Minute;
use std::alloc::{AllocError, Global};
use std::collections::BTreeMap;
use std::collections::btree_map::{Iter, Values};
use std::marker::Model;

// The most flights, bases and turns that a timetable holds.
const FLIGHTS: usize = 5_000;

const BASES: usize = 16;

const TURNS: usize = 10_000;

// The most minutes of a turn: one more than a day.
const MINUTES: u32 = 1_441;

/// The flights that are held, the bases with their prices, and the turns and follow-ons between
/// flights.
///
/// A contract sees five finite maps.
#[derive(Drop)]
pub struct Timetable {
    flights: BTreeMap<FlightId, Flight>,
    bases: BTreeMap<Code, i64>,
    turns: BTreeMap<(FlightId, FlightId), u32>,
    follow_ons: FollowOns,
}

impl Model for Timetable {
    ghost use Rattle.crew_flights.specs.Timetable.{Timetable, timetable_code, timetable_of, IsKept};

    ghost Value = { Timetable };

    ghost coded = { timetable_code };

    ghost view = { λ d. timetable_of d.flights d.bases d.turns d.follow_ons };

    ghost invariant = { λ d. IsKept d.flights d.bases d.turns d.follow_ons };
}

impl Timetable {
    ghost use Rattle.crew_flights.specs.Timetable.{empty_timetable, IsSound};
    ghost use Rattle.crew_flights.specs.declared.flight.Flight.{Flight};

    /// No flights, no bases, no turns and no follow-ons.
    pub fn new(alloc: Global) -> Self
        ensures { result ≡ empty_timetable }
    {
        Timetable {
            flights: BTreeMap::new(alloc),
            bases: BTreeMap::new(alloc),
            turns: BTreeMap::new(alloc),
            follow_ons: FollowOns::new(alloc),
        }
    }

    /// The flight of a number.
    pub fn flight(&self, id: FlightId) -> Option<Flight>
        ensures held { result ≡ map.get self.now.flights id }
        ensures sound { IsSound self.now }
    {
        self.flights.get(&id).copied()
    }

    /// The price of a base.
    pub fn base_price(&self, code: Code) -> Option<i64>
        ensures held { result ≡ map.get self.now.bases code }
        ensures sound { IsSound self.now }
    {
        self.bases.get(&code).copied()
    }

    /// The turn between two flights, in minutes.
    pub fn turn(&self, before: FlightId, after: FlightId) -> Option<u32>
        ensures held { result ≡ map.get self.now.turns (before, after) }
        ensures sound { IsSound self.now }
    {
        self.turns.get(&(before, after)).copied()
    }

    /// The flight that follows one.
    pub fn next_after(&self, id: FlightId) -> Option<FlightId>
        ensures held { result ≡ map.get self.now.follows id }
        ensures sound { IsSound self.now }
    {
        self.follow_ons.after(id)
    }

    /// The flight that one follows.
    pub fn lead_of(&self, id: FlightId) -> Option<FlightId>
        ensures held { result ≡ map.get self.now.leads id }
        ensures sound { IsSound self.now }
    {
        self.follow_ons.before(id)
    }

    /// A flight as pairings see it: it leaves from the place of the flight that it follows, and
    /// arrives at a place of its own where another follows it.
    pub fn placed(&self, flight: &Flight) -> Flight
        ensures held { result ≡ Places.placed self.now flight.now }
        ensures sound { IsSound self.now }
    {
        Flight {
            from: self.lead_of(flight.id).map_or(flight.from, Code::own_place),
            to: if self.next_after(flight.id).is_some() {
                Code::own_place(flight.id)
            } else {
                flight.to
            },
            ..*flight
        }
    }

    /// How many flights are held.
    pub fn flight_count(&self) -> usize
        ensures held { result ≡ map.len self.now.flights }
        ensures sound { IsSound self.now }
    {
        self.flights.len()
    }

    /// How many bases are held.
    pub fn base_count(&self) -> usize
        ensures held { result ≡ map.len self.now.bases }
        ensures sound { IsSound self.now }
    {
        self.bases.len()
    }

    /// How many turns there are.
    pub fn turn_count(&self) -> usize
        ensures held { result ≡ map.len self.now.turns }
        ensures sound { IsSound self.now }
    {
        self.turns.len()
    }

    /// How many flights are followed.
    pub fn follow_count(&self) -> usize
        ensures held { result ≡ map.len self.now.follows }
        ensures sound { IsSound self.now }
    {
        self.follow_ons.len()
    }

    /// The flights, by number, each between its airports.
    pub fn flights(&self) -> Values<'_, FlightId, Flight>
        ensures held { result ≡ map.values self.now.flights }
        ensures runs { ShowsInOrder (deref {X = Flight}) }
        ensures sound { IsSound self.now }
    {
        self.flights.values()
    }

    /// The flight of a number as pairings see it.
    pub fn placed_flight(&self, id: FlightId) -> Option<Flight>
        ensures held { result ≡ Places.placed_flight self.now id }
        ensures sound { IsSound self.now }
    {
        let flight = self.flight(id)?;
        Some(self.placed(&flight))
    }

    /// The flights, by number, as pairings see them.
    pub fn placed_flights(&self, alloc: Global) -> Result<Vec<Flight>, AllocError>
        ensures held { IfOk result (λ flights. flights.items
            ≡ list_map (Places.placed self.now) (map.values self.now.flights)) }
        ensures sound { IsSound self.now }
    {
        self.flights()
            .map(|flight| self.placed(flight))
            .collect(alloc)
    }

    /// The bases with their prices, by code.
    pub fn bases(&self) -> Iter<'_, Code, i64>
        ensures held { result ≡ map.entries self.now.bases }
        ensures runs { ShowsInOrder (deref_pair {K = List ℕ} {X = ℤ}) }
        ensures sound { IsSound self.now }
    {
        self.bases.iter()
    }

    /// The turns in minutes, by the numbers of their flights.
    pub fn turns(&self) -> Iter<'_, (FlightId, FlightId), u32>
        ensures held { result ≡ map.entries self.now.turns }
        ensures runs { ShowsInOrder (deref_pair {K = ℕ × ℕ} {X = ℕ}) }
        ensures sound { IsSound self.now }
    {
        self.turns.iter()
    }

    /// The flights that are followed, by number, with those that follow them.
    pub fn follows(&self) -> Iter<'_, FlightId, FlightId>
        ensures held { result ≡ map.entries self.now.follows }
        ensures runs { ShowsInOrder (deref_pair {K = ℕ} {X = ℕ}) }
        ensures sound { IsSound self.now }
    {
        self.follow_ons.iter()
    }

    /// The same timetable again.
    pub fn copy(&self, alloc: Global) -> Result<Timetable, AllocError>
        ensures { IfOk result (λ copied. copied ≡ self.now) }
    {
        Ok(Timetable {
            flights: entries_again(alloc, &self.flights)?,
            bases: entries_again(alloc, &self.bases)?,
            turns: entries_again(alloc, &self.turns)?,
            follow_ons: self.follow_ons.copy(alloc)?,
        })
    }
}

// The same entries again.
pub(crate) fn entries_again<K: Copy + Ord, V: Copy>(
    alloc: Global,
    entries: &BTreeMap<K, V>,
) -> Result<BTreeMap<K, V>, AllocError>
    ensures { IfOk result (IsFromIterResult K.cmp entries.now.entries) }
{
    entries
        .iter()
        .map(|(key, value)| (*key, *value))
        .collect(alloc)
}

// Takes the turns before and after a flight out.
fn drop_turns(turns: &mut BTreeMap<(FlightId, FlightId), u32>, id: FlightId)
    ensures left { turns.new.entries ≡ filter (λ e. not (Spec.is_turn_of id e.0))
        turns.old.entries }
    ensures ordered { IsOrdered pair_cmp turns.new }
{
    turns.retain(|pair, _| !(pair.0 == id || pair.1 == id));
}

// A price of at most a billion points from zero.
fn price_fits(price: i64) -> bool
    ensures { result ≡ is_price price }
{
    (-1_000_000_000..=1_000_000_000).contains(&price)
}

// A flight of 1 to 1,440 minutes.
fn times_fit(dep: Minute, arr: Minute) -> bool
    ensures { result ≡ is_block dep arr }
{
    (1..=1_440).contains(&(arr.get() - dep.get()))
}

// A flight between airports.
fn joins_airports(flight: &Flight) -> bool
    ensures { result ≡ Spec.joins_airports flight.now }
{
    flight.from.is_airport() && flight.to.is_airport()
}

// Of two flights that are held, whether the second leaves where the first arrives, and no earlier.
fn connects(before: Option<Flight>, after: Option<Flight>) -> bool
    ensures { result ≡ Spec.connects before after }
{
    match (before, after) {
        (Some(before), Some(after)) => before.to == after.from && before.arr <= after.dep,
        _ => false,
    }
}

// The first refusal whose test holds.
fn first_refusal(tests: &[(bool, Refusal)]) -> Option<Refusal>
    ensures { result ≡ first_of tests.now }
{
    for &(applies, refusal) in tests {
        if applies {
            return Some(refusal);
        }
    }
    None
}

impl Timetable {
    ghost use Rattle.std.specs.Prelude.{None};
    ghost use Rattle.crew_flights.specs.Timetable.{IsSound};
    ghost use Rattle.crew_flights.specs.Edits.{refusal_of, changed, apply_of, with_base, with_flight, with_turn, with_follow, without_flight, without_follow, without_turn};

    /// Applies an edit: the verdict is `Accepted`, or the first refusal that applies, and then
    /// nothing changes. On want of memory nothing changes either.
    pub fn apply(&mut self, edit: &Edit) -> Result<Verdict, AllocError>
        ensures ok { IfOk result (λ verdict. (self.new, verdict) ≡ apply_of self.old edit.now) }
        ensures err { OnErr result (self.new ≡ self.old) }
    {
        if let Some(refusal) = self.refusal(edit) {
            return Ok(Verdict::Refused(refusal));
        }
        self.change(edit)?;
        Ok(Verdict::Accepted)
    }

    // The first refusal that applies.
    fn refusal(&self, edit: &Edit) -> Option<Refusal>
        ensures first { result ≡ refusal_of self.now edit.now }
        ensures sound { IsSound self.now }
    {
        match *edit {
            Edit::AddBase { code, price } => first_refusal(&[
                (self.base_price(code).is_some(), Refusal::BaseExists),
                (!price_fits(price), Refusal::PriceRange),
                (self.base_count() >= BASES, Refusal::TooManyBases),
                (!code.is_airport(), Refusal::NoAirport),
            ]),
            Edit::BasePrice { code, price } => first_refusal(&[
                (self.base_price(code).is_none(), Refusal::NoBase),
                (!price_fits(price), Refusal::PriceRange),
            ]),
            Edit::AddFlight(flight) => first_refusal(&[
                (self.flight(flight.id).is_some(), Refusal::FlightExists),
                (!times_fit(flight.dep, flight.arr), Refusal::BadTimes),
                (flight.from == flight.to, Refusal::SameAirport),
                (!price_fits(flight.price), Refusal::PriceRange),
                (self.flight_count() >= FLIGHTS, Refusal::TooManyFlights),
                (!joins_airports(&flight), Refusal::NoAirport),
            ]),
            Edit::Cancel(id) => first_refusal(&[(self.flight(id).is_none(), Refusal::NoFlight)]),
            Edit::Retime {
                id,
                from,
                dep,
                arr,
                ..
            } => {
                let flight = self.flight(id);
                first_refusal(&[
                    (flight.is_none(), Refusal::NoFlight),
                    (!times_fit(dep, arr), Refusal::BadTimes),
                    (
                        flight.is_some_and(|held| held.from != from),
                        Refusal::WrongOrigin,
                    ),
                ])
            }
            Edit::Price { id, price } => first_refusal(&[
                (self.flight(id).is_none(), Refusal::NoFlight),
                (!price_fits(price), Refusal::PriceRange),
            ]),
            Edit::Turn {
                before,
                after,
                minutes,
            } => first_refusal(&[
                (!self.has_both(before, after), Refusal::NoFlight),
                (
                    !connects(self.flight(before), self.flight(after)),
                    Refusal::NoConnection,
                ),
                (minutes > MINUTES, Refusal::TurnRange),
                (
                    self.turn(before, after).is_none() && self.turn_count() >= TURNS,
                    Refusal::TooManyTurns,
                ),
            ]),
            Edit::TakeTurn { before, after } => first_refusal(&[
                (!self.has_both(before, after), Refusal::NoFlight),
                (self.turn(before, after).is_none(), Refusal::NoTurn),
            ]),
            Edit::Follow { before, after } => first_refusal(&[
                (!self.has_both(before, after), Refusal::NoFlight),
                (
                    !connects(self.flight(before), self.flight(after)),
                    Refusal::NoConnection,
                ),
                (self.is_taken(before, after), Refusal::Taken),
            ]),
            Edit::TakeFollow { before } => first_refusal(&[
                (self.flight(before).is_none(), Refusal::NoFlight),
                (self.next_after(before).is_none(), Refusal::NoFollowOn),
            ]),
        }
    }

    // Whether two flights are held.
    fn has_both(&self, before: FlightId, after: FlightId) -> bool
        ensures { result ≡ Spec.has_both self.now before after }
    {
        self.flight(before).is_some() && self.flight(after).is_some()
    }

    // Whether a flight is followed already, or another follows one already.
    fn is_taken(&self, before: FlightId, after: FlightId) -> bool
        ensures { result ≡ Spec.is_taken self.now before after }
    {
        self.next_after(before).is_some() || self.lead_of(after).is_some()
    }

    // Makes the change of an edit that no refusal meets.
    fn change(&mut self, edit: &Edit) -> Result<(), AllocError>
        requires met { refusal_of self.old edit.now ≡ None }
        requires sound { IsSound (changed self.old edit.now) }
        ensures ok { OnOk result (self.new ≡ changed self.old edit.now) }
        ensures err { OnErr result (self.new ≡ self.old) }
    {
        match *edit {
            Edit::AddBase { code, price } | Edit::BasePrice { code, price } => {
                self.put_base(code, price)
            }
            Edit::AddFlight(flight) => self.put_flight(flight.id, flight),
            Edit::Cancel(id) => {
                self.remove_flight(id);
                Ok(())
            }
            Edit::Retime {
                id,
                dep,
                arr,
                report_clock,
                ..
            } => match self.flight(id) {
                Some(flight) => self.put_flight(
                    id,
                    Flight {
                        dep,
                        arr,
                        report_clock,
                        ..flight
                    },
                ),
                None => Ok(()),
            },
            Edit::Price { id, price } => match self.flight(id) {
                Some(flight) => self.put_flight(id, Flight { price, ..flight }),
                None => Ok(()),
            },
            Edit::Turn {
                before,
                after,
                minutes,
            } => self.put_turn(before, after, minutes),
            Edit::TakeTurn { before, after } => {
                self.remove_turn(before, after);
                Ok(())
            }
            Edit::Follow { before, after } => self.put_follow(before, after),
            Edit::TakeFollow { before } => {
                self.remove_follow(before);
                Ok(())
            }
        }
    }

    fn put_base(&mut self, code: Code, price: i64) -> Result<(), AllocError>
        requires { IsSound (with_base self.old code price) }
        ensures ok { OnOk result (self.new ≡ with_base self.old code price) }
        ensures err { OnErr result (self.new ≡ self.old) }
    {
        self.bases.insert(code, price)?;
        Ok(())
    }

    fn put_flight(&mut self, id: FlightId, flight: Flight) -> Result<(), AllocError>
        requires { IsSound (with_flight self.old id flight) }
        ensures ok { OnOk result (self.new ≡ with_flight self.old id flight) }
        ensures err { OnErr result (self.new ≡ self.old) }
    {
        self.flights.insert(id, flight)?;
        Ok(())
    }

    fn remove_flight(&mut self, id: FlightId)
        requires { IsSound (without_flight self.old id) }
        ensures { self.new ≡ without_flight self.old id }
    {
        self.flights.remove(&id);
        drop_turns(&mut self.turns, id);
        self.follow_ons.remove(id);
    }

    fn put_turn(
        &mut self,
        before: FlightId,
        after: FlightId,
        minutes: u32,
    ) -> Result<(), AllocError>
        requires { IsSound (with_turn self.old before after minutes) }
        ensures ok { OnOk result (self.new ≡ with_turn self.old before after minutes) }
        ensures err { OnErr result (self.new ≡ self.old) }
    {
        self.turns.insert((before, after), minutes)?;
        Ok(())
    }

    fn remove_turn(&mut self, before: FlightId, after: FlightId)
        requires { IsSound (without_turn self.old before after) }
        ensures { self.new ≡ without_turn self.old before after }
    {
        self.turns.remove(&(before, after));
    }

    fn put_follow(&mut self, before: FlightId, after: FlightId) -> Result<(), AllocError>
        requires free { map.get self.old.follows before ≡ None }
        requires sound { IsSound (with_follow self.old before after) }
        ensures ok { OnOk result (self.new ≡ with_follow self.old before after) }
        ensures err { OnErr result (self.new ≡ self.old) }
    {
        self.follow_ons.link(before, after)?;
        Ok(())
    }

    fn remove_follow(&mut self, before: FlightId)
        requires { IsSound (without_follow self.old before) }
        ensures { self.new ≡ without_follow self.old before }
    {
        self.follow_ons.unlink(before);
    }
}
