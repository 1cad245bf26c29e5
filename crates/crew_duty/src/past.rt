//! The duties of an earlier timetable, of which those are kept that can't have changed.
//!
//! The legs of a duty depart from its first departure on, and no later than its report and the most
//! that Table B allows: where no flight that has come, gone or changed departs in that time, and none
//! whose turns to next legs have changed, the duties that begin with the flight are those of before. By time alone: a test by what can be
//! reached would keep more, and cost more than listing does, which is a few hundredths of a settle.

ghost use Rattle.std.specs.Prelude.{◌≡◌, ◌≤◌, ◌<◌, ◌≤ℤ◌, ℕ, pos, List, IfOk, IfSome, IsTrue, get_or, length};
ghost use Rattle.crew_flights.specs.Timetable.{Turns};
ghost use Rattle.crew_pairing.specs.Flights.{Flights};
ghost use Rattle.crew_pairing.specs.declared.duty.Duty.{Duty};
ghost use Rattle.crew_resource.specs.Members.{Member};
ghost use Rattle.crew_rules.specs.Settings.{IsChecked};
ghost use Rattle.crew_duty.specs.Machinery.Held.{over};
ghost use Rattle.crew_duty.specs.Machinery.Kept.{AreKept, ClimbByFirst, IsKept, IsPast, IsStart, first_of, reach_of};

use crate::changes::are_apart;
use crew_flights::Flight;
use crew_pairing::{Duties, Duty};
use crew_rules::{Settings, table_b};
use std::alloc::{AllocError, Global};

// So many duties are looked through for the end of a block before all are.
const NEAR: usize = 64;

/// Where the duties of a flight stand among others.
#[derive(Clone, Copy)]
pub(crate) struct Block {
    /// The place of the first.
    pub(crate) from: usize,
    /// The place after the last.
    pub(crate) to: usize,
}

/// The duties of an earlier timetable, by key, and when flights depart that have come, gone or
/// changed since, or their turns to next legs, in order.
#[derive(Drop)]
pub(crate) struct Past<'a> {
    pub(crate) duties: &'a Duties,
    pub(crate) minutes: &'a [i64],
}

// The number of the flight that a duty begins with.
fn first_number(duty: &Duty) -> u32
    ensures { result ≡ first_of duty.now.key }
{
    match duty.key.legs().first() {
        Some(leg) => leg.flight().get(),
        None => 0,
    }
}

// Whether each duty before a place begins with a lesser number.
fn are_lesser_before(duties: &Duties, place: usize, number: u32) -> bool
    requires { ClimbByFirst duties.now }
    ensures { IsTrue result → ((k : ℕ) (d : Duty) → k < place
        → first_of (get_or duties.now k d).key < number) }
{
    place == 0 || (place <= duties.len() && first_number(duties.at(place - 1)) < number)
}

// Whether no duty from a place on begins with a lesser number.
fn is_none_lesser_from(duties: &Duties, place: usize, number: u32) -> bool
    requires { ClimbByFirst duties.now }
    ensures { IsTrue result → ((k : ℕ) (d : Duty) → place ≤ k → k < length duties.now
        → number ≤ first_of (get_or duties.now k d).key) }
{
    place >= duties.len() || number <= first_number(duties.at(place))
}

// A place from which on no duty begins with a lesser number: often this one, or one soon after it.
fn end_near(duties: &Duties, from: usize, number: u32) -> usize
    requires climb { ClimbByFirst duties.now }
    requires from { from ≤ length duties.now }
    ensures least { from ≤ result }
    ensures most { result ≤ length duties.now }
    ensures after { (k : ℕ) (d : Duty) → result ≤ k → k < length duties.now
        → number ≤ first_of (get_or duties.now k d).key }
{
    if is_none_lesser_from(duties, from, number) {
        return from;
    }
    if duties.len() - from <= NEAR {
        return duties.len();
    }
    let near = from + NEAR;
    if is_none_lesser_from(duties, near, number) {
        return near;
    }
    duties.len()
}

// This place, where the duties before it begin with lesser numbers, and else the first of all.
fn begin_at(duties: &Duties, guess: usize, number: u32) -> usize
    requires climb { ClimbByFirst duties.now }
    ensures most { result ≤ length duties.now }
    ensures before { (k : ℕ) (d : Duty) → k < result
        → first_of (get_or duties.now k d).key < number }
{
    if guess <= duties.len() {
        let lesser = are_lesser_before(duties, guess, number);
        if lesser {
            return guess;
        }
    }
    0
}

// The first place of a duty that begins with no lesser number, looked for from a place on.
fn start_of(duties: &Duties, guess: usize, number: u32) -> usize
    requires { ClimbByFirst duties.now }
    ensures { IsStart duties.now number result }
{
    let from = begin_at(duties, guess, number);
    let to = end_near(duties, from, number);
    let mut low = from;
    let mut high = to;
    while low < high {
        let middle = low + (high - low) / 2;
        if first_number(duties.at(middle)) < number {
            low = middle + 1;
        } else {
            high = middle;
        }
    }
    low
}

// The latest departure of a leg of a duty that begins with a flight.
fn reach(settings: &Settings, flight: &Flight) -> i64
    requires { IsChecked settings.now }
    ensures value { result ≡ reach_of settings.now flight.now }
    ensures least { pos 0 ≤ℤ result }
    ensures most { result ≤ℤ pos 100_000_000 }
{
    let most = table_b(flight.report_clock, 1);
    flight.dep.get() - i64::from(settings.lead) + i64::from(most)
}

impl Past<'_> {
    // Where the duties that begin with a flight stand, where they are those of before. They are
    // looked for from a place on.
    fn kept(&self, settings: &Settings, flight: &Flight, guess: usize) -> Option<Block>
        requires checked { IsChecked settings.now }
        requires past { (flights : Flights) × IsPast settings.now flights
            self.now.duties.now self.now.minutes.now }
        ensures { IfSome result (λ block. (flights : Flights)
            → IsPast settings.now flights self.now.duties.now self.now.minutes.now
            → Member flights.list flight.now
            → IsKept settings.now flights self.now.duties.now flight.now block) }
    {
        let apart = are_apart(self.minutes, flight.dep.get(), reach(settings, flight));
        if !apart {
            return None;
        }
        let number = flight.id.get();
        let from = start_of(self.duties, guess, number);
        let to = start_of(self.duties, from, number + 1);
        Some(Block { from, to })
    }

    /// Where the duties of each flight stand, where they are those of before.
    pub(crate) fn blocks(
        &self,
        alloc: Global,
        settings: &Settings,
        flights: &[Flight],
    ) -> Result<Vec<Option<Block>>, AllocError>
        requires checked { IsChecked settings.now }
        requires past { (turns : Turns) × IsPast settings.now (over flights.now turns)
            self.now.duties.now self.now.minutes.now }
        ensures { IfOk result (λ blocks. (turns : Turns) → IsPast settings.now
            (over flights.now turns) self.now.duties.now self.now.minutes.now → AreKept
            settings.now (over flights.now turns) self.now.duties.now flights.now blocks.items) }
    {
        let mut blocks = Vec::with_capacity(alloc, flights.len())?;
        let mut guess = 0;
        for flight in flights {
            let block = self.kept(settings, flight, guess);
            guess = block.map_or(guess, |block| block.to);
            blocks.push(block)?;
        }
        Ok(blocks)
    }
}
