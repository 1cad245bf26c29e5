//! The duties of an earlier timetable under new prices. What makes a list of legs a legal duty
//! reads no price, so where nothing else has changed the duties are those of before, in the same
//! order, each at its new price.

ghost use Rattle.std.specs.Prelude.{◌≡◌, ◌≤◌, ◌<◌, ◌≤ℤ◌, ℕ, List, IsTrue, IfOk, get_or, length, map, negsuc, pos};
ghost use Rattle.crew_flights.specs.Timetable.{Turns};
ghost use Rattle.crew_flights.specs.declared.flight.Flight.{Flight};
ghost use Rattle.crew_pairing.specs.Flights.{Flights};
ghost use Rattle.crew_rules.specs.declared.settings.Settings.{Settings};
ghost use Rattle.std.specs.Arc.{arc_value};
ghost use Rattle.crew_pairing.specs.Duties.{AreDutiesOver};
ghost use Rattle.crew_pairing.specs.Machinery.Blocks.{part_of};
ghost use Rattle.crew_pairing.specs.Legality.{total};
ghost use Rattle.crew_pairing.specs.Machinery.Beginnings.{AreFlights};
ghost use Rattle.crew_duty.specs.Machinery.Held.{over};
ghost use Rattle.crew_duty.specs.Machinery.Prices as Spec;
ghost use Rattle.crew_duty.specs.Machinery.Prices.{AreInLimits, AreSameButPrices, HaveFewLegs, HavePrices, at_price, under_prices};

use crate::search::DUTIES;
use crate::turns::HeldTurns;
use crew_flights::Flight;
use crew_pairing::{Duties, Duty, Leg};
use std::alloc::{AllocError, Global};
use std::sync::Arc;

// Whether two flights are the same but for their prices.
fn is_same_but_price(flight: &Flight, before: &Flight) -> bool
    ensures { IsTrue result → flight.now ≡ at_price flight.now.price before.now }
{
    let again = Flight {
        price: flight.price,
        ..*before
    };
    again == *flight
}

// Whether two lists have the same flights, one by one, but for their prices, and the same turns.
fn are_same_but_prices(
    flights: &[Flight],
    turns: &HeldTurns,
    before: &[Flight],
    earlier: &HeldTurns,
) -> bool
    ensures { IsTrue result → AreSameButPrices (over flights.now turns.now)
        (over before.now earlier.now) }
{
    if flights.len() != before.len() {
        return false;
    }
    if !turns.are(earlier) {
        return false;
    }
    for place in 0..flights.len() {
        if !is_same_but_price(&flights[place], &before[place]) {
            return false;
        }
    }
    true
}

/// Whether flights are those of before, one by one, but for their prices, with the same turns, and
/// the duties of before are no more than may be listed.
pub(crate) fn can_reprice(
    duties: &Duties,
    flights: &[Flight],
    turns: &HeldTurns,
    before: &[Flight],
    earlier: &HeldTurns,
) -> bool
    ensures same { IsTrue result → AreSameButPrices (over flights.now turns.now)
        (over before.now earlier.now) }
    ensures few { IsTrue result → length duties.now ≤ 200_000 }
{
    duties.len() <= DUTIES && are_same_but_prices(flights, turns, before, earlier)
}

// How many numbers there are up to that of the last flight, with 0.
fn numbers_of(flights: &[Flight]) -> usize
    requires { (turns : Turns) × AreFlights (over flights.now turns) }
    ensures { (i : ℕ) (d : Flight) → i < length flights.now
        → (get_or flights.now i d).id < result }
{
    match flights.last() {
        Some(last) => last.id.get() as usize + 1,
        None => 0,
    }
}

// The prices of flights by their numbers, so that a leg's price is found at once.
fn prices_by_number(alloc: Global, flights: &[Flight]) -> Result<Vec<i64>, AllocError>
    requires { (turns : Turns) × AreFlights (over flights.now turns) }
    ensures held { IfOk result (λ prices. HavePrices prices.items flights.now) }
    ensures limits { IfOk result (λ prices. AreInLimits prices.items) }
{
    let mut prices = vec![in alloc; 0i64; numbers_of(flights)]?;
    for flight in flights {
        prices[flight.id.get() as usize] = flight.price;
    }
    Ok(prices)
}

// The price of a leg, if the crew flies it.
#[inline(always)]
fn leg_price(prices: &[i64], leg: Leg) -> i64
    requires { AreInLimits prices.now }
    ensures value { result ≡ Spec.leg_price prices.now leg }
    ensures bound { (negsuc 999_999_999 ≤ℤ result) × (result ≤ℤ pos 1_000_000_000) }
{
    if leg.is_deadhead() {
        return 0;
    }
    match prices.get(leg.flight().get() as usize) {
        Some(price) => *price,
        None => 0,
    }
}

// The prices of the legs that the crew flies.
#[inline(always)]
fn price_of(prices: &[i64], legs: &[Leg]) -> i64
    requires limits { AreInLimits prices.now }
    requires few { length legs.now ≤ 8 }
    ensures { result ≡ total (Spec.leg_price prices.now) legs.now }
{
    let mut sum = 0;
    for leg in legs {
        sum += leg_price(prices, *leg);
    }
    sum
}

// A duty under these prices.
#[inline(always)]
fn duty_under(prices: &[i64], duty: &Duty) -> Duty
    requires limits { AreInLimits prices.now }
    requires few { length duty.now.key ≤ 8 }
    ensures { result ≡ under_prices prices.now duty.now }
{
    Duty {
        key: duty.key.copy(),
        price: price_of(prices, duty.key.legs()),
        ..*duty
    }
}

// Whether the duties between two places have the prices that they have under these.
fn keep_prices(prices: &[i64], duties: &Duties, from: usize, to: usize) -> bool
    requires limits { AreInLimits prices.now }
    requires few { HaveFewLegs duties.now }
    requires within { to ≤ length duties.now }
    ensures { IsTrue result → map (under_prices prices.now) (part_of duties.now from to)
        ≡ part_of duties.now from to }
{
    for place in from..to {
        let duty = duties.at(place);
        if price_of(prices, duty.key.legs()) != duty.price {
            return false;
        }
    }
    true
}

// The duties between two places under these prices, as a block, which stays where their prices do.
fn part_under(
    alloc: Global,
    prices: &[i64],
    duties: &Duties,
    from: usize,
    to: usize,
) -> Result<Arc<Vec<Duty>, Global>, AllocError>
    requires limits { AreInLimits prices.now }
    requires few { HaveFewLegs duties.now }
    requires ordered { from ≤ to }
    requires within { to ≤ length duties.now }
    ensures { IfOk result (λ block. (arc_value block).items
        ≡ map (under_prices prices.now) (part_of duties.now from to)) }
{
    if keep_prices(prices, duties, from, to) {
        return duties.part(alloc, from, to);
    }
    let mut list = Vec::with_capacity(alloc, to - from)?;
    for place in from..to {
        list.push(duty_under(prices, duties.at(place)))?;
    }
    Ok(Arc::new(alloc, list)?)
}

/// Duties under the prices of these flights: where these were all legal ones over flights that are
/// the same but for their prices, they are all over these.
pub(crate) fn list_priced(
    alloc: Global,
    flights: &[Flight],
    duties: &Duties,
) -> Result<Duties, AllocError>
    requires flights { (turns : Turns) × AreFlights (over flights.now turns) }
    requires few { HaveFewLegs duties.now }
    requires room { length duties.now ≤ 200_000 }
    ensures listed { IfOk result (λ list. (s : Settings) (turns : Turns) (before : Flights)
        → AreSameButPrices (over flights.now turns) before → AreDutiesOver s before duties.now
        → AreDutiesOver s (over flights.now turns) list) }
    ensures count { IfOk result (λ list. length list ≡ length duties.now) }
{
    let prices = prices_by_number(alloc, flights)?;
    let mut list = Duties::new(alloc);
    list.reserve(flights.len(), duties.len())?;
    let mut from = 0;
    while from < duties.len() {
        let to = duties.block_end(from);
        list.push(part_under(alloc, &prices, duties, from, to)?)?;
        from = to;
    }
    Ok(list)
}
