//! Which duties and events of a network are which of an earlier one.
//!
//! A duty is found by its number, which stays from one network to the next, and is then held against
//! the other as a whole. Events stand in order of airport and time in both networks, so those of one
//! kind are gone along side by side. All takes as long as the lists are. No clause says that all twins
//! are found, only that those that are found are twins.
ghost use Rattle.std.specs.Prelude.{◌≡◌, ◌↔◌, ◌≤◌, ◌<◌, ◌⊎◌, ℕ, true, IfOk, IsTrue, Some, get_or, length, slice_get};
ghost use Rattle.std.specs.Arc.{arc_value};
ghost use Rattle.std.specs.declared.cmp.Ordering.TheVariants.{Equal};
ghost use Rattle.crew_net.specs.Positions.{ArePositions, in_order};
ghost use Rattle.crew_pairing.specs.declared.duty.Duty.{Duty};
ghost use Rattle.crew_pairing.specs.declared.events.Departure.{Departure};
ghost use Rattle.crew_pass.specs.Machinery.Terms.{ArePlaces};
ghost use Rattle.crew_pass.specs.Machinery.Twins.{AreFed, AreFedAt, ArePaired, AreTwinsByNumber, AreTwins, AreTwinsIn, IsTwin};
ghost use Rattle.crew_resource.specs.Members.{Member};

use crate::course::chart;
use crate::places::Places;
use crew_flights::Code;
use crew_net::Net;
use crew_pairing::{Arrival, Departure, Duty};
use std::alloc::{AllocError, Global};
use std::cmp::Ordering;

// Where there is no twin.
const NONE: u32 = 4_294_967_295;

/// For each duty and event of a network which one of an earlier network it is: 4,294,967,295 where it
/// is none.
#[derive(Drop)]
pub(crate) struct Twins {
    /// By rank, the rank there.
    pub(crate) duties: Vec<u32>,
    /// By place, the place there.
    pub(crate) arrivals: Vec<u32>,
    /// By place, whether the same duties arrive there.
    pub(crate) fed: Vec<bool>,
    /// By position in order of report, the position there.
    pub(crate) departures: Vec<u32>,
}

// Whether two airports are one.
fn is_same_airport(a: Code, b: Code) -> bool
    ensures { IsTrue result ↔ (a ≡ b) }
{
    a == b
}

// Whether the legs and the airports of two duties are the same.
fn is_same_route(a: &Duty, b: &Duty) -> bool
    ensures { IsTrue result ↔ ((a.now.key ≡ b.now.key) × (a.now.from ≡ b.now.from)
        × (a.now.to ≡ b.now.to)) }
{
    (a.key == b.key) & (is_same_airport(a.from, b.from) & is_same_airport(a.to, b.to))
}

// Whether their times, minutes, pay and price are.
fn is_same_work(a: &Duty, b: &Duty) -> bool
    ensures { IsTrue result ↔ ((a.now.report ≡ b.now.report) × (a.now.release ≡ b.now.release)
        × (a.now.fdp ≡ b.now.fdp) × (a.now.fly ≡ b.now.fly) × (a.now.pay ≡ b.now.pay)
        × (a.now.price ≡ b.now.price)) }
{
    (a.report == b.report)
        & (a.release == b.release)
        & (a.fdp == b.fdp)
        & (a.fly == b.fly)
        & (a.pay == b.pay)
        & (a.price == b.price)
}

// Whether two duties are the same, with all their facts.
fn is_same_duty(a: &Duty, b: &Duty) -> bool
    ensures { IsTrue result ↔ (a.now ≡ b.now) }
{
    is_same_route(a, b) && is_same_work(a, b)
}

// The rank that the number of a duty tells.
fn told_rank(numbers: &[u32], ranks: &[u32], rank: usize) -> u32
    requires { rank < length numbers.now }
    ensures { (result ≡ 4_294_967_295)
        ⊎ (slice_get ranks.now (get_or numbers.now rank 0) ≡ Some result) }
{
    match ranks.get(numbers[rank] as usize) {
        Some(other) => *other,
        None => NONE,
    }
}

// The twin of the duty of a rank, where it is the one of another rank.
fn duty_twin(net: &Net, earlier: &Net, rank: usize, other: u32) -> u32
    requires { rank < length net.now.duties }
    ensures twin { IsTwin net.now.duties earlier.now.duties rank result }
    ensures there { (result ≡ 4_294_967_295) ⊎ (result ≡ other) }
{
    let there = other as usize;
    if there < earlier.duty_count() {
        let same = is_same_duty(net.duty(rank), earlier.duty(there));
        if same {
            return other;
        }
    }
    NONE
}

// The twins of duties, by rank.
fn duty_twins(
    alloc: Global,
    net: &Net,
    earlier: &Net,
    numbers: &[u32],
    ranks: &[u32],
) -> Result<Vec<u32>, AllocError>
    requires { length numbers.now ≡ length net.now.duties }
    ensures long { IfOk result (λ twins. length twins.items ≡ length net.now.duties) }
    ensures twins { IfOk result (λ twins. AreTwinsByNumber net.now.duties earlier.now.duties
        numbers.now ranks.now twins.items) }
{
    let mut twins = Vec::with_capacity(alloc, numbers.len())?;
    for rank in 0..numbers.len() {
        let other = told_rank(numbers, ranks, rank);
        twins.push(duty_twin(net, earlier, rank, other))?;
    }
    Ok(twins)
}

// An event, which stands among others of its kind by airport and time.
trait Event {
    // How it stands to another.
    fn order(&self, other: &Self) -> Ordering
        ensures { result ≡ Equal → self.now ≡ other.now };
}

impl Event for Arrival {
    fn order(&self, other: &Arrival) -> Ordering {
        let airport = self.airport.cmp(&other.airport);
        airport.then(self.release.cmp(&other.release))
    }
}

impl Event for Departure {
    fn order(&self, other: &Departure) -> Ordering {
        let airport = self.airport.cmp(&other.airport);
        airport.then(self.report.cmp(&other.report))
    }
}

// The first place from one on at which no lesser event stands.
fn place_from<E: Event>(others: &[E], event: &E, from: usize) -> usize {
    for place in from..others.len() {
        if others[place].order(event) != Ordering::Less {
            return place;
        }
    }
    others.len()
}

// The place of an event, where it stands there.
fn event_twin<E: Event>(others: &[E], event: &E, place: usize) -> u32
    requires { length others.now ≤ 200_000 }
    ensures { (result ≡ 4_294_967_295) ⊎ (slice_get others.now result ≡ Some event.now) }
{
    if place < others.len() {
        if others[place].order(event) == Ordering::Equal {
            return place as u32;
        }
    }
    NONE
}

// The twins of events of one kind, by place.
fn event_twins<E: Event>(alloc: Global, events: &[E], others: &[E]) -> Result<Vec<u32>, AllocError>
    requires { length others.now ≤ 200_000 }
    ensures long { IfOk result (λ twins. length twins.items ≡ length events.now) }
    ensures twins { IfOk result (λ twins. AreTwinsIn events.now others.now twins.items) }
{
    let mut twins = Vec::with_capacity(alloc, events.len())?;
    let mut near = 0;
    for event in events {
        near = place_from(others, event, near);
        twins.push(event_twin(others, event, near))?;
    }
    Ok(twins)
}

// Whether the duties of some ranks have these twins, one by one.
fn are_paired(duties: &[u32], ranks: &[u32], others: &[u32]) -> bool
    requires { (rank : ℕ) → Member ranks.now rank → rank < length duties.now }
    ensures { IsTrue result → ArePaired duties.now ranks.now others.now }
{
    if ranks.len() != others.len() {
        return false;
    }
    for k in 0..ranks.len() {
        if duties[ranks[k] as usize] != others[k] {
            return false;
        }
    }
    true
}

// Whether the same duties arrive at a place and at its twin.
fn is_fed(net: &Net, earlier: &Net, duties: &[u32], place: usize, other: u32) -> bool
    requires place { place < length net.now.arrivals }
    requires long { length duties.now ≡ length net.now.duties }
    requires twin { IsTwin net.now.arrivals earlier.now.arrivals place other }
    ensures { IsTrue result → AreFed net.now earlier.now duties.now place other }
{
    if other == NONE {
        return false;
    }
    are_paired(
        duties,
        net.arriving(place),
        earlier.arriving(other as usize),
    )
}

// Whether the same duties arrive at the twins of arrivals, by place.
fn fed_arrivals(
    alloc: Global,
    net: &Net,
    earlier: &Net,
    duties: &[u32],
    arrivals: &[u32],
) -> Result<Vec<bool>, AllocError>
    requires long { length duties.now ≡ length net.now.duties }
    requires arrivals_long { length arrivals.now ≡ length net.now.arrivals }
    requires twins { AreTwinsIn net.now.arrivals earlier.now.arrivals arrivals.now }
    ensures long { IfOk result (λ fed. length fed.items ≡ length net.now.arrivals) }
    ensures fed { IfOk result (λ fed. AreFedAt net.now earlier.now duties.now arrivals.now
        fed.items) }
{
    let mut fed = Vec::with_capacity(alloc, arrivals.len())?;
    for place in 0..arrivals.len() {
        fed.push(is_fed(net, earlier, duties, place, arrivals[place]))?;
    }
    Ok(fed)
}

// The position of the departure at a place: that of the first duty that leaves there.
fn position_at(net: &Net, positions: &[u32], place: u32) -> u32
    requires { ArePositions net.now positions.now }
    ensures few { length net.now.departures ≤ 200_000 }
    ensures position { (result ≡ 4_294_967_295) ⊎ ((g : Departure)
        × (slice_get net.now.departures place ≡ Some g)
        × (slice_get (in_order net.now) result ≡ Some g)) }
{
    if place as usize >= net.departures().len() {
        return NONE;
    }
    match net.leaving(place as usize).first() {
        Some(rank) => positions[*rank as usize],
        None => NONE,
    }
}

// The twins of departures by position, of those by place.
fn twins_in_order(
    alloc: Global,
    net: &Net,
    earlier: &Net,
    positions: &[u32],
    places: &[u32],
) -> Result<Vec<u32>, AllocError>
    requires positions { ArePositions earlier.now positions.now }
    requires long { length places.now ≡ length net.now.departures }
    requires twins { AreTwinsIn net.now.departures earlier.now.departures places.now }
    ensures long { IfOk result (λ twins. length twins.items ≡ length net.now.by_report) }
    ensures twins { IfOk result (λ twins. AreTwinsIn (in_order net.now) (in_order earlier.now)
        twins.items) }
{
    chart(net);
    let mut twins = Vec::with_capacity(alloc, net.by_report().len())?;
    for place in net.by_report() {
        twins.push(position_at(earlier, positions, places[*place as usize]))?;
    }
    Ok(twins)
}

// The twins of departures, by position in order of report.
fn departure_twins(
    alloc: Global,
    net: &Net,
    earlier: &Net,
    positions: &[u32],
) -> Result<Vec<u32>, AllocError>
    requires { ArePositions earlier.now positions.now }
    ensures long { IfOk result (λ twins. length twins.items ≡ length net.now.by_report) }
    ensures twins { IfOk result (λ twins. AreTwinsIn (in_order net.now) (in_order earlier.now)
        twins.items) }
{
    let places = event_twins(alloc, net.departures(), earlier.departures())?;
    twins_in_order(alloc, net, earlier, positions, &places)
}

/// The twins of a network's duties and events in an earlier network. Each duty and event that both
/// have has one.
pub(crate) fn between(
    alloc: Global,
    net: &Net,
    places: &Places,
    earlier: &Net,
    before: &Places,
) -> Result<Twins, AllocError>
    requires places { ArePlaces net.now places.now }
    requires before { ArePlaces earlier.now before.now }
    ensures { IfOk result (λ twins. AreTwins net.now earlier.now
        (arc_value places.now.numbers).items (arc_value before.now.numbers).items
        twins.duties.items twins.arrivals.items twins.fed.items twins.departures.items) }
{
    let duties = duty_twins(alloc, net, earlier, &places.numbers, &before.ranks)?;
    let arrivals = event_twins(alloc, net.arrivals(), earlier.arrivals())?;
    let fed = fed_arrivals(alloc, net, earlier, &duties, &arrivals)?;
    let departures = departure_twins(alloc, net, earlier, &before.positions)?;
    Ok(Twins {
        duties,
        arrivals,
        fed,
        departures,
    })
}
