//! Whether all that may stand just before a node has the front of the version before the round.
ghost use Rattle.std.specs.Prelude.{◌≡◌, ◌↔◌, ◌+◌, ◌<◌, ◌≤◌, ℕ, IfSome, IsTrue, Some, false, get_or, length, slice_get, true};
ghost use Rattle.crew_board.specs.Machinery.Turns.{AllSameBefore, AreSameIfBefore};
ghost use Rattle.crew_pairing.specs.Events.{departure_of, may_wait};
ghost use Rattle.crew_pairing.specs.declared.events.Arrival.{Arrival};
ghost use Rattle.crew_resource.specs.Members.{Member};

use crew_flights::Code;
use crew_job::may_follow;
use crew_net::{Net, Window};
use crew_pairing::{Departure, Duty};
use crew_resource::Placed;
use crew_round::Marks;

// Whether the nodes of some ranks of a base have the front of the version before the round. The nodes
// of the base stand from a place on.
fn are_same(marks: &Marks, ranks: &[u32], first: usize) -> bool
    requires { (rank : ℕ) → Member ranks.now rank
        → first + rank ≤ 18_446_744_073_709_551_615 }
    ensures { IsTrue result ↔ ((rank : ℕ) → Member ranks.now rank
        → get_or marks.now.same (first + rank) false ≡ true) }
{
    for rank in ranks {
        if !marks.is_same(first + *rank as usize) {
            return false;
        }
    }
    true
}

// Whether the nodes that come in at an arrival have the front of the version before the round, if they
// may stand just before a duty. The nodes of their base stand from a place on.
fn are_same_if_before(marks: &Marks, net: &Net, duty: &Duty, first: usize, arrival: usize) -> bool
    requires arrival { arrival < length net.now.arrivals }
    requires first { first + length net.now.duties ≤ 18_446_744_073_709_551_615 }
    ensures { IsTrue result ↔ AreSameIfBefore marks.now.same net.now duty.now first arrival }
{
    let there = net.arrivals()[arrival].airport == duty.from;
    if !there {
        return true;
    }
    let ranks = net.arriving(arrival);
    if ranks.is_empty() {
        return true;
    }
    let before = net.duty(ranks[0] as usize);
    let may = may_follow(net.settings(), before, duty);
    if !may {
        return true;
    }
    are_same(marks, ranks, first)
}

// Whether a departure is before another, by airport and report.
fn is_earlier(one: &Departure, other: &Departure) -> bool {
    let order = one.airport.cmp(&other.airport);
    order.then(one.report.cmp(&other.report)).is_lt()
}

// Whether two codes are one.
fn is_same_code(one: Code, other: Code) -> bool
    ensures { IsTrue result ↔ (one ≡ other) }
{
    one == other
}

// Whether two departures are one.
fn is_same_departure(one: &Departure, other: &Departure) -> bool
    ensures { IsTrue result → one.now ≡ other.now }
{
    if !is_same_code(one.airport, other.airport) {
        return false;
    }
    one.report == other.report
}

// The place of the departure that a duty leaves at, where it is found: departures stand by airport and
// report.
fn departure_place(net: &Net, duty: &Duty) -> Option<usize>
    ensures { IfSome result (λ place. slice_get net.now.departures place
        ≡ Some (departure_of duty.now)) }
{
    let departure = duty.departure();
    let departures = net.departures();
    let place = departures.partition_point(|other| is_earlier(other, &departure));
    if place >= departures.len() {
        return None;
    }
    if is_same_departure(&departures[place], &departure) {
        Some(place)
    } else {
        None
    }
}

// Arrivals among which all are after which a crew may report for a duty: the window of its departure,
// or all there are.
fn arrivals_before(net: &Net, duty: &Duty) -> Window
    ensures within { result.end ≤ length net.now.arrivals }
    ensures all { (arrival : ℕ) (x : Arrival) → slice_get net.now.arrivals arrival ≡ Some x
        → may_wait net.now.settings x (departure_of duty.now) ≡ true
        → (result.from ≤ arrival) × (arrival < result.end) }
{
    match departure_place(net, duty) {
        Some(place) => net.window(place),
        None => Window {
            from: 0,
            end: net.arrivals().len(),
        },
    }
}

/// Whether each node of a base that may stand just before a duty has the front of the version before
/// the round: arrival by arrival, since what comes in at one may stand before the same. The nodes of
/// the base stand from a place on.
pub(crate) fn are_same_before(marks: &Marks, net: &Net, duty: &Duty, first: usize) -> bool
    requires { first + length net.now.duties ≤ 18_446_744_073_709_551_615 }
    ensures { IsTrue result ↔ AllSameBefore marks.now.same net.now duty.now first }
{
    let _arrivals = net.arrivals();
    let window = arrivals_before(net, duty);
    for arrival in window.from..window.end {
        if !are_same_if_before(marks, net, duty, first, arrival) {
            return false;
        }
    }
    true
}
