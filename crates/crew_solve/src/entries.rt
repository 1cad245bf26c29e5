//! Where the node of a base and a duty stands.
ghost use Rattle.std.specs.Prelude.{◌≡◌, ◌<◌, ◌≤◌, ℕ, IfSome, None, get_or, length, map, slice_get, true};
ghost use Rattle.std.specs.Arc.{arc_value};
ghost use Rattle.crew_net.specs.Events.{AreEvents, departure_cmp, leaves_at};
ghost use Rattle.crew_net.specs.Nets.{AreByReport};
ghost use Rattle.crew_pairing.specs.Events.{departure_of};
ghost use Rattle.crew_resource.specs.Members.{Member};
ghost use Rattle.crew_solve.specs.Machinery.Early.{is_early};
ghost use Rattle.crew_solve.specs.Machinery.Solved.{IsSweepOf};
ghost use Rattle.crew_net.specs.Machinery.Numbered.{departure_place};
ghost use Rattle.crew_sweep.specs.Sweeps.{BaseSweep};
ghost use Rattle.crew_net.specs.Positions.{in_order};

use crate::base_fronts::BaseFronts;
use crew_flights::Code;
use crew_net::Net;
use crew_pairing::{Departure, Duty};
use std::alloc::Global;
use std::sync::Arc;

// Whether a duty leaves at a departure.
fn is_left_by(departure: &Departure, duty: &Duty) -> bool
    ensures { result ≡ leaves_at departure.now duty.now }
{
    departure.airport == duty.from && departure.report == i64::from(duty.report)
}

// Whether the departure at a place reports before an instant; where there is none it doesn't.
fn reports_before(departures: &[Departure], place: u32, instant: i64) -> bool
    ensures { result ≡ is_early instant (slice_get departures.now place) }
{
    match departures.get(place as usize) {
        Some(departure) => departure.report < instant,
        None => false,
    }
}

// How many departures report before an instant, by their places in order of report.
fn early_count(departures: &[Departure], places: &[u32], instant: i64) -> usize
    requires { AreByReport departures.now places.now }
    ensures within { result ≤ length places.now }
    ensures early { (k : ℕ) → k < result
        → is_early instant (slice_get departures.now (get_or places.now k 0)) ≡ true }
{
    places.partition_point(|place| reports_before(departures, *place, instant))
}

/// The place of a duty's departure in order of report.
pub(crate) fn place_of(net: &Net, duty: &Duty) -> usize
    ensures events { AreEvents departure_of departure_cmp net.now.duties net.now.departures }
    ensures order { AreByReport net.now.departures net.now.by_report }
    ensures place { result ≡ departure_place (in_order net.now) (departure_of duty.now) }
{
    let places = net.by_report();
    let departures = net.departures();
    let first = early_count(departures, places, i64::from(duty.report));
    for index in first..places.len() {
        if is_left_by(&departures[places[index] as usize], duty) {
            return index;
        }
    }
    places.len()
}

/// The fronts of a base.
pub(crate) fn fronts_of(
    fronts: &[Arc<BaseFronts, Global>],
    base: Code,
) -> Option<&Arc<BaseFronts, Global>>
    ensures found { IfSome result
        (λ found. IsSweepOf (map arc_value fronts.now) base (arc_value found.now)) }
    ensures none { result ≡ None
        → (b : BaseSweep) → Member (map arc_value fronts.now) b → b.base ≡ base → ⊥ }
{
    for found in fronts {
        if found.base() == base {
            return Some(found);
        }
    }
    None
}
