//! The events of duties.

ghost use Rattle.std.specs.Prelude.{◌≡◌, ◌↔◌, ◌<◌, ◌≤◌, ◌-◌, ℕ, ℤ, true, List, IfOk, IsTrue, length, map, get_or};
ghost use Rattle.crew_net.specs.Machinery.Held as Spec;
ghost use Rattle.crew_net.specs.Machinery.Held.{AreAt, HaveSameEvents};
ghost use Rattle.crew_net.specs.Machinery.Made.{AreEventsOf};
ghost use Rattle.crew_net.specs.Machinery.Moments.{AreKeys, IsBounded, IsReal};
ghost use Rattle.crew_net.specs.Machinery.Timelines.{IsTimeline};
ghost use Rattle.crew_net.specs.Nets.{AreByReport};
ghost use Rattle.crew_pairing.specs.Events.{arrival_of, departure_of};
ghost use Rattle.crew_pairing.specs.declared.duty.Duty.{Duty};
ghost use Rattle.crew_resource.specs.Members.{Each};

use crate::runs::gathered;
use crate::timeline::{Timeline, moment, places_of, slot_key};
use crew_pairing::{Arrival, Departure, Duties, Duty};
use crew_resource::Placed;
use std::alloc::{AllocError, Global};

/// Where and when duties leave and arrive, with the ranks of those that do: all that a network
/// keeps of them that depends on nothing else.
#[derive(Drop)]
pub(crate) struct Events {
    pub(crate) leave: Timeline,
    pub(crate) arrive: Timeline,
    pub(crate) departures: Vec<Departure>,
    pub(crate) arrivals: Vec<Arrival>,
    /// The places of departures, in order of report.
    pub(crate) by_report: Vec<u32>,
}

// When and where a duty leaves, as one number.
fn leave_at(duty: &Duty) -> i64
    ensures value { result ≡ Spec.leave_at duty.now }
    ensures named { Spec.IsLeft duty.now }
    ensures bound { IsBounded result }
{
    moment(duty.from, i64::from(duty.report))
}

// When and where a duty arrives, as one number.
fn arrive_at(duty: &Duty) -> i64
    ensures value { result ≡ Spec.arrive_at duty.now }
    ensures named { Spec.IsReached duty.now }
    ensures bound { IsBounded result }
{
    moment(duty.to, i64::from(duty.release))
}

// The keys of when and where duties leave, and of when and where they arrive.
fn event_keys(alloc: Global, duties: &Duties) -> Result<(Vec<u128>, Vec<u128>), AllocError>
    requires { length duties.now ≤ 200_000 }
    ensures left { IfOk result (λ keys. Each Spec.IsLeft duties.now) }
    ensures reached { IfOk result (λ keys. Each Spec.IsReached duties.now) }
    ensures leave { IfOk result (λ keys. AreKeys (map Spec.leave_at duties.now) keys.0.items) }
    ensures arrive { IfOk result (λ keys. AreKeys (map Spec.arrive_at duties.now) keys.1.items) }
    ensures long { IfOk result (λ keys. (length keys.0.items ≡ length duties.now)
        × (length keys.1.items ≡ length duties.now)) }
{
    let mut leave = Vec::with_capacity(alloc, duties.len())?;
    let mut arrive = Vec::with_capacity(alloc, duties.len())?;
    for rank in 0..duties.len() {
        let duty = duties.at(rank);
        leave.push(slot_key(leave_at(duty), rank))?;
        arrive.push(slot_key(arrive_at(duty), rank))?;
    }
    Ok((leave, arrive))
}

// The first duty of a moment.
fn first_of<'a>(duties: &'a Duties, timeline: &Timeline, event: usize) -> &'a Duty
    requires timeline { Spec.HasTimeline (length duties.now) timeline.now }
    requires event { event < length timeline.now.moments.items }
    ensures { (ats : List ℤ) → IsTimeline ats timeline.now → Spec.IsAtMoment ats duties.now
        timeline.now.moments.items event result.now }
{
    let start = timeline.starts[event] as usize;
    let rank = timeline.places[start] as usize;
    duties.at(rank)
}

// The departure events of duties.
fn departures_of(
    alloc: Global,
    duties: &Duties,
    leaving: &Timeline,
) -> Result<Vec<Departure>, AllocError>
    requires { IsTimeline (map Spec.leave_at duties.now) leaving.now }
    ensures { IfOk result (λ events. AreAt departure_of Spec.leave_at duties.now
        leaving.now.moments.items events.items) }
{
    let mut events = Vec::with_capacity(alloc, leaving.moments.len())?;
    for event in 0..leaving.moments.len() {
        events.push(first_of(duties, leaving, event).departure())?;
    }
    Ok(events)
}

// The arrival events of duties.
fn arrivals_of(
    alloc: Global,
    duties: &Duties,
    arriving: &Timeline,
) -> Result<Vec<Arrival>, AllocError>
    requires { IsTimeline (map Spec.arrive_at duties.now) arriving.now }
    ensures { IfOk result (λ events. AreAt arrival_of Spec.arrive_at duties.now
        arriving.now.moments.items events.items) }
{
    let mut events = Vec::with_capacity(alloc, arriving.moments.len())?;
    for event in 0..arriving.moments.len() {
        events.push(first_of(duties, arriving, event).arrival())?;
    }
    Ok(events)
}

// The keys of when departures report.
fn report_keys(alloc: Global, departures: &[Departure]) -> Result<Vec<u128>, AllocError>
    requires few { length departures.now ≤ 200_000 }
    requires real { Each (λ g. IsReal g.report) departures.now }
    ensures { IfOk result (λ keys. AreKeys (map (λ g. g.report) departures.now) keys.items) }
{
    let mut keys = Vec::with_capacity(alloc, departures.len())?;
    for (place, event) in departures.iter().enumerate() {
        keys.push(slot_key(event.report, place))?;
    }
    Ok(keys)
}

// The places of departures, by report.
fn by_report(alloc: Global, departures: &[Departure]) -> Result<Vec<u32>, AllocError>
    requires few { length departures.now ≤ 200_000 }
    requires real { Each (λ g. IsReal g.report) departures.now }
    ensures { IfOk result (λ places. AreByReport departures.now places.items) }
{
    let mut keys = report_keys(alloc, departures)?;
    keys.sort_unstable();
    places_of(alloc, &keys)
}

/// When and where duties leave and arrive, with the ranks of those that do.
pub(crate) fn events_of(alloc: Global, duties: &Duties) -> Result<Events, AllocError>
    requires { length duties.now ≤ 200_000 }
    ensures { IfOk result (AreEventsOf duties.now) }
{
    let (leave, arrive) = event_keys(alloc, duties)?;
    let leave = Timeline::of(alloc, gathered(alloc, &leave)?)?;
    let arrive = Timeline::of(alloc, arrive)?;
    let departures = departures_of(alloc, duties, &leave)?;
    let arrivals = arrivals_of(alloc, duties, &arrive)?;
    let by_report = by_report(alloc, &departures)?;
    Ok(Events {
        leave,
        arrive,
        departures,
        arrivals,
        by_report,
    })
}

// Whether two duties leave alike.
fn leave_alike(before: &Duty, after: &Duty) -> bool
    ensures { IsTrue result ↔ (departure_of before.now ≡ departure_of after.now) }
{
    before.from == after.from && before.report == after.report
}

// Whether two duties arrive alike.
fn arrive_alike(before: &Duty, after: &Duty) -> bool
    ensures { IsTrue result ↔ (arrival_of before.now ≡ arrival_of after.now) }
{
    before.to == after.to && before.release == after.release
}

// Whether two duties leave alike and arrive alike.
fn has_same_events(before: &Duty, after: &Duty) -> bool
    ensures { IsTrue result ↔ ((departure_of before.now ≡ departure_of after.now)
        × (arrival_of before.now ≡ arrival_of after.now)) }
{
    leave_alike(before, after) && arrive_alike(before, after)
}

/// Whether the duties of two lists leave alike and arrive alike, one by one.
pub(crate) fn have_same_events(before: &Duties, after: &Duties) -> bool
    ensures { IsTrue result ↔ HaveSameEvents before.now after.now }
{
    if before.len() != after.len() {
        return false;
    }
    for rank in 0..before.len() {
        if !has_same_events(before.at(rank), after.at(rank)) {
            return false;
        }
    }
    true
}
