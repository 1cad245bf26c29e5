//! What the search for duties works with.

ghost use Rattle.std.specs.Prelude.{◌≡◌, ◌<◌, ◌≤◌, ◌≤ℤ◌, pos, ◌∷◌, IfOk, List, Some, length, slice_get};
ghost use Rattle.crew_flights.specs.declared.flight.Flight.{Flight};
ghost use Rattle.crew_resource.specs.Members.{Each};
ghost use Rattle.crew_rules.specs.Settings.{IsChecked};
ghost use Rattle.crew_duty.specs.Machinery.Followers.{places_of};
ghost use Rattle.crew_pairing.specs.Legality.{last_of};
ghost use Rattle.crew_duty.specs.Machinery.Limits.{AreLimits};
ghost use Rattle.crew_duty.specs.Machinery.Held.{held, over};
ghost use Rattle.crew_duty.specs.Machinery.Plans.{AreNext, IsNext, IsPlan, LeadOn, StandAt};
ghost use Rattle.crew_duty.specs.Machinery.Running.{AreTotals};
ghost use Rattle.crew_duty.specs.Machinery.Slots.{IsIndex};

use crate::departures::{NEVER, Slot, earlier_of, few_after, places_by};
use crate::limits::Limits;
use crate::totals::Totals;
use crate::turns::HeldTurns;
use crew_flights::Flight;
use crew_pairing::TimedLeg;
use crew_rules::Settings;
use std::alloc::{AllocError, Global};

/// What may follow a flight.
#[derive(Drop)]
pub(crate) struct Next {
    /// The places of the flights that may, in order, where they are few.
    pub(crate) places: Option<Vec<u32>>,
    /// A minute that none of them arrives before.
    pub(crate) soonest: i64,
}

/// The flights by number, the turns between them, their departures by airport and time, and what may
/// follow each flight.
#[derive(Drop)]
pub(crate) struct Plan<'a> {
    pub(crate) settings: &'a Settings,
    pub(crate) flights: &'a [Flight],
    pub(crate) turns: &'a HeldTurns,
    pub(crate) slots: &'a [Slot],
    pub(crate) next: &'a [Next],
}

// The earliest arrival of the flights at these places, and later than any where there are none.
fn soonest_of(flights: &[Flight], places: &[u32]) -> i64
    requires { (gs : List Flight) × StandAt flights.now places.now gs }
    ensures before { (gs : List Flight) → StandAt flights.now places.now gs
        → Each (λ g. result ≤ℤ g.arr) gs }
    ensures least { pos 0 ≤ℤ result }
    ensures most { result ≤ℤ pos 100_000_000 }
{
    let mut soonest = NEVER;
    for place in places {
        soonest = earlier_of(soonest, flights[*place as usize].arr.get());
    }
    soonest
}

/// What may follow a flight.
pub(crate) fn next_of(
    alloc: Global,
    settings: &Settings,
    flights: &[Flight],
    turns: &HeldTurns,
    slots: &[Slot],
    before: &Flight,
) -> Result<Next, AllocError>
    requires checked { IsChecked settings.now }
    requires index { IsIndex flights.now slots.now }
    ensures { IfOk result (IsNext settings.now (over flights.now turns.now) before.now) }
{
    let Some(places) = few_after(alloc, settings, flights, turns, slots, before)? else {
        return Ok(Next {
            places: None,
            soonest: 0,
        });
    };
    let soonest = soonest_of(flights, &places);
    Ok(Next {
        places: Some(places),
        soonest,
    })
}

/// What may follow each flight.
pub(crate) fn next_flights(
    alloc: Global,
    settings: &Settings,
    flights: &[Flight],
    turns: &HeldTurns,
    slots: &[Slot],
) -> Result<Vec<Next>, AllocError>
    requires checked { IsChecked settings.now }
    requires index { IsIndex flights.now slots.now }
    ensures { IfOk result (λ next. AreNext settings.now (over flights.now turns.now) flights.now
        next.items) }
{
    let mut next = Vec::with_capacity(alloc, flights.len())?;
    for flight in flights {
        next.push(next_of(alloc, settings, flights, turns, slots, flight)?)?;
    }
    Ok(next)
}

/// The places of flights that go on from some legs.
#[derive(Drop)]
pub(crate) enum Followers<'a> {
    /// All that may follow the last leg.
    Known(&'a [u32]),
    /// Those of them that don't depart too late.
    Found(Vec<u32>),
}

impl Followers<'_> {
    /// The places, in order.
    pub(crate) fn as_slice(&self) -> &[u32]
        ensures { result.now ≡ places_of self.now }
    {
        match self {
            Followers::Known(places) => places,
            Followers::Found(places) => places,
        }
    }
}

/// The places of the flights that go on from some legs, of which the last is of the flight at a
/// place.
#[inline(always)]
pub(crate) fn follow_on<'a>(
    alloc: Global,
    plan: &Plan<'a>,
    limits: &Limits,
    last: usize,
    totals: Totals,
) -> Result<Followers<'a>, AllocError>
    requires plan { IsPlan plan.now.settings.now (held plan.now) plan.now.slots.now
        plan.now.next.now }
    requires limits { (first : TimedLeg) × AreLimits plan.now.settings.now first limits.now }
    requires last { last < length plan.now.flights.now }
    ensures { IfOk result (λ found. (first : TimedLeg) (others : List TimedLeg)
        → AreLimits plan.now.settings.now first limits.now
        → slice_get plan.now.flights.now last ≡ Some (last_of first others).flight
        → AreTotals (first ∷ others) totals
        → LeadOn plan.now.settings.now (held plan.now) first others (places_of found)) }
{
    if let Some(places) = &plan.next[last].places {
        return Ok(Followers::Known(places));
    }
    let latest = limits.latest(totals);
    let found = places_by(
        alloc,
        plan.settings,
        plan.flights,
        plan.turns,
        plan.slots,
        &plan.flights[last],
        latest,
    )?;
    Ok(Followers::Found(found))
}
