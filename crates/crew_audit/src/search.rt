//! The search for partial pairings: depth first, leg by leg and duty by duty.
//!
//! Depth first: from a base, and then after each partial, each flight that leaves there at a lawful
//! rest begins a duty, leg by leg in order; where the legs are a legal duty the partial is taken,
//! then what goes on from it, and then longer duties. That is the order of walks, so nothing is
//! sorted, and nothing is kept but the path. Legs are left where no duty can begin with them, or
//! where they pass a cap on totals with the duties before. No search is shared with `crew_duty`,
//! only the facts of legs and pay.

ghost use Rattle.std.specs.Prelude.{◌≡◌, ◌+◌, ◌-◌, ◌<◌, ◌≤◌, ◌++◌, ◌∷◌, [], false, true, OnOk, Err, length, if◌then◌else◌};
ghost use Rattle.std.specs.List.{flat_map};
ghost use Rattle.crew_flights.specs.Timetable.{IsBasePrice};
ghost use Rattle.crew_rules.specs.Settings.{IsChecked};
ghost use Rattle.crew_pairing.specs.Legality.{duty_of, last_of, may_follow};
ghost use Rattle.crew_pairing.specs.Machinery.Listing.{below, from_flight, listing, timed};
ghost use Rattle.crew_resource.specs.Members.{Each, Member};
ghost use Rattle.crew_pairing.specs.Machinery.Beginnings.{AreFlights, IsBeginning};
ghost use Rattle.crew_audit.specs.Machinery.Listing.{after, begun_by, listed, may_join, with_next};
ghost use Rattle.crew_audit.specs.Machinery.Ranges.{IsInRange};
ghost use Rattle.crew_audit.specs.Machinery.Taking.{Took};

use crate::chain::{self, keep_totals, may_leave};
use crate::flight_list::FlightList;
use crate::legs::{self, LEGS, cannot_begin, duty_from, may_come_next};
use crate::limits::keep_limits;
use crate::partial::AuditFault;
use crate::sink::Sink;
use crew_flights::{Code, Flight};
use crew_pairing::facts::last_leg;
use crew_pairing::{Duty, TimedLeg};
use crew_rules::Settings;
use std::alloc::Global;

// What the search works with: the flights by number and by airport, with their turns, a base with
// its price, and the most partials that are taken.
#[derive(Clone, Copy, Drop)]
pub(crate) struct Scope<'a> {
    pub(crate) settings: &'a Settings,
    pub(crate) flights: &'a FlightList<'a>,
    pub(crate) base: Code,
    pub(crate) base_price: i64,
    pub(crate) limit: usize,
}

// Gives these duties to what takes partials, which lists or counts them.
fn list_one<F: Sink>(
    alloc: Global,
    found: &mut F,
    scope: &Scope<'_>,
    duties: &[Duty],
) -> Result<(), AuditFault>
    requires checked { IsChecked scope.now.settings.now }
    requires price { IsBasePrice scope.now.base_price }
    requires few { length duties.now ≤ 13 }
    requires ranges { Each IsInRange duties.now }
    requires room { F.count found.old ≤ scope.now.limit }
    ensures ok { OnOk result (Took F.count F.holds found.old found.new
        (listed scope.now.settings.now scope.now.base scope.now.base_price duties.now ∷ [])) }
    ensures room { OnOk result (F.count found.new ≤ scope.now.limit) }
    ensures over { result ≡ Err AuditFault.OverLimit → scope.now.limit < F.count found.old + 1 }
{
    if found.taken() >= scope.limit {
        return Err(AuditFault::OverLimit);
    }
    found.take(alloc, scope, duties)?;
    Ok(())
}

// Lists the partials that go on from these duties.
#[cycle(partials)]
pub(crate) fn list_after<F: Sink>(
    alloc: Global,
    found: &mut F,
    scope: &Scope<'_>,
    before: &[Duty],
) -> Result<(), AuditFault>
    requires checked { IsChecked scope.now.settings.now }
    requires flights { AreFlights scope.now.flights.now }
    requires price { IsBasePrice scope.now.base_price }
    requires few { length before.now ≤ scope.now.settings.now.max_duties }
    requires ranges { Each IsInRange before.now }
    requires room { F.count found.old ≤ scope.now.limit }
    ensures ok { OnOk result (Took F.count F.holds found.old found.new
        (after (scope.now.settings.now.max_duties - length before.now) scope.now.settings.now
        scope.now.flights.now scope.now.base scope.now.base_price before.now)) }
    ensures room { OnOk result (F.count found.new ≤ scope.now.limit) }
    ensures over { result ≡ Err AuditFault.OverLimit → scope.now.limit < F.count found.old
        + length (after (scope.now.settings.now.max_duties - length before.now) scope.now.settings.now scope.now.flights.now scope.now.base scope.now.base_price before.now) }
{
    if before.len() >= scope.settings.max_duties as usize {
        return Ok(());
    }
    let leaving = scope
        .flights
        .next_duties(scope.settings, scope.base, before);
    for flight in leaving {
        if may_leave(scope.settings, scope.base, before, flight) {
            list_from(alloc, found, scope, before, flight)?;
        }
    }
    Ok(())
}

// Lists those that go on with a duty that begins with this flight, flown and then deadheaded.
#[cycle(partials)]
fn list_from<F: Sink>(
    alloc: Global,
    found: &mut F,
    scope: &Scope<'_>,
    before: &[Duty],
    flight: &Flight,
) -> Result<(), AuditFault>
    requires checked { IsChecked scope.now.settings.now }
    requires flights { AreFlights scope.now.flights.now }
    requires price { IsBasePrice scope.now.base_price }
    requires few { length before.now < scope.now.settings.now.max_duties }
    requires ranges { Each IsInRange before.now }
    requires known { Member scope.now.flights.now.list flight.now }
    requires joins { may_join scope.now.base scope.now.settings.now before.now
        (duty_of scope.now.settings.now (timed false flight.now) []) ≡ true }
    requires room { F.count found.old ≤ scope.now.limit }
    ensures ok { OnOk result (Took F.count F.holds found.old found.new
        (flat_map (with_next (scope.now.settings.now.max_duties - (length before.now + 1))
        scope.now.settings.now scope.now.flights.now scope.now.base scope.now.base_price before.now)
        (from_flight scope.now.settings.now scope.now.flights.now flight.now))) }
    ensures room { OnOk result (F.count found.new ≤ scope.now.limit) }
    ensures over { result ≡ Err AuditFault.OverLimit → scope.now.limit < F.count found.old
        + length (flat_map (with_next (scope.now.settings.now.max_duties - (length before.now + 1)) scope.now.settings.now scope.now.flights.now scope.now.base scope.now.base_price before.now)
        (from_flight scope.now.settings.now scope.now.flights.now flight.now)) }
{
    let flown = TimedLeg {
        flight: *flight,
        deadhead: false,
    };
    list_legs(alloc, found, scope, before, &flown, &[])?;
    let ridden = TimedLeg {
        flight: *flight,
        deadhead: true,
    };
    list_legs(alloc, found, scope, before, &ridden, &[])
}

// Lists those that go on with a duty that begins with these legs.
#[cycle(partials)]
fn list_legs<F: Sink>(
    alloc: Global,
    found: &mut F,
    scope: &Scope<'_>,
    before: &[Duty],
    first: &TimedLeg,
    others: &[TimedLeg],
) -> Result<(), AuditFault>
    requires checked { IsChecked scope.now.settings.now }
    requires flights { AreFlights scope.now.flights.now }
    requires price { IsBasePrice scope.now.base_price }
    requires few { length before.now < scope.now.settings.now.max_duties }
    requires ranges { Each IsInRange before.now }
    requires joins { may_join scope.now.base scope.now.settings.now before.now
        (duty_of scope.now.settings.now first.now others.now) ≡ true }
    requires beginning { IsBeginning scope.now.settings.now scope.now.flights.now first.now
        others.now }
    requires legs { length others.now ≤ 8 }
    requires room { F.count found.old ≤ scope.now.limit }
    ensures ok { OnOk result (Took F.count F.holds found.old found.new
        (flat_map (with_next (scope.now.settings.now.max_duties - (length before.now + 1))
        scope.now.settings.now scope.now.flights.now scope.now.base scope.now.base_price before.now)
        (listing (8 - length others.now) scope.now.settings.now scope.now.flights.now first.now
        others.now))) }
    ensures room { OnOk result (F.count found.new ≤ scope.now.limit) }
    ensures over { result ≡ Err AuditFault.OverLimit → scope.now.limit < F.count found.old
        + length (flat_map (with_next (scope.now.settings.now.max_duties - (length before.now + 1)) scope.now.settings.now scope.now.flights.now scope.now.base scope.now.base_price before.now)
        (listing (8 - length others.now) scope.now.settings.now scope.now.flights.now first.now
        others.now)) }
{
    if others.len() >= LEGS || cannot_begin(scope.settings, first, others) {
        return Ok(());
    }
    let next = duty_from(scope.settings, first, others);
    let longer = chain::followed_by(alloc, before, next)?;
    if !keep_totals(scope.settings, &longer) {
        return Ok(());
    }
    let last = last_leg(first, others);
    list_own(alloc, found, scope, &longer, last.deadhead)?;
    let leaving = scope.flights.next_legs(scope.settings, &last.flight);
    for flight in leaving {
        if may_come_next(scope.settings, scope.flights, &last.flight, flight) {
            list_below(alloc, found, scope, before, first, others, flight)?;
        }
    }
    Ok(())
}

// Lists these duties, and then the partials that go on from them; nothing where their last leg is
// a deadhead, or where they pass a limit that holds where a list of duties ends.
#[cycle(partials)]
fn list_own<F: Sink>(
    alloc: Global,
    found: &mut F,
    scope: &Scope<'_>,
    duties: &[Duty],
    deadhead: bool,
) -> Result<(), AuditFault>
    requires checked { IsChecked scope.now.settings.now }
    requires flights { AreFlights scope.now.flights.now }
    requires price { IsBasePrice scope.now.base_price }
    requires few { length duties.now ≤ scope.now.settings.now.max_duties }
    requires ranges { Each IsInRange duties.now }
    requires room { F.count found.old ≤ scope.now.limit }
    ensures ok { OnOk result (Took F.count F.holds found.old found.new
        (if deadhead then [] else begun_by (scope.now.settings.now.max_duties - length duties.now)
        scope.now.settings.now scope.now.flights.now scope.now.base scope.now.base_price
        duties.now)) }
    ensures room { OnOk result (F.count found.new ≤ scope.now.limit) }
    ensures over { result ≡ Err AuditFault.OverLimit → scope.now.limit < F.count found.old
        + length (if deadhead then [] else begun_by (scope.now.settings.now.max_duties - length duties.now)
        scope.now.settings.now scope.now.flights.now scope.now.base scope.now.base_price
        duties.now) }
{
    if deadhead || !keep_limits(scope.settings, duties) {
        return Ok(());
    }
    list_one(alloc, found, scope, duties)?;
    list_after(alloc, found, scope, duties)
}

// Lists those that go on with a duty that begins with these legs and this flight, flown and then
// deadheaded.
#[cycle(partials)]
fn list_below<F: Sink>(
    alloc: Global,
    found: &mut F,
    scope: &Scope<'_>,
    before: &[Duty],
    first: &TimedLeg,
    others: &[TimedLeg],
    flight: &Flight,
) -> Result<(), AuditFault>
    requires checked { IsChecked scope.now.settings.now }
    requires flights { AreFlights scope.now.flights.now }
    requires price { IsBasePrice scope.now.base_price }
    requires few { length before.now < scope.now.settings.now.max_duties }
    requires ranges { Each IsInRange before.now }
    requires joins { may_join scope.now.base scope.now.settings.now before.now
        (duty_of scope.now.settings.now first.now others.now) ≡ true }
    requires beginning { IsBeginning scope.now.settings.now scope.now.flights.now first.now
        others.now }
    requires legs { length others.now < 8 }
    requires known { Member scope.now.flights.now.list flight.now }
    requires follows { may_follow scope.now.settings.now scope.now.flights.now.turns
        (last_of first.now others.now).flight flight.now ≡ true }
    requires room { F.count found.old ≤ scope.now.limit }
    ensures ok { OnOk result (Took F.count F.holds found.old found.new
        (flat_map (with_next (scope.now.settings.now.max_duties - (length before.now + 1))
        scope.now.settings.now scope.now.flights.now scope.now.base scope.now.base_price before.now)
        (below (7 - length others.now) scope.now.settings.now scope.now.flights.now first.now
        others.now flight.now))) }
    ensures room { OnOk result (F.count found.new ≤ scope.now.limit) }
    ensures over { result ≡ Err AuditFault.OverLimit → scope.now.limit < F.count found.old
        + length (flat_map (with_next (scope.now.settings.now.max_duties - (length before.now + 1)) scope.now.settings.now scope.now.flights.now scope.now.base scope.now.base_price before.now)
        (below (7 - length others.now) scope.now.settings.now scope.now.flights.now first.now
        others.now flight.now)) }
{
    let flown = legs::followed_by(others, flight, false);
    list_legs(alloc, found, scope, before, first, flown.as_slice())?;
    let ridden = legs::followed_by(others, flight, true);
    list_legs(alloc, found, scope, before, first, ridden.as_slice())
}
