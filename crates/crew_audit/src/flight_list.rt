//! Flights by the airport that they leave, and by when, and the turns between them.
//!
//! Flights stand by number, and again by the airport that they leave, in blocks of time as wide as
//! the gap between two legs may be, and as the rest between two duties: what comes next is looked
//! for among the few flights of one block, still in order of number.

ghost use Rattle.std.specs.Prelude.{◌≡◌, [], false, true, IfOk, IfSome, OnOk};
ghost use Rattle.std.specs.List.{filter};
ghost use Rattle.crew_flights.specs.Timetable.{IsSound};
ghost use Rattle.crew_flights.specs.declared.flight.Flight.{Flight};
ghost use Rattle.crew_pairing.specs.Duties.{flights_of};
ghost use Rattle.crew_pairing.specs.Legality.{duty_of, may_follow};
ghost use Rattle.crew_pairing.specs.Legality as Spec;
ghost use Rattle.crew_pairing.specs.Machinery.Listing.{timed};
ghost use Rattle.crew_pairing.specs.Pairings.{may_stand_after};
ghost use Rattle.crew_resource.specs.Members.{Each, Member};
ghost use Rattle.crew_rules.specs.Settings.{IsChecked};
ghost use Rattle.crew_audit.specs.Machinery.Leaving.{AreAmong, AreBlocks, AreGroups, IsGroup, departs_within, leaves, leaves_within};
ghost use Rattle.crew_audit.specs.Machinery.Listing.{may_join};
ghost use Rattle.crew_audit.specs.Machinery.Ranges.{IsInRange};
ghost use Rattle.crew_audit.specs.declared.flight_list.Block.{Block};
ghost use Rattle.crew_audit.specs.declared.flight_list.Leaving.{Leaving};
ghost use Rattle.crew_audit.specs.declared.flight_list.Span.{Span};

use crate::chain::LEAST_REST;
use crew_flights::{Code, Flight, Timetable};
use crew_pairing::Duty;
use crew_rules::Settings;
use std::alloc::{AllocError, Global};
use std::marker::Model;

// The least minutes from one block's beginning to the next one's.
const STEP: i64 = 120;

/// From one minute to another.
#[derive(Clone, Copy, Drop)]
struct Span {
    from: i64,
    end: i64,
}

/// The flights of an airport that depart within a span, in order.
#[derive(Drop)]
struct Block {
    span: Span,
    flights: Vec<Flight>,
}

/// The flights that leave an airport, in order; and by blocks, as wide as the gap between two legs
/// may be, and as the rest between two duties.
#[derive(Drop)]
struct Leaving {
    airport: Code,
    flights: Vec<Flight>,
    legs: Vec<Block>,
    days: Vec<Block>,
}

/// The flights of a timetable in order, with those that leave an airport at hand, and its turns.
///
/// A contract sees the list of all, and the turns.
#[derive(Drop)]
pub(crate) struct FlightList<'a> {
    all: Vec<Flight>,
    groups: Vec<Leaving>,
    timetable: &'a Timetable,
}

impl<'a> Model for FlightList<'a> {
    ghost use Rattle.crew_pairing.specs.Flights.{Flights, flights_code};
    ghost use Rattle.crew_audit.specs.Machinery.Leaving.{AreGroups};

    ghost Value = { Flights };

    ghost coded = { flights_code };

    ghost view = { λ l. record { list = l.all.items; turns = l.timetable.now.turns } };

    ghost invariant = { λ l. AreGroups l.all.items l.groups.items };
}

// How far apart blocks begin, and how much further each goes on.
#[derive(Clone, Copy)]
struct Pace {
    step: i64,
    more: i64,
}

// When the first and the last of some flights depart.
fn span_of(flights: &[Flight]) -> Span {
    let mut from = i64::MAX;
    let mut end = i64::MIN;
    for flight in flights {
        from = from.min(flight.dep.get());
        end = end.max(flight.dep.get());
    }
    Span { from, end }
}

// Blocks of some flights go on by so much, and are no more than the flights.
fn pace_of(flights: &[Flight], more: u32) -> Pace {
    let Span { from, end } = span_of(flights);
    let many = i64::try_from(flights.len()).unwrap_or(i64::MAX).max(1);
    let step = (end.saturating_sub(from) / many).saturating_add(1);
    Pace {
        step: step.max(STEP),
        more: i64::from(more),
    }
}

// Whether a flight departs within a span.
fn is_within(flight: &Flight, span: Span) -> bool
    ensures { result ≡ departs_within span flight.now }
{
    span.from <= flight.dep.get() && flight.dep.get() <= span.end
}

// The flights that depart within a span.
fn departing(alloc: Global, flights: &[Flight], span: Span) -> Result<Vec<Flight>, AllocError>
    ensures { IfOk result (λ found. found.items ≡ filter (departs_within span) flights.now) }
{
    flights
        .iter()
        .copied()
        .filter(|flight| is_within(flight, span))
        .collect(alloc)
}

// Appends the block of a span.
fn add_block(
    alloc: Global,
    blocks: &mut Vec<Block>,
    flights: &[Flight],
    span: Span,
) -> Result<(), AllocError>
    requires { AreBlocks flights.now blocks.old.items }
    ensures { OnOk result (AreBlocks flights.now blocks.new.items) }
{
    let flights = departing(alloc, flights, span)?;
    blocks.push(Block { span, flights })?;
    Ok(())
}

// Blocks of flights, from the first departure on.
fn blocks_of(alloc: Global, flights: &[Flight], pace: Pace) -> Result<Vec<Block>, AllocError>
    ensures { IfOk result (λ blocks. AreBlocks flights.now blocks.items) }
{
    let mut blocks = Vec::new(alloc);
    let Span { mut from, end } = span_of(flights);
    for _ in 0..flights.len() {
        if from <= end {
            let next = from.saturating_add(pace.step);
            let end = next.saturating_add(pace.more);
            add_block(alloc, &mut blocks, flights, Span { from, end })?;
            from = next;
        }
    }
    Ok(blocks)
}

// Whether a block has all that departs within a span.
fn covers(block: &Block, span: Span) -> bool
    ensures { result ≡ true → (f : Flight) → departs_within span f ≡ true
        → departs_within block.now.span f ≡ true }
{
    block.span.from <= span.from && span.end <= block.span.end
}

// Which block begins last before a minute.
fn place_of(blocks: &[Block], minute: i64) -> Option<usize> {
    let (first, second) = (blocks.first()?, blocks.get(1)?);
    let step = second.span.from.saturating_sub(first.span.from).max(1);
    let place = minute.saturating_sub(first.span.from) / step;
    usize::try_from(place).ok()
}

// A block that has all that departs within a span, if it is easy to find.
fn covering(blocks: &[Block], span: Span) -> Option<&Block>
    ensures there { IfSome result (λ block. Member blocks.now block.now) }
    ensures wider { IfSome result (λ block. (f : Flight) → departs_within span f ≡ true
        → departs_within block.now.span f ≡ true) }
{
    let place = place_of(blocks, span.from)?;
    let block = blocks.get(place)?;
    if covers(block, span) {
        Some(block)
    } else {
        None
    }
}

// Whether the flights that leave an airport are at hand.
fn has_group(groups: &[Leaving], airport: Code) -> bool {
    groups.iter().any(|group| group.airport == airport)
}

// The flights that leave an airport.
fn leaving_from(alloc: Global, flights: &[Flight], airport: Code) -> Result<Vec<Flight>, AllocError>
    ensures { IfOk result (λ found. found.items ≡ filter (leaves airport) flights.now) }
{
    flights
        .iter()
        .copied()
        .filter(|flight| airport == flight.from)
        .collect(alloc)
}

// What leaves an airport, with blocks that are wide enough for gaps and for rests.
fn group_of(
    alloc: Global,
    settings: &Settings,
    flights: &[Flight],
    airport: Code,
) -> Result<Leaving, AllocError>
    ensures { IfOk result (IsGroup flights.now) }
{
    let flights = leaving_from(alloc, flights, airport)?;
    let legs = blocks_of(alloc, &flights, pace_of(&flights, settings.sit))?;
    let days = blocks_of(alloc, &flights, pace_of(&flights, settings.max_rest))?;
    Ok(Leaving {
        airport,
        flights,
        legs,
        days,
    })
}

// Has the flights that leave an airport at hand.
fn add_group(
    alloc: Global,
    settings: &Settings,
    groups: &mut Vec<Leaving>,
    flights: &[Flight],
    airport: Code,
) -> Result<(), AllocError>
    requires { AreGroups flights.now groups.old.items }
    ensures { OnOk result (AreGroups flights.now groups.new.items) }
{
    if !has_group(groups, airport) {
        groups.push(group_of(alloc, settings, flights, airport)?)?;
    }
    Ok(())
}

// The flights that leave each airport that a flight leaves, or comes to.
fn groups_of(
    alloc: Global,
    settings: &Settings,
    flights: &[Flight],
) -> Result<Vec<Leaving>, AllocError>
    ensures { IfOk result (λ groups. AreGroups flights.now groups.items) }
{
    let mut groups = Vec::new(alloc);
    for flight in flights {
        add_group(alloc, settings, &mut groups, flights, flight.from)?;
        add_group(alloc, settings, &mut groups, flights, flight.to)?;
    }
    Ok(groups)
}

// All flights of a list that depart within a span, in order, and maybe others.
fn within<'a>(flights: &'a [Flight], blocks: &'a [Block], span: Span) -> &'a [Flight]
    requires { AreBlocks flights.now blocks.now }
    ensures { AreAmong (departs_within span) flights.now result.now }
{
    match covering(blocks, span) {
        Some(block) => &block.flights,
        None => flights,
    }
}

impl<'a> FlightList<'a> {
    /// Those of a timetable.
    pub(crate) fn of(
        alloc: Global,
        settings: &Settings,
        timetable: &'a Timetable,
    ) -> Result<FlightList<'a>, AllocError>
        ensures held { IfOk result (λ flights. flights ≡ flights_of timetable.now) }
        ensures sound { IsSound timetable.now }
    {
        let all = timetable.placed_flights(alloc)?;
        let groups = groups_of(alloc, settings, &all)?;
        Ok(FlightList {
            all,
            groups,
            timetable,
        })
    }

    /// The least minutes on the ground between two flights.
    pub(crate) fn turn_time(&self, settings: &Settings, before: &Flight, next: &Flight) -> u32
        ensures { result ≡ Spec.turn_time settings.now self.now.turns before.now next.now }
    {
        self.timetable
            .turn(before.id, next.id)
            .unwrap_or(settings.connect)
    }

    // What leaves an airport, if it is at hand.
    fn group(&self, airport: Code) -> Option<&Leaving>
        ensures { IfSome result (λ group. IsGroup self.now.list group.now × ((f : Flight)
            → leaves group.now.airport f ≡ leaves airport f)) }
    {
        for group in &self.groups {
            if group.airport == airport {
                return Some(group);
            }
        }
        None
    }

    // All flights that leave an airport, in order, and maybe others.
    fn leaving(&self, airport: Code) -> &[Flight]
        ensures { AreAmong (leaves airport) self.now.list result.now }
    {
        match self.group(airport) {
            Some(group) => &group.flights,
            None => &self.all,
        }
    }

    // All flights that leave an airport within a span as wide as a gap, in order, and maybe others.
    fn legs_within(&self, airport: Code, span: Span) -> &[Flight]
        ensures { AreAmong (leaves_within airport span) self.now.list result.now }
    {
        match self.group(airport) {
            Some(group) => within(&group.flights, &group.legs, span),
            None => &self.all,
        }
    }

    // The same of a span as wide as a rest.
    fn days_within(&self, airport: Code, span: Span) -> &[Flight]
        ensures { AreAmong (leaves_within airport span) self.now.list result.now }
    {
        match self.group(airport) {
            Some(group) => within(&group.flights, &group.days, span),
            None => &self.all,
        }
    }

    /// All flights that may come next after another, in order, and maybe others. They depart from
    /// its arrival on: a turn may be shorter than `connect`.
    pub(crate) fn next_legs(&self, settings: &Settings, last: &Flight) -> &[Flight]
        requires { IsChecked settings.now }
        ensures { AreAmong (may_follow settings.now self.now.turns last.now) self.now.list
            result.now }
    {
        let arrival = last.arr.get();
        let span = Span {
            from: arrival,
            end: arrival + i64::from(settings.sit),
        };
        self.legs_within(last.to, span)
    }

    // All flights that a duty after another may begin with, in order, and maybe others.
    fn next_days(&self, settings: &Settings, last: &Duty) -> &[Flight]
        requires checked { IsChecked settings.now }
        requires range { IsInRange last.now }
        ensures { AreAmong (λ f. may_stand_after settings.now last.now
            (duty_of settings.now (timed false f) [])) self.now.list result.now }
    {
        let ready = i64::from(last.release) + i64::from(settings.lead);
        let span = Span {
            from: ready + LEAST_REST,
            end: ready + i64::from(settings.max_rest),
        };
        self.days_within(last.to, span)
    }

    /// All flights that the first duty of a base may begin with, or the next one after others, in
    /// order, and maybe others.
    pub(crate) fn next_duties(&self, settings: &Settings, base: Code, before: &[Duty]) -> &[Flight]
        requires checked { IsChecked settings.now }
        requires ranges { Each IsInRange before.now }
        ensures { AreAmong (λ f. may_join base settings.now before.now
            (duty_of settings.now (timed false f) [])) self.now.list result.now }
    {
        match before.last() {
            None => self.leaving(base),
            Some(last) => self.next_days(settings, last),
        }
    }
}
