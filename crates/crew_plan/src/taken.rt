//! Pairings taken one after another that share few flights.

ghost use Rattle.std.specs.Prelude.{◌≡◌, ◌≤◌, ◌<◌, ◌+◌, ◌++◌, ◌∷◌, ℕ, IfOk, List, OnOk, Some, [], cond, false, get_or, length, nat_eq, nat_lt, take, true};
ghost use Rattle.std.specs.List.{flat_map, list_all, list_any};
ghost use Rattle.crew_resource.specs.Members.{Each};
ghost use Rattle.crew_fronts.specs.crew_solve.Apart as Apart;
ghost use Rattle.crew_fronts.specs.crew_solve.Apart.{is_apart};
ghost use Rattle.crew_fronts.specs.crew_solve.crew_vector.declared.priced.PricedPairing.{PricedPairing as Pairing};

use crew_fronts::crew_solve::crew_vector::PricedPairing;
use crew_pairing::{Key, Leg, Walk};
use std::alloc::{AllocError, Global};
use std::marker::Model;

// One more than the greatest number of a flight.
const NUMBERS: usize = 1_000_000;

// Appends the flight that the crew flies on a leg.
fn push_leg(leg: Leg, flights: &mut Vec<u32>) -> Result<(), AllocError>
    ensures flown { OnOk result (flights.new.items ≡ flights.old.items ++ Apart.flown_on leg) }
    ensures numbers { OnOk result (Each (λ flight. flight < 1_000_000) flights.old.items
        → Each (λ flight. flight < 1_000_000) flights.new.items) }
{
    if !leg.is_deadhead() {
        flights.push(leg.flight().get())?;
    }
    Ok(())
}

// Appends the flights that the crew flies on the legs of a key.
fn push_key(key: &Key, flights: &mut Vec<u32>) -> Result<(), AllocError>
    ensures flown { OnOk result (flights.new.items
        ≡ flights.old.items ++ flat_map Apart.flown_on key.now) }
    ensures numbers { OnOk result (Each (λ flight. flight < 1_000_000) flights.old.items
        → Each (λ flight. flight < 1_000_000) flights.new.items) }
{
    let legs = key.legs();
    for &leg in legs {
        push_leg(leg, flights)?;
    }
    Ok(())
}

// The flights that a walk flies.
fn flown(alloc: Global, walk: &Walk) -> Result<Vec<u32>, AllocError>
    ensures flown { IfOk result (λ flights. flights.items ≡ Apart.flown walk.now) }
    ensures numbers { IfOk result (λ flights. Each (λ flight. flight < 1_000_000) flights.items) }
{
    let mut flights = Vec::new(alloc);
    let keys = walk.keys();
    for key in keys {
        push_key(key, &mut flights)?;
    }
    Ok(flights)
}

// Whether a flight stands before a place.
fn stands_before(flights: &[u32], place: usize, flight: u32) -> bool
    requires { place ≤ length flights.now }
    ensures { result ≡ list_any (nat_eq flight) (take place flights.now) }
{
    flights[..place].iter().any(|&earlier| flight == earlier)
}

// Counts each of these flights once more, and one that stands there twice but once.
fn count_each(counts: &mut [u32], flights: &[u32], share: u32)
    requires long { length counts.old ≡ 1_000_000 }
    requires numbers { Each (λ flight. flight < 1_000_000) flights.now }
    requires room { list_all (λ flight. nat_lt (get_or counts.old flight 0) share) flights.now
        ≡ true }
    ensures { (flight : ℕ) → get_or counts.new flight 0 ≡ get_or counts.old flight 0
        + cond (list_any (nat_eq flight) flights.now) 1 0 }
{
    for (place, &flight) in flights.iter().enumerate() {
        if !stands_before(flights, place, flight) {
            counts[flight as usize] += 1;
        }
    }
}

// So many counts, each of nothing.
fn zeros(alloc: Global, many: usize) -> Result<Vec<u32>, AllocError>
    ensures long { IfOk result (λ counts. length counts.items ≡ many) }
    ensures none { IfOk result (λ counts. (k : ℕ) → get_or counts.items k 0 ≡ 0) }
{
    let counts = vec![in alloc; 0; many]?;
    Ok(counts)
}

// How often a flight is counted.
fn count_of(counts: &[u32], flight: u32) -> u32
    ensures { result ≡ get_or counts.now flight 0 }
{
    counts.get(flight as usize).copied().unwrap_or(0)
}

// Whether each of these flights is counted fewer times than so many.
fn have_room(counts: &[u32], flights: &[u32], share: u32) -> bool
    ensures { result ≡ list_all (λ flight. nat_lt (get_or counts.now flight 0) share) flights.now }
{
    for &flight in flights {
        if count_of(counts, flight) >= share {
            return false;
        }
    }
    true
}

/// Pairings that are taken one after another, each apart from those before it.
///
/// A contract sees how many of them may fly a flight, and them.
#[derive(Drop)]
pub(crate) struct Taken {
    share: u32,
    pairings: Vec<PricedPairing>,
    counts: Vec<u32>,
}

impl Model for Taken {
    ghost use Rattle.std.specs.Prelude.{◌≡◌, ℕ, None, count_by, get_or, length};
    ghost use Rattle.crew_fronts.specs.crew_solve.Apart.{flies};
    ghost use Rattle.crew_fronts.specs.crew_solve.Machinery.Takes as Spec;

    ghost Value = { Spec.Taken };

    ghost view = { λ t. record {
      share = t.share;
      last = None;
      pairings = t.pairings.items;
    } };

    ghost invariant = { λ t. (length t.counts.items ≡ 1_000_000)
        × ((flight : ℕ) → get_or t.counts.items flight 0 ≡ count_by (flies flight) t.pairings.items) };
}

impl Taken {
    ghost use Rattle.crew_fronts.specs.crew_solve.Machinery.Takes as Spec;

    /// None yet.
    pub(crate) fn new(alloc: Global, share: u32) -> Result<Taken, AllocError>
        ensures { IfOk result (λ taken. taken ≡ Spec.none_taken share) }
    {
        let counts = zeros(alloc, NUMBERS)?;
        Ok(Taken {
            share,
            pairings: Vec::new(alloc),
            counts,
        })
    }

    // Whether a pairing that flies these flights is apart from those taken.
    fn have_room(&self, flights: &[u32]) -> bool
        ensures { (p : Pairing) → flights.now ≡ Apart.flown p.walk
            → result ≡ is_apart self.now.share self.now.pairings p }
    {
        have_room(&self.counts, flights, self.share)
    }

    // Takes a pairing where it is apart.
    fn offer(&mut self, alloc: Global, pairing: PricedPairing) -> Result<(), AllocError>
        ensures { OnOk result (self.new ≡ Spec.offered self.old pairing) }
    {
        let flights = flown(alloc, &pairing.walk)?;
        if self.have_room(&flights) {
            self.pairings.push(pairing)?;
            count_each(&mut self.counts, &flights, self.share);
        }
        Ok(())
    }

    /// Takes of these pairings, one after another, each that is apart.
    pub(crate) fn offer_each(
        &mut self,
        alloc: Global,
        pairings: Vec<PricedPairing>,
    ) -> Result<(), AllocError>
        ensures { OnOk result (self.new ≡ Spec.offered_each self.old pairings.items) }
    {
        for pairing in pairings {
            self.offer(alloc, pairing)?;
        }
        Ok(())
    }

    /// The first of those taken, up to a limit.
    pub(crate) fn into_first(self, limit: usize) -> Vec<PricedPairing>
        ensures { result.items ≡ take limit self.pairings }
    {
        let Taken { mut pairings, .. } = self;
        pairings.truncate(limit);
        pairings
    }
}
