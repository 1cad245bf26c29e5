//! Pairings taken one after another that share few flights.

ghost use Rattle.std.specs.Prelude.{◌≡◌, ◌≤◌, ◌<◌, ◌+◌, ◌++◌, ◌∷◌, ℕ, IfOk, List, OnOk, Some, [], cond, false, get_or, length, nat_eq, nat_lt, take, true};
ghost use Rattle.std.specs.List.{flat_map, list_all, list_any};
ghost use Rattle.std.specs.Ordering.{is_lt};
ghost use Rattle.crew_pairing.specs.Legs.{Leg as LegOf};
ghost use Rattle.crew_resource.specs.Members.{Each};
ghost use Rattle.crew_solve.specs.Apart as Apart;
ghost use Rattle.crew_solve.specs.Apart.{is_apart};
ghost use Rattle.crew_solve.specs.Cheapest.{pairing_cmp};
ghost use Rattle.crew_solve.specs.Machinery.Floors.{may_begin};
ghost use Rattle.crew_vector.specs.declared.priced.PricedPairing.{PricedPairing as Pairing};

use crate::walk_view::WalkView;
use crew_pairing::{Key, Leg, Walk};
use crew_vector::PricedPairing;
use std::alloc::{AllocError, Global};
use std::cmp::Ordering;
use std::marker::Model;

// One more than the greatest number of a flight.
const NUMBERS: usize = 1_000_000;

// Whether one pairing comes before another, by cost and then by walk.
fn is_before(one: &PricedPairing, other: &PricedPairing) -> bool
    ensures { result ≡ is_lt (pairing_cmp one.now other.now) }
{
    let by_cost = one.cost.cmp(&other.cost);
    by_cost.then(one.walk.cmp(&other.walk)) == Ordering::Less
}

// Appends the flight that the crew flies on a leg.
fn push_leg(leg: Leg, flights: &mut Vec<u32>) -> Result<(), AllocError>
    ensures flown { OnOk result (flights.new.items ≡ flights.old.items ++ Apart.flown_on leg) }
    ensures numbers { OnOk result (Each (λ flight. flight < 1_000_000) flights.old.items
        → Each (λ flight. flight < 1_000_000) flights.new.items) }
{
    if !leg.is_deadhead() {
        flights.push(leg.flight().get())?;
    }
    Ok(())
}

// Appends the flights that the crew flies on the legs of a key.
fn push_key(key: &Key, flights: &mut Vec<u32>) -> Result<(), AllocError>
    ensures flown { OnOk result (flights.new.items
        ≡ flights.old.items ++ flat_map Apart.flown_on key.now) }
    ensures numbers { OnOk result (Each (λ flight. flight < 1_000_000) flights.old.items
        → Each (λ flight. flight < 1_000_000) flights.new.items) }
{
    let legs = key.legs();
    for &leg in legs {
        push_leg(leg, flights)?;
    }
    Ok(())
}

// The flights that a walk flies.
fn flown(alloc: Global, walk: &Walk) -> Result<Vec<u32>, AllocError>
    ensures flown { IfOk result (λ flights. flights.items ≡ Apart.flown walk.now) }
    ensures numbers { IfOk result (λ flights. Each (λ flight. flight < 1_000_000) flights.items) }
{
    let mut flights = Vec::new(alloc);
    let keys = walk.keys();
    for key in keys {
        push_key(key, &mut flights)?;
    }
    Ok(flights)
}

// Whether a flight stands before a place.
fn stands_before(flights: &[u32], place: usize, flight: u32) -> bool
    requires { place ≤ length flights.now }
    ensures { result ≡ list_any (nat_eq flight) (take place flights.now) }
{
    flights[..place].iter().any(|&earlier| flight == earlier)
}

// Counts each of these flights once more, and one that stands there twice but once.
fn count_each(counts: &mut [u32], flights: &[u32], share: u32)
    requires long { length counts.old ≡ 1_000_000 }
    requires numbers { Each (λ flight. flight < 1_000_000) flights.now }
    requires room { list_all (λ flight. nat_lt (get_or counts.old flight 0) share) flights.now
        ≡ true }
    ensures { (flight : ℕ) → get_or counts.new flight 0 ≡ get_or counts.old flight 0
        + cond (list_any (nat_eq flight) flights.now) 1 0 }
{
    for (place, &flight) in flights.iter().enumerate() {
        if !stands_before(flights, place, flight) {
            counts[flight as usize] += 1;
        }
    }
}

// So many counts, each of nothing.
fn zeros(alloc: Global, many: usize) -> Result<Vec<u32>, AllocError>
    ensures long { IfOk result (λ counts. length counts.items ≡ many) }
    ensures none { IfOk result (λ counts. (k : ℕ) → get_or counts.items k 0 ≡ 0) }
{
    let counts = vec![in alloc; 0; many]?;
    Ok(counts)
}

// How often a flight is counted.
fn count_of(counts: &[u32], flight: u32) -> u32
    ensures { result ≡ get_or counts.now flight 0 }
{
    counts.get(flight as usize).copied().unwrap_or(0)
}

// Whether each of these flights is counted fewer times than so many.
fn have_room(counts: &[u32], flights: &[u32], share: u32) -> bool
    ensures { result ≡ list_all (λ flight. nat_lt (get_or counts.now flight 0) share) flights.now }
{
    for &flight in flights {
        if count_of(counts, flight) >= share {
            return false;
        }
    }
    true
}

// Whether the flight of a leg, where the crew flies it, is counted fewer times than so many.
fn leg_has_room(counts: &[u32], leg: Leg, share: u32) -> bool
    ensures { result ≡ list_all (λ flight. nat_lt (get_or counts.now flight 0) share)
        (Apart.flown_on leg) }
{
    leg.is_deadhead() || count_of(counts, leg.flight().get()) < share
}

// Whether each flight that the crew flies on these legs is counted fewer times than so many.
fn legs_have_room(counts: &[u32], legs: &[Leg], share: u32) -> bool
    ensures { result ≡ list_all (λ flight. nat_lt (get_or counts.now flight 0) share)
        (flat_map Apart.flown_on legs.now) }
{
    for &leg in legs {
        if !leg_has_room(counts, leg, share) {
            return false;
        }
    }
    true
}

// Whether each flight that a walk flies is counted fewer times than so many.
fn walk_has_room(counts: &[u32], walk: &WalkView<'_>, share: u32) -> bool
    ensures { result ≡ list_all (λ flight. nat_lt (get_or counts.now flight 0) share)
        (Apart.flown walk.now) }
{
    let Some((before, last)) = walk.split_last() else {
        return true;
    };
    legs_have_room(counts, last.legs(), share) && walk_has_room(counts, &before, share)
}

/// Pairings that are taken one after another, each apart from those before it.
///
/// A contract sees how many of them may fly a flight, the last that was looked at, and them.
pub(crate) struct Taken {
    share: u32,
    last: Option<PricedPairing>,
    pairings: Vec<PricedPairing>,
    counts: Vec<u32>,
}

impl Drop for Taken {
    fn drop(self) {
        let Self {
            share: _,
            last: _,
            pairings: _,
            counts: _,
        } = self;
    }
}

impl Model for Taken {
    ghost use Rattle.std.specs.Prelude.{◌≡◌, ℕ, count_by, get_or, length};
    ghost use Rattle.crew_solve.specs.Apart.{flies};
    ghost use Rattle.crew_solve.specs.Machinery.Takes as Spec;

    ghost Value = { Spec.Taken };

    ghost view = { λ t. record {
      share = t.share;
      last = t.last;
      pairings = t.pairings.items;
    } };

    ghost invariant = { λ t. (length t.counts.items ≡ 1_000_000)
        × ((flight : ℕ) → get_or t.counts.items flight 0 ≡ count_by (flies flight) t.pairings.items) };
}

impl Taken {
    ghost use Rattle.crew_solve.specs.Machinery.Takes as Spec;

    /// None yet.
    pub(crate) fn new(alloc: Global, share: u32) -> Result<Taken, AllocError>
        ensures { IfOk result (λ taken. taken ≡ Spec.none_taken share) }
    {
        let counts = zeros(alloc, NUMBERS)?;
        Ok(Taken {
            share,
            last: None,
            pairings: Vec::new(alloc),
            counts,
        })
    }

    /// How many are taken.
    pub(crate) fn len(&self) -> usize
        ensures { result ≡ length self.now.pairings }
    {
        self.pairings.len()
    }

    // Whether a pairing comes after the last that was looked at.
    fn is_past(&self, pairing: &PricedPairing) -> bool
        ensures { result ≡ Spec.is_past self.now.last pairing.now }
    {
        match &self.last {
            None => true,
            Some(last) => is_before(last, pairing),
        }
    }

    // Whether a pairing that flies these flights is apart from those taken.
    fn have_room(&self, flights: &[u32]) -> bool
        ensures { (p : Pairing) → flights.now ≡ Apart.flown p.walk
            → result ≡ is_apart self.now.share self.now.pairings p }
    {
        have_room(&self.counts, flights, self.share)
    }

    /// Whether a pairing may still be taken.
    pub(crate) fn may_take(
        &self,
        alloc: Global,
        pairing: &PricedPairing,
    ) -> Result<bool, AllocError>
        ensures { IfOk result (λ may. may ≡ Spec.may_take self.now pairing.now) }
    {
        let flights = flown(alloc, &pairing.walk)?;
        Ok(self.is_past(pairing) && self.have_room(&flights))
    }

    // Whether a pairing of this cost may come after the last that was looked at.
    fn reaches(&self, cost: i64) -> bool
        ensures { result ≡ false → (p : Pairing) → p.cost ≡ cost
            → Spec.is_past self.now.last p ≡ false }
    {
        match &self.last {
            None => true,
            Some(last) => last.cost <= cost,
        }
    }

    /// Whether pairings that begin with a walk may still be taken. It takes no memory.
    pub(crate) fn may_begin(&self, walk: &WalkView<'_>) -> bool
        ensures { result ≡ may_begin (Some self.now) walk.now }
    {
        walk_has_room(&self.counts, walk, self.share)
    }

    /// Whether a pairing that ends with the duty of a key may still be taken.
    pub(crate) fn may_end(&self, key: &Key) -> bool
        ensures { result ≡ false → (p : Pairing) (before : List (List LegOf))
            → p.walk ≡ before ++ key.now ∷ [] → Spec.may_take self.now p ≡ false }
    {
        legs_have_room(&self.counts, key.legs(), self.share)
    }

    /// Whether a pairing of this cost and walk may still be taken.
    pub(crate) fn may_pass(&self, cost: i64, walk: &WalkView<'_>) -> bool
        ensures { result ≡ false → (p : Pairing) → p.cost ≡ cost → p.walk ≡ walk.now
            → Spec.may_take self.now p ≡ false }
    {
        self.reaches(cost) && walk_has_room(&self.counts, walk, self.share)
    }

    // Takes a pairing that flies these flights where it is apart.
    fn offer_flying(&mut self, pairing: PricedPairing, flights: &[u32]) -> Result<(), AllocError>
        requires flown { flights.now ≡ Apart.flown pairing.walk }
        requires numbers { Each (λ flight. flight < 1_000_000) flights.now }
        ensures { OnOk result (self.new ≡ Spec.offered self.old pairing) }
    {
        if self.have_room(flights) {
            self.pairings.push(pairing)?;
            count_each(&mut self.counts, flights, self.share);
        }
        Ok(())
    }

    // Takes a pairing where it is apart.
    fn offer(&mut self, alloc: Global, pairing: PricedPairing) -> Result<(), AllocError>
        ensures { OnOk result (self.new ≡ Spec.offered self.old pairing) }
    {
        let flights = flown(alloc, &pairing.walk)?;
        self.offer_flying(pairing, &flights)
    }

    // Goes past the last of these pairings, if there is one.
    fn go_past(&mut self, alloc: Global, pairings: &[PricedPairing]) -> Result<(), AllocError>
        ensures { OnOk result (self.new ≡ Spec.gone_past self.old pairings.now) }
    {
        if let Some(last) = pairings.last() {
            let last = last.copy(alloc)?;
            self.last = Some(last);
        }
        Ok(())
    }

    // Takes of these pairings, one after another, each that is apart.
    fn offer_each(&mut self, alloc: Global, pairings: Vec<PricedPairing>) -> Result<(), AllocError>
        ensures { OnOk result (self.new ≡ Spec.offered_each self.old pairings.items) }
    {
        for pairing in pairings {
            self.offer(alloc, pairing)?;
        }
        Ok(())
    }

    /// Looks at pairings one after another.
    pub(crate) fn look_at(
        &mut self,
        alloc: Global,
        pairings: Vec<PricedPairing>,
    ) -> Result<(), AllocError>
        ensures { OnOk result (self.new ≡ Spec.looked_at self.old pairings.items) }
    {
        self.go_past(alloc, &pairings)?;
        self.offer_each(alloc, pairings)
    }

    /// The first of those taken, up to a limit.
    pub(crate) fn into_first(self, limit: usize) -> Vec<PricedPairing>
        ensures { result.items ≡ take limit self.pairings }
    {
        let Self {
            share: _,
            last: _,
            mut pairings,
            counts: _,
        } = self;
        pairings.truncate(limit);
        pairings
    }
}
