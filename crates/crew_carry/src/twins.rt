//! What two networks have alike.
ghost use Rattle.std.specs.Prelude.{◌≡◌, ◌<◌, ℕ, IfOk, IfSome, IsTrue, ◌↔◌, Some, length, slice_get};
ghost use Rattle.crew_carry.specs.Carried.{AreTwinWalks, twin_of};
ghost use Rattle.crew_carry.specs.Machinery.Matches.{AreMatches};
ghost use Rattle.crew_carry.specs.Machinery.Sames.{AreSameDuties};
ghost use Rattle.crew_carry.specs.Twins.{AreTwins, HasAllTwins, HaveSameArriving, IsInOrder};
ghost use Rattle.crew_pairing.specs.Keys.{key_cmp};
ghost use Rattle.crew_pairing.specs.declared.events.Arrival.{Arrival};

use crate::carrier::twin;
use crate::in_line::match_up;
use crate::ranks::match_ranks;
use crew_net::Net;
use crew_pairing::{Duties, Duty};
use crew_step::is_same_duty;
use std::alloc::{AllocError, Global};
use std::marker::Model;

/// What two networks have alike: departures, arrivals with their duties, and keys of duties.
///
/// A contract sees, by place in the new network or by rank in the old one, where the other has it.
pub struct Twins {
    departures: Vec<Option<u32>>,
    arrivals: Vec<Option<u32>>,
    ranks: Vec<Option<u32>>,
}

impl Drop for Twins {
    fn drop(self) {
        let Self {
            departures: _,
            arrivals: _,
            ranks: _,
        } = self;
    }
}

impl Model for Twins {
    ghost use Rattle.crew_carry.specs.Twins as Spec;

    ghost Value = { Spec.Twins };

    ghost view = { λ t. record {
      departures = t.departures.items;
      arrivals = t.arrivals.items;
      ranks = t.ranks.items;
    } };
}

impl Twins {
    /// What an old and a new network have alike.
    pub fn of(alloc: Global, old: &Net, new: &Net) -> Result<Twins, AllocError>
        ensures twins { IfOk result (AreTwins old.now new.now) }
        ensures all { IfOk result (λ twins. IsInOrder old.now → IsInOrder new.now
            → HasAllTwins old.now new.now twins) }
    {
        let departures = match_up(alloc, new.departures(), old.departures())?;
        let olds = old.duties();
        let news = new.duties();
        let ranks = match_ranks(alloc, olds, news)?;
        let same = same_ranks(alloc, olds, &ranks, news)?;
        let arrivals = arrival_twins(alloc, old, new, &same)?;
        Ok(Twins {
            departures,
            arrivals,
            ranks,
        })
    }

    /// The place in the old network of a departure of the new one.
    pub fn departure(&self, place: usize) -> Option<usize>
        requires { place < length self.now.departures }
        ensures { slice_get self.now.departures place ≡ Some result }
    {
        wide(self.departures[place])
    }

    /// The place in the old network of an arrival of the new one, if the same duties arrive there.
    pub fn arrival(&self, place: usize) -> Option<usize>
        requires { place < length self.now.arrivals }
        ensures { slice_get self.now.arrivals place ≡ Some result }
    {
        wide(self.arrivals[place])
    }

    /// Whether an arrival of the new network stands at a place in the old one, with the same duties.
    pub fn has_arrival_at(&self, place: usize, old: usize) -> bool
        requires { place < length self.now.arrivals }
        ensures { IsTrue result ↔ (slice_get self.now.arrivals place ≡ Some (Some old)) }
    {
        match self.arrival(place) {
            Some(there) => there == old,
            None => false,
        }
    }

    /// The rank in the new network of each duty of the old one that has its key there.
    pub fn ranks(&self) -> &[Option<u32>]
        ensures { result.now ≡ self.now.ranks }
    {
        &self.ranks
    }
}

// The same place.
fn wide(place: Option<u32>) -> Option<usize>
    ensures { result ≡ place }
{
    match place {
        Some(place) => Some(place as usize),
        None => None,
    }
}

// By rank of the old duties, the rank of the same duty among the new ones, with all its facts.
//
// Both lists are read in order, once. The duties of an arrival, which stand far apart, are then
// compared by rank alone.
fn same_ranks(
    alloc: Global,
    olds: &Duties,
    ranks: &[Option<u32>],
    news: &Duties,
) -> Result<Vec<Option<u32>>, AllocError>
    requires { AreMatches (λ d e. key_cmp d.key e.key) olds.now news.now ranks.now }
    ensures { IfOk result (λ same. AreSameDuties olds.now news.now same.items) }
{
    let mut same = Vec::with_capacity(alloc, ranks.len())?;
    for rank in 0..ranks.len() {
        same.push(same_rank(olds.at(rank), ranks[rank], news))?;
    }
    Ok(same)
}

// The rank, if the duty there is the same, with all its facts.
fn same_rank(old: &Duty, found: Option<u32>, news: &Duties) -> Option<u32>
    requires { IfSome found (λ rank. rank < length news.now) }
    ensures same { IfSome result (λ rank. slice_get news.now rank ≡ Some old.now) }
    ensures all { (rank : ℕ) → found ≡ Some rank → slice_get news.now rank ≡ Some old.now
        → result ≡ Some rank }
{
    let rank = found?;
    if is_same_duty(old, news.at(rank as usize)) {
        return Some(rank);
    }
    None
}

// By place of the new arrivals, where the old network has it with the same duties.
fn arrival_twins(
    alloc: Global,
    old: &Net,
    new: &Net,
    same: &[Option<u32>],
) -> Result<Vec<Option<u32>>, AllocError>
    requires { AreSameDuties old.now.duties new.now.duties same.now }
    ensures long { IfOk result (λ twins. length twins.items ≡ length new.now.arrivals) }
    ensures same { IfOk result (λ twins. (p q : ℕ) → slice_get twins.items p ≡ Some (Some q)
        → (x : Arrival) × (slice_get old.now.arrivals q ≡ Some x)
        × (slice_get new.now.arrivals p ≡ Some x) × HaveSameArriving old.now new.now x) }
    ensures all { IfOk result (λ twins. IsInOrder old.now → IsInOrder new.now
        → (p q : ℕ) (x : Arrival) → slice_get old.now.arrivals q ≡ Some x
        → slice_get new.now.arrivals p ≡ Some x → HaveSameArriving old.now new.now x
        → slice_get twins.items p ≡ Some (Some q)) }
{
    let matches = match_up(alloc, new.arrivals(), old.arrivals())?;
    let mut twins = Vec::with_capacity(alloc, matches.len())?;
    for place in 0..matches.len() {
        twins.push(arrival_twin(old, matches[place], new, place, same))?;
    }
    Ok(twins)
}

// The place in the old network, if the same duties arrive there.
fn arrival_twin(
    old: &Net,
    found: Option<u32>,
    new: &Net,
    place: usize,
    same: &[Option<u32>],
) -> Option<u32>
    requires found { IfSome found (λ q. (x : Arrival) × (slice_get old.now.arrivals q ≡ Some x)
        × (slice_get new.now.arrivals place ≡ Some x)) }
    requires same { AreSameDuties old.now.duties new.now.duties same.now }
    ensures same { IfSome result (λ q. (x : Arrival) × (slice_get old.now.arrivals q ≡ Some x)
        × (slice_get new.now.arrivals place ≡ Some x) × HaveSameArriving old.now new.now x) }
    ensures all { IsInOrder old.now → IsInOrder new.now → (q : ℕ) (x : Arrival)
        → found ≡ Some q → slice_get new.now.arrivals place ≡ Some x
        → HaveSameArriving old.now new.now x → result ≡ Some q }
{
    let was = found?;
    if are_same(same, old.arriving(was as usize), new.arriving(place)) {
        return Some(was);
    }
    None
}

// Whether the new ranks are those of the same duties as the old ones, one by one.
fn are_same(same: &[Option<u32>], olds: &[u32], news: &[u32]) -> bool
    ensures { IsTrue result ↔ AreTwinWalks same.now olds.now news.now }
{
    if olds.len() != news.len() {
        return false;
    }
    for place in 0..olds.len() {
        if !is_same(same, olds[place], news[place]) {
            return false;
        }
    }
    true
}

// Whether the new rank is that of the same duty as the old one.
fn is_same(same: &[Option<u32>], old: u32, new: u32) -> bool
    ensures { IsTrue result ↔ (twin_of same.now old ≡ Some new) }
{
    match twin(same, old) {
        Some(found) => found == new,
        None => false,
    }
}
