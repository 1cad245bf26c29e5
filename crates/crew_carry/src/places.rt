//! Where walks of one list stand in another.
//!
//! Places that stay as they are need no list: those walks alone stand here, in order, that go
//! nowhere since a duty of theirs has no twin.
ghost use Rattle.std.specs.Prelude.{◌≡◌, ◌≤◌, ◌<◌, ◌⊎◌, ℕ, IfOk, None, Some, false, get_or, length, replicate, slice_get, slice_set, true};
ghost use Rattle.crew_carry.specs.Carried.{IsCarried};
ghost use Rattle.crew_carry.specs.Machinery.Places.{HaveTwins, Rise, is_missing};
ghost use Rattle.crew_pool.specs.Renumbered.{walks_under};

use crate::carrier::twin;
use crew_pool::Walks;
use std::alloc::{AllocError, Global};
use std::marker::Model;

/// By place of a walk, where it stands in another list: the first so many at their own places, but for
/// some that stand nowhere, and those after them as is told.
///
/// A contract sees the list of these places.
#[derive(Drop)]
pub(crate) struct Places {
    count: usize,
    // Of the first so many, those that stand nowhere, in order.
    missing: Vec<u32>,
    told: Vec<Option<u32>>,
}

impl Model for Places {
    ghost use Rattle.std.specs.Prelude.{◌++◌, ℕ, List, Option};
    ghost use Rattle.crew_carry.specs.Machinery.Places.{Rise, own_places};

    ghost Value = { List (Option ℕ) };

    ghost view = { λ p. own_places p.count p.missing.items ++ p.told.items };

    ghost invariant = { λ p. Rise p.missing.items };
}

// How many of some numbers, which rise, lie below a number.
fn below(numbers: &[u32], number: u32) -> usize
    requires { Rise numbers.now }
    ensures most { result ≤ length numbers.now }
    ensures before { (i : ℕ) → i < result → get_or numbers.now i 0 < number }
    ensures after { (i : ℕ) → result ≤ i → i < length numbers.now → number ≤ get_or numbers.now i 0 }
{
    numbers.partition_point(|other| *other < number)
}

// Whether a number is one of some, which rise.
fn has(numbers: &[u32], number: u32) -> bool
    requires { Rise numbers.now }
    ensures { result ≡ is_missing numbers.now number }
{
    let place = below(numbers, number);
    place < numbers.len() && numbers[place] == number
}

// Whether a walk has a duty without a twin, where it is told which of the walks before it have.
fn lacks_twin(lacks: &[bool], from: &Walks, twins: &[Option<u32>], walk: u32) -> bool
    requires all { length lacks.now ≡ length from.now }
    requires there { walk < length from.now }
    ensures { result ≡ false → ((before : ℕ) → before < walk
        → get_or lacks.now before false ≡ false → HaveTwins twins.now from.now before)
        → HaveTwins twins.now from.now walk }
{
    match from.last(walk) {
        Some((before, duty)) => lacks[before as usize] || twin(twins, duty).is_none(),
        None => false,
    }
}

// Which walks have a duty without a twin, in order. There is no memory for 2^32 walks.
fn missing_of(alloc: Global, from: &Walks, twins: &[Option<u32>]) -> Result<Vec<u32>, AllocError>
    ensures rise { IfOk result (λ missing. Rise missing.items) }
    ensures others { IfOk result (λ missing. (walk : ℕ) → walk < length from.now
        → is_missing missing.items walk ≡ false → HaveTwins twins.now from.now walk) }
{
    let mut missing = Vec::new(alloc);
    let mut lacks = vec![in alloc; false; from.count()]?;
    for walk in 0..from.count() {
        let Ok(number) = u32::try_from(walk) else {
            return Err(AllocError);
        };
        if lacks_twin(&lacks, from, twins, number) {
            lacks[walk] = true;
            missing.push(number)?;
        }
    }
    Ok(missing)
}

impl Places {
    /// Of so many walks none stands anywhere yet.
    pub(crate) fn none(alloc: Global, count: usize) -> Result<Places, AllocError>
        ensures { IfOk result (λ places. places ≡ replicate count None) }
    {
        let told = vec![in alloc; None; count]?;
        let missing = Vec::new(alloc);
        Ok(Places {
            count: 0,
            missing,
            told,
        })
    }

    /// Walks by the ranks of their duties' twins, each at its own place; those with a duty that has no
    /// twin stand nowhere.
    pub(crate) fn own(
        alloc: Global,
        from: &Walks,
        twins: &[Option<u32>],
    ) -> Result<Places, AllocError>
        ensures { IfOk result (IsCarried twins.now from.now (walks_under twins.now from.now)) }
    {
        let missing = missing_of(alloc, from, twins)?;
        let told = Vec::new(alloc);
        Ok(Places {
            count: from.count(),
            missing,
            told,
        })
    }

    /// Where a walk stands.
    pub(crate) fn at(&self, walk: u32) -> Option<u32>
        requires { walk < length self.now }
        ensures { slice_get self.now walk ≡ Some result }
    {
        let place = walk as usize;
        if place >= self.count {
            return self.told[place - self.count];
        }
        if has(&self.missing, walk) {
            None
        } else {
            Some(walk)
        }
    }

    /// Whether a walk stands at its own place.
    pub(crate) fn is_own(&self, walk: u32) -> bool
        requires { walk < length self.now }
        ensures { result ≡ true → slice_get self.now walk ≡ Some (Some walk) }
    {
        match self.at(walk) {
            Some(place) => place == walk,
            None => false,
        }
    }

    /// Tells where a walk stands. One of the first may go on to stand nowhere.
    pub(crate) fn put(&mut self, walk: u32, place: u32)
        requires { walk < length self.old }
        ensures { (self.new ≡ slice_set self.old walk (Some place)) ⊎ (self.new ≡ self.old) }
    {
        let at = walk as usize;
        if at >= self.count {
            let count = self.count;
            self.told[at - count] = Some(place);
        }
    }

    /// Whether each walk from one place to another is known to stand at its own. `false` promises nothing.
    pub(crate) fn stand(&self, first: u32, last: u32) -> bool
        ensures { result ≡ true → (walk : ℕ) → first ≤ walk → walk ≤ last
            → slice_get self.now walk ≡ Some (Some walk) }
    {
        let place = below(&self.missing, first);
        (last as usize) < self.count && (place == self.missing.len() || last < self.missing[place])
    }
}
