//! A front.
ghost use Rattle.std.specs.Prelude.{◌≡◌, ◌↔◌, [], List, ℕ, length, map, not, slice_get, IsTrue, IfOk, OnErr, ◌≤◌, vec_len, vec_capacity, OnOk, slice_set, ◌<◌, ◌++◌, ◌∷◌, MatchOption, None, Some, false};
ghost use Rattle.std.specs.List.{position, position_or_len, filter, All, Any};
ghost use Rattle.std.specs.Ordering.{is_eq, is_lt};
ghost use Rattle.std.specs.Slice.Iter.{iter_rest};
ghost use Rattle.crew_pairing.specs.Legs.{Leg};
ghost use Rattle.crew_resource.specs.Labels.{Beats};
ghost use Rattle.crew_resource.specs.Members.{Member};
ghost use Rattle.crew_resource.specs.Entries.{IsApart, placed};
ghost use Rattle.crew_front.specs.Machinery.Grades.{Admitted, HoldSame};
ghost use Rattle.crew_front.specs.Walks.{lesser};
ghost use Rattle.crew_pairing.specs.Local.{IsLocalOf};

use crate::buckets::Buckets;
use crew_pairing::Walk;
use crew_resource::Resource;
use std::alloc::{AllocError, Global};
use std::marker::Model;
use std::slice;

/// What an offer did.
#[derive(Clone, Copy, Debug, PartialEq, Eq)]
pub enum Offer {
    /// No entry dominated or equalled the vector: it joined, and those that it dominates went.
    Kept,
    /// An entry dominates the vector.
    Beaten,
    /// The vector was there: the lesser path stays.
    Tied,
}

/// A Pareto front: the non-dominated vectors, in order of vector, each with its least path.
///
/// A contract sees the list of the vectors with their walks.
///
/// Callers read the entries in order of vector, so they stand in one list. An offer searches the
/// vectors alone, in a bucket for each grade, and goes through the entries only where it changes
/// them.
#[derive(Drop)]
pub struct Front<R: Resource + Drop> {
    resource: R,
    entries: Vec<(R::Value, Walk)>,
    buckets: Buckets<R>,
}

impl<R: Resource + Drop> Model for Front<R> {
    ghost Value = { List (R.Value × List (List Leg)) };

    ghost view = { λ f. f.entries.items };

    ghost invariant = { λ f. IsApart R.Value.cmp R.below (map (λ e. e.0) f.entries.items)
        × HoldSame (map (λ e. e.0) f.entries.items) f.buckets };
}

impl<R: Resource + Drop> Front<R> {
    ghost use Rattle.crew_front.specs.Offers.{Offered};

    /// No entries, over the values of a resource.
    pub fn new(alloc: Global, resource: R) -> Self
        ensures { result ≡ [] }
    {
        Front {
            resource,
            entries: Vec::new(alloc),
            buckets: Buckets::new(alloc),
        }
    }

    /// The front that has these entries, as a pool's view lists them: rising by vector, and none at
    /// most another.
    pub fn of_rising(
        alloc: Global,
        resource: R,
        entries: Vec<(R::Value, Walk)>,
    ) -> Result<Self, AllocError>
        requires { IsApart R.Value.cmp R.below (map (λ e. e.0) entries.items) }
        ensures { IfOk result (λ front. front ≡ entries.items) }
    {
        let buckets = bucketed(alloc, &resource, &entries)?;
        Ok(Front {
            resource,
            entries,
            buckets,
        })
    }

    /// How many entries there are.
    pub fn len(&self) -> usize
        ensures { result ≡ length self.now }
    {
        self.entries.len()
    }

    /// Whether there are none.
    pub fn is_empty(&self) -> bool
        ensures { IsTrue result ↔ (self.now ≡ []) }
    {
        self.entries.is_empty()
    }

    /// The entries, in order of vector: they rise, and none is at most another.
    pub fn as_slice(&self) -> &[(R::Value, Walk)]
        ensures all { result.now ≡ self.now }
        ensures apart { IsApart R.Value.cmp R.below (map (λ e. e.0) self.now) }
    {
        self.entries.as_slice()
    }

    /// The entries, in order of vector.
    pub fn iter(&self) -> slice::Iter<'_, (R::Value, Walk)>
        ensures all { iter_rest result ≡ self.now }
        ensures apart { IsApart R.Value.cmp R.below (map (λ e. e.0) self.now) }
    {
        self.entries.iter()
    }

    /// The entry at a place, from 0, in order of vector.
    pub fn get(&self, place: usize) -> Option<&(R::Value, Walk)>
        ensures { MatchOption result (slice_get self.now place ≡ None)
            (λ entry. slice_get self.now place ≡ Some entry.now) }
    {
        self.entries.get(place)
    }

    /// Offers a vector with a path.
    ///
    /// `Beaten` exactly where an entry dominates it, and nothing changes. `Tied` exactly where the
    /// vector is there: the lesser path stays. Else `Kept`: exactly the entries that it dominates go,
    /// and it joins. If the entries were what a list of candidates leaves, they are then what that
    /// list leaves with this one after it. Only a vector that joins takes memory; on want of it
    /// nothing changes.
    pub fn offer(&mut self, value: R::Value, walk: Walk) -> Result<Offer, AllocError>
        ensures ok { IfOk result (Offered R.below R.Value.cmp self.old value walk self.new) }
        ensures beaten { (result ≡ Ok Offer.Beaten) ↔ Any (λ e. Beats R.below e.0 value) self.old }
        ensures tied { (result ≡ Ok Offer.Tied) ↔ Any (λ e. e.0 ≡ value) self.old }
        ensures memory { OnErr result (All (λ e. R.below e.0 value ≡ false) self.old) }
        ensures local { OnOk result ((candidates : List (R.Value × List (List Leg)))
            → IsLocalOf R.below candidates self.old
            → IsLocalOf R.below (candidates ++ (value, walk) ∷ []) self.new) }
        ensures err { OnErr result (self.new ≡ self.old) }
    {
        let Some(found) = self.buckets.find_at_most(&self.resource, &value) else {
            join(
                &self.resource,
                &mut self.entries,
                &mut self.buckets,
                value,
                walk,
            )?;
            return Ok(Offer::Kept);
        };
        if !self.resource.at_most(&value, found) {
            return Ok(Offer::Beaten);
        }
        let place = place_of::<R>(&self.entries, &value);
        lower(&mut self.entries, place, walk);
        Ok(Offer::Tied)
    }
}

impl<R: Resource + Copy + Drop> Front<R> {
    /// An equal front.
    pub fn copy(&self, alloc: Global) -> Result<Front<R>, AllocError>
        ensures { IfOk result (λ front. front ≡ self.now) }
    {
        let mut entries = Vec::new(alloc);
        for entry in &self.entries {
            let value = self.resource.copy(&entry.0)?;
            let walk = entry.1.copy(alloc)?;
            entries.push((value, walk))?;
        }
        Front::of_rising(alloc, self.resource, entries)
    }
}

// The vectors of entries, in buckets.
fn bucketed<R: Resource + Drop>(
    alloc: Global,
    resource: &R,
    entries: &[(R::Value, Walk)],
) -> Result<Buckets<R>, AllocError>
    ensures { IfOk result (λ buckets. HoldSame (map (λ e. e.0) entries.now) buckets) }
{
    let mut buckets = Buckets::new(alloc);
    for entry in entries {
        let value = resource.copy(&entry.0)?;
        buckets.put(resource, value)?;
    }
    Ok(buckets)
}

// Puts the lesser of its walk and this one into an entry.
fn lower<V: Drop>(entries: &mut Vec<(V, Walk)>, place: usize, walk: Walk)
    requires { place < vec_len entries.old }
    ensures { (value : V) (was : List (List Leg))
        → slice_get entries.old.items place ≡ Some (value, was)
        → entries.new.items ≡ slice_set entries.old.items place (value, lesser was walk) }
{
    let entry = &mut entries[place];
    if walk < entry.1 {
        entry.1 = walk;
    }
}

// Puts a vector in its place, and lets go of those that it is at most.
fn join<R: Resource + Drop>(
    resource: &R,
    entries: &mut Vec<(R::Value, Walk)>,
    buckets: &mut Buckets<R>,
    value: R::Value,
    walk: Walk,
) -> Result<(), AllocError>
    requires same { HoldSame (map (λ e. e.0) entries.old.items) buckets.old }
    ensures ok { OnOk result (entries.new.items ≡ placed (λ e. is_lt (R.Value.cmp value e.0))
        (value, walk) (filter (λ e. not (R.below value e.0)) entries.old.items)) }
    ensures buckets { OnOk result (Admitted R.below value buckets.old buckets.new) }
    ensures err { OnErr result ((entries.new.items ≡ entries.old.items)
        × (buckets.new ≡ buckets.old)) }
{
    entries.reserve(1)?;
    let twin = resource.copy(&value)?;
    let any = buckets.admit(resource, twin)?;
    drop_beaten(resource, entries, &value, any);
    let gap = gap_for::<R>(entries, &value);
    entries.insert(gap, (value, walk))?;
    Ok(())
}

// Lets go of the entries that the vector is at most, if there are any: none has a lesser grade.
fn drop_beaten<R: Resource>(
    resource: &R,
    entries: &mut Vec<(R::Value, Walk)>,
    value: &R::Value,
    any: bool,
)
    requires { any ≡ false → (e : R.Value × List (List Leg)) → Member entries.old.items e
        → R.below value.now e.0 ≡ false }
    ensures kept { entries.new.items ≡ filter (λ e. not (R.below value.now e.0)) entries.old.items }
    ensures fewer { vec_len entries.new ≤ vec_len entries.old }
    ensures capacity { vec_capacity entries.new ≡ vec_capacity entries.old }
{
    if !any {
        return;
    }
    let grade = resource.grade(value);
    entries.retain(|entry| resource.grade(&entry.0) < grade || !resource.at_most(value, &entry.0));
}

// The place of the entry that has the vector.
fn place_of<R: Resource>(entries: &[(R::Value, Walk)], value: &R::Value) -> usize
    requires { Member (map (λ e. e.0) entries.now) value.now }
    ensures { (was : List (List Leg)) × (slice_get entries.now result ≡ Some (value.now, was)) }
{
    first_equal::<R>(entries, value).unwrap_or(entries.len())
}

// The place of the first entry that has the vector.
fn first_equal<R: Resource>(entries: &[(R::Value, Walk)], value: &R::Value) -> Option<usize>
    ensures { result ≡ position (λ e. is_eq (R.Value.cmp value.now e.0)) entries.now }
{
    entries.iter().position(|entry| value.cmp(&entry.0).is_eq())
}

// The place of the first entry that is listed after the vector, or the end.
fn gap_for<R: Resource>(entries: &[(R::Value, Walk)], value: &R::Value) -> usize
    ensures { result ≡ position_or_len (λ e. is_lt (R.Value.cmp value.now e.0)) entries.now }
{
    first_after::<R>(entries, value).unwrap_or(entries.len())
}

// The place of the first entry that is listed after the vector.
fn first_after<R: Resource>(entries: &[(R::Value, Walk)], value: &R::Value) -> Option<usize>
    ensures { result ≡ position (λ e. is_lt (R.Value.cmp value.now e.0)) entries.now }
{
    entries.iter().position(|entry| value.cmp(&entry.0).is_lt())
}
