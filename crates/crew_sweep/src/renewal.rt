//! What a pass keeps of an earlier one.
//!
//! A departure is kept where its window holds just the arrivals that its twin's held, each as it
//! was; else it shares the pool of the one before it where both wait on the same; else it is mended
//! where few arrivals of its window have changed; else it is made anew. Where it then shows what
//! its twin showed nothing is marked, and else all arrivals of the duties that leave there are.
//! Where all of these are marked by then, or have other duties than they had, the two pools aren't
//! compared. From one retimed flight arcs lead to most of what leaves later, and few fronts there
//! change: so change is told by comparing pools and not by following arcs. The pass begins with the
//! walks of the earlier one, each in its place; where more than half of them are of no label any
//! more it begins with none, and copies what it keeps.
ghost use Rattle.std.specs.Arc.{arc_value};
ghost use Rattle.std.specs.Prelude.{◌≡◌, ◌<◌, ◌+◌, ℕ, IfOk, IfSome, Ok, OnOk, false, get_or, length, slice_get, true, Some};
ghost use Rattle.crew_carry.specs.Carried.{IsCarried};
ghost use Rattle.crew_net.specs.Machinery.Numbered.{arrival_place};
ghost use Rattle.crew_pairing.specs.Events.{arrival_of, departure_of};
ghost use Rattle.crew_pairing.specs.declared.duty.Duty.{Duty};
ghost use Rattle.crew_pairing.specs.declared.events.Departure.{Departure};
ghost use Rattle.crew_pairing.specs.declared.vector.PairingVector.{PairingVector};
ghost use Rattle.crew_pool.specs.Counted.{AreCounted};
ghost use Rattle.crew_resource.specs.Members.{Member};
ghost use Rattle.crew_carry.specs.crew_step.Walks.{HasGrown};
ghost use Rattle.crew_sweep.specs.Machinery.Beside.{HasOldLabels, IsBeside, StandsBeside};
ghost use Rattle.crew_sweep.specs.Machinery.Digests.{IsDigest};
ghost use Rattle.crew_sweep.specs.Machinery.Grounds.{IsGround};
ghost use Rattle.crew_sweep.specs.Machinery.Renewing.{IsKeptPool};

use crate::differing::Differing;
use crate::earlier::{Earlier, Kept};
use crate::ground::Ground;
use crate::passing::Passing;
use crate::same::shares_pool;
use crew_anchor::AnchoredResource;
use crew_carry::{Carrier, Twins, are_alike};
use crew_pool::{Pool, Walks};
use std::alloc::{AllocError, Global};
use std::sync::Arc;

// How many walks of an earlier pass there may be for each label of its pools, for its pools to be kept
// as they stand: walks that no label has any more are kept with them.
const SPARE: usize = 2;

/// A pass that keeps what it can of an earlier one: what it has carried over; the marks of change at
/// arrivals, of which each that has none comes from pools that have the labels that they had; and
/// where an arrival was seen to show what it showed, its old place.
#[derive(Drop)]
pub(crate) struct Renewal {
    pub(crate) passing: Passing,
    pub(crate) carrier: Carrier,
    pub(crate) changed: Vec<bool>,
    pub(crate) alike: Vec<Option<usize>>,
    pub(crate) differing: Differing,
}

// The pool of the departure at a place as the earlier pass left it, where all that it waits on is as
// it was. One that would have to be copied isn't kept where the pool of the departure before can be
// shared in its place.
fn kept_pool(
    alloc: Global,
    earlier: &Earlier,
    ground: &Ground,
    place: usize,
    changed: &[bool],
    alike: &[Option<usize>],
    carrier: &mut Carrier,
    walks: &mut Walks,
) -> Result<Option<Kept>, AllocError>
    requires ground { IsGround ground.now }
    requires beside { IsBeside earlier.now ground.now }
    requires place { place < length ground.now.net.now.departures }
    requires marks { length changed.now ≡ length ground.now.net.now.arrivals }
    requires alike { length alike.now ≡ length ground.now.net.now.arrivals }
    requires carried { IsCarried earlier.now.twins.now.ranks earlier.now.sweep.now.walks walks.old
        carrier.old }
    ensures kept { IfOk result (λ kept. IfSome kept (λ it. IsKeptPool earlier.now.sweep.now
        ground.now.net.now earlier.now.twins.now changed.now alike.now walks.new place
        (arc_value it.pool))) }
    ensures digest { IfOk result (λ kept. IfSome kept
        (λ it. IsDigest it.digest (arc_value it.pool))) }
    ensures carried { OnOk result (IsCarried earlier.now.twins.now.ranks
        earlier.now.sweep.now.walks walks.new carrier.new) }
    ensures grown { HasGrown walks.old walks.new }
{
    let Some(position) = earlier.kept_position(ground, changed, alike, place) else {
        return Ok(None);
    };
    let span = earlier.sweep.digest(position).span;
    if !carrier.stands(span) && shares_pool(ground, place) {
        return Ok(None);
    }
    earlier.kept(alloc, ground, position, carrier, walks)
}

// Where the walks of the earlier pass stand, and the walks with which this one begins: each in its own
// place, unless most of them are of no label any more.
fn walks_beside(alloc: Global, earlier: &Earlier) -> Result<(Carrier, Walks), AllocError>
    ensures { IfOk result (λ made. IsCarried earlier.now.twins.now.ranks
        earlier.now.sweep.now.walks made.1 made.0) }
{
    let sweep = earlier.sweep;
    let from = sweep.walks();
    let labels = sweep.label_count(alloc)?;
    if from.count() / SPARE > labels {
        let carrier = Carrier::new(alloc, from.count())?;
        return Ok((carrier, Walks::new(alloc)));
    }
    Carrier::in_place(alloc, from, earlier.twins.ranks())
}

// Of so many arrivals none was seen to show what an old one showed.
fn none_alike(alloc: Global, count: usize) -> Result<Vec<Option<usize>>, AllocError>
    ensures long { IfOk result (λ alike. length alike.items ≡ count) }
    ensures none { IfOk result (λ alike. (p q : ℕ) → slice_get alike.items p ≡ Some (Some q) → ⊥) }
{
    vec![in alloc; None; count]
}

impl Renewal {
    /// A pass that has come to no departure yet.
    pub(crate) fn new(
        alloc: Global,
        earlier: &Earlier,
        ground: &Ground,
    ) -> Result<Renewal, AllocError>
        ensures stands { IfOk result (StandsBeside earlier.now ground.now) }
        ensures none { IfOk result (λ renewal. length renewal.passing.passed.pools ≡ 0) }
    {
        let (carrier, walks) = walks_beside(alloc, earlier)?;
        let changed = vec![in alloc; false; ground.net.arrivals().len()]?;
        let alike = none_alike(alloc, ground.net.arrivals().len())?;
        let differing = Differing::none(alloc, ground.net.arrivals().len())?;
        let passing = Passing::new(alloc, ground, walks)?;
        Ok(Renewal {
            passing,
            carrier,
            changed,
            alike,
            differing,
        })
    }

    /// The pass goes on by the departure at a place, where its pool can be kept: `false` where not.
    pub(crate) fn keep_departure(
        &mut self,
        alloc: Global,
        earlier: &Earlier,
        ground: &Ground,
        place: usize,
    ) -> Result<bool, AllocError>
        requires ground { IsGround ground.now }
        requires beside { IsBeside earlier.now ground.now }
        requires place { slice_get ground.now.net.now.by_report
            (length self.old.passing.passed.pools) ≡ Some place }
        requires stands { StandsBeside earlier.now ground.now self.old }
        ensures stands { OnOk result (StandsBeside earlier.now ground.now self.new) }
        ensures kept { result ≡ Ok true → length self.new.passing.passed.pools
            ≡ length self.old.passing.passed.pools + 1 }
        ensures not_kept { result ≡ Ok false → self.new.passing.passed.pools
            ≡ self.old.passing.passed.pools }
    {
        let passed = &mut self.passing.passed;
        let walks = &mut passed.walks;
        let carrier = &mut self.carrier;
        let changed = &self.changed;
        let alike = &self.alike;
        let kept = kept_pool(
            alloc, earlier, ground, place, changed, alike, carrier, walks,
        )?;
        let Some(kept) = kept else {
            return Ok(false);
        };
        let Kept { pool, digest } = kept;
        passed.pools.push_with(pool, digest)?;
        Ok(true)
    }
}

// Whether something may come of a comparison: whether duties of some ranks arrive where the same
// duties arrived before and no change is marked. No clause says so, since it is there for speed.
fn is_open(twins: &Twins, changed: &[bool], places: &[u32], ranks: &[u32]) -> bool
    requires ranks { (rank : ℕ) → Member ranks.now rank → rank < length places.now }
    requires places { (rank : ℕ) → Member ranks.now rank
        → get_or places.now rank 0 < length changed.now }
    requires twins { length twins.now.arrivals ≡ length changed.now }
{
    for rank in ranks {
        let place = places[*rank as usize] as usize;
        if !changed[place] && twins.arrival(place).is_some() {
            return true;
        }
    }
    false
}

// Whether the pool of the departure at a place has the labels that it had; where nothing would come
// of that it isn't looked at, and the answer is no.
fn is_as_before(
    alloc: Global,
    earlier: &Earlier,
    ground: &Ground,
    place: usize,
    pool: &Pool<AnchoredResource>,
    walks: &Walks,
    changed: &[bool],
) -> Result<bool, AllocError>
    requires ground { IsGround ground.now }
    requires beside { IsBeside earlier.now ground.now }
    requires marks { length changed.now ≡ length ground.now.net.now.arrivals }
    requires place { place < length ground.now.net.now.departures }
    requires counts { AreCounted (λ (v : PairingVector). v.duties) walks.now true pool.now }
    ensures { result ≡ Ok true → (g : Departure)
        → slice_get ground.now.net.now.departures place ≡ Some g
        → HasOldLabels earlier.now ground.now walks.now g pool.now }
{
    let open = is_open(
        earlier.twins,
        changed,
        earlier.places,
        ground.net.leaving(place),
    );
    if !open {
        return Ok(false);
    }
    let Some(position) = earlier.position(ground, place) else {
        return Ok(false);
    };
    let sweep = earlier.sweep;
    let ranks = earlier.twins.ranks();
    let old = sweep.pool(position);
    are_alike(alloc, old, sweep.walks(), ranks, pool, walks)
}

// Marks where the duties of some ranks arrive.
fn mark(changed: &mut [bool], places: &[u32], ranks: &[u32])
    requires ranks { (rank : ℕ) → Member ranks.now rank → rank < length places.now }
    requires places { (rank : ℕ) → Member ranks.now rank
        → get_or places.now rank 0 < length changed.old }
    ensures long { length changed.new ≡ length changed.old }
    ensures less { (p : ℕ) → get_or changed.new p true ≡ false
        → get_or changed.old p true ≡ false }
    ensures marked { (p : ℕ) → get_or changed.new p true ≡ false → (rank : ℕ)
        → Member ranks.now rank → get_or places.now rank 0 ≡ p → ⊥ }
{
    for rank in ranks {
        changed[places[*rank as usize] as usize] = true;
    }
}

/// Marks where what leaves at a departure arrives, unless its pool has the labels that it had.
pub(crate) fn note(
    alloc: Global,
    earlier: &Earlier,
    ground: &Ground,
    place: usize,
    pool: &Pool<AnchoredResource>,
    walks: &Walks,
    changed: &mut Vec<bool>,
) -> Result<(), AllocError>
    requires ground { IsGround ground.now }
    requires beside { IsBeside earlier.now ground.now }
    requires place { place < length ground.now.net.now.departures }
    requires counts { AreCounted (λ (v : PairingVector). v.duties) walks.now true pool.now }
    requires marks { length changed.old.items ≡ length ground.now.net.now.arrivals }
    ensures long { length changed.new.items ≡ length changed.old.items }
    ensures less { (p : ℕ) → get_or changed.new.items p true ≡ false
        → get_or changed.old.items p true ≡ false }
    ensures own { OnOk result ((g : Departure)
        → slice_get ground.now.net.now.departures place ≡ Some g
        → (p : ℕ) → get_or changed.new.items p true ≡ false
        → (d : Duty) → Member ground.now.net.now.duties d
        → arrival_place ground.now.net.now.arrivals (arrival_of d) ≡ p → departure_of d ≡ g
        → HasOldLabels earlier.now ground.now walks.now g pool.now) }
{
    if !is_as_before(alloc, earlier, ground, place, pool, walks, changed)? {
        mark(changed, earlier.places, ground.net.leaving(place));
    }
    Ok(())
}
