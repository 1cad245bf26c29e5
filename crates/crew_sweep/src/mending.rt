//! Departures whose pool is mended: beside an earlier pass a pool has the labels that it had, but for
//! those that come from where something has changed.
//!
//! Into what comes from the changed arrivals the old pool is merged whole; that is the new pool
//! where each label of it either came in just now or ends with a duty that arrives where nothing
//! has changed. Where an old label stays that nothing brings any more, as after a cancelled flight,
//! what it had ruled out isn't known, and the pool is made anew. An arrival costs far more to make
//! than to merge: so a pool is mended only where that spares eight arrivals that aren't made yet
//! for each that has changed.
ghost use Rattle.std.specs.Arc.{arc_value};
ghost use Rattle.std.specs.Prelude.{◌≡◌, ◌<◌, ◌≤◌, ◌++◌, ◌∷◌, ℕ, IfOk, IfSome, List, Ok, OnOk, Some, [], false, get_or, length, map, slice_get, true};
ghost use Rattle.crew_carry.specs.Carried.{IsCarried};
ghost use Rattle.crew_net.specs.Events.{IsWindow};
ghost use Rattle.crew_pairing.specs.Events.{may_wait};
ghost use Rattle.crew_pairing.specs.declared.events.Departure.{Departure};
ghost use Rattle.crew_pairing.specs.declared.vector.PairingVector.{PairingVector};
ghost use Rattle.crew_pool.specs.Arena.{walk_at};
ghost use Rattle.crew_pool.specs.Counted.{AreCounted};
ghost use Rattle.crew_pool.specs.LabelWalks.{IsPoolOf, shown};
ghost use Rattle.crew_pool.specs.declared.label_walk.LabelWalk.{LabelWalk};
ghost use Rattle.crew_resource.specs.Members.{Member};
ghost use Rattle.crew_carry.specs.crew_step.Walks.{HasGrown};
ghost use Rattle.crew_sweep.specs.Machinery.Beside.{IsBeside, StandsBeside};
ghost use Rattle.crew_sweep.specs.Machinery.Grounds.{IsGround, Stands};
ghost use Rattle.crew_sweep.specs.Machinery.Mending.{AreSound, IsChangedPart, IsFresh, IsMended, IsNextPool, IsOldPool, ends_unchanged, is_unchanged};
ghost use Rattle.crew_sweep.specs.Machinery.Parts.{AreHeld};
ghost use Rattle.crew_sweep.specs.Machinery.Passing.{IsMade, IsSealed};
ghost use Rattle.crew_sweep.specs.Machinery.Renewing.{IsRenewing};
ghost use Rattle.crew_vector.specs.Dominance.{is_at_most};

use crate::ahead::Wanted;
use crate::earlier::Earlier;
use crate::ground::Ground;
use crate::passing::Passing;
use crate::renewal::Renewal;
use crew_anchor::{AnchoredResource, AnchoredVector};
use crew_carry::crew_step::waiting_labels;
use crew_carry::{Carrier, Twins};
use crew_net::Window;
use crew_pool::{GrowingPool, LabelWalk, Pool, Walks, Workspace};
use crew_resource::Resource;
use std::alloc::{AllocError, Global};
use std::sync::Arc;

// How many pools of arrivals that needn't be made have to be spared for each arrival at which something
// has changed, for a departure's pool to be mended: where fewer are, the window's slide is cheaper.
const SPARED: usize = 8;

/// Whether the arrival at a place has the duties that it had, from pools that have the labels that
/// they had.
pub(crate) fn is_unchanged(twins: &Twins, changed: &[bool], place: usize) -> bool
    requires marks { place < length changed.now }
    requires arrivals { place < length twins.now.arrivals }
    ensures { result ≡ is_unchanged twins.now changed.now place }
{
    !changed[place] && twins.arrival(place).is_some()
}

// Whether the last duty of a walk arrives where nothing has changed, or it has none.
fn ends_unchanged(twins: &Twins, changed: &[bool], places: &[u32], walks: &Walks, walk: u32) -> bool
    requires there { walk < length walks.now }
    requires ranks { (rank : ℕ) → Member (walk_at walks.now walk) rank
        → (rank < length places.now) × (get_or places.now rank 0 < length changed.now) }
    requires arrivals { length twins.now.arrivals ≡ length changed.now }
    ensures { result ≡ ends_unchanged twins.now changed.now places.now (walk_at walks.now walk) }
{
    match walks.last(walk) {
        Some((_, rank)) => is_unchanged(twins, changed, places[rank as usize] as usize),
        None => true,
    }
}

// Whether mending the pool of a window's departure spares enough pools of arrivals that aren't made
// yet. No clause says so, since it is there for speed.
fn is_worth_it(twins: &Twins, changed: &[bool], made: &[bool], window: Window) -> bool
    requires marks { window.end ≤ length changed.now }
    requires made { length made.now ≡ length changed.now }
    requires arrivals { length twins.now.arrivals ≡ length changed.now }
{
    let mut spared: usize = 0;
    let mut merged: usize = 0;
    for place in window.from..window.end {
        if !is_unchanged(twins, changed, place) {
            merged = merged.saturating_add(SPARED);
        } else if !made[place] {
            spared = spared.saturating_add(1);
        }
    }
    merged <= spared
}

impl<'a> Earlier<'a> {
    // Whether so little of a window has changed that its departure's pool may be mended. No clause says
    // so, since it is there for speed.
    fn has_few_changes(&self, changed: &[bool], window: Window) -> bool
        requires marks { window.end ≤ length changed.now }
        requires arrivals { length self.now.twins.now.arrivals ≡ length changed.now }
    {
        let mut same: usize = 0;
        let mut merged: usize = 0;
        for place in window.from..window.end {
            if is_unchanged(self.twins, changed, place) {
                same = same.saturating_add(1);
            } else {
                merged = merged.saturating_add(SPARED);
            }
        }
        merged <= same
    }

    /// What is made ahead for the departure at a place. No clause says which, since it is there for
    /// speed.
    pub(crate) fn wanted(
        &self,
        ground: &Ground,
        changed: &[bool],
        alike: &[Option<usize>],
        place: usize,
    ) -> Wanted
        requires beside { IsBeside self.now ground.now }
        requires place { place < length ground.now.net.now.departures }
        requires marks { length changed.now ≡ length ground.now.net.now.arrivals }
        requires alike { length alike.now ≡ length ground.now.net.now.arrivals }
    {
        if self.kept_position(ground, changed, alike, place).is_some() {
            return Wanted::Nothing;
        }
        let window = ground.net.window(place);
        if self.has_few_changes(changed, window) {
            return Wanted::Changes;
        }
        Wanted::Window
    }
}

// Whether each label that ends where something has changed is reached by one that comes from there:
// else the old pool can't be mended. No clause says so, since it is there for speed.
fn are_reached(
    resource: &AnchoredResource,
    twins: &Twins,
    changed: &[bool],
    places: &[u32],
    walks: &Walks,
    old: &Pool<AnchoredResource>,
    fresh: &Pool<AnchoredResource>,
) -> bool
    requires there { (l : PairingVector × LabelWalk) → Member old.now l
        → l.1.walk < length walks.now }
    requires ranks { (l : PairingVector × LabelWalk) → Member old.now l → (rank : ℕ)
        → Member (walk_at walks.now l.1.walk) rank
        → (rank < length places.now) × (get_or places.now rank 0 < length changed.now) }
    requires arrivals { length twins.now.arrivals ≡ length changed.now }
{
    for label in old.as_slice() {
        let ends = ends_unchanged(twins, changed, places, walks, label.1.walk);
        if !ends && !is_reached(resource, fresh, &label.0) {
            return false;
        }
    }
    true
}

// Whether a label of a pool is at most a vector.
fn is_reached(
    resource: &AnchoredResource,
    pool: &Pool<AnchoredResource>,
    vector: &AnchoredVector,
) -> bool {
    for label in pool.as_slice() {
        if resource.at_most(&label.0, vector) {
            return true;
        }
    }
    false
}

// The pools of the arrivals of a window at which something has changed, as one.
fn gathered(
    alloc: Global,
    resource: &AnchoredResource,
    room: &mut Workspace<AnchoredResource>,
    twins: &Twins,
    changed: &[bool],
    held: &[Pool<AnchoredResource>],
    window: Window,
    walks: &Walks,
) -> Result<Pool<AnchoredResource>, AllocError>
    requires held { AreHeld walks.now held.now }
    requires ordered { window.from ≤ window.end }
    requires within { window.end ≤ length held.now }
    requires marks { length changed.now ≡ length held.now }
    requires arrivals { length twins.now.arrivals ≡ length changed.now }
    ensures { IfOk result (IsChangedPart twins.now changed.now walks.now held.now window.from
        window.end) }
{
    let mut growing = GrowingPool::begin(alloc, room);
    for place in window.from..window.end {
        if !is_unchanged(twins, changed, place) {
            growing.merge(resource, room, held[place].as_slice(), walks)?;
        }
    }
    growing.copy_out(alloc, resource, room)
}

// A pool that an older one has joined.
fn mended(
    alloc: Global,
    resource: &AnchoredResource,
    room: &mut Workspace<AnchoredResource>,
    fresh: Pool<AnchoredResource>,
    old: &Pool<AnchoredResource>,
    walks: &Walks,
) -> Result<Pool<AnchoredResource>, AllocError>
    requires settled { IsPoolOf is_at_most (map (shown walks.now) fresh)
        (map (shown walks.now) fresh) }
    requires fresh { AreCounted (λ (v : PairingVector). v.duties) walks.now true fresh }
    requires old { AreCounted (λ (v : PairingVector). v.duties) walks.now true old.now }
    ensures { IfOk result (IsMended walks.now fresh old.now) }
{
    let mut growing = GrowingPool::begin_with(alloc, resource, room, &fresh)?;
    growing.merge(resource, room, old.as_slice(), walks)?;
    growing.copy_out(alloc, resource, room)
}

// Whether each label's walk is one of those added last, or ends where nothing has changed.
fn are_sound(
    twins: &Twins,
    changed: &[bool],
    places: &[u32],
    walks: &Walks,
    added: usize,
    labels: &[(AnchoredVector, LabelWalk)],
) -> bool
    requires there { (l : PairingVector × LabelWalk) → Member labels.now l
        → l.1.walk < length walks.now }
    requires ranks { (l : PairingVector × LabelWalk) → Member labels.now l → (rank : ℕ)
        → Member (walk_at walks.now l.1.walk) rank
        → (rank < length places.now) × (get_or places.now rank 0 < length changed.now) }
    requires arrivals { length twins.now.arrivals ≡ length changed.now }
    ensures { result ≡ true → AreSound twins.now changed.now places.now walks.now added labels.now }
{
    for label in labels {
        let walk = label.1.walk;
        if (walk as usize) < added && !ends_unchanged(twins, changed, places, walks, walk) {
            return false;
        }
    }
    true
}

impl Passing {
    // Makes the pools of the arrivals of a window at which something has changed.
    fn make_changed(
        &mut self,
        alloc: Global,
        ground: &Ground,
        twins: &Twins,
        changed: &[bool],
        window: Window,
    ) -> Result<(), AllocError>
        requires ground { IsGround ground.now }
        requires stands { Stands ground.now self.old }
        requires within { window.end ≤ length ground.now.net.now.arrivals }
        requires sealed { (place : ℕ) → window.from ≤ place → place < window.end
            → IsSealed ground.now.net.now (length self.old.passed.pools) place }
        requires marks { length changed.now ≡ length ground.now.net.now.arrivals }
        requires arrivals { length twins.now.arrivals ≡ length changed.now }
        ensures stands { OnOk result (Stands ground.now self.new) }
        ensures made { OnOk result ((place : ℕ) → window.from ≤ place → place < window.end
            → is_unchanged twins.now changed.now place ≡ false
            → IsMade self.new.arrivals.made.items place) }
        ensures passed { self.new.passed ≡ self.old.passed }
    {
        for place in window.from..window.end {
            if !is_unchanged(twins, changed, place) {
                self.make_arrival(alloc, ground, place)?;
            }
        }
        Ok(())
    }

    // What comes into a window where something has changed, as labels that wait on.
    fn fresh_labels(
        &mut self,
        alloc: Global,
        ground: &Ground,
        twins: &Twins,
        changed: &[bool],
        window: Window,
    ) -> Result<Pool<AnchoredResource>, AllocError>
        requires ground { IsGround ground.now }
        requires stands { Stands ground.now self.old }
        requires ordered { window.from ≤ window.end }
        requires within { window.end ≤ length ground.now.net.now.arrivals }
        requires sealed { (place : ℕ) → window.from ≤ place → place < window.end
            → IsSealed ground.now.net.now (length self.old.passed.pools) place }
        requires marks { length changed.now ≡ length ground.now.net.now.arrivals }
        requires arrivals { length twins.now.arrivals ≡ length changed.now }
        ensures stands { OnOk result (Stands ground.now self.new) }
        ensures fresh { IfOk result (IsFresh twins.now changed.now self.new.passed.walks
            self.new.arrivals.made.items self.new.arrivals.pools.items window) }
        ensures grown { HasGrown self.old.passed.walks self.new.passed.walks }
        ensures pools { self.new.passed.pools ≡ self.old.passed.pools }
    {
        self.make_changed(alloc, ground, twins, changed, window)?;
        let resource = &ground.resource;
        let held = &self.arrivals.pools;
        let room = &mut self.room;
        let walks = &mut self.passed.walks;
        let part = gathered(alloc, resource, room, twins, changed, held, window, walks)?;
        waiting_labels(part, walks)
    }
}

// The pool of the departure at a place over the walks of this pass, as the earlier pass left it, where
// it has one.
fn old_pool(
    alloc: Global,
    earlier: &Earlier,
    ground: &Ground,
    place: usize,
    carrier: &mut Carrier,
    walks: &mut Walks,
) -> Result<Option<Arc<Pool<AnchoredResource>, Global>>, AllocError>
    requires beside { IsBeside earlier.now ground.now }
    requires place { place < length ground.now.net.now.departures }
    requires carried { IsCarried earlier.now.twins.now.ranks earlier.now.sweep.now.walks walks.old
        carrier.old }
    ensures old { IfOk result (λ old. IfSome old (λ pool. IsOldPool earlier.now.sweep.now
        ground.now.net.now walks.new place (arc_value pool))) }
    ensures carried { OnOk result (IsCarried earlier.now.twins.now.ranks
        earlier.now.sweep.now.walks walks.new carrier.new) }
    ensures grown { HasGrown walks.old walks.new }
{
    let Some(position) = earlier.position(ground, place) else {
        return Ok(None);
    };
    earlier.carried_pool(alloc, ground, position, carrier, walks)
}

impl Renewal {
    // The pool of the departure at a place, whose window this is, mended: `None` where it can't be.
    fn mended_pool(
        &mut self,
        alloc: Global,
        earlier: &Earlier,
        ground: &Ground,
        place: usize,
        window: Window,
    ) -> Result<Option<Pool<AnchoredResource>>, AllocError>
        requires ground { IsGround ground.now }
        requires beside { IsBeside earlier.now ground.now }
        requires place { slice_get ground.now.net.now.by_report
            (length self.old.passing.passed.pools) ≡ Some place }
        requires window { (g : Departure) → slice_get ground.now.net.now.departures place ≡ Some g
            → IsWindow (λ x. may_wait ground.now.net.now.settings x g)
            ground.now.net.now.arrivals window }
        requires stands { StandsBeside earlier.now ground.now self.old }
        ensures stands { OnOk result (StandsBeside earlier.now ground.now self.new) }
        ensures next { IfOk result (λ made. IfSome made (IsNextPool ground.now.net.now ground.now.base
            ground.now.resource self.new.passing.passed.walks self.new.passing.passed.pools)) }
        ensures grown { HasGrown self.old.passing.passed.walks self.new.passing.passed.walks }
        ensures pools { self.new.passing.passed.pools ≡ self.old.passing.passed.pools }
    {
        let carrier = &mut self.carrier;
        let walks = &mut self.passing.passed.walks;
        let Some(old) = old_pool(alloc, earlier, ground, place, carrier, walks)? else {
            return Ok(None);
        };
        let added = self.passing.passed.walks.count();
        let twins = earlier.twins;
        let changed = &self.changed;
        let fresh = self
            .passing
            .fresh_labels(alloc, ground, twins, changed, window)?;
        let room = &mut self.passing.room;
        let walks = &self.passing.passed.walks;
        let resource = &ground.resource;
        if !are_reached(
            resource,
            twins,
            changed,
            earlier.places,
            walks,
            &old,
            &fresh,
        ) {
            return Ok(None);
        }
        let pool = mended(alloc, resource, room, fresh, &old, walks)?;
        if are_sound(
            twins,
            changed,
            earlier.places,
            walks,
            added,
            pool.as_slice(),
        ) {
            return Ok(Some(pool));
        }
        Ok(None)
    }

    /// The pass goes on by the departure at a place, where its pool can be mended: `false` where not.
    pub(crate) fn mend_departure(
        &mut self,
        alloc: Global,
        earlier: &Earlier,
        ground: &Ground,
        place: usize,
    ) -> Result<bool, AllocError>
        requires ground { IsGround ground.now }
        requires beside { IsBeside earlier.now ground.now }
        requires place { slice_get ground.now.net.now.by_report
            (length self.old.passing.passed.pools) ≡ Some place }
        requires stands { StandsBeside earlier.now ground.now self.old }
        ensures stands { OnOk result (Stands ground.now self.new.passing) }
        ensures marks { OnOk result (IsRenewing earlier.now.sweep.now ground.now.net.now
            self.new.passing.passed.walks self.old.passing.passed.pools self.new.changed.items
            self.new.alike.items) }
        ensures carried { OnOk result (IsCarried earlier.now.twins.now.ranks
            earlier.now.sweep.now.walks self.new.passing.passed.walks self.new.carrier) }
        ensures mended { result ≡ Ok true → (pool : List (PairingVector × LabelWalk))
            × (self.new.passing.passed.pools ≡ self.old.passing.passed.pools ++ pool ∷ []) }
        ensures not_mended { result ≡ Ok false → self.new.passing.passed.pools
            ≡ self.old.passing.passed.pools }
    {
        let window = ground.net.window(place);
        let made = &self.passing.arrivals.made;
        if !is_worth_it(earlier.twins, &self.changed, made, window) {
            return Ok(false);
        }
        let mended = self.mended_pool(alloc, earlier, ground, place, window)?;
        let Some(pool) = mended else {
            return Ok(false);
        };
        self.passing.passed.pools.push(Arc::new(alloc, pool)?)?;
        Ok(true)
    }
}
