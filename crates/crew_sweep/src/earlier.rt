//! What an earlier pass left.
//!
//! Where the same duties arrive at fewer than an eighth of all arrivals, as after new prices for
//! all flights, a pass goes as if there were nothing earlier: next to nothing could be kept, and to
//! look for it has the earlier walks go along.
ghost use Rattle.std.specs.Arc.{arc_value};
ghost use Rattle.std.specs.Prelude.{◌≡◌, ◌<◌, ◌≤◌, ℕ, Option, IfOk, IfSome, [], get_or, length, slice_get, true, Some, ◌-◌};
ghost use Rattle.crew_anchor.specs.Machinery.Bounds.{fits_in};
ghost use Rattle.crew_anchor.specs.Stages.{anchored_resource};
ghost use Rattle.crew_carry.specs.Carried.{IsCarried};
ghost use Rattle.crew_net.specs.Positions.{ArePositions, in_order};
ghost use Rattle.crew_carry.specs.crew_step.Walks.{HasGrown};
ghost use Rattle.crew_sweep.specs.Machinery.Beside.{IsBeside};
ghost use Rattle.crew_sweep.specs.Machinery.Digests.{IsDigest};
ghost use Rattle.crew_sweep.specs.Machinery.Kept.{sparing_of};
ghost use Rattle.crew_sweep.specs.Machinery.Renewing.{IsAsItWas, IsKeptPosition, IsPositionPool, IsWindowKept};
ghost use Rattle.crew_sweep.specs.Sweeps.{IsEarlier};

use crate::digest::Digest;
use crate::ground::Ground;
use crate::swept::Sweep;
use crew_anchor::AnchoredResource;
use crew_carry::{Carrier, Twins};
use crew_net::{Net, Window};
use crew_pool::{Pool, Walks};
use std::alloc::{AllocError, Global};
use std::sync::Arc;

// Of so many arrivals the same duties arrive at fewer than one where little is alike.
const LITTLE: usize = 8;

/// An earlier sweep, the positions of its duties' departures, what its network has alike with another,
/// the places at which the other's duties arrive, and the ground over which it went.
#[derive(Drop)]
pub(crate) struct Earlier<'a> {
    pub(crate) sweep: &'a Sweep,
    pub(crate) positions: &'a [u32],
    pub(crate) twins: &'a Twins,
    pub(crate) places: &'a [u32],
    pub(crate) ground: Ground<'a>,
}

/// A pool of the earlier sweep over the walks of another pass, and its digest.
#[derive(Drop)]
pub(crate) struct Kept {
    pub(crate) pool: Arc<Pool<AnchoredResource>, Global>,
    pub(crate) digest: Digest,
}

/// Whether the arrival at a place shows what the old one at another showed: no change is marked there
/// and the same duties arrive, or it was seen to.
pub(crate) fn is_as_it_was(
    twins: &Twins,
    changed: &[bool],
    alike: &[Option<usize>],
    place: usize,
    old: usize,
) -> bool
    requires marks { place < length changed.now }
    requires alike { place < length alike.now }
    requires arrivals { place < length twins.now.arrivals }
    ensures { result ≡ true → IsAsItWas twins.now changed.now alike.now place old }
{
    if !changed[place] && twins.has_arrival_at(place, old) {
        return true;
    }
    match alike[place] {
        Some(found) => found == old,
        None => false,
    }
}

// Whether a window holds what it held.
fn is_kept(
    twins: &Twins,
    changed: &[bool],
    alike: &[Option<usize>],
    now: Window,
    old: Window,
) -> bool
    requires ordered { now.from ≤ now.end }
    requires was { old.from ≤ old.end }
    requires marks { now.end ≤ length changed.now }
    requires alike { now.end ≤ length alike.now }
    requires arrivals { now.end ≤ length twins.now.arrivals }
    ensures { result ≡ true → IsWindowKept twins.now changed.now alike.now now old }
{
    if now.end - now.from != old.end - old.from {
        return false;
    }
    for offset in 0..now.end - now.from {
        let place = now.from + offset;
        if !is_as_it_was(twins, changed, alike, place, old.from + offset) {
            return false;
        }
    }
    true
}

/// The position of the departure at a place.
pub(crate) fn position_of(net: &Net, positions: &[u32], departure: usize) -> Option<usize>
    requires departure { departure < length net.now.departures }
    requires positions { ArePositions net.now positions.now }
    ensures { IfSome result (λ position. slice_get (in_order net.now) position
        ≡ slice_get net.now.departures departure) }
{
    let rank = net.leaving(departure).first()?;
    Some(positions[*rank as usize] as usize)
}

impl<'a> Earlier<'a> {
    /// An earlier sweep of the ground's base under its resource, beside the positions of the
    /// departures of that sweep's duties, and the places at which the ground's duties arrive; `full` is
    /// the base's own resource.
    pub(crate) fn of(
        sweep: &'a Sweep,
        positions: &'a [u32],
        twins: &'a Twins,
        places: &'a [u32],
        ground: &Ground,
        full: &AnchoredResource,
    ) -> Earlier<'a>
        requires earlier { IsEarlier sweep.now positions.now twins.now ground.now.net.now
            places.now }
        requires base { ground.now.base ≡ sweep.now.base }
        requires resource { ground.now.resource ≡ sparing_of sweep.now }
        requires full { full.now ≡ anchored_resource sweep.now.net.settings sweep.now.price }
        requires fits { (n : ℕ) → n ≤ 100_000 → fits_in full.now n }
        ensures { IsBeside result ground.now }
    {
        let net = sweep.net();
        let _duties = net.duty_count();
        let _departures = net.departures();
        let _arrivals = net.arrivals();
        let _places = net.by_report();
        let _pools = sweep.pools();
        Earlier {
            sweep,
            positions,
            twins,
            places,
            ground: Ground::of(net, positions, sweep.base(), full),
        }
    }

    /// Whether at so few arrivals the same duties arrive that next to nothing can be kept. No clause says
    /// so, since it is there for speed.
    pub(crate) fn has_little_alike(&self, ground: &Ground) -> bool
        requires beside { IsBeside self.now ground.now }
    {
        let count = ground.net.arrivals().len();
        let mut alike: usize = 0;
        for place in 0..count {
            if self.twins.arrival(place).is_some() {
                alike = alike.saturating_add(1);
            }
        }
        alike < count / LITTLE
    }

    /// The position that the departure at a place had in the earlier sweep, where all that it waits on
    /// is as it was.
    pub(crate) fn kept_position(
        &self,
        ground: &Ground,
        changed: &[bool],
        alike: &[Option<usize>],
        place: usize,
    ) -> Option<usize>
        requires beside { IsBeside self.now ground.now }
        requires place { place < length ground.now.net.now.departures }
        requires marks { length changed.now ≡ length ground.now.net.now.arrivals }
        requires alike { length alike.now ≡ length ground.now.net.now.arrivals }
        ensures { IfSome result (IsKeptPosition self.now.sweep.now ground.now.net.now
            self.now.twins.now changed.now alike.now place) }
    {
        let old = self.twins.departure(place)?;
        let before = self.sweep.net();
        if !is_kept(
            self.twins,
            changed,
            alike,
            ground.net.window(place),
            before.window(old),
        ) {
            return None;
        }
        position_of(before, self.positions, old)
    }

    /// The position that the departure of the same event had in the earlier sweep.
    pub(crate) fn position(&self, ground: &Ground, place: usize) -> Option<usize>
        requires beside { IsBeside self.now ground.now }
        requires place { place < length ground.now.net.now.departures }
        ensures { IfSome result (λ position. slice_get (in_order self.now.sweep.now.net) position
            ≡ slice_get ground.now.net.now.departures place) }
    {
        let _departures = ground.net.departures();
        let old = self.twins.departure(place)?;
        position_of(self.sweep.net(), self.positions, old)
    }

    // The pool of the departure that had a position, shared, where its walks stand at their own places
    // among those of a pass beside the earlier one.
    fn standing_pool(
        &self,
        ground: &Ground,
        position: usize,
        carrier: &Carrier,
        walks: &Walks,
    ) -> Result<Option<Arc<Pool<AnchoredResource>, Global>>, AllocError>
        requires beside { IsBeside self.now ground.now }
        requires position { position < length self.now.sweep.now.net.by_report }
        requires carried { IsCarried self.now.twins.now.ranks self.now.sweep.now.walks walks.now
            carrier.now }
        ensures pool { IfOk result (λ standing. IfSome standing (λ pool. IsPositionPool
            self.now.sweep.now ground.now.net.now walks.now position (arc_value pool))) }
        ensures same { IfOk result (λ standing. IfSome standing (λ pool.
            arc_value pool ≡ get_or self.now.sweep.now.pools position [])) }
    {
        let _walks = walks;
        let sweep = self.sweep;
        if !carrier.stands(sweep.digest(position).span) {
            return Ok(None);
        }
        let pool = sweep.shared(position);
        Ok(Some(Arc::try_clone(pool)?))
    }

    /// The pool of the departure that had a position, over the walks of a pass beside the earlier one,
    /// where each duty of it is still there.
    pub(crate) fn carried_pool(
        &self,
        alloc: Global,
        ground: &Ground,
        position: usize,
        carrier: &mut Carrier,
        walks: &mut Walks,
    ) -> Result<Option<Arc<Pool<AnchoredResource>, Global>>, AllocError>
        requires beside { IsBeside self.now ground.now }
        requires position { position < length self.now.sweep.now.net.by_report }
        requires carried { IsCarried self.now.twins.now.ranks self.now.sweep.now.walks walks.old
            carrier.old }
        ensures pool { IfOk result (λ carried. IfSome carried (λ pool. IsPositionPool
            self.now.sweep.now ground.now.net.now walks.new position (arc_value pool))) }
        ensures carried { IsCarried self.now.twins.now.ranks self.now.sweep.now.walks walks.new
            carrier.new }
        ensures grown { HasGrown walks.old walks.new }
    {
        let sweep = self.sweep;
        let ranks = self.twins.ranks();
        let pool = sweep.shared(position);
        let from = sweep.walks();
        carrier.share(alloc, &ground.resource, pool, from, ranks, walks)
    }

    /// The same pool with its digest. Where its walks stand at their own places no label is looked at.
    pub(crate) fn kept(
        &self,
        alloc: Global,
        ground: &Ground,
        position: usize,
        carrier: &mut Carrier,
        walks: &mut Walks,
    ) -> Result<Option<Kept>, AllocError>
        requires beside { IsBeside self.now ground.now }
        requires position { position < length self.now.sweep.now.net.by_report }
        requires carried { IsCarried self.now.twins.now.ranks self.now.sweep.now.walks walks.old
            carrier.old }
        ensures pool { IfOk result (λ kept. IfSome kept (λ it. IsPositionPool
            self.now.sweep.now ground.now.net.now walks.new position (arc_value it.pool))) }
        ensures digest { IfOk result (λ kept. IfSome kept
            (λ it. IsDigest it.digest (arc_value it.pool))) }
        ensures carried { IsCarried self.now.twins.now.ranks self.now.sweep.now.walks walks.new
            carrier.new }
        ensures grown { HasGrown walks.old walks.new }
    {
        if let Some(pool) = self.standing_pool(ground, position, carrier, walks)? {
            let digest = self.sweep.digest(position);
            return Ok(Some(Kept { pool, digest }));
        }
        let Some(pool) = self.carried_pool(alloc, ground, position, carrier, walks)? else {
            return Ok(None);
        };
        let digest = Digest::of(&pool);
        Ok(Some(Kept { pool, digest }))
    }
}
