//! The pairings that come home.
//!
//! All labels that come home, each with its walk, in order: simpler than what `crew_solve` does,
//! and slower, with memory for each of them.
ghost use Rattle.std.specs.Prelude.{◌≡◌, ◌+◌, ◌<◌, IfOk, None, OnOk, Some, length, map, slice_get, take};
ghost use Rattle.std.specs.Arc.{arc_value};
ghost use Rattle.std.specs.List.{flat_map};
ghost use Rattle.crew_pairing.specs.declared.duty.Duty.{Duty};
ghost use Rattle.crew_plan.specs.Machinery.Homes.{AreFirstApart, IsPayable, ended_by, first_home, home_at, home_of, pairing_of};
ghost use Rattle.crew_resource.specs.Members.{Each};
ghost use Rattle.crew_fronts.specs.crew_solve.Machinery.Homes as Spec;
ghost use Rattle.crew_fronts.specs.crew_solve.Machinery.Homes.{HasPay, least_of};
ghost use Rattle.crew_fronts.specs.crew_solve.Machinery.Keeps.{keep, keep_all};

use crate::taken::Taken;
use crew_flights::Code;
use crew_fronts::crew_solve::CheapestSoFar;
use crew_fronts::crew_solve::crew_vector::PricedPairing;
use crew_fronts::{BaseFronts, Vector, WalkView};
use crew_pairing::{Key, PairingVector, Walk};
use std::alloc::{AllocError, Global};
use std::sync::Arc;

// The pairing of a vector's sums and a walk that come home to a base.
fn priced(trip_rig: u32, base: Code, sums: &PairingVector, walk: Walk) -> PricedPairing
    requires { HasPay trip_rig sums.now }
    ensures { result ≡ Spec.priced trip_rig base sums.now walk }
{
    let cost = sums.reduced_cost();
    let prices = i64::from(trip_rig) * sums.away - sums.trip_rig;
    PricedPairing {
        base,
        walk,
        cost,
        pay: cost + prices,
        away: sums.away,
    }
}

// Appends the key at a place of a walk.
fn push_key(walk: &WalkView<'_>, place: usize, keys: &mut Vec<Key>) -> Result<(), AllocError>
    requires { place < length walk.now }
    ensures { OnOk result (keys.old.items ≡ take place walk.now
        → keys.new.items ≡ take (place + 1) walk.now) }
{
    let Some(key) = walk.key(place) else {
        unreachable!();
    };
    keys.push(key.copy())?;
    Ok(())
}

// The walk that a front lends.
fn walk_of(alloc: Global, walk: &WalkView<'_>) -> Result<Walk, AllocError>
    ensures { IfOk result (λ owned. owned ≡ walk.now) }
{
    let mut keys = Vec::with_capacity(alloc, walk.len())?;
    for place in 0..walk.len() {
        push_key(walk, place, &mut keys)?;
    }
    Ok(Walk::new(keys))
}

// Keeps the pairing of an entry, whose walk is made only where it may be among the least.
fn keep_of_entry(
    alloc: Global,
    base: Code,
    trip_rig: u32,
    vector: &Vector,
    walk: &WalkView<'_>,
    kept: &mut CheapestSoFar,
) -> Result<(), AllocError>
    requires { HasPay trip_rig vector.now.sums }
    ensures { OnOk result (kept.new
        ≡ keep kept.old (pairing_of trip_rig base (vector.now, walk.now))) }
{
    let sums = vector.sums();
    if !kept.wants(sums.reduced_cost()) {
        return Ok(());
    }
    let walk = walk_of(alloc, walk)?;
    kept.keep(alloc, priced(trip_rig, base, sums, walk))
}

// Keeps the least of the pairings of the front of the duty of a rank. Its entries rise by duty pay, and
// no pairing costs less than that.
fn keep_of_front(
    alloc: Global,
    base: &BaseFronts,
    trip_rig: u32,
    rank: usize,
    kept: &mut CheapestSoFar,
) -> Result<(), AllocError>
    requires rank { rank < length base.now.net.duties }
    requires pay { IsPayable trip_rig base.now }
    ensures { OnOk result ((d : Duty) → slice_get base.now.net.duties rank ≡ Some d
        → kept.new ≡ keep_all kept.old (ended_by trip_rig base.now d)) }
{
    let code = base.base();
    let front = base.front(rank);
    for (vector, walk) in front.iter() {
        if !kept.wants(vector.sums().duty_pay) {
            return Ok(());
        }
        keep_of_entry(alloc, code, trip_rig, &vector, &walk, kept)?;
    }
    Ok(())
}

// Keeps the least of the pairings of the front of the duty of a rank, where it ends at the base.
fn keep_of_rank(
    alloc: Global,
    base: &BaseFronts,
    trip_rig: u32,
    rank: usize,
    kept: &mut CheapestSoFar,
) -> Result<(), AllocError>
    requires rank { rank < length base.now.net.duties }
    requires pay { IsPayable trip_rig base.now }
    ensures { OnOk result ((d : Duty) → slice_get base.now.net.duties rank ≡ Some d
        → kept.new ≡ keep_all kept.old (home_at trip_rig base.now d)) }
{
    let duty = base.net().duty(rank);
    if duty.to != base.base() {
        return Ok(());
    }
    keep_of_front(alloc, base, trip_rig, rank, kept)
}

// Keeps the least of all that comes home to a base.
fn keep_of_base(
    alloc: Global,
    base: &BaseFronts,
    trip_rig: u32,
    kept: &mut CheapestSoFar,
) -> Result<(), AllocError>
    requires { IsPayable trip_rig base.now }
    ensures { OnOk result (kept.new ≡ keep_all kept.old (home_of trip_rig base.now)) }
{
    for rank in 0..base.net().duty_count() {
        keep_of_rank(alloc, base, trip_rig, rank, kept)?;
    }
    Ok(())
}

/// Keeps the least of all that comes home.
pub(crate) fn keep_of_bases(
    alloc: Global,
    bases: &[Arc<BaseFronts, Global>],
    trip_rig: u32,
    kept: &mut CheapestSoFar,
) -> Result<(), AllocError>
    requires { Each (IsPayable trip_rig) (map arc_value bases.now) }
    ensures { OnOk result (kept.new
        ≡ keep_all kept.old (flat_map (home_of trip_rig) (map arc_value bases.now))) }
{
    for base in bases {
        keep_of_base(alloc, base, trip_rig, kept)?;
    }
    Ok(())
}

/// The least of all that comes home, if there is any.
pub(crate) fn best_of(
    alloc: Global,
    bases: &[Arc<BaseFronts, Global>],
    trip_rig: u32,
) -> Result<Option<PricedPairing>, AllocError>
    requires { Each (IsPayable trip_rig) (map arc_value bases.now) }
    ensures { IfOk result (λ best. best
        ≡ least_of None (flat_map (home_of trip_rig) (map arc_value bases.now))) }
{
    let mut kept = CheapestSoFar::new(alloc, 1);
    keep_of_bases(alloc, bases, trip_rig, &mut kept)?;
    Ok(kept.into_first())
}

/// The least of all that comes home, so many or all, in order.
pub(crate) fn cheapest_of(
    alloc: Global,
    bases: &[Arc<BaseFronts, Global>],
    trip_rig: u32,
    limit: usize,
) -> Result<Vec<PricedPairing>, AllocError>
    requires { Each (IsPayable trip_rig) (map arc_value bases.now) }
    ensures { IfOk result (λ pairings. pairings.items
        ≡ first_home limit trip_rig (map arc_value bases.now)) }
{
    let mut kept = CheapestSoFar::new(alloc, limit);
    keep_of_bases(alloc, bases, trip_rig, &mut kept)?;
    kept.into_vec(alloc)
}

// All that comes home in order, where it is less than so much.
fn all_below(
    alloc: Global,
    bases: &[Arc<BaseFronts, Global>],
    trip_rig: u32,
    most: usize,
) -> Result<Vec<PricedPairing>, AllocError>
    requires { Each (IsPayable trip_rig) (map arc_value bases.now) }
    ensures all { IfOk result (λ pairings. pairings.items
        ≡ first_home most trip_rig (map arc_value bases.now)) }
    ensures less { IfOk result (λ pairings. length pairings.items < most) }
{
    let all = cheapest_of(alloc, bases, trip_rig, most)?;
    if all.len() >= most {
        return Err(AllocError);
    }
    Ok(all)
}

/// Of all that comes home, by cost and walk, the first that are taken where no flight is flown by
/// more than so many, up to a limit.
pub(crate) fn apart_of(
    alloc: Global,
    bases: &[Arc<BaseFronts, Global>],
    trip_rig: u32,
    limit: usize,
    share: u32,
) -> Result<Vec<PricedPairing>, AllocError>
    requires { Each (IsPayable trip_rig) (map arc_value bases.now) }
    ensures { IfOk result (λ pairings. AreFirstApart limit share
        (flat_map (home_of trip_rig) (map arc_value bases.now)) pairings.items) }
{
    let mut taken = Taken::new(alloc, share)?;
    let all = all_below(alloc, bases, trip_rig, usize::MAX)?;
    taken.offer_each(alloc, all)?;
    Ok(taken.into_first(limit))
}
