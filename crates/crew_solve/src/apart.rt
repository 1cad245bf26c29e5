//! The least pairings of all that comes home that share few flights.
//!
//! A round looks at the cheapest that may still be taken: 32 at least, twice as many after a round
//! of which more than half were taken. What is used up stays so, hence none is passed over that
//! would be taken; and the first that a round looks at is always taken, so none goes by for
//! nothing. From 8 to 128 the size of a round made no difference.

ghost use Rattle.std.specs.Prelude.{◌≡◌, ◌<◌, List, [], IfOk, OnOk, Some, length, map, take};
ghost use Rattle.std.specs.Arc.{arc_value};
ghost use Rattle.std.specs.List.{flat_map};
ghost use Rattle.crew_resource.specs.Members.{Each};
ghost use Rattle.crew_solve.specs.Apart.{taken_from};
ghost use Rattle.crew_solve.specs.Machinery.Floors.{AreKnown};
ghost use Rattle.crew_solve.specs.Machinery.Homes.{home_of};
ghost use Rattle.crew_solve.specs.Machinery.Keeps.{CheapestSoFar as CheapestOf, IsLook, KeepsSome, keep_all};
ghost use Rattle.crew_solve.specs.Machinery.Takes.{AreInOrder, Taken as TakenOf, looked_at};
ghost use Rattle.crew_vector.specs.declared.priced.PricedPairing.{PricedPairing as Pairing};

use crate::base_fronts::BaseFronts;
use crate::cheapest_so_far::CheapestSoFar;
use crate::floors::{BaseKnown, keep_low_of_bases, keep_of_bases_by_floors, known, low_floor};
use crate::taken::Taken;
use crew_vector::PricedPairing;
use std::alloc::{AllocError, Global};
use std::sync::Arc;

// How many to look at first, and at least.
const LEAST: usize = 32;

// How many floors are low, for each that is looked at.
const LOW: usize = 2;

// How many to look at after so many, of which some were taken.
fn more_than(many: usize, taken: usize) -> usize
    ensures { 0 < result }
{
    let next = if taken > many / 2 {
        many.saturating_mul(2)
    } else if taken < many / 8 {
        many / 2
    } else {
        many
    };
    next.max(LEAST)
}

// Keeps the least of what comes home, first by the departures whose floors are low.
fn keep_of_bases_low_first(
    alloc: Global,
    fronts: &[Arc<BaseFronts, Global>],
    trip_rig: u32,
    many: usize,
    known: &mut [BaseKnown],
    kept: &mut CheapestSoFar,
) -> Result<(), AllocError>
    requires rate { Each (λ b. trip_rig ≡ b.net.settings.trip_rig) (map arc_value fronts.now) }
    requires known { AreKnown kept.old.beside (map arc_value fronts.now) known.old }
    ensures kept { OnOk result ((low : CheapestOf)
        × KeepsSome (flat_map home_of (map arc_value fronts.now)) kept.old low
        × (kept.new ≡ keep_all low (flat_map home_of (map arc_value fronts.now)))) }
    ensures known { OnOk result
        (AreKnown kept.old.beside (map arc_value fronts.now) known.new) }
{
    let most = low_floor(alloc, known, many.saturating_mul(LOW))?;
    keep_low_of_bases(alloc, fronts, trip_rig, most, known, kept)?;
    keep_of_bases_by_floors(alloc, fronts, trip_rig, known, kept)
}

// Looks at what is kept beside those taken, and says how many pairings these are.
fn look_at_kept(alloc: Global, kept: CheapestSoFar) -> Result<(Taken, usize), AllocError>
    requires { (taken : TakenOf) × (kept.beside ≡ Some taken) }
    ensures taken { IfOk result (λ next. (taken : TakenOf) → kept.beside ≡ Some taken
        → next.0 ≡ looked_at taken kept.pairings) }
    ensures found { IfOk result (λ next. next.1 ≡ length kept.pairings) }
{
    let (beside, pairings) = kept.into_parts(alloc)?;
    let found = pairings.len();
    match beside {
        Some(mut taken) => {
            taken.look_at(alloc, pairings)?;
            Ok((taken, found))
        }
        None => unreachable!(),
    }
}

// Looks at the least of what comes home that may still be taken, so many or all, and says how many
// these were.
fn take_next(
    alloc: Global,
    fronts: &[Arc<BaseFronts, Global>],
    trip_rig: u32,
    many: usize,
    taken: Taken,
    known: &mut [BaseKnown],
) -> Result<(Taken, usize), AllocError>
    requires rate { Each (λ b. trip_rig ≡ b.net.settings.trip_rig) (map arc_value fronts.now) }
    requires known { AreKnown (Some taken) (map arc_value fronts.now) known.old }
    ensures look { IfOk result (λ next.
        IsLook many (flat_map home_of (map arc_value fronts.now)) taken next.0 next.1) }
    ensures known { IfOk result (λ next.
        AreKnown (Some next.0) (map arc_value fronts.now) known.new) }
{
    let mut kept = CheapestSoFar::beside(alloc, many, taken);
    keep_of_bases_low_first(alloc, fronts, trip_rig, many, known, &mut kept)?;
    look_at_kept(alloc, kept)
}

/// Of all that comes home, by cost and walk, the first that are taken where no flight is flown by
/// more than so many, up to a limit.
pub(crate) fn apart_of(
    alloc: Global,
    fronts: &[Arc<BaseFronts, Global>],
    trip_rig: u32,
    limit: usize,
    share: u32,
) -> Result<Vec<PricedPairing>, AllocError>
    requires { Each (λ b. trip_rig ≡ b.net.settings.trip_rig) (map arc_value fronts.now) }
    ensures { IfOk result (λ pairings. (all : List Pairing)
        → AreInOrder (flat_map home_of (map arc_value fronts.now)) all
        → pairings.items ≡ take limit (taken_from share [] all)) }
{
    let mut taken = Taken::new(alloc, share)?;
    let mut known = known(alloc, fronts, true)?;
    let mut many = LEAST;
    while taken.len() < limit {
        let before = taken.len();
        let (next, found) = take_next(alloc, fronts, trip_rig, many, taken, &mut known)?;
        taken = next;
        if found < many {
            return Ok(taken.into_first(limit));
        }
        many = more_than(many, taken.len().saturating_sub(before));
    }
    Ok(taken.into_first(limit))
}
