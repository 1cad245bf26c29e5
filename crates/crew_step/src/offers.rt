//! The candidates of a job, offered to its front.
ghost use Rattle.std.specs.Prelude.{◌≡◌, ◌++◌, ◌∷◌, [], IfOk, List, OnOk, map};
ghost use Rattle.std.specs.List.{flat_map};
ghost use Rattle.crew_pairing.specs.Events.{IsSound, MayFollow, arrival_of, departure_of};
ghost use Rattle.crew_pairing.specs.Legs.{Leg};
ghost use Rattle.crew_pairing.specs.Local.{IsLocalOf};
ghost use Rattle.crew_resource.specs.Events.{labelled};
ghost use Rattle.crew_resource.specs.Machinery.Uses.{HasRoom};
ghost use Rattle.crew_resource.specs.Members.{Member};
ghost use Rattle.crew_step.specs.Machinery.Candidates.{all_extensions, extension};

use crate::feed::Predecessor;
use crew_front::Front;
use crew_pairing::{Duty, Key, PairingVector, Walk};
use crew_resource::{Resource, Staged, extend_staged, start_staged};
use crew_vector::VectorResource;
use std::alloc::{AllocError, Global};

/// A walk with one key more.
fn longer(alloc: Global, walk: &Walk, key: &Key) -> Result<Walk, AllocError>
    ensures { IfOk result (λ longer. longer ≡ walk.now ++ key.now ∷ []) }
{
    let mut keys = Vec::new(alloc);
    for known in walk.keys() {
        keys.push(known.copy())?;
    }
    keys.push(key.copy())?;
    Ok(Walk::new(keys))
}

/// Offers the value of a duty alone, if it has one.
pub(crate) fn offer_opening<R: Staged<Duty> + Drop>(
    alloc: Global,
    front: &mut Front<R>,
    resource: &R,
    duty: &Duty,
) -> Result<(), AllocError>
    requires sound { IsSound duty.now }
    requires fits { R.fits resource.now 1 }
    ensures { OnOk result ((candidates : List (R.Value × List (List Leg)))
        → IsLocalOf R.below candidates front.old
        → IsLocalOf R.below (candidates
        ++ labelled (R.opens resource.now duty.now) (duty.now.key ∷ [])) front.new) }
{
    let Some(value) = start_staged(resource, duty) else {
        return Ok(());
    };
    let mut keys = Vec::new(alloc);
    keys.push(duty.key.copy())?;
    front.offer(value, Walk::new(keys))?;
    Ok(())
}

/// Offers an entry with one more duty, if that has a value.
fn offer_extension<R: Staged<Duty> + Drop>(
    alloc: Global,
    front: &mut Front<R>,
    resource: &R,
    last: &Duty,
    next: &Duty,
    entry: &(R::Value, Walk),
) -> Result<(), AllocError>
    requires sound { IsSound next.now }
    requires follows { MayFollow (arrival_of last.now) (departure_of next.now) }
    requires room { HasRoom (R.fits resource.now) (R.arrived resource.now) entry.now.0 }
    ensures { OnOk result ((candidates : List (R.Value × List (List Leg)))
        → IsLocalOf R.below candidates front.old
        → IsLocalOf R.below (candidates
        ++ extension (R.extends resource.now) last.now next.now entry.now) front.new) }
{
    let Some(value) = extend_staged(resource, &entry.0, last, next) else {
        return Ok(());
    };
    let walk = longer(alloc, &entry.1, &next.key)?;
    front.offer(value, walk)?;
    Ok(())
}

/// Offers each entry of a front with one more duty.
fn offer_extensions<R: Staged<Duty> + Drop>(
    alloc: Global,
    front: &mut Front<R>,
    resource: &R,
    last: &Duty,
    next: &Duty,
    entries: &[(R::Value, Walk)],
) -> Result<(), AllocError>
    requires sound { IsSound next.now }
    requires follows { MayFollow (arrival_of last.now) (departure_of next.now) }
    requires room { (e : R.Value × List (List Leg)) → Member entries.now e
        → HasRoom (R.fits resource.now) (R.arrived resource.now) e.0 }
    ensures { OnOk result ((candidates : List (R.Value × List (List Leg)))
        → IsLocalOf R.below candidates front.old
        → IsLocalOf R.below (candidates
        ++ flat_map (extension (R.extends resource.now) last.now next.now) entries.now)
        front.new) }
{
    for entry in entries {
        offer_extension(alloc, front, resource, last, next, entry)?;
    }
    Ok(())
}

/// Offers each entry of the fronts before with one more duty.
pub(crate) fn offer_feed(
    alloc: Global,
    front: &mut Front<VectorResource>,
    resource: &VectorResource,
    feed: &[Predecessor],
    next: &Duty,
) -> Result<(), AllocError>
    requires sound { IsSound next.now }
    requires follows { (p : Duty × List (PairingVector × List (List Leg)))
        → Member (map (λ p. (p.duty, p.front.value)) feed.now) p
        → MayFollow (arrival_of p.0) (departure_of next.now) }
    requires room { (p : Duty × List (PairingVector × List (List Leg)))
        → Member (map (λ p. (p.duty, p.front.value)) feed.now) p
        → (e : PairingVector × List (List Leg)) → Member p.1 e
        → HasRoom (⟦<VectorResource as Staged<Duty>>⟧.fits resource.now)
        (⟦<VectorResource as Staged<Duty>>⟧.arrived resource.now) e.0 }
    ensures { OnOk result ((candidates : List (PairingVector × List (List Leg)))
        → IsLocalOf ⟦<VectorResource as Resource>⟧.below candidates front.old
        → IsLocalOf ⟦<VectorResource as Resource>⟧.below (candidates
        ++ all_extensions (⟦<VectorResource as Resource>⟧.extends resource.now) next.now
        (map (λ p. (p.duty, p.front.value)) feed.now)) front.new) }
{
    for before in feed {
        let entries = before.front.as_slice();
        offer_extensions(alloc, front, resource, &before.duty, next, entries)?;
    }
    Ok(())
}
