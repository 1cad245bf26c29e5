//! The pool of a departure.
ghost use Rattle.std.specs.Prelude.{◌≡◌, ◌∷◌, ◌++◌, ℕ, [], IfOk, OnOk, List, Some, false, map, pos, true};
ghost use Rattle.crew_pool.specs.Counted.{AreCounted};
ghost use Rattle.crew_pool.specs.LabelWalks.{IsPoolOf, shown};
ghost use Rattle.crew_resource.specs.Events.{labelled};
ghost use Rattle.crew_step.specs.Walks.{HasGrown};

use crate::waiting::waiting_labels;
use crew_pool::{GrowingPool, LabelWalk, Marked, NO_DUTY, Pool, Walks, Workspace};
use crew_resource::{Placed, Staged};
use std::alloc::{AllocError, Global};

/// The pool of a departure, from the labels of all arrivals that it may wait on, gathered in one
/// pool, and from the empty label, where it has one: exactly the undominated of these labels, each
/// vector with its least walk. The labels stand as of a common instant, so waiting changes none.
///
/// Their walks are added to the walks, and stand whole there. Walks that were there stay where they
/// are; on want of memory some may have been added.
pub fn departure_pool<P: Placed, R: Staged<P> + Marked>(
    alloc: Global,
    resource: &R,
    room: &mut Workspace<R>,
    gathered: Pool<R>,
    idle: Option<R::Value>,
    walks: &mut Walks,
) -> Result<Pool<R>, AllocError>
    requires gathered { AreCounted (R.count_of resource.now) walks.old false gathered }
    requires idle { (value : R.Value) → idle ≡ Some value
        → R.count_of resource.now value ≡ pos 0 }
    ensures local { IfOk result (λ pool. (candidates : List (R.Value × List ℕ))
        → IsPoolOf R.below candidates (map (shown walks.old) gathered)
        → IsPoolOf R.below (candidates ++ labelled idle []) (map (shown walks.new) pool)) }
    ensures counts { IfOk result (AreCounted (R.count_of resource.now) walks.new true) }
    ensures grown { HasGrown walks.old walks.new }
{
    let pool = waiting_labels(gathered, walks)?;
    match idle {
        Some(value) => with_idle::<P, R>(alloc, resource, room, pool, value, walks),
        None => Ok(pool),
    }
}

// A departure's pool with the empty label.
fn with_idle<P: Placed, R: Staged<P> + Marked>(
    alloc: Global,
    resource: &R,
    room: &mut Workspace<R>,
    pool: Pool<R>,
    value: R::Value,
    walks: &Walks,
) -> Result<Pool<R>, AllocError>
    requires idle { R.count_of resource.now value ≡ pos 0 }
    requires pool { AreCounted (R.count_of resource.now) walks.now true pool }
    ensures local { IfOk result (λ with. (candidates : List (R.Value × List ℕ))
        → IsPoolOf R.below candidates (map (shown walks.now) pool)
        → IsPoolOf R.below (candidates ++ (value, []) ∷ []) (map (shown walks.now) with)) }
    ensures counts { IfOk result (AreCounted (R.count_of resource.now) walks.now true) }
{
    let walk = walks.empty_walk();
    let duty = NO_DUTY;
    let mut labels = Vec::new(alloc);
    labels.push((value, LabelWalk { walk, duty }))?;
    let mut growing = GrowingPool::of(alloc, resource, pool)?;
    growing.merge(resource, room, &labels, walks)?;
    Ok(growing.into_pool())
}
