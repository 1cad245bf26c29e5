//! The pool of an arrival.
ghost use Rattle.std.specs.Prelude.{◌≡◌, ◌<◌, ℕ, IfOk, List, Some, false, get_or, length, map, true};
ghost use Rattle.crew_pool.specs.Counted.{AreCounted};
ghost use Rattle.crew_pool.specs.LabelWalks.{IsPoolOf, shown};
ghost use Rattle.crew_pool.specs.declared.label_walk.LabelWalk.{LabelWalk};
ghost use Rattle.crew_pairing.specs.declared.duty.Duty.{Duty as DutySpec};
ghost use Rattle.crew_resource.specs.Members.{Member};
ghost use Rattle.crew_step.specs.Pools.{boarded};

use crate::pools::Pools;
use crew_pairing::{Duties, Duty};
use crew_pool::{GrowingPool, Marked, Pool, Walks, Workspace, absorb_boarding};
use crew_resource::Staged;
use std::alloc::{AllocError, Global};

/// The pool of an arrival, from the labels that board the duties of some ranks, each from the pool
/// of its departure: `positions` has the place of that pool, by rank. It has exactly the undominated
/// of these labels, each vector with its least walk, whatever the order of the ranks; it takes the
/// least time where ranks come first whose labels are at most those of the others.
pub fn arrival_pool<R: Staged<Duty> + Marked>(
    alloc: Global,
    resource: &R,
    room: &mut Workspace<R>,
    pools: &Pools<R>,
    duties: &Duties,
    positions: &[u32],
    ranks: &[u32],
    walks: &Walks,
) -> Result<Pool<R>, AllocError>
    requires shift { R.is_shift resource.now }
    requires counting { (most : ℕ) × (R.most resource.now ≡ Some most) }
    requires few { length duties.now < 4_294_967_295 }
    requires positions { length positions.now ≡ length duties.now }
    requires within { (rank : ℕ) → Member ranks.now rank
        → (rank < length duties.now) × (get_or positions.now rank 0 < length pools.now) }
    requires can { (labels : List (R.Value × LabelWalk)) (l : R.Value × LabelWalk) (item : DutySpec)
        → Member pools.now labels → Member labels l → Member duties.now item
        → R.can_board resource.now l.0 item }
    requires whole { (labels : List (R.Value × LabelWalk)) → Member pools.now labels
        → AreCounted (R.count_of resource.now) walks.now true labels }
    ensures local { IfOk result (λ pool. IsPoolOf R.below (boarded walks.now
        (R.boards resource.now) duties.now positions.now pools.now ranks.now)
        (map (shown walks.now) pool)) }
    ensures counts { IfOk result (AreCounted (R.count_of resource.now) walks.now false) }
{
    let mut pool = GrowingPool::begin(alloc, room);
    for rank in ranks {
        let duty = duties.at(*rank as usize);
        let from = pools.get(positions[*rank as usize] as usize);
        absorb_boarding(resource, &mut pool, room, from, duty, *rank, walks)?;
    }
    pool.copy_out(alloc, resource, room)
}
