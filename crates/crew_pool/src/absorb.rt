//! Lists of labels that board a duty into a pool.
ghost use Rattle.std.specs.Prelude.{◌≡◌, ◌<◌, ℕ, List, [], ◌∷◌, ◌++◌, map, OnOk, OnErr, true, false};
ghost use Rattle.std.specs.List.{flat_map};
ghost use Rattle.std.specs.List.Sorted.{IsPermutation};
ghost use Rattle.crew_resource.specs.Events.{labelled};
ghost use Rattle.crew_resource.specs.Members.{Member};
ghost use Rattle.crew_pool.specs.Counted.{AreCounted};
ghost use Rattle.crew_pool.specs.Machinery.Meets.{vectors_of};
ghost use Rattle.crew_pool.specs.LabelWalks.{IsPoolOf, shown};
ghost use Rattle.crew_pool.specs.declared.label_walk.LabelWalk.{LabelWalk};

use crate::arena::Walks;
use crate::growing::GrowingPool;
use crate::marks::Marked;
use crate::merge::merge_entries;
use crate::pool::Pool;
use crate::view::View;
use crate::workspace::Workspace;
use crew_resource::{Placed, Staged};
use std::alloc::AllocError;

/// Extends the labels of a list that can board a duty, and merges them into a pool by dominance.
///
/// If the pool's labels were what a list of candidates leaves, they are then what that list leaves
/// with those that boarded after it: each with its vector at the duty's end, and its walk a duty
/// longer. `duty` is the duty's rank. Walks are told by rank, so they compare as by key where the
/// duties are ranked by key. Vectors count their duties, so walks of one vector are as long: what a
/// longer walk's order rests on. On want of memory no label has gone or joined, but lesser walks
/// may already stand at ties.
pub fn absorb_boarding<P: Placed, R: Staged<P> + Marked>(
    resource: &R,
    pool: &mut GrowingPool<R>,
    room: &mut Workspace<R>,
    list: &Pool<R>,
    item: &P,
    duty: u32,
    walks: &Walks,
) -> Result<(), AllocError>
    requires shift { R.is_shift resource.now }
    requires counting { (most : ℕ) × (R.most resource.now ≡ Some most) }
    requires duty { duty < 4_294_967_295 }
    requires can { (l : R.Value × LabelWalk) → Member list.now l
        → R.can_board resource.now l.0 item.now }
    requires pool_counts { AreCounted (R.count_of resource.now) walks.now false pool.old }
    requires list_counts { AreCounted (R.count_of resource.now) walks.now true list.now }
    ensures local { OnOk result ((candidates : List (R.Value × List ℕ))
        → IsPoolOf R.below candidates (map (shown walks.now) pool.old)
        → IsPoolOf R.below (candidates
        ++ flat_map (λ e. labelled (R.boards resource.now e.0 item.now) (e.1 ++ duty ∷ []))
        (map (shown walks.now) list.now)) (map (shown walks.now) pool.new)) }
    ensures counts { OnOk result (AreCounted (R.count_of resource.now) walks.now false pool.new) }
    ensures err { OnErr result (IsPermutation (vectors_of pool.old) (vectors_of pool.new)) }
{
    let entries = View::new(resource, list, item, duty).iter();
    merge_entries(resource, &mut pool.labels, &mut room.free, entries, walks)?;
    Ok(())
}
