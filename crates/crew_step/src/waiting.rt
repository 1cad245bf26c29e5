//! Labels that wait on.
ghost use Rattle.std.specs.Prelude.{◌≡◌, ◌<◌, ℤ, IfOk, OnOk, false, length, map, nat_eq, true};
ghost use Rattle.crew_pool.specs.Counted.{AreCounted, IsCounted};
ghost use Rattle.crew_pool.specs.LabelWalks.{shown};
ghost use Rattle.crew_pool.specs.declared.label_walk.LabelWalk.{LabelWalk};
ghost use Rattle.crew_resource.specs.Members.{Member};
ghost use Rattle.crew_step.specs.Walks.{HasGrown};

use crew_pool::{LabelWalk, NO_DUTY, Pool, Walks};
use crew_resource::Resource;
use std::alloc::AllocError;

/// The labels of an arrival's pool as labels that wait on: the walk of each, with its duty, is
/// added to the walks, and stands whole there. So they may be merged into a departure's pool, and
/// board.
///
/// Walks that were there stay where they are; on want of memory some may have been added.
pub fn waiting_labels<R: Resource>(pool: Pool<R>, walks: &mut Walks) -> Result<Pool<R>, AllocError>
    requires { (l : R.Value × LabelWalk) → Member pool l
        → (l.1.walk < length walks.old) × (nat_eq l.1.duty 4294967295 ≡ false) }
    ensures same { IfOk result (λ whole. map (shown walks.new) whole
        ≡ map (shown walks.old) pool) }
    ensures counts { (count : R.Value → ℤ) → AreCounted count walks.old false pool
        → IfOk result (AreCounted count walks.new true) }
    ensures grown { HasGrown walks.old walks.new }
{
    let mut labels = pool.into_vec();
    for place in 0..labels.len() {
        make_whole(&mut labels[place], walks)?;
    }
    Ok(Pool::from_apart(labels))
}

// Puts a label's walk, whole, in place of the one with a duty after it.
fn make_whole<V>(label: &mut (V, LabelWalk), walks: &mut Walks) -> Result<(), AllocError>
    requires there { label.old.1.walk < length walks.old }
    requires pending { nat_eq label.old.1.duty 4294967295 ≡ false }
    ensures same { OnOk result (shown walks.new label.new ≡ shown walks.old label.old) }
    ensures there { OnOk result (label.new.1.walk < length walks.new) }
    ensures counts { (count : V → ℤ) → IsCounted count walks.old false label.old
        → OnOk result (IsCounted count walks.new true label.new) }
    ensures grown { HasGrown walks.old walks.new }
{
    let walk = walks.add(label.1.walk, label.1.duty)?;
    let duty = NO_DUTY;
    label.1 = LabelWalk { walk, duty };
    Ok(())
}
