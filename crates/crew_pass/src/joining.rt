//! Labels that join a room.
ghost use Rattle.std.specs.Prelude.{◌≡◌, ◌⊎◌, ◌++◌, ℕ, List, OnOk};
ghost use Rattle.crew_label.specs.Pools.{ArePoolOf};
ghost use Rattle.crew_label.specs.declared.label.Label.{Label};
ghost use Rattle.crew_labelling.specs.Held.{trail_of};
ghost use Rattle.crew_resource.specs.Members.{Member};
ghost use Rattle.crew_pass.specs.Machinery.Seen.{AreSeen};
ghost use Rattle.crew_pass.specs.Machinery.Stretches.{CountThere};
ghost use Rattle.crew_pass.specs.Machinery.Terms.{MayPass, labels_table, terms};

use crate::ground::Ground;
use crate::pooled::Pooled;
use crate::seen::Seen;
use crate::sight::Sight;
use crew_label::Pool;
use crew_pairing::Duty;
use crew_room::Room;
use std::alloc::AllocError;

/// The labels of a pool join a room.
pub(crate) fn join<R: Pooled>(
    ground: &Ground<R>,
    seen: &Seen<R>,
    room: &mut Room<R>,
    pool: &Pool<R>,
) -> Result<(), AllocError>
    requires may { MayPass (terms R.Value.cmp R.Lapses.own R.Staged.own R.Forgets.own R.Resource.own ground.now) }
    requires seen { AreSeen (terms R.Value.cmp R.Lapses.own R.Staged.own R.Forgets.own R.Resource.own ground.now) seen.now }
    requires counts { CountThere (terms R.Value.cmp R.Lapses.own R.Staged.own R.Forgets.own R.Resource.own ground.now) seen.now.departures room.old }
    requires others { CountThere (terms R.Value.cmp R.Lapses.own R.Staged.own R.Forgets.own R.Resource.own ground.now) seen.now.departures pool.now }
    ensures pool { OnOk result ((firsts seconds : List (R.Value × List ℕ))
        → ArePoolOf R.below R.same_sums (trail_of (labels_table (terms R.Value.cmp R.Lapses.own R.Staged.own R.Forgets.own R.Resource.own ground.now))) firsts room.old
        → ArePoolOf R.below R.same_sums (trail_of (labels_table (terms R.Value.cmp R.Lapses.own R.Staged.own R.Forgets.own R.Resource.own ground.now))) seconds pool.now
        → ArePoolOf R.below R.same_sums (trail_of (labels_table (terms R.Value.cmp R.Lapses.own R.Staged.own R.Forgets.own R.Resource.own ground.now))) (firsts ++ seconds)
        room.new) }
    ensures from { (l : Label R.Value) → Member room.new l
        → Member room.old l ⊎ Member pool.now l }
    ensures counts { CountThere (terms R.Value.cmp R.Lapses.own R.Staged.own R.Forgets.own R.Resource.own ground.now) seen.now.departures room.new }
{
    let sight = Sight::over(ground, seen);
    room.wait::<Duty, Sight<R>>(ground.resource, &sight, pool.as_slice())
}
