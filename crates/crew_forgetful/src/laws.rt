//! Laws over the definitions alone.
ghost use Rattle.std.specs.Prelude.{◌≡◌, ℕ, Bool, true, false, List, ◌++◌, Some};
ghost use Rattle.std.specs.declared.cmp.Ordering.{Ordering};
ghost use Rattle.crew_resource.specs.Events.{Network};
ghost use Rattle.crew_resource.specs.Labels.{IsLocal};
ghost use Rattle.crew_resource.specs.Members.{Member};
ghost use Rattle.crew_resource.specs.Resource.{OrderLaws};
ghost use Rattle.crew_forgetful.specs.Forgetful.{Forgetful, Covers, IsPool, StandsFor, stands};
ghost use Rattle.crew_forgetful.specs.Machinery.Sums.{is_same};
ghost use Rattle.crew_forgetful.specs.Misleading as Misleading;
ghost use Rattle.crew_forgetful.specs.Sweeps.{Schedule, IsSchedule, IsCoveredPass, IsFrontOf, TellCount, network_of, walk_at_most};

use crate::Forgets;
use crew_resource::{Placed, Staged};

/// Stages that shift values forget nothing: all of a value is sums.
pub fn shifts_forget_nothing<P: Placed, R: Staged<P>>()
    ensures { (r : R) → R.is_shift r
        → Forgetful R.below (is_same R.below) (R.waited r) (R.boards r) }
{}

/// Any stages may forget all of a value: nothing of it is sums then.
pub fn all_may_be_forgotten<P: Placed, R: Staged<P>>()
    ensures { (r : R) → Forgetful R.below (λ a b. true) (R.waited r) (R.boards r) }
{}

/// Each list of labels has a pool, and one only; in it no value stands twice.
pub fn each_list_has_one_pool<P: Placed, R: Forgets<P>, W>()
    ensures there { (r : R) (cmp : W → W → Ordering) (at_most : W → W → Bool)
        (labels : List (R.Value × W)) → OrderLaws cmp at_most
        → (entries : List (R.Value × W))
        × IsPool R.below R.same_sums at_most (λ v w. Member labels (v, w)) entries }
    ensures one { (r : R) (cmp : W → W → Ordering) (at_most : W → W → Bool)
        (labels es fs : List (R.Value × W)) → OrderLaws cmp at_most
        → IsPool R.below R.same_sums at_most (λ v w. Member labels (v, w)) es
        → IsPool R.below R.same_sums at_most (λ v w. Member labels (v, w)) fs
        → (v : R.Value) (w : W) → Member es (v, w) → Member fs (v, w) }
    ensures test { (at_most : W → W → Bool) (v x : R.Value) (w y : W)
        → (stands R.below R.same_sums at_most v w x y ≡ true
        → StandsFor R.below R.same_sums at_most v w x y)
        × (StandsFor R.below R.same_sums at_most v w x y
        → stands R.below R.same_sums at_most v w x y ≡ true) }
{}

/// The pool of two pools is the pool of all their labels; and labels that cover others leave the
/// pool of all of them.
pub fn pools_merge<P: Placed, R: Forgets<P>, W>()
    ensures merged { (r : R) (cmp : W → W → Ordering) (at_most : W → W → Bool)
        (one_labels two_labels one two merged : List (R.Value × W)) → OrderLaws cmp at_most
        → IsPool R.below R.same_sums at_most (λ v w. Member one_labels (v, w)) one
        → IsPool R.below R.same_sums at_most (λ v w. Member two_labels (v, w)) two
        → IsPool R.below R.same_sums at_most (λ v w. Member (one ++ two) (v, w)) merged
        → IsPool R.below R.same_sums at_most (λ v w. Member (one_labels ++ two_labels) (v, w))
        merged }
    ensures covered { (r : R) (cmp : W → W → Ordering) (at_most : W → W → Bool)
        (part labels entries : List (R.Value × W)) → OrderLaws cmp at_most
        → Covers R.below R.same_sums at_most (λ v w. Member part (v, w))
        (λ v w. Member labels (v, w))
        → (IsPool R.below R.same_sums at_most (λ v w. Member part (v, w)) entries
        → IsPool R.below R.same_sums at_most (λ v w. Member labels (v, w)) entries)
        × (IsPool R.below R.same_sums at_most (λ v w. Member labels (v, w)) entries
        → IsPool R.below R.same_sums at_most (λ v w. Member part (v, w)) entries) }
{}

/// Where no two values, one at most the other, have the same sums, pools are what dominance by
/// values alone leaves.
pub fn plain_pools_are_what_dominance_leaves<P: Placed, R: Forgets<P>, W>()
    ensures { (r : R) (cmp : W → W → Ordering) (at_most : W → W → Bool)
        (labels entries : List (R.Value × W)) → OrderLaws cmp at_most
        → ((a b : R.Value) → R.below a b ≡ true → R.same_sums a b ≡ true → a ≡ b)
        → IsLocal R.below at_most (λ v w. Member labels (v, w)) entries
        → IsPool R.below R.same_sums at_most (λ v w. Member labels (v, w)) entries }
{}

/// Over the events of a schedule: where each pool covers what may stand there, and each front is
/// filtered from its pool's view, the fronts are those of all legal lists of items.
pub fn covered_passes_show_the_fronts<P: Placed, R: Forgets<P>, K>()
    ensures { (r : R) (most : ℕ) (s : Schedule P P.Arrival P.Departure K)
        (pools : P.Departure → List (R.Value × List K))
        (arrivals : P.Departure → P.Arrival → List (R.Value × List K))
        (fronts : P → List (R.Value × List K)) (d : P) → R.most r ≡ Some most
        → TellCount R.same_sums (R.count_of r) → IsSchedule P.arrives P.leaves s
        → IsCoveredPass (network_of s P.leaves P.arrives (R.idle_of r) (R.waited r) (R.boards r))
        R.below R.same_sums (walk_at_most s.cmp) pools arrivals fronts
        → Member s.known d → IsFrontOf s R.below (R.value_of r) d (fronts d) }
{}

/// Of two labels, one with the lesser history and one with the lesser walk, values alone drop the
/// second: then what boards has the greater walk. By the rule that looks at walks both stay.
pub fn values_alone_mislead()
    ensures dropped { IsLocal Misleading.below Misleading.at_most_bool
        (λ v w. Member Misleading.both_labels (v, w)) Misleading.kept_by_value }
    ensures kept { IsPool Misleading.below Misleading.same_sum Misleading.at_most_bool
        (λ v w. Member Misleading.both_labels (v, w)) Misleading.both_labels }
    ensures lesser { IsLocal Misleading.below Misleading.at_most_bool
        (Misleading.Boarding Misleading.both_labels) (Misleading.boarded_with false) }
    ensures greater { IsLocal Misleading.below Misleading.at_most_bool
        (Misleading.Boarding Misleading.kept_by_value) (Misleading.boarded_with true) }
{}
