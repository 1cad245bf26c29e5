//! Laws over the definitions alone.
ghost use Rattle.std.specs.Prelude.{◌≡◌, ℕ, Bool, true, List, map};
ghost use Rattle.crew_resource.specs.Labels.{IsLocal};
ghost use Rattle.crew_resource.specs.Members.{Member};
ghost use Rattle.crew_label.specs.Boarding.{LeadInto, boarded_from, waited_label};
ghost use Rattle.crew_label.specs.Pools.{ArePoolOf};
ghost use Rattle.crew_label.specs.Walks.{ranks_at_most, shown};
ghost use Rattle.crew_label.specs.declared.label.Label.{Label};
ghost use Rattle.crew_label.specs.declared.label.Link.{Link};

use crew_forgetful::Forgets;
use crew_resource::Placed;

/// Where a resource shifts and forgets nothing, the labels of a pool that board an item are a front
/// as they stand, and labels that have waited are a pool as they stand.
pub fn shifts_need_no_filter<P: Placed, R: Forgets<P>>()
    ensures boarded { (r : R) (item : P) (leads : Link → Bool) (trail : Link → List ℕ) (duty rank : ℕ)
        (candidates : List (R.Value × List ℕ)) (pool : List (Label R.Value)) → R.is_shift r
        → ((a b : R.Value) → R.below a b ≡ true → R.same_sums a b ≡ true → a ≡ b)
        → LeadInto leads trail duty rank pool
        → ArePoolOf R.below R.same_sums trail candidates pool
        → IsLocal R.below ranks_at_most (λ v w. Member
        (map (shown trail) (boarded_from (λ u. R.boards r u item) duty 0 pool)) (v, w))
        (map (shown trail) (boarded_from (λ u. R.boards r u item) duty 0 pool)) }
    ensures waited { (r : R) (arrival : P.Arrival) (departure : P.Departure)
        (trail : Link → List ℕ) (candidates : List (R.Value × List ℕ))
        (pool : List (Label R.Value)) → R.is_shift r
        → ((a b : R.Value) → R.below a b ≡ true → R.same_sums a b ≡ true → a ≡ b)
        → ArePoolOf R.below R.same_sums trail candidates pool
        → ArePoolOf R.below R.same_sums trail
        (map (shown trail) (map (waited_label (λ u. R.waited r u arrival departure)) pool))
        (map (waited_label (λ u. R.waited r u arrival departure)) pool) }
{}
