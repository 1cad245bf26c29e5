//! What a pairing of up to 240 hours costs.
ghost use Rattle.crew_pairing.specs.Vectors.{reduced_cost};
ghost use Rattle.crew_vector.specs.Dominance.{cost_respects};
ghost use Rattle.std.proofs.lemmas.Bool.{and_parts};

use crate::{LongResource, LongValue};
use crew_resource::Cost;
use crew_vector::ReducedCost;

impl Cost<LongResource> for ReducedCost {
    ghost cost_of = { λ _ v. reduced_cost v.sums };

    ghost respects = { λ _ a b h. cost_respects a.sums b.sums (and_parts _ _ h).0 };

    #[inline]
    fn cost(&self, value: &LongValue) -> i64 {
        value.sums.reduced_cost()
    }
}
