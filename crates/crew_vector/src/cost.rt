//! What a vector costs.
ghost use Rattle.crew_pairing.specs.Vectors.{reduced_cost};
ghost use Rattle.crew_vector.specs.Dominance.{cost_respects};

use crate::resource::VectorResource;
use crew_pairing::PairingVector;
use crew_resource::Cost;

/// The reduced cost of a pairing: its pay, less the dual prices of its flights and of its base.
#[derive(Clone, Copy, Debug)]
pub struct ReducedCost;

impl Cost<VectorResource> for ReducedCost {
    ghost cost_of = { λ _. reduced_cost };

    ghost respects = { λ _. cost_respects };

    #[inline]
    fn cost(&self, vector: &PairingVector) -> i64 {
        vector.reduced_cost()
    }
}
