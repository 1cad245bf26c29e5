//! Of seven sums nothing lapses.
ghost use Rattle.std.specs.Prelude.{◌≡◌, false};
ghost use Rattle.crew_anchor.specs.Machinery.AnchorLaws.{anchored_shifts};
ghost use Rattle.crew_anchor.specs.Machinery.Narrow.{vector_total};
ghost use Rattle.crew_vector.specs.Machinery.Named.{named_order};
ghost use Rattle.crew_sums.specs.Machinery.Shifting.{shifts_together, shifts_wait, shifts_rest, shifts_board};

use crate::SumsResource;
use crew_anchor::AnchoredVector;
use crew_forgetful::Lapses;
use crew_pairing::{Arrival, Departure, Duty};

impl Lapses<Duty> for SumsResource {
    ghost rests = { λ _ _ _. false };

    ghost rested_of = { λ _ v. v };

    ghost lapses = { λ _ _ _. false };

    ghost together = { λ s. shifts_together _ _ _ _ vector_total named_order
        (anchored_shifts s.anchored) };

    ghost waiting = { λ s. shifts_wait _ _ _ _ (anchored_shifts s.anchored) };

    ghost resting = { λ s. shifts_rest _ _ _ _ (anchored_shifts s.anchored) _ _ };

    ghost aboard = { λ s. shifts_board _ _ _ _ (anchored_shifts s.anchored) };

    /// No wait is one: each leaves a value as it is.
    #[inline]
    fn is_rest(&self, _arrival: &Arrival, _departure: &Departure) -> bool {
        false
    }

    /// The value itself.
    #[inline]
    fn rested(&self, value: &AnchoredVector) -> AnchoredVector {
        *value
    }

    /// Nothing does.
    #[inline]
    fn is_lapsing(&self, _value: &AnchoredVector, _item: &Duty) -> bool {
        false
    }
}
