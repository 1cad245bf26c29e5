//! Of seven sums nothing is forgotten.
ghost use Rattle.std.specs.Prelude.{◌≡◌};
ghost use Rattle.crew_anchor.specs.Machinery.AnchorLaws.{anchored_shifts, anchored_staged};
ghost use Rattle.crew_forgetful.specs.Machinery.Sums.{is_same, shifts_forgetful};
ghost use Rattle.crew_vector.specs.Dominance.{is_at_most};
ghost use Rattle.crew_vector.specs.Machinery.Named.{named_order};

use crate::SumsResource;
use crew_anchor::AnchoredVector;
use crew_forgetful::Forgets;
use crew_pairing::Duty;
use crew_resource::Resource;

impl Forgets<Duty> for SumsResource {
    ghost same_sums = { is_same is_at_most };

    ghost forgets = { λ s. shifts_forgetful _ _ _ _ _ _ _ _ _ named_order
        (anchored_staged s.anchored) (anchored_shifts s.anchored) };

    /// All of a value is sums: two have the same where they are one.
    #[inline]
    fn has_same_sums(&self, a: &AnchoredVector, b: &AnchoredVector) -> bool {
        self.at_most(a, b) && self.at_most(b, a)
    }
}
