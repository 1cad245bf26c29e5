//! What lapses of values of pairings of up to 240 hours.
ghost use Rattle.std.specs.Prelude.{◌≡◌};
ghost use Rattle.crew_vector.specs.Machinery.VectorLaws.{vector_shifts};
ghost use Rattle.crew_long.specs.Recents.{is_cut};
ghost use Rattle.crew_long.specs.RestEnds.{is_rest};
ghost use Rattle.crew_answers.specs.Machinery.Lapses.{rested_value, sums_together, waits_reflect, rests_reflect, boards_reflect};

use crate::{LongResource, LongValue};
use crew_forgetful::Lapses;
use crew_pairing::{Arrival, Departure, Duty};
use crew_resource::Staged;
use crew_vector::VectorResource;

impl Lapses<Duty> for LongResource {
    ghost rests = { λ s. is_rest s.rest.is_on };

    ghost rested_of = { λ s. rested_value s.rest.is_on };

    ghost lapses = { λ s v. is_cut s.window.is_on v.recent };

    ghost together = { λ s. sums_together _ _ (vector_shifts s.sums) s.rest.is_on
        s.window.is_on s.window.cap };

    ghost waiting = { λ s. waits_reflect _ _ (vector_shifts s.sums) s.rest.is_on
        s.window.is_on s.window.cap };

    ghost resting = { λ s. rests_reflect _ _ (vector_shifts s.sums) s.rest.is_on
        s.window.is_on s.window.cap (⟦<VectorResource as Staged<Duty>>⟧.arrived s.sums) };

    ghost aboard = { λ s. boards_reflect _ _ (vector_shifts s.sums) s.rest.is_on
        s.window.is_on s.window.cap };

    /// A rest of 1,800 minutes or more sets the end of the last long rest anew.
    #[inline]
    fn is_rest(&self, arrival: &Arrival, departure: &Departure) -> bool {
        self.rest.is_rest(arrival, departure)
    }

    /// The sums and the last window stay.
    #[inline]
    fn rested(&self, value: &LongValue) -> LongValue {
        LongValue {
            rest_end: self.rest.rested_end(&value.rest_end),
            ..*value
        }
    }

    /// Of a value lapses what lies before the window that ends with the duty.
    #[inline]
    fn is_lapsing(&self, value: &LongValue, item: &Duty) -> bool {
        self.window.is_cutting(&value.recent, item)
    }
}
