//! The seven sums of a pairing as a resource.
ghost use Rattle.std.specs.Prelude.{◌≡◌};
ghost use Rattle.crew_anchor.specs.Machinery.AnchorLaws.{anchored_bounds, anchored_counting, anchored_grading, anchored_shifts, anchored_staged, anchored_steps};
ghost use Rattle.crew_flights.specs.Timetable.{IsBasePrice};
ghost use Rattle.crew_rules.specs.Settings.{IsChecked};
ghost use Rattle.crew_vector.specs.Dominance.{is_at_most};
ghost use Rattle.crew_vector.specs.Machinery.Named.{named_order};
ghost use Rattle.crew_sums.specs.Sums.{sums_resource};

use crew_anchor::{AnchoredResource, AnchoredVector};
use crew_pairing::{Arrival, Departure, Duty};
use crew_resource::{Resource, Staged};
use crew_rules::Settings;
use std::alloc::AllocError;

/// The resource of a base's pairings by their seven sums, as of a common instant: a wait changes
/// nothing, and a duty adds the same to each value.
#[derive(Clone, Copy, Debug)]
pub struct SumsResource {
    pub anchored: AnchoredResource,
}

impl SumsResource {
    /// The resource of a base's pairings at its price.
    pub fn new(settings: &Settings, base_price: i64) -> SumsResource
        requires checked { IsChecked settings.now }
        requires price { IsBasePrice base_price }
        ensures { result ≡ sums_resource settings.now base_price }
    {
        SumsResource {
            anchored: AnchoredResource::new(settings, base_price),
        }
    }
}

impl Resource for SumsResource {
    type Value = AnchoredVector;

    type Item = Duty;

    ghost opens = { λ s. ⟦<AnchoredResource as Resource>⟧.opens s.anchored };

    ghost extends = { λ s. ⟦<AnchoredResource as Resource>⟧.extends s.anchored };

    ghost below = { is_at_most };

    ghost value_of = { λ s. ⟦<AnchoredResource as Resource>⟧.value_of s.anchored };

    ghost grade_of = { ⟦<AnchoredResource as Resource>⟧.grade_of };

    ghost can_start = { λ s. ⟦<AnchoredResource as Resource>⟧.can_start s.anchored };

    ghost can_extend = { λ s. ⟦<AnchoredResource as Resource>⟧.can_extend s.anchored };

    ghost order = { named_order };

    ghost steps = { λ s. anchored_steps s.anchored };

    ghost grading = { anchored_grading };

    #[inline]
    fn start(&self, duty: &Duty) -> Result<Option<AnchoredVector>, AllocError> {
        self.anchored.start(duty)
    }

    #[inline]
    fn extend(
        &self,
        value: &AnchoredVector,
        last: &Duty,
        next: &Duty,
    ) -> Result<Option<AnchoredVector>, AllocError> {
        self.anchored.extend(value, last, next)
    }

    #[inline]
    fn at_most(&self, a: &AnchoredVector, b: &AnchoredVector) -> bool {
        self.anchored.at_most(a, b)
    }

    #[inline]
    fn copy(&self, value: &AnchoredVector) -> Result<AnchoredVector, AllocError> {
        Ok(*value)
    }

    #[inline]
    fn grade(&self, value: &AnchoredVector) -> u32 {
        self.anchored.grade(value)
    }
}

impl Staged<Duty> for SumsResource {
    ghost idle_of = { λ s. ⟦<AnchoredResource as Staged<Duty>>⟧.idle_of s.anchored };

    ghost waited = { λ s. ⟦<AnchoredResource as Staged<Duty>>⟧.waited s.anchored };

    ghost boards = { λ s. ⟦<AnchoredResource as Staged<Duty>>⟧.boards s.anchored };

    ghost is_shift = { λ s. ⟦<AnchoredResource as Staged<Duty>>⟧.is_shift s.anchored };

    ghost most = { λ s. ⟦<AnchoredResource as Staged<Duty>>⟧.most s.anchored };

    ghost count_of = { λ s. ⟦<AnchoredResource as Staged<Duty>>⟧.count_of s.anchored };

    ghost fits = { λ s. ⟦<AnchoredResource as Staged<Duty>>⟧.fits s.anchored };

    ghost ready = { λ s. ⟦<AnchoredResource as Staged<Duty>>⟧.ready s.anchored };

    ghost arrived = { λ s. ⟦<AnchoredResource as Staged<Duty>>⟧.arrived s.anchored };

    ghost can_idle = { λ s. ⟦<AnchoredResource as Staged<Duty>>⟧.can_idle s.anchored };

    ghost can_wait = { λ s. ⟦<AnchoredResource as Staged<Duty>>⟧.can_wait s.anchored };

    ghost can_board = { λ s. ⟦<AnchoredResource as Staged<Duty>>⟧.can_board s.anchored };

    ghost staged = { λ s. anchored_staged s.anchored };

    ghost shifting = { λ s _. anchored_shifts s.anchored };

    ghost counting = { λ s. anchored_counting s.anchored };

    ghost bounds = { λ s. anchored_bounds s.anchored };

    #[inline]
    fn idle(&self, departure: &Departure) -> AnchoredVector {
        self.anchored.idle(departure)
    }

    #[inline]
    fn wait(
        &self,
        value: &AnchoredVector,
        arrival: &Arrival,
        departure: &Departure,
    ) -> AnchoredVector {
        self.anchored.wait(value, arrival, departure)
    }

    #[inline]
    fn board(&self, value: &AnchoredVector, duty: &Duty) -> Option<AnchoredVector> {
        self.anchored.board(value, duty)
    }
}
