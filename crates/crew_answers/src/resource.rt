//! The resource of pairings of up to 240 hours.
ghost use Rattle.std.specs.Prelude.{◌≡◌, ℕ, pos, Bool, true, false, ◌&&◌, List, Option, Some, None};
ghost use Rattle.std.specs.Option.{option_map};
ghost use Rattle.crew_vector.specs.Dominance.{is_at_most};
ghost use Rattle.crew_vector.specs.Fronts.{vector_cmp};
ghost use Rattle.crew_vector.specs.Machinery.Named.{named_order};
ghost use Rattle.crew_vector.specs.Machinery.VectorLaws.{vector_bounds, vector_counting, vector_grading, vector_shifts, vector_staged, vector_steps};
ghost use Rattle.crew_resource.specs.Machinery.BothLaws.{both_grades, both_order, both_steps};
ghost use Rattle.crew_resource.specs.Machinery.BothStages.{both_bounds, both_counting, both_shifts, both_staged};
ghost use Rattle.crew_resource.specs.Machinery.SumLaws.{no_grades};
ghost use Rattle.crew_resource.specs.Machinery.SumStages.{no_counting};
ghost use Rattle.crew_long.specs.Recents.{recent_at_most};
ghost use Rattle.crew_long.specs.RestEnds.{rest_end_at_most};
ghost use Rattle.crew_long.specs.Machinery.RecentStages.{recent_bounds, recent_order, recent_shifts, recent_staged, recent_steps};
ghost use Rattle.crew_long.specs.Machinery.RestOrder.{rest_end_order};
ghost use Rattle.crew_long.specs.Machinery.RestStages.{rest_bounds, rest_shifts, rest_staged, rest_steps};
ghost use Rattle.crew_forgetful.specs.Machinery.Sums.{is_same, shifts_forgetful, staged_forgetful, both_forgetful};
ghost use Rattle.crew_answers.specs.LongVectors as LongVectors;
ghost use Rattle.crew_answers.specs.Shown.{resource_over};
ghost use Rattle.crew_answers.specs.Machinery.Joined.{joined, parts_of, past_of, sides_of};
ghost use Rattle.crew_answers.specs.Machinery.JoinedLaws.{joined_order, joined_steps, joined_staged, joined_shifts, joined_counting, joined_bounds, joined_forgetful};

use crate::LongValue;
use crew_forgetful::Forgets;
use crew_long::{SinceRest, Window};
use crew_pairing::{Arrival, Departure, Duty};
use crew_resource::{Both, Resource, Staged};
use crew_rules::Settings;
use crew_vector::VectorResource;
use std::alloc::AllocError;

/// What is remembered beside the sums.
type Past = Both<SinceRest, Window>;

/// The three parts side by side.
type Sides = Both<VectorResource, Past>;

/// The resource of a base's pairings of up to 240 hours: the seven sums, the end of the last long
/// rest and the flight duty of the last window. A list has a value where each of the three has one.
#[derive(Clone, Copy, Debug)]
pub struct LongResource {
    pub sums: VectorResource,
    pub rest: SinceRest,
    pub window: Window,
}

/// The settings under whose caps the seven sums stand: the cap of a window is one on all flight duty
/// minutes where no pairing has more than 138 hours, and none where one may have.
pub fn settings_of_sums(settings: &Settings) -> Settings
    ensures { result ≡ LongVectors.settings_of_sums settings.now }
{
    let fdp_cap = if settings.away_cap > 8_280 {
        settings.fdp_total
    } else {
        settings.fdp_cap
    };
    Settings {
        fdp_cap,
        ..*settings
    }
}

impl LongResource {
    /// The resource over given sums: it remembers a past where the settings allow more than 138
    /// hours.
    pub fn new(sums: VectorResource, settings: &Settings) -> LongResource
        ensures { result ≡ resource_over sums settings.now }
    {
        let is_on = settings.away_cap > 8_280;
        LongResource {
            sums,
            rest: SinceRest { is_on },
            window: Window {
                is_on,
                cap: i64::from(settings.fdp_cap),
            },
        }
    }
}

impl Resource for LongResource {
    type Value = LongValue;

    type Item = Duty;

    ghost opens = { λ s d. option_map joined (⟦<Sides as Resource>⟧.opens (sides_of s) d) };

    ghost extends = { λ s v last next. option_map joined
        (⟦<Sides as Resource>⟧.extends (sides_of s) (parts_of v) last next) };

    ghost below = { λ a b. ⟦<Sides as Resource>⟧.below (parts_of a) (parts_of b) };

    ghost value_of = { λ s duties. option_map joined
        (⟦<Sides as Resource>⟧.value_of (sides_of s) duties) };

    ghost grade_of = { λ v. ⟦<Sides as Resource>⟧.grade_of (parts_of v) };

    ghost can_start = { λ s. ⟦<Sides as Resource>⟧.can_start (sides_of s) };

    ghost can_extend = { λ s v. ⟦<Sides as Resource>⟧.can_extend (sides_of s) (parts_of v) };

    ghost order = { joined_order _ _ (both_order _ _ _ _ named_order
        (both_order _ _ _ _ rest_end_order recent_order)) };

    ghost steps = { λ s. joined_steps _ _ _ _ (both_steps _ _ _ _ _ _ _ _ (vector_steps s.sums)
        (both_steps _ _ _ _ _ _ _ _ (rest_steps s.rest.is_on)
        (recent_steps s.window.is_on s.window.cap))) };

    ghost grading = { λ a b. both_grades _ _ _ _ vector_grading
        (both_grades _ _ _ _ (no_grades rest_end_at_most) (no_grades recent_at_most))
        (parts_of a) (parts_of b) };

    #[inline]
    fn start(&self, duty: &Duty) -> Result<Option<LongValue>, AllocError> {
        let Some(sums) = self.sums.start(duty)? else {
            return Ok(None);
        };
        let Some(rest_end) = self.rest.start(duty)? else {
            return Ok(None);
        };
        let Some(recent) = self.window.start(duty)? else {
            return Ok(None);
        };
        Ok(Some(LongValue {
            sums,
            rest_end,
            recent,
        }))
    }

    #[inline]
    fn extend(
        &self,
        value: &LongValue,
        last: &Duty,
        next: &Duty,
    ) -> Result<Option<LongValue>, AllocError> {
        let Some(sums) = self.sums.extend(&value.sums, last, next)? else {
            return Ok(None);
        };
        let Some(rest_end) = self.rest.extend(&value.rest_end, last, next)? else {
            return Ok(None);
        };
        let Some(recent) = self.window.extend(&value.recent, last, next)? else {
            return Ok(None);
        };
        Ok(Some(LongValue {
            sums,
            rest_end,
            recent,
        }))
    }

    #[inline]
    fn at_most(&self, a: &LongValue, b: &LongValue) -> bool {
        self.sums.at_most(&a.sums, &b.sums)
            && (self.rest.at_most(&a.rest_end, &b.rest_end)
                && self.window.at_most(&a.recent, &b.recent))
    }

    #[inline]
    fn copy(&self, value: &LongValue) -> Result<LongValue, AllocError> {
        Ok(*value)
    }

    #[inline]
    fn grade(&self, value: &LongValue) -> u32 {
        self.sums.grade(&value.sums)
    }
}

impl Staged<Duty> for LongResource {
    ghost idle_of = { λ s g. joined (⟦<Sides as Staged<Duty>>⟧.idle_of (sides_of s) g) };

    ghost waited = { λ s v x g. joined
        (⟦<Sides as Staged<Duty>>⟧.waited (sides_of s) (parts_of v) x g) };

    ghost boards = { λ s v d. option_map joined
        (⟦<Sides as Staged<Duty>>⟧.boards (sides_of s) (parts_of v) d) };

    ghost is_shift = { λ s. (s.rest.is_on ≡ false) × (s.window.is_on ≡ false) };

    ghost most = { λ s. Some s.sums.max_duties };

    ghost count_of = { λ _ v. v.sums.duties };

    ghost fits = { λ s. ⟦<Sides as Staged<Duty>>⟧.fits (sides_of s) };

    ghost ready = { λ s n v. ⟦<Sides as Staged<Duty>>⟧.ready (sides_of s) n (parts_of v) };

    ghost arrived = { λ s n v. ⟦<Sides as Staged<Duty>>⟧.arrived (sides_of s) n (parts_of v) };

    ghost can_idle = { λ s. ⟦<Sides as Staged<Duty>>⟧.can_idle (sides_of s) };

    ghost can_wait = { λ s v. ⟦<Sides as Staged<Duty>>⟧.can_wait (sides_of s) (parts_of v) };

    ghost can_board = { λ s v. ⟦<Sides as Staged<Duty>>⟧.can_board (sides_of s) (parts_of v) };

    ghost staged = { λ s. joined_staged _ _ _ _ _ _ _ _ (both_staged _ _ _ _ _ _ _ _ _ _ _ _ _ _
        (vector_staged s.sums) (both_staged _ _ _ _ _ _ _ _ _ _ _ _ _ _
        (rest_staged s.rest.is_on) (recent_staged s.window.is_on s.window.cap))) };

    ghost shifting = { λ s h. joined_shifts _ _ _ _ (both_shifts _ _ _ _ _ _ _ _
        (vector_shifts s.sums) (both_shifts _ _ _ _ _ _ _ _
        (rest_shifts s.rest.is_on h.0) (recent_shifts s.window.is_on s.window.cap h.1))) };

    ghost counting = { λ s m e. joined_counting _ _ _ _ _
        (⟦<Past as Staged<Duty>>⟧.idle_of (past_of s)) (⟦<Past as Staged<Duty>>⟧.waited (past_of s))
        (⟦<Past as Staged<Duty>>⟧.boards (past_of s)) (vector_counting s.sums m e) };

    ghost bounds = { λ s. joined_bounds _ _ _ _ _ _ _ _ _ _ _ _ _ _ _ _
        (both_bounds _ _ _ _ _ _ _ _ _ _ _ _ _ _ _ _ _ _ _ _ _ _ _ _ _ _ _
        (vector_bounds s.sums)
        (both_bounds _ _ _ _ _ _ _ _ _ _ _ _ _ _ _ _ _ _ _ _ _ _ _ _ _ _ _
        (rest_bounds s.rest.is_on) (recent_bounds s.window.is_on s.window.cap))) };

    #[inline]
    fn idle(&self, departure: &Departure) -> LongValue {
        LongValue {
            sums: self.sums.idle(departure),
            rest_end: self.rest.idle(departure),
            recent: self.window.idle(departure),
        }
    }

    #[inline]
    fn wait(&self, value: &LongValue, arrival: &Arrival, departure: &Departure) -> LongValue {
        LongValue {
            sums: self.sums.wait(&value.sums, arrival, departure),
            rest_end: self.rest.wait(&value.rest_end, arrival, departure),
            recent: self.window.wait(&value.recent, arrival, departure),
        }
    }

    #[inline]
    fn board(&self, value: &LongValue, duty: &Duty) -> Option<LongValue> {
        let sums = self.sums.board(&value.sums, duty)?;
        let rest_end = self.rest.board(&value.rest_end, duty)?;
        let recent = self.window.board(&value.recent, duty)?;
        Some(LongValue {
            sums,
            rest_end,
            recent,
        })
    }
}

impl Forgets<Duty> for LongResource {
    ghost same_sums = { λ a b. is_same is_at_most a.sums b.sums };

    ghost forgets = { λ s. joined_forgetful _ _ _ _ (both_forgetful _ _ _ _ _ _ _ _
        (shifts_forgetful _ _ _ _ _ _ _ _ _ named_order (vector_staged s.sums)
        (vector_shifts s.sums)) (both_forgetful _ _ _ _ _ _ _ _
        (staged_forgetful _ _ _ _ _ _ _ _ (rest_staged s.rest.is_on))
        (staged_forgetful _ _ _ _ _ _ _ _ (recent_staged s.window.is_on s.window.cap)))) };

    /// The seven sums alone: the other two parts may be forgotten.
    #[inline]
    fn has_same_sums(&self, a: &LongValue, b: &LongValue) -> bool {
        self.sums.at_most(&a.sums, &b.sums) && self.sums.at_most(&b.sums, &a.sums)
    }
}
