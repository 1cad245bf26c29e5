//! The end of the last long rest as a resource.
//!
//! An instant, the later the lesser, and no count of minutes: labels that stand at one release may
//! have had their last reports at several times, and what each would count from there can't be
//! compared. A wait of 1,800 minutes or more sets it to the report, so there a wait does change a
//! value.
ghost use Rattle.std.specs.Prelude.{◌≡◌, Bool, true, false, pos, None, ℤ, ◌-ℤ◌, Option, Some, cond, not, ◌||◌, int_le, FitsSigned};
ghost use Rattle.std.specs.Int.{w64};
ghost use Rattle.crew_history.specs.crew_pairing.Events.{IsSound, MayFollow, arrival_of, departure_of};
ghost use Rattle.crew_resource.specs.Machinery.SumLaws.{no_grades};
ghost use Rattle.crew_resource.specs.Machinery.SumStages.{no_counting};
ghost use Rattle.crew_forgetful.specs.Machinery.Sums.{staged_forgetful};
ghost use Rattle.crew_long.specs.RestEnds.{rest_end_at_most, idle_rest, wait_rest, board_rest, is_rest, rested_end};
ghost use Rattle.crew_long.specs.Machinery.Folds.{value_by};
ghost use Rattle.crew_long.specs.Machinery.RestOrder.{rest_end_order};
ghost use Rattle.crew_long.specs.Machinery.RestStages.{open_rest, extend_rest, rest_steps, rest_staged, rest_shifts, rest_bounds};

use crate::RestEnd;
use crew_forgetful::Forgets;
use crew_history::crew_pairing::{Arrival, Departure, Duty};
use crew_resource::{Placed, Resource, Staged};
use std::alloc::AllocError;

/// The end of the last rest of 1,800 minutes or more, or the first report; no value where more than
/// 8,280 minutes have passed at a report. Off, one value for all lists.
///
/// It is an instant, and not the minutes since: labels that stand at one release may have had their
/// last reports at several times, and their minutes would be told from there.
#[derive(Clone, Copy, Debug, Drop)]
pub struct SinceRest {
    pub is_on: bool,
}

impl SinceRest {
    /// Whether a wait is a rest of 1,800 minutes or more, which sets the end anew.
    #[inline]
    pub fn is_rest(&self, arrival: &Arrival, departure: &Departure) -> bool
        requires { MayFollow arrival.now departure.now }
        ensures { result ≡ is_rest self.now.is_on arrival.now departure.now }
    {
        self.is_on && departure.report - arrival.release >= 1_800
    }

    /// One end for all before a rest, which sets each of them anew. Off, the end itself.
    #[inline]
    pub fn rested_end(&self, value: &RestEnd) -> RestEnd
        ensures { result ≡ rested_end self.now.is_on value.now }
    {
        if self.is_on {
            RestEnd { minute: 0 }
        } else {
            *value
        }
    }

    #[inline]
    fn rested(&self, value: RestEnd, release: i64, report: i64) -> RestEnd
        requires { FitsSigned w64 (report -ℤ release) }
        ensures { result ≡ cond self.now.is_on
            (record { minute = cond (int_le (pos 1_800) (report -ℤ release)) report value.minute })
            value }
    {
        if self.is_on && report - release >= 1_800 {
            RestEnd { minute: report }
        } else {
            value
        }
    }

    #[inline]
    fn boarded(&self, value: RestEnd, item: &Duty) -> Option<RestEnd>
        ensures { result ≡ board_rest self.now.is_on value item.now }
    {
        if self.is_on && value.minute < i64::from(item.report) - 8_280 {
            None
        } else {
            Some(value)
        }
    }
}

impl Resource for SinceRest {
    type Value = RestEnd;

    type Item = Duty;

    ghost opens = { λ s. open_rest s.is_on };

    ghost extends = { λ s. extend_rest s.is_on };

    ghost below = { rest_end_at_most };

    ghost value_of = { λ s. value_by (open_rest s.is_on) (extend_rest s.is_on) };

    ghost grade_of = { λ _. 0 };

    ghost can_start = { λ _ _. Unit {0} };

    ghost can_extend = { λ _ _ _ _. Unit {0} };

    ghost order = { rest_end_order };

    ghost steps = { λ s. rest_steps s.is_on };

    ghost grading = { no_grades rest_end_at_most };

    #[inline]
    fn start(&self, item: &Duty) -> Result<Option<RestEnd>, AllocError> {
        let empty = <Self as Staged<Duty>>::idle(self, &item.departure());
        Ok(self.boarded(empty, item))
    }

    #[inline]
    fn extend(
        &self,
        value: &RestEnd,
        last: &Duty,
        next: &Duty,
    ) -> Result<Option<RestEnd>, AllocError> {
        let waited = self.rested(*value, i64::from(last.release), i64::from(next.report));
        Ok(self.boarded(waited, next))
    }

    #[inline]
    fn at_most(&self, a: &RestEnd, b: &RestEnd) -> bool {
        b.minute <= a.minute
    }

    #[inline]
    fn copy(&self, value: &RestEnd) -> Result<RestEnd, AllocError> {
        Ok(*value)
    }

    #[inline]
    fn grade(&self, _value: &RestEnd) -> u32 {
        0
    }
}

impl Staged<Duty> for SinceRest {
    ghost idle_of = { λ s. idle_rest s.is_on };

    ghost waited = { λ s. wait_rest s.is_on };

    ghost boards = { λ s. board_rest s.is_on };

    ghost is_shift = { λ s. s.is_on ≡ false };

    ghost most = { λ _. None };

    ghost count_of = { λ _ _. pos 0 };

    ghost fits = { λ _ _. Unit {0} };

    ghost ready = { λ _ _ _. Unit {0} };

    ghost arrived = { λ _ _ _. Unit {0} };

    ghost can_idle = { λ _ _. Unit {0} };

    ghost can_wait = { λ _ _ x g. MayFollow x g };

    ghost can_board = { λ _ _ _. Unit {0} };

    ghost staged = { λ s. rest_staged s.is_on };

    ghost shifting = { λ s. rest_shifts s.is_on };

    ghost counting = { λ s. no_counting _ _ _ _ };

    ghost bounds = { λ s. rest_bounds s.is_on };

    #[inline]
    fn idle(&self, departure: &Departure) -> RestEnd {
        RestEnd {
            minute: if self.is_on { departure.report } else { 0 },
        }
    }

    #[inline]
    fn wait(&self, value: &RestEnd, arrival: &Arrival, departure: &Departure) -> RestEnd {
        self.rested(*value, arrival.release, departure.report)
    }

    #[inline]
    fn board(&self, value: &RestEnd, item: &Duty) -> Option<RestEnd> {
        self.boarded(*value, item)
    }
}

impl Forgets<Duty> for SinceRest {
    ghost same_sums = { λ _ _. true };

    ghost forgets = { λ s. staged_forgetful _ _ _ _ _ _ _ _ (rest_staged s.is_on) };

    /// Nothing of it is a sum.
    #[inline]
    fn has_same_sums(&self, _a: &RestEnd, _b: &RestEnd) -> bool {
        true
    }
}
