//! The flight duty periods of the last 168 hours as a resource.
//!
//! Beside the periods the number of duties: of two histories the one with no more minutes may have
//! more periods, so without the number the lesser could be full where the greater has room.
ghost use Rattle.std.specs.Prelude.{◌≡◌, Bool, true, false, pos, None, ℤ, Option, Some};
ghost use Rattle.crew_history.specs.crew_pairing.Events.{IsSound};
ghost use Rattle.crew_resource.specs.Machinery.SumLaws.{no_grades};
ghost use Rattle.crew_resource.specs.Machinery.SumStages.{no_counting};
ghost use Rattle.crew_forgetful.specs.Machinery.Sums.{staged_forgetful};
ghost use Rattle.crew_long.specs.Recents.{recent_at_most, is_cut};
ghost use Rattle.crew_long.specs.Machinery.Folds.{value_by};
ghost use Rattle.crew_long.specs.Machinery.RecentStages.{idle_recent, wait_recent, board_recent, open_recent, extend_recent, recent_order, recent_steps, recent_staged, recent_shifts, recent_bounds};

use crate::Recent;
use crew_forgetful::Forgets;
use crew_history::History;
use crew_history::crew_pairing::{Arrival, Departure, Duty};
use crew_resource::{Placed, Resource, Staged};
use std::alloc::AllocError;

/// The flight duty periods of the 10,080 minutes that end with the last arrival; no value where at
/// an arrival they have more minutes than the cap, or the list has more than twelve duties. Off,
/// one value for all lists.
#[derive(Clone, Copy, Debug, Drop)]
pub struct Window {
    pub is_on: bool,
    pub cap: i64,
}

/// No duties.
#[inline]
fn empty() -> Recent
    ensures { result ≡ idle_recent }
{
    Recent {
        history: History::new(),
        duties: 0,
    }
}

impl Window {
    /// Whether a period of a value starts before the 10,080 minutes that end with a duty's flight
    /// duty period, so that the duty's boarding cuts it.
    #[inline]
    pub fn is_cutting(&self, value: &Recent, item: &Duty) -> bool
        ensures { result ≡ is_cut self.now.is_on value.now item.now }
    {
        let arrival = i64::from(item.report) + i64::from(item.fdp);
        self.is_on && value.history.begins_before(arrival - 10_080)
    }

    #[inline]
    fn taken(&self, value: &Recent, item: &Duty) -> Option<Recent>
        requires { IsSound item.now }
        ensures { result ≡ board_recent self.now.is_on self.now.cap value.now item.now }
    {
        if self.is_on {
            self.longer(value, item)
        } else {
            Some(*value)
        }
    }

    #[inline]
    fn longer(&self, value: &Recent, item: &Duty) -> Option<Recent>
        requires { IsSound item.now }
        ensures { result ≡ board_recent true self.now.cap value.now item.now }
    {
        if value.duties < 12 && item.report >= 0 && item.report <= 2_000_000_000 {
            let arrival = item.report + item.fdp;
            let history = value.history.board(item.report, arrival, 10_080, self.cap)?;
            let duties = value.duties + 1;
            Some(Recent { history, duties })
        } else {
            None
        }
    }
}

impl Resource for Window {
    type Value = Recent;

    type Item = Duty;

    ghost opens = { λ s. open_recent s.is_on s.cap };

    ghost extends = { λ s. extend_recent s.is_on s.cap };

    ghost below = { recent_at_most };

    ghost value_of = { λ s. value_by (open_recent s.is_on s.cap) (extend_recent s.is_on s.cap) };

    ghost grade_of = { λ _. 0 };

    ghost can_start = { λ _ d. IsSound d };

    ghost can_extend = { λ _ _ _ next. IsSound next };

    ghost order = { recent_order };

    ghost steps = { λ s. recent_steps s.is_on s.cap };

    ghost grading = { no_grades recent_at_most };

    #[inline]
    fn start(&self, item: &Duty) -> Result<Option<Recent>, AllocError> {
        Ok(self.taken(&empty(), item))
    }

    #[inline]
    fn extend(
        &self,
        value: &Recent,
        _last: &Duty,
        next: &Duty,
    ) -> Result<Option<Recent>, AllocError> {
        Ok(self.taken(value, next))
    }

    #[inline]
    fn at_most(&self, a: &Recent, b: &Recent) -> bool {
        a.duties <= b.duties && a.history.at_most(&b.history)
    }

    #[inline]
    fn copy(&self, value: &Recent) -> Result<Recent, AllocError> {
        Ok(*value)
    }

    #[inline]
    fn grade(&self, _value: &Recent) -> u32 {
        0
    }
}

impl Staged<Duty> for Window {
    ghost idle_of = { λ _ _. idle_recent };

    ghost waited = { λ _. wait_recent };

    ghost boards = { λ s. board_recent s.is_on s.cap };

    ghost is_shift = { λ s. s.is_on ≡ false };

    ghost most = { λ _. None };

    ghost count_of = { λ _ _. pos 0 };

    ghost fits = { λ _ _. Unit {0} };

    ghost ready = { λ _ _ _. Unit {0} };

    ghost arrived = { λ _ _ _. Unit {0} };

    ghost can_idle = { λ _ _. Unit {0} };

    ghost can_wait = { λ _ _ _ _. Unit {0} };

    ghost can_board = { λ _ _ d. IsSound d };

    ghost staged = { λ s. recent_staged s.is_on s.cap };

    ghost shifting = { λ s. recent_shifts s.is_on s.cap };

    ghost counting = { λ s. no_counting _ _ _ _ };

    ghost bounds = { λ s. recent_bounds s.is_on s.cap };

    #[inline]
    fn idle(&self, _departure: &Departure) -> Recent {
        empty()
    }

    /// Periods stand in absolute minutes.
    #[inline]
    fn wait(&self, value: &Recent, _arrival: &Arrival, _departure: &Departure) -> Recent {
        *value
    }

    #[inline]
    fn board(&self, value: &Recent, item: &Duty) -> Option<Recent> {
        self.taken(value, item)
    }
}

impl Forgets<Duty> for Window {
    ghost same_sums = { λ _ _. true };

    ghost forgets = { λ s. staged_forgetful _ _ _ _ _ _ _ _ (recent_staged s.is_on s.cap) };

    /// Nothing of it is a sum.
    #[inline]
    fn has_same_sums(&self, _a: &Recent, _b: &Recent) -> bool {
        true
    }
}
