//! The number of items of a list.
ghost use Rattle.std.specs.Prelude.{◌≡◌, ℕ, ℤ, pos, ◌+ℤ◌, int_le, Some, FitsSigned, List};
ghost use Rattle.std.specs.Int.{w64};
ghost use Rattle.crew_resource.specs.Machinery.Sum.{capped, capped_sum};
ghost use Rattle.crew_resource.specs.Machinery.SumLaws.{sum_order, sum_steps};
ghost use Rattle.crew_resource.specs.Stages.{shifted, boarded};
ghost use Rattle.crew_resource.specs.Machinery.SumStages.{sum_fits, sum_arrived, sum_ready, sum_shifts};
ghost use Rattle.crew_resource.specs.Machinery.Count.{count_grade, count_grades, count_staged, count_counting, count_bounds};

use crate::sum::within;
use crate::{Placed, Resource, Staged};
use std::alloc::AllocError;
use std::marker::PhantomData;

/// The number of items of a list; no value where there are more than `most`. Its grade is the
/// number.
#[derive(Clone, Copy, Drop)]
pub struct Count<I> {
    pub most: u32,
    pub items: PhantomData<I>,
}

impl<I> Count<I> {
    /// Counts up to `most`.
    #[inline]
    pub fn new(most: u32) -> Self
        ensures { result.most ≡ most }
    {
        Count {
            most,
            items: PhantomData,
        }
    }
}

impl<I> Resource for Count<I> {
    type Value = i64;

    type Item = I;

    ghost opens = { λ s _. capped (Some (pos s.most)) (pos 1) };

    ghost extends = { λ s value _ _. capped (Some (pos s.most)) (value +ℤ pos 1) };

    ghost below = { int_le };

    ghost value_of = { λ s. capped_sum (λ _. pos 1) (λ _ _. pos 1) (Some (pos s.most)) };

    ghost grade_of = { count_grade };

    ghost can_start = { λ _ _. Unit {0} };

    ghost can_extend = { λ _ value _ _. FitsSigned w64 (value +ℤ pos 1) };

    ghost order = { sum_order };

    ghost steps = { λ s. sum_steps (λ _. pos 1) (λ _ _. pos 1) (Some (pos s.most)) };

    ghost grading = { count_grades };

    #[inline]
    fn start(&self, _item: &I) -> Result<Option<i64>, AllocError> {
        Ok(within(Some(i64::from(self.most)), 1))
    }

    #[inline]
    fn extend(&self, value: &i64, _last: &I, _next: &I) -> Result<Option<i64>, AllocError> {
        let longer = *value + 1;
        Ok(within(Some(i64::from(self.most)), longer))
    }

    #[inline]
    fn at_most(&self, a: &i64, b: &i64) -> bool {
        *a <= *b
    }

    #[inline]
    fn copy(&self, value: &i64) -> Result<i64, AllocError> {
        Ok(*value)
    }

    /// The number, or the nearest that a `u32` holds.
    #[inline]
    fn grade(&self, value: &i64) -> u32 {
        if *value < 0 {
            0
        } else if *value > 0xffff_ffff {
            0xffff_ffff
        } else {
            *value as u32
        }
    }
}

impl<P: Placed> Staged<P> for Count<P> {
    ghost idle_of = { λ _ _. pos 0 };

    ghost waited = { λ _. shifted (λ _ _. pos 0) };

    ghost boards = { λ s. boarded (Some (pos s.most)) (λ _. pos 1) };

    ghost is_shift = { λ _. Unit {0} };

    ghost most = { λ s. Some s.most };

    ghost count_of = { λ _ value. value };

    ghost fits = { λ _. sum_fits 1 };

    ghost ready = { λ _. sum_ready 1 };

    ghost arrived = { λ _. sum_arrived 1 };

    ghost can_idle = { λ _ g. P.may_begin g };

    ghost can_wait = { λ _ _ x g. P.may_follow x g };

    ghost can_board = { λ _ value i. P.is_sound i × FitsSigned w64 (value +ℤ pos 1) };

    ghost staged = { λ s. count_staged s.most P.arrives P.leaves };

    ghost shifting = { λ s _. sum_shifts (λ _ _. pos 0) (λ _. pos 1) (Some (pos s.most)) };

    ghost counting = { λ s. count_counting s.most };

    ghost bounds = { λ s. count_bounds s.most P.is_sound P.may_begin P.may_follow P.arrives
        P.leaves };

    #[inline]
    fn idle(&self, _departure: &P::Departure) -> i64 {
        0
    }

    #[inline]
    fn wait(&self, value: &i64, _arrival: &P::Arrival, _departure: &P::Departure) -> i64 {
        *value
    }

    #[inline]
    fn board(&self, value: &i64, _item: &P) -> Option<i64> {
        let aboard = *value + 1;
        within(Some(i64::from(self.most)), aboard)
    }
}
