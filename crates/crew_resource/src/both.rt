//! Two resources side by side.
ghost use Rattle.std.specs.Prelude.{ℕ, ◌&&◌, max, List};
ghost use Rattle.crew_resource.specs.Machinery.Both.{both, both_extend, both_wait, both_board, either_side, side_of};
ghost use Rattle.crew_resource.specs.Machinery.BothLaws.{both_order, both_steps, both_grades};
ghost use Rattle.crew_resource.specs.Machinery.BothStages.{both_staged, both_shifts, both_counting, both_bounds};

use crate::{Placed, Resource, Staged};
use std::alloc::AllocError;

/// Two resources side by side: the pair of both values, at most part by part, and none where either
/// has none. Values are listed by the first part, then by the second.
#[derive(Clone, Copy, Drop)]
pub struct Both<A, B> {
    pub first: A,
    pub second: B,
}

impl<A: Resource, B: Resource<Item = A::Item>> Resource for Both<A, B> {
    type Value = (A::Value, B::Value);

    type Item = A::Item;

    ghost opens = { λ s item. both (A.opens s.first item) (B.opens s.second item) };

    ghost extends = { λ s. both_extend (A.extends s.first) (B.extends s.second) };

    ghost below = { λ a b. A.below a.0 b.0 && B.below a.1 b.1 };

    ghost value_of = { λ s items. both (A.value_of s.first items) (B.value_of s.second items) };

    ghost grade_of = { λ v. max (A.grade_of v.0) (B.grade_of v.1) };

    ghost can_start = { λ s item. A.can_start s.first item × B.can_start s.second item };

    ghost can_extend = { λ s value last next. A.can_extend s.first value.0 last next
        × B.can_extend s.second value.1 last next };

    ghost order = { both_order _ _ _ _ A.order B.order };

    ghost steps = { λ s. both_steps _ _ _ _ _ _ _ _ (A.steps s.first) (B.steps s.second) };

    ghost grading = { both_grades _ _ _ _ A.grading B.grading };

    #[inline]
    fn start(&self, item: &A::Item) -> Result<Option<(A::Value, B::Value)>, AllocError> {
        let Some(first) = self.first.start(item)? else {
            return Ok(None);
        };
        let Some(second) = self.second.start(item)? else {
            return Ok(None);
        };
        Ok(Some((first, second)))
    }

    #[inline]
    fn extend(
        &self,
        value: &(A::Value, B::Value),
        last: &A::Item,
        next: &A::Item,
    ) -> Result<Option<(A::Value, B::Value)>, AllocError> {
        let Some(first) = self.first.extend(&value.0, last, next)? else {
            return Ok(None);
        };
        let Some(second) = self.second.extend(&value.1, last, next)? else {
            return Ok(None);
        };
        Ok(Some((first, second)))
    }

    #[inline]
    fn at_most(&self, a: &(A::Value, B::Value), b: &(A::Value, B::Value)) -> bool {
        self.first.at_most(&a.0, &b.0) && self.second.at_most(&a.1, &b.1)
    }

    #[inline]
    fn copy(&self, value: &(A::Value, B::Value)) -> Result<(A::Value, B::Value), AllocError> {
        let first = self.first.copy(&value.0)?;
        let second = self.second.copy(&value.1)?;
        Ok((first, second))
    }

    #[inline]
    fn grade(&self, value: &(A::Value, B::Value)) -> u32 {
        self.first.grade(&value.0).max(self.second.grade(&value.1))
    }
}

impl<P: Placed, A: Staged<P>, B: Staged<P>> Staged<P> for Both<A, B> {
    ghost idle_of = { λ s g. (A.idle_of s.first g, B.idle_of s.second g) };

    ghost waited = { λ s. both_wait (A.waited s.first) (B.waited s.second) };

    ghost boards = { λ s. both_board (A.boards s.first) (B.boards s.second) };

    ghost is_shift = { λ s. A.is_shift s.first × B.is_shift s.second };

    ghost most = { λ s. either_side (A.most s.first) (B.most s.second) };

    ghost count_of = { λ s v. side_of (A.most s.first) (A.count_of s.first v.0)
        (B.count_of s.second v.1) };

    ghost fits = { λ s n. A.fits s.first n × B.fits s.second n };

    ghost ready = { λ s n v. A.ready s.first n v.0 × B.ready s.second n v.1 };

    ghost arrived = { λ s n v. A.arrived s.first n v.0 × B.arrived s.second n v.1 };

    ghost can_idle = { λ s g. A.can_idle s.first g × B.can_idle s.second g };

    ghost can_wait = { λ s value x g. A.can_wait s.first value.0 x g
        × B.can_wait s.second value.1 x g };

    ghost can_board = { λ s value i. A.can_board s.first value.0 i
        × B.can_board s.second value.1 i };

    ghost staged = { λ s. both_staged _ _ _ _ _ _ _ _ _ _ _ _ _ _ (A.staged s.first)
        (B.staged s.second) };

    ghost shifting = { λ s h. both_shifts _ _ _ _ _ _ _ _ (A.shifting s.first h.0)
        (B.shifting s.second h.1) };

    ghost counting = { λ s. both_counting _ _ _ _ _ _ _ _ _ _ (A.counting s.first)
        (B.counting s.second) };

    ghost bounds = { λ s. both_bounds _ _ _ _ _ _ _ _ _ _ _ _ _ _ _ _ _ _ _ _ _ _ _ _ _ _ _
        (A.bounds s.first) (B.bounds s.second) };

    #[inline]
    fn idle(&self, departure: &P::Departure) -> (A::Value, B::Value) {
        (self.first.idle(departure), self.second.idle(departure))
    }

    #[inline]
    fn wait(
        &self,
        value: &(A::Value, B::Value),
        arrival: &P::Arrival,
        departure: &P::Departure,
    ) -> (A::Value, B::Value) {
        let first = self.first.wait(&value.0, arrival, departure);
        let second = self.second.wait(&value.1, arrival, departure);
        (first, second)
    }

    #[inline]
    fn board(&self, value: &(A::Value, B::Value), item: &P) -> Option<(A::Value, B::Value)> {
        let first = self.first.board(&value.0, item)?;
        let second = self.second.board(&value.1, item)?;
        Some((first, second))
    }
}
