//! Sums of an amount along a list.
//!
//! An amount is told by its stages alone: what stands before any item, what a wait adds, what an
//! item adds. What a first item and a next one come to are sums of these.
ghost use Rattle.std.specs.Prelude.{◌≡◌, ℕ, ℤ, ◌+ℤ◌, int_le, Option, None, FitsSigned, List};
ghost use Rattle.std.specs.Int.{w64};
ghost use Rattle.crew_resource.specs.Machinery.Sum.{capped, capped_sum, first_adds, next_adds};
ghost use Rattle.crew_resource.specs.Machinery.SumLaws.{sum_order, sum_steps, no_grades};
ghost use Rattle.crew_resource.specs.Stages.{AmountLaws, shifted, boarded};
ghost use Rattle.crew_resource.specs.Machinery.SumStages.{sum_staged, sum_shifts, no_counting, sum_fits, sum_arrived, sum_ready, sum_bounds};

use crate::{Placed, Resource, Staged};
use std::alloc::AllocError;

/// A number that each item of a list adds in stages, with a cap on the sum, if there is one: before
/// the first item, by a wait, and by an item of its own.
pub trait Amount {
    type Item: Placed;

    ghost idle_of: { Self → Self.Item.Departure → ℤ };

    ghost wait_of: { Self → Self.Item.Arrival → Self.Item.Departure → ℤ };

    ghost own_of: { Self → Self.Item → ℤ };

    ghost cap_of: { Self → Option ℤ };

    /// No stage adds more than this, or takes more away.
    ghost share: { Self → ℕ };

    /// What stands before the first item, which leaves at the departure.
    fn idle(&self, departure: &<Self::Item as Placed>::Departure) -> i64
        requires { Self.Item.may_begin departure.now }
        ensures { result ≡ idle_of self.now departure.now };

    /// What a wait adds.
    fn wait(
        &self,
        arrival: &<Self::Item as Placed>::Arrival,
        departure: &<Self::Item as Placed>::Departure,
    ) -> i64
        requires { Self.Item.may_follow arrival.now departure.now }
        ensures { result ≡ wait_of self.now arrival.now departure.now };

    /// What an item adds of its own.
    fn own(&self, item: &Self::Item) -> i64
        requires { Self.Item.is_sound item.now }
        ensures { result ≡ own_of self.now item.now };

    /// The greatest sum that a list with a value has; none where sums are free.
    fn cap(&self) -> Option<i64>
        ensures { result ≡ cap_of self.now };

    ghost shares: { (a : Self) → AmountLaws Self.Item.is_sound Self.Item.may_begin
        Self.Item.may_follow (idle_of a) (wait_of a) (own_of a) (share a) };
}

/// The sum of an amount along a list; no value where a beginning of the list passes the cap.
#[derive(Clone, Copy, Drop)]
pub struct Sum<A> {
    pub amount: A,
}

/// The total, where the cap allows it.
#[inline]
pub(crate) fn within(cap: Option<i64>, total: i64) -> Option<i64>
    ensures { result ≡ capped cap total }
{
    match cap {
        None => Some(total),
        Some(cap) => { if total <= cap { Some(total) } else { None } }
    }
}

impl<A: Amount> Resource for Sum<A> {
    type Value = i64;

    type Item = A::Item;

    ghost opens = { λ s item. capped (A.cap_of s.amount)
        (first_adds A.Item.leaves (A.idle_of s.amount) (A.own_of s.amount) item) };

    ghost extends = { λ s value last next. capped (A.cap_of s.amount) (value +ℤ next_adds
        A.Item.arrives A.Item.leaves (A.wait_of s.amount) (A.own_of s.amount) last next) };

    ghost below = { int_le };

    ghost value_of = { λ s. capped_sum (first_adds A.Item.leaves (A.idle_of s.amount)
        (A.own_of s.amount)) (next_adds A.Item.arrives A.Item.leaves (A.wait_of s.amount)
        (A.own_of s.amount)) (A.cap_of s.amount) };

    ghost grade_of = { λ _. 0 };

    ghost can_start = { λ s item. A.Item.may_begin (A.Item.leaves item)
        × (A.Item.is_sound item × FitsSigned w64 (A.idle_of s.amount (A.Item.leaves item)
        +ℤ A.own_of s.amount item)) };

    ghost can_extend = { λ s value last next. (A.Item.may_follow (A.Item.arrives last)
        (A.Item.leaves next) × FitsSigned w64 (value +ℤ A.wait_of s.amount (A.Item.arrives last)
        (A.Item.leaves next))) × (A.Item.is_sound next × FitsSigned w64 ((value +ℤ A.wait_of
        s.amount (A.Item.arrives last) (A.Item.leaves next)) +ℤ A.own_of s.amount next)) };

    ghost order = { sum_order };

    ghost steps = { λ s. sum_steps (first_adds A.Item.leaves (A.idle_of s.amount)
        (A.own_of s.amount)) (next_adds A.Item.arrives A.Item.leaves (A.wait_of s.amount)
        (A.own_of s.amount)) (A.cap_of s.amount) };

    ghost grading = { no_grades int_le };

    #[inline]
    fn start(&self, item: &A::Item) -> Result<Option<i64>, AllocError> {
        let empty = self.amount.idle(&item.departure());
        Ok(self.board(&empty, item))
    }

    #[inline]
    fn extend(
        &self,
        value: &i64,
        last: &A::Item,
        next: &A::Item,
    ) -> Result<Option<i64>, AllocError> {
        let waited = self.wait(value, &last.arrival(), &next.departure());
        Ok(self.board(&waited, next))
    }

    #[inline]
    fn at_most(&self, a: &i64, b: &i64) -> bool {
        *a <= *b
    }

    #[inline]
    fn copy(&self, value: &i64) -> Result<i64, AllocError> {
        Ok(*value)
    }

    #[inline]
    fn grade(&self, _value: &i64) -> u32 {
        0
    }
}

impl<P: Placed, A: Amount<Item = P>> Staged<P> for Sum<A> {
    ghost idle_of = { λ s g. A.idle_of s.amount g };

    ghost waited = { λ s. shifted (A.wait_of s.amount) };

    ghost boards = { λ s. boarded (A.cap_of s.amount) (A.own_of s.amount) };

    ghost is_shift = { λ _. Unit {0} };

    ghost most = { λ _. None };

    ghost count_of = { λ _ value. value };

    ghost fits = { λ s. sum_fits (A.share s.amount) };

    ghost ready = { λ s. sum_ready (A.share s.amount) };

    ghost arrived = { λ s. sum_arrived (A.share s.amount) };

    ghost can_idle = { λ _ g. P.may_begin g };

    ghost can_wait = { λ s value x g. P.may_follow x g
        × FitsSigned w64 (value +ℤ A.wait_of s.amount x g) };

    ghost can_board = { λ s value i. P.is_sound i
        × FitsSigned w64 (value +ℤ A.own_of s.amount i) };

    ghost staged = { λ s. sum_staged (A.cap_of s.amount) P.arrives P.leaves (A.idle_of s.amount)
        (A.wait_of s.amount) (A.own_of s.amount) };

    ghost shifting = { λ s _. sum_shifts (A.wait_of s.amount) (A.own_of s.amount)
        (A.cap_of s.amount) };

    ghost counting = { λ s. no_counting _ _ _ _ };

    ghost bounds = { λ s. sum_bounds P.is_sound P.may_begin P.may_follow P.arrives P.leaves
        (A.cap_of s.amount) (A.idle_of s.amount) (A.wait_of s.amount) (A.own_of s.amount)
        (A.share s.amount) (A.shares s.amount) };

    #[inline]
    fn idle(&self, departure: &P::Departure) -> i64 {
        self.amount.idle(departure)
    }

    #[inline]
    fn wait(&self, value: &i64, arrival: &P::Arrival, departure: &P::Departure) -> i64 {
        *value + self.amount.wait(arrival, departure)
    }

    #[inline]
    fn board(&self, value: &i64, item: &P) -> Option<i64> {
        let aboard = *value + self.amount.own(item);
        within(self.amount.cap(), aboard)
    }
}
