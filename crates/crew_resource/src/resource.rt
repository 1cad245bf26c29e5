//! What a resource is, and a cost over it.
ghost use Rattle.std.specs.Prelude.{◌≡◌, ℕ, ℤ, Bool, List, Option, IfOk};
ghost use Rattle.crew_resource.specs.Resource.{OrderLaws, StepLaws, RespectsOrder, GradesOrder};

use std::alloc::AllocError;

/// A resource: what a list of items has, extended item by item.
///
/// An implementation proves the laws: `order` (weak dominance is an order, and the listing tells values
/// apart), `steps` (extending keeps the order, and makes the value of the longer list) and
/// `grading`.
pub trait Resource {
    /// `Ord` is the order in which values are listed.
    type Value: Ord + Drop;

    type Item;

    /// The value of a list of one item, or none.
    ghost opens: { Self → Self.Item → Option Self.Value };

    /// The value after one more item: of the value so far, the last item and the next.
    ghost extends: { Self → Self.Value → Self.Item → Self.Item → Option Self.Value };

    /// The first value is at most the second: it dominates or equals it.
    ghost below: { Self.Value → Self.Value → Bool };

    /// The value of a whole list, or none.
    ghost value_of: { Self → List Self.Item → Option Self.Value };

    /// A number that does not fall where values rise.
    ghost grade_of: { Self.Value → ℕ };

    /// The sums of a start, or of an extension, fit.
    ghost can_start: { Self → Self.Item → Type 0 };

    ghost can_extend: { Self → Self.Value → Self.Item → Self.Item → Type 0 };

    /// The value of the list of this item alone; none where it has no value.
    fn start(&self, item: &Self::Item) -> Result<Option<Self::Value>, AllocError>
        requires { can_start self.now item.now }
        ensures { IfOk result (λ value. value ≡ opens self.now item.now) };

    /// Extends a list that has `value` and ends with `last` by `next`: the value then; none where
    /// it has no value.
    fn extend(
        &self,
        value: &Self::Value,
        last: &Self::Item,
        next: &Self::Item,
    ) -> Result<Option<Self::Value>, AllocError>
        requires { can_extend self.now value.now last.now next.now }
        ensures { IfOk result (λ longer. longer ≡ extends self.now value.now last.now next.now) };

    /// Whether `a` is at most `b`: dominates or equals it.
    fn at_most(&self, a: &Self::Value, b: &Self::Value) -> bool
        ensures { result ≡ below a.now b.now };

    /// An equal value.
    fn copy(&self, value: &Self::Value) -> Result<Self::Value, AllocError>
        ensures { IfOk result (λ copied. copied ≡ value.now) };

    /// A number that is no greater at a lesser value, so that a search for better values may end
    /// early.
    fn grade(&self, value: &Self::Value) -> u32
        ensures { result ≡ grade_of value.now };

    ghost order: { OrderLaws Self.Value.cmp below };

    ghost steps: { (r : Self) → StepLaws (opens r) (extends r) below (value_of r) };

    ghost grading: { GradesOrder below grade_of };
}

/// A cost of the values of a resource.
pub trait Cost<R: Resource> {
    ghost cost_of: { Self → R.Value → ℤ };

    /// The cost of a value.
    fn cost(&self, value: &R::Value) -> i64
        ensures { result ≡ cost_of self.now value.now };

    /// A lesser value costs no more.
    ghost respects: { (c : Self) → RespectsOrder R.below (cost_of c) };
}
