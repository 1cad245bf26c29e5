//! Resources with a part that they may forget.
ghost use Rattle.std.specs.Prelude.{◌≡◌, Bool, true, ◌&&◌, ◌||◌, not, pos, int_le, Some};
ghost use Rattle.std.specs.declared.cmp.Ordering.{Ordering};
ghost use Rattle.crew_resource.specs.Machinery.Count.{count_staged};
ghost use Rattle.crew_resource.specs.Machinery.SumLaws.{sum_order};
ghost use Rattle.crew_resource.specs.Machinery.SumStages.{sum_staged, sum_shifts};
ghost use Rattle.crew_forgetful.specs.Forgetful.{Forgetful};
ghost use Rattle.crew_forgetful.specs.Machinery.Sums.{is_same, shifts_forgetful, both_forgetful};

use crew_resource::{Amount, Both, Count, Placed, Staged, Sum};

/// A resource in stages that tells which part of its values is never forgotten.
///
/// An implementation proves the law: of two values, one at most the other, that have different sums
/// the stages make such values again.
pub trait Forgets<P: Placed>: Staged<P> {
    /// Two values have the same sums.
    ghost same_sums: { Self.Value → Self.Value → Bool };

    /// Whether two values have the same sums.
    fn has_same_sums(&self, a: &Self::Value, b: &Self::Value) -> bool
        ensures { result ≡ same_sums a.now b.now };

    ghost forgets: { (r : Self) → Forgetful Self.below same_sums (Self.waited r) (Self.boards r) };
}

// Whether two numbers are the same.
#[inline]
fn is_same_number(a: i64, b: i64) -> bool
    ensures { result ≡ is_same int_le a b }
{
    a <= b && b <= a
}

impl<P: Placed, A: Amount<Item = P>> Forgets<P> for Sum<A> {
    ghost same_sums = { is_same int_le };

    ghost forgets = { λ s. shifts_forgetful _ _ _ _ _ _ _ _ _ sum_order
        (sum_staged (A.cap_of s.amount) P.arrives P.leaves (A.idle_of s.amount)
        (A.wait_of s.amount) (A.own_of s.amount))
        (sum_shifts (A.wait_of s.amount) (A.own_of s.amount) (A.cap_of s.amount)) };

    #[inline]
    fn has_same_sums(&self, a: &i64, b: &i64) -> bool {
        is_same_number(*a, *b)
    }
}

impl<P: Placed> Forgets<P> for Count<P> {
    ghost same_sums = { is_same int_le };

    ghost forgets = { λ s. shifts_forgetful _ _ _ _ _ _ _ _ _ sum_order
        (count_staged s.most P.arrives P.leaves)
        (sum_shifts (λ _ _. pos 0) (λ _. pos 1) (Some (pos s.most))) };

    #[inline]
    fn has_same_sums(&self, number: &i64, other: &i64) -> bool {
        is_same_number(*number, *other)
    }
}

impl<P: Placed, A: Forgets<P>, B: Forgets<P>> Forgets<P> for Both<A, B> {
    ghost same_sums = { λ x y. A.same_sums x.0 y.0 && B.same_sums x.1 y.1 };

    ghost forgets = { λ s. both_forgetful _ _ _ _ _ _ _ _ (A.forgets s.first)
        (B.forgets s.second) };

    #[inline]
    fn has_same_sums(&self, a: &(A::Value, B::Value), b: &(A::Value, B::Value)) -> bool {
        self.first.has_same_sums(&a.0, &b.0) && self.second.has_same_sums(&a.1, &b.1)
    }
}

/// Whether a label may stand for another at an event, where `walk_at_most` says whether its walk is
/// at most the other's.
pub fn stands_for<P: Placed, R: Forgets<P>>(
    resource: &R,
    a: &R::Value,
    b: &R::Value,
    walk_at_most: bool,
) -> bool
    ensures { result ≡ (R.below a.now b.now && (not (R.same_sums a.now b.now) || walk_at_most)) }
{
    resource.at_most(a, b) && (!resource.has_same_sums(a, b) || walk_at_most)
}
