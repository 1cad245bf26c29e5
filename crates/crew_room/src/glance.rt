//! Marks: what values can be told apart by at a glance.
ghost use Rattle.std.specs.Prelude.{◌≡◌, ℤ, List, true};
ghost use Rattle.crew_pool.specs.Marks.{are_at_most};

use crew_resource::Resource;

/// A resource whose values have four marks: of two values, one at most the other, each mark of the
/// one is at most the other's. So a glance at marks tells of most pairs of values that the one isn't
/// at most the other.
///
/// An implementation proves the law, `glances_rise`.
pub trait Glanced: Resource {
    /// A value's marks.
    ghost glance_of: { Self.Value → List ℤ };

    /// A value's marks.
    fn glance(&self, value: &Self::Value) -> [i32; 4]
        ensures { result ≡ glance_of value.now };

    ghost glances_rise: { (a b : Self.Value) → Self.below a b ≡ true
        → are_at_most (glance_of a) (glance_of b) ≡ true };
}

// Whether each of four marks is at most the other's at its place. There is one way through it, so
// that all four are compared at once.
#[inline(always)]
pub(crate) fn are_at_most(a: &[i32; 4], b: &[i32; 4]) -> bool
    ensures { result ≡ are_at_most a.now b.now }
{
    true & (a[0] <= b[0]) & (a[1] <= b[1]) & (a[2] <= b[2]) & (a[3] <= b[3])
}
