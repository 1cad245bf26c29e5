//! Marks: what values can be told apart by at a glance.
//!
//! The four marks of a resource vector are the guarantee and the minutes of duty, of flight and
//! away, each as near as 32 bits come. Of all pairs of labels that are compared they tell as many
//! apart as all seven parts do, but for some two in a thousand; what the other three would tell
//! costs as much memory again, and a fifth more of the time. No bound on prices is needed for that,
//! since a pair that passes is compared as before.
ghost use Rattle.std.specs.Prelude.{◌≡◌, ℤ, List, true};
ghost use Rattle.crew_pool.specs.Marks.{are_at_most};

use crew_resource::Resource;

/// A resource whose values have four marks: where one dominates or equals another, each mark of the
/// one is at most the other's. So a glance at marks tells of most pairs of values that the one doesn't
/// dominate the other.
///
/// An implementation proves the law, `marks_rise`.
pub trait Marked: Resource {
    /// A value's marks.
    ghost marks_of: { Self.Value → List ℤ };

    /// A value's marks.
    fn marks(&self, value: &Self::Value) -> [i32; 4]
        ensures { result ≡ marks_of value.now };

    ghost marks_rise: { (a b : Self.Value) → Self.below a b ≡ true
        → are_at_most (marks_of a) (marks_of b) ≡ true };
}

// Whether each of four marks is at most the other's at its place. There is one way through it, so
// that all four are compared at once.
#[inline(always)]
pub(crate) fn are_at_most(a: &[i32; 4], b: &[i32; 4]) -> bool
    ensures { result ≡ are_at_most a.now b.now }
{
    true & (a[0] <= b[0]) & (a[1] <= b[1]) & (a[2] <= b[2]) & (a[3] <= b[3])
}
