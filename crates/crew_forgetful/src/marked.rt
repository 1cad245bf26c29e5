//! Resources whose values have marks.
ghost use Rattle.std.specs.Prelude.{◌≡◌, true, ℤ, List};
ghost use Rattle.crew_forgetful.specs.Marks.{AreAtMost};

use crate::Forgets;
use crew_resource::Placed;

/// A resource whose values have sixteen marks: of two values, one at most the other, each mark of
/// the one is at most the other's. So a glance at marks tells of most pairs of values that the one
/// isn't at most the other.
///
/// An implementation proves the law, `marks_rise`, for marks told from any moment.
pub trait Marked<P: Placed>: Forgets<P> {
    /// A value's marks, told from a moment.
    ghost marks_of: { Self → Self.Value → ℤ → List ℤ };

    /// A value's marks, told from a moment, in minutes since 1970-01-01T00:00 UTC.
    fn marks(&self, value: &Self::Value, moment: i32) -> [i32; 16]
        ensures { result ≡ marks_of self.now value.now moment };

    /// A moment from which marks tell values like this one apart. They rise whatever it is.
    fn moment(&self, value: &Self::Value) -> i32;

    ghost marks_rise: { (r : Self) (moment : ℤ) (a b : Self.Value) → Self.below a b ≡ true
        → AreAtMost (marks_of r a moment) (marks_of r b moment) };
}
