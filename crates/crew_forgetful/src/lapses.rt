//! Resources that tell what lapses.
ghost use Rattle.std.specs.Prelude.{◌≡◌, Bool};
ghost use Rattle.crew_forgetful.specs.Lapses.{BoardLaws, RestLaws, TogetherLaws, WaitLaws};

use crate::Marked;
use crew_resource::Placed;

/// A resource that tells where its stages forget anything, so that labels needn't be compared anew
/// where they don't.
///
/// An implementation proves the laws: `together` (values with the same sums stand together in the
/// listing, before a stage and after it), `waiting` and `resting` (values stand to each other after a
/// wait as they did before it, or as they do rested), and `aboard` (a value of which nothing lapses
/// comes to be at most no other than before).
pub trait Lapses<P: Placed>: Marked<P> {
    /// The wait from an arrival to a departure is a rest.
    ghost rests: { Self → P.Arrival → P.Departure → Bool };

    /// What a rest goes by.
    ghost rested_of: { Self → Self.Value → Self.Value };

    /// Something of the value lapses as it boards the item.
    ghost lapses: { Self → Self.Value → P → Bool };

    /// Whether the wait from an arrival to a departure is a rest, of which values forget a part.
    fn is_rest(&self, arrival: &P::Arrival, departure: &P::Departure) -> bool
        requires { P.may_follow arrival.now departure.now }
        ensures { result ≡ rests self.now arrival.now departure.now };

    /// A value without what every rest forgets.
    fn rested(&self, value: &Self::Value) -> Self::Value
        ensures { result ≡ rested_of self.now value.now };

    /// Whether something of a value lapses as it boards an item.
    fn is_lapsing(&self, value: &Self::Value, item: &P) -> bool
        requires { P.is_sound item.now }
        ensures { result ≡ lapses self.now value.now item.now };

    ghost together: { (r : Self) → TogetherLaws Self.Value.cmp Self.same_sums (Self.waited r)
        (Self.boards r) };

    ghost waiting: { (r : Self) → WaitLaws Self.Value.cmp Self.below (Self.waited r) (rests r) };

    ghost resting: { (r : Self) → RestLaws Self.Value.cmp Self.below (Self.waited r) (rests r)
        (rested_of r) (Self.count_of r) (Self.arrived r) };

    ghost aboard: { (r : Self) → BoardLaws Self.below (Self.boards r) (lapses r) };
}
