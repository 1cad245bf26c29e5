//! Steps in two stages, between events.
ghost use Rattle.std.specs.Prelude.{◌≡◌, ℕ, ℤ, Option, Some};
ghost use Rattle.crew_resource.specs.Stages.{StagedLaws, ShiftLaws, CountingLaws, BoundLaws};

use crate::Resource;

/// An item that leaves at one event and arrives at another.
pub trait Placed {
    type Arrival: Drop;

    type Departure: Drop;

    ghost arrives: { Self → Self.Arrival };

    ghost leaves: { Self → Self.Departure };

    /// The item's numbers lie in their ranges.
    ghost is_sound: { Self → Type 0 };

    /// A list may begin with an item that leaves at this event.
    ghost may_begin: { Self.Departure → Type 0 };

    /// An item that leaves at the departure may stand just after one that arrives at the arrival.
    ghost may_follow: { Self.Arrival → Self.Departure → Type 0 };

    /// The event that the item arrives at.
    fn arrival(&self) -> Self::Arrival
        ensures { result ≡ arrives self.now };

    /// The event that the item leaves at.
    fn departure(&self) -> Self::Departure
        ensures { result ≡ leaves self.now };
}

/// A resource whose extension waits from the last item's arrival to the next one's departure, and boards
/// the next.
///
/// An implementation proves the laws: `staged` (the stages make the step, and keep the order),
/// `shifting` (where `is_shift` holds, they make no two values one, reflect the order, and keep the
/// listing), `counting` (where there is a `most`, a value tells the number of its items, and none
/// has more) and `bounds` (the stages keep a bound by the number of items, under which every call
/// may be made). No stage takes memory.
pub trait Staged<P: Placed>: Resource<Item = P> {
    /// The value of no item, at a departure.
    ghost idle_of: { Self → P.Departure → Self.Value };

    /// The value of a list as of a departure after its last arrival.
    ghost waited: { Self → Self.Value → P.Arrival → P.Departure → Self.Value };

    /// The value of a list after one more item, of its value as of that item's departure, or none.
    ghost boards: { Self → Self.Value → P → Option Self.Value };

    /// Both stages shift values.
    ghost is_shift: { Self → Type 0 };

    /// The most items of a list that has a value, where the resource counts its items.
    ghost most: { Self → Option ℕ };

    ghost count_of: { Self → Self.Value → ℤ };

    /// Sums over this many items fit.
    ghost fits: { Self → ℕ → Type 0 };

    /// The value lies within the bound for a list of this many items, at a departure after it.
    ghost ready: { Self → ℕ → Self.Value → Type 0 };

    /// The same at the arrival of its last item.
    ghost arrived: { Self → ℕ → Self.Value → Type 0 };

    /// A stage's sums fit.
    ghost can_idle: { Self → P.Departure → Type 0 };

    ghost can_wait: { Self → Self.Value → P.Arrival → P.Departure → Type 0 };

    ghost can_board: { Self → Self.Value → P → Type 0 };

    /// The value of no item, at a departure.
    fn idle(&self, departure: &P::Departure) -> Self::Value
        requires { can_idle self.now departure.now }
        ensures { result ≡ idle_of self.now departure.now };

    /// The value of a list as of a departure, of its value at the arrival.
    fn wait(
        &self,
        value: &Self::Value,
        arrival: &P::Arrival,
        departure: &P::Departure,
    ) -> Self::Value
        requires { can_wait self.now value.now arrival.now departure.now }
        ensures { result ≡ waited self.now value.now arrival.now departure.now };

    /// The value of a list with `item` after it, of its value as of the item's departure; none
    /// where it has no value.
    fn board(&self, value: &Self::Value, item: &P) -> Option<Self::Value>
        requires { can_board self.now value.now item.now }
        ensures { result ≡ boards self.now value.now item.now };

    ghost staged: { (r : Self) → StagedLaws (Self.opens r) (Self.extends r) Self.below P.arrives
        P.leaves (idle_of r) (waited r) (boards r) };

    ghost shifting: { (r : Self) → is_shift r
        → ShiftLaws Self.Value.cmp Self.below (waited r) (boards r) };

    ghost counting: { (r : Self) (m : ℕ) → most r ≡ Some m
        → CountingLaws (count_of r) m (idle_of r) (waited r) (boards r) };

    ghost bounds: { (r : Self) → BoundLaws P.is_sound P.may_begin P.may_follow P.arrives P.leaves
        (idle_of r) (waited r) (boards r) (Self.can_start r) (Self.can_extend r) (can_idle r)
        (can_wait r) (can_board r) (fits r) (ready r) (arrived r) };
}
