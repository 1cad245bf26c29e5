//! What follows from the definitions alone.

ghost use Rattle.crew_pairing.specs.FollowOns.{FollowOnsHold, FollowOnsHoldInPairings};

/// Legal duties, one after another, which leave a base and come back to it have a flight and the one
/// that follows it together or neither: in one duty, or as the last leg of a duty and the first of the
/// next.
pub fn follow_ons_hold()
    ensures { FollowOnsHold }
{}

/// Each pairing has a flight and the one that follows it together or neither.
pub fn follow_ons_hold_in_pairings()
    ensures { FollowOnsHoldInPairings }
{}
