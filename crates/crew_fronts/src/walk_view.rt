//! Walks that fronts lend.
ghost use Rattle.std.specs.Prelude.{◌≡◌, ◌↔◌, IsTrue, length, slice_get};
ghost use Rattle.std.specs.Option.{option_copied};

use crate::passed_walk::PassedWalk;
use crew_pairing::Key;
use std::marker::Model;

/// A path that a front lends: the keys of its duties in order.
///
/// A contract sees the list of the keys. No call takes memory.
#[derive(Drop)]
pub struct WalkView<'a> {
    kind: WalkKind<'a>,
}

// Whose label the walk is.
#[derive(Drop)]
pub(crate) enum WalkKind<'a> {
    Swept(crew_solve::WalkView<'a>),
    Passed(PassedWalk<'a>),
}

impl<'a> Model for WalkView<'a> {
    ghost use Rattle.std.specs.Prelude.{List};
    ghost use Rattle.crew_fronts.specs.Machinery.Walks.{keys_of};
    ghost use Rattle.crew_pairing.specs.Legs.{Leg};

    ghost Value = { List (List Leg) };

    ghost view = { λ w. keys_of w.kind };
}

// Whether two keys are equal.
fn is_same_key(one: &Key, other: &Key) -> bool
    ensures { IsTrue result ↔ (one.now ≡ other.now) }
{
    one == other
}

// Whether two walks have the same key at a place, or none.
fn have_same_key(one: &WalkView<'_>, other: &WalkView<'_>, place: usize) -> bool
    ensures { IsTrue result ↔ (slice_get one.now place ≡ slice_get other.now place) }
{
    let Some(key) = one.key(place) else {
        return other.key(place).is_none();
    };
    let Some(other) = other.key(place) else {
        return false;
    };
    is_same_key(key, other)
}

// Whether two walks of any kinds have the same keys.
fn are_same_keys(one: &WalkView<'_>, other: &WalkView<'_>) -> bool
    ensures { IsTrue result ↔ (one.now ≡ other.now) }
{
    let count = one.len();
    if count != other.len() {
        return false;
    }
    for place in 0..count {
        if !have_same_key(one, other, place) {
            return false;
        }
    }
    true
}

impl<'a> WalkView<'a> {
    // The walk of a sweep's label.
    #[inline]
    pub(crate) fn swept(walk: crew_solve::WalkView<'a>) -> WalkView<'a>
        ensures { result ≡ walk.entry }
    {
        WalkView {
            kind: WalkKind::Swept(walk),
        }
    }

    // The walk of a pass's label.
    #[inline]
    pub(crate) fn passed(walk: PassedWalk<'a>) -> WalkView<'a>
        ensures { result ≡ walk.entry }
    {
        WalkView {
            kind: WalkKind::Passed(walk),
        }
    }

    /// How many duties the walk has.
    pub fn len(&self) -> usize
        ensures { result ≡ length self.now }
    {
        match &self.kind {
            WalkKind::Swept(walk) => walk.len(),
            WalkKind::Passed(walk) => walk.len(),
        }
    }

    /// The key of the duty at a place, if there are so many.
    pub fn key(&self, place: usize) -> Option<&'a Key>
        ensures { option_copied result ≡ slice_get self.now place }
    {
        match &self.kind {
            WalkKind::Swept(walk) => walk.key(place),
            WalkKind::Passed(walk) => walk.key(place),
        }
    }

    /// Whether another walk has the same keys. It takes no memory.
    pub fn is_same(&self, other: &WalkView<'_>) -> bool
        ensures { IsTrue result ↔ (self.now ≡ other.now) }
    {
        match (&self.kind, &other.kind) {
            (WalkKind::Swept(one), WalkKind::Swept(other)) => one.is_same(other),
            _ => are_same_keys(self, other),
        }
    }
}
