//! Walks that a sweep lends.
ghost use Rattle.std.specs.Prelude.{◌≡◌, ◌↔◌, ◌<◌, ◌≤◌, ◌++◌, ◌∷◌, [], IfSome, IsNone, IsTrue, length, slice_get};
ghost use Rattle.std.specs.Option.{option_copied};
ghost use Rattle.crew_pool.specs.Arena.{walk_at};
ghost use Rattle.crew_pool.specs.LabelWalks.{duty_of, walk_of_label};
ghost use Rattle.crew_resource.specs.Members.{Each};
ghost use Rattle.crew_solve.specs.Machinery.Homes.{walk_by_key};

use crew_pairing::{Duties, Key};
use crew_pool::{LabelWalk, NO_DUTY, Walks};
use crew_sweep::Sweep;
use std::marker::Model;

/// A walk that a front lends: the keys of its duties in order.
///
/// A contract sees the list of the keys. No call takes memory.
#[derive(Drop)]
pub struct WalkView<'a> {
    walks: &'a Walks,
    duties: &'a Duties,
    label: LabelWalk,
}

impl<'a> Model for WalkView<'a> {
    ghost use Rattle.std.specs.Prelude.{◌<◌, List, length, map};
    ghost use Rattle.crew_pairing.specs.Legs.{Leg};
    ghost use Rattle.crew_pool.specs.LabelWalks.{walk_of_label};
    ghost use Rattle.crew_pool.specs.Ranks.{key_at};
    ghost use Rattle.crew_resource.specs.Members.{Each};

    ghost Value = { List (List Leg) };

    ghost view = { λ w. map (key_at w.duties.now) (walk_of_label w.walks.now w.label) };

    ghost invariant = { λ w. (w.label.walk < length w.walks.now)
        × Each (λ rank. rank < length w.duties.now) (walk_of_label w.walks.now w.label) };
}

// How many duties the walk at a place has.
fn count_at(walks: &Walks, place: u32) -> usize
    requires { place < length walks.now }
    ensures count { result ≡ length (walk_at walks.now place) }
    ensures few { result ≤ place }
{
    let mut count = 0;
    let mut at = place;
    while let Some((before, _)) = walks.last(at) {
        count += 1;
        at = before;
    }
    count
}

// The rank that stands at a place of a walk of so many duties.
fn rank_at(walks: &Walks, walk: u32, count: usize, place: usize) -> Option<u32>
    requires walk { walk < length walks.now }
    requires count { count ≡ length (walk_at walks.now walk) }
    requires place { place < count }
    ensures { result ≡ slice_get (walk_at walks.now walk) place }
{
    let mut left = count;
    let mut at = walk;
    while let Some((before, rank)) = walks.last(at) {
        left -= 1;
        if left == place {
            return Some(rank);
        }
        at = before;
    }
    None
}

// The rank after a walk that stands at a place, if there is one.
fn rank_after(duty: u32, place: usize) -> Option<u32>
    ensures { result ≡ slice_get (duty_of duty) place }
{
    if duty == NO_DUTY || place > 0 {
        return None;
    }
    Some(duty)
}

// The rank that stands at a place of a label's walk, if there are so many.
fn rank_of(walks: &Walks, label: LabelWalk, place: usize) -> Option<u32>
    requires { label.walk < length walks.now }
    ensures { result ≡ slice_get (walk_of_label walks.now label) place }
{
    let count = count_at(walks, label.walk);
    if place < count {
        rank_at(walks, label.walk, count, place)
    } else {
        rank_after(label.duty, place - count)
    }
}

// A label's walk without its last duty, and that duty's rank; `None` for a walk of no duty.
fn split_label(walks: &Walks, label: LabelWalk) -> Option<(LabelWalk, u32)>
    requires { label.walk < length walks.now }
    ensures none { IsNone result → walk_of_label walks.now label ≡ [] }
    ensures some { IfSome result (λ l. (l.0.walk < length walks.now)
        × (walk_of_label walks.now label ≡ walk_of_label walks.now l.0 ++ l.1 ∷ [])) }
{
    let duty = NO_DUTY;
    if label.duty != NO_DUTY {
        let walk = label.walk;
        return Some((LabelWalk { walk, duty }, label.duty));
    }
    let (walk, rank) = walks.last(label.walk)?;
    Some((LabelWalk { walk, duty }, rank))
}

// Whether two keys are equal.
fn is_same_key(one: &Key, other: &Key) -> bool
    ensures { IsTrue result ↔ (one.now ≡ other.now) }
{
    one == other
}

impl<'a> WalkView<'a> {
    // The walk of a label.
    pub(crate) fn new(sweep: &'a Sweep, label: LabelWalk) -> WalkView<'a>
        requires there { label.walk < length sweep.now.walks }
        requires ranked { Each (λ rank. rank < length sweep.now.net.duties)
            (walk_of_label sweep.now.walks label) }
        ensures { result ≡ walk_by_key sweep.now label }
    {
        WalkView {
            walks: sweep.walks(),
            duties: sweep.net().duties(),
            label,
        }
    }

    /// How many duties the walk has.
    pub fn len(&self) -> usize
        ensures { result ≡ length self.now }
    {
        let count = count_at(self.walks, self.label.walk);
        if self.label.duty == NO_DUTY {
            count
        } else {
            count + 1
        }
    }

    /// The key of the duty at a place, if there are so many.
    pub fn key(&self, place: usize) -> Option<&'a Key>
        ensures { option_copied result ≡ slice_get self.now place }
    {
        let rank = rank_of(self.walks, self.label, place)?;
        Some(&self.duties.at(rank as usize).key)
    }

    // The walk without its last duty, and the key of that; `None` for a walk of no duty.
    pub(crate) fn split_last(&self) -> Option<(WalkView<'a>, &'a Key)>
        ensures none { IsNone result → self.now ≡ [] }
        ensures some { IfSome result (λ l. self.now ≡ l.0 ++ l.1.now ∷ []) }
    {
        let (walks, duties) = (self.walks, self.duties);
        let (label, rank) = split_label(walks, self.label)?;
        let key = &duties.at(rank as usize).key;
        let before = WalkView {
            walks,
            duties,
            label,
        };
        Some((before, key))
    }

    /// Whether another walk has the same keys, from the last duty back. It takes no memory.
    pub fn is_same(&self, other: &WalkView<'_>) -> bool
        ensures { IsTrue result ↔ (self.now ≡ other.now) }
    {
        let Some((before, last)) = self.split_last() else {
            return other.split_last().is_none();
        };
        let Some((other_before, other_last)) = other.split_last() else {
            return false;
        };
        is_same_key(last, other_last) && before.is_same(&other_before)
    }
}
