//! Which flight follows which, in memory.

ghost use Rattle.std.specs.Prelude.{◌≡◌, ℕ, None, IfOk, OnOk, OnErr};
ghost use Rattle.std.specs.BTreeMap.{IsOrdered};
ghost use Rattle.std.specs.FinMap as map;
ghost use Rattle.std.specs.Map.Iter.{ShowsInOrder, deref_pair};
ghost use Rattle.std.specs.Ordering.{nat_cmp};
ghost use Rattle.crew_flights.specs.FollowOns as Spec;

use crate::flight::FlightId;
use crate::timetable::entries_again;
use std::alloc::{AllocError, Global};
use std::collections::BTreeMap;
use std::collections::btree_map::Iter;
use std::marker::Model;

/// Of flights, those that follow them, and the other way round.
///
/// A contract sees two finite maps.
#[derive(Drop)]
pub(crate) struct FollowOns {
    follows: BTreeMap<FlightId, FlightId>,
    leads: BTreeMap<FlightId, FlightId>,
}

impl Model for FollowOns {
    ghost Value = { Spec.FollowOns };

    ghost coded = { Spec.follow_ons_code };

    ghost view = { λ f. record {
      follows = map.from_sorted f.follows.entries;
      leads = map.from_sorted f.leads.entries;
    } };

    ghost invariant = { λ f. IsOrdered nat_cmp f.follows × IsOrdered nat_cmp f.leads };
}

impl FollowOns {
    /// None.
    pub(crate) fn new(alloc: Global) -> Self
        ensures { result ≡ Spec.no_follow_ons }
    {
        FollowOns {
            follows: BTreeMap::new(alloc),
            leads: BTreeMap::new(alloc),
        }
    }

    /// The flight that follows one.
    pub(crate) fn after(&self, before: FlightId) -> Option<FlightId>
        ensures { result ≡ map.get self.now.follows before }
    {
        self.follows.get(&before).copied()
    }

    /// The flight that one follows.
    pub(crate) fn before(&self, after: FlightId) -> Option<FlightId>
        ensures { result ≡ map.get self.now.leads after }
    {
        self.leads.get(&after).copied()
    }

    /// How many there are.
    pub(crate) fn len(&self) -> usize
        ensures { result ≡ map.len self.now.follows }
    {
        self.follows.len()
    }

    /// The flights that are followed, by number, with those that follow them.
    pub(crate) fn iter(&self) -> Iter<'_, FlightId, FlightId>
        ensures held { result ≡ map.entries self.now.follows }
        ensures runs { ShowsInOrder (deref_pair {K = ℕ} {X = ℕ}) }
    {
        self.follows.iter()
    }

    /// The same follow-ons again.
    pub(crate) fn copy(&self, alloc: Global) -> Result<Self, AllocError>
        ensures { IfOk result (λ copied. copied ≡ self.now) }
    {
        Ok(FollowOns {
            follows: entries_again(alloc, &self.follows)?,
            leads: entries_again(alloc, &self.leads)?,
        })
    }

    /// Lets a flight follow one that none follows. On want of memory nothing changes.
    pub(crate) fn link(&mut self, before: FlightId, after: FlightId) -> Result<(), AllocError>
        requires { map.get self.old.follows before ≡ None }
        ensures ok { OnOk result (self.new ≡ Spec.linked self.old before after) }
        ensures err { OnErr result (self.new ≡ self.old) }
    {
        self.follows.insert(before, after)?;
        match self.leads.insert(after, before) {
            Ok(_) => Ok(()),
            Err(_) => {
                self.follows.remove(&before);
                Err(AllocError)
            }
        }
    }

    /// Lets no flight follow one.
    pub(crate) fn unlink(&mut self, before: FlightId)
        ensures { self.new ≡ Spec.unlinked self.old before }
    {
        let after = self.follows.remove(&before);
        remove_link(&mut self.leads, after);
    }

    /// Lets a flight follow none, and none follow it.
    pub(crate) fn remove(&mut self, id: FlightId)
        ensures { self.new ≡ Spec.without_number self.old id }
    {
        let next = self.follows.remove(&id);
        let lead = self.leads.remove(&id);
        remove_link(&mut self.follows, lead);
        remove_link(&mut self.leads, next);
    }
}

// Takes out the link of a flight, if one is named.
fn remove_link(links: &mut BTreeMap<FlightId, FlightId>, id: Option<FlightId>)
    requires { IsOrdered nat_cmp links.old }
    ensures left { map.from_sorted links.new.entries
        ≡ Spec.without_link (map.from_sorted links.old.entries) id }
    ensures ordered { IsOrdered nat_cmp links.new }
{
    if let Some(id) = id {
        links.remove(&id);
    }
}
