//! What is carried over from one network to the next.
ghost use Rattle.std.specs.Prelude.{◌≡◌, ◌↔◌, ◌&&◌, ◌≤◌, ◌<◌, ℕ, IfOk, IsTrue, List, MatchOption, Some, false, get_or, length, slice_get, true};
ghost use Rattle.std.specs.FinMap as map;
ghost use Rattle.crew_dirty.specs.Carried.{AreKeptFrom, IsCarriedOver, IsNextDirty};
ghost use Rattle.crew_dirty.specs.Dirty.{IsKept, IsNetOver, IsUntouched};
ghost use Rattle.crew_dirty.specs.Unchanged.{IsUnchanged};
ghost use Rattle.crew_dirty.specs.declared.node_state.NodeState.TheVariants.{Same};
ghost use Rattle.crew_flights.specs.Timetable as TimetableSpec;
ghost use Rattle.crew_net.specs.Events.{arrives_at};
ghost use Rattle.crew_net.specs.Nets as Nets;
ghost use Rattle.crew_net.specs.Ranks.{ranks_where};
ghost use Rattle.crew_pairing.specs.declared.duty.Duty.{Duty};
ghost use Rattle.crew_pairing.specs.declared.events.Arrival.{Arrival};
ghost use Rattle.crew_resource.specs.Members.{Member};

use crate::bases::same_prices;
use crate::flags::flag;
use crate::node_places::place_of;
use crate::node_state::{NodeStates, are_same};
use crate::places::departure_places;
use crate::reach::unreached_duties;
use crate::same::same_duties;
use crew_carry::Twins;
use crew_flights::{Code, Timetable};
use crew_net::{Net, Node, Window};
use std::alloc::{AllocError, Global};
use std::marker::Model;

/// What an edit leaves standing, between the networks of two timetables.
///
/// A contract sees flags: of bases by place, and of duties by rank; and the place of each duty's
/// departure, by rank.
pub struct Carried {
    bases: Vec<bool>,
    same: Vec<bool>,
    unreached: Vec<bool>,
    departures: Vec<u32>,
}

impl Drop for Carried {
    fn drop(self) {
        let Self {
            bases: _,
            same: _,
            unreached: _,
            departures: _,
        } = self;
    }
}

impl Model for Carried {
    ghost use Rattle.crew_dirty.specs.Carried as Spec;

    ghost Value = { Spec.Carried };

    ghost view = { λ c. record {
      bases = c.bases.items;
      same = c.same.items;
      unreached = c.unreached.items;
      departures = c.departures.items;
    } };
}

/// What is carried over from the network of one timetable to that of another, under the same
/// settings.
pub fn carry(
    alloc: Global,
    old: &Net,
    old_timetable: &Timetable,
    new: &Net,
    timetable: &Timetable,
) -> Result<Carried, AllocError>
    requires settings { old.now.settings ≡ new.now.settings }
    requires old { IsNetOver old_timetable.now old.now }
    requires new { IsNetOver timetable.now new.now }
    ensures { IfOk result (IsCarriedOver old_timetable.now timetable.now old.now new.now) }
{
    let _count = timetable.base_count();
    let twins = Twins::of(alloc, old, new)?;
    let bases = same_prices(alloc, old_timetable, timetable, new.bases())?;
    let same = same_duties(alloc, old, new, &twins)?;
    let unreached = unreached_duties(alloc, new, &same)?;
    let departures = departure_places(alloc, new)?;
    Ok(Carried {
        bases,
        same,
        unreached,
        departures,
    })
}

impl Carried {
    /// Whether the node of a base's place and a rank isn't reached.
    #[inline]
    pub fn is_kept_at(&self, base: usize, rank: usize) -> bool
        ensures flags { result ≡ (get_or self.now.bases base false
            && get_or self.now.unreached rank false) }
        ensures told { (t u : TimetableSpec.Timetable) (old new : Nets.Net) (code : List ℕ)
            (d : Duty) → IsCarriedOver t u old new self.now → slice_get new.bases base ≡ Some code
            → slice_get new.duties rank ≡ Some d
            → (IsTrue result ↔ IsKept t u old new (record { base = code; key = d.key })) }
    {
        let own = flag(&self.bases, base);
        let unreached = flag(&self.unreached, rank);
        own & unreached
    }

    /// Whether the node of a base's place and a rank isn't touched.
    #[inline]
    pub fn is_untouched_at(&self, base: usize, rank: usize) -> bool
        ensures flags { result ≡ (get_or self.now.bases base false
            && get_or self.now.same rank false) }
        ensures told { (t u : TimetableSpec.Timetable) (old new : Nets.Net) (code : List ℕ)
            (d : Duty) → IsCarriedOver t u old new self.now → slice_get new.bases base ≡ Some code
            → slice_get new.duties rank ≡ Some d
            → (IsTrue result ↔ IsUntouched old new (map.get t.bases code) (map.get u.bases code)
            code d) }
    {
        let own = flag(&self.bases, base);
        let same = flag(&self.same, rank);
        own & same
    }

    /// Whether the node is one of the new network that isn't reached.
    pub fn is_kept(&self, net: &Net, node: &Node) -> bool
        ensures { (t u : TimetableSpec.Timetable) (old : Nets.Net)
            → IsCarriedOver t u old net.now self.now
            → (IsTrue result ↔ IsKept t u old net.now node.now) }
    {
        match place_of(net, node) {
            Some(place) => self.is_kept_at(place.base, place.rank),
            None => false,
        }
    }

    /// The first place of a node of the new network, from a place on, that isn't kept.
    pub fn next_dirty(&self, net: &Net, from: usize) -> Option<usize>
        ensures { (t u : TimetableSpec.Timetable) (old : Nets.Net)
            → IsCarriedOver t u old net.now self.now
            → MatchOption result (AreKeptFrom t u old net.now from)
            (IsNextDirty t u old net.now from) }
    {
        let count = net.duty_count();
        for place in from..net.len() {
            let kept = self.is_kept_at(place / count, place % count);
            if !kept {
                return Some(place);
            }
        }
        None
    }

    /// Whether the node is one of the new network that isn't touched, and at each node just before
    /// it stands the front that stood there.
    pub fn unchanged<S: NodeStates>(&self, net: &Net, node: &Node, states: &S) -> bool
        ensures { (t u : TimetableSpec.Timetable) (old : Nets.Net)
            → IsCarriedOver t u old net.now self.now
            → (IsTrue result ↔ IsUnchanged t u old net.now (S.state_at states.now)
            node.now) }
    {
        let Some(place) = place_of(net, node) else {
            return false;
        };
        let untouched = self.is_untouched_at(place.base, place.rank);
        if !untouched {
            return false;
        }
        let _arrivals = net.arrivals();
        let departure = self.departure(place.rank);
        if departure >= net.departures().len() {
            return false;
        }
        are_same_before::<S>(net, net.window(departure), node.base, states)
    }

    // The place of the departure of a rank.
    fn departure(&self, rank: usize) -> usize
        ensures { result ≡ get_or self.now.departures rank 0 }
    {
        if rank < self.departures.len() {
            return self.departures[rank] as usize;
        }
        0
    }
}

// Whether what arrives in a window stands at the front that stood there.
fn are_same_before<S: NodeStates>(net: &Net, window: Window, base: Code, states: &S) -> bool
    requires ordered { window.from ≤ window.end }
    requires within { window.end ≤ length net.now.arrivals }
    ensures { IsTrue result ↔ ((k rank : ℕ) (x : Arrival) → window.from ≤ k → k < window.end
        → slice_get net.now.arrivals k ≡ Some x
        → Member (ranks_where (arrives_at x) net.now.duties) rank
        → S.state_at states.now base rank ≡ Same) }
{
    for arrival in window.from..window.end {
        let same = are_same::<S>(net.arriving(arrival), base, states);
        if !same {
            return false;
        }
    }
    true
}
