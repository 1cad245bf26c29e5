//! The network.
//!
//! No arc is stored, and nothing is kept twice for two bases. A rest has at least ten hours and at
//! most what the settings allow, so the arrivals that a departure may wait on stand side by side
//! among those of its airport, and so do the departures that may follow an arrival: windows, found
//! by binary search when they are asked for. Departures in order of report are a topological order.

ghost use Rattle.std.specs.Prelude.{◌≡◌, ◌≤◌, ◌<◌, ◌*◌, IfOk, Some, length, map, slice_get};
ghost use Rattle.std.specs.Arc.{arc_value};
ghost use Rattle.std.specs.FinMap as fin;
ghost use Rattle.crew_flights.specs.Timetable as TimetableSpec;
ghost use Rattle.crew_net.specs.Events.{AreEvents, IsWindow, arrival_cmp, arrives_at, departure_cmp, leaves_at};
ghost use Rattle.crew_net.specs.Layers.{AreLayers};
ghost use Rattle.crew_net.specs.Machinery.Held.{HaveSameEvents};
ghost use Rattle.crew_net.specs.Machinery.Moments.{IsReal};
ghost use Rattle.crew_net.specs.Nets.{AreByReport, ArePreds, IsNetOf, IsRank, IsRankOfKey, RiseByCode, nodes_of, ranks_before};
ghost use Rattle.crew_net.specs.Ranks.{ranks_where};
ghost use Rattle.crew_pairing.specs.Events.{arrival_of, departure_of, may_wait};
ghost use Rattle.crew_pairing.specs.Duties.{AreDuties, RiseByKey};
ghost use Rattle.crew_pairing.specs.declared.duty.Duty.{Duty};
ghost use Rattle.crew_pairing.specs.declared.events.Arrival.{Arrival};
ghost use Rattle.crew_pairing.specs.declared.events.Departure.{Departure};
ghost use Rattle.crew_resource.specs.Members.{Member};
ghost use Rattle.crew_pairing.specs.crew_rules.Settings.{IsChecked};

use crate::by_rank::{arrival_places, write_at};
use crate::events::{Events, events_of, have_same_events};
use crate::layers::{greatest, raise};
use crate::node::Node;
use crate::ranks::rank_of;
use crate::timeline::Timeline;
use crate::window::Window;
use crate::windows::{following, waiting};
use crew_flights::{Code, Timetable};
use crew_pairing::crew_rules::Settings;
use crew_pairing::{Arrival, Departure, Duties, Duty, Key};
use crew_resource::Placed;
use std::alloc::{AllocError, Global};
use std::marker::Model;
use std::sync::Arc;

/// The time-space network of a timetable's legal duties.
///
/// A contract sees the settings, the crew bases, the duties by key, and the events at which they
/// leave and arrive.
pub struct Net {
    settings: Settings,
    bases: Vec<Code>,
    duties: Arc<Duties, Global>,
    // Networks of duties that differ in their prices alone share them.
    events: Arc<Events, Global>,
}

impl Drop for Net {
    fn drop(self) {
        let Self {
            settings: _,
            bases: _,
            duties: _,
            events: _,
        } = self;
    }
}

impl Model for Net {
    ghost use Rattle.crew_net.specs.Nets as Spec;

    ghost Value = { Spec.Net };

    ghost view = { λ n. record {
      settings = n.settings;
      bases = n.bases.items;
      duties = n.duties.value;
      departures = n.events.value.departures.items;
      arrivals = n.events.value.arrivals.items;
      by_report = n.events.value.by_report.items;
    } };

    ghost use Rattle.crew_net.specs.Machinery.Held.{IsHeld};

    ghost invariant = { λ n. IsHeld n.settings n.bases.items n.duties.value n.events.value.leave
        n.events.value.arrive n.events.value.departures.items n.events.value.arrivals.items
        n.events.value.by_report.items };
}

// The bases of a timetable, in order.
fn held_bases(alloc: Global, timetable: &Timetable) -> Result<Vec<Code>, AllocError>
    ensures bases { IfOk result (λ bases. bases.items ≡ fin.keys timetable.now.bases) }
    ensures few { length (fin.keys timetable.now.bases) ≤ 16 }
    ensures rising { RiseByCode (fin.keys timetable.now.bases) }
    ensures sound { TimetableSpec.IsSound timetable.now }
{
    timetable.bases().map(|(code, _)| *code).collect(alloc)
}

// The node at a place among those of some bases and duties.
fn node_at(bases: &[Code], duties: &Duties, place: usize) -> Option<Node>
    ensures { result ≡ slice_get (nodes_of bases.now duties.now) place }
{
    if duties.is_empty() {
        return None;
    }
    let count = duties.len();
    let row = place / count;
    if row >= bases.len() {
        return None;
    }
    let key = duties.at(place % count).key.copy();
    Some(Node {
        base: bases[row],
        key,
    })
}

impl Net {
    /// The network of the legal duties of a timetable.
    pub fn build(
        alloc: Global,
        settings: &Settings,
        timetable: &Timetable,
        duties: Arc<Duties, Global>,
    ) -> Result<Net, AllocError>
        requires checked { IsChecked settings.now }
        requires duties { AreDuties settings.now timetable.now (arc_value duties) }
        requires few { length (arc_value duties) ≤ 200_000 }
        ensures { IfOk result (IsNetOf settings.now timetable.now (arc_value duties)) }
    {
        let events = events_of(alloc, &duties)?;
        let events = Arc::new(alloc, events)?;
        let bases = held_bases(alloc, timetable)?;
        Ok(Net {
            settings: *settings,
            bases,
            duties,
            events,
        })
    }

    /// Warm start: the network of another timetable's legal duties under the same settings. Where the
    /// duties leave and arrive as this one's do, one by one, the events are shared; else it is
    /// built.
    pub fn next(
        &self,
        alloc: Global,
        timetable: &Timetable,
        duties: Arc<Duties, Global>,
    ) -> Result<Net, AllocError>
        requires duties { AreDuties self.now.settings timetable.now (arc_value duties) }
        requires few { length (arc_value duties) ≤ 200_000 }
        ensures { IfOk result (IsNetOf self.now.settings timetable.now (arc_value duties)) }
    {
        if have_same_events(&self.duties, &duties) {
            self.sharing(alloc, timetable, duties)
        } else {
            Net::build(alloc, &self.settings, timetable, duties)
        }
    }

    // The network of duties that leave and arrive as this one's do.
    fn sharing(
        &self,
        alloc: Global,
        timetable: &Timetable,
        duties: Arc<Duties, Global>,
    ) -> Result<Net, AllocError>
        requires duties { AreDuties self.now.settings timetable.now (arc_value duties) }
        requires few { length (arc_value duties) ≤ 200_000 }
        requires same { HaveSameEvents self.now.duties (arc_value duties) }
        ensures { IfOk result (IsNetOf self.now.settings timetable.now (arc_value duties)) }
    {
        let bases = held_bases(alloc, timetable)?;
        let events = Arc::try_clone(&self.events)?;
        Ok(Net {
            settings: self.settings,
            bases,
            duties,
            events,
        })
    }

    /// The settings.
    pub fn settings(&self) -> &Settings
        ensures value { result.now ≡ self.now.settings }
        ensures checked { IsChecked self.now.settings }
    {
        &self.settings
    }

    /// The crew bases, in order.
    pub fn bases(&self) -> &[Code]
        ensures { result.now ≡ self.now.bases }
    {
        &self.bases
    }

    /// The duties, by key.
    pub fn duties(&self) -> &Duties
        ensures { result.now ≡ self.now.duties }
    {
        &self.duties
    }

    /// The duty of a rank.
    #[inline]
    pub fn duty(&self, rank: usize) -> &Duty
        requires { rank < length self.now.duties }
        ensures { slice_get self.now.duties rank ≡ Some result.now }
    {
        self.duties.at(rank)
    }

    /// The events at which duties leave, by airport and report.
    pub fn departures(&self) -> &[Departure]
        ensures events { result.now ≡ self.now.departures }
        ensures exact { AreEvents departure_of departure_cmp self.now.duties self.now.departures }
        ensures real { (g : Departure) → Member self.now.departures g → IsReal g.report }
        ensures few { length self.now.departures ≤ 200_000 }
    {
        &self.events.departures
    }

    /// The events at which duties arrive, by airport and release.
    pub fn arrivals(&self) -> &[Arrival]
        ensures events { result.now ≡ self.now.arrivals }
        ensures exact { AreEvents arrival_of arrival_cmp self.now.duties self.now.arrivals }
        ensures few { length self.now.arrivals ≤ 200_000 }
    {
        &self.events.arrivals
    }

    /// The places of all departures, in order of report.
    pub fn by_report(&self) -> &[u32]
        ensures places { result.now ≡ self.now.by_report }
        ensures exact { AreByReport self.now.departures self.now.by_report }
    {
        &self.events.by_report
    }

    /// The duties that leave at a departure, by rank.
    pub fn leaving(&self, departure: usize) -> &[u32]
        requires { departure < length self.now.departures }
        ensures { (g : Departure) → slice_get self.now.departures departure ≡ Some g
            → result.now ≡ ranks_where (leaves_at g) self.now.duties }
    {
        self.events.leave.places_in(Window {
            from: departure,
            end: departure + 1,
        })
    }

    /// The duties that arrive at an arrival, by rank.
    pub fn arriving(&self, arrival: usize) -> &[u32]
        requires { arrival < length self.now.arrivals }
        ensures { (x : Arrival) → slice_get self.now.arrivals arrival ≡ Some x
            → result.now ≡ ranks_where (arrives_at x) self.now.duties }
    {
        self.events.arrive.places_in(Window {
            from: arrival,
            end: arrival + 1,
        })
    }

    /// The sliding window of a departure: the arrivals after which a crew may report for it.
    pub fn window(&self, departure: usize) -> Window
        requires { departure < length self.now.departures }
        ensures { (g : Departure) → slice_get self.now.departures departure ≡ Some g
            → IsWindow (λ x. may_wait self.now.settings x g) self.now.arrivals result }
    {
        let event = &self.events.departures[departure];
        waiting(&self.settings, &self.events.arrive.moments, event)
    }

    /// The departures that may follow an arrival.
    pub fn followers(&self, arrival: usize) -> Window
        requires { arrival < length self.now.arrivals }
        ensures { (x : Arrival) → slice_get self.now.arrivals arrival ≡ Some x
            → IsWindow (may_wait self.now.settings x) self.now.departures result }
    {
        let event = &self.events.arrivals[arrival];
        following(&self.settings, &self.events.leave.moments, event)
    }

    /// How many duties there are.
    pub fn duty_count(&self) -> usize
        ensures count { result ≡ length self.now.duties }
        ensures few { length self.now.duties ≤ 200_000 }
        ensures rising { RiseByKey self.now.duties }
    {
        self.duties.len()
    }

    /// How many crew bases there are.
    pub fn base_count(&self) -> usize
        ensures count { result ≡ length self.now.bases }
        ensures few { length self.now.bases ≤ 16 }
        ensures rising { RiseByCode self.now.bases }
    {
        self.bases.as_slice().len()
    }

    /// How many nodes there are: one for each base and duty.
    pub fn len(&self) -> usize
        ensures { result ≡ length self.now.bases * length self.now.duties }
    {
        self.bases.len() * self.duties.len()
    }

    /// The node at a place, in order of base and key.
    pub fn node(&self, place: usize) -> Option<Node>
        ensures { result ≡ slice_get (nodes_of self.now.bases self.now.duties) place }
    {
        node_at(&self.bases, &self.duties, place)
    }

    /// The rank of a node's duty, and `None` where it isn't a node of the network.
    pub fn rank(&self, node: &Node) -> Option<usize>
        ensures { IsRank self.now node.now result }
    {
        if !self.bases.contains(&node.base) {
            return None;
        }
        rank_of(&self.duties, &node.key)
    }

    /// The rank of the duty with a key, and `None` where no duty has it.
    pub fn rank_of_key(&self, key: &Key) -> Option<usize>
        ensures { IsRankOfKey self.now.duties key.now result }
    {
        rank_of(&self.duties, key)
    }

    /// The layer of each duty, by rank.
    ///
    /// Each departure is gone to once, in order of report: its layer is the greatest to which its
    /// arrivals lead, and what leaves there leads one further.
    pub fn layers(&self, alloc: Global) -> Result<Vec<u32>, AllocError>
        ensures { IfOk result (λ layers. AreLayers self.now layers.items) }
    {
        let places = arrival_places(alloc, self)?;
        let mut layers = vec![in alloc; 0; self.duties.len()]?;
        let mut next = vec![in alloc; 0; self.arrivals().len()]?;
        for departure in self.by_report() {
            let departure = *departure as usize;
            let layer = greatest(&next, self.window(departure));
            write_at(&mut layers, self.leaving(departure), layer);
            raise(&mut next, &places, self.leaving(departure), layer + 1);
        }
        Ok(layers)
    }

    // The duties that may stand just before the one of a rank.
    fn before(&self, alloc: Global, rank: usize) -> Result<Vec<u32>, AllocError>
        requires { rank < length self.now.duties }
        ensures { IfOk result (λ ranks. (d : Duty) → slice_get self.now.duties rank ≡ Some d
            → ranks.items ≡ ranks_before self.now.settings self.now.duties d) }
    {
        let event = self.duty(rank).departure();
        let window = waiting(&self.settings, &self.events.arrive.moments, &event);
        let mut ranks = Vec::from_slice(alloc, self.events.arrive.places_in(window))?;
        ranks.sort_unstable();
        Ok(ranks)
    }

    /// A node's predecessors: what may stand just before it at its base, by rank, and `None` where it
    /// isn't a node of the network.
    pub fn preds(&self, alloc: Global, node: &Node) -> Result<Option<Vec<u32>>, AllocError>
        ensures { IfOk result (ArePreds self.now node.now) }
    {
        match self.rank(node) {
            Some(rank) => Ok(Some(self.before(alloc, rank)?)),
            None => Ok(None),
        }
    }
}
