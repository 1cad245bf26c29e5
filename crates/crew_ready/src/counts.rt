//! What keeps the nodes of a base from being ready, as counts.
//!
//! Of each arrival the duties that aren't done, of each departure the arrivals of its window that
//! have such a duty. All duties that leave at a departure have the same predecessors, so where its
//! count is nought all of them are ready that aren't done. A count for each node would want a walk
//! over all arcs when it falls; so each window is gone over once for each of its arrivals, and no
//! node for each of its predecessors.
ghost use Rattle.std.specs.Prelude.{◌≡◌, ◌↔◌, ◌⊎◌, ◌≤◌, ◌<◌, ◌-◌, ℕ, Bool, IfOk, IsTrue, List, Some, false, get_or, length, slice_get, slice_set, true};
ghost use Rattle.crew_net.specs.Events.{AreEvents, arrival_cmp, arrives_at};
ghost use Rattle.crew_net.specs.Nets as Nets;
ghost use Rattle.crew_net.specs.Ranks.{ranks_where};
ghost use Rattle.crew_pairing.specs.Events.{arrival_of, departure_of};
ghost use Rattle.crew_pairing.specs.declared.duty.Duty.{Duty};
ghost use Rattle.crew_pairing.specs.declared.events.Arrival.{Arrival};
ghost use Rattle.crew_pairing.specs.declared.events.Departure.{Departure};
ghost use Rattle.crew_ready.specs.Counts as Spec;
ghost use Rattle.crew_ready.specs.Counts.{AreBlockedUpTo, AreCounts, AreDoneBefore, AreUndoneUpTo, IsBlocked};

use crew_net::{Net, Window};
use std::alloc::{AllocError, Global};
use std::marker::Model;

/// Of each arrival of a network how many duties arrive there whose nodes at one base aren't done,
/// and of each departure how many arrivals of its window have such a duty.
pub struct Counts {
    undone: Vec<usize>,
    blocked: Vec<usize>,
}

impl Drop for Counts {
    fn drop(self) {
        let Self {
            undone: _,
            blocked: _,
        } = self;
    }
}

impl Model for Counts {
    ghost use Rattle.crew_ready.specs.Counts as Spec;

    ghost Value = { Spec.Counts };

    ghost view = { λ c. record { undone = c.undone.items; blocked = c.blocked.items } };
}

impl Counts {
    /// The counts of a network, where these nodes of a base are done, by rank.
    pub fn of(alloc: Global, net: &Net, done: &[bool]) -> Result<Counts, AllocError>
        ensures { IfOk result (AreCounts net.now done.now) }
    {
        let undone = undone_by_arrival(alloc, net, done)?;
        let blocked = blocked_by_departure(alloc, net, &undone)?;
        Ok(Counts { undone, blocked })
    }

    /// A node is done whose duty arrives at an arrival: answers whether it was the last there that
    /// wasn't, so that the departures that may follow are nearer to being ready.
    pub fn done(&mut self, net: &Net, arrival: usize) -> bool
        requires arrival { arrival < length net.now.arrivals }
        requires long { length self.old.undone ≡ length net.now.arrivals }
        requires long_blocked { length self.old.blocked ≡ length net.now.departures }
        ensures counts { (done : List Bool) (rank : ℕ) (d : Duty) → AreCounts net.now done self.old
            → AreEvents arrival_of arrival_cmp net.now.duties net.now.arrivals
            → slice_get net.now.duties rank ≡ Some d
            → slice_get net.now.arrivals arrival ≡ Some (arrival_of d)
            → rank < length done → get_or done rank false ≡ false
            → AreCounts net.now (slice_set done rank true) self.new }
        ensures last { IsTrue result ↔ (get_or self.new.undone arrival 0 ≡ 0) }
    {
        lower(&mut self.undone, arrival);
        let last = count_at(&self.undone, arrival) == 0;
        if last {
            lower_all(&mut self.blocked, net.followers(arrival));
        }
        last
    }

    /// Whether all that may stand just before the duties that leave at a departure is done.
    pub fn is_clear(&self, departure: usize) -> bool
        ensures { (net : Nets.Net) (done : List Bool) (d : Duty) → AreCounts net done self.now
            → AreEvents arrival_of arrival_cmp net.duties net.arrivals
            → slice_get net.departures departure ≡ Some (departure_of d)
            → (IsTrue result ↔ AreDoneBefore net done d) }
    {
        count_at(&self.blocked, departure) == 0
    }
}

// One less at a place.
fn lower(counts: &mut [usize], place: usize)
    requires { place < length counts.old }
    ensures { counts.new ≡ slice_set counts.old place (get_or counts.old place 0 - 1) }
{
    let count = counts[place].saturating_sub(1);
    counts[place] = count;
}

// One less at each place of a window.
fn lower_all(counts: &mut [usize], window: Window)
    requires ordered { window.from ≤ window.end }
    requires within { window.end ≤ length counts.old }
    ensures long { length counts.new ≡ length counts.old }
    ensures lowered { (k : ℕ) → window.from ≤ k → k < window.end
        → get_or counts.new k 0 ≡ get_or counts.old k 0 - 1 }
    ensures elsewhere { (k : ℕ) → (k < window.from) ⊎ (window.end ≤ k)
        → get_or counts.new k 0 ≡ get_or counts.old k 0 }
{
    for place in window.from..window.end {
        lower(counts, place);
    }
}

// The count at a place, and none past the end.
fn count_at(counts: &[usize], place: usize) -> usize
    ensures { result ≡ get_or counts.now place 0 }
{
    if place < counts.len() {
        return counts[place];
    }
    0
}

// Whether the node of a rank is done.
fn is_done(done: &[bool], rank: u32) -> bool
    ensures { result ≡ get_or done.now rank false }
{
    let rank = rank as usize;
    if rank < done.len() {
        return done[rank];
    }
    false
}

// How many of some ranks aren't done.
fn undone_of(ranks: &[u32], done: &[bool]) -> usize
    ensures { result ≡ Spec.undone_of done.now ranks.now }
{
    ranks.iter().filter(|rank| !is_done(done, **rank)).count()
}

// How many counts of a window aren't nought.
fn waiting_of(counts: &[usize], window: Window) -> usize
    requires ordered { window.from ≤ window.end }
    requires within { window.end ≤ length counts.now }
    ensures { result ≡ Spec.waiting_of counts.now window }
{
    counts[window.from..window.end]
        .iter()
        .filter(|count| **count > 0)
        .count()
}

// The count of an arrival.
fn undone_at(net: &Net, arrival: usize, done: &[bool]) -> usize
    requires { arrival < length net.now.arrivals }
    ensures { (x : Arrival) → slice_get net.now.arrivals arrival ≡ Some x
        → result ≡ Spec.undone_of done.now (ranks_where (arrives_at x) net.now.duties) }
{
    undone_of(net.arriving(arrival), done)
}

// The count of a departure.
fn blocked_at(net: &Net, departure: usize, undone: &[usize]) -> usize
    requires departure { departure < length net.now.departures }
    requires long { length undone.now ≡ length net.now.arrivals }
    ensures { (g : Departure) → slice_get net.now.departures departure ≡ Some g
        → IsBlocked net.now undone.now g result }
{
    waiting_of(undone, net.window(departure))
}

// The counts of all arrivals.
fn undone_by_arrival(alloc: Global, net: &Net, done: &[bool]) -> Result<Vec<usize>, AllocError>
    ensures long { IfOk result (λ counts. length counts.items ≡ length net.now.arrivals) }
    ensures undone { IfOk result (λ counts.
        AreUndoneUpTo net.now done.now (length net.now.arrivals) counts.items) }
{
    let mut counts = vec![in alloc; 0; net.arrivals().len()]?;
    for arrival in 0..net.arrivals().len() {
        let count = undone_at(net, arrival, done);
        counts[arrival] = count;
    }
    Ok(counts)
}

// The counts of all departures.
fn blocked_by_departure(
    alloc: Global,
    net: &Net,
    undone: &[usize],
) -> Result<Vec<usize>, AllocError>
    requires { length undone.now ≡ length net.now.arrivals }
    ensures long { IfOk result (λ counts. length counts.items ≡ length net.now.departures) }
    ensures blocked { IfOk result (λ counts.
        AreBlockedUpTo net.now undone.now (length net.now.departures) counts.items) }
{
    let mut counts = vec![in alloc; 0; net.departures().len()]?;
    for departure in 0..net.departures().len() {
        let count = blocked_at(net, departure, undone);
        counts[departure] = count;
    }
    Ok(counts)
}
