//! Marks of nodes while they are made.
ghost use Rattle.std.specs.Prelude.{◌≡◌, ◌↔◌, ◌<◌, ◌≤◌, IfOk, IsTrue, MatchOption, false, filter, get_or, length, slice_get};
ghost use Rattle.std.specs.Arc.{arc_value};
ghost use Rattle.crew_round.specs.Machinery.Held.{AreKept};
ghost use Rattle.crew_round.specs.Marks.{AllDone, AreCarried, AreDoneBefore, IsCarriedTo, IsFirstReady, IsFirstUndone, IsMarked, IsReady, IsReusable, IsUndone, NoneReady, NoneReusable, is_done, is_out, marked, node_count, with_mark};
ghost use Rattle.crew_round.specs.declared.mark.Mark.{Mark};
ghost use Rattle.crew_round.specs.declared.mark.Mark.TheVariants.{Done, Out, Waiting};

use crate::cells::{Cells, cells_of, is_waiting};
use crate::line::Line;
use crate::mark::Mark;
use crate::progress::Progress;
use crate::spot::spot_at;
use crew_dirty::Carried;
use crew_net::{Net, arrival_places};
use std::alloc::{AllocError, Global};
use std::marker::Model;
use std::sync::Arc;

/// What is known of each node of a round, while nodes may be left whose work is what it was.
#[derive(Drop)]
pub(crate) struct Marking {
    net: Arc<Net, Global>,
    carried: Carried,
    cells: Cells,
    same: Vec<bool>,
    arrivals: Vec<u32>,
    ready: Line,
    reusable: Line,
}

impl Model for Marking {
    ghost use Rattle.crew_round.specs.Marks as Spec;

    ghost Value = { Spec.Marks };

    ghost use Rattle.crew_round.specs.Machinery.Held.{AreHeld};

    ghost view = { λ m. record {
      net = m.net.value;
      carried = m.carried;
      marks = m.cells;
      same = m.same.items;
    } };

    ghost invariant = { λ m. AreHeld (record {
      net = m.net.value;
      carried = m.carried;
      marks = m.cells;
      same = m.same.items;
    }) m.arrivals.items m.ready m.reusable };
}

// By place, whether a node isn't reached.
fn kept_nodes(alloc: Global, net: &Net, carried: &Carried) -> Result<Vec<bool>, AllocError>
    ensures flags { IfOk result (λ flags. AreKept net.now carried.now flags.items) }
    ensures few { node_count net.now ≤ 4_294_967_295 }
{
    let _bases = net.base_count();
    let count = net.duty_count();
    let nodes = net.len();
    let mut kept = Vec::with_capacity(alloc, nodes)?;
    for place in 0..nodes {
        kept.push(carried.is_kept_at(place / count, place % count))?;
    }
    Ok(kept)
}

impl Marking {
    /// The marks as a round begins.
    pub(crate) fn begin(
        alloc: Global,
        net: Arc<Net, Global>,
        carried: Carried,
    ) -> Result<Marking, AllocError>
        requires { IsCarriedTo (arc_value net) carried }
        ensures net { IfOk result (λ marks. marks.net ≡ arc_value net) }
        ensures carried { IfOk result (λ marks. marks.carried ≡ carried) }
        ensures marks { IfOk result AreCarried }
    {
        let nodes: &Net = &net;
        let arrivals = arrival_places(alloc, nodes)?;
        let same = kept_nodes(alloc, nodes, &carried)?;
        let kept: &[bool] = &same;
        let cells = cells_of(alloc, kept)?;
        let ready = Line::of(alloc, nodes, &carried, &cells, kept, true)?;
        let reusable = Line::of(alloc, nodes, &carried, &cells, kept, false)?;
        Ok(Marking {
            net,
            carried,
            cells,
            same,
            arrivals,
            ready,
            reusable,
        })
    }

    /// The network.
    pub(crate) fn net(&self) -> &Net
        ensures { result.now ≡ self.now.net }
    {
        &self.net
    }

    /// How many nodes there are.
    pub(crate) fn len(&self) -> usize
        ensures nodes { result ≡ node_count self.now.net }
        ensures marks { result ≡ length self.now.marks }
        ensures same { result ≡ length self.now.same }
    {
        self.cells.len()
    }

    /// The mark of a place, and `None` where no node stands there.
    pub(crate) fn mark(&self, place: usize) -> Option<Mark>
        ensures { result ≡ slice_get self.now.marks place }
    {
        self.cells.get(place)
    }

    /// Whether the node at a place is done, and has the front of the version before.
    pub(crate) fn is_same(&self, place: usize) -> bool
        ensures flag { result ≡ get_or self.now.same place false }
        ensures done { IsTrue result → IsMarked self.now place Done }
    {
        if place < self.same.len() {
            return self.same[place];
        }
        false
    }

    /// Whether all nodes just before a place are done.
    pub(crate) fn is_clear(&self, place: usize) -> bool
        ensures clear { place < length self.now.marks
            → (IsTrue result ↔ AreDoneBefore self.now place) }
        ensures started { (mark : Mark) → IsMarked self.now place mark → (mark ≡ Waiting → ⊥)
            → AreDoneBefore self.now place }
    {
        let waits = is_waiting(self.cells.get(place));
        !waits | self.ready.set.contains(place)
    }

    /// The least place of a ready node.
    pub(crate) fn first_ready(&self) -> Option<usize>
        ensures { MatchOption result (NoneReady self.now) (IsFirstReady self.now) }
    {
        self.ready.set.first()
    }

    /// The least place of a waiting node whose work is what it was.
    pub(crate) fn first_reusable(&self) -> Option<usize>
        ensures { MatchOption result (NoneReusable self.now)
            (λ place. IsReusable self.now place × AreDoneBefore self.now place) }
    {
        self.reusable.set.first()
    }

    /// The least place of a node that isn't done.
    pub(crate) fn first_undone(&self) -> Option<usize>
        ensures { MatchOption result (AllDone self.now) (IsFirstUndone self.now) }
    {
        self.cells.first_undone()
    }

    /// The ready node at a place is out.
    pub(crate) fn claim(&mut self, place: usize)
        requires ready { IsReady self.old place }
        requires other { IsReusable self.old place → ⊥ }
        ensures { self.new ≡ with_mark self.old place Out }
    {
        let _bases = self.net.base_count();
        let _duties = self.net.duty_count();
        self.cells.set(place, Mark::Out);
        self.ready.set.set(place, false);
        self.reusable.set.set(place, false);
    }

    /// The node at a place that is out waits again.
    pub(crate) fn free(&mut self, place: usize)
        requires { IsMarked self.old place Out }
        ensures marks { self.new ≡ with_mark self.old place Waiting }
        ensures other { IsReusable self.new place → ⊥ }
    {
        let _bases = self.net.base_count();
        let _duties = self.net.duty_count();
        self.cells.set(place, Mark::Waiting);
        self.ready.set.set(place, true);
    }

    /// The node at a place is done.
    pub(crate) fn put(&mut self, place: usize, same: bool)
        requires undone { IsUndone self.old place }
        requires clear { AreDoneBefore self.old place }
        ensures { self.new ≡ marked self.old place same }
    {
        let net: &Net = &self.net;
        let _bases = net.base_count();
        let _duties = net.duty_count();
        let spot = spot_at(net, &self.arrivals, place);
        self.cells.set(place, Mark::Done);
        self.same[place] = same;
        self.ready.pass(net, &self.carried, &self.cells, spot, true);
        self.reusable
            .pass(net, &self.carried, &self.cells, spot, same);
    }

    /// How many nodes there are, are done, and are out.
    pub(crate) fn progress(&self) -> Progress
        ensures nodes { result.nodes ≡ length self.now.marks }
        ensures done { result.done ≡ length (filter is_done self.now.marks) }
        ensures out { result.out ≡ length (filter is_out self.now.marks) }
    {
        self.cells.progress()
    }
}
