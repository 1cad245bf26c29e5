//! The marks of a round's nodes.
//!
//! Marks stand flat, by place, and counts by base: the least ready node and the least undone one
//! are the first of one set, and a mark is one read.
ghost use Rattle.std.specs.Prelude.{◌≡◌, ◌↔◌, ◌<◌, IfOk, IsTrue, MatchOption, false, filter, get_or, length, slice_get};
ghost use Rattle.std.specs.Arc.{arc_value};
ghost use Rattle.crew_round.specs.Marks as Spec;
ghost use Rattle.crew_round.specs.Marks.{AllDone, AreCarried, AreDoneBefore, IsCarriedTo, IsFirstReady, IsFirstUndone, IsMarked, IsReady, IsUndone, NoneReady, NoneReusable, Stores, is_done, is_out, node_count, with_mark};
ghost use Rattle.crew_round.specs.declared.mark.Mark.{Mark};
ghost use Rattle.crew_round.specs.declared.mark.Mark.TheVariants.{Done, Out, Waiting};

use crate::mark::Mark;
use crate::marking::Marking;
use crate::progress::Progress;
use crew_dirty::Carried;
use crew_net::Net;
use std::alloc::{AllocError, Global};
use std::marker::Model;
use std::sync::Arc;

/// What is known of each node of a round, by its place.
///
/// A contract sees the network, what is carried over to it, a mark for each node, and a flag: of a
/// done node whether its front is that of the version before. No waiting node's work is what it
/// was in that version: such nodes are done at once.
pub struct Marks {
    marking: Marking,
}

impl Drop for Marks {
    fn drop(self) {
        let Self { marking: _ } = self;
    }
}

impl Model for Marks {
    ghost use Rattle.crew_round.specs.Marks as Spec;

    ghost Value = { Spec.Marks };

    ghost view = { λ m. m.marking };

    ghost invariant = { λ m. Spec.NoneReusable m.marking };
}

impl Marks {
    /// The marks as a round begins: the nodes that no edit reaches are done, and the others wait.
    pub fn begin(
        alloc: Global,
        net: Arc<Net, Global>,
        carried: Carried,
    ) -> Result<Marks, AllocError>
        requires { IsCarriedTo (arc_value net) carried }
        ensures net { IfOk result (λ marks. marks.net ≡ arc_value net) }
        ensures carried { IfOk result (λ marks. marks.carried ≡ carried) }
        ensures marks { IfOk result AreCarried }
    {
        let marking = Marking::begin(alloc, net, carried)?;
        Ok(Marks { marking })
    }

    /// The network.
    pub fn net(&self) -> &Net
        ensures { result.now ≡ self.now.net }
    {
        self.marking.net()
    }

    /// How many nodes there are.
    pub fn len(&self) -> usize
        ensures nodes { result ≡ node_count self.now.net }
        ensures marks { result ≡ length self.now.marks }
        ensures same { result ≡ length self.now.same }
    {
        self.marking.len()
    }

    /// The mark of a place, and `None` where no node stands there.
    pub fn mark(&self, place: usize) -> Option<Mark>
        ensures { result ≡ slice_get self.now.marks place }
    {
        self.marking.mark(place)
    }

    /// Whether the node at a place is done, and has the front of the version before.
    pub fn is_same(&self, place: usize) -> bool
        ensures flag { result ≡ get_or self.now.same place false }
        ensures done { IsTrue result → IsMarked self.now place Done }
        ensures none_left { NoneReusable self.now }
    {
        self.marking.is_same(place)
    }

    /// Whether all nodes just before a place are done.
    pub fn is_clear(&self, place: usize) -> bool
        ensures clear { place < length self.now.marks
            → (IsTrue result ↔ AreDoneBefore self.now place) }
        ensures started { (mark : Mark) → IsMarked self.now place mark → (mark ≡ Waiting → ⊥)
            → AreDoneBefore self.now place }
    {
        self.marking.is_clear(place)
    }

    /// The least place of a ready node.
    pub fn first_ready(&self) -> Option<usize>
        ensures { MatchOption result (NoneReady self.now) (IsFirstReady self.now) }
    {
        self.marking.first_ready()
    }

    /// The least place of a node that isn't done.
    pub fn first_undone(&self) -> Option<usize>
        ensures { MatchOption result (AllDone self.now) (IsFirstUndone self.now) }
    {
        self.marking.first_undone()
    }

    /// The ready node at a place is out.
    pub fn claim(&mut self, place: usize)
        requires { IsReady self.old place }
        ensures { self.new ≡ with_mark self.old place Out }
    {
        self.marking.claim(place);
    }

    /// The node at a place that is out waits again.
    pub fn free(&mut self, place: usize)
        requires { IsMarked self.old place Out }
        ensures { self.new ≡ with_mark self.old place Waiting }
    {
        self.marking.free(place);
    }

    /// The node at a place is done, and so is each other whose work is now what it was, until none
    /// is left.
    pub fn store(&mut self, place: usize, same: bool)
        requires undone { IsUndone self.old place }
        requires clear { AreDoneBefore self.old place }
        ensures { Stores self.old place same self.new }
    {
        self.marking.put(place, same);
        while let Some(next) = self.marking.first_reusable() {
            self.marking.put(next, true);
        }
    }

    /// How many nodes there are, are done, and are out.
    pub fn progress(&self) -> Progress
        ensures nodes { result.nodes ≡ length self.now.marks }
        ensures done { result.done ≡ length (filter is_done self.now.marks) }
        ensures out { result.out ≡ length (filter is_out self.now.marks) }
    {
        self.marking.progress()
    }
}
