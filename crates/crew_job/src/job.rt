//! Jobs.
//!
//! A job holds no front, but the ground of its round, two places and its base's sweep where one
//! stands: the fronts before its node follow from the ground, since a node has one in a timetable.
//! So a claim copies nothing, and what is done is the sweep of the whole base.
ghost use Rattle.std.specs.Arc.{arc_value};
ghost use Rattle.std.specs.Option.{option_copied, option_map};
ghost use Rattle.std.specs.Prelude.{◌≡◌, ◌<◌, IfOk, IfSome, Some, length, slice_get};
ghost use Rattle.crew_job.specs.Grounds.{data_of, node_at, nodes_in};
ghost use Rattle.crew_job.specs.Jobs.{job_node};
ghost use Rattle.crew_job.specs.Shown.{AreReadable};
ghost use Rattle.crew_version.specs.crew_plan.Plans.{AreFrontsIn};

use crate::ground::Ground;
use crate::places::place_in;
use crew_flights::Code;
use crew_pairing::Duty;
use crew_version::crew_fronts::BaseFronts;
use std::alloc::{AllocError, Global};
use std::marker::Model;
use std::sync::Arc;

/// A job: a node of a ground. It stands for the work on the node: the node's own inputs, and each
/// node just before it with its front.
///
/// A contract sees the ground, the place of the node's base, and the rank of its duty. The fronts
/// before it can be read without memory: from its base's sweep, which the job has where one stands,
/// or from the version that was sealed last.
pub struct Job {
    ground: Arc<Ground, Global>,
    base: usize,
    rank: usize,
    sweep: Option<Arc<BaseFronts, Global>>,
}

impl Drop for Job {
    fn drop(self) {
        let Self {
            ground: _,
            base: _,
            rank: _,
            sweep: _,
        } = self;
    }
}

impl Model for Job {
    ghost use Rattle.std.specs.Option.{option_map};
    ghost use Rattle.crew_job.specs.Jobs as Spec;
    ghost use Rattle.crew_job.specs.Machinery.Held.{IsHeld};

    ghost Value = { Spec.Job };

    ghost view = { λ j. record { ground = j.ground.value; base = j.base; rank = j.rank } };

    ghost invariant = { λ j. IsHeld (record {
      ground = j.ground.value;
      base = j.base;
      rank = j.rank;
    }) (option_map (λ a. a.value) j.sweep) };
}

impl Job {
    ghost use Rattle.crew_job.specs.Grounds.{IsGround};
    ghost use Rattle.crew_job.specs.Jobs.{IsPlaced};

    /// The job of a node of a ground, with its base's sweep, where one stands. Without one the
    /// version that was sealed last has each node just before with the same front.
    pub fn new(
        ground: Arc<Ground, Global>,
        base: usize,
        rank: usize,
        sweep: Option<Arc<BaseFronts, Global>>,
    ) -> Job
        requires base { base < length (arc_value ground).plan.net.bases }
        requires rank { rank < length (arc_value ground).plan.net.duties }
        requires readable { AreReadable (arc_value ground) base rank (option_map arc_value sweep) }
        ensures { result ≡ record { ground = arc_value ground; base = base; rank = rank } }
    {
        let _number = ground.number();
        Job {
            ground,
            base,
            rank,
            sweep,
        }
    }

    /// The ground.
    pub fn ground(&self) -> &Ground
        ensures value { result.now ≡ self.now.ground }
        ensures ground { IsGround self.now.ground }
        ensures placed { IsPlaced self.now }
    {
        &self.ground
    }

    /// The place of the node's base in the ground's network.
    pub fn base(&self) -> usize
        ensures value { result ≡ self.now.base }
        ensures placed { IsPlaced self.now }
    {
        self.base
    }

    /// The rank of the node's duty in the ground's network.
    pub fn rank(&self) -> usize
        ensures value { result ≡ self.now.rank }
        ensures placed { IsPlaced self.now }
    {
        self.rank
    }

    /// The node's base.
    pub fn code(&self) -> Code
        ensures code { slice_get self.now.ground.plan.net.bases self.now.base ≡ Some result }
        ensures placed { IsPlaced self.now }
    {
        self.ground.net().bases()[self.base]
    }

    /// The node's duty.
    pub fn duty(&self) -> &Duty
        ensures duty { slice_get self.now.ground.plan.net.duties self.now.rank ≡ Some result.now }
        ensures placed { IsPlaced self.now }
    {
        self.ground.net().duty(self.rank)
    }

    /// The place of the node in the ground's network, in node order.
    pub fn place(&self) -> usize
        ensures place { slice_get (nodes_in self.now.ground.plan.net) result ≡ job_node self.now }
        ensures placed { IsPlaced self.now }
    {
        place_in(self.ground.net(), self.base, self.rank)
    }

    // The sweep of the base: the job's, or where it has none a new one.
    pub(crate) fn sweep_of(&self, alloc: Global) -> Result<Arc<BaseFronts, Global>, AllocError>
        ensures swept { IfOk result (λ sweep.
            AreFrontsIn self.now.ground.plan self.now.base (arc_value sweep)) }
        ensures placed { IsPlaced self.now }
        ensures ground { IsGround self.now.ground }
    {
        match &self.sweep {
            Some(sweep) => Arc::try_clone(sweep),
            None => self.ground.sweep(alloc, self.base),
        }
    }

    // The sweep of the base, where the job has one.
    pub(crate) fn sweep(&self) -> Option<&BaseFronts>
        ensures { AreReadable self.now.ground self.now.base self.now.rank (option_copied result) }
    {
        match &self.sweep {
            Some(sweep) => Some(&**sweep),
            None => None,
        }
    }

    /// An equal job, which shares all that this one holds.
    pub fn copy(&self) -> Result<Job, AllocError>
        ensures { IfOk result (λ job. job ≡ self.now) }
    {
        let sweep = match &self.sweep {
            Some(sweep) => Some(Arc::try_clone(sweep)?),
            None => None,
        };
        Ok(Job {
            ground: Arc::try_clone(&self.ground)?,
            base: self.base,
            rank: self.rank,
            sweep,
        })
    }
}
