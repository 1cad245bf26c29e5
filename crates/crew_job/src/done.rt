//! What is done.
ghost use Rattle.std.specs.Arc.{arc_value};
ghost use Rattle.std.specs.Prelude.{◌≡◌, ◌↔◌, IfOk, IsTrue, Some};
ghost use Rattle.crew_job.specs.Grounds.{data_of};
ghost use Rattle.crew_job.specs.Jobs.{IsJobOf, job_node};
ghost use Rattle.crew_job.specs.Shown.{IsAsSealed, IsLeftOf, ShowsFrontOf};
ghost use Rattle.crew_machine.specs.Crew.{DutyNode, DutyWork, IsFrontOf, IsLocalOf};
ghost use Rattle.crew_version.specs.crew_plan.Plans.{AreFrontsIn};

use crate::job::Job;
use crate::left::Left;
use crew_version::crew_fronts::{BaseFronts, FrontView};
use std::alloc::{AllocError, Global};
use std::marker::Model;
use std::sync::Arc;

/// A job that is done, with the sweep of its base, which shows its front.
///
/// A contract sees the job.
pub struct Done {
    job: Job,
    sweep: Arc<BaseFronts, Global>,
    // Whether the version that was sealed last has the node with the same front.
    kept: bool,
}

impl Drop for Done {
    fn drop(self) {
        let Self {
            job: _,
            sweep: _,
            kept: _,
        } = self;
    }
}

impl Model for Done {
    ghost use Rattle.crew_job.specs.Jobs as Spec;
    ghost use Rattle.crew_job.specs.Machinery.Held.{IsSwept, TellsKept};

    ghost Value = { Spec.Job };

    ghost view = { λ d. d.job };

    ghost invariant = { λ d. IsSwept d.job d.sweep.value × TellsKept d.job d.kept };
}

/// Does a job: its base's sweep shows its front, that which the job has, or where it has none a
/// new one.
pub fn work(alloc: Global, job: &Job) -> Result<Done, AllocError>
    ensures { IfOk result (λ done. done ≡ job.now) }
{
    let sweep = job.sweep_of(alloc)?;
    done_by(job, sweep, &mut None)
}

// What is done of a job by its base's sweep, with what is known of the departure that was looked at
// last. Whether the node's front is as it was is found out here, by whoever works, so that nobody has
// to look at fronts when the result is brought.
pub(crate) fn done_by(
    job: &Job,
    sweep: Arc<BaseFronts, Global>,
    left: &mut Option<Left>,
) -> Result<Done, AllocError>
    requires sweep { AreFrontsIn job.now.ground.plan job.now.base (arc_value sweep) }
    requires left { IsLeftOf job.now.ground left.old }
    ensures done { IfOk result (λ done. done ≡ job.now) }
    ensures left { IsLeftOf job.now.ground left.new }
{
    let kept = job.is_kept(&sweep, left);
    let job = job.copy()?;
    Ok(Done { job, sweep, kept })
}

impl Done {
    /// The job.
    pub fn job(&self) -> &Job
        ensures { result.now ≡ self.now }
    {
        &self.job
    }

    /// The job's front, lent: what its work leaves, in order of vector. It takes no memory.
    pub fn front(&self) -> FrontView<'_>
        ensures local { (work : DutyWork) → IsJobOf self.now work → IsLocalOf work result }
        ensures front { (n : DutyNode) → job_node self.now ≡ Some n
            → IsFrontOf self.now.ground.settings (data_of self.now.ground) n result }
    {
        self.sweep.front(self.job.rank())
    }

    /// Whether the version that was sealed last before the job's round has the node with this very
    /// front.
    pub fn is_kept(&self) -> bool
        ensures { (n : DutyNode) → job_node self.now ≡ Some n
            → (IsTrue result ↔ IsAsSealed self.now.ground n) }
    {
        self.kept
    }

    /// The sweep of the job's base.
    pub fn sweep(&self) -> &Arc<BaseFronts, Global>
        ensures swept { AreFrontsIn self.now.ground.plan self.now.base (arc_value result.now) }
        ensures shown { (n : DutyNode) → job_node self.now ≡ Some n
            → ShowsFrontOf self.now.ground.settings (data_of self.now.ground) n
            (arc_value result.now) }
    {
        &self.sweep
    }

    /// The sweep of the job's base, where nothing else of what is done is wanted any more.
    pub fn into_sweep(self) -> Arc<BaseFronts, Global>
        ensures swept { AreFrontsIn self.ground.plan self.base (arc_value result) }
        ensures shown { (n : DutyNode) → job_node self ≡ Some n
            → ShowsFrontOf self.ground.settings (data_of self.ground) n (arc_value result) }
    {
        let Self {
            job: _,
            sweep,
            kept: _,
        } = self;
        sweep
    }
}
