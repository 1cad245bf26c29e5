//! Lots that are done.
ghost use Rattle.std.specs.Prelude.{◌≡◌, [], IfOk, IfSome, MatchOption, length};
ghost use Rattle.std.specs.Arc.{arc_value};
ghost use Rattle.crew_job.specs.Lots.{IsLot, StandOn};
ghost use Rattle.crew_version.specs.crew_plan.Plans.{AreFrontsIn};

use crate::done::{Done, done_by};
use crate::ground::Ground;
use crate::job::Job;
use crate::lot::Lot;
use crew_version::crew_fronts::BaseFronts;
use std::alloc::{AllocError, Global};
use std::marker::Model;
use std::sync::Arc;

/// The jobs of a lot, done, in order.
///
/// A contract sees the list of the jobs.
pub struct DoneLot {
    results: Vec<Done>,
}

impl Drop for DoneLot {
    fn drop(self) {
        let Self { results: _ } = self;
    }
}

impl Model for DoneLot {
    ghost use Rattle.std.specs.Prelude.{List};
    ghost use Rattle.crew_job.specs.Jobs as Spec;
    ghost use Rattle.crew_job.specs.Lots.{IsLot};

    ghost Value = { List Spec.Job };

    ghost view = { λ d. d.results.items };

    ghost invariant = { λ d. IsLot d.results.items };
}

// The sweep of a job's base that the last of some results for this base has, where there is one.
fn swept_before<'a>(results: &'a [Done], job: &Job) -> Option<&'a Arc<BaseFronts, Global>>
    requires { StandOn job.now.ground results.now }
    ensures { IfSome result
        (λ sweep. AreFrontsIn job.now.ground.plan job.now.base (arc_value sweep.now)) }
{
    let base = job.base();
    for k in (0..results.len()).rev() {
        let done = &results[k];
        if done.job().base() == base {
            return Some(done.sweep());
        }
    }
    None
}

// The sweep of a job's base: the job's, or that of results on the same ground, or else a new one.
fn sweep_beside(
    alloc: Global,
    job: &Job,
    results: &[Done],
) -> Result<Arc<BaseFronts, Global>, AllocError>
    requires { StandOn job.now.ground results.now }
    ensures { IfOk result
        (λ sweep. AreFrontsIn job.now.ground.plan job.now.base (arc_value sweep)) }
{
    if job.sweep().is_none() {
        if let Some(sweep) = swept_before(results, job) {
            return Arc::try_clone(sweep);
        }
    }
    job.sweep_of(alloc)
}

/// Does the jobs of a lot in order, as `work` does each, with one new sweep for each base at most.
/// With no memory nothing is done, and the lot is still there.
pub fn work_lot(alloc: Global, lot: &Lot) -> Result<DoneLot, AllocError>
    ensures { IfOk result (λ done. done ≡ lot.now) }
{
    let jobs = lot.jobs();
    let mut results = Vec::with_capacity(alloc, jobs.len())?;
    let mut left = None;
    for job in jobs {
        let sweep = sweep_beside(alloc, job, &results)?;
        results.push(done_by(job, sweep, &mut left)?)?;
    }
    Ok(DoneLot { results })
}

impl DoneLot {
    /// How many jobs are done.
    pub fn len(&self) -> usize
        ensures { result ≡ length self.now }
    {
        self.results.len()
    }

    /// The ground on which the jobs stand; `None` where there is no job.
    pub fn ground(&self) -> Option<&Ground>
        ensures { MatchOption result (self.now ≡ []) (λ g. StandOn g.now self.now) }
    {
        let results = self.results();
        if results.is_empty() {
            return None;
        }
        Some(results[0].job().ground())
    }

    /// What is done of each job, in order.
    pub fn results(&self) -> &[Done]
        ensures results { result.now ≡ self.now }
        ensures lot { IsLot self.now }
    {
        self.results.as_slice()
    }

    /// What is done of each job, in order, given away.
    pub fn into_results(self) -> Vec<Done>
        ensures results { result.items ≡ self }
        ensures lot { IsLot self }
    {
        let Self { results } = self;
        results
    }
}
