//! Lots of jobs.
//!
//! To compare two grounds takes tens of microseconds, a node's work less than one, and there is no
//! comparison of two owners by address: so jobs of one ground go together, and it is compared once
//! a call.
ghost use Rattle.std.specs.Prelude.{◌≡◌, ◌++◌, ◌∷◌, [], IfOk, List, MatchOption, OnErr, OnOk, length};
ghost use Rattle.crew_job.specs.Lots.{IsLot, StandOn};

use crate::ground::Ground;
use crate::job::Job;
use std::alloc::{AllocError, Global};
use std::marker::Model;

/// Jobs that stand on one ground, in the order in which they were handed out.
///
/// A contract sees the list of the jobs.
pub struct Lot {
    jobs: Vec<Job>,
}

impl Drop for Lot {
    fn drop(self) {
        let Self { jobs: _ } = self;
    }
}

impl Model for Lot {
    ghost use Rattle.std.specs.Prelude.{List};
    ghost use Rattle.crew_job.specs.Jobs as Spec;
    ghost use Rattle.crew_job.specs.Lots.{IsLot};

    ghost Value = { List Spec.Job };

    ghost view = { λ l. l.jobs.items };

    ghost invariant = { λ l. IsLot l.jobs.items };
}

impl Lot {
    /// A lot without jobs. It takes no memory.
    pub fn new(alloc: Global) -> Lot
        ensures { result ≡ [] }
    {
        Lot {
            jobs: Vec::new(alloc),
        }
    }

    /// The jobs, in order.
    pub fn jobs(&self) -> &[Job]
        ensures jobs { result.now ≡ self.now }
        ensures lot { IsLot self.now }
    {
        self.jobs.as_slice()
    }

    /// How many jobs there are.
    pub fn len(&self) -> usize
        ensures { result ≡ length self.now }
    {
        self.jobs.len()
    }

    /// The ground on which the jobs stand; `None` where there is no job.
    pub fn ground(&self) -> Option<&Ground>
        ensures { MatchOption result (self.now ≡ []) (λ g. StandOn g.now self.now) }
    {
        ground_of(self.jobs())
    }

    /// Puts a job at the end, which stands on the ground of the others. With no memory the lot is
    /// left as it was.
    pub fn push(&mut self, job: Job) -> Result<(), AllocError>
        requires { StandOn job.ground self.old }
        ensures ok { OnOk result (self.new ≡ self.old ++ job ∷ []) }
        ensures err { OnErr result (self.new ≡ self.old) }
    {
        self.jobs.push(job)?;
        Ok(())
    }
}

// The ground of the first of some jobs that stand on one.
fn ground_of(jobs: &[Job]) -> Option<&Ground>
    requires { IsLot jobs.now }
    ensures { MatchOption result (jobs.now ≡ []) (λ g. StandOn g.now jobs.now) }
{
    if jobs.is_empty() {
        return None;
    }
    Some(jobs[0].ground())
}
