//! What is done.
ghost use Rattle.std.specs.Prelude.{◌≡◌, List};
ghost use Rattle.crew_pairing.specs.Legs.{Leg};
ghost use Rattle.crew_resource.specs.Members.{Member};
ghost use Rattle.crew_vector.specs.Fronts.{RiseByVector};
ghost use Rattle.crew_vector.specs.Locals.{IsLocalAt};

use crate::job::Job;
use crew_front::Front;
use crew_pairing::{PairingVector, Walk};
use crew_vector::VectorResource;
use std::marker::Model;

/// A job that is done, with its front: exactly the undominated of its candidates, each vector with
/// its least walk, in order of vector.
///
/// A contract sees the job and the entries.
#[derive(Drop)]
pub struct Done {
    job: Job,
    front: Front<VectorResource>,
}

impl Model for Done {
    ghost use Rattle.crew_step.specs.Jobs.{Done, IsDone};

    ghost Value = { Done };

    ghost view = { λ d. record { job = d.job; front = d.front } };

    ghost invariant = { λ d. IsDone (record { job = d.job; front = d.front }) };
}

impl Done {
    ghost use Rattle.crew_step.specs.Jobs.{IsDone, IsValueAt};

    // A job with its front.
    pub(crate) fn new(job: Job, front: Front<VectorResource>) -> Self
        requires { IsDone (record { job = job; front = front }) }
        ensures { result ≡ record { job = job; front = front } }
    {
        Done { job, front }
    }

    /// The job.
    pub fn job(&self) -> &Job
        ensures { result.now ≡ self.now.job }
    {
        &self.job
    }

    /// The job's front.
    pub fn front(&self) -> &Front<VectorResource>
        ensures same { result.now ≡ self.now.front }
        ensures local { IsLocalAt self.now.job.settings self.now.job.base self.now.job.base_price
            self.now.job.duty self.now.job.feed self.now.front }
        ensures rises { RiseByVector self.now.front }
        ensures values { (v : PairingVector) (w : List (List Leg)) → Member self.now.front (v, w)
            → IsValueAt self.now.job.settings self.now.job.base_price self.now.job.duty v w }
    {
        &self.front
    }

    /// The job and its front.
    pub fn into_parts(self) -> (Job, Front<VectorResource>)
        ensures same { (result.0 ≡ self.job) × (result.1 ≡ self.front) }
        ensures local { IsLocalAt self.job.settings self.job.base self.job.base_price self.job.duty
            self.job.feed self.front }
        ensures rises { RiseByVector self.front }
        ensures values { (v : PairingVector) (w : List (List Leg)) → Member self.front (v, w)
            → IsValueAt self.job.settings self.job.base_price self.job.duty v w }
    {
        (self.job, self.front)
    }
}
