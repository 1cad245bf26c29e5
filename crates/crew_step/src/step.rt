//! The work.
ghost use Rattle.std.specs.Prelude.{◌≡◌, IfOk};
ghost use Rattle.crew_pairing.specs.Local.{IsLocalOf};
ghost use Rattle.crew_step.specs.Jobs.{IsDone};
ghost use Rattle.crew_step.specs.Machinery.Candidates.{openings};

use crate::done::Done;
use crate::job::Job;
use crate::offers::{offer_feed, offer_opening};
use crew_front::Front;
use crew_pairing::Duty;
use crew_resource::{Resource, Staged};
use crew_vector::VectorResource;
use std::alloc::{AllocError, Global};

/// The front of a job: exactly the undominated of the opening and of all extensions of the entries
/// before, each vector with its least walk, in order of vector.
pub fn work(alloc: Global, job: &Job) -> Result<Done, AllocError>
    ensures job { IfOk result (λ done. done.job ≡ job.now) }
    ensures done { IfOk result (λ done. IsDone done) }
{
    let front = front_of(alloc, job)?;
    Ok(Done::new(job.copy()?, front))
}

// The front of a job.
fn front_of(alloc: Global, job: &Job) -> Result<Front<VectorResource>, AllocError>
    ensures { IfOk result (λ front. IsDone (record { job = job.now; front = front })) }
{
    let resource = VectorResource::new(job.settings(), job.base_price());
    let mut front = opened(alloc, job, &resource)?;
    let feed = job.feed().predecessors();
    offer_feed(alloc, &mut front, &resource, feed, job.duty())?;
    front.as_slice();
    Ok(front)
}

// What the duty alone leaves, where it leaves the base.
fn opened(
    alloc: Global,
    job: &Job,
    resource: &VectorResource,
) -> Result<Front<VectorResource>, AllocError>
    requires { ⟦<VectorResource as Staged<Duty>>⟧.fits resource.now 1 }
    ensures { IfOk result (IsLocalOf ⟦<VectorResource as Resource>⟧.below
        (openings (⟦<VectorResource as Resource>⟧.opens resource.now) job.now.base
        job.now.duty)) }
{
    let mut front = Front::new(alloc, *resource);
    if job.is_opening() {
        offer_opening(alloc, &mut front, resource, job.duty())?;
    }
    Ok(front)
}
