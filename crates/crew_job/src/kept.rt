//! Nodes of a ground that a job, or the version that was sealed last, has too.
ghost use Rattle.std.specs.Prelude.{◌≡◌, ◌↔◌, ℕ, IsTrue, MatchOption, Some, slice_get};
ghost use Rattle.crew_job.specs.Grounds.{nodes_in};
ghost use Rattle.crew_job.specs.Jobs.{IsKeptAt, job_node};
ghost use Rattle.crew_machine.specs.Crew.{IsFrontOf, IsNodeOf};
ghost use Rattle.crew_version.specs.Versions.{timetable_of};

use crate::before::duty_rank;
use crate::fronts::is_same_front;
use crate::ground::Ground;
use crate::job::Job;
use crate::places::{base_place, node_in, place_in};
use crate::shown::sealed_front;
use crew_flights::Code;
use crew_pairing::Duty;
use crew_version::Version;
use crew_version::crew_fronts::FrontView;

/// Whether a base and a duty are a node of a version.
pub(crate) fn has_node(sealed: &Version, code: Code, duty: &Duty) -> bool
    ensures { IsTrue result ↔ IsNodeOf sealed.now.settings (timetable_of sealed.now.entries)
        (record { base = code; duty = duty.now }) }
{
    let _settings = sealed.settings();
    match sealed.solution() {
        Some(solution) => {
            let net = solution.net();
            base_place(net.bases(), code).is_some() & duty_rank(net, duty).is_some()
        }
        None => false,
    }
}

// Whether a base and a duty are a node of a version, with this very front.
fn has_front(sealed: &Version, code: Code, duty: &Duty, front: &FrontView<'_>) -> bool
    ensures { IsTrue result ↔ (IsNodeOf sealed.now.settings (timetable_of sealed.now.entries)
        (record { base = code; duty = duty.now })
        × IsFrontOf sealed.now.settings (timetable_of sealed.now.entries)
        (record { base = code; duty = duty.now }) front.now) }
{
    let _settings = sealed.settings();
    has_node(sealed, code, duty) && is_same_front(&sealed_front(sealed, code, duty), front)
}

impl Ground {
    /// The place of a job's node, in node order: that of its base's code and its duty with all facts;
    /// `None` where the ground has no such node. It takes no memory.
    pub fn place_of(&self, job: &Job) -> Option<usize>
        ensures { MatchOption result ((place : ℕ) → slice_get (nodes_in self.now.plan.net) place
            ≡ job_node job.now → ⊥) (λ place. slice_get (nodes_in self.now.plan.net) place
            ≡ job_node job.now) }
    {
        let net = self.net();
        let base = base_place(net.bases(), job.code())?;
        let rank = duty_rank(net, job.duty())?;
        Some(place_in(net, base, rank))
    }

    /// Whether the version that was sealed last has the node at a place, with this very front. It
    /// takes no memory.
    pub fn has_kept(&self, place: usize, front: &FrontView<'_>) -> bool
        ensures { IsTrue result ↔ IsKeptAt self.now place front.now }
    {
        let net = self.net();
        let Some((base, rank)) = node_in(net, place) else {
            return false;
        };
        let duty = net.duty(rank);
        has_front(self.sealed(), net.bases()[base], duty, front)
    }
}
