//! Fronts that are read where they stand.
ghost use Rattle.std.specs.Option.{option_copied};
ghost use Rattle.std.specs.Prelude.{◌≡◌, Some};
ghost use Rattle.crew_job.specs.Grounds.{data_of};
ghost use Rattle.crew_job.specs.Jobs.{job_node};
ghost use Rattle.crew_job.specs.Shown.{IsShown};
ghost use Rattle.crew_machine.specs.Crew.{DutyNode, IsFrontOf, IsNodeOf, crew};
ghost use Rattle.crew_machine.specs.Worlds.{IsBefore};
ghost use Rattle.crew_resource.specs.Members.{Member};
ghost use Rattle.crew_version.specs.crew_fronts.Fronts.{front_at};
ghost use Rattle.crew_version.specs.Versions.{timetable_of};

use crate::ground::Ground;
use crate::job::Job;
use crew_flights::Code;
use crew_pairing::Duty;
use crew_version::Version;
use crew_version::crew_fronts::{BaseFronts, FrontView};

/// The front that a sweep shows of a duty of its network.
pub(crate) fn swept_front<'a>(fronts: &'a BaseFronts, duty: &Duty) -> FrontView<'a>
    requires { Member fronts.now.net.duties duty.now }
    ensures { result ≡ front_at fronts.now duty.now }
{
    let net = fronts.net();
    let _count = net.duty_count();
    match net.rank_of_key(&duty.key) {
        Some(rank) => fronts.front(rank),
        None => unreachable!(),
    }
}

/// The front that a version has of a base and a duty that are a node of its.
pub(crate) fn sealed_front<'a>(sealed: &'a Version, base: Code, duty: &Duty) -> FrontView<'a>
    requires { IsNodeOf sealed.now.settings (timetable_of sealed.now.entries)
        (record { base = base; duty = duty.now }) }
    ensures { IsFrontOf sealed.now.settings (timetable_of sealed.now.entries)
        (record { base = base; duty = duty.now }) result }
{
    let _number = sealed.number();
    match sealed.front(base, &duty.key) {
        Some(front) => front,
        None => unreachable!(),
    }
}

/// The front of the node of a job's base and a duty just before its own.
pub(crate) fn front_before<'a>(job: &'a Job, base: Code, duty: &Duty) -> FrontView<'a>
    requires { (n : DutyNode) → job_node job.now ≡ Some n → IsBefore
        (crew job.now.ground.settings) (data_of job.now.ground)
        (record { base = base; duty = duty.now }) n }
    ensures { IsFrontOf job.now.ground.settings (data_of job.now.ground)
        (record { base = base; duty = duty.now }) result }
{
    let ground = job.ground();
    match job.sweep() {
        Some(sweep) => swept_front(sweep, duty),
        None => sealed_front(ground.sealed(), base, duty),
    }
}

/// The front of the node of a base and a duty in a ground, where what shows it is right.
pub(crate) fn shown_front<'a>(
    ground: &'a Ground,
    shown: Option<&'a BaseFronts>,
    base: Code,
    duty: &Duty,
) -> FrontView<'a>
    requires { IsShown ground.now (record { base = base; duty = duty.now })
        (option_copied shown) }
    ensures { IsFrontOf ground.now.settings (data_of ground.now)
        (record { base = base; duty = duty.now }) result }
{
    match shown {
        Some(sweep) => swept_front(sweep, duty),
        None => sealed_front(ground.sealed(), base, duty),
    }
}
