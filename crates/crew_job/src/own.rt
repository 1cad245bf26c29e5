//! Whether a job is its node's own now.
//!
//! By value, and not by a round's number: a late result of an older round may still be the node's
//! own. What is cheap is compared first. Where settings and timetables are equal the works are one;
//! else the base's price, the duties that may stand just before, looked up in each other's network,
//! and of each of them the front in both grounds.
ghost use Rattle.std.specs.Arc.{arc_value};
ghost use Rattle.std.specs.Option.{option_copied, option_map};
ghost use Rattle.std.specs.Prelude.{◌≡◌, ◌↔◌, ◌<◌, ◌+◌, ◌*◌, ℕ, IsTrue, None, Some, get_or, length, map, slice_get, true};
ghost use Rattle.std.specs.FinMap as fin;
ghost use Rattle.crew_job.specs.Grounds.{data_of, node_at};
ghost use Rattle.crew_job.specs.Jobs.{IsJobOf, IsOwnAt, IsOwnWork, job_node};
ghost use Rattle.crew_job.specs.Machinery.Compared.{AreShownAt, HasSameFront, HaveSameFronts, IsAlike};
ghost use Rattle.crew_job.specs.Shown.{AreShownBefore};
ghost use Rattle.crew_machine.specs.Crew.{DutyWork};
ghost use Rattle.crew_pairing.specs.Pairings.{may_stand_after};
ghost use Rattle.crew_pairing.specs.declared.duty.Duty.{Duty as DutySpec};
ghost use Rattle.crew_resource.specs.Members.{Member};

use crate::before::{have_same_before, may_follow};
use crate::fronts::is_same_front;
use crate::ground::Ground;
use crate::job::Job;
use crate::places::{is_same_code, node_in, place_in};
use crate::same_settings::are_same_settings;
use crate::shown::{front_before, shown_front};
use crew_dirty::crew_step::is_same_duty;
use crew_flights::Code;
use crew_pairing::Duty;
use crew_version::crew_fronts::BaseFronts;
use std::alloc::Global;
use std::sync::Arc;

// What shows the front at a place: a sweep, or none where there isn't one.
fn shown_at(shown: &[Option<Arc<BaseFronts, Global>>], place: usize) -> Option<&BaseFronts>
    ensures { option_copied result ≡ get_or (map (option_map arc_value) shown.now) place None }
{
    if place >= shown.len() {
        return None;
    }
    match &shown[place] {
        Some(sweep) => Some(&**sweep),
        None => None,
    }
}

// Whether a job's node is that of a base's place and a rank.
fn is_same_node(job: &Job, ground: &Ground, base: usize, rank: usize) -> bool
    requires base { base < length ground.now.plan.net.bases }
    requires rank { rank < length ground.now.plan.net.duties }
    ensures { IsTrue result ↔ (job_node job.now ≡ node_at ground.now.plan.net base rank) }
{
    let net = ground.net();
    is_same_code(job.code(), net.bases()[base]) && is_same_duty(job.duty(), net.duty(rank))
}

// Whether two prices are the same, or neither is there.
fn is_same_price(one: Option<i64>, other: Option<i64>) -> bool
    ensures { IsTrue result ↔ (one ≡ other) }
{
    match (one, other) {
        (Some(one), Some(other)) => one == other,
        (None, None) => true,
        _ => false,
    }
}

// Whether a base has the same price in two grounds, under the same settings.
fn have_same_inputs(one: &Ground, other: &Ground, code: Code) -> bool
    ensures { IsTrue result ↔ ((one.now.settings ≡ other.now.settings)
        × (fin.get (data_of one.now).bases code ≡ fin.get (data_of other.now).bases code)) }
{
    are_same_settings(one.settings(), other.settings())
        && is_same_price(
            one.timetable().base_price(code),
            other.timetable().base_price(code),
        )
}

// Whether the front of a rank's duty is the same, where it may stand just before a job's.
fn has_same_front_at(
    job: &Job,
    ground: &Ground,
    code: Code,
    duty: &Duty,
    base: usize,
    rank: usize,
    shown: &[Option<Arc<BaseFronts, Global>>],
) -> bool
    requires rank { rank < length ground.now.plan.net.duties }
    requires alike { IsAlike job.now ground.now code duty.now base }
    requires shown { AreShownAt ground.now code duty.now base
        (map (option_map arc_value) shown.now) }
    ensures { IsTrue result ↔ ((e : DutySpec) → slice_get ground.now.plan.net.duties rank
        ≡ Some e → may_stand_after ground.now.settings e duty.now ≡ true
        → HasSameFront job.now.ground ground.now (record { base = code; duty = e })) }
{
    let _own = job.ground();
    let before = ground.net().duty(rank);
    if !may_follow(ground.settings(), before, duty) {
        return true;
    }
    let place = place_in(ground.net(), base, rank);
    let front = shown_front(ground, shown_at(shown, place), code, before);
    is_same_front(&front_before(job, code, before), &front)
}

// Whether the fronts just before a job's node are those in a ground.
fn have_same_fronts(
    job: &Job,
    ground: &Ground,
    code: Code,
    duty: &Duty,
    base: usize,
    shown: &[Option<Arc<BaseFronts, Global>>],
) -> bool
    requires alike { IsAlike job.now ground.now code duty.now base }
    requires shown { AreShownAt ground.now code duty.now base
        (map (option_map arc_value) shown.now) }
    ensures { IsTrue result ↔ HaveSameFronts job.now ground.now code duty.now }
{
    let count = ground.net().duty_count();
    for rank in 0..count {
        if !has_same_front_at(job, ground, code, duty, base, rank, shown) {
            return false;
        }
    }
    true
}

// Whether the work of a job is the own work of its base and duty in a ground that has them.
fn is_same_work(
    job: &Job,
    ground: &Ground,
    code: Code,
    duty: &Duty,
    base: usize,
    shown: &[Option<Arc<BaseFronts, Global>>],
) -> bool
    requires node { job_node job.now ≡ Some (record { base = code; duty = duty.now }) }
    requires based { slice_get ground.now.plan.net.bases base ≡ Some code }
    requires there { Member ground.now.plan.net.duties duty.now }
    requires shown { AreShownAt ground.now code duty.now base
        (map (option_map arc_value) shown.now) }
    ensures { IsTrue result ↔ ((work : DutyWork) → IsJobOf job.now work
        → IsOwnWork ground.now work) }
{
    let own = job.ground();
    let settings = ground.settings();
    if !have_same_inputs(own, ground, code) {
        return false;
    }
    if !have_same_before(settings, own.net(), ground.net(), duty) {
        return false;
    }
    have_same_fronts(job, ground, code, duty, base, shown)
}

// Whether a job is the own job of the node at a place, which has a base's place and a rank.
fn is_own_at(
    job: &Job,
    ground: &Ground,
    place: usize,
    base: usize,
    rank: usize,
    shown: &[Option<Arc<BaseFronts, Global>>],
) -> bool
    requires place { place ≡ base * length ground.now.plan.net.duties + rank }
    requires base { base < length ground.now.plan.net.bases }
    requires rank { rank < length ground.now.plan.net.duties }
    requires shown { AreShownBefore ground.now place (map (option_map arc_value) shown.now) }
    ensures { IsTrue result ↔ ((work : DutyWork) → IsJobOf job.now work
        → IsOwnAt ground.now place work) }
{
    let _own = job.ground();
    if !is_same_node(job, ground, base, rank) {
        return false;
    }
    is_same_work(job, ground, job.code(), job.duty(), base, shown)
}

/// Whether a job is, now, the own job of the node at a place of a ground, in node order: whether it
/// has the node's base and its duty with all facts, the node's own inputs, and exactly the nodes just
/// before it, each with its front. `shown` has, by place, a sweep that shows the node's front, or
/// none where that is the front of the version that was sealed last; only those just before the node
/// are looked at. It takes no memory, and where the settings and the timetables are equal it looks
/// at no front.
pub fn is_own(
    job: &Job,
    ground: &Ground,
    place: usize,
    shown: &[Option<Arc<BaseFronts, Global>>],
) -> bool
    requires { AreShownBefore ground.now place (map (option_map arc_value) shown.now) }
    ensures { IsTrue result ↔ ((work : DutyWork) → IsJobOf job.now work
        → IsOwnAt ground.now place work) }
{
    let own = job.ground();
    if own.is_same_data(ground) {
        return is_own_by_data(job, ground, place);
    }
    is_own_by_work(job, ground, place, shown)
}

/// The same, without a look at the whole timetables: by the node's base and duty, its own inputs, the
/// nodes just before it and their fronts. It answers as `is_own` does whatever the timetables are.
pub fn is_own_by_work(
    job: &Job,
    ground: &Ground,
    place: usize,
    shown: &[Option<Arc<BaseFronts, Global>>],
) -> bool
    requires { AreShownBefore ground.now place (map (option_map arc_value) shown.now) }
    ensures { IsTrue result ↔ ((work : DutyWork) → IsJobOf job.now work
        → IsOwnAt ground.now place work) }
{
    let _own = job.ground();
    match node_in(ground.net(), place) {
        Some((base, rank)) => is_own_at(job, ground, place, base, rank, shown),
        None => false,
    }
}

/// The same, where the job's ground has the settings and the timetable of this one: whether the node
/// at the place is the job's. So for many jobs of one ground the two are compared once.
pub fn is_own_by_data(job: &Job, ground: &Ground, place: usize) -> bool
    requires settings { job.now.ground.settings ≡ ground.now.settings }
    requires data { data_of job.now.ground ≡ data_of ground.now }
    ensures { IsTrue result ↔ ((work : DutyWork) → IsJobOf job.now work
        → IsOwnAt ground.now place work) }
{
    let _own = job.ground();
    match node_in(ground.net(), place) {
        Some((base, rank)) => is_same_node(job, ground, base, rank),
        None => false,
    }
}
