//! Whether a job's node has the front that it had, with what is known of the departure that was looked
//! at last.
//!
//! Jobs of a lot come in order of key and mostly leave where the one before did, so one look at a
//! departure's labels serves some forty; where they differ the fronts are compared one by one.
ghost use Rattle.std.specs.Prelude.{◌≡◌, ◌↔◌, ℕ, IfSome, IsTrue, Some};
ghost use Rattle.crew_job.specs.Grounds.{sealed_data_of};
ghost use Rattle.crew_job.specs.Jobs.{job_node};
ghost use Rattle.crew_job.specs.Machinery.Held.{TellsKept};
ghost use Rattle.crew_job.specs.Shown.{IsLeftOf, LeavesAsSealed};
ghost use Rattle.crew_job.specs.declared.left.Left.{Left as LeftOf};
ghost use Rattle.crew_machine.specs.Crew.{DutyNode, IsNodeOf};
ghost use Rattle.crew_pairing.specs.Events.{departure_of};
ghost use Rattle.crew_version.specs.crew_plan.Plans.{AreFrontsIn};

use crate::fronts::is_same_front;
use crate::ground::Ground;
use crate::job::Job;
use crate::kept::has_node;
use crate::places::is_same_code;
use crate::shown::sealed_front;
use crew_flights::Code;
use crew_pairing::{Departure, Duty};
use crew_resource::Placed;
use crew_version::crew_fronts::BaseFronts;

/// Whether the version that was sealed last leaves as a ground does at a departure of a base.
#[derive(Clone, Copy)]
pub(crate) struct Left {
    /// The base.
    pub(crate) base: Code,
    /// The departure.
    pub(crate) departure: Departure,
    /// Whether it is known that each node which leaves there, and which the version has too, has the
    /// same front in both.
    pub(crate) alike: bool,
}

// Whether two numbers are one.
fn is_same_number(one: i64, other: i64) -> bool
    ensures { IsTrue result ↔ (one ≡ other) }
{
    one == other
}

// Whether two departures are one.
fn is_same_departure(one: Departure, other: Departure) -> bool
    ensures { IsTrue result → one ≡ other }
{
    if !is_same_code(one.airport, other.airport) {
        return false;
    }
    is_same_number(one.report, other.report)
}

// Whether two bases have one price.
fn is_same_price(one: &BaseFronts, other: &BaseFronts) -> bool
    ensures { IsTrue result ↔ (one.now.price ≡ other.now.price) }
{
    one.price() == other.price()
}

// Whether this is of a base and a departure.
fn is_at(left: &Left, base: Code, departure: Departure) -> bool
    ensures { IsTrue result → (left.now.base ≡ base) × (left.now.departure ≡ departure) }
{
    if !is_same_code(left.base, base) {
        return false;
    }
    is_same_departure(left.departure, departure)
}

// What is known already of a base and where a duty leaves.
fn known_at(last: &Option<Left>, base: Code, duty: &Duty) -> Option<bool>
    ensures { IfSome result (λ alike. (left : LeftOf) × (last.now ≡ Some left)
        × (left.base ≡ base) × (left.departure ≡ departure_of duty.now)
        × (left.alike ≡ alike)) }
{
    let Some(left) = last else {
        return None;
    };
    if !is_at(left, base, duty.departure()) {
        return None;
    }
    Some(left.alike)
}

// Keeps what is found of a base and where a duty leaves.
fn keep(last: &mut Option<Left>, base: Code, duty: &Duty, alike: bool)
    ensures { last.new ≡ Some (record { base = base; departure = departure_of duty.now; alike = alike }) }
{
    let departure = duty.departure();
    *last = Some(Left {
        base,
        departure,
        alike,
    });
}

impl Ground {
    // Whether the version that was sealed last leaves as this does where a duty leaves, by the fronts of
    // a base.
    fn leaves_alike(&self, fronts: &BaseFronts, base: Code, duty: &Duty) -> bool
        requires { (place : ℕ) × AreFrontsIn self.now.plan place fronts.now }
        ensures { IsTrue result → LeavesAsSealed self.now base (departure_of duty.now) }
    {
        let sealed = self.sealed();
        let Some(solution) = sealed.solution() else {
            return false;
        };
        let Some(before) = solution.base(base) else {
            return false;
        };
        if !is_same_code(fronts.base(), base) || !is_same_price(fronts, before) {
            return false;
        }
        fronts.leaves_alike(before, duty)
    }

    // The same, where it may be known already.
    fn look_at(&self, fronts: &BaseFronts, base: Code, duty: &Duty, last: &mut Option<Left>) -> bool
        requires sweep { (place : ℕ) × AreFrontsIn self.now.plan place fronts.now }
        requires last { IsLeftOf self.now last.old }
        ensures alike { IsTrue result → LeavesAsSealed self.now base (departure_of duty.now) }
        ensures last { IsLeftOf self.now last.new }
    {
        if let Some(alike) = known_at(last, base, duty) {
            return alike;
        }
        let alike = self.leaves_alike(fronts, base, duty);
        keep(last, base, duty, alike);
        alike
    }
}

impl Job {
    // Whether the version that was sealed last has the job's node, with the front that a sweep of its
    // base shows. What is found of the departure that the node leaves at is kept for the next one, so
    // nodes in a row that leave at one departure take one look at its labels: where the version leaves
    // there as the ground does, no fronts are compared. It takes no memory.
    pub(crate) fn is_kept(&self, fronts: &BaseFronts, last: &mut Option<Left>) -> bool
        requires sweep { AreFrontsIn self.now.ground.plan self.now.base fronts.now }
        requires last { IsLeftOf self.now.ground last.old }
        ensures kept { TellsKept self.now result }
        ensures last { IsLeftOf self.now.ground last.new }
    {
        let ground = self.ground();
        let (base, duty) = (self.code(), self.duty());
        if !has_node(ground.sealed(), base, duty) {
            return false;
        }
        if ground.look_at(fronts, base, duty, last) {
            return true;
        }
        self.has_front_of(fronts)
    }

    // Whether the version that was sealed last, which has the job's node, has it with the front that a
    // sweep of its base shows.
    fn has_front_of(&self, fronts: &BaseFronts) -> bool
        requires sweep { AreFrontsIn self.now.ground.plan self.now.base fronts.now }
        requires there { (n : DutyNode) → job_node self.now ≡ Some n
            → IsNodeOf self.now.ground.settings (sealed_data_of self.now.ground) n }
        ensures { TellsKept self.now result }
    {
        let sealed = self.ground().sealed();
        let _count = fronts.net().duty_count();
        let before = sealed_front(sealed, self.code(), self.duty());
        is_same_front(&before, &fronts.front(self.rank()))
    }
}
