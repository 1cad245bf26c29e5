//! The fronts of a base that a pass has left.
ghost use Rattle.std.specs.Prelude.{◌≡◌, ◌<◌, IfOk, IfSome, Some, length, slice_get};
ghost use Rattle.std.specs.Arc.{arc_value};
ghost use Rattle.crew_answers.specs.Fronts.{RiseByVector};
ghost use Rattle.crew_answers.specs.Schedules.{IsDated, schedule_of};
ghost use Rattle.crew_answers.specs.Shown as Answers;
ghost use Rattle.crew_answers.specs.declared.resource.LongResource.{LongResource};
ghost use Rattle.crew_flights.specs.Timetable.{IsSound, Timetable};
ghost use Rattle.crew_forgetful.specs.Sweeps.{network_of};
ghost use Rattle.crew_fronts.specs.Fronts.{ShowsFronts, front_at};
ghost use Rattle.crew_fronts.specs.Machinery.Kept.{AreListed, IsGround, fronts_of_pass};
ghost use Rattle.crew_pairing.specs.Duties.{AreDuties, RiseByKey};
ghost use Rattle.crew_pairing.specs.Events as Events;
ghost use Rattle.crew_pairing.specs.Events.{arrival_of, departure_of};
ghost use Rattle.crew_pairing.specs.declared.duty.Duty.{Duty as DutyOf};
ghost use Rattle.crew_pass.specs.Passes.{CountsDuties, IsCoveredBy};
ghost use Rattle.crew_resource.specs.Members.{Member};

use crate::passed_front::PassedFront;
use crew_answers::{LongResource, settings_of_sums};
use crew_flights::Code;
use crew_forgetful::Forgets;
use crew_net::Net;
use crew_pairing::Duty;
use crew_pass::laws::long_passes_show_the_fronts;
use crew_pass::{Course, Passed, pass, pass_by_threads};
use crew_resource::{Resource, Staged};
use crew_solve::crew_vector::VectorResource;
use std::alloc::{AllocError, Global};
use std::marker::Model;
use std::sync::Arc;
use std::thread::Threads;

/// The fronts of a base at its price that a pass has left.
///
/// A contract sees the network, the base and its price, and the front of each duty, by rank.
#[derive(Drop)]
pub(crate) struct PassedFronts {
    base: Code,
    price: i64,
    passed: Passed<LongResource>,
}

impl Model for PassedFronts {
    ghost use Rattle.std.specs.Coded.{codes};
    ghost use Rattle.crew_fronts.specs.Fronts as Spec;
    ghost use Rattle.crew_fronts.specs.Machinery.Kept.{IsPassedBy, fronts_of_pass};

    ghost Value = { Spec.BaseFronts };

    ghost view = { λ p. fronts_of_pass p.base p.price p.passed.pass };

    ghost invariant = { λ p. IsPassedBy p.base p.price p.passed };
}

// The resource of a base's pairings at its price, which counts their duties.
fn resource_of(course: &Course, price: i64) -> LongResource
    requires { IsGround course.now price }
    ensures is { result ≡ Answers.long_resource course.now.settings
        price }
    ensures counts { CountsDuties ⟦<LongResource as Forgets<Duty>>⟧.same_sums
        (⟦<LongResource as Staged<Duty>>⟧.count_of result)
        (⟦<LongResource as Staged<Duty>>⟧.most result)
        (⟦<LongResource as Staged<Duty>>⟧.fits result) }
{
    long_passes_show_the_fronts();
    let settings = course.net().settings();
    let sums = VectorResource::under(&settings_of_sums(settings), price);
    LongResource::new(sums, settings)
}

// Goes over the fronts: the labels of each are listed by value.
fn list(fronts: &crew_pass::BaseFronts<LongResource>)
    ensures { AreListed fronts.now }
{
    for rank in 0..fronts.net().duty_count() {
        let _ = fronts.front(rank).as_slice();
    }
}

impl PassedFronts {
    // The fronts that a pass with a base's resource at its price has left, each listed by value.
    fn of(base: Code, price: i64, passed: Passed<LongResource>) -> PassedFronts
        requires ground { IsGround passed.pass.net price }
        requires resource { passed.resource
            ≡ Answers.long_resource passed.pass.net.settings price }
        requires covered { (r : LongResource) → r
            ≡ Answers.long_resource passed.pass.net.settings price
            → IsCoveredBy ⟦<LongResource as Resource>⟧.below
            ⟦<LongResource as Forgets<Duty>>⟧.same_sums (network_of
            (schedule_of passed.pass.net.settings base passed.pass.net.duties) departure_of
            arrival_of (⟦<LongResource as Staged<Duty>>⟧.idle_of r)
            (⟦<LongResource as Staged<Duty>>⟧.waited r)
            (⟦<LongResource as Staged<Duty>>⟧.boards r)) passed.pass }
        ensures made { result ≡ fronts_of_pass base price passed.pass }
        ensures right { (t : Timetable) → IsSound t → IsDated t
            → AreDuties passed.pass.net.settings t passed.pass.net.duties → ShowsFronts t result }
    {
        long_passes_show_the_fronts();
        list(passed.fronts());
        PassedFronts {
            base,
            price,
            passed,
        }
    }

    // The pass, for another at a price over a network to go beside: where prices and settings are the
    // same, its resource is too.
    fn beside(&self, net: &Net, price: i64) -> Option<&Passed<LongResource>>
        ensures { IfSome result (λ passed. passed.now.resource
            ≡ Answers.long_resource net.now.settings price) }
    {
        if self.price != price || self.net().settings() != net.settings() {
            return None;
        }
        Some(&self.passed)
    }

    /// What the pass went by.
    pub(crate) fn course(&self) -> &Arc<Course, Global>
        ensures { arc_value result.now ≡ self.now.net }
    {
        self.passed.course()
    }

    /// The fronts of a base at its price, by a pass over the course's network, beside earlier ones.
    pub(crate) fn new(
        alloc: Global,
        course: &Arc<Course, Global>,
        earlier: Option<&PassedFronts>,
        base: Code,
        price: i64,
    ) -> Result<PassedFronts, AllocError>
        requires { IsGround (arc_value course.now) price }
        ensures own { IfOk result (λ made. (made.base ≡ base) × (made.price ≡ price)) }
        ensures net { IfOk result (λ made. made.net ≡ arc_value course.now) }
        ensures right { IfOk result (λ made. (t : Timetable) → IsSound t → IsDated t
            → AreDuties (arc_value course.now).settings t (arc_value course.now).duties
            → ShowsFronts t made) }
    {
        let resource = Arc::new(alloc, resource_of(course, price))?;
        let earlier = earlier.and_then(|fronts| fronts.beside(course.net(), price));
        let passed = pass(alloc, course, earlier, &resource, base)?;
        Ok(PassedFronts::of(base, price, passed))
    }

    /// The same fronts, by a pass in at most so many threads, this one among them.
    pub(crate) fn by_threads<T: Threads + Sync>(
        rt: &T,
        alloc: Global,
        threads: usize,
        course: &Arc<Course, Global>,
        earlier: Option<&PassedFronts>,
        base: Code,
        price: i64,
    ) -> Result<PassedFronts, AllocError>
        requires { IsGround (arc_value course.now) price }
        ensures own { IfOk result (λ made. (made.base ≡ base) × (made.price ≡ price)) }
        ensures net { IfOk result (λ made. made.net ≡ arc_value course.now) }
        ensures right { IfOk result (λ made. (t : Timetable) → IsSound t → IsDated t
            → AreDuties (arc_value course.now).settings t (arc_value course.now).duties
            → ShowsFronts t made) }
    {
        let resource = Arc::new(alloc, resource_of(course, price))?;
        let earlier = earlier.and_then(|fronts| fronts.beside(course.net(), price));
        let passed = pass_by_threads(rt, alloc, threads, course, earlier, &resource, base)?;
        Ok(PassedFronts::of(base, price, passed))
    }

    /// The base.
    pub(crate) fn base(&self) -> Code
        ensures { result ≡ self.now.base }
    {
        self.base
    }

    /// The base's price.
    pub(crate) fn price(&self) -> i64
        ensures { result ≡ self.now.price }
    {
        self.price
    }

    /// The network.
    pub(crate) fn net(&self) -> &Net
        ensures net { result.now ≡ self.now.net }
        ensures sound { (d : DutyOf) → Member self.now.net.duties d → Events.IsSound d }
        ensures right { (t : Timetable) → IsSound t → IsDated t
            → AreDuties self.now.net.settings t self.now.net.duties → ShowsFronts t self.now }
    {
        self.passed.fronts().net()
    }

    /// The front of the duty of a rank.
    pub(crate) fn front(&self, rank: usize) -> PassedFront<'_>
        requires { rank < length self.now.net.duties }
        ensures front { (d : DutyOf) → slice_get self.now.net.duties rank ≡ Some d
            → result ≡ front_at self.now d }
        ensures rises { RiseByVector result }
    {
        let fronts = self.passed.fronts();
        let net = fronts.net();
        let _ = net.duty_count();
        let duties = net.duties();
        let labels = fronts.front(rank).as_slice();
        PassedFront::new(
            fronts.table(),
            duties,
            net.settings(),
            duties.at(rank),
            labels,
        )
    }
}
