//! The fronts of a base.
ghost use Rattle.std.specs.Prelude.{◌≡◌, ◌<◌, ◌≤◌, IfOk, IfSome, IsTrue, None, Some, false, length, slice_get, true};
ghost use Rattle.std.specs.Arc.{arc_value};
ghost use Rattle.crew_answers.specs.Fronts.{RiseByVector};
ghost use Rattle.crew_answers.specs.Schedules.{IsDated};
ghost use Rattle.crew_flights.specs.Timetable.{IsBasePrice, IsSound, Timetable};
ghost use Rattle.crew_fronts.specs.Fronts.{IsOfSweep, ShowsFronts, front_at, is_plain};
ghost use Rattle.crew_pairing.specs.Duties.{AreDuties, RiseByKey};
ghost use Rattle.crew_pairing.specs.Events as Events;
ghost use Rattle.crew_pairing.specs.Events.{departure_of};
ghost use Rattle.crew_pairing.specs.declared.duty.Duty.{Duty as DutyOf};
ghost use Rattle.crew_resource.specs.Members.{Member};
ghost use Rattle.crew_rules.specs.Settings.{IsChecked};

use crate::front_view::FrontView;
use crate::passed_fronts::PassedFronts;
use crew_answers::laws::{short_fronts_are_as_before, short_settings_stay};
use crew_flights::Code;
use crew_net::Net;
use crew_pairing::Duty;
use crew_pass::Course;
use std::alloc::{AllocError, Global};
use std::marker::Model;
use std::sync::Arc;
use std::thread::Threads;

/// The Pareto fronts of a base at its dual price, one for each duty of a network.
///
/// A contract sees the network, the base and its price, and the front of each duty, by rank.
pub struct BaseFronts {
    kind: BaseKind,
}

impl Drop for BaseFronts {
    fn drop(self) {
        let Self { kind: _ } = self;
    }
}

// What has made them.
#[derive(Drop)]
pub(crate) enum BaseKind {
    Swept(Arc<crew_solve::BaseFronts, Global>),
    Passed(PassedFronts),
}

impl Model for BaseFronts {
    ghost use Rattle.crew_fronts.specs.Fronts as Spec;
    ghost use Rattle.crew_fronts.specs.Machinery.Bases.{IsOfKind, fronts_of};

    ghost Value = { Spec.BaseFronts };

    ghost view = { λ f. fronts_of f.kind };

    ghost invariant = { λ f. IsOfKind f.kind };
}

// The network of a sweep's fronts, whose duties rise by key.
#[inline]
fn net_of(fronts: &crew_solve::BaseFronts) -> &Net
    ensures net { result.now ≡ fronts.now.net }
    ensures rise { RiseByKey fronts.now.net.duties }
{
    let net = fronts.net();
    let _ = net.duty_count();
    net
}

// The fronts that a pass has left, if one has.
fn passed_of(fronts: Option<&BaseFronts>) -> Option<&PassedFronts> {
    match &fronts?.kind {
        BaseKind::Swept(_) => None,
        BaseKind::Passed(fronts) => Some(fronts),
    }
}

impl BaseFronts {
    /// The fronts that a sweep has made, where the settings need no more than the seven sums.
    pub fn swept(
        alloc: Global,
        fronts: Arc<crew_solve::BaseFronts, Global>,
    ) -> Result<Arc<BaseFronts, Global>, AllocError>
        requires { is_plain (arc_value fronts).net.settings ≡ true }
        ensures { IfOk result (λ made. IsOfSweep (arc_value fronts) (arc_value made)) }
    {
        let _ = net_of(&fronts);
        let kind = BaseKind::Swept(fronts);
        Ok(Arc::new(alloc, BaseFronts { kind })?)
    }

    /// The fronts of a base at its price, by a pass over the course's network, where the settings
    /// need more than the seven sums. Beside earlier ones of the base it takes over what is made of the
    /// same there, where price and settings are the same.
    pub fn passed(
        alloc: Global,
        course: &Arc<Course, Global>,
        earlier: Option<&BaseFronts>,
        base: Code,
        price: i64,
    ) -> Result<Arc<BaseFronts, Global>, AllocError>
        requires checked { IsChecked (arc_value course.now).settings }
        requires long { is_plain (arc_value course.now).settings ≡ false }
        requires price { IsBasePrice price }
        requires sound { (d : DutyOf) → Member (arc_value course.now).duties d
            → Events.IsSound d }
        requires rise { RiseByKey (arc_value course.now).duties }
        requires few { length (arc_value course.now).duties ≤ 200_000 }
        ensures own { IfOk result (λ made. ((arc_value made).base ≡ base)
            × ((arc_value made).price ≡ price)) }
        ensures net { IfOk result (λ made. (arc_value made).net ≡ arc_value course.now) }
        ensures right { IfOk result (λ made. (t : Timetable) → IsSound t → IsDated t
            → AreDuties (arc_value course.now).settings t (arc_value course.now).duties
            → ShowsFronts t (arc_value made)) }
    {
        let fronts = PassedFronts::new(alloc, course, passed_of(earlier), base, price)?;
        let kind = BaseKind::Passed(fronts);
        Ok(Arc::new(alloc, BaseFronts { kind })?)
    }

    /// The same fronts, by a pass in at most so many threads, this one among them.
    pub fn passed_by_threads<T: Threads + Sync>(
        rt: &T,
        alloc: Global,
        threads: usize,
        course: &Arc<Course, Global>,
        earlier: Option<&BaseFronts>,
        base: Code,
        price: i64,
    ) -> Result<Arc<BaseFronts, Global>, AllocError>
        requires checked { IsChecked (arc_value course.now).settings }
        requires long { is_plain (arc_value course.now).settings ≡ false }
        requires price { IsBasePrice price }
        requires sound { (d : DutyOf) → Member (arc_value course.now).duties d
            → Events.IsSound d }
        requires rise { RiseByKey (arc_value course.now).duties }
        requires few { length (arc_value course.now).duties ≤ 200_000 }
        ensures own { IfOk result (λ made. ((arc_value made).base ≡ base)
            × ((arc_value made).price ≡ price)) }
        ensures net { IfOk result (λ made. (arc_value made).net ≡ arc_value course.now) }
        ensures right { IfOk result (λ made. (t : Timetable) → IsSound t → IsDated t
            → AreDuties (arc_value course.now).settings t (arc_value course.now).duties
            → ShowsFronts t (arc_value made)) }
    {
        let earlier = passed_of(earlier);
        let fronts = PassedFronts::by_threads(rt, alloc, threads, course, earlier, base, price)?;
        let kind = BaseKind::Passed(fronts);
        Ok(Arc::new(alloc, BaseFronts { kind })?)
    }

    /// What the pass went by that has left them, if one has.
    pub fn course(&self) -> Option<&Arc<Course, Global>>
        ensures { IfSome result (λ course. arc_value course.now ≡ self.now.net) }
    {
        match &self.kind {
            BaseKind::Swept(_) => None,
            BaseKind::Passed(fronts) => Some(fronts.course()),
        }
    }

    /// The sweep's fronts, where one has made them.
    pub fn as_swept(&self) -> Option<&Arc<crew_solve::BaseFronts, Global>>
        ensures some { IfSome result (λ fronts. IsOfSweep (arc_value fronts.now) self.now) }
        ensures none { result ≡ None → is_plain self.now.net.settings ≡ false }
    {
        match &self.kind {
            BaseKind::Swept(fronts) => {
                let _ = net_of(fronts);
                Some(fronts)
            }
            BaseKind::Passed(_) => None,
        }
    }

    /// The base.
    pub fn base(&self) -> Code
        ensures { result ≡ self.now.base }
    {
        match &self.kind {
            BaseKind::Swept(fronts) => fronts.base(),
            BaseKind::Passed(fronts) => fronts.base(),
        }
    }

    /// The base's dual price.
    pub fn price(&self) -> i64
        ensures { result ≡ self.now.price }
    {
        match &self.kind {
            BaseKind::Swept(fronts) => fronts.price(),
            BaseKind::Passed(fronts) => fronts.price(),
        }
    }

    /// The network.
    pub fn net(&self) -> &Net
        ensures net { result.now ≡ self.now.net }
        ensures sound { (d : DutyOf) → Member self.now.net.duties d → Events.IsSound d }
        ensures few { length self.now.net.duties ≤ 200_000 }
        ensures right { (t : Timetable) → IsSound t → IsDated t
            → AreDuties self.now.net.settings t self.now.net.duties → ShowsFronts t self.now }
    {
        short_settings_stay();
        short_fronts_are_as_before();
        match &self.kind {
            BaseKind::Swept(fronts) => {
                let _ = net_of(fronts);
                fronts.net()
            }
            BaseKind::Passed(fronts) => {
                let net = fronts.net();
                let _ = net.duty_count();
                net
            }
        }
    }

    /// The front of the duty of a rank, in order of vector: each vector with its walk. It takes no
    /// memory.
    pub fn front(&self, rank: usize) -> FrontView<'_>
        requires { rank < length self.now.net.duties }
        ensures front { (d : DutyOf) → slice_get self.now.net.duties rank ≡ Some d
            → result ≡ front_at self.now d }
        ensures rises { RiseByVector result }
    {
        match &self.kind {
            BaseKind::Swept(fronts) => {
                let _ = net_of(fronts);
                FrontView::swept(fronts.front(rank))
            }
            BaseKind::Passed(fronts) => FrontView::passed(fronts.front(rank)),
        }
    }

    /// Whether it is known that this and other fronts under the same settings and at the same price
    /// are the same at each duty of both networks that leaves where a duty does. `false` says nothing.
    /// It takes no memory.
    pub fn leaves_alike(&self, other: &BaseFronts, duty: &Duty) -> bool
        ensures { IsTrue result → self.now.net.settings ≡ other.now.net.settings
            → self.now.price ≡ other.now.price → (d : DutyOf)
            → departure_of d ≡ departure_of duty.now → Member self.now.net.duties d
            → Member other.now.net.duties d → front_at self.now d ≡ front_at other.now d }
    {
        match (&self.kind, &other.kind) {
            (BaseKind::Swept(one), BaseKind::Swept(other)) => {
                let _ = net_of(one);
                let _ = net_of(other);
                one.leaves_alike(other, duty)
            }
            _ => false,
        }
    }
}
