//! What is to be made for a timetable, base by base.
ghost use Rattle.std.specs.Prelude.{◌≡◌, ◌<◌, ◌≤◌, IfOk, false, length, map, true};
ghost use Rattle.std.specs.Arc.{arc_value};
ghost use Rattle.crew_flights.specs.Timetable.{IsSound};
ghost use Rattle.crew_fronts.specs.Fronts as Fronts;
ghost use Rattle.crew_pairing.specs.Duties.{AreDuties};
ghost use Rattle.crew_plan.specs.Machinery.Kinds.{IsOfKind, plan_of};
ghost use Rattle.crew_plan.specs.Plans.{AreFrontsIn, IsPlanOf, IsSolutionIn};
ghost use Rattle.crew_rules.specs.Settings.{IsChecked};

use crate::dates::see_dates;
use crate::long_plan::LongPlan;
use crate::passes::pass_all;
use crate::solution::Solution;
use crate::sweeps::swept;
use crew_flights::Timetable;
use crew_fronts::{BaseFronts, is_plain};
use crew_net::Net;
use crew_pairing::Duties;
use crew_rules::Settings;
use std::alloc::{AllocError, Global};
use std::marker::Model;
use std::sync::Arc;
use std::thread::Threads;

// A plan of sweeps, where the settings need no more than the seven sums, or else of passes.
#[derive(Drop)]
pub(crate) enum Kind {
    Plain(crew_fronts::crew_solve::Plan),
    Long(LongPlan),
}

/// What is to be made for a timetable: its network, which all bases share, and its bases, the fronts
/// of each of which are made by themselves, on any thread. Beside an earlier solution they take from
/// it what is as it was.
///
/// A contract sees the network, and the bases with their prices by code.
pub struct Plan {
    kind: Kind,
}

impl Drop for Plan {
    fn drop(self) {
        let Self { kind: _ } = self;
    }
}

impl Model for Plan {
    ghost use Rattle.crew_plan.specs.Machinery.Kinds.{IsOfKind, plan_of};
    ghost use Rattle.crew_plan.specs.Plans as Spec;

    ghost Value = { Spec.Plan };

    ghost view = { λ p. plan_of p.kind };

    ghost invariant = { λ p. IsOfKind p.kind };
}

// The plan of the kind that the settings need.
fn kind_of(
    alloc: Global,
    settings: &Settings,
    timetable: &Timetable,
    duties: Duties,
    earlier: Option<&Solution>,
) -> Result<Kind, AllocError>
    requires checked { IsChecked settings.now }
    requires duties { AreDuties settings.now timetable.now duties }
    requires few { length duties ≤ 200_000 }
    ensures plan { IfOk result (λ kind. IsPlanOf settings.now timetable.now (plan_of kind)) }
    ensures kind { IfOk result IsOfKind }
{
    if is_plain(settings) {
        plain_of(alloc, settings, timetable, duties, earlier)
    } else {
        long_of(alloc, settings, timetable, duties, earlier)
    }
}

// The plan of sweeps.
fn plain_of(
    alloc: Global,
    settings: &Settings,
    timetable: &Timetable,
    duties: Duties,
    earlier: Option<&Solution>,
) -> Result<Kind, AllocError>
    requires checked { IsChecked settings.now }
    requires plain { Fronts.is_plain settings.now ≡ true }
    requires duties { AreDuties settings.now timetable.now duties }
    requires few { length duties ≤ 200_000 }
    ensures plan { IfOk result (λ kind. IsPlanOf settings.now timetable.now (plan_of kind)) }
    ensures kind { IfOk result IsOfKind }
{
    see_dates(timetable);
    let earlier = match earlier {
        Some(earlier) => earlier.by_sweeps(),
        None => None,
    };
    let plan = crew_fronts::crew_solve::Plan::of(alloc, settings, timetable, duties, earlier)?;
    Ok(Kind::Plain(plan))
}

// The plan of passes.
fn long_of(
    alloc: Global,
    settings: &Settings,
    timetable: &Timetable,
    duties: Duties,
    earlier: Option<&Solution>,
) -> Result<Kind, AllocError>
    requires checked { IsChecked settings.now }
    requires long { Fronts.is_plain settings.now ≡ false }
    requires duties { AreDuties settings.now timetable.now duties }
    requires few { length duties ≤ 200_000 }
    ensures plan { IfOk result (λ kind. IsPlanOf settings.now timetable.now (plan_of kind)) }
    ensures kind { IfOk result IsOfKind }
{
    let plan = LongPlan::of(alloc, settings, timetable, duties, earlier)?;
    Ok(Kind::Long(plan))
}

impl Plan {
    /// The plan of a timetable, given its legal duties, warm from an earlier solution, if there is one,
    /// whatever that is of.
    pub fn of(
        alloc: Global,
        settings: &Settings,
        timetable: &Timetable,
        duties: Duties,
        earlier: Option<&Solution>,
    ) -> Result<Plan, AllocError>
        requires checked { IsChecked settings.now }
        requires duties { AreDuties settings.now timetable.now duties }
        requires few { length duties ≤ 200_000 }
        ensures plan { IfOk result (IsPlanOf settings.now timetable.now) }
        ensures sound { IsSound timetable.now }
    {
        let _count = timetable.flight_count();
        let kind = kind_of(alloc, settings, timetable, duties, earlier)?;
        Ok(Plan { kind })
    }

    // The plan by its kind.
    pub(crate) fn kind(&self) -> &Kind
        ensures plan { plan_of result.now ≡ self.now }
        ensures kind { IsOfKind result.now }
    {
        &self.kind
    }

    /// The network.
    pub fn net(&self) -> &Net
        ensures net { result.now ≡ self.now.net }
        ensures few { length self.now.net.duties ≤ 200_000 }
        ensures bases { map (λ base. base.0) self.now.prices ≡ self.now.net.bases }
    {
        match &self.kind {
            Kind::Plain(plan) => plan.net(),
            Kind::Long(plan) => &**plan.net(),
        }
    }

    /// The network, shared. Takes no memory: `Err` is for no room to count who shares it.
    pub fn shared_net(&self) -> Result<Arc<Net, Global>, AllocError>
        ensures { IfOk result (λ net. arc_value net ≡ self.now.net) }
    {
        match &self.kind {
            Kind::Plain(plan) => plan.shared_net(),
            Kind::Long(plan) => Arc::try_clone(plan.net()),
        }
    }

    /// How many bases there are.
    pub fn base_count(&self) -> usize
        ensures { result ≡ length self.now.prices }
    {
        match &self.kind {
            Kind::Plain(plan) => plan.base_count(),
            Kind::Long(plan) => plan.base_count(),
        }
    }

    /// The Pareto fronts of the base at a place, by code. Where the earlier solution has some of
    /// the base at the same price, they are shared where the two networks are one, and else made
    /// beside these where no pairing of the settings is long; else they are made from scratch.
    pub fn sweep(&self, alloc: Global, place: usize) -> Result<Arc<BaseFronts, Global>, AllocError>
        requires { place < length self.now.prices }
        ensures { IfOk result (λ fronts. AreFrontsIn self.now place (arc_value fronts)) }
    {
        match &self.kind {
            Kind::Plain(plan) => swept(alloc, plan, place),
            Kind::Long(plan) => plan.pass(alloc, place),
        }
    }

    /// All Pareto fronts and the best pairing. So many threads at most make those of the bases, among
    /// which they are shared out; with twice as many as bases or more, the label setting of one base
    /// goes by several, for pairings that need more than the seven sums. With 0 workers or 1, and for
    /// few duties, the calling thread makes all of them, and also those for which no thread can be
    /// started.
    pub fn solve<R: Threads + Sync>(
        &self,
        rt: &R,
        alloc: Global,
        workers: usize,
    ) -> Result<Solution, AllocError>
        ensures { IfOk result (IsSolutionIn self.now) }
    {
        match &self.kind {
            Kind::Plain(plan) => {
                let solution = plan.solve(rt, alloc, workers)?;
                Solution::swept(alloc, plan, solution)
            }
            Kind::Long(plan) => {
                let fronts = pass_all(rt, alloc, plan, workers)?;
                Solution::passed(alloc, plan, fronts)
            }
        }
    }
}
