//! The fronts and the best pairing of a timetable, beside those of the version before.

ghost use Rattle.std.specs.Prelude.{◌≡◌, ◌≤◌, Err, IfErr, IfOk, IfSome, OnOk, length};
ghost use Rattle.std.specs.Arc.{arc_value};
ghost use Rattle.crew_flights.specs.Timetable.{IsSound};
ghost use Rattle.crew_pairing.specs.Duties.{AreDuties, HasFew, HasTooMany};
ghost use Rattle.crew_rules.specs.Settings.{IsChecked};
ghost use Rattle.crew_plan.specs.Plans.{IsPlanOf, IsSolutionIn};
ghost use Rattle.crew_version.specs.Drafts.{IsSolutionOf};
ghost use Rattle.crew_version.specs.Faults.{IsSearchFault};
ghost use Rattle.crew_version.specs.Machinery.Kept.{IsRightEarlier};

use crate::fault::VersionFault;
use crate::same::are_same_timetables;
use crew_flights::Timetable;
use crew_pairing::Duties;
use crew_plan::crew_duty::{DutyFault, list_duties, list_next};
use crew_plan::{Plan, Solution};
use crew_rules::Settings;
use rayon::current_num_threads;
use std::alloc::{AllocError, Global};
use std::sync::Arc;
use std::thread::Threads;

/// What there is of an earlier timetable.
#[derive(Drop)]
pub(crate) struct Earlier<'a> {
    pub(crate) timetable: &'a Timetable,
    pub(crate) solution: &'a Arc<Solution, Global>,
}

// The legal duties of a timetable, beside those of an earlier one, if there is one.
fn duties_of<R: Threads + Sync>(
    rt: &R,
    alloc: Global,
    settings: &Settings,
    timetable: &Timetable,
    earlier: Option<&Earlier>,
) -> Result<Duties, DutyFault>
    requires checked { IsChecked settings.now }
    requires earlier { IfSome earlier (λ e. IsRightEarlier settings.now e.now) }
    ensures listed { IfOk result (λ duties. AreDuties settings.now timetable.now duties) }
    ensures few { IfOk result (λ duties. length duties ≤ 200_000) }
    ensures too_many { result ≡ Err DutyFault.TooManyDuties
        → HasTooMany settings.now timetable.now }
{
    let Some(earlier) = earlier else {
        return list_duties(rt, alloc, settings, timetable);
    };
    let before = earlier.solution.net().duties();
    list_next(rt, alloc, settings, earlier.timetable, before, timetable)
}

// The same, with what a version's caller is told where there are too many.
fn few_duties<R: Threads + Sync>(
    rt: &R,
    alloc: Global,
    settings: &Settings,
    timetable: &Timetable,
    earlier: Option<&Earlier>,
) -> Result<Duties, VersionFault>
    requires checked { IsChecked settings.now }
    requires earlier { IfSome earlier (λ e. IsRightEarlier settings.now e.now) }
    ensures listed { IfOk result (λ duties. AreDuties settings.now timetable.now duties) }
    ensures few { IfOk result (λ duties. length duties ≤ 200_000) }
    ensures fault { IfErr result (IsSearchFault settings.now timetable.now) }
{
    match duties_of(rt, alloc, settings, timetable, earlier) {
        Ok(duties) => Ok(duties),
        Err(DutyFault::TooManyDuties) => Err(VersionFault::TooManyDuties),
        Err(DutyFault::Memory) => Err(VersionFault::Memory),
    }
}

/// What is to be made for a timetable, beside an earlier one with its own fronts, if there is one.
/// `TooManyDuties` only where there are more than 200,000 legal duties, or `Memory`.
pub(crate) fn plan_of<R: Threads + Sync>(
    rt: &R,
    alloc: Global,
    settings: &Settings,
    timetable: &Timetable,
    earlier: Option<&Earlier>,
) -> Result<Plan, VersionFault>
    requires checked { IsChecked settings.now }
    requires earlier { IfSome earlier (λ e. IsRightEarlier settings.now e.now) }
    ensures plan { IfOk result (IsPlanOf settings.now timetable.now) }
    ensures sound { OnOk result (IsSound timetable.now) }
    ensures few { OnOk result (HasFew settings.now timetable.now) }
    ensures fault { IfErr result (IsSearchFault settings.now timetable.now) }
{
    let duties = few_duties(rt, alloc, settings, timetable, earlier)?;
    let solution = earlier.map(|earlier| &**earlier.solution);
    Ok(Plan::of(alloc, settings, timetable, duties, solution)?)
}

// The solution of a plan, made by as many workers as there are processors for, and put where
// versions share it.
fn made<R: Threads + Sync>(
    rt: &R,
    alloc: Global,
    plan: &Plan,
) -> Result<Arc<Solution, Global>, AllocError>
    ensures { IfOk result (λ solution. IsSolutionIn plan.now (arc_value solution)) }
{
    let solution = plan.solve(rt, alloc, current_num_threads(rt))?;
    Ok(Arc::new(alloc, solution)?)
}

// The solution of a timetable, beside an earlier one, if there is one.
fn found<R: Threads + Sync>(
    rt: &R,
    alloc: Global,
    settings: &Settings,
    timetable: &Timetable,
    earlier: Option<&Earlier>,
) -> Result<Arc<Solution, Global>, VersionFault>
    requires checked { IsChecked settings.now }
    requires earlier { IfSome earlier (λ e. IsRightEarlier settings.now e.now) }
    ensures ok { IfOk result (λ solution. IsSolutionOf settings.now timetable.now
        (arc_value solution)) }
    ensures few { OnOk result (HasFew settings.now timetable.now) }
    ensures fault { IfErr result (IsSearchFault settings.now timetable.now) }
{
    let plan = plan_of(rt, alloc, settings, timetable, earlier)?;
    Ok(made(rt, alloc, &plan)?)
}

// An earlier solution, where it is that of this timetable too.
fn shared(
    timetable: &Timetable,
    earlier: &Earlier,
) -> Result<Option<Arc<Solution, Global>>, AllocError>
    ensures { IfOk result (λ shared. IfSome shared (λ solution.
        (earlier.now.timetable.now ≡ timetable.now)
        × (arc_value solution ≡ arc_value earlier.now.solution.now))) }
{
    if !are_same_timetables(earlier.timetable, timetable) {
        return Ok(None);
    }
    Ok(Some(Arc::try_clone(earlier.solution)?))
}

/// All fronts and the best of all pairings of a timetable, beside an earlier one with its own, if
/// there is one; where the timetable is the same they are shared. `TooManyDuties` only where
/// there are more than 200,000 legal duties, or `Memory`.
pub(crate) fn find_solution<R: Threads + Sync>(
    rt: &R,
    alloc: Global,
    settings: &Settings,
    timetable: &Timetable,
    earlier: Option<&Earlier>,
) -> Result<Arc<Solution, Global>, VersionFault>
    requires checked { IsChecked settings.now }
    requires earlier { IfSome earlier (λ e. IsRightEarlier settings.now e.now) }
    ensures ok { IfOk result (λ solution. IsSolutionOf settings.now timetable.now
        (arc_value solution)) }
    ensures few { OnOk result (HasFew settings.now timetable.now) }
    ensures fault { IfErr result (IsSearchFault settings.now timetable.now) }
{
    if let Some(earlier) = earlier
        && let Some(solution) = shared(timetable, earlier)?
    {
        return Ok(solution);
    }
    found(rt, alloc, settings, timetable, earlier)
}
