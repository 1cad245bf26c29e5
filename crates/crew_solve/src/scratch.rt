//! From a timetable to its fronts and its best pairing.
ghost use Rattle.std.specs.Prelude.{◌≡◌, ◌≤◌, Err, IfOk, OnOk, length};
ghost use Rattle.crew_pairing.specs.Duties.{AreDuties, HasFew, HasTooMany};
ghost use Rattle.crew_rules.specs.Settings.{IsChecked, SumsTellAll};
ghost use Rattle.crew_solve.specs.Solutions.{HasNetOf, front_of};
ghost use Rattle.crew_vector.specs.Bests.{IsScratch};

use crate::plan::Plan;
use crate::solution::Solution;
use crew_duty::{DutyFault, list_duties};
use crew_flights::Timetable;
use crew_pairing::Duties;
use crew_rules::Settings;
use std::alloc::{AllocError, Global};
use std::thread::Threads;

/// All fronts and the best pairing of a timetable, given its legal duties, beside an earlier
/// solution, if there is one: as `solve_with` and `solve_next`, which list the duties first. The
/// answer is that from scratch, whatever the earlier solution is of.
pub fn solve_listed<R: Threads + Sync>(
    rt: &R,
    alloc: Global,
    settings: &Settings,
    timetable: &Timetable,
    duties: Duties,
    earlier: Option<&Solution>,
    workers: usize,
) -> Result<Solution, AllocError>
    requires checked { IsChecked settings.now }
    requires sums { SumsTellAll settings.now }
    requires duties { AreDuties settings.now timetable.now duties }
    requires few { length duties ≤ 200_000 }
    ensures scratch { IfOk result (λ solution. IsScratch settings.now timetable.now
        (front_of solution) solution.best) }
    ensures network { IfOk result (HasNetOf settings.now timetable.now) }
{
    let plan = Plan::of(alloc, settings, timetable, duties, earlier)?;
    plan.solve(rt, alloc, workers)
}

/// All Pareto fronts and the best pairing of a timetable, from scratch, under settings under which the
/// sums over a pairing's duties tell whether it is legal; `crew_plan` answers for any others too.
/// `TooManyDuties` only where it has more than 200,000 legal duties, or `Memory`.
pub fn solve<R: Threads + Sync>(
    rt: &R,
    alloc: Global,
    settings: &Settings,
    timetable: &Timetable,
) -> Result<Solution, DutyFault>
    requires checked { IsChecked settings.now }
    requires sums { SumsTellAll settings.now }
    ensures scratch { IfOk result (λ solution. IsScratch settings.now timetable.now
        (front_of solution) solution.best) }
    ensures network { IfOk result (HasNetOf settings.now timetable.now) }
    ensures few { OnOk result (HasFew settings.now timetable.now) }
    ensures too_many { result ≡ Err DutyFault.TooManyDuties
        → HasTooMany settings.now timetable.now }
{
    solve_with(rt, alloc, settings, timetable, 0)
}

/// As `solve`, by any number of workers: the passes over the bases are shared out among so many
/// threads at most, whole bases to each, and where there are twice as many threads as bases or
/// more, several go over a base. With 0 workers or 1, and for a timetable of few duties, the calling
/// thread makes all of them; it also makes what no thread can be started for. The answer is the
/// same.
pub fn solve_with<R: Threads + Sync>(
    rt: &R,
    alloc: Global,
    settings: &Settings,
    timetable: &Timetable,
    workers: usize,
) -> Result<Solution, DutyFault>
    requires checked { IsChecked settings.now }
    requires sums { SumsTellAll settings.now }
    ensures scratch { IfOk result (λ solution. IsScratch settings.now timetable.now
        (front_of solution) solution.best) }
    ensures network { IfOk result (HasNetOf settings.now timetable.now) }
    ensures few { OnOk result (HasFew settings.now timetable.now) }
    ensures too_many { result ≡ Err DutyFault.TooManyDuties
        → HasTooMany settings.now timetable.now }
{
    let duties = list_duties(rt, alloc, settings, timetable)?;
    Ok(solve_listed(rt, alloc, settings, timetable, duties, None, workers)?)
}

/// Reoptimizes: as `solve_with`, warm from an earlier solution, of which it keeps the labels of a
/// departure of a base at the same price, where the same duties can be waited on and all of them
/// leave from pools that are as they were. The answer is that from scratch, whatever the earlier
/// solution is of.
pub fn solve_next<R: Threads + Sync>(
    rt: &R,
    alloc: Global,
    settings: &Settings,
    timetable: &Timetable,
    earlier: &Solution,
    workers: usize,
) -> Result<Solution, DutyFault>
    requires checked { IsChecked settings.now }
    requires sums { SumsTellAll settings.now }
    ensures scratch { IfOk result (λ solution. IsScratch settings.now timetable.now
        (front_of solution) solution.best) }
    ensures network { IfOk result (HasNetOf settings.now timetable.now) }
    ensures few { OnOk result (HasFew settings.now timetable.now) }
    ensures too_many { result ≡ Err DutyFault.TooManyDuties
        → HasTooMany settings.now timetable.now }
{
    let duties = list_duties(rt, alloc, settings, timetable)?;
    Ok(solve_listed(
        rt,
        alloc,
        settings,
        timetable,
        duties,
        Some(earlier),
        workers,
    )?)
}
