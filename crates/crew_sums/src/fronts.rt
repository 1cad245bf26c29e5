//! The fronts of pairings of which seven sums tell all.
ghost use Rattle.std.specs.Prelude.{◌≡◌, IfOk, IfSome};
ghost use Rattle.std.specs.Arc.{arc_value};
ghost use Rattle.crew_flights.specs.Timetable as TimetableSpec;
ghost use Rattle.crew_net.specs.Machinery.Moments.{IsReal};
ghost use Rattle.crew_pairing.specs.Duties.{AreDuties};
ghost use Rattle.crew_pairing.specs.Events.{IsSound};
ghost use Rattle.crew_pairing.specs.declared.duty.Duty.{Duty};
ghost use Rattle.crew_resource.specs.Members.{Member};
ghost use Rattle.crew_rules.specs.Settings.{IsChecked, SumsTellAll};
ghost use Rattle.crew_sums.specs.Passes.{ShowsFronts};
ghost use Rattle.crew_sums.specs.Sums.{sums_resource};

use crate::SumsResource;
use crate::laws::sums_passes_show_the_fronts;
use crew_flights::Code;
use crew_pass::{Course, Passed, pass, pass_by_threads};
use crew_rules::Settings;
use std::alloc::{AllocError, Global};
use std::sync::Arc;
use std::thread::Threads;

// Each duty of a course's network reports at a minute of 32 bits.
fn see_reports(course: &Course)
    ensures { (d : Duty) → Member course.now.duties d → IsReal d.report }
{
    let _ = course.net().departures();
}

/// The fronts of a base's duties, under settings under which the sums over a pairing's duties tell
/// whether it is legal: at each legal duty of the course's timetable they show the duty's front.
///
/// The course's network may be of settings with another cap on the minutes away, since no legal duty
/// and no rest between two depends on it. Beside an earlier pass of the same base, at the same price and
/// under the same settings, what is made of the same there is taken over.
pub fn sums_fronts(
    alloc: Global,
    course: &Arc<Course, Global>,
    earlier: Option<&Passed<SumsResource>>,
    settings: &Settings,
    base: Code,
    price: i64,
) -> Result<Passed<SumsResource>, AllocError>
    requires sound { (d : Duty) → Member (arc_value course.now).duties d → IsSound d }
    requires checked { IsChecked settings.now }
    requires sums { SumsTellAll settings.now }
    requires price { TimetableSpec.IsBasePrice price }
    requires settings { (arc_value course.now).settings
        ≡ record settings.now { away_cap = (arc_value course.now).settings.away_cap } }
    requires earlier { IfSome earlier (λ e. e.now.resource ≡ sums_resource settings.now price) }
    ensures net { IfOk result (λ passed. passed.pass.net ≡ arc_value course.now) }
    ensures own { IfOk result (λ passed. (passed.base ≡ base)
        × (passed.resource ≡ sums_resource settings.now price)) }
    ensures right { IfOk result (λ passed. (t : TimetableSpec.Timetable) → TimetableSpec.IsSound t
        → AreDuties settings.now t (arc_value course.now).duties
        → ShowsFronts settings.now t base price passed.pass) }
{
    sums_passes_show_the_fronts();
    see_reports(course);
    let resource = SumsResource::new(settings, price);
    let shared = Arc::new(alloc, resource)?;
    let passed = pass(alloc, course, earlier, &shared, base)?;
    Ok(passed)
}

/// The same fronts, by a pass in at most so many threads, this one among them.
pub fn sums_fronts_by_threads<T: Threads + Sync>(
    rt: &T,
    alloc: Global,
    threads: usize,
    course: &Arc<Course, Global>,
    earlier: Option<&Passed<SumsResource>>,
    settings: &Settings,
    base: Code,
    price: i64,
) -> Result<Passed<SumsResource>, AllocError>
    requires sound { (d : Duty) → Member (arc_value course.now).duties d → IsSound d }
    requires checked { IsChecked settings.now }
    requires sums { SumsTellAll settings.now }
    requires price { TimetableSpec.IsBasePrice price }
    requires settings { (arc_value course.now).settings
        ≡ record settings.now { away_cap = (arc_value course.now).settings.away_cap } }
    requires earlier { IfSome earlier (λ e. e.now.resource ≡ sums_resource settings.now price) }
    ensures net { IfOk result (λ passed. passed.pass.net ≡ arc_value course.now) }
    ensures own { IfOk result (λ passed. (passed.base ≡ base)
        × (passed.resource ≡ sums_resource settings.now price)) }
    ensures right { IfOk result (λ passed. (t : TimetableSpec.Timetable) → TimetableSpec.IsSound t
        → AreDuties settings.now t (arc_value course.now).duties
        → ShowsFronts settings.now t base price passed.pass) }
{
    sums_passes_show_the_fronts();
    see_reports(course);
    let resource = SumsResource::new(settings, price);
    let shared = Arc::new(alloc, resource)?;
    let passed = pass_by_threads(rt, alloc, threads, course, earlier, &shared, base)?;
    Ok(passed)
}
