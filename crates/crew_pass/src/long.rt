//! The fronts of pairings of up to 240 hours.
ghost use Rattle.std.specs.Prelude.{◌≡◌, IfOk};
ghost use Rattle.std.specs.Arc.{arc_value};
ghost use Rattle.crew_answers.specs.Schedules.{IsDated};
ghost use Rattle.crew_flights.specs.Timetable as TimetableSpec;
ghost use Rattle.crew_pairing.specs.Duties.{AreDuties};
ghost use Rattle.crew_pairing.specs.Events.{IsSound};
ghost use Rattle.crew_pairing.specs.declared.duty.Duty.{Duty};
ghost use Rattle.crew_resource.specs.Members.{Member};
ghost use Rattle.crew_rules.specs.Settings.{IsChecked};
ghost use Rattle.crew_pass.specs.Passes.{ShowsFronts};

use crate::base_fronts::BaseFronts;
use crate::course::Course;
use crate::laws::long_passes_show_the_fronts;
use crate::passing::pass;
use crew_answers::crew_vector::VectorResource;
use crew_answers::{LongResource, settings_of_sums};
use crew_flights::Code;
use crew_rules::Settings;
use std::alloc::{AllocError, Global};
use std::sync::Arc;

/// The fronts of a base's duties, of pairings of up to 240 hours: at each legal duty of the course's
/// timetable they show the duty's front.
///
/// The course's network may be of settings with another cap on the minutes away, since no legal duty
/// and no rest between two depends on it.
pub fn long_fronts(
    alloc: Global,
    course: &Arc<Course, Global>,
    settings: &Settings,
    base: Code,
    price: i64,
) -> Result<BaseFronts<LongResource>, AllocError>
    requires sound { (d : Duty) → Member (arc_value course.now).duties d → IsSound d }
    requires checked { IsChecked settings.now }
    requires price { TimetableSpec.IsBasePrice price }
    requires settings { (arc_value course.now).settings
        ≡ record settings.now { away_cap = (arc_value course.now).settings.away_cap } }
    ensures net { IfOk result (λ fronts. fronts.net ≡ arc_value course.now) }
    ensures right { IfOk result (λ fronts. (t : TimetableSpec.Timetable) → TimetableSpec.IsSound t
        → IsDated t → AreDuties settings.now t (arc_value course.now).duties
        → ShowsFronts settings.now t base price fronts) }
{
    long_passes_show_the_fronts();
    let sums = VectorResource::under(&settings_of_sums(settings), price);
    let resource = LongResource::new(sums, settings);
    let shared = Arc::new(alloc, resource)?;
    let passed = pass(alloc, course, None, &shared, base)?;
    Ok(passed.into_fronts())
}
