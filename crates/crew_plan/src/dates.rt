//! When flights depart.
//!
//! That flights depart at instants is no part of a sound timetable: it is what the type of a minute
//! keeps, so each flight is looked at once as a plan is made.
ghost use Rattle.crew_fronts.specs.crew_answers.Schedules.{IsDated};
ghost use Rattle.crew_flights.specs.Timetable.{IsSound};

use crew_flights::Timetable;

/// Looks at the flights of a timetable: each departs at an instant. It takes no memory.
pub(crate) fn see_dates(timetable: &Timetable)
    ensures dated { IsDated timetable.now }
    ensures sound { IsSound timetable.now }
{
    for flight in timetable.flights() {
        let _ = flight.dep.get();
    }
}
