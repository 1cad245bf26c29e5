//! What holds of every network.

ghost use Rattle.std.specs.Prelude.{◌≡◌, ◌≤ℤ◌, ◌<ℤ◌, ◌+ℤ◌, pos, true, List};
ghost use Rattle.crew_pairing.specs.Events.{arrival_of, departure_of, may_wait};
ghost use Rattle.crew_flights.specs.Timetable as TimetableSpec;
ghost use Rattle.crew_flights.specs.Timetable.{Timetable};
ghost use Rattle.crew_pairing.specs.Duties.{AreDuties};
ghost use Rattle.crew_pairing.specs.Pairings.{may_stand_after};
ghost use Rattle.crew_pairing.specs.declared.duty.Duty.{Duty};
ghost use Rattle.crew_resource.specs.Members.{Member};
ghost use Rattle.crew_pairing.specs.crew_rules.Settings.{IsChecked};
ghost use Rattle.crew_pairing.specs.crew_rules.declared.settings.Settings.{Settings};

/// Arcs rise in report: of two legal duties the one that may stand just before the other reports
/// ten hours earlier or more.
pub fn arcs_rise_in_report()
    ensures { (s : Settings) (t : Timetable) (duties : List Duty) (before next : Duty)
        → IsChecked s → TimetableSpec.IsSound t → AreDuties s t duties → Member duties before
        → may_stand_after s before next ≡ true → (before.report +ℤ pos 600) ≤ℤ next.report }
{}

/// A duty may stand just after another exactly where its departure may wait on the other's
/// arrival.
pub fn arcs_go_over_events()
    ensures { (s : Settings) (before next : Duty) → may_stand_after s before next
        ≡ may_wait s (arrival_of before) (departure_of next) }
{}
