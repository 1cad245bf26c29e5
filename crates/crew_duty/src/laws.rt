//! What holds of all legal duties.

ghost use Rattle.std.specs.Prelude.{◌≡◌, List};
ghost use Rattle.crew_flights.specs.Timetable.{Timetable};
ghost use Rattle.crew_pairing.specs.Duties.{AreDuties};
ghost use Rattle.crew_pairing.specs.declared.duty.Duty.{Duty};
ghost use Rattle.crew_rules.specs.declared.settings.Settings.{Settings};

/// The legal duties of a timetable, by key, are one list: so there are more than 200,000 of them,
/// or there are not.
pub fn duties_are_unique()
    ensures { (s : Settings) (t : Timetable) (ds es : List Duty) → AreDuties s t ds
        → AreDuties s t es → ds ≡ es }
{}
