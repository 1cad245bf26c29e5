//! What holds of all partial pairings.

ghost use Rattle.std.specs.Prelude.{◌≡◌, List};
ghost use Rattle.crew_flights.specs.Timetable.{Timetable};
ghost use Rattle.crew_rules.specs.declared.settings.Settings.{Settings};
ghost use Rattle.crew_audit.specs.Partials.{ArePartials};
ghost use Rattle.crew_audit.specs.declared.partial.Partial.{Partial};

/// The partial pairings of a timetable, by base and walk, are one list: so there are more of them
/// than a limit, or there are not.
pub fn partials_are_unique()
    ensures { (s : Settings) (t : Timetable) (ps qs : List Partial) → ArePartials s t ps
        → ArePartials s t qs → ps ≡ qs }
{}
