//! Laws over the definitions alone.

ghost use Rattle.std.specs.Prelude.{◌≡◌, ℕ, List, None, Some};
ghost use Rattle.crew_flights.specs.Timetable.{IsSound, Timetable};
ghost use Rattle.crew_rules.specs.Settings.{IsChecked};
ghost use Rattle.crew_rules.specs.declared.settings.Settings.{Settings};
ghost use Rattle.crew_pairing.specs.Legs.{Leg};
ghost use Rattle.crew_pairing.specs.declared.duty.Duty.{Duty};
ghost use Rattle.crew_explain.specs.Explanations.{IsPairingOf};
ghost use Rattle.crew_explain.specs.Rules.{breach_of};

/// A walk over a timetable breaks no rule exactly where it is a pairing of the base.
pub fn rules_tell_the_pairings()
    ensures legal { (s : Settings) (t : Timetable) (base : List ℕ) (walk : List (List Leg))
        → IsSound t → breach_of s t base walk ≡ None
        → (duties : List Duty) × IsPairingOf s t base walk duties }
    ensures unbroken { (s : Settings) (t : Timetable) (base : List ℕ) (walk : List (List Leg))
        (duties : List Duty) → IsSound t → IsPairingOf s t base walk duties
        → breach_of s t base walk ≡ None }
{}
