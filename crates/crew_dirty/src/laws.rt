//! What holds of every edit.
ghost use Rattle.std.specs.Prelude.{◌≡◌, ◌↔◌, ℕ, ℤ, List, Option, true};
ghost use Rattle.crew_answers.specs.Fronts.{IsFrontAt};
ghost use Rattle.crew_answers.specs.LongVectors.{LongVector};
ghost use Rattle.crew_dirty.specs.Dirty.{IsNetOver, IsUnreached, IsUntouched};
ghost use Rattle.crew_flights.specs.Timetable.{IsSound, Timetable};
ghost use Rattle.crew_net.specs.Nets.{Net};
ghost use Rattle.crew_pairing.specs.Legs.{Leg};
ghost use Rattle.crew_pairing.specs.Pairings.{may_stand_after};
ghost use Rattle.crew_pairing.specs.declared.duty.Duty.{Duty};
ghost use Rattle.crew_resource.specs.Members.{Member};
ghost use Rattle.crew_rules.specs.Settings.{IsChecked};
ghost use Rattle.crew_rules.specs.declared.settings.Settings.{Settings};

/// A node that no edit reaches keeps its front: what is its front in the old timetable is its front
/// in the new one.
pub fn unreached_nodes_keep_their_fronts()
    ensures { (s : Settings) (t u : Timetable) (old new : Net) (old_price new_price : Option ℤ)
        (base : List ℕ) (price : ℤ) (d : Duty) (entries : List (LongVector × List (List Leg)))
        → IsChecked s → IsSound t → IsSound u → old.settings ≡ s → new.settings ≡ s
        → IsNetOver t old → IsNetOver u new → Member new.duties d
        → IsUnreached old new old_price new_price base d
        → IsFrontAt s t base price d entries
        → IsFrontAt s u base price d entries }
{}

/// A node isn't reached exactly where it isn't touched and none of the nodes just before it is
/// reached.
pub fn unreached_nodes_stand_after_unreached_ones()
    ensures { (old new : Net) (old_price new_price : Option ℤ) (base : List ℕ) (d : Duty)
        → Member new.duties d → (IsUnreached old new old_price new_price base d
        ↔ (IsUntouched old new old_price new_price base d
        × ((e : Duty) → Member new.duties e → may_stand_after new.settings e d ≡ true
        → IsUnreached old new old_price new_price base e))) }
{}
