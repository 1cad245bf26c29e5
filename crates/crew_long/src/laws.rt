//! Laws over the definitions alone.
ghost use Rattle.std.specs.Prelude.{◌≡◌, ◌≤◌, ◌≤ℤ◌, true, false, ℤ, pos, List, ◌∷◌, Some, length};
ghost use Rattle.crew_history.specs.crew_pairing.declared.duty.Duty.{Duty};
ghost use Rattle.crew_resource.specs.Members.{Each};
ghost use Rattle.crew_resource.specs.declared.both.Both.{Both};
ghost use Rattle.crew_history.specs.Limits.{AreInOrder, IsFreeBeforeReports, KeepsWindows, history_of, last_rest_end};
ghost use Rattle.crew_long.specs.Recents.{is_dated, recent_periods};
ghost use Rattle.crew_long.specs.RestEnds.{rest_end_at};
ghost use Rattle.crew_long.specs.declared.recent.Recent.{Recent};
ghost use Rattle.crew_long.specs.declared.rest_end.RestEnd.{RestEnd};
ghost use Rattle.crew_long.specs.declared.since_rest.SinceRest.{SinceRest};
ghost use Rattle.crew_long.specs.declared.window.Window.{Window};

use crate::{SinceRest, Window};
use crew_forgetful::Forgets;
use crew_history::crew_pairing::Duty;
use crew_resource::{Both, Resource};

/// Of duties in order: a list has a value exactly where free minutes lie before each of its
/// reports, and that is the end of its last long rest. Off, all lists have one value.
pub fn since_rest_tells_free_minutes()
    ensures value { (s : SinceRest) (first : Duty) (others : List Duty) → s.is_on ≡ true
        → AreInOrder first others → IsFreeBeforeReports first others
        → ⟦<SinceRest as Resource>⟧.value_of s (first ∷ others)
        ≡ Some (rest_end_at (last_rest_end first others)) }
    ensures free { (s : SinceRest) (first : Duty) (others : List Duty) (v : RestEnd)
        → s.is_on ≡ true → AreInOrder first others
        → ⟦<SinceRest as Resource>⟧.value_of s (first ∷ others) ≡ Some v
        → IsFreeBeforeReports first others }
    ensures off { (s : SinceRest) (first : Duty) (others : List Duty) → s.is_on ≡ false
        → ⟦<SinceRest as Resource>⟧.value_of s (first ∷ others) ≡ Some (rest_end_at (pos 0)) }
{}

/// Of at most twelve duties in order: a list has a value exactly where every window keeps the cap,
/// and that has the history of the list. Off, all lists have one value.
pub fn window_tells_the_windows()
    ensures value { (s : Window) (first : Duty) (others : List Duty) → s.is_on ≡ true
        → pos 0 ≤ℤ s.cap → AreInOrder first others
        → Each (λ d. is_dated d ≡ true) (first ∷ others) → length (first ∷ others) ≤ 12
        → KeepsWindows s.cap (first ∷ others) → (v : Recent)
        × (⟦<Window as Resource>⟧.value_of s (first ∷ others) ≡ Some v)
        × (recent_periods v ≡ history_of first others) × (v.duties ≡ length (first ∷ others)) }
    ensures keeps { (s : Window) (first : Duty) (others : List Duty) (v : Recent)
        → s.is_on ≡ true → pos 0 ≤ℤ s.cap → AreInOrder first others
        → ⟦<Window as Resource>⟧.value_of s (first ∷ others) ≡ Some v
        → KeepsWindows s.cap (first ∷ others) }
    ensures off { (s : Window) → s.is_on ≡ false → (v : Recent)
        × ((first : Duty) (others : List Duty)
        → ⟦<Window as Resource>⟧.value_of s (first ∷ others) ≡ Some v) }
{}

/// Beside any resource of duties, as the seven sums of a vector: of at most twelve duties in order,
/// a list has a value of all three exactly where it has one of the first, is free before its
/// reports and keeps the windows.
pub fn long_values_have_three_parts<R: Resource<Item = Duty>>()
    ensures value { (r : Both R (Both SinceRest Window)) (first : Duty) (others : List Duty)
        (v : R.Value) → r.second.first.is_on ≡ true → r.second.second.is_on ≡ true
        → pos 0 ≤ℤ r.second.second.cap → AreInOrder first others
        → Each (λ d. is_dated d ≡ true) (first ∷ others) → length (first ∷ others) ≤ 12
        → R.value_of r.first (first ∷ others) ≡ Some v → IsFreeBeforeReports first others
        → KeepsWindows r.second.second.cap (first ∷ others) → (recent : Recent)
        × (⟦<Both<R, Both<SinceRest, Window>> as Resource>⟧.value_of r (first ∷ others)
        ≡ Some (v, (rest_end_at (last_rest_end first others), recent)))
        × (recent_periods recent ≡ history_of first others) }
    ensures legal { (r : Both R (Both SinceRest Window)) (first : Duty) (others : List Duty)
        (z : R.Value × (RestEnd × Recent)) → r.second.first.is_on ≡ true
        → r.second.second.is_on ≡ true → pos 0 ≤ℤ r.second.second.cap
        → AreInOrder first others
        → ⟦<Both<R, Both<SinceRest, Window>> as Resource>⟧.value_of r (first ∷ others) ≡ Some z
        → (R.value_of r.first (first ∷ others) ≡ Some z.0) × IsFreeBeforeReports first others
        × KeepsWindows r.second.second.cap (first ∷ others) }
{}

/// And of the three, the first alone has sums: the other two may be forgotten.
pub fn long_values_keep_the_first_sums<R: Forgets<Duty>>()
    ensures { (a b : R.Value × (RestEnd × Recent))
        → ⟦<Both<R, Both<SinceRest, Window>> as Forgets<Duty>>⟧.same_sums a b
        ≡ R.same_sums a.0 b.0 }
{}
