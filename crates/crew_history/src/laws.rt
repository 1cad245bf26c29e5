//! Laws over the definitions alone.
ghost use Rattle.std.specs.Prelude.{◌≡◌, ◌≤◌, ℕ, Bool, true, false, IsTrue, ◌↔◌, ℤ, pos, ◌-ℤ◌, ◌≤ℤ◌, ◌<ℤ◌, List, [], ◌∷◌, ◌++◌, map, Option, Some};
ghost use Rattle.crew_pairing.specs.crew_flights.Timetable.{IsSound, Timetable};
ghost use Rattle.crew_pairing.specs.crew_rules.declared.settings.Settings.{Settings};
ghost use Rattle.crew_pairing.specs.Duties.{flights_of};
ghost use Rattle.crew_pairing.specs.Pairings.{AllRested, IsDuty, IsPartial};
ghost use Rattle.crew_pairing.specs.declared.duty.Duty.{Duty};
ghost use Rattle.crew_resource.specs.Members.{Each, Member};
ghost use Rattle.crew_resource.specs.Resource.{OrderLaws};
ghost use Rattle.crew_history.specs.Histories.{minutes_after, IsHistory, IsNoMore, is_no_more, cut, grown, EndsBefore, minutes_within, KeepsCap, boarded_history, history_from, begins_before};
ghost use Rattle.crew_history.specs.HistoryValues.{periods_of, history_at_most};
ghost use Rattle.crew_history.specs.Limits.{AreInOrder, IsFreeBeforeReports, KeepsWindows, history_of, period_of, since_rest};
ghost use Rattle.crew_history.specs.LongPairings.{IsLongPartial};
ghost use Rattle.crew_history.specs.declared.history.History.{History};

use crate::History;

/// Legal duties of a timetable, each after a rest from the one before, come in order.
pub fn legal_duties_come_in_order()
    ensures { (s : Settings) (t : Timetable) (first : Duty) (others : List Duty) → IsSound t
        → Each (IsDuty s (flights_of t)) (first ∷ others) → AllRested s first others
        → AreInOrder first others }
{}

/// A pairing of at most 138 hours is legal by the rules of longer ones exactly where it is by its
/// own.
pub fn short_pairings_are_as_before()
    ensures long { (s : Settings) (t : Timetable) (base : List ℕ) (first : Duty)
        (others : List Duty) → IsSound t → s.away_cap ≤ 8_280
        → IsPartial s (flights_of t) base first others
        → IsLongPartial s (flights_of t) base first others }
    ensures short { (s : Settings) (t : Timetable) (base : List ℕ) (first : Duty)
        (others : List Duty) → IsSound t → s.away_cap ≤ 8_280
        → IsLongPartial s (flights_of t) base first others
        → IsPartial s (flights_of t) base first others }
{}

/// Of duties in order: where every window keeps the cap, the list has a history, of what lies in
/// the window that ends with the last arrival; and where it has one, every window keeps the cap.
pub fn histories_tell_the_windows()
    ensures { (cap : ℤ) (first : Duty) (others : List Duty) → pos 0 ≤ℤ cap
        → AreInOrder first others
        → (KeepsWindows cap (first ∷ others)
        → history_from (pos 10_080) cap [] (map period_of (first ∷ others))
        ≡ Some (history_of first others))
        × ((h : List (ℤ × ℤ)) → history_from (pos 10_080) cap [] (map period_of (first ∷ others))
        ≡ Some h → KeepsWindows cap (first ∷ others)) }
{}

/// Of duties in order: free minutes lie before each report exactly where in each beginning of the
/// list the last report comes at most 8,280 minutes after the end of the last long rest.
pub fn last_rests_tell_free_minutes()
    ensures { (first : Duty) (others : List Duty) → AreInOrder first others
        → (IsFreeBeforeReports first others → (before after : List Duty)
        → before ++ after ≡ others → since_rest first before ≤ℤ pos 8_280)
        × (((before after : List Duty) → before ++ after ≡ others
        → since_rest first before ≤ℤ pos 8_280) → IsFreeBeforeReports first others) }
{}

/// Histories are ordered by the duty minutes after every instant, and it suffices to compare them
/// at the starts of the first.
pub fn histories_are_ordered()
    ensures reflexive { (h : List (ℤ × ℤ)) → IsNoMore h h }
    ensures transitive { (h k l : List (ℤ × ℤ)) → IsNoMore h k → IsNoMore k l → IsNoMore h l }
    ensures antisymmetric { (h k : List (ℤ × ℤ)) → IsHistory h → IsHistory k → IsNoMore h k
        → IsNoMore k h → h ≡ k }
    ensures tested { (h k : List (ℤ × ℤ)) → IsHistory h → IsHistory k
        → (is_no_more h k ≡ true → IsNoMore h k) × (IsNoMore h k → is_no_more h k ≡ true) }
{}

/// One period more, and the cut to the window that ends with it, keep histories and their order;
/// what was cut off before is not missed. Where nothing of the lesser is cut off, it was no more
/// before.
pub fn histories_grow_in_order()
    ensures history { (window : ℤ) (h : List (ℤ × ℤ)) (p : ℤ × ℤ) → IsHistory h
        → EndsBefore h p.0 → p.0 <ℤ p.1 → IsHistory (grown window h p) }
    ensures order { (window : ℤ) (h k : List (ℤ × ℤ)) (p : ℤ × ℤ) → IsNoMore h k
        → IsNoMore (grown window h p) (grown window k p) }
    ensures boards { (window cap : ℤ) (h k c : List (ℤ × ℤ)) (p : ℤ × ℤ) → IsNoMore h k
        → boarded_history window cap k p ≡ Some c
        → (z : List (ℤ × ℤ)) × (boarded_history window cap h p ≡ Some z) × IsNoMore z c }
    ensures cut_before { (window c : ℤ) (h : List (ℤ × ℤ)) (p : ℤ × ℤ) → IsHistory h
        → EndsBefore h p.0 → p.0 <ℤ p.1 → c ≤ℤ (p.1 -ℤ window)
        → grown window (cut c h) p ≡ grown window h p }
    ensures uncut { (window : ℤ) (h k : List (ℤ × ℤ)) (p : ℤ × ℤ) → IsHistory h
        → begins_before h (p.1 -ℤ window) ≡ false
        → IsNoMore (grown window h p) (grown window k p) → IsNoMore h k }
{}

/// Of the windows only those that end with a period need testing: with one period more only its
/// own, and the history that is cut to it has all its minutes.
pub fn last_windows_suffice()
    ensures each { (window cap : ℤ) (h : List (ℤ × ℤ)) → IsHistory h → pos 0 ≤ℤ window
        → pos 0 ≤ℤ cap → ((p : ℤ × ℤ) → Member h p
        → minutes_within h (p.1 -ℤ window) p.1 ≤ℤ cap) → KeepsCap window cap h }
    ensures one_more { (window cap : ℤ) (h : List (ℤ × ℤ)) (p : ℤ × ℤ) → IsHistory h
        → EndsBefore h p.0 → p.0 <ℤ p.1 → pos 0 ≤ℤ window → pos 0 ≤ℤ cap
        → (KeepsCap window cap (h ++ p ∷ []) → KeepsCap window cap h
        × (minutes_after (h ++ p ∷ []) (p.1 -ℤ window) ≤ℤ cap))
        × (KeepsCap window cap h → minutes_after (h ++ p ∷ []) (p.1 -ℤ window) ≤ℤ cap
        → KeepsCap window cap (h ++ p ∷ [])) }
    ensures in_the_cut { (window : ℤ) (h : List (ℤ × ℤ)) (p : ℤ × ℤ)
        → minutes_after (grown window h p) (p.1 -ℤ window)
        ≡ minutes_after (h ++ p ∷ []) (p.1 -ℤ window) }
{}

/// Of histories of fixed size: the test at the starts of the first orders all of them, and the
/// listing tells them apart.
pub fn fixed_histories_are_ordered()
    ensures order { OrderLaws ⟦<History as Ord>⟧.cmp history_at_most }
    ensures minutes { (a b : History) → IsTrue (history_at_most a b)
        ↔ IsNoMore (periods_of a) (periods_of b) }
{}
