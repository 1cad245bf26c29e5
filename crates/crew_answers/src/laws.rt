//! Laws over the definitions alone.
ghost use Rattle.std.specs.Prelude.{◌≡◌, true, ◌≤◌, ◌≤ℤ◌, ℕ, ℤ, pos, ◌+ℤ◌, ◌-ℤ◌, ◌*ℤ◌, List, [], ◌∷◌, ◌++◌, Option, Some, None};
ghost use Rattle.crew_flights.specs.Timetable as TimetableSpec;
ghost use Rattle.crew_flights.specs.Timetable.{Timetable};
ghost use Rattle.crew_rules.specs.Settings.{IsChecked};
ghost use Rattle.crew_rules.specs.declared.settings.Settings.{Settings};
ghost use Rattle.crew_pairing.specs.Duties.{AreDuties, flights_of};
ghost use Rattle.crew_pairing.specs.Events.{arrival_of, departure_of};
ghost use Rattle.crew_pairing.specs.declared.events.Arrival.{Arrival};
ghost use Rattle.crew_pairing.specs.declared.events.Departure.{Departure};
ghost use Rattle.crew_forgetful.specs.Sweeps.{IsCoveredPass, IsFrontOf, IsSchedule, TellCount};
ghost use Rattle.crew_forgetful.specs.Sweeps as Sweeps;
ghost use Rattle.crew_resource.specs.Members.{Each, Member};
ghost use Rattle.crew_pairing.specs.Pairings.{AllRested, IsDuty, IsPartial, last_duty, may_stand_after};
ghost use Rattle.crew_pairing.specs.Vectors.{cost_of, reduced_cost, vector_of};
ghost use Rattle.crew_pairing.specs.declared.duty.Duty.{Duty};
ghost use Rattle.crew_pairing.specs.Keys.{walk_at_most};
ghost use Rattle.crew_pairing.specs.Legs.{Leg};
ghost use Rattle.crew_pairing.specs.declared.vector.PairingVector.{PairingVector};
ghost use Rattle.crew_vector.specs.Bests as PlainBests;
ghost use Rattle.crew_vector.specs.Bests.{NoDearer};
ghost use Rattle.crew_vector.specs.Dominance as PlainOrder;
ghost use Rattle.crew_vector.specs.Fronts as PlainFronts;
ghost use Rattle.crew_vector.specs.Locals as PlainLocals;
ghost use Rattle.crew_vector.specs.declared.priced.PricedPairing.{PricedPairing};
ghost use Rattle.crew_history.specs.Limits.{AreInOrder};
ghost use Rattle.crew_history.specs.LongPairings.{IsLongPartial};
ghost use Rattle.crew_answers.specs.Bests.{AreFronts, IsBest, IsCleanPairing, IsHomeEntry, IsPairing, IsScratch};
ghost use Rattle.crew_answers.specs.Dominance.{IsAtMost, is_at_most};
ghost use Rattle.crew_answers.specs.Fronts.{At, Clean, IsFrontAt, IsUndominated, RiseByVector, vector_cmp};
ghost use Rattle.crew_answers.specs.Locals.{AreFrontsBefore, Feed, IsLocalAt, grown, is_within_limits};
ghost use Rattle.crew_answers.specs.LongVectors.{LongVector, long_vector_of, settings_of_sums};
ghost use Rattle.crew_answers.specs.Schedules.{IsDated, schedule_of};
ghost use Rattle.crew_answers.specs.Shown.{long_resource, shown, shown_entries};
ghost use Rattle.crew_answers.specs.declared.resource.LongResource.{LongResource};
ghost use Rattle.crew_answers.specs.declared.value.LongValue.{LongValue};
ghost use Rattle.crew_answers.specs.ShortPairings.{fed_with_no_past, sums_of, with_no_past, with_no_pasts};

use crate::{LongResource, LongValue};
use crew_forgetful::Forgets;
use crew_pairing::{Duty, Key};
use crew_resource::{Placed, Resource, Staged};

/// Where settings allow at most 138 hours, a list is a partial by the rules of longer pairings
/// exactly where it is by its own, and its vector has no past.
pub fn short_partials_are_as_before()
    ensures short { (s : Settings) (t : Timetable) (base : List ℕ) (first : Duty)
        (others : List Duty) → TimetableSpec.IsSound t → s.away_cap ≤ 8_280
        → IsLongPartial s (flights_of t) base first others
        → IsPartial (settings_of_sums s) (flights_of t) base first others }
    ensures long { (s : Settings) (t : Timetable) (base : List ℕ) (first : Duty)
        (others : List Duty) → TimetableSpec.IsSound t → s.away_cap ≤ 8_280
        → IsPartial (settings_of_sums s) (flights_of t) base first others
        → IsLongPartial s (flights_of t) base first others }
    ensures vector { (s : Settings) (price : ℤ) (first : Duty) (others : List Duty)
        → s.away_cap ≤ 8_280 → long_vector_of s price first others
        ≡ with_no_past (vector_of (settings_of_sums s) price (first ∷ others)) }
{}

/// There the cap of a window is one on all flight duty minutes, so the settings stay.
pub fn short_settings_stay()
    ensures { (s : Settings) → s.away_cap ≤ 8_280 → settings_of_sums s ≡ s }
{}

/// And partials of a node, clean ones and fronts are as before, each vector without a past.
pub fn short_fronts_are_as_before()
    ensures at_most { (a b : PairingVector)
        → is_at_most (with_no_past a) (with_no_past b) ≡ PlainOrder.is_at_most a b }
    ensures at { (s : Settings) (t : Timetable) (base : List ℕ) (price : ℤ)
        (d : Duty) (v : PairingVector) (w : List (List Leg)) → TimetableSpec.IsSound t
        → s.away_cap ≤ 8_280
        → (PlainFronts.At (settings_of_sums s) t base price d v w
        → At s t base price d (with_no_past v) w)
        × (At s t base price d (with_no_past v) w
        → PlainFronts.At (settings_of_sums s) t base price d v w) }
    ensures clean { (s : Settings) (t : Timetable) (base : List ℕ) (price : ℤ)
        (d : Duty) (v : PairingVector) (w : List (List Leg)) → TimetableSpec.IsSound t
        → s.away_cap ≤ 8_280
        → (PlainFronts.Clean (settings_of_sums s) t base price d v w
        → Clean s t base price d (with_no_past v) w)
        × (Clean s t base price d (with_no_past v) w
        → PlainFronts.Clean (settings_of_sums s) t base price d v w) }
    ensures long { (s : Settings) (t : Timetable) (base : List ℕ) (price : ℤ)
        (d : Duty) (entries : List (PairingVector × List (List Leg))) → TimetableSpec.IsSound t
        → s.away_cap ≤ 8_280
        → PlainFronts.IsFrontAt (settings_of_sums s) t base price d entries
        → IsFrontAt s t base price d (with_no_pasts entries) }
    ensures short { (s : Settings) (t : Timetable) (base : List ℕ) (price : ℤ)
        (d : Duty) (entries : List (LongVector × List (List Leg))) → TimetableSpec.IsSound t
        → s.away_cap ≤ 8_280 → IsFrontAt s t base price d entries
        → PlainFronts.IsFrontAt (settings_of_sums s) t base price d (sums_of entries)
        × (with_no_pasts (sums_of entries) ≡ entries) }
{}

/// And what is local to a node.
pub fn short_local_entries_are_as_before()
    ensures long { (s : Settings) (base : List ℕ) (price : ℤ) (d : Duty)
        (feed : PlainLocals.Feed) (entries : List (PairingVector × List (List Leg)))
        → s.away_cap ≤ 8_280
        → PlainLocals.IsLocalAt (settings_of_sums s) base price d feed entries
        → IsLocalAt s base price d (fed_with_no_past feed) (with_no_pasts entries) }
    ensures short { (s : Settings) (base : List ℕ) (price : ℤ) (d : Duty)
        (feed : PlainLocals.Feed) (entries : List (LongVector × List (List Leg)))
        → s.away_cap ≤ 8_280
        → IsLocalAt s base price d (fed_with_no_past feed) entries
        → PlainLocals.IsLocalAt (settings_of_sums s) base price d feed (sums_of entries)
        × (with_no_pasts (sums_of entries) ≡ entries) }
{}

/// And the best pairing, and what a timetable gives from scratch.
pub fn short_answers_are_as_before()
    ensures best { (s : Settings) (t : Timetable) (best : Option PricedPairing)
        → TimetableSpec.IsSound t → s.away_cap ≤ 8_280
        → (PlainBests.IsBest (settings_of_sums s) t best → IsBest s t best)
        × (IsBest s t best → PlainBests.IsBest (settings_of_sums s) t best) }
    ensures long { (s : Settings) (t : Timetable)
        (front : List ℕ → Duty → List (PairingVector × List (List Leg)))
        (best : Option PricedPairing) → TimetableSpec.IsSound t → s.away_cap ≤ 8_280
        → PlainBests.IsScratch (settings_of_sums s) t front best
        → IsScratch s t (λ base d. with_no_pasts (front base d)) best }
    ensures short { (s : Settings) (t : Timetable)
        (front : List ℕ → Duty → List (LongVector × List (List Leg)))
        (best : Option PricedPairing) → TimetableSpec.IsSound t → s.away_cap ≤ 8_280
        → IsScratch s t front best
        → PlainBests.IsScratch (settings_of_sums s) t (λ base d. sums_of (front base d)) best }
{}

/// The cost of a vector is the pairing's pay, less the prices of its flights and of its base, and a
/// vector that is at most another costs no more.
pub fn cost_is_pay_less_prices()
    ensures cost { (s : Settings) (price : ℤ) (first : Duty) (others : List Duty)
        → reduced_cost (long_vector_of s price first others).sums
        ≡ cost_of s price (first ∷ others) }
    ensures order { (a b : LongVector) → is_at_most a b ≡ true
        → reduced_cost a.sums ≤ℤ reduced_cost b.sums }
{}

/// Of duties in order: the test at the starts of one history tells exactly where one vector is at most
/// another, after every instant.
pub fn vectors_are_compared_after_every_instant()
    ensures { (s : Settings) (price : ℤ) (first : Duty) (others : List Duty) (other_first : Duty)
        (other_others : List Duty) (a b : LongVector) → AreInOrder first others
        → AreInOrder other_first other_others → a ≡ long_vector_of s price first others
        → b ≡ long_vector_of s price other_first other_others
        → (is_at_most a b ≡ true → IsAtMost a b) × (IsAtMost a b → is_at_most a b ≡ true) }
{}

/// Each undominated vector of a node has a clean partial there.
pub fn undominated_vectors_have_clean_partials()
    ensures { (s : Settings) (t : Timetable) (base : List ℕ) (price : ℤ) (d : Duty)
        (v : LongVector) → IsChecked s → TimetableSpec.IsSound t
        → IsUndominated s t base price d v → (w : List (List Leg))
        × Clean s t base price d v w }
{}

/// Each node has a front.
pub fn each_node_has_a_front()
    ensures { (s : Settings) (t : Timetable) (base : List ℕ) (price : ℤ) (d : Duty)
        → IsChecked s → TimetableSpec.IsSound t → IsDuty s (flights_of t) d
        → (entries : List (LongVector × List (List Leg)))
        × IsFrontAt s t base price d entries }
{}

/// A node has one front: two of them have the same entries, and in order of vector they are one
/// list.
pub fn fronts_are_unique()
    ensures entries { (s : Settings) (t : Timetable) (base : List ℕ) (price : ℤ)
        (d : Duty) (es fs : List (LongVector × List (List Leg)))
        → IsFrontAt s t base price d es → IsFrontAt s t base price d fs
        → (v : LongVector) (w : List (List Leg)) → Member es (v, w) → Member fs (v, w) }
    ensures listed { (s : Settings) (t : Timetable) (base : List ℕ) (price : ℤ)
        (d : Duty) (es fs : List (LongVector × List (List Leg)))
        → IsFrontAt s t base price d es → IsFrontAt s t base price d fs
        → RiseByVector es → RiseByVector fs → es ≡ fs }
{}

/// Under each pairing lies a clean one that costs no more; so the best costs the least of all
/// pairings, clean or not.
pub fn best_costs_least()
    ensures clean { (s : Settings) (t : Timetable) (p : PricedPairing)
        → IsChecked s → TimetableSpec.IsSound t → IsPairing s t p
        → (q : PricedPairing) × IsCleanPairing s t q × (q.cost ≤ℤ p.cost) }
    ensures least { (s : Settings) (t : Timetable) (best p : PricedPairing)
        → IsChecked s → TimetableSpec.IsSound t → IsBest s t (Some best)
        → IsPairing s t p → best.cost ≤ℤ p.cost }
{}

/// There is one best pairing, or none: cost and walk tell its base, its pay and its minutes away.
pub fn best_is_unique()
    ensures { (s : Settings) (t : Timetable) (a b : Option PricedPairing)
        → TimetableSpec.IsSound t → IsBest s t a → IsBest s t b → a ≡ b }
{}

/// Where fronts are right, the entry at home that is least by cost and walk is the best pairing,
/// and there is none where there is no such entry. An entry at home tells its pairing's cost, pay
/// and minutes away.
pub fn best_is_the_least_entry_at_home()
    ensures pairing { (s : Settings) (t : Timetable)
        (front : List ℕ → Duty → List (LongVector × List (List Leg)))
        → AreFronts s t front → (base : List ℕ) (v : LongVector) (w : List (List Leg))
        → IsHomeEntry s t front base v w → (p : PricedPairing) × IsCleanPairing s t p
        × (p.base ≡ base) × (p.walk ≡ w) × (p.cost ≡ reduced_cost v.sums)
        × (p.pay ≡ reduced_cost v.sums
        +ℤ (pos s.trip_rig *ℤ v.sums.away -ℤ v.sums.trip_rig)) × (p.away ≡ v.sums.away) }
    ensures best { (s : Settings) (t : Timetable)
        (front : List ℕ → Duty → List (LongVector × List (List Leg))) (best : PricedPairing)
        → IsChecked s → TimetableSpec.IsSound t → AreFronts s t front
        → IsCleanPairing s t best
        → ((base : List ℕ) (v : LongVector) (w : List (List Leg))
        → IsHomeEntry s t front base v w
        → NoDearer best.cost best.walk (reduced_cost v.sums) w)
        → IsBest s t (Some best) }
    ensures none { (s : Settings) (t : Timetable)
        (front : List ℕ → Duty → List (LongVector × List (List Leg))) → IsChecked s
        → TimetableSpec.IsSound t → AreFronts s t front
        → ((base : List ℕ) (v : LongVector) (w : List (List Leg))
        → IsHomeEntry s t front base v w → ⊥) → IsBest s t None }
{}

/// Whole lists and steps are one: a duty that leaves the base is a partial where its vector is
/// within the limits; a partial with a duty after it is one where its vector with that duty is, and
/// has that vector; and each beginning of a partial is one.
pub fn partials_grow_duty_by_duty()
    ensures first { (s : Settings) (t : Timetable) (base : List ℕ) (price : ℤ)
        (d : Duty) → IsChecked s → TimetableSpec.IsSound t → IsDuty s (flights_of t) d
        → d.from ≡ base
        → (is_within_limits s d (long_vector_of s price d []) ≡ true
        → IsLongPartial s (flights_of t) base d [])
        × (IsLongPartial s (flights_of t) base d []
        → is_within_limits s d (long_vector_of s price d []) ≡ true) }
    ensures next { (s : Settings) (t : Timetable) (base : List ℕ) (price : ℤ)
        (first : Duty) (others : List Duty) (d : Duty) → IsChecked s
        → TimetableSpec.IsSound t
        → IsLongPartial s (flights_of t) base first others
        → IsDuty s (flights_of t) d → may_stand_after s (last_duty first others) d ≡ true
        → (is_within_limits s d
        (grown s (last_duty first others) d (long_vector_of s price first others)) ≡ true
        → IsLongPartial s (flights_of t) base first (others ++ d ∷ []))
        × (IsLongPartial s (flights_of t) base first (others ++ d ∷ [])
        → (is_within_limits s d
        (grown s (last_duty first others) d (long_vector_of s price first others)) ≡ true)
        × (long_vector_of s price first (others ++ d ∷ [])
        ≡ grown s (last_duty first others) d (long_vector_of s price first others))) }
    ensures beginning { (s : Settings) (t : Timetable) (base : List ℕ)
        (first : Duty) (taken left : List Duty) → IsChecked s
        → TimetableSpec.IsSound t
        → IsLongPartial s (flights_of t) base first (taken ++ left)
        → IsLongPartial s (flights_of t) base first taken }
{}

/// Local and front are one: given the fronts of the nodes before, entries are local exactly where
/// they are the node's front. So a node that is fed alike in two timetables has one front in both.
pub fn local_entries_are_the_front()
    ensures front { (s : Settings) (t : Timetable) (base : List ℕ) (price : ℤ)
        (d : Duty) (feed : Feed) (entries : List (LongVector × List (List Leg)))
        → IsChecked s → TimetableSpec.IsSound t → IsDuty s (flights_of t) d
        → AreFrontsBefore s t base price d feed
        → IsLocalAt s base price d feed entries
        → IsFrontAt s t base price d entries }
    ensures local { (s : Settings) (t : Timetable) (base : List ℕ) (price : ℤ)
        (d : Duty) (feed : Feed) (entries : List (LongVector × List (List Leg)))
        → IsChecked s → TimetableSpec.IsSound t → IsDuty s (flights_of t) d
        → AreFrontsBefore s t base price d feed
        → IsFrontAt s t base price d entries
        → IsLocalAt s base price d feed entries }
    ensures alike { (s : Settings) (t u : Timetable) (base : List ℕ) (price : ℤ)
        (d : Duty) (feed : Feed) (entries : List (LongVector × List (List Leg)))
        → IsChecked s → TimetableSpec.IsSound t → TimetableSpec.IsSound u
        → IsDuty s (flights_of t) d → IsDuty s (flights_of u) d
        → AreFrontsBefore s t base price d feed
        → AreFrontsBefore s u base price d feed
        → IsFrontAt s t base price d entries
        → IsFrontAt s u base price d entries }
{}

/// Of legal duties, each after a rest from the one before, the first leaving the base: a list has a
/// value exactly where it is a partial, and the value shows its vector. Of two lists that end with
/// one duty the values compare as the vectors do, and are one where the vectors are.
pub fn values_tell_partials()
    ensures value { (s : Settings) (t : Timetable) (base : List ℕ) (price : ℤ)
        (first : Duty) (others : List Duty) → IsChecked s → TimetableSpec.IsSound t
        → IsDated t → IsLongPartial s (flights_of t) base first others
        → (v : LongValue) × (⟦<LongResource as Resource>⟧.value_of
        (long_resource s price) (first ∷ others) ≡ Some v)
        × (shown s (last_duty first others) v ≡ long_vector_of s price first others) }
    ensures partial { (s : Settings) (t : Timetable) (base : List ℕ) (price : ℤ)
        (first : Duty) (others : List Duty) (v : LongValue) → IsChecked s
        → TimetableSpec.IsSound t → IsDated t → Each (IsDuty s (flights_of t)) (first ∷ others)
        → first.from ≡ base → AllRested s first others
        → ⟦<LongResource as Resource>⟧.value_of (long_resource s price)
        (first ∷ others) ≡ Some v
        → IsLongPartial s (flights_of t) base first others
        × (shown s (last_duty first others) v ≡ long_vector_of s price first others) }
    ensures at_most { (s : Settings) (t : Timetable) (base : List ℕ) (price : ℤ)
        (first : Duty) (others : List Duty) (other_first : Duty) (other_others : List Duty)
        (u v : LongValue) → IsChecked s → TimetableSpec.IsSound t → IsDated t
        → IsLongPartial s (flights_of t) base first others
        → IsLongPartial s (flights_of t) base other_first other_others
        → ⟦<LongResource as Resource>⟧.value_of (long_resource s price)
        (first ∷ others) ≡ Some u
        → ⟦<LongResource as Resource>⟧.value_of (long_resource s price)
        (other_first ∷ other_others) ≡ Some v
        → last_duty first others ≡ last_duty other_first other_others
        → ⟦<LongResource as Resource>⟧.below u v
        ≡ is_at_most (shown s (last_duty first others) u) (shown s (last_duty first others) v) }
{}

/// Of two partials that end with one duty the values are listed as the vectors are.
pub fn values_are_listed_as_their_vectors()
    ensures { (s : Settings) (t : Timetable) (base : List ℕ) (price : ℤ)
        (first : Duty) (others : List Duty) (other_first : Duty) (other_others : List Duty)
        (u v : LongValue) → IsChecked s → TimetableSpec.IsSound t → IsDated t
        → IsLongPartial s (flights_of t) base first others
        → IsLongPartial s (flights_of t) base other_first other_others
        → ⟦<LongResource as Resource>⟧.value_of (long_resource s price)
        (first ∷ others) ≡ Some u
        → ⟦<LongResource as Resource>⟧.value_of (long_resource s price)
        (other_first ∷ other_others) ≡ Some v
        → last_duty other_first other_others ≡ last_duty first others
        → ⟦<LongValue as Ord>⟧.cmp u v
        ≡ vector_cmp (shown s (last_duty first others) u) (shown s (last_duty first others) v) }
{}

/// The resource's start and step of a duty are those of the vectors that its values show: there is
/// a value where the vector is within the limits, and it shows that vector.
pub fn steps_show_grown_vectors()
    ensures start { (s : Settings) (t : Timetable) (base : List ℕ) (price : ℤ)
        (d : Duty) → IsChecked s → TimetableSpec.IsSound t → IsDated t
        → IsDuty s (flights_of t) d → d.from ≡ base
        → (is_within_limits s d (long_vector_of s price d []) ≡ true
        → (v : LongValue)
        × (⟦<LongResource as Resource>⟧.opens (long_resource s price) d ≡ Some v)
        × (shown s d v ≡ long_vector_of s price d []))
        × ((v : LongValue)
        → ⟦<LongResource as Resource>⟧.opens (long_resource s price) d ≡ Some v
        → (is_within_limits s d (long_vector_of s price d []) ≡ true)
        × (shown s d v ≡ long_vector_of s price d [])) }
    ensures step { (s : Settings) (t : Timetable) (base : List ℕ) (price : ℤ)
        (first : Duty) (others : List Duty) (last d : Duty) (u : LongValue)
        → IsChecked s → TimetableSpec.IsSound t → IsDated t
        → IsLongPartial s (flights_of t) base first others
        → ⟦<LongResource as Resource>⟧.value_of (long_resource s price)
        (first ∷ others) ≡ Some u → last_duty first others ≡ last → IsDuty s (flights_of t) d
        → may_stand_after s last d ≡ true
        → (is_within_limits s d (grown s last d (shown s last u)) ≡ true
        → (v : LongValue) × (⟦<LongResource as Resource>⟧.extends
        (long_resource s price) u last d ≡ Some v)
        × (shown s d v ≡ grown s last d (shown s last u)))
        × ((v : LongValue) → ⟦<LongResource as Resource>⟧.extends
        (long_resource s price) u last d ≡ Some v
        → (is_within_limits s d (grown s last d (shown s last u)) ≡ true)
        × (shown s d v ≡ grown s last d (shown s last u))) }
{}

/// A value has at most `max_duties` duties, and sums over that many fit.
pub fn sums_fit()
    ensures most { (s : Settings) (price : ℤ)
        → ⟦<LongResource as Staged<Duty>>⟧.most (long_resource s price)
        ≡ Some s.max_duties }
    ensures fits { (s : Settings) (price : ℤ) (n : ℕ) → IsChecked s
        → TimetableSpec.IsBasePrice price → n ≤ 100_000
        → ⟦<LongResource as Staged<Duty>>⟧.fits (long_resource s price) n }
{}

/// A front of values, over all legal lists of a schedule, shows the node's front.
pub fn fronts_of_values_show_the_fronts()
    ensures { (s : Settings) (t : Timetable) (base : List ℕ) (price : ℤ)
        (duties : List Duty) (d : Duty) (entries : List (LongValue × List (List Leg)))
        → IsChecked s → TimetableSpec.IsSound t → IsDated t → AreDuties s t duties
        → IsDuty s (flights_of t) d
        → IsFrontOf (schedule_of s base duties) ⟦<LongResource as Resource>⟧.below
        (⟦<LongResource as Resource>⟧.value_of (long_resource s price)) d entries
        → IsFrontAt s t base price d (shown_entries s d entries) }
{}

/// The legal duties of a timetable are a schedule, and equal sums tell one number of duties.
pub fn legal_duties_are_a_schedule()
    ensures schedule { (s : Settings) (t : Timetable) (base : List ℕ) (duties : List Duty)
        → TimetableSpec.IsSound t → AreDuties s t duties
        → IsSchedule arrival_of departure_of (schedule_of s base duties) }
    ensures count { (r : LongResource) → TellCount ⟦<LongResource as Forgets<Duty>>⟧.same_sums
        (⟦<LongResource as Staged<Duty>>⟧.count_of r) }
{}

/// A pass over the events of a base, by pools that cover and fronts that are filtered, shows the
/// front of each legal duty.
pub fn covered_passes_show_the_fronts()
    ensures { (s : Settings) (t : Timetable) (base : List ℕ) (price : ℤ)
        (duties : List Duty) (pools : Departure → List (LongValue × List (List Leg)))
        (arrivals : Departure → Arrival → List (LongValue × List (List Leg)))
        (fronts : Duty → List (LongValue × List (List Leg))) (d : Duty) → IsChecked s
        → TimetableSpec.IsSound t → IsDated t → AreDuties s t duties
        → IsCoveredPass (Sweeps.network_of (schedule_of s base duties) departure_of arrival_of
        (⟦<LongResource as Staged<Duty>>⟧.idle_of (long_resource s price))
        (⟦<LongResource as Staged<Duty>>⟧.waited (long_resource s price))
        (⟦<LongResource as Staged<Duty>>⟧.boards (long_resource s price)))
        ⟦<LongResource as Resource>⟧.below ⟦<LongResource as Forgets<Duty>>⟧.same_sums
        walk_at_most pools arrivals fronts → IsDuty s (flights_of t) d
        → IsFrontAt s t base price d (shown_entries s d (fronts d)) }
{
    crew_forgetful::laws::covered_passes_show_the_fronts::<Duty, LongResource, Key>();
}
