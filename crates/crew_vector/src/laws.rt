//! Laws over the definitions alone.
ghost use Rattle.std.specs.Prelude.{◌≡◌, ◌≤ℤ◌, ℕ, ℤ, pos, ◌+ℤ◌, ◌-ℤ◌, ◌*ℤ◌, cond, true, List, [], ◌∷◌, Option, Some, None, length};
ghost use Rattle.crew_pairing.specs.Duties.{AreDuties, flights_of};
ghost use Rattle.crew_pairing.specs.Events.{IsSound, departure_of, may_wait};
ghost use Rattle.crew_resource.specs.Members.{Member};
ghost use Rattle.crew_pairing.specs.Pairings.{IsDuty, is_within_caps};
ghost use Rattle.crew_pairing.specs.declared.duty.Duty.{Duty};
ghost use Rattle.crew_pairing.specs.declared.events.Arrival.{Arrival};
ghost use Rattle.crew_pairing.specs.declared.events.Departure.{Departure};
ghost use Rattle.crew_pairing.specs.Legs.{Leg};
ghost use Rattle.crew_flights.specs.Timetable as TimetableSpec;
ghost use Rattle.crew_flights.specs.Timetable.{Timetable};
ghost use Rattle.crew_resource.specs.Events.{Arriving, FromPools, view};
ghost use Rattle.crew_resource.specs.Labels as Labels;
ghost use Rattle.crew_rules.specs.Settings.{IsChecked};
ghost use Rattle.crew_rules.specs.declared.settings.Settings.{Settings};
ghost use Rattle.crew_vector.specs.Machinery.Along.{IsLine};
ghost use Rattle.crew_vector.specs.Bests.{AreFronts, IsBest, IsCleanPairing, IsHomeEntry, IsPairing, NoDearer};
ghost use Rattle.crew_vector.specs.declared.priced.PricedPairing.{PricedPairing};
ghost use Rattle.crew_vector.specs.Dominance.{is_at_most};
ghost use Rattle.crew_pairing.specs.Vectors.{reduced_cost, cost_of, vector_of};
ghost use Rattle.crew_vector.specs.Events.{ArrivedBefore, ArrivedToSpare, board_vector, idle_vector, network_of, wait_vector};
ghost use Rattle.crew_vector.specs.Fronts.{Clean, IsFrontAt, IsUndominated, RiseByVector};
ghost use Rattle.crew_pairing.specs.Keys.{walk_at_most};
ghost use Rattle.crew_vector.specs.Locals.{AreFrontsBefore, Candidate, Feed, IsLocalAt, grown, is_vector_within_caps};
ghost use Rattle.crew_vector.specs.Machinery.VectorResources.{vector_resource};
ghost use Rattle.crew_vector.specs.Values.{stays_within_caps, value_of};
ghost use Rattle.crew_vector.specs.Machinery.Pruned.{AreEnough, LieOver, StandsFor};
ghost use Rattle.crew_pairing.specs.declared.vector.PairingVector.{PairingVector};

use crate::resource::VectorResource;
use crew_pairing::Duty;
use crew_resource::{Resource, Staged};

/// The cost of a vector is the pairing's pay, less the dual prices of its flights and of its base.
pub fn cost_is_pay_less_prices()
    ensures { (s : Settings) (base_price : ℤ) (duties : List Duty)
        → reduced_cost (vector_of s base_price duties) ≡ cost_of s base_price duties }
{}

/// Along sound duties nothing that is capped falls: where the whole list is within the caps each
/// beginning is.
pub fn caps_on_the_whole_list_suffice()
    ensures { (s : Settings) (first : Duty) (others : List Duty) → IsLine (first ∷ others)
        → stays_within_caps s (first ∷ others) ≡ is_within_caps s (first ∷ others) }
{}

/// The grade of a list's value is the number of its duties.
pub fn grade_is_the_number_of_duties()
    ensures { (s : Settings) (base_price : ℤ) (duties : List Duty) (value : PairingVector)
        → IsChecked s → value_of s base_price duties ≡ Some value
        → ⟦<VectorResource as Resource>⟧.grade_of value ≡ length duties }
{}

/// Each legal duty of a timetable is sound: every sum over a pairing of legal duties fits.
pub fn legal_duties_are_sound()
    ensures { (s : Settings) (t : Timetable) (duties : List Duty) → IsChecked s
        → TimetableSpec.IsSound t → AreDuties s t duties → (d : Duty) → Member duties d
        → IsSound d }
{}

/// Each non-dominated vector of a node has a clean (prefix-optimal) partial there.
pub fn undominated_vectors_have_clean_partials()
    ensures { (s : Settings) (t : Timetable) (base : List ℕ) (price : ℤ) (d : Duty)
        (v : PairingVector) → IsChecked s → TimetableSpec.IsSound t
        → IsUndominated s t base price d v → (w : List (List Leg)) × Clean s t base price d v w }
{}

/// Each node has a Pareto front.
pub fn each_node_has_a_front()
    ensures { (s : Settings) (t : Timetable) (base : List ℕ) (price : ℤ) (d : Duty)
        → IsChecked s → TimetableSpec.IsSound t → IsDuty s (flights_of t) d
        → (entries : List (PairingVector × List (List Leg))) × IsFrontAt s t base price d entries }
{}

/// A node has one Pareto front: two of them have the same entries, and in order of vector they are one
/// list.
pub fn fronts_are_unique()
    ensures entries { (s : Settings) (t : Timetable) (base : List ℕ) (price : ℤ) (d : Duty)
        (es fs : List (PairingVector × List (List Leg))) → IsFrontAt s t base price d es
        → IsFrontAt s t base price d fs → (v : PairingVector) (w : List (List Leg))
        → Member es (v, w) → Member fs (v, w) }
    ensures listed { (s : Settings) (t : Timetable) (base : List ℕ) (price : ℤ) (d : Duty)
        (es fs : List (PairingVector × List (List Leg))) → IsFrontAt s t base price d es
        → IsFrontAt s t base price d fs → RiseByVector es → RiseByVector fs → es ≡ fs }
{}

/// Under each pairing lies a clean one that costs no more; so the best has the least reduced cost of all
/// pairings, clean or not.
pub fn best_costs_least()
    ensures clean { (s : Settings) (t : Timetable) (p : PricedPairing) → IsChecked s
        → TimetableSpec.IsSound t → IsPairing s t p → (q : PricedPairing) × IsCleanPairing s t q
        × (q.cost ≤ℤ p.cost) }
    ensures least { (s : Settings) (t : Timetable) (best p : PricedPairing) → IsChecked s
        → TimetableSpec.IsSound t → IsBest s t (Some best) → IsPairing s t p → best.cost ≤ℤ p.cost }
{}

/// There is one best pairing, or none: cost and walk tell its base, its pay and its minutes away.
pub fn best_is_unique()
    ensures { (s : Settings) (t : Timetable) (a b : Option PricedPairing)
        → TimetableSpec.IsSound t → IsBest s t a → IsBest s t b → a ≡ b }
{}

/// Local and front are one: given the fronts of the nodes before, entries are local exactly where
/// they are the node's front. So a node that is fed alike in two timetables has one front in both.
pub fn local_entries_are_the_front()
    ensures front { (s : Settings) (t : Timetable) (base : List ℕ) (price : ℤ) (d : Duty)
        (feed : Feed) (entries : List (PairingVector × List (List Leg))) → IsChecked s
        → TimetableSpec.IsSound t → IsDuty s (flights_of t) d
        → AreFrontsBefore s t base price d feed → IsLocalAt s base price d feed entries
        → IsFrontAt s t base price d entries }
    ensures local { (s : Settings) (t : Timetable) (base : List ℕ) (price : ℤ) (d : Duty)
        (feed : Feed) (entries : List (PairingVector × List (List Leg))) → IsChecked s
        → TimetableSpec.IsSound t → IsDuty s (flights_of t) d
        → AreFrontsBefore s t base price d feed → IsFrontAt s t base price d entries
        → IsLocalAt s base price d feed entries }
    ensures alike { (s : Settings) (t u : Timetable) (base : List ℕ) (price : ℤ) (d : Duty)
        (feed : Feed) (entries : List (PairingVector × List (List Leg))) → IsChecked s
        → TimetableSpec.IsSound t → TimetableSpec.IsSound u → IsDuty s (flights_of t) d
        → IsDuty s (flights_of u) d → AreFrontsBefore s t base price d feed
        → AreFrontsBefore s u base price d feed → IsFrontAt s t base price d entries
        → IsFrontAt s u base price d entries }
{}

/// The resource's order, and its start and step of a duty, are those of the definitions.
pub fn steps_are_those_of_the_vector()
    ensures order { (a b : PairingVector)
        → ⟦<VectorResource as Resource>⟧.below a b ≡ is_at_most a b }
    ensures start { (s : Settings) (price : ℤ) (d : Duty)
        → ⟦<VectorResource as Resource>⟧.opens (vector_resource s price) d
        ≡ cond (is_within_caps s (d ∷ [])) (Some (vector_of s price (d ∷ []))) None }
    ensures idle { (s : Settings) (price : ℤ) (g : Departure)
        → ⟦<VectorResource as Staged<Duty>>⟧.idle_of (vector_resource s price) g
        ≡ idle_vector price g }
    ensures wait { (s : Settings) (price : ℤ) (v : PairingVector) (x : Arrival) (g : Departure)
        → ⟦<VectorResource as Staged<Duty>>⟧.waited (vector_resource s price) v x g
        ≡ wait_vector s v x g }
    ensures board { (s : Settings) (price : ℤ) (v : PairingVector) (d : Duty)
        → ⟦<VectorResource as Staged<Duty>>⟧.boards (vector_resource s price) v d
        ≡ board_vector s v d }
    ensures step { (s : Settings) (price : ℤ) (last next : Duty) (v : PairingVector)
        → ⟦<VectorResource as Resource>⟧.extends (vector_resource s price) v last next
        ≡ cond (is_vector_within_caps s (grown s last next v)) (Some (grown s last next v)) None }
{}

/// Some of the candidates that lie under all of them leave the same entries: at a node, at a
/// departure event, and at an arrival event.
pub fn covering_candidates_leave_the_same_entries()
    ensures node { (s : Settings) (base : List ℕ) (price : ℤ) (d : Duty) (feed : Feed)
        (part entries : List (PairingVector × List (List Leg)))
        → Labels.IsCovering is_at_most walk_at_most (λ v w. Member part (v, w))
        (Candidate s base price d feed)
        → Labels.IsLocal is_at_most walk_at_most (λ v w. Member part (v, w)) entries
        → IsLocalAt s base price d feed entries }
    ensures back { (s : Settings) (base : List ℕ) (price : ℤ) (d : Duty) (feed : Feed)
        (part entries : List (PairingVector × List (List Leg)))
        → Labels.IsCovering is_at_most walk_at_most (λ v w. Member part (v, w))
        (Candidate s base price d feed) → IsLocalAt s base price d feed entries
        → Labels.IsLocal is_at_most walk_at_most (λ v w. Member part (v, w)) entries }
    ensures pool { (s : Settings) (base : List ℕ) (price : ℤ) (duties : List Duty)
        (arrivals : Arrival → List (PairingVector × List (List Leg))) (g : Departure)
        (part entries : List (PairingVector × List (List Leg)))
        → Labels.IsCovering is_at_most walk_at_most (λ v w. Member part (v, w))
        (FromPools (network_of s base price duties) arrivals g)
        → Labels.IsLocal is_at_most walk_at_most (λ v w. Member part (v, w)) entries
        → Labels.IsLocal is_at_most walk_at_most
        (FromPools (network_of s base price duties) arrivals g) entries }
    ensures arrival { (s : Settings) (base : List ℕ) (price : ℤ) (duties : List Duty)
        (fronts : Duty → List (PairingVector × List (List Leg))) (minute : ℤ) (x : Arrival)
        (part entries : List (PairingVector × List (List Leg)))
        → Labels.IsCovering is_at_most walk_at_most (λ v w. Member part (v, w))
        (ArrivedBefore (network_of s base price duties) fronts minute x)
        → Labels.IsLocal is_at_most walk_at_most (λ v w. Member part (v, w)) entries
        → Labels.IsLocal is_at_most walk_at_most
        (ArrivedBefore (network_of s base price duties) fronts minute x) entries }
    ensures spare { (s : Settings) (base : List ℕ) (price : ℤ) (duties : List Duty)
        (fronts : Duty → List (PairingVector × List (List Leg))) (minute : ℤ) (x : Arrival)
        (part entries : List (PairingVector × List (List Leg)))
        → Labels.IsCovering is_at_most walk_at_most (λ v w. Member part (v, w))
        (ArrivedToSpare s (network_of s base price duties) fronts minute x)
        → Labels.IsLocal is_at_most walk_at_most (λ v w. Member part (v, w)) entries
        → Labels.IsLocal is_at_most walk_at_most
        (ArrivedToSpare s (network_of s base price duties) fronts minute x) entries }
{}

/// Pools that are local at each event of a base's network show, at each duty, the duty's front.
pub fn views_of_local_pools_are_fronts()
    ensures { (s : Settings) (t : Timetable) (base : List ℕ) (price : ℤ) (duties : List Duty)
        → IsChecked s → TimetableSpec.IsSound t → AreDuties s t duties
        → (pools : Departure → List (PairingVector × List (List Leg)))
        (arrivals : Arrival → List (PairingVector × List (List Leg)))
        → ((d : Duty) → IsDuty s (flights_of t) d
        → Labels.IsLocal is_at_most walk_at_most
        (FromPools (network_of s base price duties) arrivals (departure_of d))
        (pools (departure_of d)))
        → ((x : Arrival) → Labels.IsLocal is_at_most walk_at_most
        (Arriving (network_of s base price duties)
        (λ d. view (network_of s base price duties) d (pools (departure_of d))) x) (arrivals x))
        → (d : Duty) → IsDuty s (flights_of t) d
        → IsFrontAt s t base price d (view (network_of s base price duties) d
        (pools (departure_of d))) }
{}

/// A sweep in order of time: where each departure event's pool is made from what has arrived of the
/// duties that leave before it, the pools show, at each duty, the duty's front.
pub fn sweeps_in_order_of_time_give_all_fronts()
    ensures { (s : Settings) (t : Timetable) (base : List ℕ) (price : ℤ) (duties : List Duty)
        → IsChecked s → TimetableSpec.IsSound t → AreDuties s t duties
        → (pools : Departure → List (PairingVector × List (List Leg)))
        (arrivals : Departure → Arrival → List (PairingVector × List (List Leg)))
        → ((d : Duty) → IsDuty s (flights_of t) d
        → Labels.IsLocal is_at_most walk_at_most
        (FromPools (network_of s base price duties) (arrivals (departure_of d))
        (departure_of d)) (pools (departure_of d)))
        → ((d : Duty) (x : Arrival) → IsDuty s (flights_of t) d
        → Labels.IsLocal is_at_most walk_at_most
        (ArrivedBefore (network_of s base price duties)
        (λ e. view (network_of s base price duties) e (pools (departure_of e))) d.report x)
        (arrivals (departure_of d) x))
        → (e : Duty) → IsDuty s (flights_of t) e
        → IsFrontAt s t base price e (view (network_of s base price duties) e
        (pools (departure_of e))) }
{}

/// In a sweep only the arrivals from which a duty's departure can be waited for need be right for
/// it.
pub fn sweeps_by_window_give_all_fronts()
    ensures { (s : Settings) (t : Timetable) (base : List ℕ) (price : ℤ) (duties : List Duty)
        → IsChecked s → TimetableSpec.IsSound t → AreDuties s t duties
        → (pools : Departure → List (PairingVector × List (List Leg)))
        (arrivals : Departure → Arrival → List (PairingVector × List (List Leg)))
        → ((d : Duty) → IsDuty s (flights_of t) d
        → Labels.IsLocal is_at_most walk_at_most
        (FromPools (network_of s base price duties) (arrivals (departure_of d))
        (departure_of d)) (pools (departure_of d)))
        → ((d : Duty) (x : Arrival) → IsDuty s (flights_of t) d
        → may_wait s x (departure_of d) ≡ true
        → Labels.IsLocal is_at_most walk_at_most
        (ArrivedBefore (network_of s base price duties)
        (λ e. view (network_of s base price duties) e (pools (departure_of e))) d.report x)
        (arrivals (departure_of d) x))
        → (e : Duty) → IsDuty s (flights_of t) e
        → IsFrontAt s t base price e (view (network_of s base price duties) e
        (pools (departure_of e))) }
{}

/// And labels with no duty to spare can be left out of the arrivals: they board nothing.
pub fn sweeps_of_labels_to_spare_give_all_fronts()
    ensures { (s : Settings) (t : Timetable) (base : List ℕ) (price : ℤ) (duties : List Duty)
        → IsChecked s → TimetableSpec.IsSound t → AreDuties s t duties
        → (pools : Departure → List (PairingVector × List (List Leg)))
        (arrivals : Departure → Arrival → List (PairingVector × List (List Leg)))
        → ((d : Duty) → IsDuty s (flights_of t) d
        → Labels.IsLocal is_at_most walk_at_most
        (FromPools (network_of s base price duties) (arrivals (departure_of d))
        (departure_of d)) (pools (departure_of d)))
        → ((d : Duty) (x : Arrival) → IsDuty s (flights_of t) d
        → may_wait s x (departure_of d) ≡ true
        → Labels.IsLocal is_at_most walk_at_most
        (ArrivedToSpare s (network_of s base price duties)
        (λ e. view (network_of s base price duties) e (pools (departure_of e))) d.report x)
        (arrivals (departure_of d) x))
        → (e : Duty) → IsDuty s (flights_of t) e
        → IsFrontAt s t base price e (view (network_of s base price duties) e
        (pools (departure_of e))) }
{}

/// Where the entries of each duty at an arrival lie over those of one that is kept, the kept duties
/// leave there what all duties leave.
pub fn kept_duties_leave_the_same_arrivals()
    ensures arrival { (s : Settings) (base : List ℕ) (price : ℤ) (duties kept : List Duty)
        (fronts : Duty → List (PairingVector × List (List Leg))) (minute : ℤ) (x : Arrival)
        (entries : List (PairingVector × List (List Leg)))
        → AreEnough duties kept fronts minute x
        → Labels.IsLocal is_at_most walk_at_most
        (ArrivedBefore (network_of s base price kept) fronts minute x) entries
        → Labels.IsLocal is_at_most walk_at_most
        (ArrivedBefore (network_of s base price duties) fronts minute x) entries }
    ensures spare { (s : Settings) (base : List ℕ) (price : ℤ) (duties kept : List Duty)
        (fronts : Duty → List (PairingVector × List (List Leg))) (minute : ℤ) (x : Arrival)
        (entries : List (PairingVector × List (List Leg)))
        → AreEnough duties kept fronts minute x
        → Labels.IsLocal is_at_most walk_at_most
        (ArrivedToSpare s (network_of s base price kept) fronts minute x) entries
        → Labels.IsLocal is_at_most walk_at_most
        (ArrivedToSpare s (network_of s base price duties) fronts minute x) entries }
{}

/// Of two duties between the same events, one adds at most as much as the other to each part, and
/// its key is the lesser where they add the same: then the other's entries lie over its own. So it
/// is enough to keep, for each duty, one that stands for it.
pub fn lesser_duties_stand_for_greater_ones()
    ensures view { (s : Settings) (base : List ℕ) (price : ℤ) (duties : List Duty) (e d : Duty)
        (pool : List (PairingVector × List (List Leg))) → StandsFor e d
        → LieOver (view (network_of s base price duties) d pool)
        (view (network_of s base price duties) e pool) }
    ensures enough { (s : Settings) (base : List ℕ) (price : ℤ) (duties kept : List Duty)
        (pools : Departure → List (PairingVector × List (List Leg))) (minute : ℤ) (x : Arrival)
        → ((d : Duty) → Member kept d → Member duties d)
        → ((d : Duty) → Member duties d → (e : Duty) × Member kept e × StandsFor e d)
        → AreEnough duties kept (λ d. view (network_of s base price duties) d
        (pools (departure_of d))) minute x }
    ensures through { (c e d : Duty) → StandsFor c e → StandsFor e d → StandsFor c d }
{}

/// Where fronts are right, the entry at home that is least by cost and walk is the best pairing,
/// and there is none where there is no such entry. An entry at home tells its pairing's cost, pay
/// and minutes away.
pub fn best_is_the_least_entry_at_home()
    ensures pairing { (s : Settings) (t : Timetable)
        (front : List ℕ → Duty → List (PairingVector × List (List Leg))) → AreFronts s t front
        → (base : List ℕ) (v : PairingVector) (w : List (List Leg))
        → IsHomeEntry s t front base v w → (p : PricedPairing) × IsCleanPairing s t p
        × (p.base ≡ base) × (p.walk ≡ w) × (p.cost ≡ reduced_cost v)
        × (p.pay ≡ reduced_cost v +ℤ (pos s.trip_rig *ℤ v.away -ℤ v.trip_rig)) × (p.away ≡ v.away) }
    ensures best { (s : Settings) (t : Timetable)
        (front : List ℕ → Duty → List (PairingVector × List (List Leg))) (best : PricedPairing)
        → IsChecked s → TimetableSpec.IsSound t → AreFronts s t front → IsCleanPairing s t best
        → ((base : List ℕ) (v : PairingVector) (w : List (List Leg))
        → IsHomeEntry s t front base v w → NoDearer best.cost best.walk (reduced_cost v) w)
        → IsBest s t (Some best) }
    ensures none { (s : Settings) (t : Timetable)
        (front : List ℕ → Duty → List (PairingVector × List (List Leg))) → IsChecked s
        → TimetableSpec.IsSound t → AreFronts s t front
        → ((base : List ℕ) (v : PairingVector) (w : List (List Leg))
        → IsHomeEntry s t front base v w → ⊥) → IsBest s t None }
{}
