//! Laws over the definitions alone.
ghost use Rattle.std.specs.Prelude.{◌≡◌, ℕ, ℤ, true, List, ◌∷◌};
ghost use Rattle.std.specs.Option.{option_map};
ghost use Rattle.crew_anchor.specs.Anchors.{anchored, shown};
ghost use Rattle.crew_anchor.specs.Stages.{anchored_board, anchored_idle, anchored_resource};
ghost use Rattle.crew_anchor.specs.Sweeps.{anchored_network, shown_labels};
ghost use Rattle.crew_pairing.specs.Events.{departure_of, may_wait};
ghost use Rattle.crew_pairing.specs.Duties.{AreDuties, flights_of};
ghost use Rattle.crew_pairing.specs.Keys.{walk_at_most};
ghost use Rattle.crew_pairing.specs.Legs.{Leg};
ghost use Rattle.crew_pairing.specs.Pairings.{IsDuty, last_duty};
ghost use Rattle.crew_flights.specs.Timetable.{IsSound, Timetable};
ghost use Rattle.crew_resource.specs.Events.{FromPools, view};
ghost use Rattle.crew_resource.specs.Labels.{IsLocal};
ghost use Rattle.crew_resource.specs.Machinery.Sum.{LiesWithin};
ghost use Rattle.crew_rules.specs.Settings.{IsChecked};
ghost use Rattle.crew_pairing.specs.declared.duty.Duty.{Duty};
ghost use Rattle.crew_pairing.specs.declared.events.Arrival.{Arrival};
ghost use Rattle.crew_pairing.specs.declared.events.Departure.{Departure};
ghost use Rattle.crew_pairing.specs.declared.vector.PairingVector.{PairingVector};
ghost use Rattle.crew_rules.specs.declared.settings.Settings.{Settings};
ghost use Rattle.crew_vector.specs.Dominance.{is_at_most};
ghost use Rattle.crew_vector.specs.Events.{ArrivedBefore, ArrivedToSpare, board_vector, idle_vector, wait_vector};
ghost use Rattle.crew_vector.specs.Fronts.{IsFrontAt, vector_cmp};
ghost use Rattle.crew_vector.specs.Values.{value_of};

use crate::resource::AnchoredResource;
use crew_pairing::Duty;
use crew_resource::{Resource, Staged};

/// Anchoring commutes with each stage of the vector, at the instants where the stage begins and
/// ends: waiting leaves the anchored vector as it is, and a duty boards or passes a cap alike.
pub fn stages_commute_with_anchoring()
    ensures idle { (s : Settings) (price : ℤ) (g : Departure)
        → anchored s.trip_rig g.report (idle_vector price g)
        ≡ anchored_idle (anchored_resource s price) g.report }
    ensures wait { (s : Settings) (v : PairingVector) (x : Arrival) (g : Departure)
        → anchored s.trip_rig g.report (wait_vector s v x g) ≡ anchored s.trip_rig x.release v }
    ensures board { (s : Settings) (price : ℤ) (v : PairingVector) (d : Duty)
        → option_map (anchored s.trip_rig d.release) (board_vector s v d)
        ≡ anchored_board (anchored_resource s price) (anchored s.trip_rig d.report v) d }
{}

/// Vectors of one instant compare as they do when anchored, and are equal where those are.
pub fn anchoring_keeps_the_order()
    ensures order { (rate : ℕ) (minute : ℤ) (a b : PairingVector)
        → is_at_most (anchored rate minute a) (anchored rate minute b) ≡ is_at_most a b }
    ensures listing { (rate : ℕ) (minute : ℤ) (a b : PairingVector)
        → vector_cmp (anchored rate minute a) (anchored rate minute b) ≡ vector_cmp a b }
    ensures equal { (rate : ℕ) (minute : ℤ) (a b : PairingVector)
        → anchored rate minute a ≡ anchored rate minute b → a ≡ b }
{}

/// Showing takes anchoring back, and anchoring showing.
pub fn showing_takes_anchoring_back()
    ensures shown { (rate : ℕ) (minute : ℤ) (v : PairingVector)
        → shown rate minute (anchored rate minute v) ≡ v }
    ensures anchored { (rate : ℕ) (minute : ℤ) (v : PairingVector)
        → anchored rate minute (shown rate minute v) ≡ v }
{}

/// The resource's order, its start and its step of a duty, and its stages are those of the
/// definitions: at minutes of 32 bits, which each duty's are.
pub fn stages_are_those_of_anchored_vectors()
    ensures order { (a b : PairingVector)
        → ⟦<AnchoredResource as Resource>⟧.below a b ≡ is_at_most a b }
    ensures idle { (s : Settings) (price : ℤ) (g : Departure)
        → LiesWithin 2_147_483_647 g.report
        → ⟦<AnchoredResource as Staged<Duty>>⟧.idle_of (anchored_resource s price) g
        ≡ anchored_idle (anchored_resource s price) g.report }
    ensures wait { (s : Settings) (price : ℤ) (v : PairingVector) (x : Arrival) (g : Departure)
        → ⟦<AnchoredResource as Staged<Duty>>⟧.waited (anchored_resource s price) v x g ≡ v }
    ensures start { (s : Settings) (price : ℤ) (d : Duty) → LiesWithin 2_147_483_647 d.report
        → ⟦<AnchoredResource as Resource>⟧.opens (anchored_resource s price) d
        ≡ anchored_board (anchored_resource s price)
        (anchored_idle (anchored_resource s price) d.report) d }
    ensures step { (s : Settings) (price : ℤ) (v : PairingVector) (last next : Duty)
        → ⟦<AnchoredResource as Resource>⟧.extends (anchored_resource s price) v last next
        ≡ anchored_board (anchored_resource s price) v next }
    ensures board { (s : Settings) (price : ℤ) (v : PairingVector) (d : Duty)
        → ⟦<AnchoredResource as Staged<Duty>>⟧.boards (anchored_resource s price) v d
        ≡ anchored_board (anchored_resource s price) v d }
{}

/// The value of a list is its vector, anchored at its last release, and none where it has none.
pub fn values_are_vectors_anchored_at_the_last_release()
    ensures { (s : Settings) (price : ℤ) (first : Duty) (others : List Duty)
        → LiesWithin 2_147_483_647 first.report
        → ⟦<AnchoredResource as Resource>⟧.value_of (anchored_resource s price) (first ∷ others)
        ≡ option_map (anchored s.trip_rig (last_duty first others).release)
        (value_of s price (first ∷ others)) }
{}

/// A sweep in order of time with anchored labels, where waiting changes nothing: the views of the
/// pools, shown at each duty's release, are the duty's front.
pub fn anchored_sweeps_give_all_fronts()
    ensures { (s : Settings) (t : Timetable) (base : List ℕ) (price : ℤ) (duties : List Duty)
        → IsChecked s → IsSound t → AreDuties s t duties
        → (pools : Departure → List (PairingVector × List (List Leg)))
        (arrivals : Departure → Arrival → List (PairingVector × List (List Leg)))
        → ((d : Duty) → IsDuty s (flights_of t) d
        → IsLocal is_at_most walk_at_most
        (FromPools (anchored_network s base price duties) (arrivals (departure_of d))
        (departure_of d)) (pools (departure_of d)))
        → ((d : Duty) (x : Arrival) → IsDuty s (flights_of t) d
        → IsLocal is_at_most walk_at_most
        (ArrivedBefore (anchored_network s base price duties)
        (λ e. view (anchored_network s base price duties) e (pools (departure_of e)))
        d.report x) (arrivals (departure_of d) x))
        → (e : Duty) → IsDuty s (flights_of t) e
        → IsFrontAt s t base price e (shown_labels s.trip_rig e.release
        (view (anchored_network s base price duties) e (pools (departure_of e)))) }
{}

/// Only the arrivals from which a duty's departure can be waited for need be right for it.
pub fn anchored_sweeps_by_window_give_all_fronts()
    ensures { (s : Settings) (t : Timetable) (base : List ℕ) (price : ℤ) (duties : List Duty)
        → IsChecked s → IsSound t → AreDuties s t duties
        → (pools : Departure → List (PairingVector × List (List Leg)))
        (arrivals : Departure → Arrival → List (PairingVector × List (List Leg)))
        → ((d : Duty) → IsDuty s (flights_of t) d
        → IsLocal is_at_most walk_at_most
        (FromPools (anchored_network s base price duties) (arrivals (departure_of d))
        (departure_of d)) (pools (departure_of d)))
        → ((d : Duty) (x : Arrival) → IsDuty s (flights_of t) d
        → may_wait s x (departure_of d) ≡ true
        → IsLocal is_at_most walk_at_most
        (ArrivedBefore (anchored_network s base price duties)
        (λ e. view (anchored_network s base price duties) e (pools (departure_of e)))
        d.report x) (arrivals (departure_of d) x))
        → (e : Duty) → IsDuty s (flights_of t) e
        → IsFrontAt s t base price e (shown_labels s.trip_rig e.release
        (view (anchored_network s base price duties) e (pools (departure_of e)))) }
{}

/// And labels with no duty to spare can be left out of the arrivals: they board nothing.
pub fn anchored_sweeps_of_labels_to_spare_give_all_fronts()
    ensures { (s : Settings) (t : Timetable) (base : List ℕ) (price : ℤ) (duties : List Duty)
        → IsChecked s → IsSound t → AreDuties s t duties
        → (pools : Departure → List (PairingVector × List (List Leg)))
        (arrivals : Departure → Arrival → List (PairingVector × List (List Leg)))
        → ((d : Duty) → IsDuty s (flights_of t) d
        → IsLocal is_at_most walk_at_most
        (FromPools (anchored_network s base price duties) (arrivals (departure_of d))
        (departure_of d)) (pools (departure_of d)))
        → ((d : Duty) (x : Arrival) → IsDuty s (flights_of t) d
        → may_wait s x (departure_of d) ≡ true
        → IsLocal is_at_most walk_at_most
        (ArrivedToSpare s (anchored_network s base price duties)
        (λ e. view (anchored_network s base price duties) e (pools (departure_of e)))
        d.report x) (arrivals (departure_of d) x))
        → (e : Duty) → IsDuty s (flights_of t) e
        → IsFrontAt s t base price e (shown_labels s.trip_rig e.release
        (view (anchored_network s base price duties) e (pools (departure_of e)))) }
{}
