//! Laws over the definitions alone.
ghost use Rattle.std.specs.Prelude.{◌≡◌, ◌+◌, ℕ, ℤ, List, [], length, get_or};
ghost use Rattle.crew_anchor.specs.Stages.{anchored_resource};
ghost use Rattle.crew_anchor.specs.Sweeps.{anchored_network, shown_labels};
ghost use Rattle.crew_anchor.specs.declared.resource.AnchoredResource.{AnchoredResource};
ghost use Rattle.crew_net.specs.Machinery.Numbered.{AreDistinct, departure_place};
ghost use Rattle.crew_pairing.specs.Events.{arrival_of, departure_of};
ghost use Rattle.crew_flights.specs.Timetable.{IsSound, Timetable};
ghost use Rattle.crew_pairing.specs.Duties.{AreDuties, flights_of};
ghost use Rattle.crew_pairing.specs.Legs.{Leg};
ghost use Rattle.crew_pairing.specs.Pairings.{IsDuty};
ghost use Rattle.crew_pairing.specs.declared.duty.Duty.{Duty};
ghost use Rattle.crew_pairing.specs.declared.events.Arrival.{Arrival};
ghost use Rattle.crew_pairing.specs.declared.events.Departure.{Departure};
ghost use Rattle.crew_pairing.specs.declared.vector.PairingVector.{PairingVector};
ghost use Rattle.crew_resource.specs.Events.{view};
ghost use Rattle.crew_resource.specs.Members.{Member};
ghost use Rattle.crew_rules.specs.Settings.{IsChecked};
ghost use Rattle.crew_rules.specs.declared.settings.Settings.{Settings};
ghost use Rattle.crew_sweep.specs.Machinery.Numbered.{AreLocal, numbered};
ghost use Rattle.crew_vector.specs.Fronts.{IsFrontAt};

/// Pools by number of departure, each what the pools of all duties that it may wait on leave with a
/// duty to spare, show at each duty the duty's front.
pub fn swept_pools_show_all_fronts()
    ensures { (s : Settings) (t : Timetable) (base : List ℕ) (price : ℤ) (duties : List Duty)
        (departures : List Departure) (arrivals : List Arrival) (most : ℕ)
        (pools : List (List (PairingVector × List (List Leg))))
        → IsChecked s → IsSound t → AreDuties s t duties → AreDistinct arrivals
        → ((d : Duty) → Member duties d → Member departures (departure_of d))
        → ((d : Duty) → Member duties d → Member arrivals (arrival_of d))
        → most + 1 ≡ s.max_duties
        → AreLocal (numbered s (record (anchored_resource s price) { max_duties = most }) base
        duties departures arrivals) (length departures) pools
        → (d : Duty) → IsDuty s (flights_of t) d
        → IsFrontAt s t base price d (shown_labels s.trip_rig d.release
        (view (anchored_network s base price duties) d
        (get_or pools (departure_place departures (departure_of d)) []))) }
{}
