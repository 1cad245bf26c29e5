//! Laws over the definitions alone.
ghost use Rattle.std.specs.Prelude.{◌≡◌, ℕ, ℤ, Bool, List, map};
ghost use Rattle.crew_flights.specs.Timetable.{IsSound, Timetable};
ghost use Rattle.crew_pairing.specs.Legs.{Leg};
ghost use Rattle.crew_pairing.specs.declared.duty.Duty.{Duty};
ghost use Rattle.crew_pairing.specs.declared.vector.PairingVector.{PairingVector};
ghost use Rattle.crew_pool.specs.Counted.{AreCounted};
ghost use Rattle.crew_pool.specs.LabelWalks.{shown};
ghost use Rattle.crew_pool.specs.declared.label_walk.LabelWalk.{LabelWalk};
ghost use Rattle.crew_resource.specs.Members.{Member};
ghost use Rattle.crew_rules.specs.Settings.{IsChecked};
ghost use Rattle.crew_rules.specs.declared.settings.Settings.{Settings};
ghost use Rattle.crew_step.specs.Jobs.{IsJob, IsValueAt, Job};
ghost use Rattle.crew_step.specs.Walks.{HasGrown};
ghost use Rattle.crew_vector.specs.Fronts.{IsFrontAt};
ghost use Rattle.crew_vector.specs.Locals.{IsLocalAt};

/// Each entry of a node's front is the value of its walk there.
pub fn entries_of_fronts_are_values_of_their_walks()
    ensures { (s : Settings) (t : Timetable) (base : List ℕ) (price : ℤ) (d : Duty)
        (entries : List (PairingVector × List (List Leg))) → IsChecked s → IsSound t
        → IsFrontAt s t base price d entries → (v : PairingVector) (w : List (List Leg))
        → Member entries (v, w) → IsValueAt s price d v w }
{}

/// And so is each entry that is local to a job: what one job leaves serves the next.
pub fn local_entries_are_values_of_their_walks()
    ensures { (j : Job) (entries : List (PairingVector × List (List Leg))) → IsJob j
        → IsLocalAt j.settings j.base j.base_price j.duty j.feed entries
        → (v : PairingVector) (w : List (List Leg)) → Member entries (v, w)
        → IsValueAt j.settings j.base_price j.duty v w }
{}

/// Labels over walks that have grown are what they were.
pub fn grown_walks_show_the_same_labels()
    ensures { (count : PairingVector → ℤ) (before after : List (List ℕ)) (whole : Bool)
        (labels : List (PairingVector × LabelWalk)) → HasGrown before after
        → AreCounted count before whole labels
        → AreCounted count after whole labels
        × (map (shown after) labels ≡ map (shown before) labels) }
{}
