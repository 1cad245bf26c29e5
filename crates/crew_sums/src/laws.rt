//! Laws over the definitions alone.
ghost use Rattle.std.specs.Prelude.{◌≡◌, ℕ, ℤ, List};
ghost use Rattle.crew_answers.specs.Schedules.{schedule_of};
ghost use Rattle.crew_anchor.specs.Sweeps.{shown_labels};
ghost use Rattle.crew_flights.specs.Timetable as TimetableSpec;
ghost use Rattle.crew_flights.specs.Timetable.{Timetable};
ghost use Rattle.crew_forgetful.specs.Sweeps.{IsFrontOf, network_of};
ghost use Rattle.crew_net.specs.Machinery.Moments.{IsReal};
ghost use Rattle.crew_net.specs.Nets.{Net};
ghost use Rattle.crew_pairing.specs.Duties.{AreDuties, flights_of};
ghost use Rattle.crew_pairing.specs.Events.{arrival_of, departure_of};
ghost use Rattle.crew_pairing.specs.Legs.{Leg};
ghost use Rattle.crew_pairing.specs.Pairings.{IsDuty};
ghost use Rattle.crew_pairing.specs.declared.duty.Duty.{Duty};
ghost use Rattle.crew_pairing.specs.declared.vector.PairingVector.{PairingVector};
ghost use Rattle.crew_pass.specs.Passes.{BasePass, CountsDuties, IsCoveredBy};
ghost use Rattle.crew_resource.specs.Members.{Member};
ghost use Rattle.crew_rules.specs.Settings.{IsChecked};
ghost use Rattle.crew_rules.specs.declared.settings.Settings.{Settings};
ghost use Rattle.crew_vector.specs.Fronts.{IsFrontAt};
ghost use Rattle.crew_sums.specs.Passes.{ShowsFronts};
ghost use Rattle.crew_sums.specs.Sums.{sums_resource};
ghost use Rattle.crew_sums.specs.declared.resource.SumsResource.{SumsResource};

use crate::SumsResource;
use crew_forgetful::Forgets;
use crew_pairing::{Duty, Key};
use crew_resource::{Resource, Staged};

/// A front of values, over all legal lists of a schedule whose duties report at minutes of 32 bits,
/// shows at the duty's release the node's front.
pub fn fronts_of_values_show_the_fronts()
    ensures { (s : Settings) (t : Timetable) (base : List ℕ) (price : ℤ) (duties : List Duty)
        (d : Duty) (entries : List (PairingVector × List (List Leg))) → IsChecked s
        → TimetableSpec.IsSound t → AreDuties s t duties
        → ((e : Duty) → Member duties e → IsReal e.report) → IsDuty s (flights_of t) d
        → IsFrontOf (schedule_of s base duties) ⟦<SumsResource as Resource>⟧.below
        (⟦<SumsResource as Resource>⟧.value_of (sums_resource s price)) d entries
        → IsFrontAt s t base price d (shown_labels s.trip_rig d.release entries) }
{}

/// The resource counts the duties of a list; and a covered pass with it, over a timetable's legal
/// duties, which report at minutes of 32 bits, shows the front of each.
pub fn sums_passes_show_the_fronts()
    ensures counts { (s : Settings) (price : ℤ) (r : SumsResource) → r ≡ sums_resource s price
        → IsChecked s → TimetableSpec.IsBasePrice price
        → CountsDuties ⟦<SumsResource as Forgets<Duty>>⟧.same_sums
        (⟦<SumsResource as Staged<Duty>>⟧.count_of r) (⟦<SumsResource as Staged<Duty>>⟧.most r)
        (⟦<SumsResource as Staged<Duty>>⟧.fits r) }
    ensures fronts { (s : Settings) (t : Timetable) (base : List ℕ) (price : ℤ)
        (r : SumsResource) (net : Net) (p : BasePass PairingVector) → r ≡ sums_resource s price
        → p.net ≡ net → IsChecked s → TimetableSpec.IsSound t → AreDuties s t net.duties
        → ((e : Duty) → Member net.duties e → IsReal e.report)
        → net.settings ≡ record s { away_cap = net.settings.away_cap }
        → IsCoveredBy ⟦<SumsResource as Resource>⟧.below
        ⟦<SumsResource as Forgets<Duty>>⟧.same_sums (network_of
        (schedule_of net.settings base net.duties) departure_of arrival_of
        (⟦<SumsResource as Staged<Duty>>⟧.idle_of r) (⟦<SumsResource as Staged<Duty>>⟧.waited r)
        (⟦<SumsResource as Staged<Duty>>⟧.boards r)) p → ShowsFronts s t base price p }
{
    crew_answers::laws::legal_duties_are_a_schedule();
    crew_forgetful::laws::covered_passes_show_the_fronts::<Duty, SumsResource, Key>();
    fronts_of_values_show_the_fronts();
}
