//! Laws over the definitions alone.
ghost use Rattle.std.specs.Prelude.{◌≡◌, ℕ, ℤ, List};
ghost use Rattle.crew_answers.specs.Schedules.{IsDated, schedule_of};
ghost use Rattle.crew_answers.specs.Shown.{long_resource};
ghost use Rattle.crew_answers.specs.declared.resource.LongResource.{LongResource};
ghost use Rattle.crew_answers.specs.declared.value.LongValue.{LongValue};
ghost use Rattle.crew_flights.specs.Timetable as TimetableSpec;
ghost use Rattle.crew_flights.specs.Timetable.{Timetable};
ghost use Rattle.crew_forgetful.specs.Sweeps.{network_of};
ghost use Rattle.crew_net.specs.Nets.{Net};
ghost use Rattle.crew_pairing.specs.Duties.{AreDuties};
ghost use Rattle.crew_pairing.specs.Events.{arrival_of, departure_of};
ghost use Rattle.crew_rules.specs.Settings.{IsChecked};
ghost use Rattle.crew_rules.specs.declared.settings.Settings.{Settings};
ghost use Rattle.crew_pass.specs.Passes.{BasePass, CountsDuties, IsCoveredBy, ShowsFronts};

use crew_answers::LongResource;
use crew_forgetful::Forgets;
use crew_pairing::Duty;
use crew_resource::{Resource, Staged};

/// The resource of pairings of up to 240 hours counts their duties; and a covered pass with it, over
/// a timetable's legal duties, shows the front of each.
pub fn long_passes_show_the_fronts()
    ensures counts { (s : Settings) (price : ℤ) (r : LongResource)
        → r ≡ long_resource s price → IsChecked s
        → TimetableSpec.IsBasePrice price
        → CountsDuties ⟦<LongResource as Forgets<Duty>>⟧.same_sums
        (⟦<LongResource as Staged<Duty>>⟧.count_of r) (⟦<LongResource as Staged<Duty>>⟧.most r)
        (⟦<LongResource as Staged<Duty>>⟧.fits r) }
    ensures fronts { (s : Settings) (t : Timetable) (base : List ℕ) (price : ℤ)
        (r : LongResource) (net : Net) (p : BasePass LongValue)
        → r ≡ long_resource s price → p.net ≡ net → IsChecked s
        → TimetableSpec.IsSound t → IsDated t → AreDuties s t net.duties
        → net.settings ≡ record s { away_cap = net.settings.away_cap }
        → IsCoveredBy ⟦<LongResource as Resource>⟧.below
        ⟦<LongResource as Forgets<Duty>>⟧.same_sums (network_of
        (schedule_of net.settings base net.duties) departure_of arrival_of
        (⟦<LongResource as Staged<Duty>>⟧.idle_of r) (⟦<LongResource as Staged<Duty>>⟧.waited r)
        (⟦<LongResource as Staged<Duty>>⟧.boards r)) p → ShowsFronts s t base price p }
{
    crew_answers::laws::sums_fit();
    crew_answers::laws::legal_duties_are_a_schedule();
    crew_answers::laws::covered_passes_show_the_fronts();
}
