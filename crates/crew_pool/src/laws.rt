//! Laws over the definitions alone.
ghost use Rattle.std.specs.Prelude.{ℕ, List, length};
ghost use Rattle.crew_pairing.specs.Duties.{AreDuties};
ghost use Rattle.crew_pairing.specs.declared.duty.Duty.{Duty};
ghost use Rattle.crew_pairing.specs.crew_flights.Timetable.{Timetable};
ghost use Rattle.crew_pairing.specs.Local.{IsLocalOf};
ghost use Rattle.crew_pool.specs.Ranks.{AreRanked, by_key};
ghost use Rattle.crew_pool.specs.LabelWalks.{IsPoolOf};
ghost use Rattle.crew_pairing.specs.crew_rules.declared.settings.Settings.{Settings};

use crew_resource::Resource;

/// Over all legal duties of a timetable, by key: what candidates leave with their walks by rank is
/// what they leave with their walks by key.
pub fn pools_by_rank_are_pools_by_key<R: Resource>()
    ensures { (s : Settings) (t : Timetable) (duties : List Duty)
        (candidates entries : List (R.Value × List ℕ)) → AreDuties s t duties
        → AreRanked (length duties) candidates → IsPoolOf R.below candidates entries
        → IsLocalOf R.below (by_key duties candidates) (by_key duties entries) }
{}
