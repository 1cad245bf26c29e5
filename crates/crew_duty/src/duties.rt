//! All legal duties of a timetable.

ghost use Rattle.std.specs.Prelude.{◌≡◌, ◌≤◌, IfOk, length};
ghost use Rattle.crew_rules.specs.Settings.{IsChecked};
ghost use Rattle.crew_pairing.specs.Duties.{AreDuties, HasTooMany};

use crate::departures::index_of;
use crate::fault::DutyFault;
use crate::pieces::{count_all, list_all, total_of};
use crate::plan::{Plan, next_flights};
use crate::search::DUTIES;
use crate::turns::HeldTurns;
use crew_flights::Timetable;
use crew_pairing::Duties;
use crew_rules::Settings;
use std::alloc::Global;
use std::thread::Threads;

/// The legal duties of a timetable: exactly those, by key. `TooManyDuties` where there are more
/// than 200,000, and `Memory` only where a growth was refused.
///
/// They are counted first and then listed, in as many pieces at once as `rayon` has
/// threads for.
pub fn list_duties<R: Threads + Sync>(
    rt: &R,
    alloc: Global,
    settings: &Settings,
    timetable: &Timetable,
) -> Result<Duties, DutyFault>
    requires { IsChecked settings.now }
    ensures listed { IfOk result (λ duties. AreDuties settings.now timetable.now duties) }
    ensures few { IfOk result (λ duties. length duties ≤ 200_000) }
    ensures too_many { result ≡ Err DutyFault.TooManyDuties
        → HasTooMany settings.now timetable.now }
{
    let flights = timetable.placed_flights(alloc)?;
    let turns = HeldTurns::of(alloc, timetable)?;
    let slots = index_of(alloc, &flights)?;
    let next = next_flights(alloc, settings, &flights, &turns, &slots)?;
    let plan = Plan {
        settings,
        flights: &flights,
        turns: &turns,
        slots: &slots,
        next: &next,
    };
    let counts = count_all(rt, alloc, &plan)?;
    let total = total_of(&counts);
    if total > DUTIES {
        return Err(DutyFault::TooManyDuties);
    }
    Ok(list_all(rt, alloc, &plan, &counts, total)?)
}
