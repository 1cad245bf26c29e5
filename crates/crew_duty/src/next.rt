//! All legal duties of a timetable, beside those of an earlier one.

ghost use Rattle.std.specs.Prelude.{◌≡◌, ◌≤◌, ◌<◌, IfOk, length};
ghost use Rattle.crew_rules.specs.Settings.{IsChecked};
ghost use Rattle.crew_pairing.specs.Duties.{AreDuties, AreDutiesOver, HasTooMany};
ghost use Rattle.crew_pairing.specs.Machinery.Beginnings.{AreFlights};
ghost use Rattle.crew_pairing.specs.Machinery.Listing.{all_duties};
ghost use Rattle.crew_duty.specs.Machinery.Held.{over};
ghost use Rattle.crew_duty.specs.Machinery.Kept.{AreKept, ClimbInTime};

use crate::beside::{EarlierDuties, all_next_beside, count_beside, fill_beside};
use crate::changes::changes_between;
use crate::departures::index_of;
use crate::duties::list_duties;
use crate::fault::DutyFault;
use crate::past::{Block, Past};
use crate::pieces::total_of;
use crate::plan::Plan;
use crate::priced::{can_reprice, list_priced};
use crate::search::DUTIES;
use crate::turns::HeldTurns;
use crew_flights::{Flight, Timetable};
use crew_pairing::Duties;
use crew_rules::Settings;
use std::alloc::Global;
use std::thread::Threads;

// How many of these there are.
fn count_kept(blocks: &[Option<Block>]) -> usize {
    blocks.iter().filter(|block| block.is_some()).count()
}

// The legal duties over these flights, beside earlier ones.
fn list_beside(
    alloc: Global,
    settings: &Settings,
    flights: &[Flight],
    turns: &HeldTurns,
    minutes: &[i64],
    kept: &EarlierDuties<'_>,
) -> Result<Duties, DutyFault>
    requires checked { IsChecked settings.now }
    requires flights { AreFlights (over flights.now turns.now) }
    requires few { length flights.now ≤ 5_000 }
    requires minutes { ClimbInTime minutes.now }
    requires kept { AreKept settings.now (over flights.now turns.now) kept.now.duties.now
        flights.now kept.now.stands.now }
    ensures listed { IfOk result (λ duties. AreDutiesOver settings.now
        (over flights.now turns.now) duties) }
    ensures few { IfOk result (λ duties. length duties ≤ 200_000) }
    ensures too_many { result ≡ Err DutyFault.TooManyDuties
        → 200_000 < length (all_duties settings.now (over flights.now turns.now)) }
{
    let slots = index_of(alloc, flights)?;
    let next = all_next_beside(alloc, settings, flights, turns, &slots, minutes)?;
    let plan = Plan {
        settings,
        flights,
        turns,
        slots: &slots,
        next: &next,
    };
    let counts = count_beside(alloc, &plan, kept)?;
    let total = total_of(&counts);
    if total > DUTIES {
        return Err(DutyFault::TooManyDuties);
    }
    Ok(fill_beside(alloc, &plan, kept, &counts, total)?)
}

/// The legal duties of a timetable, as `list_duties` lists them, warm from those of an earlier one.
/// `TooManyDuties` where there are more than 200,000, and `Memory` only where a growth was refused.
///
/// Where the flights differ in their dual prices alone, all duties are taken over, at their new prices.
/// Otherwise the duties that begin with a flight are taken over where no flight that has come, gone
/// or changed, or whose turns to next legs have, departs while one of them may last, and listed anew
/// elsewhere. Where most would be
/// listed anew, all are, by `list_duties`.
pub fn list_next<R: Threads + Sync>(
    rt: &R,
    alloc: Global,
    settings: &Settings,
    earlier: &Timetable,
    duties: &Duties,
    timetable: &Timetable,
) -> Result<Duties, DutyFault>
    requires checked { IsChecked settings.now }
    requires earlier { AreDuties settings.now earlier.now duties.now }
    ensures listed { IfOk result (λ duties. AreDuties settings.now timetable.now duties) }
    ensures few { IfOk result (λ duties. length duties ≤ 200_000) }
    ensures too_many { result ≡ Err DutyFault.TooManyDuties
        → HasTooMany settings.now timetable.now }
{
    let before = earlier.placed_flights(alloc)?;
    let turns_before = HeldTurns::of(alloc, earlier)?;
    let flights = timetable.placed_flights(alloc)?;
    let turns = HeldTurns::of(alloc, timetable)?;
    if can_reprice(duties, &flights, &turns, &before, &turns_before) {
        return Ok(list_priced(alloc, &flights, duties)?);
    }
    let minutes = changes_between(alloc, &flights, &turns, &before, &turns_before)?;
    let past = Past {
        duties,
        minutes: &minutes,
    };
    let blocks = past.blocks(alloc, settings, &flights)?;
    if count_kept(&blocks) < flights.len() / 2 {
        return list_duties(rt, alloc, settings, timetable);
    }
    let kept = EarlierDuties {
        duties: past.duties,
        stands: &blocks,
    };
    list_beside(alloc, settings, &flights, &turns, &minutes, &kept)
}
