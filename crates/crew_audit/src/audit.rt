//! All partial pairings of a timetable.

ghost use Rattle.std.specs.Prelude.{◌≡◌, ◌≤◌, IfOk, OnOk, Err, length};
ghost use Rattle.crew_rules.specs.Settings.{IsChecked};
ghost use Rattle.crew_audit.specs.Machinery.Listing.{all_partials};
ghost use Rattle.crew_audit.specs.Machinery.Taking.{Took};
ghost use Rattle.crew_audit.specs.Partials.{ArePartials, HasMoreThan};
ghost use Rattle.crew_audit.specs.Tallies.{IsTallyOf};

use crate::flight_list::FlightList;
use crate::partial::{AuditFault, Partial};
use crate::search::{Scope, list_after};
use crate::sink::{Running, Sink};
use crate::tally::Tally;
use crew_flights::Timetable;
use crew_rules::Settings;
use std::alloc::Global;

// Finds all partials of a timetable.
fn find<F: Sink>(
    alloc: Global,
    found: &mut F,
    settings: &Settings,
    timetable: &Timetable,
    limit: usize,
) -> Result<(), AuditFault>
    requires checked { IsChecked settings.now }
    requires new { F.count found.old ≡ 0 }
    ensures ok { OnOk result (Took F.count F.holds found.old found.new
        (all_partials settings.now timetable.now)) }
    ensures all { OnOk result (ArePartials settings.now timetable.now
        (all_partials settings.now timetable.now)) }
    ensures few { OnOk result (length (all_partials settings.now timetable.now) ≤ limit) }
    ensures over { result ≡ Err AuditFault.OverLimit
        → HasMoreThan settings.now timetable.now limit }
{
    let flights = FlightList::of(alloc, settings, timetable)?;
    for (base, base_price) in timetable.bases() {
        let scope = Scope {
            settings,
            flights: &flights,
            base: *base,
            base_price: *base_price,
            limit,
        };
        list_after(alloc, found, &scope, &[])?;
    }
    Ok(())
}

/// The partial pairings of all bases of a timetable: exactly those, each once, by base and walk,
/// each with its vector and whether it is a pairing. `OverLimit` exactly where there are more than
/// `limit`, as soon as one more is found, and `Memory` only where a growth was refused.
pub fn enumerate(
    alloc: Global,
    settings: &Settings,
    timetable: &Timetable,
    limit: usize,
) -> Result<Vec<Partial>, AuditFault>
    requires { IsChecked settings.now }
    ensures listed { IfOk result (λ partials. ArePartials settings.now timetable.now
        partials.items) }
    ensures few { IfOk result (λ partials. length partials.items ≤ limit) }
    ensures over { result ≡ Err AuditFault.OverLimit
        → HasMoreThan settings.now timetable.now limit }
{
    let mut partials = Vec::new(alloc);
    find(alloc, &mut partials, settings, timetable, limit)?;
    Ok(partials)
}

/// What `enumerate` lists, counted and not kept: it takes memory for the flights, by where and when
/// they leave, the bases and one list of duties at a time, however many partials there are.
/// `OverLimit` exactly where there are more than `limit`, as soon as one more is found, and `Memory`
/// only where a growth was refused.
pub fn tally_all(
    alloc: Global,
    settings: &Settings,
    timetable: &Timetable,
    limit: usize,
) -> Result<Tally, AuditFault>
    requires { IsChecked settings.now }
    ensures counted { IfOk result (λ tally. IsTallyOf settings.now timetable.now limit tally) }
    ensures over { result ≡ Err AuditFault.OverLimit
        → HasMoreThan settings.now timetable.now limit }
{
    let mut running = Running::new();
    find(alloc, &mut running, settings, timetable, limit)?;
    Ok(running.tally)
}
