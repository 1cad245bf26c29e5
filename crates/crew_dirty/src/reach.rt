//! Which duties no change reaches.
//!
//! Departures are gone to once in order of report, with a mark at each arrival of a duty that a
//! change reaches; what leaves is reached where it isn't the same or an arrival in its window is
//! marked. Duties that may stand just before report ten hours earlier or more, so their marks stand
//! by then. No arc is walked.
ghost use Rattle.std.specs.Prelude.{◌≡◌, ◌<◌, ◌≤ℤ◌, ℕ, IfOk, length, true};
ghost use Rattle.crew_dirty.specs.Carried.{AreFlags, AreSameUpTo};
ghost use Rattle.crew_dirty.specs.Dirty.{IsSameDuty};
ghost use Rattle.crew_net.specs.Nets as Spec;
ghost use Rattle.crew_pairing.specs.declared.duty.Duty.{Duty};
ghost use Rattle.crew_resource.specs.Members.{Member};

use crate::flags::{is_clear, mark, put_flags};
use crew_net::{Net, arrival_places};
use std::alloc::{AllocError, Global};

/// The flags of the duties to which arcs lead from flagged duties alone, themselves included.
///
/// Each departure is gone to once, in order of report. A mark stands at each arrival of a duty that
/// doesn't have this flag; what leaves has it where it is flagged and no arrival that it waits on
/// is marked.
pub(crate) fn unreached_duties(
    alloc: Global,
    net: &Net,
    flags: &[bool],
) -> Result<Vec<bool>, AllocError>
    requires long { length flags.now ≡ length net.now.duties }
    requires forward { (d : Duty) → Member net.now.duties d → d.report ≤ℤ d.release }
    ensures { (old : Spec.Net) → AreFlags (IsSameDuty old net.now) net.now.duties flags.now
        → IfOk result (λ unreached.
        AreFlags (AreSameUpTo old net.now) net.now.duties unreached.items) }
{
    let places = arrival_places(alloc, net)?;
    let mut unreached = vec![in alloc; false; net.duty_count()]?;
    let mut marks = vec![in alloc; false; net.arrivals().len()]?;
    let _departures = net.departures();
    for departure in net.by_report() {
        let departure = *departure as usize;
        let clear = is_clear(&marks, net.window(departure));
        put_flags(&mut unreached, net.leaving(departure), clear, flags);
        mark(&mut marks, &places, net.leaving(departure), &unreached);
    }
    Ok(unreached)
}
