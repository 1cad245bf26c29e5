//! Windows of arrivals that hold the same.
ghost use Rattle.std.specs.Prelude.{◌≡◌, ◌≤◌, ◌<◌, ◌↔◌, IsTrue, Some, length, slice_get, true};
ghost use Rattle.crew_carry.specs.Twins.{AreTwins, HasAllTwins};
ghost use Rattle.crew_dirty.specs.Machinery.Windows.{AreTwinWindows, WaitsAlike};
ghost use Rattle.crew_pairing.specs.declared.events.Departure.{Departure};
ghost use Rattle.crew_resource.specs.Members.{Member};

use crew_carry::Twins;
use crew_net::{Net, Window};

// Whether a window holds just the twins of what another holds, in order.
fn holds_twins(twins: &Twins, now: Window, old: Window) -> bool
    requires ordered { now.from ≤ now.end }
    requires was { old.from ≤ old.end }
    requires arrivals { now.end ≤ length twins.now.arrivals }
    ensures { IsTrue result ↔ AreTwinWindows twins.now.arrivals now old }
{
    if now.end - now.from != old.end - old.from {
        return false;
    }
    for offset in 0..now.end - now.from {
        let stands = twins.has_arrival_at(now.from + offset, old.from + offset);
        if !stands {
            return false;
        }
    }
    true
}

/// Whether the departure at a place was there, and may wait on exactly the duties that it might.
pub(crate) fn waits_alike(old: &Net, new: &Net, twins: &Twins, place: usize) -> bool
    requires settings { old.now.settings ≡ new.now.settings }
    requires twins { AreTwins old.now new.now twins.now }
    requires all { HasAllTwins old.now new.now twins.now }
    requires place { place < length new.now.departures }
    ensures alike { result ≡ true → (g : Departure) → slice_get new.now.departures place ≡ Some g
        → WaitsAlike old.now new.now g }
    ensures all { (g : Departure) → slice_get new.now.departures place ≡ Some g
        → Member old.now.departures g → WaitsAlike old.now new.now g → result ≡ true }
{
    let _arrivals = new.arrivals();
    let _olds = old.arrivals();
    let _departures = old.departures();
    let Some(was) = twins.departure(place) else {
        return false;
    };
    let now = new.window(place);
    let before = old.window(was);
    holds_twins(twins, now, before)
}
