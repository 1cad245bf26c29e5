//! Which events may be waited on, and which may follow.

ghost use Rattle.std.specs.Prelude.{◌≡◌, true, pos, ◌+ℤ◌, ◌-ℤ◌};
ghost use Rattle.crew_flights.specs.Codes.{is_code};
ghost use Rattle.crew_net.specs.Machinery.Moments as Spec;
ghost use Rattle.crew_net.specs.Machinery.Moments.{IsReal};
ghost use Rattle.crew_net.specs.Machinery.Timelines.{IsWithin};
ghost use Rattle.crew_pairing.specs.crew_rules.Settings.{IsChecked};

use crate::timeline::{moment, window_between};
use crate::window::Window;
use crew_pairing::crew_rules::Settings;
use crew_pairing::{Arrival, Departure};

/// The least minutes of rest between two duties.
const LEAST_REST: i64 = 600;

/// The moments of release after which a crew may report for a departure.
pub(crate) fn waiting(settings: &Settings, moments: &[i64], event: &Departure) -> Window
    requires checked { IsChecked settings.now }
    requires rise { Spec.Rise moments.now }
    requires minute { IsReal event.now.report }
    ensures window { IsWithin moments.now
        (Spec.moment event.now.airport (event.now.report -ℤ pos settings.now.max_rest))
        (Spec.moment event.now.airport (event.now.report -ℤ pos 600)) result }
    ensures code { is_code event.now.airport ≡ true }
{
    let earliest = moment(event.airport, event.report - i64::from(settings.max_rest));
    let latest = moment(event.airport, event.report - LEAST_REST);
    window_between(moments, earliest, latest)
}

/// The moments of report that may follow an arrival.
pub(crate) fn following(settings: &Settings, moments: &[i64], event: &Arrival) -> Window
    requires checked { IsChecked settings.now }
    requires rise { Spec.Rise moments.now }
    requires minute { IsReal event.now.release }
    ensures window { IsWithin moments.now
        (Spec.moment event.now.airport (event.now.release +ℤ pos 600))
        (Spec.moment event.now.airport (event.now.release +ℤ pos settings.now.max_rest)) result }
    ensures code { is_code event.now.airport ≡ true }
{
    let earliest = moment(event.airport, event.release + LEAST_REST);
    let latest = moment(event.airport, event.release + i64::from(settings.max_rest));
    window_between(moments, earliest, latest)
}
