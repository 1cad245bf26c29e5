//! The clocks of airports at report.

ghost use Rattle.std.specs.Prelude.{◌≡◌};
ghost use Rattle.crew_time.specs.Instant.{IsInYears};
ghost use Rattle.crew_rules.specs.Settings.{IsChecked};
ghost use Rattle.crew_session.specs.Machinery.Journals.{zones_of};
ghost use Rattle.crew_session.specs.Zones as Spec;

use crate::zones::Zones;
use crew_clocks::Zone;
use crew_flights::Code;
use crew_rules::Settings;
use crew_time::{ClockMinute, Minute};

// What a clock in the zone shows `lead` minutes before a departure.
fn report_clock(settings: &Settings, zone: &Zone, dep: Minute) -> ClockMinute
    requires checked { IsChecked settings.now }
    requires dated { IsInYears dep }
    ensures { result ≡ Spec.report_clock settings.now dep zone.now }
{
    let Some(report) = Minute::new(dep.get() - i64::from(settings.lead)) else {
        unreachable!();
    };
    zone.clock(report)
}

// The same of an airport, if it has a zone.
pub(crate) fn clock_at(
    settings: &Settings,
    zones: &Zones,
    from: Code,
    dep: Minute,
) -> Option<ClockMinute>
    requires checked { IsChecked settings.now }
    requires dated { IsInYears dep }
    ensures { result ≡ Spec.clock_at settings.now (zones_of zones.now) from dep }
{
    match zones.get(from) {
        None => None,
        Some(zone) => Some(report_clock(settings, zone, dep)),
    }
}
