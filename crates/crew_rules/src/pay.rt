//! What a duty and a pairing are paid, in points; 14 points are a paid minute.

ghost use Rattle.std.specs.Prelude.{◌≡◌, ◌≤◌, ◌≤ℤ◌, ◌*ℤ◌, negsuc, pos};
ghost use Rattle.crew_rules.specs.Pay as Spec;
ghost use Rattle.crew_rules.specs.Pay.{IsMinutes};
ghost use Rattle.crew_rules.specs.Settings.{IsChecked};

use crate::settings::Settings;

/// So many points for each of some minutes, forward or back.
pub fn rated(rate: u32, minutes: i64) -> i64
    requires rate { rate ≤ 14 }
    requires minutes { (negsuc 99_999_999 ≤ℤ minutes) × (minutes ≤ℤ pos 100_000_000) }
    ensures value { result ≡ pos rate *ℤ minutes }
    ensures bound { (negsuc 1_399_999_999 ≤ℤ result) × (result ≤ℤ pos 1_400_000_000) }
{
    i64::from(rate) * minutes
}

/// So many points for each duty.
pub fn guaranteed(points: u32, duties: u32) -> i64
    requires points { points ≤ 20_000 }
    ensures value { result ≡ pos points *ℤ pos duties }
    ensures bound { (pos 0 ≤ℤ result) × (result ≤ℤ pos 85_899_345_900_000) }
{
    i64::from(points) * i64::from(duties)
}

/// The pay of a duty of `elapsed` minutes from report to release, with `flight` minutes flown: the
/// greatest of 14 points a flight minute, the duty rig for each elapsed minute, and the duty's
/// minimum.
pub fn duty_pay(settings: &Settings, elapsed: i64, flight: i64) -> i64
    requires checked { IsChecked settings.now }
    requires elapsed { IsMinutes elapsed }
    requires flight { IsMinutes flight }
    ensures { result ≡ Spec.duty_pay settings.now elapsed flight }
{
    rated(14, flight)
        .max(rated(settings.duty_rig, elapsed))
        .max(i64::from(settings.duty_min))
}

/// The pay of a pairing of so many `duties` that are paid `duty_pays` together, `away` minutes from
/// first report to last release: the greatest of the sum of its duties' pays, the trip rig for each
/// minute away, and the guarantee for each duty.
pub fn pairing_pay(settings: &Settings, duty_pays: i64, away: i64, duties: u32) -> i64
    requires checked { IsChecked settings.now }
    requires away { IsMinutes away }
    ensures { result ≡ Spec.pairing_pay settings.now duty_pays away duties }
{
    duty_pays
        .max(rated(settings.trip_rig, away))
        .max(guaranteed(settings.guarantee, duties))
}
