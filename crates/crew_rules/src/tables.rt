//! Table A and Table B of 14 CFR part 117.

ghost use Rattle.std.specs.Prelude.{◌≡◌, ◌≤◌};
ghost use Rattle.crew_rules.specs.Tables as Spec;

use crew_time::ClockMinute;

/// The most flight minutes of a duty by the clock at its report: 14 CFR 117.11, Table A, for a crew
/// of two pilots. The limit may be reached.
pub fn table_a(report: ClockMinute) -> u16
    ensures { result ≡ Spec.table_a report }
{
    match report.get() {
        300..=1_199 => 540,
        _ => 480,
    }
}

/// The limits of Table B by the clock at the start of a flight duty period: for 1, 2, .., 6 and 7
/// or more flight segments, in minutes.
pub fn limits_from(start: ClockMinute) -> [u16; 7]
    ensures { result ≡ Spec.limits_from start }
{
    match start.get() {
        0..=239 => [540, 540, 540, 540, 540, 540, 540],
        240..=299 => [600, 600, 600, 600, 540, 540, 540],
        300..=359 => [720, 720, 720, 720, 690, 660, 630],
        360..=419 => [780, 780, 720, 720, 690, 660, 630],
        420..=719 => [840, 840, 780, 780, 750, 720, 690],
        720..=779 => [780, 780, 780, 780, 750, 720, 690],
        780..=1_019 => [720, 720, 720, 720, 690, 660, 630],
        1_020..=1_319 => [720, 720, 660, 660, 600, 540, 540],
        1_320..=1_379 => [660, 660, 600, 600, 540, 540, 540],
        _ => [600, 600, 600, 540, 540, 540, 540],
    }
}

/// The most minutes of a flight duty period by the clock at its start and its number of flight
/// segments: 14 CFR 117.13, Table B. The limit may be reached.
pub fn table_b(start: ClockMinute, segments: u8) -> u16
    requires { (1 ≤ segments) × (segments ≤ 8) }
    ensures { result ≡ Spec.table_b start segments }
{
    limits_from(start)[segments.min(7) as usize - 1]
}
