//! Tables, settings and pay.
use crate::library::call::Call;
use crew_rules::{Settings, duty_pay, pairing_pay, table_a, table_b};
use crew_time::ClockMinute;
use std::alloc::AllocError;

// A number that isn't negative; another stands for 0.
fn small(number: i64) -> u32 {
    u32::try_from(number).unwrap_or(0)
}

fn clock_of(number: i64) -> Option<ClockMinute> {
    ClockMinute::new(u16::try_from(number).ok()?)
}

/// The most flight time of a duty by the clock at its report.
pub fn flight_limit(call: &Call<'_>, out: &mut String) -> Result<(), AllocError> {
    match clock_of(call.numbers[1]) {
        Some(report) => write!(out, "{} at {}", table_a(report), report.get()),
        None => write!(out, "out of range"),
    }
}

/// The most flight duty period by the clock at its start, for one to eight segments.
pub fn duty_limits(call: &Call<'_>, out: &mut String) -> Result<(), AllocError> {
    let Some(start) = clock_of(call.numbers[1]) else {
        return write!(out, "out of range");
    };
    write!(out, "{}", table_b(start, 1))?;
    for segments in 2..9u8 {
        write!(out, " {}", table_b(start, segments))?;
    }
    Ok(())
}

// The defaults with another value of one setting, by its number; of none where there is no such.
fn standard_but(field: i64, value: u32) -> Settings {
    let mut settings = Settings::standard();
    match field {
        1 => settings.lead = value,
        2 => settings.debrief = value,
        3 => settings.connect = value,
        4 => settings.sit = value,
        5 => settings.max_rest = value,
        6 => settings.max_duties = value,
        7 => settings.fdp_cap = value,
        8 => settings.fly_cap = value,
        9 => settings.away_cap = value,
        10 => settings.duty_rig = value,
        11 => settings.trip_rig = value,
        12 => settings.duty_min = value,
        13 => settings.guarantee = value,
        14 => settings.deadheads = value,
        15 => settings.fdp_total = value,
        _ => {}
    }
    settings
}

/// Whether the defaults with another value of one setting are in range.
pub fn setting(call: &Call<'_>, out: &mut String) -> Result<(), AllocError> {
    match standard_but(call.numbers[1], small(call.numbers[2])).check() {
        Ok(()) => write!(out, "in range"),
        Err(bad) => write!(out, "refused {}: {bad}", bad.number()),
    }
}

/// The pay of a duty by its minutes from report to release and its flight minutes.
pub fn pay_of_duty(call: &Call<'_>, out: &mut String) -> Result<(), AllocError> {
    let [_, elapsed, flight, ..] = call.numbers;
    let settings = Settings::standard();
    if (0..=10_000).contains(&elapsed) && (0..=10_000).contains(&flight) {
        write!(out, "{}", duty_pay(&settings, elapsed, flight))
    } else {
        write!(out, "out of range")
    }
}

/// The pay of a pairing by that of its duties, its minutes away and the number of its duties.
pub fn pay_of_pairing(call: &Call<'_>, out: &mut String) -> Result<(), AllocError> {
    let [_, duty_pays, away, duties, ..] = call.numbers;
    let settings = Settings::standard();
    if (0..=10_000).contains(&away) {
        let pay = pairing_pay(&settings, duty_pays, away, small(duties));
        write!(out, "{pay}")
    } else {
        write!(out, "out of range")
    }
}
