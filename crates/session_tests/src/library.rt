//! What the libraries below the sessions say of instants, clocks, tables, settings and pay, in
//! values from outside.
//!
//! Each line of a case's input is a call in words (`clock EST5EDT,M3.2.0,M11.1.0 2025-03-09T07:00`),
//! which is written again, and below it its answer (`= 180, by a copy 180`). A line that begins with
//! `;` says what follows is about.

mod call;
mod rules;
mod times;

use call::{Call, call_of};
use std::alloc::{AllocError, Global};
use std::io::{self, Print};

// Answers a call about instants and clocks.
fn answer_of_times(alloc: Global, call: &Call<'_>, out: &mut String) -> Result<(), AllocError> {
    match call.words[0] {
        "minute" => times::minute(call, out),
        "text" => times::text(alloc, call, out),
        "clock" => times::clock(call, out),
        "zone" => times::zone(call, out),
        _ => out.push_str("no such call"),
    }
}

// Answers a call.
fn answer(alloc: Global, call: &Call<'_>, out: &mut String) -> Result<(), AllocError> {
    match call.words[0] {
        "flight-limit" => rules::flight_limit(call, out),
        "duty-limits" => rules::duty_limits(call, out),
        "setting" => rules::setting(call, out),
        "duty-pay" => rules::pay_of_duty(call, out),
        "pairing-pay" => rules::pay_of_pairing(call, out),
        _ => answer_of_times(alloc, call, out),
    }
}

// Writes a line, and below it what it is answered.
fn answer_line(alloc: Global, line: &str, out: &mut String) -> Result<(), AllocError> {
    out.push_str(line)?;
    out.push('\n')?;
    if line.is_empty() || line.starts_with(';') {
        return Ok(());
    }
    out.push_str("= ")?;
    answer(alloc, &call_of(line), out)?;
    out.push('\n')
}

/// Answers the calls of a case.
pub fn play<R: Print>(rt: &R, alloc: Global, input: &str) -> io::Result<()> {
    let mut out = String::new(alloc);
    for line in input.lines() {
        answer_line(alloc, line, &mut out)?;
    }
    print!(rt; "{out}")
}
