//! Instants, their texts, and clocks of zones.
use crate::library::call::Call;
use crew_clocks::{TimeFault, Zone, read_minute, write_minute};
use crew_time::Minute;
use std::alloc::{AllocError, Global};

fn put_fault(out: &mut String, fault: TimeFault) -> Result<(), AllocError> {
    write!(out, "refused {}: {fault}", fault.number())
}

/// The number of an instant by its text.
pub fn minute(call: &Call<'_>, out: &mut String) -> Result<(), AllocError> {
    match read_minute(call.text.as_bytes()) {
        Ok(minute) if Minute::new(minute.get()) == Some(minute) => write!(out, "{}", minute.get()),
        Ok(_) => write!(out, "another than that of its number"),
        Err(fault) => put_fault(out, fault),
    }
}

// Adds the text of the instant of a number; whether that went well.
fn append(text: &mut Vec<u8>, number: &str) -> bool {
    match Minute::new(number.parse::<i64>().unwrap_or(0)) {
        Some(minute) => write_minute(text, minute).is_ok(),
        None => false,
    }
}

/// The texts of instants by their numbers, one after another, and their length. A number that is
/// none, and a text for which there is no memory, leave what was written.
pub fn text(alloc: Global, call: &Call<'_>, out: &mut String) -> Result<(), AllocError> {
    let mut text = Vec::new(alloc);
    for number in call.text.split_whitespace() {
        if !append(&mut text, number) {
            out.push_str("refused after ")?;
        }
    }
    out.push_str(str::from_utf8(&text).unwrap_or("no text"))?;
    write!(out, ", {} bytes", text.len())
}

/// What a zone's clock shows at an instant, and what its copy's shows.
pub fn clock(call: &Call<'_>, out: &mut String) -> Result<(), AllocError> {
    let Ok(minute) = read_minute(call.words[2].as_bytes()) else {
        return write!(out, "no instant");
    };
    match Zone::read(call.words[1].as_bytes()) {
        Ok(zone) => {
            let copied = zone.clone()?.clock(minute).get();
            write!(out, "{}, by a copy {copied}", zone.clock(minute).get())
        }
        Err(fault) => put_fault(out, fault),
    }
}

/// Whether a text is the rule of a zone.
pub fn zone(call: &Call<'_>, out: &mut String) -> Result<(), AllocError> {
    match Zone::read(call.text.as_bytes()) {
        Ok(_) => write!(out, "a zone"),
        Err(fault) => put_fault(out, fault),
    }
}
