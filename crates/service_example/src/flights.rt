//! The edits that are submitted. Both airports are on the clock of New York.

use crew_clocks::{Zone, read_minute};
use crew_flights::{Code, Edit, Flight, FlightId};
use crew_time::{ClockMinute, Minute};

// How many minutes before its first departure a crew reports, as the standard settings have it.
const LEAD: i64 = 60;

// An airport, by its code.
fn airport(code: &[u8; 3]) -> Option<Code> {
    Code::new(*code)
}

// What the clock of New York says when the crew of a departure reports.
fn report_clock(dep: Minute) -> Option<ClockMinute> {
    let zone = Zone::read(b"EST5EDT,M3.2.0,M11.1.0").ok()?;
    Some(zone.clock(Minute::new(dep.get() - LEAD)?))
}

// A flight between these airports from one instant to another, and the price that is put on it.
fn flight(id: u32, trip: [&[u8; 3]; 2], times: [&[u8]; 2], price: i64) -> Option<Edit> {
    let [from, to] = trip;
    let [dep, arr] = times;
    let (dep, arr) = (read_minute(dep).ok()?, read_minute(arr).ok()?);
    Some(Edit::AddFlight(Flight {
        id: FlightId::new(id)?,
        from: airport(from)?,
        to: airport(to)?,
        dep,
        arr,
        report_clock: report_clock(dep)?,
        price,
    }))
}

/// The flight out, in the morning.
pub fn out() -> Option<Edit> {
    let times: [&[u8]; 2] = [b"2025-07-01T12:00", b"2025-07-01T13:10"];
    flight(101, [b"JFK", b"BOS"], times, 3000)
}

/// The flight home, an hour after.
pub fn home() -> Option<Edit> {
    let times: [&[u8]; 2] = [b"2025-07-01T14:00", b"2025-07-01T15:15"];
    flight(102, [b"BOS", b"JFK"], times, 2000)
}

/// The crew base.
pub fn base() -> Option<Edit> {
    let code = airport(b"JFK")?;
    Some(Edit::AddBase { code, price: 0 })
}
