//! Records of edits. All airports are on the clock of New York, and a crew reports an hour before it
//! departs.

use crate::words::{code_of, flight_id, points_of};
use crew_clocks::{Zone, read_minute};
use crew_flights::{Code, Edit, Flight};
use crew_time::{ClockMinute, Minute};

// What the clock of New York says when the crew of a departure reports.
fn report_clock(dep: Minute) -> Option<ClockMinute> {
    let report = Minute::new(dep.get() - 60)?;
    let zone = Zone::read(b"EST5EDT,M3.2.0,M11.1.0").ok()?;
    Some(zone.clock(report))
}

// The instant of a text.
fn instant_of(word: &str) -> Option<Minute> {
    read_minute(word.as_bytes()).ok()
}

// The airports and the times of a flight.
fn trip_of(words: &[&str]) -> Option<(Code, Code, Minute, Minute)> {
    let [from, to, dep, arr] = *words else {
        return None;
    };
    let read = (code_of(from), code_of(to), instant_of(dep), instant_of(arr));
    let (Some(from), Some(to), Some(dep), Some(arr)) = read else {
        return None;
    };
    Some((from, to, dep, arr))
}

fn flight_of(words: &[&str]) -> Option<Edit> {
    let [id, ref trip @ .., price] = *words else {
        return None;
    };
    let (Some(id), Some(price)) = (flight_id(id), points_of(price)) else {
        return None;
    };
    let (from, to, dep, arr) = trip_of(trip)?;
    let report_clock = report_clock(dep)?;
    Some(Edit::AddFlight(Flight {
        id,
        from,
        to,
        dep,
        arr,
        report_clock,
        price,
    }))
}

// What a record of a price says.
fn price_of(record: &str, words: &[&str]) -> Option<Edit> {
    let [whose, price] = *words else {
        return None;
    };
    let price = points_of(price)?;
    match record {
        "price" => Some(Edit::Price {
            id: flight_id(whose)?,
            price,
        }),
        "base" => Some(Edit::AddBase {
            code: code_of(whose)?,
            price,
        }),
        _ => None,
    }
}

/// What a record says, with commas between its fields.
pub fn edit_of(fields: &[&str]) -> Option<Edit> {
    let (record, others) = fields.split_first()?;
    match *record {
        "flight" => flight_of(others),
        "cancel" => Some(Edit::Cancel(flight_id(others.first()?)?)),
        record => price_of(record, others),
    }
}
