//! Whether two entries are one.
ghost use Rattle.std.specs.Prelude.{◌≡◌, IsTrue, ◌↔◌};

use crew_flights::{Code, Edit, Entry, Flight, FlightId};
use crew_time::{ClockMinute, Minute};

// Whether two flights are one.
fn is_same_flight(one: &Flight, other: &Flight) -> bool
    ensures { IsTrue result ↔ (one.now ≡ other.now) }
{
    one == other
}

// Whether two numbers of flights are one.
fn is_same_id(one: &FlightId, other: &FlightId) -> bool
    ensures { IsTrue result ↔ (one.now ≡ other.now) }
{
    one == other
}

// Whether two codes are one.
fn is_same_code(one: &Code, other: &Code) -> bool
    ensures { IsTrue result ↔ (one.now ≡ other.now) }
{
    one == other
}

// Whether two instants are one.
fn is_same_minute(one: &Minute, other: &Minute) -> bool
    ensures { IsTrue result ↔ (one.now ≡ other.now) }
{
    one == other
}

// Whether two minutes of a clock are one.
fn is_same_clock(one: &ClockMinute, other: &ClockMinute) -> bool
    ensures { IsTrue result ↔ (one.now ≡ other.now) }
{
    one == other
}

// Whether two prices are one.
fn is_same_price(one: &i64, other: &i64) -> bool
    ensures { IsTrue result ↔ (one.now ≡ other.now) }
{
    one == other
}

// Whether two numbers of minutes are one.
fn is_same_span(one: &u32, other: &u32) -> bool
    ensures { IsTrue result ↔ (one.now ≡ other.now) }
{
    one == other
}

// Whether two edits are one.
fn is_same_edit(one: &Edit, other: &Edit) -> bool
    ensures { IsTrue result ↔ (one.now ≡ other.now) }
{
    match (one, other) {
        (Edit::AddBase { code, price }, Edit::AddBase { code: c, price: p }) => {
            is_same_code(code, c) && is_same_price(price, p)
        }
        (Edit::BasePrice { code, price }, Edit::BasePrice { code: c, price: p }) => {
            is_same_code(code, c) && is_same_price(price, p)
        }
        (Edit::AddFlight(flight), Edit::AddFlight(f)) => is_same_flight(flight, f),
        (Edit::Cancel(id), Edit::Cancel(i)) => is_same_id(id, i),
        (
            Edit::Retime {
                id,
                from,
                dep,
                arr,
                report_clock,
            },
            Edit::Retime {
                id: i,
                from: f,
                dep: d,
                arr: a,
                report_clock: r,
            },
        ) => {
            is_same_id(id, i)
                && is_same_code(from, f)
                && is_same_minute(dep, d)
                && is_same_minute(arr, a)
                && is_same_clock(report_clock, r)
        }
        (Edit::Price { id, price }, Edit::Price { id: i, price: p }) => {
            is_same_id(id, i) && is_same_price(price, p)
        }
        (
            Edit::Turn {
                before,
                after,
                minutes,
            },
            Edit::Turn {
                before: b,
                after: a,
                minutes: m,
            },
        ) => is_same_id(before, b) && is_same_id(after, a) && is_same_span(minutes, m),
        (
            Edit::TakeTurn { before, after },
            Edit::TakeTurn {
                before: b,
                after: a,
            },
        ) => is_same_id(before, b) && is_same_id(after, a),
        (
            Edit::Follow { before, after },
            Edit::Follow {
                before: b,
                after: a,
            },
        ) => is_same_id(before, b) && is_same_id(after, a),
        (Edit::TakeFollow { before }, Edit::TakeFollow { before: b }) => is_same_id(before, b),
        _ => false,
    }
}

/// Whether two entries are one.
pub fn is_same_entry(one: &Entry, other: &Entry) -> bool
    ensures { IsTrue result ↔ (one.now ≡ other.now) }
{
    one.seat == other.seat && one.number == other.number && is_same_edit(&one.edit, &other.edit)
}
