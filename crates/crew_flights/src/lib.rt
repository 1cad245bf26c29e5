//! Flights, base prices, turns and follow-ons between flights, and the edits that change them.
//!
//! A timetable is five finite maps: flights by number, base prices by airport, turns by pairs of
//! flights, and which flight follows which, seen from either.
//! An edit either changes it, or is refused with the first refusal that applies and
//! changes nothing. A log of entries is folded into a timetable and a verdict an entry:
//! an entry that comes out of its seat's turn changes nothing.
#![tactic(auto)]

mod edit;
mod entries;
mod flight;
mod follow_ons;
pub mod laws;
mod timetable;

pub use edit::{Edit, Refusal, Verdict};
pub use entries::{Entry, Folding, fold};
pub use flight::{Code, Flight, FlightId};
pub use timetable::Timetable;
