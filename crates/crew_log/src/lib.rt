//! A log that threads push edits to through seats, and that is read by place. The crate promises
//! that a receipt's place has its entry, for good, that it was drawn right after all places below
//! it, each of them once, that a seat's entries are numbered 0, 1, 2, .., that a number of a seat
//! has one place, that a submit is refused exactly where its seat is full or out of memory, and
//! then gives the edit back, and that a reading has a receipt for each place from the first on,
//! with no gap, and ends at no place that its caller has a receipt of, and nowhere but where the
//! row was looked at and showed nothing. That a place that was drawn gets an entry, and when a row
//! shows it to one who has no receipt of it, no contract says.
#![tactic(auto)]

mod fault;
mod log;
mod look;
mod places;
mod receipt;
mod rights;
mod seat;
mod stamped;

pub use fault::LogFault;
pub use log::Log;
pub use places::Drawings;
pub use receipt::Receipt;
pub use seat::Seat;
