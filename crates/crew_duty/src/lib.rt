//! The search for legal duties: all that a timetable's flights make. The crate promises that the
//! duties that it lists are exactly the legal ones, by key, that it refuses exactly where there are
//! more than 200,000, and that as many threads as there are change nothing of what it answers.
#![tactic(auto)]

mod beside;
mod changes;
mod departures;
mod duties;
mod fault;
pub mod laws;
mod limits;
mod next;
mod past;
mod pieces;
mod plan;
mod priced;
mod rooms;
mod search;
mod totals;
mod turns;

pub use duties::list_duties;
pub use fault::DutyFault;
pub use next::list_next;
