//! The audit: every partial pairing of every base, listed plainly from the flights. It is the
//! reference for what finds pairings faster: slow, short, and right by the definition of a partial
//! pairing alone, which is that of pairings of up to 240 hours, whatever the settings: caps on
//! totals, a cap on each window of 168 hours, and 30 free hours within the 168 before each report.
//! The crate promises that `enumerate` lists exactly the partial pairings of a timetable, each once,
//! by base and walk, each with its vector and whether it is a pairing; that it refuses exactly where
//! there are more than a limit; and that `tally_all` counts the same partials, without a list of
//! them.
#![tactic(auto)]

mod audit;
mod chain;
mod flight_list;
pub mod laws;
mod legs;
mod limits;
mod partial;
mod search;
mod sink;
mod tally;

pub use audit::{enumerate, tally_all};
pub use partial::{AuditFault, Partial};
pub use tally::Tally;
