//! Versions: what the entries of a log come to under some settings. The crate promises that a
//! version's verdicts and timetable are the fold of its entries, that they come to at most 200,000
//! legal duties, that its Pareto fronts and its pairing of least reduced cost are those from scratch,
//! and that the next version is refused only where there are more duties, where no greater number is
//! left, or out of memory. A version never changes, and shares with the next what both hold: entries,
//! verdicts, and all fronts where the timetable is as it was. A `Draft` is a version whose fronts are
//! still to be made, by whoever likes; closed by its solution it is that version.
#![tactic(auto)]

mod chunks;
mod draft;
mod entry;
mod fault;
mod same;
mod search;
mod version;

// Crates below this one, which those above cite through it.
pub use crew_plan;
pub use crew_plan::{crew_fronts, crew_solve};
pub use draft::Draft;
pub use entry::is_same_entry;
pub use fault::VersionFault;
pub use same::are_same_timetables;
pub use version::Version;
