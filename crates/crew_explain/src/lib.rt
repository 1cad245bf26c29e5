//! Why a walk is, or isn't, a legal pairing of a base: the first rule that it breaks, with its place,
//! its number and its limit; or, where it breaks none, the numbers of the pairing and of each duty.
//!
//! The crate promises that a walk breaks no rule exactly where it is a pairing by the definition, and
//! that the rule told is the first that is broken, in the order of `specs/Rules`. It looks up the
//! walk's own flights and their turns alone, so its time depends on the walk and not on the timetable.
#![tactic(auto)]

mod breach;
mod connections;
mod duty;
mod explained;
pub mod laws;
mod legs;
mod limits;
mod sums;
mod walk;

pub use breach::{Breach, Rule};
pub use explained::{Explained, Limits, Numbers, Way, explain};
