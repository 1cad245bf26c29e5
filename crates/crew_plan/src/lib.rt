//! What a timetable gives: the Pareto fronts of all bases and legal duties, and the best pairing (that
//! of least reduced cost), for pairings of up to 240 hours; and the columns that cost least.
//!
//! A `Plan` has what the label-setting passes over the bases share, so that threads can make the fronts
//! of one base each, in any order, warm from an earlier solution; a `Solution` has those of all bases,
//! and promises that what they show is what enumerating all legal pairings gives (`crew_answers`).
//! Where no pairing of the settings has more than 138 hours the work is `crew_solve`'s, else
//! `crew_pass`'s. `laws` has that the pairings that cost least are one list.
#![tactic(auto)]

mod alike;
mod dates;
mod homes;
pub mod laws;
mod long_plan;
mod passes;
mod plan;
mod solution;
mod sweeps;
mod taken;

// Crates below this one, which those above cite through it.
pub use crew_fronts;
pub use crew_fronts::{crew_duty, crew_solve};
pub use plan::Plan;
pub use solution::Solution;
