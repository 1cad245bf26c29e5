//! The Pareto fronts of one crew base, whichever label-setting pass made them, in the words of pairings
//! of up to 240 hours (`crew_answers`).
//!
//! Where no pairing of the settings has more than 138 hours, a sweep of `crew_solve` makes them, whose
//! labels are the seven sums; else a pass of `crew_pass`, whose labels remember a past too. The crate
//! promises that either way they are the fronts of the legal duties of a timetable, each in order of
//! vector, and lends them without taking memory.
#![tactic(auto)]

mod base_fronts;
mod front_view;
mod passed_front;
mod passed_fronts;
mod passed_walk;
mod plain;
mod vector;
mod walk_view;

pub use base_fronts::BaseFronts;
// Crates below this one, which those above cite through it.
pub use crew_pass;
pub use crew_solve;
pub use crew_solve::{crew_duty, crew_step};
pub use front_view::{FrontEntries, FrontView};
pub use plain::is_plain;
pub use vector::Vector;
pub use walk_view::WalkView;
