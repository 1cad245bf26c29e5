//! What the engine has to answer for pairings of up to 240 hours: fronts, the best pairing and
//! scratch, as definitions; and the resource by which labels of such pairings are extended.
//!
//! The vector of a list of duties has two parts beside the seven sums of `crew_vector`: the minutes
//! since the last rest of 30 hours, and the flight duty periods of the last 168 hours
//! (`specs/LongVectors`). Partials are those that keep 14 CFR 117.23(c) in every window and 117.25(b)
//! at every report; dominance, clean partials, fronts, the best pairing and what is local to a node
//! are `crew_vector`'s over these partials and vectors. Where settings allow at most 138 hours all of
//! it is what `crew_vector` defines (`laws`). `LongResource` keeps the three parts of a list from
//! duty to duty, two of them forgetful: a list has a value exactly where it is a partial, which shows
//! its vector, so fronts of values show the fronts. Values have sixteen marks, which rise with them.
#![tactic(auto)]

mod cost;
mod lapses;
pub mod laws;
mod marks;
mod resource;
mod value;

// Crates below this one, which those above cite through it.
pub use crew_history;
pub use crew_vector;
pub use resource::{LongResource, settings_of_sums};
pub use value::LongValue;
