//! The two parts that the vector of a pairing of up to 240 hours has beside its sums, as resources.
//!
//! `SinceRest` keeps the end of the last rest of 30 hours, and has no value for a list where 30
//! free hours are missing before a report; `Window` keeps the flight duty periods of the last 168
//! hours, and has none where a window passes its cap. Both are told over the whole list by
//! `crew_history`. Both prove the laws of a resource in stages, and those of one that may forget:
//! neither is a sum. Each has a switch: off, all lists have one value, and its stages shift it.
#![tactic(auto)]

pub mod laws;
mod recent;
mod rest_end;
mod since_rest;
mod window;

// Crates below this one, which those above cite through it.
pub use crew_history;
pub use recent::Recent;
pub use rest_end::RestEnd;
pub use since_rest::SinceRest;
pub use window::Window;
