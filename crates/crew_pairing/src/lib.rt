//! What a duty and a pairing are, under 14 CFR part 117 for unaugmented operations: legs, keys,
//! walks and duties with their orders, lists of duties, the facts of a list of legs, and the vector
//! of a list of duties. `specs/` says which lists of legs are legal duties, and which lists of
//! duties are partial pairings and pairings; the crate promises that its facts are those of the
//! definitions. It searches for nothing: the theory of the tree in which legal duties are found
//! stands in `proofs/`, for those that do.
#![tactic(auto)]

mod duties;
mod duty;
mod events;
pub mod facts;
mod key;
pub mod laws;
mod leg;
mod vector;

// Crates below this one, which those above cite through it.
pub use crew_rules;
pub use duties::Duties;
pub use duty::Duty;
pub use events::{Arrival, Departure};
pub use key::{Key, Walk};
pub use leg::{Leg, TimedLeg};
pub use vector::PairingVector;
