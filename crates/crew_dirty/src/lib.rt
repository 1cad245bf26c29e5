//! What an edit leaves standing, node by node. A node of the new network is touched where the old
//! one hasn't got it with all its facts, where its base's price differs, or where other duties may
//! stand just before it; it is reached where arcs lead to it from a touched node. `carry` tells, in
//! one pass over the departures in order of report, which nodes are neither; those keep their
//! fronts.
#![tactic(auto)]

mod bases;
mod carried;
mod flags;
pub mod laws;
mod node_places;
mod node_state;
mod places;
mod reach;
mod same;
mod windows;

pub use carried::{Carried, carry};
// Crates below this one, which those above cite through it.
pub use crew_carry::crew_step;
pub use node_state::{NodeState, NodeStates};
