//! What two networks have alike, and pools that are carried from one to the other. `Twins` tells
//! which departures, arrivals and keys of duties both have; a `Carrier` brings pools over, with
//! each walk's duties by their ranks in the new network, and shares those whose walks keep their
//! places, as it can tell from a pool's `Span`; `are_alike` tells whether two pools show the same by
//! key.
#![tactic(auto)]

mod alike;
mod carrier;
mod in_line;
mod places;
mod ranks;
mod span;
mod twins;

pub use alike::are_alike;
pub use carrier::Carrier;
// Crates below this one, which those above cite through it.
pub use crew_step;
pub use span::Span;
pub use twins::Twins;
