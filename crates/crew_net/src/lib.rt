//! The time-space network of a timetable's legal duties: its nodes, one for each crew base and
//! duty, and the events at which duties leave and arrive. The crate promises that nodes stand by
//! base and key, that the duties just before one are exactly those that may stand there, that each
//! event has exactly its own duties, that a departure's window is exactly the arrivals that it may
//! wait on, and that a duty's layer is the arcs of a longest path that ends there. No arc is stored, and
//! what doesn't depend on the base is kept once.
#![tactic(auto)]

mod by_rank;
mod events;
pub mod laws;
mod layers;
mod net;
mod node;
mod ranks;
mod runs;
mod timeline;
mod window;
mod windows;

pub use by_rank::{arrival_places, departure_positions, write_at};
pub use net::Net;
pub use node::Node;
pub use window::Window;
