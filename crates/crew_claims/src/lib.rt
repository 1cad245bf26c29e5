//! Calls of a function at many indices, by threads that take the indices one by one, so that a call
//! which takes long keeps no other thread waiting. `map_claimed` promises that each result is one
//! that the call with its index may give, in order, whatever the threads do; `map_in_turn` makes the
//! same calls on the calling thread. `map_jobs` gives each thread a job of its own, and promises what
//! comes of each; the threads may take indices from `Claims` besides. Want of memory is all that they
//! refuse. How many threads a call may have, where several go on at once, a `Sharing` tells: at least
//! one, and no more is promised of it.
#![tactic(auto)]

mod claims;
mod sharing;

pub use claims::{Claims, map_claimed, map_in_turn, map_jobs};
pub use sharing::{Share, Sharing};
