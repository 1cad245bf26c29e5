//! One pass over the events of a base's network, in order of time. `sweep` makes the pool of each
//! departure from the arrivals in its window, and the pool of an arrival, when it is first waited
//! on, from all duties that arrive there, with a duty to spare; it promises that the pools show
//! each legal duty's front. The windows of an airport slide, so an arrival's labels are merged a
//! constant number of times, and its pool is let go of where windows have gone past it.
//! `sweep_by_threads` makes the pools of arrivals several at a time, since departures that report
//! less than the least rest after one another don't wait on each other's duties, and merges beside
//! them what stands in the windows of the departures that come next, airport by airport; no result
//! depends on the number of threads. `renew` and `renew_by_threads` are the same beside an earlier
//! sweep, whose pools they keep where nothing changed, or where the arrivals that may have changed
//! are seen to show what they showed, and mend where little did.
//! `laws` has what this rests on.
#![tactic(auto)]

mod ahead;
mod anew;
mod arrivals;
mod batch;
mod boardings;
mod differing;
mod digest;
mod earlier;
mod ground;
mod lanes;
pub mod laws;
mod mending;
mod pass;
mod passed;
mod passing;
mod prints;
mod renewal;
mod row;
mod same;
mod seen;
mod slide;
mod slides;
mod swept;
mod windows;

pub use anew::{renew, renew_by_threads};
// Crates below this one, which those above cite through it.
pub use crew_carry;
pub use crew_carry::crew_step;
pub use pass::{sweep, sweep_by_threads};
pub use swept::Sweep;
