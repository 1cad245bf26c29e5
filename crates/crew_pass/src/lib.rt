//! One pass over the events of a crew base, in order of time, for resources that may forget a part
//! of their values: labels with links, pool by pool.
//!
//! A departure's pool is that of the empty label, where the base is, and of the labels of all
//! arrivals in its window, as they stand there. What dominance leaves of the labels that board a duty
//! is the duty's front, and the pool of an arrival is made of the fronts of its duties. `pass` makes
//! each pool once, in a cell of its own (`crew_cells`), of the cells before it: who needs a cell that
//! is empty makes it, back in time, and offers it, and who was slower uses what is there. So
//! `pass_by_threads` may have any number of threads, none of which waits for another; only one pool
//! is right in each cell, the one that the labelling of the network has there (`crew_labelling`), so
//! no result depends on who made it. The crate promises that this is a covered pass
//! (`crew_forgetful`), whatever the resource is, so that the fronts are those of all legal lists of
//! duties; and that with the resource of pairings of up to 240 hours (`crew_answers`) they show the
//! front of each legal duty (`long_fronts`, `laws`). What the passes of several bases share is a
//! `Course`. Want of memory is all that ends a pass early. Where nothing is ever forgotten (`Pooled`)
//! windows are stretches, each made once, in a room.
#![tactic(auto)]

mod arrivals;
mod base_fronts;
mod beside;
mod boards;
mod cells;
mod course;
mod gathering;
mod ground;
mod joining;
pub mod laws;
mod likeness;
mod long;
mod making;
mod passed;
mod passing;
mod places;
mod pooled;
mod seeing;
mod seen;
mod shelf;
mod sight;
mod standing;
mod stretch;
mod stretching;
mod takeover;
mod taking;
mod twins;
mod waits;
mod workers;

pub use base_fronts::BaseFronts;
pub use course::Course;
// Crates below this one, which those above cite through it.
pub use crew_answers;
pub use crew_answers::crew_history;
pub use long::long_fronts;
pub use passed::Passed;
pub use passing::{pass, pass_by_threads};
pub use pooled::Pooled;
