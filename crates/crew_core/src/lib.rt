//! The machine in code: a log, the board of jobs over it, the jobs that were handed out, and the
//! versions that were published. It promises that each step is one of `crew_machine`'s, with the
//! product's choices. `play` goes through exactly the steps that it is given: in each interleaving of
//! them every published version is from scratch of its entries, and no query is answered a version
//! older than its reader had seen. Its contract says so in these words.
#![tactic(auto)]

mod machine;
mod reply;
mod step;
mod trace;

pub use machine::Machine;
pub use reply::Reply;
pub use step::Step;
pub use trace::{Trace, play};
