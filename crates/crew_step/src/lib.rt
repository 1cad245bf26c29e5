//! The work on one node, which is a base and a duty: its front, from the fronts of the duties just
//! before it. A `Job` has all that the work depends on, two jobs are told apart by all that they
//! hold, and what is common to the jobs of one departure event is shared. `work` does a job: its
//! type keeps that the entries of what is `Done` are exactly what the opening and all extensions of
//! the entries before leave, each vector with its least walk, in order of vector. At events,
//! `departure_pool` makes a departure's pool from what has been gathered for it, `arrival_pool` an
//! arrival's from what boards into it, and both promise what their candidates leave; `Pools` has such
//! pools in a row, which rows may share.
//! `laws` has it that entries of fronts are values of their walks, as a job wants them.
#![tactic(auto)]

mod arrival;
mod departure;
mod done;
mod feed;
mod job;
pub mod laws;
mod offers;
mod pools;
mod same;
mod step;
mod waiting;

pub use arrival::arrival_pool;
pub use departure::departure_pool;
pub use done::Done;
pub use feed::{Feed, Predecessor};
pub use job::Job;
pub use pools::Pools;
pub use same::is_same_duty;
pub use step::work;
pub use waiting::waiting_labels;
