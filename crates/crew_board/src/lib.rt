//! A board of jobs: the version that was sealed last, and at most one round of work on the nodes of
//! what comes after it. It promises that each call is one step of `crew_machine`'s board, with the
//! product's choices: `claim` hands out the least ready node, `bring` takes a result in by what its
//! job holds, whoever made it and when, and then marks equal jobs done until none is left. So what
//! is done is right whatever the order of calls, and a worker needn't be trusted. It stands under a
//! lock: jobs are claimed and brought in lots too, which compare their ground with the round's once
//! for each hold of the lock, and are lists of the single steps; no call works out fronts but
//! `claim`, where those before its job can't be read otherwise, and `seal`, of a base that has no
//! sweep.
#![tactic(auto)]

mod alike;
mod before;
mod board;
mod fault;
mod round;
mod tally;

pub use board::Board;
// Crates below this one, which those above cite through it.
pub use crew_job;
pub use crew_job::{crew_dirty, crew_fronts, crew_version};
pub use crew_round;
pub use fault::{BeginFault, SealFault};
pub use tally::Tally;
