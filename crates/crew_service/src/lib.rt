//! The running service: one planner, workers and viewers, each in a thread of its own. Seats push
//! edits to a log, the planner settles (reoptimizes) by rounds on a board under a lock, workers
//! take part, and viewers see what is published and wait for nobody. The crate promises that a settle
//! gives the next version over what the planner has read of the log, which has a place above each
//! receipt that it was handed; that it publishes that version and no other; that it is refused only
//! as it says, and then publishes nothing; and that a receipt below the version's count agrees with
//! the entry there. A worker needn't be trusted, nor whoever else has the lock: what is done is
//! right by the type of the board, and the planner seals only what comes after its own version over
//! its own entries. That a settle returns, and that more than one thread works, no contract says.
#![tactic(auto)]

mod attempt;
mod fault;
mod gate;
mod jobs;
mod planner;
mod round;
mod seal;
mod service;
mod shared;
mod worker;

pub use fault::{ServiceFault, SettleFault};
pub use gate::{Gate, Open};
pub use planner::Planner;
pub use service::Service;
pub use shared::Shared;
pub use worker::{Ended, Worker};
