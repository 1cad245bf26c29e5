//! What runs over a running service: one session whose work threads share, and several clients.
//!
//! `run_with_workers` plays a whole session over a service of its own, beside so many workers. What it
//! writes is the text of the session, the same as without workers, whatever the workers do; it is called
//! strange only by what a settle of the session found, which is told by what the service's planner had
//! made and read before it and after it; and its engine believes a settle only where it sees the next
//! version of all edits that it took (`Threaded`).
//!
//! `serve` takes lines of several clients, each its name and a record, and answers each client by lines
//! with its name. A client edits by a seat of its own and asks by a viewer of its own, so no question
//! waits for a settle. The crate promises what each record of a client does and how it is answered
//! (`talk`): by versions that were published, right, under the service's settings, each after the one
//! before; that a settle is answered by a version which has each of the client's edits at its place in
//! the log, with the verdicts on these; that whatever is refused has its cause, and leaves the client as
//! it was; and that an answer is whole lines, whose first tells the version and how many come. Each
//! client is one thread's.
//!
//! That a session or a service ends, that more than one thread works, and that what one thread hands to
//! another comes, no contract says.
#![tactic(auto)]

mod answer;
mod attend;
mod bell;
mod clerk;
mod client_fault;
mod desk;
mod faults;
mod front;
mod house;
pub mod laws;
mod message;
mod office;
mod parts;
mod post;
mod record;
mod report;
mod roster;
mod serving;
mod sessions;
mod talk;
mod threaded;
mod waiting;

// Crates below this one, which those above cite through it.
pub use crew_service;
pub use crew_session;
pub use crew_session::crew_core;
pub use house::House;
pub use post::{Outbox, Post};
pub use serving::serve;
pub use sessions::{Crew, run_with_workers};
pub use threaded::Threaded;
