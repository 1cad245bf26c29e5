//! A run of the program, over any reader and writers: from its words to a session, a schedule, a
//! service or a fault, the line of the fault, and its status. `command` promises what is written, what is told
//! where faults go, and the status after it, by the words and the bytes that there are to read; an
//! `Outlet` is what answers while its input is open.
#![tactic(auto)]

mod fault;
mod program;
mod streams;

pub use crew_serve::crew_session::{NotedReader, NotedWriter};
pub use crew_serve::{Outbox, Post};
// Crates below this one, which those above cite through it.
pub use crew_serve::{crew_core, crew_service};
pub use fault::Fault;
pub use program::command;
pub use streams::{Outlet, OutletWriter, SendingReader};
