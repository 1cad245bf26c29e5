//! Records: what a row of comma-separated fields asks for. A record is a command by its name, the
//! number of its fields and then each field from left to right, or it is refused by the first of
//! these that is wrong, and each refusal has its number. A session reads records by it; a schedule
//! of the engine's steps has records of its own, with the same edits. The crate promises that a
//! record is read as its definition says, whatever its bytes are.
#![tactic(auto)]

mod command;
mod fault;
mod fields;
mod schedule;
mod walk;

pub use command::{Command, read_command};
pub use fault::RecordFault;
pub use schedule::{PushedEdit, StepRecord, read_step};
pub use walk::ShortWalk;
