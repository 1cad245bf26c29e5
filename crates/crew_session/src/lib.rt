//! Sessions: records in, lines out. A session keeps the zones of airports, hands edits to an engine
//! behind the trait `Engine`, and shows the versions that the engine makes of them. The crate
//! promises that what `run` writes is the text of the session, for any reader, any writer and any
//! engine: each refusal is named by its record, nothing that was taken is lost, a settle makes a
//! version exactly where there are no more than 200,000 legal duties, the best that a version shows
//! is its timetable's legal pairing of least reduced cost, whatever its length, the columns that it
//! lists are the cheapest on Pareto fronts, and an audit counts the timetable's partials by their
//! definition. Where it ends otherwise, only an engine that may be strange is called strange, and
//! only where what its last settle found is odd: another version than the next whole one, a refusal
//! that no session brings about, or too many duties where the edits come to few.
//!
//! Schedules: steps of the engine in, a record each in the order in which they happen, and the lines
//! of their replies out. What `replay` writes is told by a run of the machine of `crew_machine` over
//! the records' steps, with the product's choices.
#![tactic(auto)]

mod airports;
mod audit;
mod clocks;
mod demand;
mod ending;
mod engine;
mod engine_fault;
mod entry;
mod explain;
mod fault;
mod front;
mod journal;
pub mod laws;
mod lines;
mod noted;
mod pairings;
mod plain;
mod player;
mod question;
mod replies;
mod rows;
mod schedule;
mod session;
mod text;
mod zones;

pub use airports::Airports;
// A crate below this one, which those above cite through it.
pub use crew_core;
pub use engine::Engine;
pub use engine_fault::EngineFault;
pub use fault::SessionFault;
pub use lines::{write_refused, write_verdict, write_version};
pub use noted::{NotedReader, NotedWriter};
pub use plain::Plain;
pub use question::answer;
pub use rows::next_row;
pub use schedule::replay;
pub use session::{has_too_many, run};
pub use text::write_text;
