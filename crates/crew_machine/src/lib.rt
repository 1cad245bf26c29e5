//! The machine of the engine's steps: a log that edits are pushed to, a round of work on the nodes
//! of a timetable, versions that are sealed and published, and readers that ask. `specs/` says what
//! each step does, and which choices are free. `laws` has it that in every run, whatever its steps
//! and those choices, what is done in a round are the fronts of the round's timetable, published
//! versions are a chain and each is from scratch, and no reader is answered a version before its
//! last. No code runs here: a board of jobs, and the threads over it, are held to these steps.
//!
//! Over any world of entries, data, nodes, arcs and fronts, of which six laws are asked: so a
//! round whose unit isn't a node (a departure's pool, say) can be held to the same steps. The
//! product's choices are steps with one fact more, so what holds of all runs holds of its runs.
//! That each act has a reply under them is a law, so none can be had by refusing to go on.
#![tactic(auto)]

pub mod laws;
mod rounds;

pub use rounds::{Brought, Cell};
