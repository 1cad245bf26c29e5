//! The published pair: a planner publishes versions, and viewers in other threads take the last one
//! meanwhile, and wait for nobody. The crate promises that what is published is a chain, in which
//! numbers rise and each version's entries begin with those of the one before, and that no viewer
//! ever goes back: the list that a view ends begins with the list of each earlier view of its
//! viewer, and with the list that was published when the viewer was made. A view's version is each
//! version that its viewer was told of by a note, by number and entries, or follows it. So is that
//! of a viewer that goes on as a fresh one, whose list it then has, by what it saw and was told of
//! before.
//!
//! That a version may cross threads is found type by type (`proofs/Crossing`), from a pool of
//! labels up, since a search over a sweep with shared pools at once breaks off: so this crate names
//! `crew_pool` in `crates.txt`, of which its code says nothing.
#![tactic(auto)]

mod fault;
mod follow;
mod note;
mod publisher;
mod shown;
mod viewer;

// Crates below this one, which those above cite through it.
pub use crew_version;
pub use crew_version::crew_solve;
pub use fault::{PairFault, PublishFault, ViewFault};
pub use note::Note;
pub use publisher::{Publisher, pair};
pub use viewer::{View, Viewer};
