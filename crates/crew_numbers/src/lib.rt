//! Numbers of duties: names of duties for tables that outlive a network. The crate promises that a
//! number tells its duty, that a duty of two networks in a row keeps its number, whatever comes and
//! goes beside it, that no duty gets the number of one that goes in the same step, and that numbers
//! stay below 400,000.
#![tactic(auto)]

mod kept;
pub mod laws;
mod numbers;
mod taking;

pub use numbers::Numbers;
