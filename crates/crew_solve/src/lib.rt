//! Resource-constrained shortest paths: all Pareto fronts and the pairing of least reduced cost, by one
//! label-setting pass over the network for each base; and the columns that cost least. All of it is for
//! settings under which the sums over a pairing's duties tell whether it is legal (at most 138 hours
//! away from base, and no lesser cap on all flight duty time than on that of 168 hours). `solve_next`
//! reoptimizes, warm from an earlier solution, of which it keeps what is as it was, and gives what is
//! given from scratch. A `Plan` has what passes share, so that threads make the fronts base by base, and
//! promises that these are what the whole gives. `CheapestSoFar` keeps the least of pairings that come
//! one after another. `laws` has that the pairings that cost least are one list.
#![tactic(auto)]

mod alike;
mod apart;
mod base_fronts;
mod best;
mod cheapest_so_far;
mod entries;
mod floors;
mod front_view;
pub mod laws;
mod lookup;
mod past;
mod plan;
mod same_front;
mod same_labels;
mod scratch;
mod shown_entries;
mod solution;
mod sweeps;
mod taken;
mod walk_view;

pub use base_fronts::BaseFronts;
pub use cheapest_so_far::CheapestSoFar;
// Crates below this one, which those above cite through it.
pub use crew_duty;
pub use crew_sweep::crew_step;
pub use crew_vector;
pub use front_view::{FrontEntries, FrontView};
pub use plan::Plan;
pub use scratch::{solve, solve_listed, solve_next, solve_with};
pub use solution::Solution;
pub use walk_view::WalkView;
