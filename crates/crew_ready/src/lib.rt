//! Which nodes of a round are ready, kept up as nodes become done, so that no call goes over all
//! nodes or arcs: sets of places with the least one at hand, and counts, at the events of a base,
//! of what keeps its nodes from being ready.
#![tactic(auto)]

mod bits;
mod counts;
mod level;
mod place_set;
mod row;

pub use counts::Counts;
pub use place_set::PlaceSet;
