//! The resource vector of crew pairings. Of a list of duties it holds seven whole numbers, each one
//! sum over the whole list: three ways to pay the pairing, each less the dual prices of its flights and
//! of its base, and four totals, three of minutes and the number of duties, under the caps of the
//! settings. `VectorResource` extends them duty by duty, in steps and in stages;
//! the value of each list is its vector by definition, and none exactly where a beginning of the
//! list passes a cap. `value_of_list` works one out, and `ReducedCost` is a pairing's pay less dual
//! prices. Every sum fits: `laws` has it that legal duties keep the bounds that this rests on, that
//! a cap on a whole list is a cap on each beginning, and what costs and grades say. `specs/` also
//! has what the Pareto fronts of a timetable's nodes and its best pairing are, and `laws` what holds of
//! them.
#![tactic(auto)]

mod amounts;
mod cost;
pub mod laws;
mod priced;
mod resource;
mod value;

pub use cost::ReducedCost;
pub use priced::PricedPairing;
pub use resource::VectorResource;
pub use value::value_of_list;
