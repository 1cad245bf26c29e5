//! Resources: what a path of items has, extended item by item, with the laws that dominance among
//! labels rests on. Values are ordered: a lesser one dominates, and extends wherever a greater
//! one does, to no greater value; and the value of a list is the value of the list before it, extended.
//! Each implementation proves these laws, so that code over any resource may drop dominated labels.
//! `Sum` adds an amount along a list, `Count` counts its items, and `Both` keeps two
//! resources side by side, each law made of theirs. `Staged` splits an extension into waiting and
//! boarding, for items that leave and arrive at events, with a bound under which no sum leaves its
//! type. The general theory of labels over resources and over graphs whose arcs rise (Pareto fronts of
//! non-dominated labels with least paths, pools at events) stands in `specs/` and `proofs/`.
#![tactic(auto)]

mod both;
mod count;
mod resource;
mod staged;
mod sum;
mod uses;

pub use both::Both;
pub use count::Count;
pub use resource::{Cost, Resource};
pub use staged::{Placed, Staged};
pub use sum::{Amount, Sum};
pub use uses::{extend_ordered, extend_staged, is_same, start_staged};
