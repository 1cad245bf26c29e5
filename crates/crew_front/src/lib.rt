//! Pareto fronts: the non-dominated vectors, each with its least path. `Front` is the front that
//! callers see, over any resource: a list of vectors with their paths, in order of vector, of which
//! none dominates another. An offer keeps exactly what the offers so far leave: it answers whether
//! the vector joined, was dominated, or was there already, and then the lesser path stays.
#![tactic(auto)]

mod buckets;
mod front;

pub use front::{Front, Offer};
