//! Vectors as of a common instant. The trip rig and the minutes away of an anchored vector are less
//! what the minutes up to its own instant add: so waiting changes nothing, a duty adds the same to
//! each vector, and labels that stand at one event merge as they are. `AnchoredVector` keeps one in 40
//! bytes, and `AnchoredResource` is the resource of such vectors, in steps and in stages, whose
//! every sum fits. `laws` has it that anchoring commutes with each stage of
//! `crew_vector::VectorResource` and keeps and reflects its order, and that a sweep over anchored
//! labels shows, at each duty, the duty's front.
#![tactic(auto)]

pub mod laws;
mod marks;
mod resource;
mod vector;

pub use resource::AnchoredResource;
pub use vector::AnchoredVector;
