//! The duties just before.
ghost use Rattle.std.specs.Prelude.{◌≡◌, ◌↔◌, map, IsTrue};
ghost use Rattle.crew_vector.specs.Locals.{Feed};

use crate::same::are_same_predecessors;
use crew_front::Front;
use crew_pairing::{Duty, PairingVector, Walk};
use crew_vector::VectorResource;
use std::marker::Model;
use std::sync::Arc;

/// A duty just before, with its front.
#[derive(Drop)]
pub struct Predecessor {
    pub duty: Duty,
    pub front: Arc<Front<VectorResource>>,
}

/// The duties just before, each with its front. They are the same for all duties of one departure
/// event.
///
/// A contract sees the list of the duties with the entries of their fronts.
#[derive(Drop)]
pub struct Feed {
    predecessors: Vec<Predecessor>,
}

impl Model for Feed {
    ghost Value = { Feed };

    ghost view = { λ f. map (λ p. (p.duty, p.front.value)) f.predecessors.items };
}

impl Feed {
    /// The feed of these duties.
    pub fn new(predecessors: Vec<Predecessor>) -> Self
        ensures { result ≡ map (λ p. (p.duty, p.front.value)) predecessors.items }
    {
        Feed { predecessors }
    }

    /// The duties, each with its front.
    pub fn predecessors(&self) -> &[Predecessor]
        ensures { map (λ p. (p.duty, p.front.value)) result.now ≡ self.now }
    {
        &self.predecessors
    }

    /// Whether the other has equal duties, with equal fronts.
    pub fn is_same(&self, other: &Feed) -> bool
        ensures { IsTrue result ↔ (self.now ≡ other.now) }
    {
        are_same_predecessors(&self.predecessors, &other.predecessors)
    }
}
