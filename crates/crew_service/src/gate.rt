//! What is called before the work on a node.
use crew_net::Node;

/// What is called for each node that was claimed, before its work and under no lock, in the thread
/// that works.
pub trait Gate {
    fn claimed(&mut self, node: &Node);
}

/// Lets all through at once.
#[derive(Drop)]
pub struct Open;

impl Gate for Open {
    fn claimed(&mut self, _node: &Node) {}
}
