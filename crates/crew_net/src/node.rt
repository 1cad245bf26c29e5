//! Nodes.

ghost use Rattle.std.specs.Prelude.{◌≡◌};
ghost use Rattle.std.proofs.Common.{refl};
ghost use Rattle.std.specs.Ordering.{as_partial_cmp, eq_by_cmp};
ghost use Rattle.std.specs.Cmp.{eq_by_cmp_equiv, partial_equiv_from_equiv, partial_order_from_total};
ghost use Rattle.crew_net.specs.Nodes.{node_cmp, node_total};

use crew_flights::Code;
use crew_pairing::Key;
use std::cmp::Ordering;

/// A node of the network: a crew base, and a duty by its key.
///
/// Nodes compare by base, then key.
#[derive(Debug, Drop)]
pub struct Node {
    /// The crew base.
    pub base: Code,
    /// The key of the duty.
    pub key: Key,
}

impl Node {
    /// An equal node.
    pub fn copy(&self) -> Node
        ensures { result ≡ self.now }
    {
        Node {
            base: self.base,
            key: self.key.copy(),
        }
    }
}

impl PartialEq for Node {
    ghost eq = { eq_by_cmp node_cmp };

    ghost laws = { partial_equiv_from_equiv (eq_by_cmp_equiv node_total) };

    fn eq(&self, other: &Node) -> bool {
        self.cmp(other) == Ordering::Equal
    }
}

impl Eq for Node {
    ghost laws = { eq_by_cmp_equiv node_total };
}

impl PartialOrd for Node {
    ghost partial_cmp = { as_partial_cmp node_cmp };

    ghost laws = { partial_order_from_total node_total };

    fn partial_cmp(&self, other: &Node) -> Option<Ordering> {
        Some(self.cmp(other))
    }
}

impl Ord for Node {
    ghost cmp = { node_cmp };

    ghost total = { node_total };

    ghost matches_partial_cmp = { λ a b. refl };

    ghost matches_eq = { λ a b. refl };

    fn cmp(&self, other: &Node) -> Ordering {
        self.base.cmp(&other.base).then(self.key.cmp(&other.key))
    }
}
