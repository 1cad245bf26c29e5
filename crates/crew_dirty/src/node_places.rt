//! Nodes by the place of their base and the rank of their duty.
ghost use Rattle.std.specs.Prelude.{◌≡◌, ◌↔◌, IfSome, IsNone};
ghost use Rattle.std.specs.List.{position};
ghost use Rattle.std.specs.Ordering.{eq_by_cmp};
ghost use Rattle.crew_dirty.specs.Machinery.Places.{IsPlaceOf};
ghost use Rattle.crew_flights.specs.Codes.{code_cmp};
ghost use Rattle.crew_net.specs.Nets.{IsNodeOf};
ghost use Rattle.crew_pairing.specs.declared.duty.Duty.{Duty};

use crew_flights::Code;
use crew_net::{Net, Node};

/// Where a node stands: the place of its base, and the rank of its duty.
#[derive(Clone, Copy, Drop)]
pub(crate) struct NodePlace {
    pub(crate) base: usize,
    pub(crate) rank: usize,
}

// The place of a base, if it is there.
fn base_place(bases: &[Code], base: Code) -> Option<usize>
    ensures { result ≡ position (λ b. eq_by_cmp code_cmp b base) bases.now }
{
    bases.iter().position(|each| *each == base)
}

/// Where a node stands in a network, and `None` where it isn't a node of it.
pub(crate) fn place_of(net: &Net, node: &Node) -> Option<NodePlace>
    ensures is { IfSome result (IsPlaceOf net.now node.now) }
    ensures none { IsNone result ↔ ((d : Duty) → IsNodeOf net.now node.now d → ⊥) }
{
    let rank = net.rank(node)?;
    let base = base_place(net.bases(), node.base)?;
    Some(NodePlace { base, rank })
}
