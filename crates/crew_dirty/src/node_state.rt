//! What a round has at a node.
ghost use Rattle.std.specs.Prelude.{◌≡◌, ◌↔◌, ℕ, IsTrue, List};
ghost use Rattle.crew_dirty.specs.declared.node_state.NodeState.{NodeState};
ghost use Rattle.crew_dirty.specs.declared.node_state.NodeState.TheVariants.{Same};
ghost use Rattle.crew_resource.specs.Members.{Member};

use crew_flights::Code;

/// What a round has at a node, beside an earlier version.
#[derive(Clone, Copy, Debug, PartialEq, Eq)]
pub enum NodeState {
    /// It isn't worked out.
    Undone,
    /// It is worked out, and equals the version's front.
    Same,
    /// It is worked out, and doesn't.
    Other,
}

/// What a round has at each node.
pub trait NodeStates {
    ghost state_at: { Self → List ℕ → ℕ → NodeState };

    /// What it has at the node of a base and a rank.
    fn state(&self, base: Code, rank: usize) -> NodeState
        ensures { result ≡ state_at self.now base rank };
}

// Whether it equals the version's front.
fn is_same(state: NodeState) -> bool
    ensures { IsTrue result ↔ (state ≡ Same) }
{
    match state {
        NodeState::Same => true,
        NodeState::Undone | NodeState::Other => false,
    }
}

/// Whether it is so at all nodes of a base and some ranks.
pub(crate) fn are_same<S: NodeStates>(ranks: &[u32], base: Code, states: &S) -> bool
    ensures { IsTrue result ↔ ((rank : ℕ) → Member ranks.now rank
        → S.state_at states.now base rank ≡ Same) }
{
    for rank in ranks {
        let same = is_same(states.state(base, *rank as usize));
        if !same {
            return false;
        }
    }
    true
}
