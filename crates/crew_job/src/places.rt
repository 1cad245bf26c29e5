//! Where nodes stand, in node order.
ghost use Rattle.std.specs.Prelude.{◌≡◌, ◌↔◌, ◌<◌, ◌+◌, ◌*◌, List, ℕ, IsTrue, MatchOption, None, Some, length, slice_get};
ghost use Rattle.crew_job.specs.Grounds.{nodes_in};
ghost use Rattle.crew_resource.specs.Members.{Member};

use crew_flights::Code;
use crew_net::Net;

/// Whether two codes are one.
pub(crate) fn is_same_code(one: Code, other: Code) -> bool
    ensures { IsTrue result ↔ (one ≡ other) }
{
    one == other
}

/// The place of a base.
pub(crate) fn base_place(bases: &[Code], code: Code) -> Option<usize>
    ensures { MatchOption result (Member bases.now code → ⊥)
        (λ place. slice_get bases.now place ≡ Some code) }
{
    for place in 0..bases.len() {
        if is_same_code(bases[place], code) {
            return Some(place);
        }
    }
    None
}

/// The place of the node of a base's place and a rank.
pub(crate) fn place_in(net: &Net, base: usize, rank: usize) -> usize
    requires base { base < length net.now.bases }
    requires rank { rank < length net.now.duties }
    ensures { result ≡ base * length net.now.duties + rank }
{
    let _bases = net.base_count();
    base * net.duty_count() + rank
}

/// The place of the base and the rank of the node at a place, if there is one.
pub(crate) fn node_in(net: &Net, place: usize) -> Option<(usize, usize)>
    ensures { MatchOption result (slice_get (nodes_in net.now) place ≡ None)
        (λ at. (place ≡ at.0 * length net.now.duties + at.1) × (at.0 < length net.now.bases)
        × (at.1 < length net.now.duties)) }
{
    let count = net.duty_count();
    if count == 0 {
        return None;
    }
    let base = place / count;
    if base < net.base_count() {
        Some((base, place % count))
    } else {
        None
    }
}
