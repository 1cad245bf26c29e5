//! Walks, read along links.
ghost use Rattle.std.specs.Prelude.{◌≡◌, ◌↔◌, ℕ, Bool, true, List, [], ◌∷◌, ◌++◌, length, IsTrue};
ghost use Rattle.std.specs.Cmp.Lexicographic.{slice_cmp};
ghost use Rattle.std.specs.Ordering.{nat_cmp};
ghost use Rattle.crew_label.specs.Walks.{Leads, walk_of, ranks_at_most};

use crate::label::Link;
use std::cmp::Ordering;

/// Where links lead: a path is read from its last duty back, label by label.
pub trait Trails {
    ghost use Rattle.crew_label.specs.declared.label.Link.{Link};

    /// The link leads to a label.
    ghost leads: { Self → Link → Bool };

    /// The walk that ends with the link, duty by duty, by rank.
    ghost trail: { Self → Link → List ℕ };

    /// The rank of a duty, by its number.
    ghost rank: { Self → ℕ → ℕ };

    /// The rank of the duty that a link names.
    fn rank(&self, link: Link) -> u32
        requires { leads self.now link ≡ true }
        ensures { result ≡ rank self.now link.duty };

    /// What the walk of the label that a link leads to ends with.
    fn before(&self, link: Link) -> Option<Link>
        requires { leads self.now link ≡ true }
        ensures walk { trail self.now link
            ≡ walk_of (trail self.now) result ++ rank self.now link.duty ∷ [] }
        ensures leads { Leads (leads self.now) result };
}

/// Compares two paths duty by duty, by rank, from the first duty on.
///
/// They are read from the last duties back, as far as to where both go on from the same label.
pub fn compare_walks<T: Trails>(trails: &T, a: Option<Link>, b: Option<Link>) -> Ordering
    requires first { Leads (T.leads trails.now) a }
    requires second { Leads (T.leads trails.now) b }
    requires long { length (walk_of (T.trail trails.now) a)
        ≡ length (walk_of (T.trail trails.now) b) }
    ensures { result ≡ slice_cmp nat_cmp (walk_of (T.trail trails.now) a)
        (walk_of (T.trail trails.now) b) }
{
    let (Some(x), Some(y)) = (a, b) else {
        return Ordering::Equal;
    };
    if is_same_link(x, y) {
        return Ordering::Equal;
    }
    compare_walks(trails, trails.before(x), trails.before(y)).then(
        trails.rank(x).cmp(&trails.rank(y)),
    )
}

// Whether two links are the same.
fn is_same_link(a: Link, b: Link) -> bool
    ensures { IsTrue result ↔ (a ≡ b) }
{
    a == b
}

// Whether one walk is at most another.
pub(crate) fn walk_at_most<T: Trails>(trails: &T, a: Option<Link>, b: Option<Link>) -> bool
    requires first { Leads (T.leads trails.now) a }
    requires second { Leads (T.leads trails.now) b }
    requires long { length (walk_of (T.trail trails.now) a)
        ≡ length (walk_of (T.trail trails.now) b) }
    ensures { result ≡ ranks_at_most (walk_of (T.trail trails.now) a)
        (walk_of (T.trail trails.now) b) }
{
    compare_walks(trails, a, b).is_le()
}
