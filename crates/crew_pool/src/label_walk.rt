//! The walks of labels.
ghost use Rattle.std.specs.Prelude.{◌≡◌};
ghost use Rattle.std.specs.Cmp.Lexicographic.{slice_cmp};
ghost use Rattle.std.specs.Ordering.{nat_cmp};
ghost use Rattle.crew_pool.specs.LabelWalks.{AreAlike, walk_of_label};

use crate::arena::Walks;
use std::cmp::Ordering;

/// No duty after a walk.
pub const NO_DUTY: u32 = u32::MAX;

/// The path of a label: the place of a walk, and the rank of the duty after it, or `NO_DUTY`.
#[derive(Clone, Copy, Debug, PartialEq, Eq, PartialOrd, Ord)]
pub struct LabelWalk {
    /// The place of a walk.
    pub walk: u32,
    /// The rank of the duty after it.
    pub duty: u32,
}

// Compares the walks of two labels, duty by duty, by rank.
pub(crate) fn compare_label_walks(walks: &Walks, a: LabelWalk, b: LabelWalk) -> Ordering
    requires { AreAlike walks.now b a }
    ensures { result ≡ slice_cmp nat_cmp (walk_of_label walks.now a) (walk_of_label walks.now b) }
{
    walks.compare(a.walk, b.walk).then(a.duty.cmp(&b.duty))
}
