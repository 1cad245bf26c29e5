//! Which labels may stand for others.
ghost use Rattle.std.specs.Prelude.{◌≡◌};
ghost use Rattle.crew_forgetful.specs.Sweeps.{TellCount};
ghost use Rattle.crew_label.specs.Pools.{IsCounted, stands_label};

use crew_forgetful::Forgets;
use crew_label::{Label, Trails, compare_walks};
use crew_resource::Placed;

// Whether a label may stand for another: its value is at most the other's, and where the sums are
// the same its walk is no later. Walks are compared only there.
#[inline]
pub(crate) fn may_stand<P: Placed, R: Forgets<P>, T: Trails>(
    resource: &R,
    trails: &T,
    a: &Label<R::Value>,
    b: &Label<R::Value>,
) -> bool
    requires tell { TellCount R.same_sums (R.count_of resource.now) }
    requires first { IsCounted (R.count_of resource.now) (T.leads trails.now)
        (T.trail trails.now) a.now }
    requires second { IsCounted (R.count_of resource.now) (T.leads trails.now)
        (T.trail trails.now) b.now }
    ensures { result ≡ stands_label R.below R.same_sums (T.trail trails.now) a.now b.now }
{
    resource.at_most(&a.value, &b.value)
        && (!resource.has_same_sums(&a.value, &b.value)
            || compare_walks(trails, a.before, b.before).is_le())
}
