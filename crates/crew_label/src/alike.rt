//! Pools of two tables side by side.
//!
//! A pool may outlive its network: where another network makes the pool anew, one is held against the
//! other. Duties have other ranks there, and the labels of their departures may stand at other places. So
//! walks are compared duty by duty, along the links of both tables.
ghost use Rattle.std.specs.Prelude.{◌≡◌, ◌↔◌, ◌++◌, ◌∷◌, [], IfSome, IsTrue, MatchOption, Some, map, slice_get};
ghost use Rattle.crew_label.specs.Alike.{AreTwinEntries, AreTwinWalks};
ghost use Rattle.crew_label.specs.Walks.{Leads, shown, walk_of};
ghost use Rattle.crew_label.specs.declared.label.Label.{Label};
ghost use Rattle.crew_resource.specs.Members.{Member};

use crate::label::{Label, Link};
use crate::pool::Pool;
use crate::trails::Trails;
use crew_resource::Resource;

// Whether a rank has this twin.
fn has_twin(twins: &[u32], rank: u32, twin: u32) -> bool
    ensures { IsTrue result ↔ (slice_get twins.now rank ≡ Some twin) }
{
    twins.get(rank as usize).copied() == Some(twin)
}

// The last duty of a walk, by rank, and what the walk before it ends with.
fn last_of<T: Trails>(trails: &T, link: Option<Link>) -> Option<(u32, Option<Link>)>
    requires { Leads (T.leads trails.now) link }
    ensures walk { MatchOption result (walk_of (T.trail trails.now) link ≡ [])
        (λ last. walk_of (T.trail trails.now) link
        ≡ walk_of (T.trail trails.now) last.1 ++ last.0 ∷ []) }
    ensures leads { IfSome result (λ last. Leads (T.leads trails.now) last.1) }
{
    let Some(link) = link else {
        return None;
    };
    Some((trails.rank(link), trails.before(link)))
}

// Whether two walks are of twins, read from their last duties back.
fn are_twin_walks<T: Trails, U: Trails>(
    twins: &[u32],
    here: &T,
    there: &U,
    link: Option<Link>,
    other: Option<Link>,
) -> bool
    requires here { Leads (T.leads here.now) link }
    requires there { Leads (U.leads there.now) other }
    ensures { IsTrue result ↔ AreTwinWalks twins.now (walk_of (T.trail here.now) link)
        (walk_of (U.trail there.now) other) }
{
    let Some((rank, before)) = last_of(here, link) else {
        return last_of(there, other).is_none();
    };
    let Some((twin, other_before)) = last_of(there, other) else {
        return false;
    };
    has_twin(twins, rank, twin) && are_twin_walks(twins, here, there, before, other_before)
}

// Whether two labels have the same value and walks of twins.
fn are_twin_labels<R: Resource, T: Trails, U: Trails>(
    twins: &[u32],
    here: &T,
    there: &U,
    label: &Label<R::Value>,
    other: &Label<R::Value>,
) -> bool
    requires here { Leads (T.leads here.now) label.now.before }
    requires there { Leads (U.leads there.now) other.now.before }
    ensures { IsTrue result ↔ ((label.now.value ≡ other.now.value)
        × AreTwinWalks twins.now (walk_of (T.trail here.now) label.now.before)
        (walk_of (U.trail there.now) other.now.before)) }
{
    label.value.cmp(&other.value).is_eq()
        && are_twin_walks(twins, here, there, label.before, other.before)
}

/// Whether the pools of two tables are alike: the same values with walks of the same duties, label by
/// label.
///
/// `twins` tells by rank in the first table the rank of the same duty in the second, or a number that is
/// no rank there. Neither links nor places have to be the same.
pub fn are_alike<R: Resource, T: Trails, U: Trails>(
    twins: &[u32],
    here: &T,
    there: &U,
    pool: &Pool<R>,
    other: &Pool<R>,
) -> bool
    requires here { (l : Label R.Value) → Member pool.now l → Leads (T.leads here.now) l.before }
    requires there { (l : Label R.Value) → Member other.now l → Leads (U.leads there.now) l.before }
    ensures { IsTrue result ↔ AreTwinEntries twins.now (map (shown (T.trail here.now)) pool.now)
        (map (shown (U.trail there.now)) other.now) }
{
    if pool.len() != other.len() {
        return false;
    }
    for (label, twin) in pool.as_slice().iter().zip(other.as_slice()) {
        if !are_twin_labels::<R, T, U>(twins, here, there, label, twin) {
            return false;
        }
    }
    true
}

// Whether two labels have the same link.
fn have_same_link<V>(label: &Label<V>, other: &Label<V>) -> bool
    ensures { IsTrue result ↔ (label.now.before ≡ other.now.before) }
{
    label.before == other.before
}

// Whether the labels of two lists have the same links, one by one.
fn have_same_links<V>(labels: &[Label<V>], others: &[Label<V>]) -> bool
    ensures { IsTrue result ↔ (map (λ l. l.before) labels.now ≡ map (λ l. l.before) others.now) }
{
    if labels.len() != others.len() {
        return false;
    }
    for (label, other) in labels.iter().zip(others) {
        if !have_same_link(label, other) {
            return false;
        }
    }
    true
}

/// Whether the pools of two tables are alike, and each label has the link of the other too: then they
/// are equal.
pub fn are_same<R: Resource, T: Trails, U: Trails>(
    twins: &[u32],
    here: &T,
    there: &U,
    pool: &Pool<R>,
    other: &Pool<R>,
) -> bool
    requires here { (l : Label R.Value) → Member pool.now l → Leads (T.leads here.now) l.before }
    requires there { (l : Label R.Value) → Member other.now l → Leads (U.leads there.now) l.before }
    ensures { IsTrue result ↔ ((pool.now ≡ other.now)
        × AreTwinEntries twins.now (map (shown (T.trail here.now)) pool.now)
        (map (shown (U.trail there.now)) other.now)) }
{
    have_same_links(pool.as_slice(), other.as_slice()) && are_alike(twins, here, there, pool, other)
}
