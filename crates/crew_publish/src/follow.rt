//! Whether a version follows another.
//!
//! Entries of two versions are compared one by one, since a version that doesn't follow is refused
//! exactly then.
ghost use Rattle.std.specs.Prelude.{◌≡◌, IsTrue, ◌↔◌, slice_get};
ghost use mathlib.Core.List.{IsPrefix};
ghost use Rattle.crew_publish.specs.Chain.{Extends, Follows, IsSame};

use crew_version::{Version, is_same_entry};

// Whether the entry at a place of both versions is one.
fn is_same_at(earlier: &Version, later: &Version, place: usize) -> bool
    ensures { IsTrue result ↔ (slice_get earlier.now.entries place
        ≡ slice_get later.now.entries place) }
{
    match (earlier.entry(place), later.entry(place)) {
        (Some(one), Some(other)) => is_same_entry(&one, &other),
        (None, None) => true,
        _ => false,
    }
}

// Whether the entries of a version begin with those of an earlier one.
fn begins(earlier: &Version, later: &Version) -> bool
    ensures { IsTrue result ↔ IsPrefix earlier.now.entries later.now.entries }
{
    for place in 0..earlier.count() {
        if !is_same_at(earlier, later, place) {
            return false;
        }
    }
    true
}

/// Whether a version may come after an earlier one.
pub(crate) fn follows(earlier: &Version, later: &Version) -> bool
    ensures { IsTrue result ↔ Follows earlier.now later.now }
{
    earlier.number() < later.number() && begins(earlier, later)
}

// Whether a version is an earlier one by number and entries.
fn is_same(earlier: &Version, later: &Version) -> bool
    ensures { IsTrue result ↔ IsSame earlier.now later.now }
{
    earlier.number() == later.number() && earlier.count() == later.count() && begins(earlier, later)
}

/// Whether a version is an earlier one by number and entries, or may come after it.
pub(crate) fn extends(earlier: &Version, later: &Version) -> bool
    ensures { IsTrue result ↔ Extends earlier.now later.now }
{
    is_same(earlier, later) || follows(earlier, later)
}
