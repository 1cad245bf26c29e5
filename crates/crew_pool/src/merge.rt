//! Lists of labels that join a list of labels.
//!
//! A pool takes in a whole pool at once: its labels against those here, then those here against the
//! ones that join, with no test among the newcomers. A label is first held against the least marks
//! of what joins: where one of them is greater no search begins. A label that rules many out drifts
//! to the front, so contracts speak of membership and not of order. A tie changes one label in
//! place and takes no memory; to gather ties and change them at the end would take memory for each
//! merge.
ghost use Rattle.std.specs.Prelude.{◌≡◌, ◌<◌, ℕ, List, [], ◌∷◌, ◌++◌, ◌⊎◌, map, not, length, slice_get, true, Some, OnOk, OnErr};
ghost use Rattle.std.specs.List.{filter};
ghost use Rattle.std.specs.List.Sorted.{IsPermutation};
ghost use Rattle.crew_resource.specs.Members.{Member};
ghost use Rattle.crew_pool.specs.Apart.{AreApart};
ghost use Rattle.crew_pool.specs.LabelWalks.{AreAlike, AreAlikeWhereSame, IsPoolOf, shown};
ghost use Rattle.crew_pool.specs.Machinery.Meets.{is_free, vectors_of};

use crate::arena::Walks;
use crate::entries::Entries;
use crate::label_walk::LabelWalk;
use crate::labels::Labels;
use crate::marks::Marked;
use crew_resource::{Placed, Staged};
use std::alloc::AllocError;

// The first places, from which no label drifts.
const SETTLED: usize = 4;

// Merges a list of labels into another.
//
// The free ones wait in the room until all have met the labels; then they join, and those that they
// are at most go.
pub(crate) fn merge_labels<R: Marked>(
    resource: &R,
    labels: &mut Labels<R>,
    room: &mut Labels<R>,
    list: &[(R::Value, LabelWalk)],
    walks: &Walks,
) -> Result<(), AllocError>
    requires labels { AreApart R.below (vectors_of labels.old) }
    requires list { AreApart R.below (vectors_of list.now) }
    requires between { AreAlikeWhereSame walks.now labels.old list.now }
    requires within { AreAlikeWhereSame walks.now list.now list.now }
    ensures local { OnOk result ((candidates : List (R.Value × List ℕ))
        → IsPoolOf R.below candidates (map (shown walks.now) labels.old)
        → IsPoolOf R.below (candidates ++ map (shown walks.now) list.now)
        (map (shown walks.now) labels.new)) }
    ensures apart { AreApart R.below (vectors_of labels.new) }
    ensures from { (a : R.Value × LabelWalk) → Member labels.new a
        → Member labels.old a ⊎ Member list.now a }
    ensures err { OnErr result (IsPermutation (vectors_of labels.old)
        (vectors_of labels.new)) }
{
    room.clear();
    for label in list {
        meet(resource, labels, room, label, walks)?;
    }
    labels.take_in(resource, room)?;
    Ok(())
}

// Merges the entries of a view into a list of labels, the same way.
pub(crate) fn merge_entries<P: Placed, R: Staged<P> + Marked>(
    resource: &R,
    labels: &mut Labels<R>,
    room: &mut Labels<R>,
    entries: Entries<'_, P, R>,
    walks: &Walks,
) -> Result<(), AllocError>
    requires labels { AreApart R.below (vectors_of labels.old) }
    requires list { AreApart R.below (vectors_of entries) }
    requires between { AreAlikeWhereSame walks.now labels.old entries }
    requires within { AreAlikeWhereSame walks.now entries entries }
    ensures local { OnOk result ((candidates : List (R.Value × List ℕ))
        → IsPoolOf R.below candidates (map (shown walks.now) labels.old)
        → IsPoolOf R.below (candidates ++ map (shown walks.now) entries.entry)
        (map (shown walks.now) labels.new)) }
    ensures apart { AreApart R.below (vectors_of labels.new) }
    ensures from { (a : R.Value × LabelWalk) → Member labels.new a
        → Member labels.old a ⊎ Member entries.entry a }
    ensures err { OnErr result (IsPermutation (vectors_of labels.old)
        (vectors_of labels.new)) }
{
    room.clear();
    for label in entries {
        meet(resource, labels, room, &label, walks)?;
    }
    labels.take_in(resource, room)?;
    Ok(())
}

// A label meets others: where no vector there is at most its own it waits in the room, and where
// its vector is there the lesser walk stays.
fn meet<R: Marked>(
    resource: &R,
    labels: &mut Labels<R>,
    room: &mut Labels<R>,
    label: &(R::Value, LabelWalk),
    walks: &Walks,
) -> Result<(), AllocError>
    requires apart { AreApart R.below (vectors_of labels.old) }
    requires alike { (a : R.Value × LabelWalk) → Member labels.old a → a.0 ≡ label.now.0
        → AreAlike walks.now a.1 label.now.1 }
    ensures vectors { IsPermutation (vectors_of labels.old) (vectors_of labels.new) }
    ensures from { (a : R.Value × LabelWalk) → Member labels.new a
        → Member labels.old a ⊎ (a ≡ label.now) }
    ensures room { OnOk result (room.new ≡ room.old
        ++ filter (is_free R.below (vectors_of labels.old)) (label.now ∷ [])) }
    ensures local { OnOk result ((candidates : List (R.Value × List ℕ))
        → IsPoolOf R.below candidates (map (shown walks.now) labels.old)
        → IsPoolOf R.below (candidates
        ++ map (shown walks.now) (filter
        (λ l. not (is_free R.below (vectors_of labels.old) l)) (label.now ∷ [])))
        (map (shown walks.now) labels.new)) }
{
    let marks = resource.marks(&label.0);
    let Some(place) = labels.first_at_most(resource, &label.0, &marks) else {
        room.push((resource.copy(&label.0)?, label.1), marks)?;
        return Ok(());
    };
    yield_to(resource, labels, place, label, walks);
    drift(labels, place);
    Ok(())
}

// A label yields to the one at a place, which is at most it: where it has the same vector, the
// lesser walk stays.
fn yield_to<R: Marked>(
    resource: &R,
    labels: &mut Labels<R>,
    place: usize,
    label: &(R::Value, LabelWalk),
    walks: &Walks,
)
    requires place { place < length labels.old }
    requires lower { (held : R.Value × LabelWalk) → slice_get labels.old place ≡ Some held
        → R.below held.0 label.now.0 ≡ true }
    requires apart { AreApart R.below (vectors_of labels.old) }
    requires alike { (a : R.Value × LabelWalk) → Member labels.old a → a.0 ≡ label.now.0
        → AreAlike walks.now a.1 label.now.1 }
    ensures vectors { vectors_of labels.new ≡ vectors_of labels.old }
    ensures long { length labels.new ≡ length labels.old }
    ensures from { (a : R.Value × LabelWalk) → Member labels.new a
        → Member labels.old a ⊎ (a ≡ label.now) }
    ensures local { (candidates : List (R.Value × List ℕ))
        → IsPoolOf R.below candidates (map (shown walks.now) labels.old)
        → IsPoolOf R.below (candidates ++ shown walks.now label.now ∷ [])
        (map (shown walks.now) labels.new) }
{
    if labels.is_reached(resource, place, &label.0) {
        labels.lower(place, label.1, walks);
    }
}

// Moves a label halfway to the front, so that those that rule out many are found soon.
fn drift<R: Marked>(labels: &mut Labels<R>, place: usize)
    requires { place < length labels.old }
    ensures { IsPermutation labels.old labels.new }
{
    if place >= SETTLED {
        labels.swap(place, place / 2);
    }
}
