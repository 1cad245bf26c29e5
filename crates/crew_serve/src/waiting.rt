//! Edits that wait for a settle of their client.

ghost use Rattle.std.specs.Prelude.{◌≡◌, ◌↔◌, ◌++◌, IsTrue, Some, slice_get};
ghost use Rattle.crew_serve.specs.Clients.{HaveAll};

use crew_flights::Entry;
use crew_version::{Version, is_same_entry};

/// An edit that its client hasn't settled: the number of its record, and its entry with its place in
/// the log.
#[derive(Drop)]
pub struct Waiting {
    pub number: u32,
    pub place: usize,
    pub entry: Entry,
}

// Whether there is such an entry.
fn is_one(found: Option<Entry>, entry: &Entry) -> bool
    ensures { IsTrue result ↔ (found ≡ Some entry.now) }
{
    match found {
        Some(found) => is_same_entry(&found, entry),
        None => false,
    }
}

// Whether a version has an edit at its place.
fn has(version: &Version, edit: &Waiting) -> bool
    ensures { IsTrue result
        ↔ (slice_get version.now.entries edit.now.place ≡ Some edit.now.entry) }
{
    is_one(version.entry(edit.place), &edit.entry)
}

/// Whether a version has all of these at their places.
pub(crate) fn has_all(version: &Version, waiting: &[Waiting]) -> bool
    ensures { IsTrue result ↔ HaveAll version.now.entries waiting.now }
{
    waiting.iter().all(|edit| has(version, edit))
}

// The entry at a place of a version's entries with these after them.
fn entry_at(version: &Version, more: &[Entry], place: usize) -> Option<Entry>
    ensures { result ≡ slice_get (version.now.entries ++ more.now) place }
{
    let count = version.count();
    if place < count {
        version.entry(place)
    } else {
        more.get(place - count).copied()
    }
}

// Whether a version's entries with these after them have an edit at its place.
fn have(version: &Version, more: &[Entry], edit: &Waiting) -> bool
    ensures { IsTrue result
        ↔ (slice_get (version.now.entries ++ more.now) edit.now.place ≡ Some edit.now.entry) }
{
    is_one(entry_at(version, more, edit.place), &edit.entry)
}

/// Whether a version's entries with these after them have all of these at their places.
pub(crate) fn have_all(version: &Version, more: &[Entry], waiting: &[Waiting]) -> bool
    ensures { IsTrue result ↔ HaveAll (version.now.entries ++ more.now) waiting.now }
{
    waiting.iter().all(|edit| have(version, more, edit))
}
