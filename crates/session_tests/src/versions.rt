//! Versions to publish.

use crew_flights::{Code, Edit, Entry};
use crew_rules::Settings;
use crew_version::Version;
use std::alloc::Global;
use std::sync::Arc;
use std::thread::Threads;

// The entries that a version has more than the one before: one, which adds a base at this price.
fn entries_at(alloc: Global, price: i64) -> Option<Vec<Entry>> {
    let code = Code::new(*b"JFK")?;
    let entry = Entry {
        seat: 0,
        number: 0,
        edit: Edit::AddBase { code, price },
    };
    let mut entries = Vec::new(alloc);
    match entries.push(entry) {
        Ok(()) => Some(entries),
        Err(_) => None,
    }
}

// The version after another: an entry more, which adds a base at this price.
fn after<R: Threads + Sync>(
    rt: &R,
    alloc: Global,
    version: &Version,
    price: i64,
) -> Option<Arc<Version>> {
    let entries = entries_at(alloc, price)?;
    match version.next(rt, alloc, entries) {
        Ok(next) => Arc::new(alloc, next).ok(),
        Err(_) => None,
    }
}

// Adds the version after the one at a place, with a base at this price.
fn add<R: Threads + Sync>(
    rt: &R,
    alloc: Global,
    all: &mut Vec<Arc<Version>>,
    place: usize,
    price: i64,
) -> Option<()> {
    let next = after(rt, alloc, all.get(place)?, price)?;
    all.push(next).ok()
}

/// Adds the version before any entry and so many that follow it, and then two strangers: another
/// version after the first one, and the one after that.
pub fn fill<R: Threads + Sync>(
    rt: &R,
    alloc: Global,
    all: &mut Vec<Arc<Version>>,
    more: usize,
) -> Option<()> {
    let first = Version::opening(alloc, &Settings::standard());
    all.push(Arc::new(alloc, first).ok()?).ok()?;
    for place in 0..more {
        add(rt, alloc, all, place, 0)?;
    }
    add(rt, alloc, all, 0, 7)?;
    add(rt, alloc, all, more.saturating_add(1), 0)
}
