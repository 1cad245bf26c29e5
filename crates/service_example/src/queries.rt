//! A query thread: it looks at what is published, and waits for nobody.

use crew_publish::Viewer;
use std::thread;
use std::time::{Clock, Duration};

// How often a query thread looks at most, a millisecond apart.
const LOOKS: u32 = 60_000;

// The cost of the best pairing of the published version, once that has so many entries.
fn look(viewer: &mut Viewer, entries: usize) -> Option<i64> {
    let view = viewer.view().ok()?;
    let version = view.version();
    if version.count() < entries {
        return None;
    }
    version.best().map(|best| best.cost)
}

/// Looks again and again until a version of so many entries is published, and gives the cost of its
/// best pairing.
pub fn watch<R: Clock>(rt: &R, viewer: Viewer, entries: usize) -> Option<i64> {
    let mut viewer = viewer;
    for _ in 0..LOOKS {
        if let Some(cost) = look(&mut viewer, entries) {
            return Some(cost);
        }
        thread::sleep(rt, Duration::from_millis(1));
    }
    None
}
