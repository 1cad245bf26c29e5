//! What a view shows.

use crate::words::{Answer, code_of, key_of};
use crew_flights::Verdict;
use crew_publish::{View, Viewer};
use crew_version::Version;

/// The number of the version that a viewer sees.
pub fn see(viewer: &mut Viewer) -> Answer {
    match viewer.view() {
        Ok(view) => Ok(view.version().number()),
        Err(fault) => Err(fault.number()),
    }
}

/// How many of so many views answer a version of this number.
pub fn count_views(viewer: &mut Viewer, number: u64, views: usize) -> Answer {
    let mut count: u64 = 0;
    for _ in 0..views {
        if see(viewer) == Ok(number) {
            count = count.saturating_add(1);
        }
    }
    Ok(count)
}

/// How many entries the front of a base and a duty of one flight has.
pub fn entries_of(version: &Version, base: &str, flight: &str) -> Answer {
    let (Some(base), Some(key)) = (code_of(base), key_of(flight)) else {
        return Err(None);
    };
    match version.front(base, &key) {
        Some(front) => Ok(front.len() as u64),
        None => Err(None),
    }
}

/// What the verdict on an entry is: 0 where it was accepted, and else the number of the refusal.
pub fn verdict_at(version: &Version, place: usize) -> Answer {
    match version.verdict(place) {
        Some(Verdict::Accepted) => Ok(0),
        Some(Verdict::Refused(refusal)) => Err(Some(refusal.number())),
        None => Err(None),
    }
}

/// The view of one of some viewers.
pub fn view_of(viewers: &mut [Viewer], viewer: usize) -> Result<View, Option<u8>> {
    match viewers.get_mut(viewer) {
        Some(viewer) => match viewer.view() {
            Ok(view) => Ok(view),
            Err(fault) => Err(fault.number()),
        },
        None => Err(None),
    }
}

/// The cost of the best pairing that a viewer sees; `None` where there is none, or no view.
pub fn best_cost(viewers: &mut [Viewer], viewer: usize) -> Option<i64> {
    let view = view_of(viewers, viewer).ok()?;
    Some(view.version().best()?.cost)
}

// Holds a view of a viewer beside others; whether it could.
fn hold(viewer: &mut Viewer, held: &mut Vec<View>) -> bool {
    match viewer.view() {
        Ok(view) => held.push(view).is_ok(),
        Err(_) => false,
    }
}

/// Holds a view of each viewer, and gives how many are held.
pub fn hold_all(viewers: &mut [Viewer], held: &mut Vec<View>) -> Answer {
    for viewer in viewers {
        if !hold(viewer, held) {
            return Err(None);
        }
    }
    Ok(held.len() as u64)
}

/// How many of the views are of the version of this number.
pub fn held_of(views: &[View], number: u64) -> Answer {
    Ok(
        views
            .iter()
            .filter(|view| view.version().number() == number)
            .count() as u64,
    )
}

/// How many viewers there are, where each sees the version of this number.
pub fn all_see(viewers: &mut [Viewer], number: u64) -> Answer {
    let count = viewers.len() as u64;
    for viewer in viewers {
        if see(viewer) != Ok(number) {
            return Err(None);
        }
    }
    Ok(count)
}
