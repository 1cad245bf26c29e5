//! Arrivals that were seen to show something else than they showed, so that no more is made of the old
//! ones. No clause says more of it, since it is there for speed.
use std::alloc::{AllocError, Global};

/// By place, which arrivals were seen to differ.
#[derive(Drop)]
pub(crate) struct Differing {
    seen: Vec<bool>,
}

impl Differing {
    /// Of so many arrivals none was seen to differ.
    pub(crate) fn none(alloc: Global, count: usize) -> Result<Differing, AllocError> {
        let seen = vec![in alloc; false; count]?;
        Ok(Differing { seen })
    }

    /// Whether the arrival at a place was seen to differ.
    pub(crate) fn has(&self, place: usize) -> bool {
        self.seen.get(place).copied().unwrap_or(false)
    }

    /// Notes that the arrival at a place differs.
    pub(crate) fn note(&mut self, place: usize) {
        if place < self.seen.len() {
            self.seen[place] = true;
        }
    }
}
