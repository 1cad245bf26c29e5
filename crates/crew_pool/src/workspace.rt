//! Working space.
use crate::labels::Labels;
use crate::marks::Marked;
use std::alloc::Global;

/// Working space that is used again.
///
/// What it holds is cleared before it is used: a place for labels that wait to join a pool, and one
/// for a pool under way.
pub struct Workspace<R: Marked> {
    pub(crate) free: Labels<R>,
    pub(crate) spare: Labels<R>,
}

impl<R: Marked> Drop for Workspace<R> {
    fn drop(self) {
        let Self { free: _, spare: _ } = self;
    }
}

impl<R: Marked> Workspace<R> {
    /// No space yet. No clause says so, since any space serves.
    pub fn new(alloc: Global) -> Self {
        Workspace {
            free: Labels::new(alloc),
            spare: Labels::new(alloc),
        }
    }
}
