//! Threads that works share.
ghost use Rattle.std.specs.Prelude.{◌<◌};

use std::sync::atomic::{AtomicUsize, Ordering};

/// Threads that works which go on side by side share. Each work has a thread of its own; of those
/// that are left, because there are more threads than works, or because works are over, it may have
/// some for a while. How many that are is a hint, of which no contract says anything but that it is
/// no less than one with its own: results hang on nothing that threads tell each other here.
#[derive(Drop)]
pub struct Sharing {
    threads: usize,
    left: AtomicUsize,
    works: AtomicUsize,
}

/// Threads that a work has for a while, its own among them. The others are left for other works as
/// soon as this is let go of.
pub struct Share<'a> {
    sharing: &'a Sharing,
    others: usize,
}

impl Sharing {
    /// So many threads for so many works. No clause says so, since the numbers are hints.
    pub fn new(threads: usize, works: usize) -> Sharing {
        Sharing {
            threads,
            left: AtomicUsize::new(threads.saturating_sub(works)),
            works: AtomicUsize::new(works),
        }
    }

    /// Its part, for one work of those that go on, of the threads that are left. No clause says so,
    /// since the numbers are hints.
    pub fn share(&self) -> Share<'_> {
        let works = self.works.load(Ordering::SeqCst).max(1);
        let left = self.left.swap(0, Ordering::SeqCst);
        let others = left.div_ceil(works);
        self.left
            .fetch_add(left.saturating_sub(others), Ordering::SeqCst);
        Share {
            sharing: self,
            others,
        }
    }

    /// One work is over, and its thread is left, unless another work takes it. No clause says so,
    /// since the numbers are hints.
    pub fn end_one(&self) {
        let works = self.works.fetch_sub(1, Ordering::SeqCst);
        if works <= self.threads {
            self.left.fetch_add(1, Ordering::SeqCst);
        }
    }
}

impl Share<'_> {
    /// How many threads there are: one at least.
    pub fn threads(&self) -> usize
        ensures { 0 < result }
    {
        self.others.saturating_add(1)
    }
}

impl Drop for Share<'_> {
    fn drop(self) {
        let Self { sharing, others } = self;
        sharing.left.fetch_add(others, Ordering::SeqCst);
    }
}
