//! A pool of arrivals that stand side by side.
ghost use Rattle.std.specs.Prelude.{◌≡◌, []};

use crew_label::Pool;
use crew_resource::Resource;
use std::alloc::Global;

/// The pool of the arrivals between a middle and the place of its cell.
#[derive(Drop)]
pub(crate) struct Stretch<R: Resource> {
    pub(crate) middle: usize,
    pub(crate) pool: Pool<R>,
}

impl<R: Resource> Stretch<R> {
    /// The pool of no arrival.
    pub(crate) fn none(alloc: Global, middle: usize) -> Self
        ensures { result.pool ≡ [] }
    {
        let pool = Pool::new(alloc);
        Stretch { middle, pool }
    }
}
