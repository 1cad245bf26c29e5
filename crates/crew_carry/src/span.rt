//! Where the walks of a pool's labels stand.
ghost use Rattle.std.specs.Prelude.{◌≤◌, ℕ};
ghost use Rattle.crew_carry.specs.Spans.{AreWithin, StandsWithin};

use crew_pool::Pool;
use crew_resource::Resource;

/// Places of walks, from the first to the last. The place of the empty walk, 0, is none of them: any pool
/// may have it.
#[derive(Clone, Copy, Debug)]
pub struct Span {
    /// The first place.
    pub first: u32,
    /// The last place.
    pub last: u32,
}

impl Span {
    /// A span in which the walks of a pool's labels stand, the least one. Where none has a walk but the
    /// empty one, the first place is greater than the last. The clause says that they stand within, and
    /// not that no other span is less, since that is there for speed.
    pub fn of<R: Resource>(pool: &Pool<R>) -> Span
        ensures { AreWithin result pool.now }
    {
        let mut span = Span {
            first: u32::MAX,
            last: u32::MIN,
        };
        for label in pool.as_slice() {
            span = span.with(label.1.walk);
        }
        span
    }

    // A span of these places and another.
    fn with(self, walk: u32) -> Span
        ensures before { (w : ℕ) → StandsWithin self w → StandsWithin result w }
        ensures own { StandsWithin result walk }
    {
        if walk == 0 {
            return self;
        }
        Span {
            first: self.first.min(walk),
            last: self.last.max(walk),
        }
    }
}
