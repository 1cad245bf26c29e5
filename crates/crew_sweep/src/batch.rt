//! Batches of departures that report less than the least rest after one another.
//!
//! Where a pass comes to a batch, it lets go of the pools of arrivals that lie behind it, but for
//! those that a slide has merged: no departure that follows waits on them. That is a hint: a pool
//! that is waited on after all is made once more.
//!
//! A departure's labels are put into a list with room for one more, the empty label that half of
//! all departures take in.
ghost use Rattle.std.specs.Prelude.{◌≡◌, ◌<◌, ◌≤◌, IfSome, [], false, length, set, true};
ghost use Rattle.crew_sweep.specs.Machinery.Grounds.{IsGround, Stands};
ghost use Rattle.crew_sweep.specs.Machinery.Slides.{CoverAny};

use crate::arrivals::Arrivals;
use crate::ground::Ground;
use crate::passing::Passing;
use crew_pool::Pool;
use std::alloc::Global;

/// The least minutes of rest between a release and the next report.
pub(crate) const LEAST_REST: i64 = 600;

// The report of the departure at a position.
fn report_at(ground: &Ground, position: usize) -> i64
    requires ground { IsGround ground.now }
    requires position { position < length ground.now.net.now.by_report }
{
    ground.net.departures()[ground.net.by_report()[position] as usize].report
}

/// The position at which the batch ends that begins at another: all departures of it report less than
/// so many minutes after the first. No clause says so, since it is there for speed.
pub(crate) fn batch_end(ground: &Ground, from: usize, minutes: i64) -> usize
    requires ground { IsGround ground.now }
    requires from { from < length ground.now.net.now.by_report }
    ensures { result ≤ length ground.now.net.now.by_report }
{
    let count = ground.net.by_report().len();
    let first = report_at(ground, from);
    for position in from..count {
        if report_at(ground, position).saturating_sub(first) >= minutes {
            return position;
        }
    }
    count
}

// Whether the longest rest after the arrival at a place is over before the departure at a position
// reports, so that no departure from there on waits on it. No clause says so, since it is there for
// memory's sake.
fn is_behind(ground: &Ground, position: usize, place: usize) -> bool
    requires ground { IsGround ground.now }
    requires position { position < length ground.now.net.now.by_report }
    requires place { place < length ground.now.net.now.arrivals }
{
    let longest = i64::from(ground.net.settings().max_rest);
    let release = ground.net.arrivals()[place].release;
    release.saturating_add(longest) < report_at(ground, position)
}

impl Arrivals {
    // Lets go of the pool at a place.
    fn let_go(&mut self, alloc: Global, place: usize)
        requires marks { place < length self.old.made.items }
        requires long { place < length self.old.pools.items }
        ensures made { self.new.made.items ≡ set self.old.made.items place false }
        ensures pools { self.new.pools.items ≡ set self.old.pools.items place [] }
    {
        self.pools[place] = Pool::new(alloc);
        self.made[place] = false;
    }
}

impl Passing {
    // Whether the pool of the arrival at a place is let go of at a position: it is made, no slide has
    // merged it, and it lies behind.
    fn can_let_go(&self, ground: &Ground, position: usize, place: usize) -> bool
        requires ground { IsGround ground.now }
        requires stands { Stands ground.now self.now }
        requires position { position < length ground.now.net.now.by_report }
        requires place { place < length ground.now.net.now.arrivals }
        ensures { result ≡ true → CoverAny self.now.slides place → ⊥ }
    {
        self.arrivals.made[place] && is_behind(ground, position, place) && !self.slides.cover(place)
    }

    /// Lets go of the pools of arrivals that no slide has merged and that lie behind a position.
    pub(crate) fn let_go(&mut self, alloc: Global, ground: &Ground, position: usize)
        requires ground { IsGround ground.now }
        requires position { position < length ground.now.net.now.by_report }
        requires stands { Stands ground.now self.old }
        ensures stands { Stands ground.now self.new }
        ensures passed { self.new.passed ≡ self.old.passed }
    {
        for place in 0..ground.net.arrivals().len() {
            if self.can_let_go(ground, position, place) {
                self.arrivals.let_go(alloc, place);
            }
        }
    }

    /// Where the pass comes to the first departure of a batch: lets go of what lies behind it, and
    /// tells the position at which the batch ends.
    pub(crate) fn begin_batch(&mut self, alloc: Global, ground: &Ground) -> Option<usize>
        requires ground { IsGround ground.now }
        requires stands { Stands ground.now self.old }
        ensures stands { Stands ground.now self.new }
        ensures passed { self.new.passed ≡ self.old.passed }
        ensures end { IfSome result (λ end. end ≤ length ground.now.net.now.by_report) }
    {
        let position = self.passed.pools.len();
        if position < self.batch_end || position >= ground.net.by_report().len() {
            return None;
        }
        self.let_go(alloc, ground, position);
        let end = batch_end(ground, position, LEAST_REST);
        self.batch_end = end;
        Some(end)
    }
}
