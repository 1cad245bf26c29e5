//! What stands in the windows of the departures that come next, merged before the pass comes to them.
//!
//! How far it is merged is a hint: a window of which something isn't made yet is merged when the
//! pass comes to its departure.
//!
//! What stands in the window of a departure came in 600 minutes before it at the least; so windows
//! of the next 300 minutes stand on arrivals of the step before, and neither they nor the arrivals
//! that are made beside them wait for the other. After a night without departures the row ends
//! where not all is made, and the next step begins.
ghost use Rattle.std.specs.Prelude.{◌≡◌, ◌<◌, ◌≤◌, IfOk, IfSome, OnOk, length, true};
ghost use Rattle.crew_sweep.specs.Machinery.Ahead.{IsAhead};
ghost use Rattle.crew_sweep.specs.Machinery.Grounds.{ArePools, IsGround};
ghost use Rattle.crew_sweep.specs.Machinery.Passing.{AreMade};
ghost use Rattle.crew_sweep.specs.Machinery.Slides.{IsOver};

use crate::arrivals::Arrivals;
use crate::ground::Ground;
use crate::passed::Passed;
use crate::same::shares_pool;
use crate::slide::Slide;
use crew_anchor::AnchoredResource;
use crew_net::Window;
use crew_pool::{Pool, Workspace};
use std::alloc::{AllocError, Global};

/// What stands in the window of a departure, by its position and its place, merged before the pass
/// comes to it, unless the departure shares the pool of another.
#[derive(Drop)]
pub(crate) struct Waiting {
    pub(crate) position: usize,
    pub(crate) place: usize,
    pub(crate) window: Window,
    pub(crate) pool: Option<Pool<AnchoredResource>>,
}

impl Arrivals {
    // Whether the pools of a window are made.
    fn have_made(&self, window: Window) -> bool
        requires { window.end ≤ length self.now.made.items }
        ensures { result ≡ true → AreMade self.now.made.items window }
    {
        for place in window.from..window.end {
            if !self.made[place] {
                return false;
            }
        }
        true
    }
}

/// The position before which, from one up to another, all is made that stands in the windows of
/// departures. No clause says so, since it is there for speed.
pub(crate) fn made_until(ground: &Ground, arrivals: &Arrivals, from: usize, end: usize) -> usize
    requires ground { IsGround ground.now }
    requires made { length arrivals.now.made.items ≡ length ground.now.net.now.arrivals }
    requires end { end ≤ length ground.now.net.now.by_report }
    ensures { result ≤ end }
{
    for position in from..end {
        let place = ground.net.by_report()[position] as usize;
        if !arrivals.have_made(ground.net.window(place)) {
            return position;
        }
    }
    end
}

impl Slide {
    /// What stands in the window of the departure at a position, of this slide's airport: `None`
    /// where not all of it is made.
    pub(crate) fn waiting_at(
        &mut self,
        alloc: Global,
        ground: &Ground,
        passed: &Passed,
        arrivals: &Arrivals,
        room: &mut Workspace<AnchoredResource>,
        position: usize,
    ) -> Result<Option<Waiting>, AllocError>
        requires ground { IsGround ground.now }
        requires pools { ArePools ground.now passed.now arrivals.now }
        requires over { IsOver passed.now.walks arrivals.now.made.items arrivals.now.pools.items
            self.old }
        requires position { position < length ground.now.net.now.by_report }
        ensures over { OnOk result (IsOver passed.now.walks arrivals.now.made.items
            arrivals.now.pools.items self.new) }
        ensures ahead { IfOk result (λ next. IfSome next (IsAhead ground.now.net.now
            passed.now.walks arrivals.now.made.items arrivals.now.pools.items)) }
    {
        let place = ground.net.by_report()[position] as usize;
        let window = ground.net.window(place);
        if !arrivals.have_made(window) {
            return Ok(None);
        }
        if shares_pool(ground, place) {
            return Ok(Some(Waiting {
                position,
                place,
                window,
                pool: None,
            }));
        }
        let resource = &ground.resource;
        let held = &arrivals.pools;
        self.slide_to(alloc, resource, room, held, window, &passed.walks)?;
        let pool = self.pool().copy(alloc, resource)?;
        Ok(Some(Waiting {
            position,
            place,
            window,
            pool: Some(pool),
        }))
    }
}
