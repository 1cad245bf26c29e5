//! Departures that wait on the same arrivals as the one before them at their airport.
//!
//! Where neither leaves from the base the two have one pool, which is made once and shared.
//!
//! Between two arrivals at an airport all departures have one window, and the empty label, which
//! tells when its crew reports, is at the base alone. Three departures in five have the window of
//! the one before them, so the labels of a pass take two thirds of the memory.
ghost use Rattle.std.specs.Prelude.{◌≡◌, ◌<◌, ◌+◌, ◌++◌, ◌∷◌, [], IfSome, List, Ok, OnOk, Some, false, length, slice_get, true};
ghost use Rattle.crew_pairing.specs.declared.events.Departure.{Departure};
ghost use Rattle.crew_pairing.specs.declared.vector.PairingVector.{PairingVector};
ghost use Rattle.crew_pool.specs.declared.label_walk.LabelWalk.{LabelWalk};
ghost use Rattle.crew_carry.specs.crew_step.Walks.{HasGrown};
ghost use Rattle.crew_sweep.specs.Machinery.Grounds.{IsGround, Stands};
ghost use Rattle.crew_sweep.specs.Machinery.Same.{HasSamePool, WaitsOn};

use crate::earlier::position_of;
use crate::ground::Ground;
use crate::passing::{Passing, idle_label};
use crew_net::Window;
use std::alloc::{AllocError, Global};
use std::sync::Arc;

// What the departure at a place waits on, unless it leaves from the base.
fn away_window(ground: &Ground, place: usize) -> Option<Window>
    requires ground { IsGround ground.now }
    requires place { place < length ground.now.net.now.departures }
    ensures { IfSome result (λ window. (g : Departure)
        × (slice_get ground.now.net.now.departures place ≡ Some g)
        × WaitsOn ground.now.net.now ground.now.base ground.now.resource g window) }
{
    let departure = &ground.net.departures()[place];
    match idle_label(&ground.resource, ground.base, departure) {
        Some(_) => None,
        None => Some(ground.net.window(place)),
    }
}

// The position of the departure before the one at a place, if the two have one pool.
fn same_position(ground: &Ground, place: usize) -> Option<usize>
    requires ground { IsGround ground.now }
    requires place { place < length ground.now.net.now.departures }
    ensures { IfSome result (HasSamePool ground.now.net.now ground.now.base ground.now.resource
        place) }
{
    let before = place.checked_sub(1)?;
    let window = away_window(ground, place)?;
    let was = away_window(ground, before)?;
    if window.from != was.from || window.end != was.end {
        return None;
    }
    position_of(ground.net, ground.positions, before)
}

/// Whether the departure at a place has the pool of the one before it at its airport. No clause says so,
/// since it is there for speed.
pub(crate) fn shares_pool(ground: &Ground, place: usize) -> bool
    requires ground { IsGround ground.now }
    requires place { place < length ground.now.net.now.departures }
{
    same_position(ground, place).is_some()
}

impl Passing {
    /// The pass goes on by the departure at a place, where it shares the pool of the one before it at its
    /// airport: `false` where not.
    pub(crate) fn share_departure(
        &mut self,
        ground: &Ground,
        place: usize,
    ) -> Result<bool, AllocError>
        requires ground { IsGround ground.now }
        requires place { slice_get ground.now.net.now.by_report
            (length self.old.passed.pools) ≡ Some place }
        requires stands { Stands ground.now self.old }
        ensures stands { OnOk result (Stands ground.now self.new) }
        ensures shared { result ≡ Ok true → (pool : List (PairingVector × LabelWalk))
            × (self.new.passed.pools ≡ self.old.passed.pools ++ pool ∷ []) }
        ensures not_shared { result ≡ Ok false → self.new ≡ self.old }
        ensures walks { self.new.passed.walks ≡ self.old.passed.walks }
        ensures arrivals { self.new.arrivals ≡ self.old.arrivals }
    {
        let Some(position) = same_position(ground, place) else {
            return Ok(false);
        };
        let pools = &mut self.passed.pools;
        if position >= pools.len() {
            return Ok(false);
        }
        let digest = pools.digest(position);
        let pool = Arc::try_clone(pools.shared(position))?;
        pools.push_with(pool, digest)?;
        Ok(true)
    }

    /// Whether the departure at a place may share the pool of the one before it at its airport. No clause
    /// says so, since it is there for speed.
    pub(crate) fn can_share(&self, ground: &Ground, place: usize) -> bool
        requires ground { IsGround ground.now }
        requires place { place < length ground.now.net.now.departures }
    {
        match same_position(ground, place) {
            Some(position) => position < self.passed.pools.len(),
            None => false,
        }
    }

    /// The pass goes on by one departure, which shares the pool of the one before it where it can.
    pub(crate) fn go_on_alike(
        &mut self,
        alloc: Global,
        ground: &Ground,
        place: usize,
    ) -> Result<(), AllocError>
        requires ground { IsGround ground.now }
        requires place { slice_get ground.now.net.now.by_report
            (length self.old.passed.pools) ≡ Some place }
        requires stands { Stands ground.now self.old }
        ensures stands { OnOk result (Stands ground.now self.new) }
        ensures more { OnOk result (length self.new.passed.pools
            ≡ length self.old.passed.pools + 1) }
        ensures grown { HasGrown self.old.passed.walks self.new.passed.walks }
        ensures added { OnOk result ((pool : List (PairingVector × LabelWalk))
            × (self.new.passed.pools ≡ self.old.passed.pools ++ pool ∷ [])) }
    {
        if self.share_departure(ground, place)? {
            return Ok(());
        }
        self.go_on(alloc, ground, place)
    }
}
