//! A pass over the departures of a base's network, departure by departure.
ghost use Rattle.std.specs.Prelude.{◌≡◌, ◌<◌, ◌+◌, ◌++◌, ◌∷◌, ℕ, IfOk, List, OnOk, Some, [], false, length, slice_get, true};
ghost use Rattle.crew_anchor.specs.Machinery.Bounds.{fits_in};
ghost use Rattle.crew_net.specs.Machinery.Moments.{IsReal};
ghost use Rattle.crew_net.specs.Events.{IsWindow};
ghost use Rattle.crew_pairing.specs.Events.{may_wait};
ghost use Rattle.crew_pairing.specs.declared.events.Departure.{Departure};
ghost use Rattle.crew_pairing.specs.declared.vector.PairingVector.{PairingVector};
ghost use Rattle.crew_pool.specs.Counted.{AreCounted};
ghost use Rattle.crew_pool.specs.declared.label_walk.LabelWalk.{LabelWalk};
ghost use Rattle.crew_carry.specs.crew_step.Walks.{HasGrown};
ghost use Rattle.crew_sweep.specs.Machinery.Grounds.{IsGround, Stands, Stay};
ghost use Rattle.crew_sweep.specs.Machinery.Numbered.{idle_at};
ghost use Rattle.crew_sweep.specs.Machinery.Ahead.{IsAhead};
ghost use Rattle.crew_sweep.specs.Machinery.Parts.{IsPart};
ghost use Rattle.crew_sweep.specs.Machinery.Passing.{AreMade, IsMade, IsPooled, IsPooledOver, IsSealed};

use crate::arrivals::Arrivals;
use crate::ground::Ground;
use crate::passed::Passed;
use crate::prints::Prints;
use crate::row::Row;
use crate::slides::Slides;
use crate::windows::Waiting;
use crew_anchor::{AnchoredResource, AnchoredVector};
use crew_carry::crew_step::departure_pool;
use crew_flights::Code;
use crew_net::Window;
use crew_pairing::Departure;
use crew_pool::{Pool, Walks, Workspace};
use crew_resource::Staged;
use std::alloc::{AllocError, Global};
use std::sync::Arc;

/// What a pass has made so far, with the room in which it merges: `batch_end` is the position at
/// which the batch of departures ends that it is in.
#[derive(Drop)]
pub(crate) struct Passing {
    pub(crate) room: Workspace<AnchoredResource>,
    pub(crate) slides: Slides,
    pub(crate) arrivals: Arrivals,
    pub(crate) passed: Passed,
    pub(crate) batch_end: usize,
}

/// The empty label of a departure: where the base is.
pub(crate) fn idle_label(
    resource: &AnchoredResource,
    base: Code,
    departure: &Departure,
) -> Option<AnchoredVector>
    requires fits { fits_in resource.now 1 }
    requires real { IsReal departure.now.report }
    ensures { result ≡ idle_at resource.now base (Some departure.now) }
{
    if departure.airport == base {
        Some(resource.idle(departure))
    } else {
        None
    }
}

// The pool of the departure at a place, from what stands in its window.
fn pool_over(
    alloc: Global,
    ground: &Ground,
    room: &mut Workspace<AnchoredResource>,
    place: usize,
    waiting: Pool<AnchoredResource>,
    walks: &mut Walks,
) -> Result<Pool<AnchoredResource>, AllocError>
    requires ground { IsGround ground.now }
    requires place { place < length ground.now.net.now.departures }
    requires gathered { AreCounted (λ (v : PairingVector). v.duties) walks.old false waiting }
    ensures pooled { IfOk result (IsPooledOver ground.now.net.now ground.now.base
        ground.now.resource walks.old walks.new place waiting) }
    ensures counts { IfOk result (AreCounted (λ (v : PairingVector). v.duties) walks.new true) }
    ensures grown { HasGrown walks.old walks.new }
{
    let resource = &ground.resource;
    let idle = idle_label(resource, ground.base, &ground.net.departures()[place]);
    departure_pool(alloc, resource, room, waiting, idle, walks)
}

impl Passing {
    /// A pass that has come to no departure yet, over walks to which it adds its own.
    pub(crate) fn new(alloc: Global, ground: &Ground, walks: Walks) -> Result<Passing, AllocError>
        ensures stands { IfOk result (Stands ground.now) }
        ensures none { IfOk result (λ passing. length passing.passed.pools ≡ 0) }
        ensures walks { IfOk result (λ passing. passing.passed.walks ≡ walks) }
    {
        let net = ground.net;
        let slides = Slides::new(alloc, net.departures())?;
        let arrivals = Arrivals::new(alloc, net.arrivals().len())?;
        let pools = Row::with_capacity(alloc, net.departures().len())?;
        Ok(Passing {
            room: Workspace::new(alloc),
            slides,
            arrivals,
            passed: Passed { walks, pools },
            batch_end: 0,
        })
    }

    /// Makes the pool of the arrival at a place, where it isn't made yet.
    pub(crate) fn make_arrival(
        &mut self,
        alloc: Global,
        ground: &Ground,
        place: usize,
    ) -> Result<(), AllocError>
        requires ground { IsGround ground.now }
        requires stands { Stands ground.now self.old }
        requires place { place < length ground.now.net.now.arrivals }
        requires sealed { IsSealed ground.now.net.now (length self.old.passed.pools) place }
        ensures stands { OnOk result (Stands ground.now self.new) }
        ensures made { OnOk result (IsMade self.new.arrivals.made.items place) }
        ensures stay { OnOk result (Stay self.old.arrivals self.new.arrivals) }
        ensures passed { self.new.passed ≡ self.old.passed }
    {
        let room = &mut self.room;
        self.arrivals
            .make(alloc, ground, place, room, &self.passed)?;
        Ok(())
    }

    // The pool of the departure at a place, from what has arrived in its window.
    fn pool_at(
        &mut self,
        alloc: Global,
        ground: &Ground,
        place: usize,
        window: Window,
    ) -> Result<Pool<AnchoredResource>, AllocError>
        requires ground { IsGround ground.now }
        requires stands { Stands ground.now self.old }
        requires place { place < length ground.now.net.now.departures }
        requires window { (g : Departure) → slice_get ground.now.net.now.departures place ≡ Some g
            → IsWindow (λ x. may_wait ground.now.net.now.settings x g)
            ground.now.net.now.arrivals window }
        requires made { AreMade self.old.arrivals.made.items window }
        ensures pooled { IfOk result (IsPooled ground.now.net.now ground.now.base
            ground.now.resource self.old.passed.walks self.new.passed.walks place window
            self.old.arrivals.pools.items) }
        ensures counts { IfOk result (AreCounted (λ (v : PairingVector). v.duties)
            self.new.passed.walks true) }
        ensures stands { OnOk result (Stands ground.now self.new) }
        ensures grown { HasGrown self.old.passed.walks self.new.passed.walks }
        ensures arrivals { self.new.arrivals ≡ self.old.arrivals }
        ensures pools { self.new.passed.pools ≡ self.old.passed.pools }
    {
        let resource = &ground.resource;
        let held = &self.arrivals.pools;
        let walks = &mut self.passed.walks;
        let number = self
            .slides
            .slide_to(alloc, resource, place, held, window, walks)?;
        let waiting = self.slides.pool(number).copy(alloc, resource)?;
        pool_over(alloc, ground, &mut self.room, place, waiting, walks)
    }

    // The pass goes on by the departure at a place, of which it is merged what stands in its window.
    fn go_on_with(
        &mut self,
        alloc: Global,
        ground: &Ground,
        place: usize,
        window: Window,
        waiting: Pool<AnchoredResource>,
    ) -> Result<(), AllocError>
        requires ground { IsGround ground.now }
        requires stands { Stands ground.now self.old }
        requires place { slice_get ground.now.net.now.by_report
            (length self.old.passed.pools) ≡ Some place }
        requires window { (g : Departure) → slice_get ground.now.net.now.departures place ≡ Some g
            → IsWindow (λ x. may_wait ground.now.net.now.settings x g)
            ground.now.net.now.arrivals window }
        requires made { AreMade self.old.arrivals.made.items window }
        requires part { IsPart self.old.passed.walks self.old.arrivals.pools.items window.from
            window.end waiting }
        ensures stands { OnOk result (Stands ground.now self.new) }
        ensures more { OnOk result (length self.new.passed.pools
            ≡ length self.old.passed.pools + 1) }
        ensures grown { HasGrown self.old.passed.walks self.new.passed.walks }
        ensures arrivals { self.new.arrivals ≡ self.old.arrivals }
    {
        let room = &mut self.room;
        let walks = &mut self.passed.walks;
        let pool = pool_over(alloc, ground, room, place, waiting, walks)?;
        self.passed.pools.push(Arc::new(alloc, pool)?)?;
        Ok(())
    }

    // The pass goes on by the departure at a place, of whose window all is made.
    fn go_on_at(
        &mut self,
        alloc: Global,
        ground: &Ground,
        place: usize,
        window: Window,
    ) -> Result<(), AllocError>
        requires ground { IsGround ground.now }
        requires stands { Stands ground.now self.old }
        requires place { slice_get ground.now.net.now.by_report
            (length self.old.passed.pools) ≡ Some place }
        requires window { (g : Departure) → slice_get ground.now.net.now.departures place ≡ Some g
            → IsWindow (λ x. may_wait ground.now.net.now.settings x g)
            ground.now.net.now.arrivals window }
        requires made { AreMade self.old.arrivals.made.items window }
        ensures stands { OnOk result (Stands ground.now self.new) }
        ensures more { OnOk result (length self.new.passed.pools
            ≡ length self.old.passed.pools + 1) }
        ensures grown { HasGrown self.old.passed.walks self.new.passed.walks }
        ensures arrivals { self.new.arrivals ≡ self.old.arrivals }
    {
        let pool = self.pool_at(alloc, ground, place, window)?;
        self.passed.pools.push(Arc::new(alloc, pool)?)?;
        Ok(())
    }

    /// The pass goes on by a departure of whose window all is made, and which may be merged.
    pub(crate) fn go_on_ahead(
        &mut self,
        alloc: Global,
        ground: &Ground,
        ahead: Waiting,
    ) -> Result<(), AllocError>
        requires ground { IsGround ground.now }
        requires stands { Stands ground.now self.old }
        requires place { slice_get ground.now.net.now.by_report
            (length self.old.passed.pools) ≡ Some ahead.place }
        requires ahead { IsAhead ground.now.net.now self.old.passed.walks
            self.old.arrivals.made.items self.old.arrivals.pools.items ahead }
        ensures stands { OnOk result (Stands ground.now self.new) }
        ensures more { OnOk result (length self.new.passed.pools
            ≡ length self.old.passed.pools + 1) }
        ensures grown { HasGrown self.old.passed.walks self.new.passed.walks }
        ensures arrivals { self.new.arrivals ≡ self.old.arrivals }
    {
        let Waiting {
            position: _,
            place,
            window,
            pool,
        } = ahead;
        match pool {
            Some(waiting) => self.go_on_with(alloc, ground, place, window, waiting),
            None => self.go_on_at(alloc, ground, place, window),
        }
    }

    /// What the pass leaves, with the numbers of its arrivals. A later pass can share its walks.
    pub(crate) fn into_left(self, alloc: Global) -> Result<(Passed, Prints), AllocError>
        ensures { IfOk result (λ left. left.0 ≡ self.passed) }
    {
        let Passing {
            room: _,
            slides: _,
            arrivals,
            passed,
            batch_end: _,
        } = self;
        let Passed { walks, pools } = passed;
        let walks = walks.share(alloc)?;
        Ok((Passed { walks, pools }, arrivals.into_prints()))
    }

    /// The pass goes on by one departure: the arrivals on which it waits, and its pool.
    pub(crate) fn go_on(
        &mut self,
        alloc: Global,
        ground: &Ground,
        place: usize,
    ) -> Result<(), AllocError>
        requires ground { IsGround ground.now }
        requires place { slice_get ground.now.net.now.by_report
            (length self.old.passed.pools) ≡ Some place }
        requires stands { Stands ground.now self.old }
        ensures stands { OnOk result (Stands ground.now self.new) }
        ensures more { OnOk result (length self.new.passed.pools
            ≡ length self.old.passed.pools + 1) }
        ensures grown { HasGrown self.old.passed.walks self.new.passed.walks }
        ensures added { OnOk result ((pool : List (PairingVector × LabelWalk))
            × (self.new.passed.pools ≡ self.old.passed.pools ++ pool ∷ [])) }
        ensures stayed { OnOk result (Stay self.old.arrivals self.new.arrivals) }
    {
        let window = ground.net.window(place);
        self.arrivals
            .make_window(alloc, ground, window, &mut self.room, &self.passed)?;
        let pool = self.pool_at(alloc, ground, place, window)?;
        self.passed.pools.push(Arc::new(alloc, pool)?)?;
        Ok(())
    }
}
