//! One pass over the departures of a base's network.
ghost use Rattle.std.specs.Prelude.{◌≡◌, ◌<◌, ◌+◌, IfOk, IfSome, OnOk, Some, length, slice_get};
ghost use Rattle.std.specs.Arc.{arc_value};
ghost use Rattle.crew_flights.specs.Timetable.{IsBasePrice};
ghost use Rattle.crew_carry.specs.crew_step.Walks.{HasGrown};
ghost use Rattle.crew_sweep.specs.Machinery.Ahead.{AreAhead, IsAhead};
ghost use Rattle.crew_sweep.specs.Machinery.Grounds.{HasPassedAll, IsGround, Stands, Stay};
ghost use Rattle.crew_sweep.specs.Sweeps.{IsSweepable, IsSwept};

use crate::ground::Ground;
use crate::passed::Passed;
use crate::passing::Passing;
use crate::prints::Prints;
use crate::swept::Sweep;
use crate::windows::Waiting;
use crew_anchor::AnchoredResource;
use crew_claims::Sharing;
use crew_flights::Code;
use crew_net::Net;
use crew_pool::Walks;
use std::alloc::{AllocError, Global};
use std::sync::Arc;
use std::thread::Threads;
use std::vec::IntoIter;

impl Passing {
    // The pass goes on by all departures.
    fn go_over(&mut self, alloc: Global, ground: &Ground) -> Result<(), AllocError>
        requires ground { IsGround ground.now }
        requires stands { Stands ground.now self.old }
        requires none { length self.old.passed.pools ≡ 0 }
        ensures { OnOk result (HasPassedAll ground.now self.new.passed) }
    {
        for departure in ground.net.by_report() {
            let place = *departure as usize;
            self.begin_batch(alloc, ground);
            self.go_on_alike(alloc, ground, place)?;
        }
        Ok(())
    }

    // What is ahead, or where nothing is left of it what comes next.
    fn or_look_ahead<T: Threads + Sync>(
        &mut self,
        rt: &T,
        alloc: Global,
        sharing: &Sharing,
        ground: &Ground,
        ahead: IntoIter<Option<Waiting>>,
    ) -> Result<IntoIter<Option<Waiting>>, AllocError>
        requires ground { IsGround ground.now }
        requires stands { Stands ground.now self.old }
        requires left { length self.old.passed.pools < length ground.now.net.now.by_report }
        requires ahead { AreAhead ground.now.net.now self.old.passed.walks
            self.old.arrivals.made.items self.old.arrivals.pools.items ahead.rest.items }
        ensures stands { OnOk result (Stands ground.now self.new) }
        ensures passed { OnOk result (self.new.passed ≡ self.old.passed) }
        ensures ahead { IfOk result (λ next. AreAhead ground.now.net.now self.new.passed.walks
            self.new.arrivals.made.items self.new.arrivals.pools.items next.rest.items) }
    {
        if ahead.len() > 0 {
            return Ok(ahead);
        }
        let next = self.look_ahead(rt, alloc, sharing, ground)?;
        Ok(next.into_iter())
    }

    // The pass goes on by the departure at a place, of which it may be merged what stands in its
    // window.
    fn go_on_from(
        &mut self,
        alloc: Global,
        ground: &Ground,
        place: usize,
        waiting: Option<Waiting>,
    ) -> Result<(), AllocError>
        requires ground { IsGround ground.now }
        requires place { slice_get ground.now.net.now.by_report
            (length self.old.passed.pools) ≡ Some place }
        requires stands { Stands ground.now self.old }
        requires ahead { IfSome waiting (IsAhead ground.now.net.now self.old.passed.walks
            self.old.arrivals.made.items self.old.arrivals.pools.items) }
        ensures stands { OnOk result (Stands ground.now self.new) }
        ensures more { OnOk result (length self.new.passed.pools
            ≡ length self.old.passed.pools + 1) }
        ensures grown { HasGrown self.old.passed.walks self.new.passed.walks }
        ensures stayed { OnOk result (Stay self.old.arrivals self.new.arrivals) }
    {
        if self.share_departure(ground, place)? {
            return Ok(());
        }
        match waiting {
            Some(waiting) if waiting.place == place => self.go_on_ahead(alloc, ground, waiting),
            _ => self.go_on(alloc, ground, place),
        }
    }

    // The same by threads, of those that are shared: they merge what stands in the windows of the
    // departures that come next, each those of other airports, and make what later ones wait on.
    fn go_over_by_threads<T: Threads + Sync>(
        &mut self,
        rt: &T,
        alloc: Global,
        sharing: &Sharing,
        ground: &Ground,
    ) -> Result<(), AllocError>
        requires ground { IsGround ground.now }
        requires stands { Stands ground.now self.old }
        requires none { length self.old.passed.pools ≡ 0 }
        ensures { OnOk result (HasPassedAll ground.now self.new.passed) }
    {
        let mut ahead = Vec::new(alloc).into_iter();
        for departure in ground.net.by_report() {
            ahead = self.or_look_ahead(rt, alloc, sharing, ground, ahead)?;
            let waiting = ahead.next().flatten();
            self.go_on_from(alloc, ground, *departure as usize, waiting)?;
        }
        Ok(())
    }
}

/// The pass over all departures, with the numbers of its arrivals.
pub(crate) fn pass_all(alloc: Global, ground: &Ground) -> Result<(Passed, Prints), AllocError>
    requires { IsGround ground.now }
    ensures { IfOk result (λ left. HasPassedAll ground.now left.0) }
{
    let mut passing = Passing::new(alloc, ground, Walks::new(alloc))?;
    passing.go_over(alloc, ground)?;
    passing.into_left(alloc)
}

/// The same by threads, of those that are shared.
pub(crate) fn pass_all_by_threads<T: Threads + Sync>(
    rt: &T,
    alloc: Global,
    sharing: &Sharing,
    ground: &Ground,
) -> Result<(Passed, Prints), AllocError>
    requires { IsGround ground.now }
    ensures { IfOk result (λ left. HasPassedAll ground.now left.0) }
{
    let mut passing = Passing::new(alloc, ground, Walks::new(alloc))?;
    passing.go_over_by_threads(rt, alloc, sharing, ground)?;
    passing.into_left(alloc)
}

/// The pools of a base, one for each departure of its network: at each legal duty they show the
/// duty's front. `positions` has the position of each duty's departure, by rank.
pub fn sweep(
    alloc: Global,
    net: Arc<Net, Global>,
    positions: &[u32],
    base: Code,
    price: i64,
) -> Result<Sweep, AllocError>
    requires sweepable { IsSweepable (arc_value net) positions.now }
    requires price { IsBasePrice price }
    ensures { IfOk result (IsSwept (arc_value net) (base, price)) }
{
    let full = AnchoredResource::new(net.settings(), price);
    let ground = Ground::of(&net, positions, base, &full);
    let (passed, prints) = pass_all(alloc, &ground)?;
    Ok(Sweep::of(net, base, price, full, passed, prints))
}

/// The same pass by threads, of those that are shared, this one among them: the pools of arrivals on
/// which departures wait that report less than the least rest after one another are made at once, and
/// beside them is merged what stands in the windows of the next ones, airport by airport.
pub fn sweep_by_threads<T: Threads + Sync>(
    rt: &T,
    alloc: Global,
    sharing: &Sharing,
    net: Arc<Net, Global>,
    positions: &[u32],
    base: Code,
    price: i64,
) -> Result<Sweep, AllocError>
    requires sweepable { IsSweepable (arc_value net) positions.now }
    requires price { IsBasePrice price }
    ensures { IfOk result (IsSwept (arc_value net) (base, price)) }
{
    let full = AnchoredResource::new(net.settings(), price);
    let ground = Ground::of(&net, positions, base, &full);
    let (passed, prints) = pass_all_by_threads(rt, alloc, sharing, &ground)?;
    Ok(Sweep::of(net, base, price, full, passed, prints))
}
