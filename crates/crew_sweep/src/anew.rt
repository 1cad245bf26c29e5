//! A pass over the departures of a base's network that keeps what an earlier one has.
ghost use Rattle.std.specs.Prelude.{◌≡◌, ◌<◌, ◌+◌, ◌++◌, ◌∷◌, [], IfOk, List, OnOk, Some, length, slice_get};
ghost use Rattle.std.specs.Arc.{arc_value};
ghost use Rattle.crew_carry.specs.Carried.{IsCarried};
ghost use Rattle.crew_pairing.specs.declared.vector.PairingVector.{PairingVector};
ghost use Rattle.crew_pool.specs.declared.label_walk.LabelWalk.{LabelWalk};
ghost use Rattle.crew_sweep.specs.Machinery.Beside.{IsBeside, StandsBeside};
ghost use Rattle.crew_sweep.specs.Machinery.Grounds.{HasPassedAll, IsGround, Stands};
ghost use Rattle.crew_sweep.specs.Machinery.Renewing.{IsRenewing};
ghost use Rattle.crew_sweep.specs.Sweeps.{IsEarlier, IsSweepable, IsSwept};

use crate::ahead::Wanted;
use crate::earlier::Earlier;
use crate::ground::Ground;
use crate::mending::is_unchanged;
use crate::pass::{pass_all, pass_all_by_threads};
use crate::passed::Passed;
use crate::prints::Prints;
use crate::renewal::{Renewal, note};
use crate::swept::Sweep;
use crew_anchor::AnchoredResource;
use crew_carry::Twins;
use crew_claims::Sharing;
use crew_net::Net;
use std::alloc::{AllocError, Global};
use std::sync::Arc;
use std::thread::Threads;

impl Renewal {
    // What the pass leaves, with the numbers of its arrivals: also of those that weren't made, where they
    // are as they were.
    fn into_left(self, alloc: Global, earlier: &Earlier) -> Result<(Passed, Prints), AllocError>
        requires alike { length self.alike.items ≡ length self.changed.items }
        requires arrivals { length earlier.now.twins.now.arrivals ≡ length self.changed.items }
        ensures { IfOk result (λ left. left.0 ≡ self.passing.passed) }
    {
        let Renewal {
            passing,
            carrier: _,
            changed,
            alike,
            differing: _,
        } = self;
        let (passed, mut prints) = passing.into_left(alloc)?;
        prints.fill_in(earlier, &changed, &alike);
        Ok((passed, prints))
    }

    // The pass goes on by one departure, which shares the pool of the one before it, or else has its own
    // mended where it can be, or else made anew.
    fn make_departure(
        &mut self,
        alloc: Global,
        earlier: &Earlier,
        ground: &Ground,
        place: usize,
    ) -> Result<(), AllocError>
        requires ground { IsGround ground.now }
        requires beside { IsBeside earlier.now ground.now }
        requires place { slice_get ground.now.net.now.by_report
            (length self.old.passing.passed.pools) ≡ Some place }
        requires stands { StandsBeside earlier.now ground.now self.old }
        ensures stands { OnOk result (Stands ground.now self.new.passing) }
        ensures marks { OnOk result (IsRenewing earlier.now.sweep.now ground.now.net.now
            self.new.passing.passed.walks self.old.passing.passed.pools self.new.changed.items
            self.new.alike.items) }
        ensures carried { OnOk result (IsCarried earlier.now.twins.now.ranks
            earlier.now.sweep.now.walks self.new.passing.passed.walks self.new.carrier) }
        ensures made { OnOk result ((pool : List (PairingVector × LabelWalk))
            × (self.new.passing.passed.pools ≡ self.old.passing.passed.pools ++ pool ∷ [])) }
    {
        if self.passing.can_share(ground, place) {
            return self.passing.go_on_alike(alloc, ground, place);
        }
        if self.mend_departure(alloc, earlier, ground, place)? {
            return Ok(());
        }
        self.passing.go_on(alloc, ground, place)
    }

    // The pass goes on by one departure, whose pool isn't kept.
    fn recompute_departure(
        &mut self,
        alloc: Global,
        earlier: &Earlier,
        ground: &Ground,
        place: usize,
    ) -> Result<(), AllocError>
        requires ground { IsGround ground.now }
        requires beside { IsBeside earlier.now ground.now }
        requires place { slice_get ground.now.net.now.by_report
            (length self.old.passing.passed.pools) ≡ Some place }
        requires stands { StandsBeside earlier.now ground.now self.old }
        ensures stands { OnOk result (StandsBeside earlier.now ground.now self.new) }
        ensures more { OnOk result (length self.new.passing.passed.pools
            ≡ length self.old.passing.passed.pools + 1) }
    {
        let last = self.passing.passed.pools.len();
        self.make_departure(alloc, earlier, ground, place)?;
        let passed = &self.passing.passed;
        let pool = passed.pools.get(last);
        note(
            alloc,
            earlier,
            ground,
            place,
            pool,
            &passed.walks,
            &mut self.changed,
        )
    }

    // The pass goes on by one departure, whose pool is kept where it can be: where nothing of its window
    // has changed, as far as is known or is seen by looking at it.
    fn renew_departure(
        &mut self,
        alloc: Global,
        earlier: &Earlier,
        ground: &Ground,
        place: usize,
    ) -> Result<(), AllocError>
        requires ground { IsGround ground.now }
        requires beside { IsBeside earlier.now ground.now }
        requires place { slice_get ground.now.net.now.by_report
            (length self.old.passing.passed.pools) ≡ Some place }
        requires stands { StandsBeside earlier.now ground.now self.old }
        ensures stands { OnOk result (StandsBeside earlier.now ground.now self.new) }
        ensures more { OnOk result (length self.new.passing.passed.pools
            ≡ length self.old.passing.passed.pools + 1) }
    {
        if self.keep_departure(alloc, earlier, ground, place)? {
            return Ok(());
        }
        if !self.see_window(alloc, earlier, ground, place)? {
            return self.recompute_departure(alloc, earlier, ground, place);
        }
        if self.keep_departure(alloc, earlier, ground, place)? {
            return Ok(());
        }
        self.recompute_departure(alloc, earlier, ground, place)
    }

    // Where the pass comes to the first departure of a batch: lets go of what lies behind it.
    fn begin_batch(&mut self, alloc: Global, earlier: &Earlier, ground: &Ground)
        requires ground { IsGround ground.now }
        requires beside { IsBeside earlier.now ground.now }
        requires stands { StandsBeside earlier.now ground.now self.old }
        ensures stands { StandsBeside earlier.now ground.now self.new }
        ensures passed { self.new.passing.passed ≡ self.old.passing.passed }
    {
        self.passing.begin_batch(alloc, ground);
    }

    // Where the pass comes to the first departure of a batch: makes at once, by threads, what is wanted
    // for those of the batch whose pools can't be kept.
    fn renew_ahead<T: Threads + Sync>(
        &mut self,
        rt: &T,
        alloc: Global,
        sharing: &Sharing,
        earlier: &Earlier,
        ground: &Ground,
    ) -> Result<(), AllocError>
        requires ground { IsGround ground.now }
        requires beside { IsBeside earlier.now ground.now }
        requires stands { StandsBeside earlier.now ground.now self.old }
        ensures stands { OnOk result (StandsBeside earlier.now ground.now self.new) }
        ensures passed { self.new.passing.passed ≡ self.old.passing.passed }
    {
        let changed = self.changed.as_slice();
        let alike = self.alike.as_slice();
        let wanted = |place: usize| -> Wanted
            requires { (place < length ground.now.net.now.departures) × IsGround ground.now
                × IsBeside earlier.now ground.now
                × (length changed.now ≡ length ground.now.net.now.arrivals)
                × (length alike.now ≡ length ground.now.net.now.arrivals) }
        { earlier.wanted(ground, changed, alike, place) };
        let spared = |place: usize| -> bool
            requires { (place < length changed.now)
                × (length earlier.now.twins.now.arrivals ≡ length changed.now) }
        { is_unchanged(earlier.twins, changed, place) };
        self.passing
            .make_ahead(rt, alloc, sharing, ground, &wanted, &spared)
    }

    // The pass goes on by all departures.
    fn go_over(
        &mut self,
        alloc: Global,
        earlier: &Earlier,
        ground: &Ground,
    ) -> Result<(), AllocError>
        requires ground { IsGround ground.now }
        requires beside { IsBeside earlier.now ground.now }
        requires stands { StandsBeside earlier.now ground.now self.old }
        requires none { length self.old.passing.passed.pools ≡ 0 }
        ensures all { OnOk result (HasPassedAll ground.now self.new.passing.passed) }
        ensures stands { OnOk result (StandsBeside earlier.now ground.now self.new) }
    {
        for departure in ground.net.by_report() {
            let place = *departure as usize;
            self.begin_batch(alloc, earlier, ground);
            self.renew_departure(alloc, earlier, ground, place)?;
        }
        Ok(())
    }

    // The same by threads, at most so many: what departures of the next hours wait on whose pools
    // aren't kept is made at once.
    fn go_over_by_threads<T: Threads + Sync>(
        &mut self,
        rt: &T,
        alloc: Global,
        sharing: &Sharing,
        earlier: &Earlier,
        ground: &Ground,
    ) -> Result<(), AllocError>
        requires ground { IsGround ground.now }
        requires beside { IsBeside earlier.now ground.now }
        requires stands { StandsBeside earlier.now ground.now self.old }
        requires none { length self.old.passing.passed.pools ≡ 0 }
        ensures all { OnOk result (HasPassedAll ground.now self.new.passing.passed) }
        ensures stands { OnOk result (StandsBeside earlier.now ground.now self.new) }
    {
        for departure in ground.net.by_report() {
            let place = *departure as usize;
            self.renew_ahead(rt, alloc, sharing, earlier, ground)?;
            self.renew_departure(alloc, earlier, ground, place)?;
        }
        Ok(())
    }
}

// The pass over all departures, with the numbers of its arrivals. Where little is alike, as after new
// prices for all flights, it goes as if there were nothing earlier.
fn renew_all(
    alloc: Global,
    earlier: &Earlier,
    ground: &Ground,
) -> Result<(Passed, Prints), AllocError>
    requires ground { IsGround ground.now }
    requires beside { IsBeside earlier.now ground.now }
    ensures { IfOk result (λ left. HasPassedAll ground.now left.0) }
{
    if earlier.has_little_alike(ground) {
        return pass_all(alloc, ground);
    }
    let mut renewal = Renewal::new(alloc, earlier, ground)?;
    renewal.go_over(alloc, earlier, ground)?;
    renewal.into_left(alloc, earlier)
}

// The same by threads, of those that are shared.
fn renew_all_by_threads<T: Threads + Sync>(
    rt: &T,
    alloc: Global,
    sharing: &Sharing,
    earlier: &Earlier,
    ground: &Ground,
) -> Result<(Passed, Prints), AllocError>
    requires ground { IsGround ground.now }
    requires beside { IsBeside earlier.now ground.now }
    ensures { IfOk result (λ left. HasPassedAll ground.now left.0) }
{
    if earlier.has_little_alike(ground) {
        return pass_all_by_threads(rt, alloc, sharing, ground);
    }
    let mut renewal = Renewal::new(alloc, earlier, ground)?;
    renewal.go_over_by_threads(rt, alloc, sharing, earlier, ground)?;
    renewal.into_left(alloc, earlier)
}

/// The pools of a base over a network, as `sweep` makes them, beside an earlier sweep of that base at
/// the same price over another network, with what the two networks have alike. The pool of a
/// departure is kept where the arrivals in its window are those that were, and each has the same
/// duties from pools that have the labels that they had, or is seen to show what it showed; and it is
/// mended where that is so but for a few. Where little of the two networks is alike, as after new
/// prices for all flights, nothing is looked for, and nothing kept.
pub fn renew(
    alloc: Global,
    earlier: &Sweep,
    earlier_positions: &[u32],
    twins: &Twins,
    net: Arc<Net, Global>,
    positions: &[u32],
    places: &[u32],
) -> Result<Sweep, AllocError>
    requires sweepable { IsSweepable (arc_value net) positions.now }
    requires earlier { IsEarlier earlier.now earlier_positions.now twins.now (arc_value net)
        places.now }
    ensures { IfOk result (IsSwept (arc_value net) (earlier.now.base, earlier.now.price)) }
{
    let base = earlier.base();
    let price = earlier.price();
    let full = AnchoredResource::new(net.settings(), price);
    let ground = Ground::of(&net, positions, base, &full);
    let before = Earlier::of(earlier, earlier_positions, twins, places, &ground, &full);
    let (passed, prints) = renew_all(alloc, &before, &ground)?;
    Ok(Sweep::of(net, base, price, full, passed, prints))
}

/// The same in at most so many threads, this one among them.
pub fn renew_by_threads<T: Threads + Sync>(
    rt: &T,
    alloc: Global,
    sharing: &Sharing,
    earlier: &Sweep,
    earlier_positions: &[u32],
    twins: &Twins,
    net: Arc<Net, Global>,
    positions: &[u32],
    places: &[u32],
) -> Result<Sweep, AllocError>
    requires sweepable { IsSweepable (arc_value net) positions.now }
    requires earlier { IsEarlier earlier.now earlier_positions.now twins.now (arc_value net)
        places.now }
    ensures { IfOk result (IsSwept (arc_value net) (earlier.now.base, earlier.now.price)) }
{
    let base = earlier.base();
    let price = earlier.price();
    let full = AnchoredResource::new(net.settings(), price);
    let ground = Ground::of(&net, positions, base, &full);
    let before = Earlier::of(earlier, earlier_positions, twins, places, &ground, &full);
    let (passed, prints) = renew_all_by_threads(rt, alloc, sharing, &before, &ground)?;
    Ok(Sweep::of(net, base, price, full, passed, prints))
}
