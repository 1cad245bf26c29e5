//! Arrivals that are seen to show what they showed: made from the pools of both networks, and compared.
//!
//! Before a pool is made anew the arrivals of its window that may have changed are made from the
//! pools of each network and compared by key. To keep arrivals' pools from settle to settle takes
//! 0.6 to 0.9 of the time of a settle after one edit and 1.3 to 1.8 of the memory; so they are made
//! twice, and only where something may have changed.
ghost use Rattle.std.specs.Prelude.{◌≡◌, ◌<◌, ◌≤◌, ◌+◌, ◌-◌, ◌↔◌, ℕ, IfOk, IsTrue, List, Ok, OnOk, Some, false, length, slice_get, true};
ghost use Rattle.crew_pairing.specs.declared.vector.PairingVector.{PairingVector};
ghost use Rattle.crew_pool.specs.Counted.{AreCounted};
ghost use Rattle.crew_pool.specs.declared.label_walk.LabelWalk.{LabelWalk};
ghost use Rattle.crew_sweep.specs.Machinery.Beside.{IsBeside, ShowsOld, StandsBeside};
ghost use Rattle.crew_sweep.specs.Machinery.Grounds.{IsGround};
ghost use Rattle.crew_sweep.specs.Machinery.Passing.{IsSealed};
ghost use Rattle.crew_sweep.specs.Machinery.Renewing.{HaveSame};
ghost use Rattle.crew_sweep.specs.Sweeps.{keyed};

use crate::arrivals::arrival_from;
use crate::earlier::{Earlier, is_as_it_was};
use crate::ground::Ground;
use crate::prints::may_be_same;
use crate::renewal::Renewal;
use crew_anchor::AnchoredResource;
use crew_carry::are_alike;
use crew_flights::Code;
use crew_net::Window;
use crew_pairing::Arrival;
use crew_pool::{Pool, Walks, Workspace};
use std::alloc::{AllocError, Global};

// Whether two codes are one.
fn is_same_code(one: Code, other: Code) -> bool
    ensures { IsTrue result ↔ (one ≡ other) }
{
    one == other
}

// Whether two arrivals are one.
fn is_same_arrival(one: &Arrival, other: &Arrival) -> bool
    ensures { IsTrue result → one.now ≡ other.now }
{
    if !is_same_code(one.airport, other.airport) {
        return false;
    }
    one.release == other.release
}

impl<'a> Earlier<'a> {
    // Whether the arrival at a place and the old one at another are one event.
    fn has_event(&self, ground: &Ground, place: usize, old: usize) -> bool
        requires place { place < length ground.now.net.now.arrivals }
        requires old { old < length self.now.sweep.now.net.arrivals }
        ensures { result ≡ true → slice_get ground.now.net.now.arrivals place
            ≡ slice_get self.now.sweep.now.net.arrivals old }
    {
        let events = ground.net.arrivals();
        let were = self.sweep.net().arrivals();
        is_same_arrival(&events[place], &were[old])
    }

    // The pool of an old arrival, from those that the earlier sweep has.
    fn arrival(
        &self,
        alloc: Global,
        ground: &Ground,
        place: usize,
        room: &mut Workspace<AnchoredResource>,
    ) -> Result<Pool<AnchoredResource>, AllocError>
        requires beside { IsBeside self.now ground.now }
        requires place { place < length self.now.sweep.now.net.arrivals }
        ensures { IfOk result (ShowsOld self.now place) }
    {
        let own = &self.ground;
        let pools = self.sweep.pools();
        let walks = self.sweep.walks();
        arrival_from(alloc, own, place, room, pools, walks)
    }

    // Whether a pool has the labels of an old arrival.
    fn showed(
        &self,
        alloc: Global,
        ground: &Ground,
        place: usize,
        room: &mut Workspace<AnchoredResource>,
        pool: &Pool<AnchoredResource>,
        walks: &Walks,
    ) -> Result<bool, AllocError>
        requires beside { IsBeside self.now ground.now }
        requires place { place < length self.now.sweep.now.net.arrivals }
        requires counts { AreCounted (λ (v : PairingVector). v.duties) walks.now false pool.now }
        ensures { result ≡ Ok true → (was : List (PairingVector × LabelWalk))
            × ShowsOld self.now place was
            × HaveSame (keyed ground.now.net.now walks.now pool.now)
            (keyed self.now.sweep.now.net self.now.sweep.now.walks was) }
    {
        let before = self.arrival(alloc, ground, place, room)?;
        let from = self.sweep.walks();
        let ranks = self.twins.ranks();
        are_alike(alloc, &before, from, ranks, pool, walks)
    }
}

impl Renewal {
    // Whether the arrival at a place shows what the old one at another showed, as far as is known or is
    // seen by looking at it. The answer is a hint, and no clause says more of it: what is seen is noted.
    fn see(
        &mut self,
        alloc: Global,
        earlier: &Earlier,
        ground: &Ground,
        place: usize,
        old: usize,
    ) -> Result<bool, AllocError>
        requires ground { IsGround ground.now }
        requires beside { IsBeside earlier.now ground.now }
        requires stands { StandsBeside earlier.now ground.now self.old }
        requires place { place < length ground.now.net.now.arrivals }
        requires sealed { IsSealed ground.now.net.now (length self.old.passing.passed.pools) place }
        requires old { old < length earlier.now.sweep.now.net.arrivals }
        ensures stands { OnOk result (StandsBeside earlier.now ground.now self.new) }
        ensures passed { self.new.passing.passed ≡ self.old.passing.passed }
    {
        if is_as_it_was(earlier.twins, &self.changed, &self.alike, place, old) {
            return Ok(true);
        }
        if self.differing.has(place) {
            return Ok(false);
        }
        if !earlier.has_event(ground, place, old) {
            return Ok(false);
        }
        self.passing.make_arrival(alloc, ground, place)?;
        let pool = &self.passing.arrivals.pools[place];
        let room = &mut self.passing.room;
        let walks = &self.passing.passed.walks;
        let same = earlier.showed(alloc, ground, old, room, pool, walks)?;
        if same {
            self.alike[place] = Some(old);
        } else {
            self.differing.note(place);
        }
        Ok(same)
    }

    // Whether the arrival at a place may show what the old one at another showed, by their numbers. The
    // answer is a hint: where they differ that is noted.
    fn may_show(
        &mut self,
        alloc: Global,
        earlier: &Earlier,
        ground: &Ground,
        place: usize,
        old: usize,
    ) -> Result<bool, AllocError>
        requires ground { IsGround ground.now }
        requires beside { IsBeside earlier.now ground.now }
        requires stands { StandsBeside earlier.now ground.now self.old }
        requires place { place < length ground.now.net.now.arrivals }
        requires sealed { IsSealed ground.now.net.now (length self.old.passing.passed.pools) place }
        ensures stands { OnOk result (StandsBeside earlier.now ground.now self.new) }
        ensures passed { self.new.passing.passed ≡ self.old.passing.passed }
    {
        if is_as_it_was(earlier.twins, &self.changed, &self.alike, place, old) {
            return Ok(true);
        }
        self.passing.make_arrival(alloc, ground, place)?;
        let print = self.passing.arrivals.prints.at(place);
        let may = may_be_same(print, earlier.sweep.print(old));
        if !may {
            self.differing.note(place);
        }
        Ok(may)
    }

    // Whether all of a window either is as it was, as far as is known, or can be looked at. No clause
    // says so, since it is there for speed.
    fn can_look(&self, earlier: &Earlier, now: Window, was: Window) -> bool
        requires marks { now.end ≤ length self.now.changed.items }
        requires alike { now.end ≤ length self.now.alike.items }
        requires arrivals { now.end ≤ length earlier.now.twins.now.arrivals }
        requires ordered { now.from ≤ now.end }
        requires was { was.from + (now.end - now.from) ≤ was.end }
    {
        for offset in 0..now.end - now.from {
            let here = now.from + offset;
            let there = was.from + offset;
            if !is_as_it_was(earlier.twins, &self.changed, &self.alike, here, there)
                && self.differing.has(here)
            {
                return false;
            }
        }
        true
    }

    // Whether all of a window may show what it showed, by numbers. The answer is a hint.
    fn may_show_window(
        &mut self,
        alloc: Global,
        earlier: &Earlier,
        ground: &Ground,
        now: Window,
        was: Window,
    ) -> Result<bool, AllocError>
        requires ground { IsGround ground.now }
        requires beside { IsBeside earlier.now ground.now }
        requires stands { StandsBeside earlier.now ground.now self.old }
        requires within { now.end ≤ length ground.now.net.now.arrivals }
        requires sealed { (place : ℕ) → now.from ≤ place → place < now.end
            → IsSealed ground.now.net.now (length self.old.passing.passed.pools) place }
        requires ordered { now.from ≤ now.end }
        requires was { was.from + (now.end - now.from) ≤ was.end }
        ensures stands { OnOk result (StandsBeside earlier.now ground.now self.new) }
        ensures passed { self.new.passing.passed ≡ self.old.passing.passed }
    {
        for offset in 0..now.end - now.from {
            let here = now.from + offset;
            let there = was.from + offset;
            if !self.may_show(alloc, earlier, ground, here, there)? {
                return Ok(false);
            }
        }
        Ok(true)
    }

    /// Looks at the arrivals on which a departure waits that may have changed, up to one that has:
    /// `false` where one is found, or too little is known. The answer is a hint.
    pub(crate) fn see_window(
        &mut self,
        alloc: Global,
        earlier: &Earlier,
        ground: &Ground,
        place: usize,
    ) -> Result<bool, AllocError>
        requires ground { IsGround ground.now }
        requires beside { IsBeside earlier.now ground.now }
        requires place { slice_get ground.now.net.now.by_report
            (length self.old.passing.passed.pools) ≡ Some place }
        requires stands { StandsBeside earlier.now ground.now self.old }
        ensures stands { OnOk result (StandsBeside earlier.now ground.now self.new) }
        ensures passed { self.new.passing.passed ≡ self.old.passing.passed }
    {
        let Some(old) = earlier.twins.departure(place) else {
            return Ok(false);
        };
        let now = ground.net.window(place);
        let was = earlier.sweep.net().window(old);
        if now.end - now.from != was.end - was.from {
            return Ok(false);
        }
        if !self.can_look(earlier, now, was) {
            return Ok(false);
        }
        if !self.may_show_window(alloc, earlier, ground, now, was)? {
            return Ok(false);
        }
        for offset in 0..now.end - now.from {
            let here = now.from + offset;
            let there = was.from + offset;
            let same = self.see(alloc, earlier, ground, here, there)?;
            if !same {
                return Ok(false);
            }
        }
        Ok(true)
    }
}
