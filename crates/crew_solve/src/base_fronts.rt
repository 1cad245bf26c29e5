//! The fronts of a base.
//!
//! The type keeps that the fronts can be shown, and that they are those of any timetable that the
//! network is of: so who holds some can read each without memory and without a further premise,
//! when the plan and the solution that they were made for are gone.
ghost use Rattle.std.specs.Prelude.{◌≡◌, ◌<◌, ◌≤◌, IfOk, IsPermutation, None, Some, length, slice_get};
ghost use Rattle.crew_flights.specs.Timetable.{IsSound, Timetable};
ghost use Rattle.crew_pairing.specs.Duties.{AreDuties};
ghost use Rattle.crew_pairing.specs.Events as Events;
ghost use Rattle.crew_pairing.specs.declared.duty.Duty.{Duty as DutyOf};
ghost use Rattle.crew_resource.specs.Members.{Member};
ghost use Rattle.crew_solve.specs.Machinery.Floors.{AreFloors};
ghost use Rattle.crew_solve.specs.Machinery.Homes.{IsFit};
ghost use Rattle.crew_solve.specs.Machinery.Solved.{IsShowing};
ghost use Rattle.crew_sweep.specs.Sweeps.{ShowsFronts, front_at};
ghost use Rattle.crew_vector.specs.Fronts.{RiseByVector};

use crate::entries::place_of;
use crate::floors::Floors;
use crate::front_view::FrontView;
use crew_flights::Code;
use crew_net::Net;
use crew_sweep::Sweep;
use std::alloc::{AllocError, Global};
use std::marker::Model;

/// The Pareto fronts of a base at its dual price, one for each duty of a network.
///
/// A contract sees the sweep of the network that shows them.
pub struct BaseFronts {
    sweep: Sweep,
    floors: Floors,
}

impl Drop for BaseFronts {
    fn drop(self) {
        let Self {
            sweep: _,
            floors: _,
        } = self;
    }
}

impl Model for BaseFronts {
    ghost use Rattle.std.specs.Prelude.{None};
    ghost use Rattle.crew_solve.specs.Machinery.Floors.{AreFloors};
    ghost use Rattle.crew_solve.specs.Machinery.Solved.{IsShowing};
    ghost use Rattle.crew_sweep.specs.Sweeps.{BaseSweep};

    ghost Value = { BaseSweep };

    ghost view = { λ f. f.sweep };

    ghost invariant = { λ f. IsShowing f.sweep × AreFloors None f.sweep f.floors };
}

impl BaseFronts {
    // The fronts that a sweep shows.
    pub(crate) fn new(alloc: Global, sweep: Sweep) -> Result<Self, AllocError>
        requires { IsShowing sweep }
        ensures { IfOk result (λ fronts. fronts ≡ sweep) }
    {
        let floors = Floors::of(alloc, &sweep)?;
        Ok(BaseFronts { sweep, floors })
    }

    // What the pairings of each departure cost at least.
    pub(crate) fn floors(&self) -> &Floors
        ensures { AreFloors None self.now result.now }
    {
        &self.floors
    }

    // The sweep that shows them.
    pub(crate) fn sweep(&self) -> &Sweep
        ensures sweep { result.now ≡ self.now }
        ensures fit { IsFit self.now }
        ensures right { (t : Timetable) → IsSound t
            → AreDuties self.now.net.settings t self.now.net.duties → ShowsFronts t self.now }
    {
        &self.sweep
    }

    /// The base.
    pub fn base(&self) -> Code
        ensures { result ≡ self.now.base }
    {
        self.sweep.base()
    }

    /// The base's dual price.
    pub fn price(&self) -> i64
        ensures { result ≡ self.now.price }
    {
        self.sweep.price()
    }

    /// The network.
    pub fn net(&self) -> &Net
        ensures net { result.now ≡ self.now.net }
        ensures sound { (d : DutyOf) → Member self.now.net.duties d → Events.IsSound d }
        ensures few { length self.now.net.duties ≤ 200_000 }
        ensures right { (t : Timetable) → IsSound t
            → AreDuties self.now.net.settings t self.now.net.duties → ShowsFronts t self.now }
    {
        self.sweep.net()
    }

    /// The Pareto front of the duty of a rank, by vector: each vector with its path. It takes no
    /// memory.
    pub fn front(&self, rank: usize) -> FrontView<'_>
        requires { rank < length self.now.net.duties }
        ensures { (d : DutyOf) → slice_get self.now.net.duties rank ≡ Some d
            → IsPermutation (front_at self.now d) result × RiseByVector result }
    {
        let sweep = &self.sweep;
        let duty = sweep.net().duty(rank);
        let index = place_of(sweep.net(), duty);
        FrontView::new(sweep, index, rank as u32, duty)
    }
}
