//! What an earlier solution has for a network.
ghost use Rattle.std.specs.Prelude.{◌≡◌, ◌++◌, ◌∷◌, [], IfOk, IfSome, OnOk, map};
ghost use Rattle.std.specs.Arc.{arc_value};
ghost use Rattle.crew_flights.specs.Timetable.{IsBasePrice};
ghost use Rattle.crew_resource.specs.Members.{Member};
ghost use Rattle.crew_solve.specs.Machinery.Planned.{IsFromPast, IsPast};
ghost use Rattle.crew_sweep.specs.Sweeps.{IsSweepable, IsSwept};

use crate::alike::are_one;
use crate::base_fronts::BaseFronts;
use crate::entries::fronts_of;
use crate::solution::Solution;
use crew_claims::Sharing;
use crew_flights::Code;
use crew_net::{Net, arrival_places, departure_positions};
use crew_sweep::crew_carry::Twins;
use crew_sweep::{Sweep, renew, renew_by_threads};
use std::alloc::{AllocError, Global};
use std::sync::Arc;
use std::thread::Threads;

/// The fronts of an earlier network's bases, the positions of its duties, what it has alike with the
/// network now, where the duties of that one arrive, and whether the two are one.
pub(crate) struct Past {
    pub(crate) fronts: Vec<Arc<BaseFronts, Global>>,
    pub(crate) positions: Vec<u32>,
    pub(crate) twins: Twins,
    pub(crate) places: Vec<u32>,
    pub(crate) is_same: bool,
}

impl Drop for Past {
    fn drop(self) {
        let Self {
            fronts: _,
            positions: _,
            twins: _,
            places: _,
            is_same: _,
        } = self;
    }
}

// Puts a base's fronts among others, shared.
fn push_shared(
    base: &Arc<BaseFronts, Global>,
    all: &mut Vec<Arc<BaseFronts, Global>>,
) -> Result<(), AllocError>
    ensures { OnOk result (map arc_value all.new.items
        ≡ map arc_value all.old.items ++ arc_value base.now ∷ []) }
{
    all.push(Arc::try_clone(base)?)?;
    Ok(())
}

// The fronts of all bases, shared.
fn shared(
    alloc: Global,
    fronts: &[Arc<BaseFronts, Global>],
) -> Result<Vec<Arc<BaseFronts, Global>>, AllocError>
    ensures { IfOk result (λ all. map arc_value all.items ≡ map arc_value fronts.now) }
{
    let mut all = Vec::with_capacity(alloc, fronts.len())?;
    for base in fronts {
        push_shared(base, &mut all)?;
    }
    Ok(all)
}

impl Past {
    /// What an earlier solution has for a network under the same settings.
    pub(crate) fn of(alloc: Global, earlier: &Solution, net: &Net) -> Result<Past, AllocError>
        requires { earlier.now.net.settings ≡ net.now.settings }
        ensures { IfOk result (IsPast net.now) }
    {
        let before = earlier.net();
        let positions = departure_positions(alloc, before)?;
        let twins = Twins::of(alloc, before, net)?;
        let places = arrival_places(alloc, net)?;
        let is_same = are_one(before, net, &twins);
        let fronts = shared(alloc, earlier.fronts())?;
        Ok(Past {
            fronts,
            positions,
            twins,
            places,
            is_same,
        })
    }

    /// The earlier fronts of a base, where they were made at this price.
    pub(crate) fn fronts_at(&self, base: Code, price: i64) -> Option<&Arc<BaseFronts, Global>>
        ensures { IfSome result
            (λ fronts. IsFromPast self.now base price (arc_value fronts.now)) }
    {
        let fronts = fronts_of(&self.fronts, base)?;
        if fronts.sweep().price() == price {
            Some(fronts)
        } else {
            None
        }
    }

    /// The sweep of earlier fronts' base, at its price, over the network now.
    pub(crate) fn renew(
        &self,
        alloc: Global,
        net: &Arc<Net, Global>,
        positions: &[u32],
        earlier: &BaseFronts,
    ) -> Result<Sweep, AllocError>
        requires past { IsPast (arc_value net.now) self.now }
        requires sweepable { IsSweepable (arc_value net.now) positions.now }
        requires among { Member (map arc_value self.now.fronts.items) earlier.now }
        requires price { IsBasePrice earlier.now.price }
        ensures { IfOk result (IsSwept (arc_value net.now)
            (earlier.now.base, earlier.now.price)) }
    {
        let net = Arc::try_clone(net)?;
        renew(
            alloc,
            earlier.sweep(),
            &self.positions,
            &self.twins,
            net,
            positions,
            &self.places,
        )
    }

    /// The same by threads of those that are shared.
    pub(crate) fn renew_by_threads<R: Threads + Sync>(
        &self,
        rt: &R,
        alloc: Global,
        sharing: &Sharing,
        net: &Arc<Net, Global>,
        positions: &[u32],
        earlier: &BaseFronts,
    ) -> Result<Sweep, AllocError>
        requires past { IsPast (arc_value net.now) self.now }
        requires sweepable { IsSweepable (arc_value net.now) positions.now }
        requires among { Member (map arc_value self.now.fronts.items) earlier.now }
        requires price { IsBasePrice earlier.now.price }
        ensures { IfOk result (IsSwept (arc_value net.now)
            (earlier.now.base, earlier.now.price)) }
    {
        let net = Arc::try_clone(net)?;
        renew_by_threads(
            rt,
            alloc,
            sharing,
            earlier.sweep(),
            &self.positions,
            &self.twins,
            net,
            positions,
            &self.places,
        )
    }
}
