//! What a timetable gives.
ghost use Rattle.std.specs.Arc.{arc_value};
ghost use Rattle.std.specs.Option.{option_copied};
ghost use Rattle.std.specs.Prelude.{◌≡◌, IfOk, IfSome, None, map};
ghost use Rattle.crew_pairing.specs.declared.duty.Duty.{Duty as DutyOf};
ghost use Rattle.crew_resource.specs.Members.{Each, Member};
ghost use Rattle.crew_flights.specs.Timetable.{IsSound, Timetable};
ghost use Rattle.crew_rules.specs.Settings.{IsChecked};
ghost use Rattle.crew_rules.specs.declared.settings.Settings.{Settings};
ghost use Rattle.crew_solve.specs.Apart.{AreApart};
ghost use Rattle.crew_solve.specs.Cheapest.{AreCheapest};
ghost use Rattle.crew_solve.specs.Plans.{AreSweepsIn, IsSolutionIn};
ghost use Rattle.crew_solve.specs.Solutions.{HasNetOf, IsFrontOf, front_of};
ghost use Rattle.crew_sweep.specs.Sweeps.{front_at};
ghost use Rattle.crew_vector.specs.Bests.{AreFronts};

use crate::apart::apart_of;
use crate::base_fronts::BaseFronts;
use crate::best::best_of;
use crate::cheapest_so_far::CheapestSoFar;
use crate::entries::fronts_of;
use crate::floors::keep_of_bases;
use crate::front_view::FrontView;
use crate::plan::Plan;
use crew_flights::Code;
use crew_net::{Net, Node};
use crew_pairing::Key;
use crew_vector::PricedPairing;
use std::alloc::{AllocError, Global};
use std::marker::Model;
use std::sync::Arc;

/// The Pareto fronts of all bases and legal duties of a timetable, and its best pairing.
///
/// A contract sees the network, the sweep of each base, and the best.
pub struct Solution {
    net: Arc<Net, Global>,
    fronts: Vec<Arc<BaseFronts, Global>>,
    best: Option<PricedPairing>,
}

impl Drop for Solution {
    fn drop(self) {
        let Self {
            net: _,
            fronts: _,
            best: _,
        } = self;
    }
}

impl Model for Solution {
    ghost use Rattle.std.specs.Prelude.{map};
    ghost use Rattle.crew_solve.specs.Solutions as Spec;

    ghost Value = { Spec.Solution };

    ghost view = { λ s. record {
      net = s.net.value;
      sweeps = map (λ a. a.value) s.fronts.items;
      best = s.best;
    } };

    ghost use Rattle.crew_solve.specs.Machinery.Solved.{IsSolved};

    ghost invariant = { λ s. IsSolved s.net.value (map (λ a. a.value) s.fronts.items) };
}

impl Solution {
    /// The solution of a plan, given the fronts of each of its bases in order.
    pub fn of(
        alloc: Global,
        plan: &Plan,
        fronts: Vec<Arc<BaseFronts, Global>>,
    ) -> Result<Solution, AllocError>
        requires { AreSweepsIn plan.now (map arc_value fronts.items) }
        ensures { IfOk result (IsSolutionIn plan.now) }
    {
        let trip_rig = plan.net().settings().trip_rig;
        let best = best_of(alloc, &fronts, trip_rig)?;
        let net = plan.shared_net()?;
        Ok(Solution { net, fronts, best })
    }

    /// The network.
    pub fn net(&self) -> &Net
        ensures { result.now ≡ self.now.net }
    {
        &self.net
    }

    /// The fronts of all bases, in order of code.
    pub fn fronts(&self) -> &[Arc<BaseFronts, Global>]
        ensures all { map arc_value result.now ≡ self.now.sweeps }
        ensures nets { Each (λ b. b.net ≡ self.now.net) self.now.sweeps }
        ensures bases { map (λ b. b.base) self.now.sweeps ≡ self.now.net.bases }
    {
        &self.fronts
    }

    /// The best pairing, if there is one.
    pub fn best(&self) -> Option<&PricedPairing>
        ensures { option_copied result ≡ self.now.best }
    {
        self.best.as_ref()
    }

    /// The best pairing alone, if there is one.
    pub fn into_best(mut self) -> Option<PricedPairing>
        ensures { result ≡ self.best }
    {
        self.best.take()
    }

    /// The columns of least reduced cost: of what the Pareto fronts show the first by cost and path, as
    /// many as the limit, or all where there are no more. The settings and the timetable are those
    /// whose network and fronts these are.
    pub fn cheapest(&self, alloc: Global, limit: usize) -> Result<Vec<PricedPairing>, AllocError>
        ensures { IfOk result (λ pairings. (s : Settings) (t : Timetable) → IsChecked s → IsSound t
            → HasNetOf s t self.now → AreFronts s t (front_of self.now)
            → AreCheapest s t limit pairings.items) }
    {
        let mut kept = CheapestSoFar::new(alloc, limit);
        let trip_rig = self.net.settings().trip_rig;
        keep_of_bases(alloc, &self.fronts, trip_rig, &mut kept)?;
        Ok(kept.into_vec(alloc)?)
    }

    /// Diverse columns, up to a limit, of all that the Pareto fronts show, by cost and path:
    /// one after another each is taken unless so many as the share are taken already that fly a
    /// flight that it flies. The settings and the timetable are those whose network and fronts these
    /// are.
    pub fn apart(
        &self,
        alloc: Global,
        limit: usize,
        share: u32,
    ) -> Result<Vec<PricedPairing>, AllocError>
        ensures { IfOk result (λ pairings. (s : Settings) (t : Timetable) → IsChecked s → IsSound t
            → HasNetOf s t self.now → AreFronts s t (front_of self.now)
            → AreApart s t limit share pairings.items) }
    {
        let trip_rig = self.net.settings().trip_rig;
        let pairings = apart_of(alloc, &self.fronts, trip_rig, limit, share)?;
        Ok(pairings)
    }

    /// The fronts of a base; `None` where the code is no base.
    pub fn base(&self, base: Code) -> Option<&BaseFronts>
        ensures own { IfSome result (λ found. (found.now.base ≡ base)
            × (found.now.net ≡ self.now.net)) }
        ensures fronts { IfSome result (λ found. (d : DutyOf)
            → front_of self.now base d ≡ front_at found.now d) }
        ensures none { result ≡ None → Member self.now.net.bases base → ⊥ }
    {
        let _fronts = self.fronts();
        match fronts_of(&self.fronts, base) {
            Some(found) => Some(&**found),
            None => None,
        }
    }

    /// The front of a base and the duty of a key, in order of vector: each vector with its walk.
    /// `None` where the code is no base or the key is no legal duty's.
    pub fn front(&self, base: Code, key: &Key) -> Option<FrontView<'_>>
        ensures { IsFrontOf self.now base key.now result }
    {
        let node = Node {
            base,
            key: key.copy(),
        };
        let rank = self.net.rank(&node)?;
        let fronts = fronts_of(&self.fronts, base)?;
        Some(fronts.front(rank))
    }
}
