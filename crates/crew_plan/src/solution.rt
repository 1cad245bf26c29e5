//! What a timetable gives.
ghost use Rattle.std.specs.Arc.{arc_value};
ghost use Rattle.std.specs.Option.{option_copied};
ghost use Rattle.std.specs.Prelude.{◌≡◌, IfOk, IfSome, None, map};
ghost use Rattle.crew_fronts.specs.crew_answers.Bests.{AreFronts};
ghost use Rattle.crew_flights.specs.Timetable.{IsSound, Timetable};
ghost use Rattle.crew_fronts.specs.Fronts.{BaseFronts as FrontsOf, front_at};
ghost use Rattle.crew_pairing.specs.declared.duty.Duty.{Duty as DutyOf};
ghost use Rattle.crew_plan.specs.Apart.{AreApart, AreApartOf};
ghost use Rattle.crew_plan.specs.Cheapest.{AreCheapest, AreCheapestOf, IsBestOf};
ghost use Rattle.crew_plan.specs.Machinery.Homes as Homes;
ghost use Rattle.crew_plan.specs.Machinery.Homes.{IsPayable};
ghost use Rattle.crew_plan.specs.Machinery.Kept.{AreThoseOf, IsSolved};
ghost use Rattle.crew_plan.specs.Machinery.Kinds.{IsForSweeps, plan_by_sweeps};
ghost use Rattle.crew_plan.specs.Plans.{AreAllIn, IsSolutionIn};
ghost use Rattle.crew_plan.specs.Solutions.{HasNetOf, IsFrontOf, front_of};
ghost use Rattle.crew_resource.specs.Members.{Each, Member};
ghost use Rattle.crew_rules.specs.Settings.{IsChecked};
ghost use Rattle.crew_rules.specs.declared.settings.Settings.{Settings};
ghost use Rattle.crew_fronts.specs.crew_solve.Plans as Plain;

use crate::homes::{apart_of, best_of, cheapest_of};
use crate::long_plan::LongPlan;
use crate::plan::{Kind, Plan};
use crate::sweeps::{unwrapped, wrapped};
use crew_flights::Code;
use crew_fronts::crew_solve::crew_vector::PricedPairing;
use crew_fronts::{BaseFronts, FrontView};
use crew_net::{Net, Node};
use crew_pairing::Key;
use std::alloc::{AllocError, Global};
use std::marker::Model;
use std::slice;
use std::sync::Arc;

// A solution by sweeps; or else the network, and the best of what passes show.
#[derive(Drop)]
pub(crate) enum Made {
    Plain(crew_fronts::crew_solve::Solution),
    Long(Arc<Net, Global>, Option<PricedPairing>),
}

/// The Pareto fronts of all bases and legal duties of a timetable, and its best pairing.
///
/// A contract sees the network, the fronts of each base, and the best.
pub struct Solution {
    bases: Vec<Arc<BaseFronts, Global>>,
    made: Made,
}

impl Drop for Solution {
    fn drop(self) {
        let Self { bases: _, made: _ } = self;
    }
}

impl Model for Solution {
    ghost use Rattle.std.specs.Coded.{codes};
    ghost use Rattle.std.specs.Prelude.{map};
    ghost use Rattle.crew_fronts.specs.contracts.base_fronts.BaseFronts as fronts;
    ghost use Rattle.crew_plan.specs.Solutions as Spec;
    ghost use Rattle.crew_plan.specs.Machinery.Kept.{IsSolved};
    ghost use Rattle.crew_plan.specs.Machinery.Kinds.{IsMadeAs, best_of, net_of};

    ghost Value = { Spec.Solution };

    ghost coded = { Prim.hlevel (codes, fronts.the_row.coded) };

    ghost view = { λ s. record {
      net = net_of s.made;
      bases = map (λ a. a.value) s.bases.items;
      best = best_of s.made;
    } };

    ghost invariant = { λ s. IsSolved (net_of s.made) (map (λ a. a.value) s.bases.items)
        × IsMadeAs s.made (map (λ a. a.value) s.bases.items) };
}

// The fronts of a base, where some are there.
fn fronts_of(bases: &[Arc<BaseFronts, Global>], base: Code) -> Option<&Arc<BaseFronts, Global>>
    ensures found { IfSome result
        (λ found. AreThoseOf (map arc_value bases.now) base (arc_value found.now)) }
    ensures none { result ≡ None → (b : FrontsOf) → Member (map arc_value bases.now) b
        → b.base ≡ base → ⊥ }
{
    for fronts in bases {
        if fronts.base() == base {
            return Some(fronts);
        }
    }
    None
}

// The fronts of a base alone; none where there are none of it.
fn alone(bases: &[Arc<BaseFronts, Global>], base: Code) -> &[Arc<BaseFronts, Global>]
    ensures { map arc_value result.now ≡ Homes.alone base (map arc_value bases.now) }
{
    match fronts_of(bases, base) {
        Some(found) => slice::from_ref(found),
        None => &[],
    }
}

impl Solution {
    /// The solution of a plan, given the fronts of each of its bases in order.
    pub fn of(
        alloc: Global,
        plan: &Plan,
        fronts: Vec<Arc<BaseFronts, Global>>,
    ) -> Result<Solution, AllocError>
        requires { AreAllIn plan.now (map arc_value fronts.items) }
        ensures { IfOk result (IsSolutionIn plan.now) }
    {
        match plan.kind() {
            Kind::Plain(plan) => Solution::unwrapped(alloc, plan, &fronts),
            Kind::Long(plan) => Solution::passed(alloc, plan, fronts),
        }
    }

    // The solution of a plan of sweeps, given the fronts of each of its bases in order.
    fn unwrapped(
        alloc: Global,
        plan: &crew_fronts::crew_solve::Plan,
        fronts: &[Arc<BaseFronts, Global>],
    ) -> Result<Solution, AllocError>
        requires plain { IsForSweeps plan.now }
        requires all { AreAllIn (plan_by_sweeps plan.now) (map arc_value fronts.now) }
        ensures { IfOk result (IsSolutionIn (plan_by_sweeps plan.now)) }
    {
        let sweeps = unwrapped(alloc, plan, fronts)?;
        let solution = crew_fronts::crew_solve::Solution::of(alloc, plan, sweeps)?;
        Solution::swept(alloc, plan, solution)
    }

    // The solution of a plan of sweeps, given that of these.
    pub(crate) fn swept(
        alloc: Global,
        plan: &crew_fronts::crew_solve::Plan,
        solution: crew_fronts::crew_solve::Solution,
    ) -> Result<Solution, AllocError>
        requires plain { IsForSweeps plan.now }
        requires solved { Plain.IsSolutionIn plan.now solution }
        ensures { IfOk result (IsSolutionIn (plan_by_sweeps plan.now)) }
    {
        let bases = wrapped(alloc, solution.fronts())?;
        Ok(Solution {
            bases,
            made: Made::Plain(solution),
        })
    }

    // The solution of a plan of passes, given the fronts of each of its bases in order.
    pub(crate) fn passed(
        alloc: Global,
        plan: &LongPlan,
        bases: Vec<Arc<BaseFronts, Global>>,
    ) -> Result<Solution, AllocError>
        requires { AreAllIn plan.now (map arc_value bases.items) }
        ensures { IfOk result (IsSolutionIn plan.now) }
    {
        let net = Arc::try_clone(plan.net())?;
        let trip_rig = net.settings().trip_rig;
        let best = best_of(alloc, &bases, trip_rig)?;
        Ok(Solution {
            bases,
            made: Made::Long(net, best),
        })
    }

    // The solution by sweeps, where one was made.
    pub(crate) fn by_sweeps(&self) -> Option<&crew_fronts::crew_solve::Solution> {
        match &self.made {
            Made::Plain(solution) => Some(solution),
            Made::Long(..) => None,
        }
    }

    // The network and the fronts of a solution by passes.
    pub(crate) fn by_passes(&self) -> Option<(&Arc<Net, Global>, &[Arc<BaseFronts, Global>])>
        ensures { IfSome result (λ passes. Each (λ b. b.net ≡ arc_value passes.0.now)
            (map arc_value passes.1.now)) }
    {
        match &self.made {
            Made::Plain(_) => None,
            Made::Long(net, _) => Some((net, &self.bases)),
        }
    }

    /// The network.
    pub fn net(&self) -> &Net
        ensures { result.now ≡ self.now.net }
    {
        match &self.made {
            Made::Plain(solution) => solution.net(),
            Made::Long(net, _) => &**net,
        }
    }

    /// The pairing of least reduced cost, if there is one.
    pub fn best(&self) -> Option<&PricedPairing>
        ensures { option_copied result ≡ self.now.best }
    {
        match &self.made {
            Made::Plain(solution) => solution.best(),
            Made::Long(_, best) => best.as_ref(),
        }
    }

    /// The best pairing alone, if there is one.
    pub fn into_best(self) -> Option<PricedPairing>
        ensures { result ≡ self.best }
    {
        let Self { bases: _, made } = self;
        match made {
            Made::Plain(solution) => solution.into_best(),
            Made::Long(_, best) => best,
        }
    }

    /// The columns of least reduced cost: of what the Pareto fronts show the first by cost and path, as
    /// many as the limit, or all where there are no more. The settings and the timetable are those
    /// whose network and fronts these are.
    pub fn cheapest(&self, alloc: Global, limit: usize) -> Result<Vec<PricedPairing>, AllocError>
        ensures { IfOk result (λ pairings. (s : Settings) (t : Timetable) → IsChecked s → IsSound t
            → HasNetOf s t self.now → AreFronts s t (front_of self.now)
            → AreCheapest s t limit pairings.items) }
    {
        match &self.made {
            Made::Plain(solution) => solution.cheapest(alloc, limit),
            Made::Long(net, _) => {
                cheapest_of(alloc, &self.bases, net.settings().trip_rig, limit)
            }
        }
    }

    /// Diverse columns, up to a limit, of all that the Pareto fronts show, by cost and path:
    /// one after another each is taken unless so many as the share are taken already that fly a
    /// flight that it flies. The settings and the timetable are those whose network and fronts these
    /// are.
    pub fn apart(
        &self,
        alloc: Global,
        limit: usize,
        share: u32,
    ) -> Result<Vec<PricedPairing>, AllocError>
        ensures { IfOk result (λ pairings. (s : Settings) (t : Timetable) → IsChecked s → IsSound t
            → HasNetOf s t self.now → AreFronts s t (front_of self.now)
            → AreApart s t limit share pairings.items) }
    {
        match &self.made {
            Made::Plain(solution) => solution.apart(alloc, limit, share),
            Made::Long(net, _) => {
                apart_of(alloc, &self.bases, net.settings().trip_rig, limit, share)
            }
        }
    }

    // The fronts of a base alone; none where there are none of it. The amounts of what they show fit.
    fn alone(&self, base: Code) -> &[Arc<BaseFronts, Global>]
        ensures fronts { map arc_value result.now ≡ Homes.alone base self.now.bases }
        ensures pay { Each (IsPayable self.now.net.settings.trip_rig) (map arc_value result.now) }
        ensures solved { IsSolved self.now.net self.now.bases }
    {
        alone(&self.bases, base)
    }

    /// The column of least reduced cost of a base: of what its Pareto fronts show the first by cost and
    /// path. `None` exactly where the base has no legal pairing, or the code is no base. The settings
    /// and the timetable are those whose network and fronts these are.
    pub fn best_of(&self, alloc: Global, base: Code) -> Result<Option<PricedPairing>, AllocError>
        ensures { IfOk result (λ best. (s : Settings) (t : Timetable) → IsChecked s → IsSound t
            → HasNetOf s t self.now → AreFronts s t (front_of self.now)
            → IsBestOf s t base best) }
    {
        best_of(alloc, self.alone(base), self.net().settings().trip_rig)
    }

    /// The columns of least reduced cost of a base, as those of all bases are listed; none where the
    /// code is no base.
    pub fn cheapest_of(
        &self,
        alloc: Global,
        base: Code,
        limit: usize,
    ) -> Result<Vec<PricedPairing>, AllocError>
        ensures { IfOk result (λ pairings. (s : Settings) (t : Timetable) → IsChecked s → IsSound t
            → HasNetOf s t self.now → AreFronts s t (front_of self.now)
            → AreCheapestOf s t base limit pairings.items) }
    {
        let trip_rig = self.net().settings().trip_rig;
        cheapest_of(alloc, self.alone(base), trip_rig, limit)
    }

    /// Diverse columns of a base, as those of all bases are taken; none where the code is no base.
    pub fn apart_of(
        &self,
        alloc: Global,
        base: Code,
        limit: usize,
        share: u32,
    ) -> Result<Vec<PricedPairing>, AllocError>
        ensures { IfOk result (λ pairings. (s : Settings) (t : Timetable) → IsChecked s → IsSound t
            → HasNetOf s t self.now → AreFronts s t (front_of self.now)
            → AreApartOf s t base limit share pairings.items) }
    {
        let trip_rig = self.net().settings().trip_rig;
        apart_of(alloc, self.alone(base), trip_rig, limit, share)
    }

    /// The fronts of a base; `None` where the code is no base.
    pub fn base(&self, base: Code) -> Option<&BaseFronts>
        ensures own { IfSome result (λ found. (found.now.base ≡ base)
            × (found.now.net ≡ self.now.net)) }
        ensures fronts { IfSome result (λ found. (d : DutyOf)
            → front_of self.now base d ≡ front_at found.now d) }
        ensures none { result ≡ None → Member self.now.net.bases base → ⊥ }
    {
        match fronts_of(&self.bases, base) {
            Some(found) => Some(&**found),
            None => None,
        }
    }

    /// The Pareto front of a base and the duty of a key, in order of vector: each vector with its path.
    /// `None` where the code is no base or the key is no legal duty's. It takes no memory.
    pub fn front(&self, base: Code, key: &Key) -> Option<FrontView<'_>>
        ensures { IsFrontOf self.now base key.now result }
    {
        let node = Node {
            base,
            key: key.copy(),
        };
        let rank = self.net().rank(&node)?;
        let fronts = fronts_of(&self.bases, base)?;
        Some(fronts.front(rank))
    }
}
