//! The ground of a round.
ghost use Rattle.std.specs.Prelude.{◌≡◌, ◌↔◌, ◌<◌, ◌≤◌, ◌+◌, ◌++◌, ℕ, Err, IfErr, IfOk, IsTrue, OnOk, drop, length, map, slice_get};
ghost use Rattle.std.specs.Arc.{arc_value};
ghost use Rattle.crew_dirty.specs.Carried.{IsCarriedOver};
ghost use Rattle.crew_dirty.specs.Dirty.{IsNetOver};
ghost use Rattle.crew_job.specs.Machinery.Drafted.{IsDraftOver, IsPlanFault};
ghost use Rattle.crew_job.specs.Grounds.{IsGroundFault};
ghost use Rattle.crew_net.specs.Nets as Nets;
ghost use Rattle.crew_pairing.specs.Duties.{HasFew};
ghost use Rattle.crew_flights.specs.Timetable.{empty_timetable};
ghost use Rattle.crew_version.specs.Versions.{IsRight, timetable_of};
ghost use Rattle.crew_version.specs.crew_plan.Plans.{AreAllIn, IsPlanOf, AreFrontsIn};

use crate::fault::GroundFault;
use crate::same_settings::are_same_settings;
use crew_dirty::{Carried, carry};
use crew_flights::{Entry, Timetable};
use crew_net::Net;
use crew_pairing::Duties;
use crew_rules::Settings;
use crew_version::crew_fronts::BaseFronts;
use crew_version::crew_plan::{Plan, Solution};
use crew_version::{Draft, Version, VersionFault, are_same_timetables};
use std::alloc::{AllocError, Global};
use std::marker::Model;
use std::sync::Arc;
use std::thread::Threads;

/// The ground of a round: the version that was sealed last, a draft of the next one, and its plan.
///
/// A contract sees the sealed version, the number, settings and entries of the next one, and the
/// plan. The entries begin with the sealed version's, and come to at most 200,000 legal duties,
/// whose plan it is.
pub struct Ground {
    sealed: Arc<Version, Global>,
    draft: Draft,
    plan: Plan,
}

impl Drop for Ground {
    fn drop(self) {
        let Self {
            sealed: _,
            draft: _,
            plan: _,
        } = self;
    }
}

impl Model for Ground {
    ghost use Rattle.crew_job.specs.Grounds as Spec;

    ghost Value = { Spec.Ground };

    ghost view = { λ g. record {
      sealed = g.sealed.value;
      number = g.draft.number;
      settings = g.draft.settings;
      entries = g.draft.entries;
      plan = g.plan;
    } };

    ghost use Rattle.crew_job.specs.Grounds.{IsGround};

    ghost invariant = { λ g. IsGround (record {
      sealed = g.sealed.value;
      number = g.draft.number;
      settings = g.draft.settings;
      entries = g.draft.entries;
      plan = g.plan;
    }) };
}

// The entries from a place on.
fn entries_from(entries: &[Entry], place: usize) -> &[Entry]
    ensures { result.now ≡ drop place entries.now }
{
    if place < entries.len() {
        &entries[place..]
    } else {
        &[]
    }
}

// The draft of the version after one, over entries that have to begin with its.
fn drafted(alloc: Global, sealed: &Version, entries: &[Entry]) -> Result<Draft, GroundFault>
    ensures ok { IfOk result (IsDraftOver sealed.now entries.now) }
    ensures fault { IfErr result (IsGroundFault sealed.now entries.now) }
    ensures few { result ≡ Err GroundFault.TooManyDuties → ⊥ }
{
    if !sealed.begins(entries) {
        return Err(GroundFault::ShorterLog);
    }
    if sealed.number() == u64::MAX {
        return Err(GroundFault::LastVersion);
    }
    let more = entries_from(entries, sealed.count());
    match sealed.draft(alloc, more) {
        Ok(draft) => Ok(draft),
        Err(_) => Err(GroundFault::Memory),
    }
}

// The plan of a draft, beside the version before it.
fn planned<R: Threads + Sync>(
    rt: &R,
    alloc: Global,
    sealed: &Version,
    draft: &Draft,
) -> Result<Plan, GroundFault>
    requires { sealed.now.settings ≡ draft.now.settings }
    ensures plan { IfOk result (IsPlanOf draft.now.settings (timetable_of draft.now.entries)) }
    ensures few { OnOk result (HasFew draft.now.settings (timetable_of draft.now.entries)) }
    ensures fault { IfErr result (IsPlanFault draft.now.settings (timetable_of draft.now.entries)) }
{
    match draft.plan(rt, alloc, sealed) {
        Ok(plan) => Ok(plan),
        Err(VersionFault::TooManyDuties) => Err(GroundFault::TooManyDuties),
        Err(_) => Err(GroundFault::Memory),
    }
}

// The network of no duties, over the timetable before any entry.
fn empty_net(alloc: Global, sealed: &Version) -> Result<Net, AllocError>
    requires { timetable_of sealed.now.entries ≡ empty_timetable }
    ensures { IfOk result (λ net. (net.settings ≡ sealed.now.settings)
        × IsNetOver (timetable_of sealed.now.entries) net) }
{
    match Arc::new(alloc, Duties::new(alloc)) {
        Ok(duties) => Net::build(alloc, sealed.settings(), sealed.timetable(), duties),
        Err(_) => Err(AllocError),
    }
}

impl Ground {
    ghost use Rattle.crew_job.specs.Grounds.{IsGround, data_of, sealed_data_of};

    /// The ground of a round over entries, after the version that was sealed last. `ShorterLog`
    /// exactly where the entries don't begin with the version's; else `LastVersion` exactly where
    /// its number is the greatest; else `TooManyDuties` where the entries come to more than 200,000
    /// legal duties, or `Memory`.
    pub fn begin<R: Threads + Sync>(
        rt: &R,
        alloc: Global,
        sealed: &Arc<Version, Global>,
        entries: &[Entry],
    ) -> Result<Ground, GroundFault>
        ensures sealed { IfOk result (λ ground. ground.sealed ≡ arc_value sealed.now) }
        ensures entries { IfOk result (λ ground. ground.entries ≡ entries.now) }
        ensures ground { IfOk result IsGround }
        ensures fault { IfErr result (IsGroundFault (arc_value sealed.now) entries.now) }
    {
        let draft = drafted(alloc, sealed, entries)?;
        let plan = planned(rt, alloc, sealed, &draft)?;
        let sealed = Arc::try_clone(sealed)?;
        Ok(Ground {
            sealed,
            draft,
            plan,
        })
    }

    /// The version that was sealed last.
    pub fn sealed(&self) -> &Version
        ensures version { result.now ≡ self.now.sealed }
        ensures ground { IsGround self.now }
    {
        &self.sealed
    }

    /// The number of the version that the round comes to.
    pub fn number(&self) -> u64
        ensures number { result ≡ self.now.number }
        ensures ground { IsGround self.now }
    {
        self.draft.number()
    }

    /// The settings.
    pub fn settings(&self) -> &Settings
        ensures settings { result.now ≡ self.now.settings }
        ensures ground { IsGround self.now }
    {
        self.draft.settings()
    }

    /// How many entries there are.
    pub fn count(&self) -> usize
        ensures { result ≡ length self.now.entries }
    {
        self.draft.count()
    }

    /// The entry at a place, if there is one.
    pub fn entry(&self, place: usize) -> Option<Entry>
        ensures { result ≡ slice_get self.now.entries place }
    {
        self.draft.entry(place)
    }

    /// The timetable that the entries come to.
    pub fn timetable(&self) -> &Timetable
        ensures timetable { result.now ≡ data_of self.now }
        ensures ground { IsGround self.now }
    {
        self.draft.timetable()
    }

    /// The plan of what the entries come to.
    pub fn plan(&self) -> &Plan
        ensures plan { result.now ≡ self.now.plan }
        ensures ground { IsGround self.now }
    {
        &self.plan
    }

    /// The network of the round's nodes.
    pub fn net(&self) -> &Net
        ensures net { result.now ≡ self.now.plan.net }
        ensures few { length self.now.plan.net.duties ≤ 200_000 }
        ensures ground { IsGround self.now }
    {
        self.plan.net()
    }

    /// The network, shared.
    pub fn shared_net(&self) -> Result<Arc<Net, Global>, AllocError>
        ensures { IfOk result (λ net. arc_value net ≡ self.now.plan.net) }
    {
        self.plan.shared_net()
    }

    /// How many bases there are.
    pub fn base_count(&self) -> usize
        ensures count { result ≡ length self.now.plan.prices }
        ensures ground { IsGround self.now }
    {
        self.plan.base_count()
    }

    /// What is carried over from the version that was sealed last.
    pub fn carried(&self, alloc: Global) -> Result<Carried, AllocError>
        ensures { IfOk result (λ carried. (old : Nets.Net) × (old.settings ≡ self.now.settings)
            × IsNetOver (sealed_data_of self.now) old
            × IsCarriedOver (sealed_data_of self.now) (data_of self.now) old self.now.plan.net
            carried) }
    {
        let sealed = self.sealed();
        match sealed.solution() {
            Some(solution) => {
                let net = solution.net();
                let _count = net.duty_count();
                self.carried_from(alloc, net)
            }
            None => {
                let net = empty_net(alloc, sealed)?;
                self.carried_from(alloc, &net)
            }
        }
    }

    // What is carried over from the network of the version that was sealed last.
    fn carried_from(&self, alloc: Global, old: &Net) -> Result<Carried, AllocError>
        requires settings { old.now.settings ≡ self.now.settings }
        requires net { IsNetOver (sealed_data_of self.now) old.now }
        ensures { IfOk result (IsCarriedOver (sealed_data_of self.now) (data_of self.now) old.now
            self.now.plan.net) }
    {
        carry(
            alloc,
            old,
            self.sealed().timetable(),
            self.net(),
            self.timetable(),
        )
    }

    /// The fronts of the base at a place, made beside those of the version that was sealed last.
    pub fn sweep(&self, alloc: Global, base: usize) -> Result<Arc<BaseFronts, Global>, AllocError>
        requires { base < length self.now.plan.prices }
        ensures { IfOk result (λ fronts. AreFrontsIn self.now.plan base (arc_value fronts)) }
    {
        self.plan.sweep(alloc, base)
    }

    /// The version that the round comes to, given the fronts of each base in order.
    pub fn close(
        &self,
        alloc: Global,
        fronts: Vec<Arc<BaseFronts, Global>>,
    ) -> Result<Arc<Version, Global>, AllocError>
        requires { AreAllIn self.now.plan (map arc_value fronts.items) }
        ensures number { IfOk result (λ version. (arc_value version).number ≡ self.now.number) }
        ensures settings { IfOk result
            (λ version. (arc_value version).settings ≡ self.now.settings) }
        ensures entries { IfOk result
            (λ version. (arc_value version).entries ≡ self.now.entries) }
        ensures right { IfOk result (λ version. IsRight (arc_value version)) }
    {
        let solution = Solution::of(alloc, &self.plan, fronts)?;
        let version = self.draft.close(alloc, solution)?;
        Arc::new(alloc, version).map_err(|_| AllocError)
    }

    /// Whether the version that was sealed last has the timetable of the one before another ground. It
    /// takes no memory.
    pub fn is_same_sealed_data(&self, other: &Ground) -> bool
        ensures { IsTrue result ↔ (sealed_data_of self.now ≡ sealed_data_of other.now) }
    {
        are_same_timetables(self.sealed().timetable(), other.sealed().timetable())
    }

    /// Whether the settings and the timetable are another ground's. It takes no memory.
    pub fn is_same_data(&self, other: &Ground) -> bool
        ensures { IsTrue result ↔ ((self.now.settings ≡ other.now.settings)
            × (data_of self.now ≡ data_of other.now)) }
    {
        are_same_settings(self.settings(), other.settings())
            && are_same_timetables(self.timetable(), other.timetable())
    }
}
