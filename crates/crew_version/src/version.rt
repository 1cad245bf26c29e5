//! Versions.

ghost use Rattle.std.specs.Prelude.{◌≡◌, ◌↔◌, ◌≤ℤ◌, ◌+◌, ◌++◌, Err, IfOk, IfErr, IfSome, IsNone, IsTrue, None, length, slice_get};
ghost use Rattle.std.specs.Arc.{arc_value};
ghost use Rattle.std.specs.Option.{option_copied};
ghost use Rattle.std.specs.FinMap as map;
ghost use mathlib.Core.List.{IsPrefix};
ghost use Rattle.crew_pairing.specs.Duties.{HasFew};
ghost use Rattle.crew_rules.specs.Settings.{IsChecked};
ghost use Rattle.crew_flights.specs.Timetable.{empty_timetable};
ghost use Rattle.crew_plan.specs.Apart.{AreApart, AreApartOf};
ghost use Rattle.crew_plan.specs.Cheapest.{AreCheapest, AreCheapestOf, IsBestOf};
ghost use Rattle.crew_plan.specs.Solutions.{HasNetOf, front_of};
ghost use Rattle.crew_plan.specs.crew_answers.Bests.{IsPairing, IsScratch};
ghost use Rattle.crew_vector.specs.declared.priced.PricedPairing.{PricedPairing as Pairing};
ghost use Rattle.crew_version.specs.Drafts.{IsDraftFault, IsDraftOf, IsSolutionOf, closed};
ghost use Rattle.crew_version.specs.Faults.{IsNextFault};
ghost use Rattle.crew_version.specs.Fronts.{IsFrontByKey};
ghost use Rattle.crew_version.specs.Machinery.Kept.{IsRightEarlier};

use crate::draft::Draft;
use crate::entry::is_same_entry;
use crate::fault::VersionFault;
use crate::search::{Earlier, find_solution};
use crew_flights::{Code, Entry, Timetable, Verdict};
use crew_pairing::Key;
use crew_plan::Solution;
use crew_plan::crew_fronts::FrontView;
use crew_rules::Settings;
use crew_vector::PricedPairing;
use std::alloc::{AllocError, Global};
use std::marker::Model;
use std::sync::Arc;
use std::thread::Threads;

/// A version: what the entries of a log come to under some settings. It never changes.
///
/// A contract sees its number, settings, entries and best. Its verdicts and timetable are those of
/// its entries, they come to at most 200,000 legal duties, and its best is the best pairing of
/// that timetable.
pub struct Version {
    draft: Draft,
    solution: Option<Arc<Solution, Global>>,
}

impl Drop for Version {
    fn drop(self) {
        let Self {
            draft: _,
            solution: _,
        } = self;
    }
}

impl Model for Version {
    ghost use Rattle.std.specs.Option.{option_map};
    ghost use Rattle.crew_version.specs.Machinery.Kept.{IsKept, best_of};
    ghost use Rattle.crew_version.specs.Versions.{Snapshot};

    ghost Value = { Snapshot };

    ghost view = { λ v. record {
      number = v.draft.number;
      settings = v.draft.settings;
      entries = v.draft.entries;
      best = best_of (option_map (λ a. a.value) v.solution);
    } };

    ghost invariant = { λ v. IsKept v.draft (option_map (λ a. a.value) v.solution) };
}

// Whether two entries are one, or none is there.
fn is_same(one: Option<Entry>, other: Option<Entry>) -> bool
    ensures { IsTrue result ↔ (one ≡ other) }
{
    match (one, other) {
        (Some(one), Some(other)) => is_same_entry(&one, &other),
        (None, None) => true,
        _ => false,
    }
}

impl Version {
    ghost use Rattle.crew_version.specs.Versions.{IsNext, IsRight};
    ghost use Rattle.crew_version.specs.Versions as Spec;

    /// The version before any entry, number 0.
    pub fn opening(alloc: Global, settings: &Settings) -> Self
        requires { IsChecked settings.now }
        ensures { result ≡ Spec.opening settings.now }
    {
        Version {
            draft: Draft::blank(alloc, settings),
            solution: None,
        }
    }

    // The version of a draft, given all fronts and the best pairing of its timetable.
    pub(crate) fn of(draft: Draft, solution: Arc<Solution, Global>) -> Version
        requires checked { IsChecked draft.settings }
        requires few { HasFew draft.settings (Spec.timetable_of draft.entries) }
        requires solution { IsSolutionOf draft.settings (Spec.timetable_of draft.entries)
            (arc_value solution) }
        ensures version { result ≡ closed draft (arc_value solution) }
        ensures right { IsRight result }
    {
        Version {
            draft,
            solution: Some(solution),
        }
    }

    /// The number, which the next version has one more of.
    pub fn number(&self) -> u64
        ensures value { result ≡ self.now.number }
        ensures right { IsRight self.now }
    {
        self.draft.number()
    }

    /// The settings.
    pub fn settings(&self) -> &Settings
        ensures value { result.now ≡ self.now.settings }
        ensures checked { IsChecked self.now.settings }
    {
        self.draft.settings()
    }

    /// How many entries there are.
    pub fn count(&self) -> usize
        ensures { result ≡ length self.now.entries }
    {
        self.draft.count()
    }

    /// The entry at a place, if there is one.
    pub fn entry(&self, place: usize) -> Option<Entry>
        ensures { result ≡ slice_get self.now.entries place }
    {
        self.draft.entry(place)
    }

    /// The verdict on the entry at a place, if there is one.
    pub fn verdict(&self, place: usize) -> Option<Verdict>
        ensures { result ≡ slice_get (Spec.verdicts_of self.now.entries) place }
    {
        self.draft.verdict(place)
    }

    /// How many flights its timetable holds.
    pub fn flights(&self) -> usize
        ensures { result ≡ map.len (Spec.timetable_of self.now.entries).flights }
    {
        self.draft.timetable().flight_count()
    }

    /// Its timetable.
    pub fn timetable(&self) -> &Timetable
        ensures { result.now ≡ Spec.timetable_of self.now.entries }
    {
        self.draft.timetable()
    }

    /// Pareto fronts and best pairing of its timetable. None is there only where the timetable is
    /// empty, as it is before any entry.
    pub fn solution(&self) -> Option<&Solution>
        ensures scratch { IfSome result (λ solution. IsScratch self.now.settings
            (Spec.timetable_of self.now.entries) (front_of solution.now) solution.now.best) }
        ensures best { IfSome result (λ solution. solution.now.best ≡ self.now.best) }
        ensures network { IfSome result (λ solution. HasNetOf self.now.settings
            (Spec.timetable_of self.now.entries) solution.now) }
        ensures none { result ≡ None → Spec.timetable_of self.now.entries ≡ empty_timetable }
    {
        match &self.solution {
            None => None,
            Some(solution) => Some(&**solution),
        }
    }

    /// The best pairing: a legal one, than which none of the timetable has less reduced cost. None is
    /// there exactly where there is no legal pairing.
    pub fn best(&self) -> Option<&PricedPairing>
        ensures value { option_copied result ≡ self.now.best }
        ensures right { IsRight self.now }
        ensures legal { IfSome result (λ best. IsPairing self.now.settings
            (Spec.timetable_of self.now.entries) best.now) }
        ensures least { IfSome result (λ best. (p : Pairing) → IsPairing self.now.settings
            (Spec.timetable_of self.now.entries) p → best.now.cost ≤ℤ p.cost) }
        ensures none { IsNone result ↔ ((p : Pairing) → IsPairing self.now.settings
            (Spec.timetable_of self.now.entries) p → ⊥) }
    {
        match &self.solution {
            None => None,
            Some(solution) => solution.best(),
        }
    }

    /// The columns of least reduced cost: of what Pareto fronts show the first by cost and path, as many
    /// as the limit, or all where there are no more.
    pub fn cheapest(&self, alloc: Global, limit: usize) -> Result<Vec<PricedPairing>, AllocError>
        ensures { IfOk result (λ pairings. AreCheapest self.now.settings
            (Spec.timetable_of self.now.entries) limit pairings.items) }
    {
        match &self.solution {
            None => Ok(Vec::new(alloc)),
            Some(solution) => solution.cheapest(alloc, limit),
        }
    }

    /// Diverse columns, up to a limit, of all that Pareto fronts show, by cost and path: one
    /// after another each is taken unless so many as the share are taken already that fly a flight
    /// that it flies.
    pub fn apart(
        &self,
        alloc: Global,
        limit: usize,
        share: u32,
    ) -> Result<Vec<PricedPairing>, AllocError>
        ensures { IfOk result (λ pairings. AreApart self.now.settings
            (Spec.timetable_of self.now.entries) limit share pairings.items) }
    {
        match &self.solution {
            None => Ok(Vec::new(alloc)),
            Some(solution) => solution.apart(alloc, limit, share),
        }
    }

    /// The best pairing of a base: of what its Pareto fronts show the first by cost and path, than which
    /// no legal pairing of the base has less reduced cost. `None` exactly where the base has no legal
    /// pairing, or the code is no base.
    pub fn best_of(&self, alloc: Global, base: Code) -> Result<Option<PricedPairing>, AllocError>
        ensures { IfOk result (λ best. IsBestOf self.now.settings
            (Spec.timetable_of self.now.entries) base best) }
    {
        match &self.solution {
            None => Ok(None),
            Some(solution) => solution.best_of(alloc, base),
        }
    }

    /// The columns of least reduced cost of a base, as `cheapest` lists those of all bases; none where
    /// the code is no base.
    pub fn cheapest_of(
        &self,
        alloc: Global,
        base: Code,
        limit: usize,
    ) -> Result<Vec<PricedPairing>, AllocError>
        ensures { IfOk result (λ pairings. AreCheapestOf self.now.settings
            (Spec.timetable_of self.now.entries) base limit pairings.items) }
    {
        match &self.solution {
            None => Ok(Vec::new(alloc)),
            Some(solution) => solution.cheapest_of(alloc, base, limit),
        }
    }

    /// Diverse columns of a base, as `apart` takes those of all bases; none where the code is no base.
    pub fn apart_of(
        &self,
        alloc: Global,
        base: Code,
        limit: usize,
        share: u32,
    ) -> Result<Vec<PricedPairing>, AllocError>
        ensures { IfOk result (λ pairings. AreApartOf self.now.settings
            (Spec.timetable_of self.now.entries) base limit share pairings.items) }
    {
        match &self.solution {
            None => Ok(Vec::new(alloc)),
            Some(solution) => solution.apart_of(alloc, base, limit, share),
        }
    }

    /// The Pareto front of a base and the duty of a key, in order of vector: each vector with its path.
    /// `None` where the code is no base, or no legal duty has the key. It takes no memory.
    pub fn front(&self, base: Code, key: &Key) -> Option<FrontView<'_>>
        ensures { IsFrontByKey self.now.settings (Spec.timetable_of self.now.entries) base key.now
            result }
    {
        match &self.solution {
            None => None,
            Some(solution) => solution.front(base, key),
        }
    }

    /// The timetable that its entries come to with these entries more.
    pub fn timetable_with(&self, alloc: Global, entries: &[Entry]) -> Result<Timetable, AllocError>
        ensures { IfOk result
            (λ timetable. timetable ≡ Spec.timetable_of (self.now.entries ++ entries.now)) }
    {
        self.draft.timetable_with(alloc, entries)
    }

    /// An equal version, which shares what this one holds.
    pub fn copy(&self, alloc: Global) -> Result<Version, AllocError>
        ensures { IfOk result (λ version. version ≡ self.now) }
    {
        let solution = match &self.solution {
            Some(solution) => Some(Arc::try_clone(solution)?),
            None => None,
        };
        Ok(Version {
            draft: self.draft.copy(alloc)?,
            solution,
        })
    }

    /// Whether these entries begin with its own.
    pub fn begins(&self, entries: &[Entry]) -> bool
        ensures { IsTrue result ↔ IsPrefix self.now.entries entries.now }
    {
        for place in 0..self.count() {
            if !is_same(self.entry(place), entries.get(place).copied()) {
                return false;
            }
        }
        true
    }

    /// The draft of the next version: its entries and these. `LastVersion` exactly where the number
    /// is the greatest, or `Memory`.
    pub fn draft(&self, alloc: Global, entries: &[Entry]) -> Result<Draft, VersionFault>
        ensures ok { IfOk result (IsDraftOf self.now entries.now) }
        ensures last { self.now.number ≡ 18_446_744_073_709_551_615
            → result ≡ Err VersionFault.LastVersion }
        ensures fault { IfErr result (IsDraftFault self.now) }
    {
        let Some(number) = self.draft.number().checked_add(1) else {
            return Err(VersionFault::LastVersion);
        };
        Ok(self.draft.with(alloc, number, entries)?)
    }

    // What there is of its own timetable, once it has one.
    pub(crate) fn earlier(&self) -> Option<Earlier<'_>>
        ensures { IfSome result (IsRightEarlier self.now.settings) }
    {
        let solution = self.solution.as_ref()?;
        Some(Earlier {
            timetable: self.draft.timetable(),
            solution,
        })
    }

    // The next version, over these entries more.
    fn followed<R: Threads + Sync>(
        &self,
        rt: &R,
        alloc: Global,
        entries: &[Entry],
    ) -> Result<Version, VersionFault>
        ensures ok { IfOk result (IsNext self.now entries.now) }
        ensures right { IfOk result IsRight }
        ensures fault { IfErr result (IsNextFault self.now (self.now.entries ++ entries.now)) }
    {
        let draft = self.draft(alloc, entries)?;
        let earlier = self.earlier();
        let (settings, timetable) = (draft.settings(), draft.timetable());
        let solution = find_solution(rt, alloc, settings, timetable, earlier.as_ref())?;
        Ok(Version::of(draft, solution))
    }

    /// Reoptimizes: the next version, of its entries and these. `LastVersion` at the greatest number,
    /// `TooManyDuties` exactly where all entries come to more than 200,000 legal duties, or
    /// `Memory`; these entries then come back.
    pub fn next<R: Threads + Sync>(
        &self,
        rt: &R,
        alloc: Global,
        entries: Vec<Entry>,
    ) -> Result<Version, (Vec<Entry>, VersionFault)>
        ensures ok { IfOk result (IsNext self.now entries.items) }
        ensures right { IfOk result IsRight }
        ensures kept { IfErr result (λ failed. failed.0 ≡ entries) }
        ensures fault { IfErr result (λ failed. IsNextFault self.now
            (self.now.entries ++ entries.items) failed.1) }
    {
        match self.followed(rt, alloc, &entries) {
            Ok(version) => Ok(version),
            Err(fault) => Err((entries, fault)),
        }
    }
}
