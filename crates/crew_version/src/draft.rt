//! Drafts of versions.

ghost use Rattle.std.specs.Prelude.{◌≡◌, ◌++◌, IfErr, IfOk, OnOk, length, slice_get};
ghost use Rattle.crew_pairing.specs.Duties.{HasFew};
ghost use Rattle.crew_rules.specs.Settings.{IsChecked};
ghost use Rattle.crew_plan.specs.Plans.{IsPlanOf};
ghost use Rattle.crew_version.specs.Drafts.{IsSolutionOf, blank, closed};
ghost use Rattle.crew_version.specs.Faults.{IsSearchFault};
ghost use Rattle.crew_version.specs.Machinery.Kept.{FoldsOn};
ghost use Rattle.crew_version.specs.Versions.{IsRight, timetable_of, verdicts_of};

use crate::chunks::Chunks;
use crate::fault::VersionFault;
use crate::search::plan_of;
use crate::version::Version;
use crew_flights::{Entry, Folding, Timetable, Verdict};
use crew_plan::{Plan, Solution};
use crew_rules::Settings;
use std::alloc::{AllocError, Global};
use std::marker::Model;
use std::sync::Arc;
use std::thread::Threads;

/// What a version's entries and some more come to, before their fronts are made.
///
/// A contract sees its number, settings and entries. Its verdicts and timetable are those of its
/// entries.
pub struct Draft {
    number: u64,
    settings: Settings,
    entries: Chunks<Entry>,
    verdicts: Chunks<Verdict>,
    fold: Folding,
}

impl Drop for Draft {
    fn drop(self) {
        let Self {
            number: _,
            settings: _,
            entries: _,
            verdicts: _,
            fold: _,
        } = self;
    }
}

impl Model for Draft {
    ghost use Rattle.crew_version.specs.Drafts as Spec;
    ghost use Rattle.crew_version.specs.Machinery.Kept.{IsDrafted};

    ghost Value = { Spec.Draft };

    ghost view = { λ d. record {
      number = d.number;
      settings = d.settings;
      entries = d.entries;
    } };

    ghost invariant = { λ d. IsDrafted d.settings d.entries d.verdicts d.fold };
}

// The fold gone on with these entries, and their verdicts.
fn fold_on(
    alloc: Global,
    fold: &Folding,
    entries: &[Entry],
) -> Result<(Folding, Vec<Verdict>), AllocError>
    ensures { IfOk result (FoldsOn fold.now entries.now) }
{
    let mut fold = fold.copy(alloc)?;
    let mut verdicts = Vec::with_capacity(alloc, entries.len())?;
    for entry in entries {
        verdicts.push(fold.take(entry)?)?;
    }
    Ok((fold, verdicts))
}

impl Draft {
    // What no entry comes to.
    pub(crate) fn blank(alloc: Global, settings: &Settings) -> Self
        requires { IsChecked settings.now }
        ensures { result ≡ blank settings.now }
    {
        Draft {
            number: 0,
            settings: *settings,
            entries: Chunks::new(alloc),
            verdicts: Chunks::new(alloc),
            fold: Folding::new(alloc),
        }
    }

    /// The number.
    pub fn number(&self) -> u64
        ensures { result ≡ self.now.number }
    {
        self.number
    }

    /// The settings.
    pub fn settings(&self) -> &Settings
        ensures value { result.now ≡ self.now.settings }
        ensures checked { IsChecked self.now.settings }
    {
        &self.settings
    }

    /// How many entries there are.
    pub fn count(&self) -> usize
        ensures { result ≡ length self.now.entries }
    {
        self.entries.len()
    }

    /// The entry at a place, if there is one.
    pub fn entry(&self, place: usize) -> Option<Entry>
        ensures { result ≡ slice_get self.now.entries place }
    {
        self.entries.get(place)
    }

    // The verdict on the entry at a place, if there is one.
    pub(crate) fn verdict(&self, place: usize) -> Option<Verdict>
        ensures { result ≡ slice_get (verdicts_of self.now.entries) place }
    {
        self.verdicts.get(place)
    }

    /// Its timetable.
    pub fn timetable(&self) -> &Timetable
        ensures { result.now ≡ timetable_of self.now.entries }
    {
        self.fold.timetable()
    }

    // The timetable that its entries come to with these entries more.
    pub(crate) fn timetable_with(
        &self,
        alloc: Global,
        entries: &[Entry],
    ) -> Result<Timetable, AllocError>
        ensures { IfOk result
            (λ timetable. timetable ≡ timetable_of (self.now.entries ++ entries.now)) }
    {
        let (fold, _) = fold_on(alloc, &self.fold, entries)?;
        Ok(fold.into_timetable())
    }

    // The draft under another number that has these entries more.
    pub(crate) fn with(
        &self,
        alloc: Global,
        number: u64,
        entries: &[Entry],
    ) -> Result<Draft, AllocError>
        ensures { IfOk result (λ draft. draft ≡ record {
          number = number;
          settings = self.now.settings;
          entries = self.now.entries ++ entries.now;
        }) }
    {
        let (fold, verdicts) = fold_on(alloc, &self.fold, entries)?;
        Ok(Draft {
            number,
            settings: self.settings,
            entries: self.entries.with(alloc, entries)?,
            verdicts: self.verdicts.with(alloc, &verdicts)?,
            fold,
        })
    }

    // An equal draft, which shares what this one holds.
    pub(crate) fn copy(&self, alloc: Global) -> Result<Draft, AllocError>
        ensures same { IfOk result (λ draft. draft ≡ self.now) }
        ensures checked { IsChecked self.now.settings }
    {
        Ok(Draft {
            number: self.number,
            settings: self.settings,
            entries: self.entries.copy(alloc)?,
            verdicts: self.verdicts.copy(alloc)?,
            fold: self.fold.copy(alloc)?,
        })
    }

    /// What is to be made for its timetable, warm from an earlier version under the same settings.
    /// `TooManyDuties` only where there are more than 200,000 legal duties, or `Memory`.
    pub fn plan<R: Threads + Sync>(
        &self,
        rt: &R,
        alloc: Global,
        earlier: &Version,
    ) -> Result<Plan, VersionFault>
        requires { earlier.now.settings ≡ self.now.settings }
        ensures plan { IfOk result (IsPlanOf self.now.settings (timetable_of self.now.entries)) }
        ensures few { OnOk result (HasFew self.now.settings (timetable_of self.now.entries)) }
        ensures fault { IfErr result
            (IsSearchFault self.now.settings (timetable_of self.now.entries)) }
    {
        let earlier = earlier.earlier();
        plan_of(
            rt,
            alloc,
            &self.settings,
            self.fold.timetable(),
            earlier.as_ref(),
        )
    }

    /// The version, given all fronts and the best pairing of its timetable. It shares what the draft
    /// holds.
    pub fn close(&self, alloc: Global, solution: Solution) -> Result<Version, AllocError>
        requires few { HasFew self.now.settings (timetable_of self.now.entries) }
        requires solution { IsSolutionOf self.now.settings (timetable_of self.now.entries)
            solution }
        ensures version { IfOk result (λ version. version ≡ closed self.now solution) }
        ensures right { IfOk result IsRight }
    {
        let solution = Arc::new(alloc, solution)?;
        Ok(Version::of(self.copy(alloc)?, solution))
    }
}
