//! The engine over a running service.

ghost use Rattle.std.specs.Prelude.{◌≡◌, ◌⊎◌, ◌↔◌, ◌+◌, [], Err, IfErr, IfOk, IsTrue, Ok, OnErr, OnOk, Some, length, slice_get};
ghost use mathlib.Core.List.{IsPrefix};
ghost use Rattle.crew_log.specs.Logs.{AreOf, unused_seat};
ghost use Rattle.crew_publish.specs.Chain.{Extends};
ghost use Rattle.crew_rules.specs.Settings.{IsChecked};
ghost use Rattle.crew_service.specs.Plans.{entries_of, new_planner};
ghost use Rattle.crew_serve.specs.Machinery.Threads.{seen_by};
ghost use Rattle.crew_session.specs.Oddities.{IsToldBy, IsWhole, nothing_made};
ghost use Rattle.crew_session.specs.declared.engine_fault.EngineFault.TheVariants.{NoView, Memory, OtherLog};
ghost use Rattle.crew_version.specs.Versions.{IsRight, opening};

use crate::faults::{of_settle, of_view};
use crew_flights::{Edit, Entry};
use crew_log::{Log, Receipt, Seat};
use crew_publish::{Note, View, ViewFault, Viewer};
use crew_rules::Settings;
use crew_service::{Gate, Planner, Shared};
use crew_session::{Engine, EngineFault};
use crew_version::{Version, is_same_entry};
use std::alloc::Global;
use std::marker::Model;
use std::snapshot::Snapshot;
use std::sync::Wait;
use std::thread::Threads;

// The most edits that an engine takes.
const EDITS: u32 = 1_000_000;

// How a settle ended.
#[derive(Drop)]
pub(crate) enum Last {
    // What it found is shown.
    Shown,
    // It was refused.
    Refused(EngineFault),
    // It found another version than the next one of all edits.
    Other(View),
}

// The version that is shown.
#[derive(Drop)]
pub(crate) enum Sight {
    // The one before any entry.
    Opening(Version),
    // One that was published.
    Published(View),
}

impl Sight {
    fn version(&self) -> &Version
        ensures { result.now ≡ seen_by self.now }
    {
        match self {
            Sight::Opening(version) => version,
            Sight::Published(view) => view.version(),
        }
    }
}

/// The engine over a running service: an edit goes to the log by a seat, a settle is the planner's,
/// in which workers take part, and what is shown is a viewer's view of what was published. The log
/// may have entries of others: a settle believes only a version that is the next one of all edits
/// that the engine took. It keeps a view, taken at each settle, and waits by a handle of its own.
///
/// A contract sees the log, the entries that it took, the version that it shows, what its planner has
/// made and read, and what its last settle found: the planner's own refusal, `NoView` where that has
/// published the next version and the viewer can't see it, or the version that is seen.
pub struct Threaded<'s, 'a, R: Wait, G: Gate> {
    rt: &'a R,
    shared: &'s Shared,
    planner: Planner<'a, R, G>,
    seat: Seat,
    viewer: Viewer,
    sight: Sight,
    receipts: Vec<Receipt>,
    // The planner before the last settle.
    asked: Snapshot<Planner<'a, R, G>>,
    last: Last,
}

impl<'s, 'a, R: Wait, G: Gate + Drop> Drop for Threaded<'s, 'a, R, G> {
    fn drop(self) {
        let Self {
            rt: _,
            shared: _,
            planner: _,
            seat: _,
            viewer: _,
            sight: _,
            receipts: _,
            asked: _,
            last: _,
        } = self;
    }
}

impl<'s, 'a, R: Wait, G: Gate> Model for Threaded<'s, 'a, R, G> {
    ghost use Rattle.crew_service.specs.Plans.{entries_of};
    ghost use Rattle.crew_serve.specs.Machinery.Threads.{IsThreaded, Threading, made_by, places_of, seen_by, what_by};

    ghost Value = { Threading };

    ghost view = { λ e. record {
      log = e.shared.now;
      entries = entries_of e.receipts.items;
      shown = seen_by e.sight;
      made = made_by e.planner;
      found = record {
        before = made_by e.asked.value;
        after = made_by e.planner;
        places = places_of e.receipts.items;
        what = what_by e.last (seen_by e.sight);
      };
    } };

    ghost invariant = { λ e. IsThreaded e.shared.now e.planner e.seat e.receipts.items };
}

// Whether two settings are equal.
fn are_same(one: &Settings, other: &Settings) -> bool
    ensures { IsTrue result ↔ (one.now ≡ other.now) }
{
    one == other
}

// Whether a version is the one after another, under the same settings.
fn is_after(before: &Version, after: &Version) -> bool
    ensures next { IsTrue result ↔ (after.now.number ≡ before.now.number + 1)
        × (after.now.settings ≡ before.now.settings) }
    ensures right { IsRight after.now }
{
    let (first, next) = (before.number(), after.number());
    next > first && next - first == 1 && are_same(after.settings(), before.settings())
}

// Whether a version has this entry at a place.
fn is_at(version: &Version, place: usize, entry: &Entry) -> bool
    ensures { IsTrue result ↔ (slice_get version.now.entries place ≡ Some entry.now) }
{
    match version.entry(place) {
        Some(found) => is_same_entry(&found, entry),
        None => false,
    }
}

// Whether the entries of a version are those of these receipts.
fn has_entries(version: &Version, log: &Log, receipts: &[Receipt]) -> bool
    requires { AreOf log.now receipts.now }
    ensures { IsTrue result ↔ (version.now.entries ≡ entries_of receipts.now) }
{
    if version.count() != receipts.len() {
        return false;
    }
    for place in 0..receipts.len() {
        if !is_at(version, place, receipts[place].entry(log)) {
            return false;
        }
    }
    true
}

// Whether a version is the one after another, of the entries of these receipts.
fn is_whole(before: &Version, after: &Version, log: &Log, receipts: &[Receipt]) -> bool
    requires { AreOf log.now receipts.now }
    ensures whole { IsTrue result ↔ IsWhole before.now (entries_of receipts.now) after.now }
    ensures right { IsRight after.now }
{
    is_after(before, after) && has_entries(after, log, receipts)
}

// What a viewer sees that learns of a note first.
fn see<R: Wait + Drop>(viewer: &mut Viewer, note: &Note<R>) -> Result<View, ViewFault>
    ensures { IfOk result (λ view. Extends note.now.version view.version) }
{
    viewer.learn(note)?;
    viewer.view()
}

// The same, and why there is no view, as an engine says it.
fn look<R: Wait + Drop>(viewer: &mut Viewer, note: &Note<R>) -> Result<View, EngineFault>
    ensures told { IfOk result (λ view. Extends note.now.version view.version) }
    ensures fault { IfErr result (λ fault. (fault ≡ NoView) ⊎ (fault ≡ Memory)) }
{
    match see(viewer, note) {
        Ok(view) => Ok(view),
        Err(fault) => Err(of_view(fault)),
    }
}

impl<'s, 'a, R: Wait, G: Gate + Drop> Threaded<'s, 'a, R, G> {
    /// An engine over a new service under these settings, of which these are the planner, the first
    /// seat and a viewer. It shows the version before any entry.
    pub fn new(
        rt: &'a R,
        alloc: Global,
        shared: &'s Shared,
        parts: (Planner<'a, R, G>, Seat, Viewer),
        settings: &Settings,
    ) -> Self
        requires checked { IsChecked settings.now }
        requires planner { parts.0 ≡ new_planner settings.now shared.now }
        requires seat { parts.1 ≡ unused_seat 0 }
        ensures entries { result.entries ≡ [] }
        ensures shown { result.shown ≡ opening settings.now }
        ensures made { result.made ≡ nothing_made (opening settings.now) }
    {
        let (planner, seat, viewer) = parts;
        let asked = Snapshot::of(&planner);
        Threaded {
            rt,
            shared,
            planner,
            seat,
            viewer,
            sight: Sight::Opening(Version::opening(alloc, settings)),
            receipts: Vec::new(alloc),
            asked,
            last: Last::Shown,
        }
    }

    // What the viewer sees of the planner's next version.
    fn next_view<S: Threads + Sync>(&mut self, rt: &S) -> Result<View, EngineFault>
        ensures keeps { (self.new.entries ≡ self.old.entries) × (self.new.shown ≡ self.old.shown) }
        ensures found { self.new.found ≡ record {
          before = self.old.made;
          after = self.new.made;
          places = self.old.found.places;
          what = self.old.found.what;
        } }
        ensures many { length self.old.found.places ≡ length self.old.entries }
        ensures reads { IsPrefix self.old.made.read self.new.made.read }
        ensures told { IfOk result (λ view. IsToldBy self.old.made self.new.made
            self.old.found.places (Ok view.version)) }
        ensures fault { IfErr result (λ fault. IsToldBy self.old.made self.new.made
            self.old.found.places (Err fault)) }
    {
        let alloc = *self.receipts.allocator();
        self.asked = Snapshot::of(&self.planner);
        match self.planner.settle(rt, alloc, self.shared, &self.receipts) {
            Ok(note) => look(&mut self.viewer, &note),
            Err(fault) => Err(of_settle(fault)),
        }
    }

    // Shows a view, where it is of the next version of all edits.
    fn show(&mut self, view: View) -> Result<(), EngineFault>
        ensures keeps { (self.new.entries ≡ self.old.entries) × (self.new.made ≡ self.old.made) }
        ensures found { self.new.found ≡ record self.old.found { what = Ok view.version } }
        ensures whole { OnOk result (IsWhole self.old.shown self.old.entries self.new.shown) }
        ensures right { OnOk result (IsRight self.new.shown) }
        ensures shown { OnOk result (self.new.shown ≡ view.version) }
        ensures err { OnErr result (self.new.shown ≡ self.old.shown) }
        ensures other { IfErr result (λ fault. (fault ≡ OtherLog)
            × ¬ (IsWhole self.old.shown self.old.entries view.version)) }
    {
        let (before, after) = (self.sight.version(), view.version());
        if !is_whole(before, after, self.shared.log(), &self.receipts) {
            self.last = Last::Other(view);
            return Err(EngineFault::OtherLog);
        }
        self.sight = Sight::Published(view);
        self.last = Last::Shown;
        Ok(())
    }

    // Refuses a settle.
    fn refuse(&mut self, fault: EngineFault) -> Result<(), EngineFault>
        ensures answer { result ≡ Err fault }
        ensures noted { self.new ≡ record self.old { found = record self.old.found { what = Err fault } } }
    {
        self.last = Last::Refused(fault);
        Err(fault)
    }
}

impl<'s, 'a, R: Wait, G: Gate + Drop> Engine for Threaded<'s, 'a, R, G> {
    ghost use Rattle.std.specs.Prelude.{true};

    ghost entries = { λ e. e.entries };

    ghost shown = { λ e. e.shown };

    ghost MAY_BE_STRANGE = { true };

    ghost made = { λ e. e.made };

    ghost found = { λ e. e.found };

    fn may_be_strange(&self) -> bool {
        true
    }

    fn submit(&mut self, edit: Edit) -> Result<(), (Edit, EngineFault)> {
        if self.seat.made() >= EDITS {
            return Err((edit, EngineFault::SeatFull));
        }
        let Ok(()) = self.receipts.reserve(1) else {
            return Err((edit, EngineFault::Memory));
        };
        match self.seat.submit(self.rt, self.shared.log(), edit) {
            Ok(receipt) => {
                self.receipts.push_reserved(receipt);
                Ok(())
            }
            Err((edit, _)) => Err((edit, EngineFault::Memory)),
        }
    }

    fn settle<S: Threads + Sync>(&mut self, rt: &S) -> Result<(), EngineFault> {
        match self.next_view(rt) {
            Ok(view) => self.show(view),
            Err(fault) => self.refuse(fault),
        }
    }

    fn version(&self) -> &Version {
        self.sight.version()
    }
}
