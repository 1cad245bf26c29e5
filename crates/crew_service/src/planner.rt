//! The one who settles.
//!
//! Receipts are what shows that an entry is the log's, so the planner keeps one for each entry that
//! it has read, and makes the list of entries anew for each round: some 40 bytes an entry. What the
//! log showed is read before the round is begun, so as the round is sealed no growth is left to be
//! made but one further owner of its version.
ghost use Rattle.std.specs.Prelude.{◌≡◌, ◌<◌, ◌↔◌, ◌++◌, ◌∷◌, [], IfErr, IfOk, IsTrue, OnErr, OnOk, Some, length, slice_get};
ghost use Rattle.std.specs.Arc.{arc_value};
ghost use mathlib.Core.List.{IsPrefix};
ghost use Rattle.crew_log.specs.Logs.{AreOf, HaveNone, IsOf, IsRun};
ghost use Rattle.crew_publish.specs.Chain.{IsNext};
ghost use Rattle.crew_publish.specs.declared.fault.PairFault.TheVariants.{NoViewer};
ghost use Rattle.crew_service.specs.Next.{IsNextOver};
ghost use Rattle.crew_service.specs.Faults.{IsSettleFault};
ghost use Rattle.crew_service.specs.Machinery.Kept.{HasRead, HasShown};
ghost use Rattle.crew_service.specs.Machinery.Rounds.{IsRoundFault};
ghost use Rattle.crew_service.specs.Plans.{AreBelow, HasPublishedNothing, HasSettled, entries_of};
ghost use Rattle.crew_service.specs.declared.fault.SettleFault.TheVariants.{Memory};

use crate::attempt::next_over;
use crate::fault::SettleFault;
use crate::gate::Gate;
use crate::shared::Shared;
use crew_board::crew_version::Version;
use crew_flights::Entry;
use crew_log::{Log, Receipt};
use crew_publish::{Note, PairFault, PublishFault, Publisher, Viewer};
use std::alloc::{AllocError, Global};
use std::marker::Model;
use std::snapshot::Snapshot;
use std::sync::{Arc, Wait};
use std::thread::Threads;

/// The one who settles: it reoptimizes over what the log shows, and publishes the versions. It keeps its
/// last version, and a receipt for each entry that it has read.
///
/// A contract sees its log, its version, its receipts, and the list of what it has published. The
/// receipts are of its log, for the places from 0 on with no gap, and the version's entries are the
/// first of theirs.
pub struct Planner<'a, R: Wait, G: Gate> {
    rt: &'a R,
    of: Snapshot<Log>,
    version: Arc<Version, Global>,
    receipts: Vec<Receipt>,
    publisher: Publisher<&'a R>,
    gate: G,
}

impl<'a, R: Wait, G: Gate + Drop> Drop for Planner<'a, R, G> {
    fn drop(self) {
        let Self {
            rt: _,
            of: _,
            version: _,
            receipts: _,
            publisher: _,
            gate: _,
        } = self;
    }
}

impl<'a, R: Wait, G: Gate> Model for Planner<'a, R, G> {
    ghost use Rattle.crew_service.specs.Machinery.Kept.{IsPlanning};
    ghost use Rattle.crew_service.specs.Plans.{Planning};

    ghost Value = { Planning };

    ghost view = { λ p. record {
      log = p.of.value;
      version = p.version.value;
      receipts = p.receipts.items;
      published = p.publisher.list;
    } };

    ghost invariant = { λ p. IsPlanning (record {
      log = p.of.value;
      version = p.version.value;
      receipts = p.receipts.items;
      published = p.publisher.list;
    }) };
}

impl<'a, R: Wait, G: Gate> Planner<'a, R, G> {
    // A planner over a log, before any entry, whose publisher has published its version.
    pub(crate) fn new(
        rt: &'a R,
        alloc: Global,
        log: &Log,
        version: Arc<Version, Global>,
        publisher: Publisher<&'a R>,
        gate: G,
    ) -> Self
        requires opening { (arc_value version).entries ≡ [] }
        requires published { publisher.list ≡ arc_value version ∷ [] }
        ensures { result ≡ record {
          log = log.now;
          version = arc_value version;
          receipts = [];
          published = arc_value version ∷ [];
        } }
    {
        let _right = version.number();
        let _checked = version.settings();
        Planner {
            rt,
            of: Snapshot::of(log),
            version,
            receipts: Vec::new(alloc),
            publisher,
            gate,
        }
    }

    /// The version that it has made last, published or not.
    pub fn version(&self) -> &Version
        ensures { result.now ≡ self.now.version }
    {
        &self.version
    }

    /// A fresh viewer, which has seen all that was published. `NoViewer` where there is no place for one
    /// more.
    pub fn viewer(&mut self) -> Result<Viewer, PairFault>
        ensures told { IfOk result (λ w. w.seen ≡ self.old.published) }
        ensures fault { IfErr result (λ fault. fault ≡ NoViewer) }
        ensures same { self.new ≡ self.old }
    {
        self.publisher.viewer()
    }

    /// A receipt below the version's count has the entry that the version has at its place.
    pub fn agrees(&self, shared: &Shared, receipt: &Receipt)
        requires own { self.now.log ≡ shared.now }
        requires of { IsOf shared.now receipt.now }
        requires below { receipt.now.index < length self.now.version.entries }
        ensures { slice_get self.now.version.entries receipt.now.index ≡ Some receipt.now.value }
    {
        let place = receipt.place();
        let own = &self.receipts[place];
        shared.log().agree(own, receipt);
    }

    /// Makes the next version, over all entries of the log that it has read then, and publishes it.
    /// The version has an entry at the place of each of these receipts. What it has read then are
    /// receipts of its log, for the places from 0 on with no gap. It takes part in the work, and waits
    /// for what is out.
    ///
    /// `Gap` with the first place that isn't shown, where no receipt has that place and one has a
    /// greater one: what a receipt shows counts as shown. Else
    /// `LastVersion` only where its version has the greatest number. Else `TooManyDuties` only where
    /// what it has read comes to more than 200,000 legal duties. Or `Memory`, which may stand in the
    /// place of each of these. Nothing is published then, and its version is as it was, with its
    /// number: the next settle goes on from that.
    ///
    /// The work is done by the threads of `rt`, and by the workers; the planner waits by its own
    /// handle.
    pub fn settle<S: Threads + Sync>(
        &mut self,
        rt: &S,
        alloc: Global,
        shared: &Shared,
        receipts: &[Receipt],
    ) -> Result<Note<&'a R>, SettleFault>
        requires own { self.old.log ≡ shared.now }
        requires of { AreOf shared.now receipts.now }
        ensures ok { OnOk result (HasSettled self.old receipts.now self.new) }
        ensures own { OnOk result (AreOf self.new.log self.new.receipts
            × IsRun 0 self.new.receipts) }
        ensures note { IfOk result (λ note. (note.version ≡ self.new.version)
            × (note.number ≡ self.new.version.number)
            × (note.count ≡ length self.new.version.entries) × (note.list ≡ self.new.published)) }
        ensures fault { IfErr result (IsSettleFault self.old receipts.now self.new) }
        ensures err { OnErr result (HasPublishedNothing self.old self.new) }
    {
        self.read_up_to(alloc, shared, receipts)?;
        let version = self.make_next(rt, alloc, shared)?;
        self.publish(version)
    }

    // Reads the log on, past each place of these receipts where no place below it is missing.
    fn read_up_to(
        &mut self,
        alloc: Global,
        shared: &Shared,
        receipts: &[Receipt],
    ) -> Result<(), SettleFault>
        requires own { self.old.log ≡ shared.now }
        requires of { AreOf shared.now receipts.now }
        ensures read { HasRead self.old self.new }
        ensures ok { OnOk result (AreBelow (length self.new.receipts) receipts.now) }
        ensures fault { IfErr result (IsSettleFault self.old receipts.now self.new) }
    {
        self.read(alloc, shared, receipts)?;
        let end = self.receipts.len();
        if !are_below(end, receipts) {
            return Err(SettleFault::Gap(end));
        }
        Ok(())
    }

    // Reads on from where it has read to. It ends at no place of these receipts.
    fn read(
        &mut self,
        alloc: Global,
        shared: &Shared,
        receipts: &[Receipt],
    ) -> Result<(), AllocError>
        requires own { self.old.log ≡ shared.now }
        requires of { AreOf shared.now receipts.now }
        ensures read { HasRead self.old self.new }
        ensures end { OnOk result (HaveNone receipts.now (length self.new.receipts)) }
    {
        let from = self.receipts.len();
        let mut more = shared.log().read_past(alloc, from, receipts)?;
        self.receipts.append(&mut more)?;
        Ok(())
    }

    // The entries that it has read.
    fn entries(&self, alloc: Global, shared: &Shared) -> Result<Vec<Entry>, AllocError>
        requires own { self.now.log ≡ shared.now }
        ensures entries { IfOk result (λ entries. entries.items ≡ entries_of self.now.receipts) }
        ensures begins { IsPrefix self.now.version.entries (entries_of self.now.receipts) }
    {
        entries_in(alloc, shared.log(), &self.receipts)
    }

    // Makes the version after its own, over all that it has read. Where it is refused no round is
    // open.
    fn make_next<S: Threads + Sync>(
        &mut self,
        rt: &S,
        alloc: Global,
        shared: &Shared,
    ) -> Result<Arc<Version, Global>, SettleFault>
        requires own { self.old.log ≡ shared.now }
        ensures ok { IfOk result (λ next.
            IsNextOver self.old.version (entries_of self.old.receipts) (arc_value next)) }
        ensures fault { IfErr result
            (IsRoundFault self.old.version (entries_of self.old.receipts)) }
        ensures same { self.new ≡ self.old }
    {
        let entries = self.entries(alloc, shared)?;
        let rt = (self.rt, rt);
        next_over(rt, alloc, shared, &mut self.gate, &self.version, &entries)
    }

    // Publishes the next version, which is its own from then on.
    fn publish(&mut self, version: Arc<Version, Global>) -> Result<Note<&'a R>, SettleFault>
        requires { IsNextOver self.old.version (entries_of self.old.receipts) (arc_value version) }
        ensures ok { OnOk result (HasShown self.old (arc_value version) self.new) }
        ensures own { OnOk result (AreOf self.new.log self.new.receipts
            × IsRun 0 self.new.receipts) }
        ensures note { IfOk result (λ note. (note.version ≡ self.new.version)
            × (note.number ≡ self.new.version.number)
            × (note.count ≡ length self.new.version.entries) × (note.list ≡ self.new.published)) }
        ensures fault { IfErr result (λ fault. fault ≡ Memory) }
        ensures err { OnErr result (self.new ≡ self.old) }
    {
        let shared = Arc::try_clone(&version)?;
        let Ok(note) = add(&mut self.publisher, shared) else {
            return Err(SettleFault::Memory);
        };
        self.version = version;
        Ok(note)
    }
}

// Publishes a version that follows what was published last.
fn add<R: Wait + Drop>(
    publisher: &mut Publisher<R>,
    version: Arc<Version, Global>,
) -> Result<Note<R>, AllocError>
    requires { IsNext publisher.old.list (arc_value version) }
    ensures ok { OnOk result (publisher.new.list ≡ publisher.old.list ++ arc_value version ∷ []) }
    ensures note { IfOk result (λ note. (note.version ≡ arc_value version)
        × (note.number ≡ (arc_value version).number)
        × (note.count ≡ length (arc_value version).entries) × (note.list ≡ publisher.new.list)) }
    ensures err { OnErr result (publisher.new ≡ publisher.old) }
{
    match publisher.publish(version) {
        Ok(note) => Ok(note),
        Err(PublishFault::Memory) => Err(AllocError),
        Err(PublishFault::NotNext) => unreachable!(),
    }
}

// The entries of some receipts, in order.
fn entries_in(alloc: Global, log: &Log, receipts: &[Receipt]) -> Result<Vec<Entry>, AllocError>
    requires { AreOf log.now receipts.now }
    ensures { IfOk result (λ entries. entries.items ≡ entries_of receipts.now) }
{
    let mut entries = Vec::with_capacity(alloc, receipts.len())?;
    for receipt in receipts {
        let Entry { seat, number, edit } = *receipt.entry(log);
        entries.push(Entry { seat, number, edit })?;
    }
    Ok(entries)
}

// Whether each of these receipts' places is below an end.
fn are_below(end: usize, receipts: &[Receipt]) -> bool
    ensures { IsTrue result ↔ AreBelow end receipts.now }
{
    receipts.iter().all(|receipt| receipt.place() < end)
}
