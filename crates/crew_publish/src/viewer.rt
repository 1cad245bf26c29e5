//! A viewer, which sees the chain go on and never back.
ghost use Rattle.std.specs.Prelude.{◌≡◌, ◌∷◌, ◌++◌, IfOk, OnOk, OnErr};
ghost use mathlib.Core.List.{IsPrefix};
ghost use Rattle.std.specs.Arc.{arc_value};
ghost use Rattle.left_right.specs.Sides.{view};
ghost use Rattle.crew_publish.specs.Chain.{Ends, Extends, Follows};
ghost use Rattle.crew_resource.specs.Chains.{IsChain};
ghost use Rattle.crew_publish.specs.Machinery.Rule.{AllBegin, seen_by};
ghost use Rattle.crew_publish.specs.Views.{IsMet, IsViewOf};

use crate::fault::ViewFault;
use crate::follow::extends;
use crate::note::Note;
use crate::shown::{Seat, Sees};
use core::mem::replace_with;
use crew_version::Version;
use std::marker::Model;
use std::snapshot::Snapshot;
use std::sync::{Arc, Wait};

// Looks once, and waits for nobody.
fn look(seat: Seat) -> (Seat, Result<Arc<Version>, ViewFault>)
    ensures ok { IfOk result.1 (λ a. (l : _) × (view result.0.place ≡ l ∷ view seat.place)
        × IsChain Follows l × Ends l (arc_value a) × AllBegin (view seat.place) l) }
    ensures grows { (more : _) × (view result.0.place ≡ more ++ view seat.place) }
{
    match seat.enter_as::<Sees>() {
        Err(seat) => (seat, Err(ViewFault::NoView)),
        Ok(reading) => {
            let got = Arc::try_clone(&reading.get().version);
            let seat = reading.leave();
            match got {
                Ok(version) => (seat, Ok(version)),
                Err(_) => (seat, Err(ViewFault::Memory)),
            }
        }
    }
}

// As `look`, in place.
fn look_at(seat: &mut Seat) -> Result<Arc<Version>, ViewFault>
    ensures ok { IfOk result (λ a. (l : _) × (view seat.new.place ≡ l ∷ view seat.old.place)
        × IsChain Follows l × Ends l (arc_value a) × AllBegin (view seat.old.place) l) }
    ensures grows { (more : _) × (view seat.new.place ≡ more ++ view seat.old.place) }
{
    replace_with(seat, (), |seat, _| look(seat))
}

/// A version that was published. It stays as it is, and holds nobody up.
///
/// A contract sees the version, and the published list that it ends, which is a chain.
pub struct View {
    version: Arc<Version>,
    viewer: Snapshot<Viewer>,
}

impl Drop for View {
    fn drop(self) {
        let Self {
            version: _,
            viewer: _,
        } = self;
    }
}

impl Model for View {
    ghost use Rattle.std.specs.Arc.{arc_value};
    ghost use Rattle.crew_publish.specs.Views.{Viewed, IsViewOf};

    ghost Value = { Viewed };

    ghost view = { λ v. record {
      version = arc_value v.version;
      list = v.viewer.value.seen;
    } };

    ghost invariant = { λ v. IsViewOf v.viewer.value.seen (arc_value v.version) };
}

impl View {
    // A version with the list that a viewer saw last.
    fn of(viewer: &Viewer, version: Arc<Version>) -> View
        requires { IsViewOf viewer.now.seen (arc_value version) }
        ensures { (result.version ≡ arc_value version) × (result.list ≡ viewer.now.seen) }
    {
        View {
            version,
            viewer: Snapshot::of(viewer),
        }
    }

    /// The version, which the list of the view ends with.
    pub fn version(&self) -> &Version
        ensures value { result.now ≡ self.now.version }
        ensures last { IsViewOf self.now.list self.now.version }
    {
        &self.version
    }
}

/// One who sees what is published. A refused call leaves it as it was.
///
/// A contract sees the published list that it saw last.
pub struct Viewer {
    seat: Seat,
    taken: Snapshot<Seat>,
}

impl Drop for Viewer {
    fn drop(self) {
        let Self { seat: _, taken: _ } = self;
    }
}

impl Model for Viewer {
    ghost use Rattle.std.specs.Prelude.{◌≡◌, ◌++◌};
    ghost use Rattle.left_right.specs.Sides.{view as seat_view};
    ghost use Rattle.crew_publish.specs.Machinery.Rule.{seen_by};
    ghost use Rattle.crew_publish.specs.Views.{Watching};

    ghost Value = { Watching };

    ghost view = { λ w. record { seen = seen_by (seat_view w.taken.value.place) } };

    ghost invariant = { λ w. (more : _)
        × (seat_view w.seat.place ≡ more ++ seat_view w.taken.value.place) };
}

impl Viewer {
    // A viewer that knows what a seat knows.
    pub(crate) fn over(seat: Seat) -> Viewer
        ensures { result.seen ≡ seen_by (view seat.place) }
    {
        let taken = Snapshot::of(&seat);
        Viewer { seat, taken }
    }

    // Looks once, and knows no more for it.
    fn peek(&mut self) -> Result<Arc<Version>, ViewFault>
        ensures ok { IfOk result (λ a. (list : _) × IsPrefix self.old.seen list
            × IsViewOf list (arc_value a)) }
        ensures same { self.new ≡ self.old }
    {
        look_at(&mut self.seat)
    }

    // Looks once, and knows what it saw.
    fn see(&mut self) -> Result<Arc<Version>, ViewFault>
        ensures ok { IfOk result (λ a. IsPrefix self.old.seen self.new.seen
            × IsViewOf self.new.seen (arc_value a)) }
        ensures err { OnErr result (self.new ≡ self.old) }
    {
        let version = look_at(&mut self.seat)?;
        self.taken = Snapshot::of(&self.seat);
        Ok(version)
    }

    // The same, where what is shown extends a version.
    fn see_past(&mut self, told: &Version) -> Result<Arc<Version>, ViewFault>
        ensures ok { IfOk result (λ a. IsPrefix self.old.seen self.new.seen
            × IsViewOf self.new.seen (arc_value a) × Extends told.now (arc_value a)) }
        ensures err { OnErr result (self.new ≡ self.old) }
    {
        let version = look_at(&mut self.seat)?;
        if !extends(told, &version) {
            return Err(ViewFault::NoView);
        }
        self.taken = Snapshot::of(&self.seat);
        Ok(version)
    }

    /// The version that is shown. It waits for nobody. `NoView` where the version can't be read, or
    /// `Memory`.
    pub fn view(&mut self) -> Result<View, ViewFault>
        ensures chain { IfOk result (λ v. IsPrefix self.old.seen v.list
            × (self.new.seen ≡ v.list)) }
        ensures last { IfOk result (λ v. IsViewOf v.list v.version) }
        ensures told { IfOk result (λ v. (told : _) → IsMet self.old told
            → Extends told v.version) }
        ensures err { OnErr result (self.new ≡ self.old) }
    {
        let version = self.see()?;
        Ok(View::of(self, version))
    }

    /// From now on each view extends the version that this note tells of: it is that version by
    /// number and entries, or it follows it. `NoView` where what is shown doesn't extend it, as may be
    /// with a note of another pair, or can't be read, or `Memory`: then this viewer is as it was, and
    /// may learn of the note again. It waits for nobody.
    pub fn learn<R: Wait + Drop>(&mut self, note: &Note<R>) -> Result<(), ViewFault>
        ensures told { OnOk result (IsMet self.new note.now.version) }
        ensures kept { (told : _) → IsMet self.old told → IsMet self.new told }
        ensures seen { IsPrefix self.old.seen self.new.seen }
        ensures err { OnErr result (self.new ≡ self.old) }
    {
        self.see_past(note.version())?;
        Ok(())
    }

    /// Goes on as a fresh viewer, from the list that this one knows, where what that one is shown
    /// extends what this one is shown. `NoView` where it doesn't, as may be with a viewer of another
    /// pair, or where what is shown can't be read, or `Memory`. Then this one is as it was, and the
    /// fresh one is let go.
    pub fn go_on_as(&mut self, fresh: Viewer) -> Result<(), ViewFault>
        ensures seen { OnOk result (IsPrefix fresh.seen self.new.seen) }
        ensures kept { (told : _) → IsMet self.old told → IsMet self.new told }
        ensures err { OnErr result (self.new ≡ self.old) }
    {
        let mut fresh = fresh;
        let shown = self.peek()?;
        fresh.see_past(&shown)?;
        *self = fresh;
        Ok(())
    }
}
