//! The publisher, and the pair.
ghost use Rattle.std.specs.Prelude.{◌≡◌, ◌∷◌, [], ◌++◌, All, IfErr, IfOk, OnErr, OnOk, IsTrue, ◌↔◌, drop, length};
ghost use Rattle.std.specs.Arc.{arc_value};
ghost use Rattle.left_right.specs.Sides.{view};
ghost use Rattle.crew_publish.specs.Chain.{Ends, Follows, IsNext};
ghost use Rattle.crew_resource.specs.Chains.{IsChain};
ghost use Rattle.crew_publish.specs.Faults.{IsPairFault, IsPublishFault, IsViewerCount};
ghost use Rattle.crew_publish.specs.Machinery.Rule.{IsHeld, list_of, seen_by};
ghost use Rattle.crew_publish.specs.declared.fault.PairFault.TheVariants.{NoViewer};

use crate::fault::{PairFault, PublishFault};
use crate::follow::follows;
use crate::note::Note;
use crate::shown::{Adds, Briefing, Opens, Pen, Shown};
use crate::viewer::Viewer;
use core::mem::replace_with;
use crew_version::Version;
use std::alloc::{AllocError, Global};
use std::marker::Model;
use std::sync::{Arc, Wait};

// Viewers that may be there at once: those of a pair, and as many fresh ones.
const PLACES: usize = 128;

// Publishes a version that follows the one shown.
fn show_next<R: Wait>(rt: &R, pen: Pen, version: Arc<Version>) -> (Pen, Result<(), AllocError>)
    requires follows { Follows (arc_value pen.desk.shown.value.version) (arc_value version) }
    requires held { IsHeld (view pen.desk.place) pen.desk.shown.value }
    ensures ok { IfOk result.1 (λ _. list_of (view result.0.desk.place)
        (arc_value result.0.desk.shown.value.version)
        ≡ list_of (view pen.desk.place) (arc_value pen.desk.shown.value.version)
        ++ arc_value version ∷ []) }
    ensures shown { IfOk result.1 (λ _. arc_value result.0.desk.shown.value.version
        ≡ arc_value version) }
    ensures told { IfOk result.1 (λ _. view result.0.desk.place
        ≡ list_of (view result.0.desk.place) (arc_value result.0.desk.shown.value.version) ∷ []) }
    ensures held { IsHeld (view result.0.desk.place) result.0.desk.shown.value }
    ensures same { OnErr result.1 ((view result.0.desk.place ≡ view pen.desk.place)
        × (result.0.desk.shown.value ≡ pen.desk.shown.value)) }
{
    let mut pen = pen;
    let Ok(()) = pen.append(version) else {
        return (pen, Err(AllocError));
    };
    let (pen, done) = pen.publish_as::<Adds, R>(rt);
    let Ok(()) = done else {
        return (pen, Err(AllocError));
    };
    (pen, Ok(()))
}

/// The one who publishes. It keeps its runtime, since its end waits for viewers that look right
/// then.
///
/// A contract sees the list of what was published, which is a chain.
pub struct Publisher<R: Wait + Drop> {
    pen: Pen,
    rt: R,
}

impl<R: Wait + Drop> Drop for Publisher<R> {
    fn drop(self) {
        let Self { pen, rt } = self;
        drop(pen.take(&rt));
    }
}

impl<R: Wait + Drop> Model for Publisher<R> {
    ghost use Rattle.std.specs.Prelude.{◌≡◌, ◌∷◌, []};
    ghost use Rattle.std.specs.Arc.{arc_value};
    ghost use Rattle.left_right.specs.Sides.{view as seat_view};
    ghost use Rattle.crew_publish.specs.Machinery.Rule.{list_of, IsHeld};
    ghost use Rattle.crew_publish.specs.Views.{Published};

    ghost Value = { Published };

    ghost view = { λ p. record {
      list = list_of (seat_view p.pen.desk.place) (arc_value p.pen.desk.shown.value.version);
    } };

    ghost invariant = { λ p. IsHeld (seat_view p.pen.desk.place) p.pen.desk.shown.value
        × (seat_view p.pen.desk.place ≡ list_of (seat_view p.pen.desk.place)
        (arc_value p.pen.desk.shown.value.version) ∷ []) };
}

impl<R: Wait + Drop> Publisher<R> {
    /// The version that was published last.
    pub fn last(&self) -> &Version
        ensures last { Ends self.now.list result.now }
        ensures chain { IsChain Follows self.now.list }
    {
        &self.pen.published().version
    }

    // Publishes a version that follows the last one.
    fn add(&mut self, version: Arc<Version>) -> Result<(), AllocError>
        requires next { IsNext self.old.list (arc_value version) }
        ensures ok { OnOk result (self.new.list ≡ self.old.list ++ arc_value version ∷ []) }
        ensures same { OnErr result (self.new ≡ self.old) }
    {
        replace_with(&mut self.pen, (&self.rt, version), |pen, (rt, version)| {
            show_next(rt, pen, version)
        })
    }

    /// Publishes a version, and gives a note of it. `NotNext` exactly where the version doesn't
    /// follow the last one: its number isn't greater, or its entries don't begin with those of the
    /// last one; or `Memory`. After either the version handed in is dropped, and the publisher is
    /// as it was. It may wait for viewers that look right then.
    pub fn publish(&mut self, version: Arc<Version>) -> Result<Note<R>, PublishFault>
        ensures added { OnOk result (self.new.list ≡ self.old.list ++ arc_value version ∷ []) }
        ensures note { IfOk result (λ n. (n.list ≡ self.new.list) × (n.version ≡ arc_value version)
            × (n.number ≡ (arc_value version).number)
            × (n.count ≡ length (arc_value version).entries)) }
        ensures next { OnOk result (IsNext self.old.list (arc_value version)) }
        ensures fault { IfErr result (IsPublishFault self.old.list (arc_value version)) }
        ensures same { OnErr result (self.new ≡ self.old) }
        ensures chain { IsChain Follows self.new.list }
    {
        if !follows(self.last(), &version) {
            return Err(PublishFault::NotNext);
        }
        let told = Arc::try_clone(&version)?;
        self.add(version)?;
        Ok(Note::of(self, told))
    }

    /// A fresh viewer, which has seen all that was published. `NoViewer` where there is no place
    /// for one more.
    pub fn viewer(&mut self) -> Result<Viewer, PairFault>
        ensures told { IfOk result (λ w. w.seen ≡ self.old.list) }
        ensures fault { IfErr result (λ fault. fault ≡ NoViewer) }
        ensures same { self.new ≡ self.old }
    {
        match viewer(&mut self.pen) {
            Ok(viewer) => Ok(viewer),
            Err(_) => Err(PairFault::NoViewer),
        }
    }
}

// Shows the first version once more, so that the writer's seat knows it.
fn open<R: Wait>(rt: &R, pen: Pen) -> (Pen, Result<(), AllocError>)
    requires idle { drop pen.behind pen.log.items ≡ [] }
    requires held { IsHeld (view pen.desk.place) pen.desk.shown.value }
    ensures ok { IfOk result.1 (λ _. view result.0.desk.place
        ≡ list_of (view pen.desk.place) (arc_value pen.desk.shown.value.version) ∷ []) }
    ensures held { IsHeld (view result.0.desk.place) result.0.desk.shown.value }
    ensures list { list_of (view result.0.desk.place)
        (arc_value result.0.desk.shown.value.version)
        ≡ list_of (view pen.desk.place) (arc_value pen.desk.shown.value.version) }
{
    let (pen, done) = pen.publish_as::<Opens, R>(rt);
    let Ok(()) = done else {
        return (pen, Err(AllocError));
    };
    (pen, Ok(()))
}

// A viewer that was told all that the writer's seat knows.
fn viewer(pen: &mut Pen) -> Result<Viewer, AllocError>
    ensures told { IfOk result (λ w. w.seen ≡ seen_by (view pen.old.desk.place ++ [])) }
    ensures kept { (view pen.new.desk.place ≡ view pen.old.desk.place)
        × (pen.new.desk.shown ≡ pen.old.desk.shown) }
{
    let mut seat = pen.factory().reader()?;
    seat.learn::<Briefing>(pen.tell::<Briefing>());
    Ok(Viewer::over(seat))
}

// Whether a pair may have so many viewers.
fn is_viewer_count(viewers: usize) -> bool
    ensures { IsTrue result ↔ IsViewerCount viewers }
{
    0 < viewers && viewers <= 64
}

// A writer that shows this version, whose seat knows it.
fn writer<R: Wait>(rt: &R, alloc: Global, first: Arc<Version>) -> Result<Pen, AllocError>
    ensures held { IfOk result (λ p. IsHeld (view p.desk.place) p.desk.shown.value) }
    ensures list { IfOk result (λ p. list_of (view p.desk.place)
        (arc_value p.desk.shown.value.version) ≡ arc_value first ∷ []) }
    ensures told { IfOk result (λ p. view p.desk.place ≡ (arc_value first ∷ []) ∷ []) }
{
    let second = Arc::try_clone(&first)?;
    let one = Shown {
        version: first,
        opening: true,
    };
    let other = Shown {
        version: second,
        opening: true,
    };
    let pen = Pen::new(alloc, one, other, PLACES)?;
    let (pen, done) = open(rt, pen);
    let Ok(()) = done else {
        pen.take(rt);
        return Err(AllocError);
    };
    Ok(pen)
}

/// A publisher that shows this version, and from 1 to 64 viewers that have seen it. `NoViewer`
/// exactly where none or more are asked for, and else `Memory`. There is room for all of them, so
/// that one finds no place comes of want of memory too. It may wait.
pub fn pair<R: Wait + Drop>(
    rt: R,
    alloc: Global,
    first: Arc<Version>,
    viewers: usize,
) -> Result<(Publisher<R>, Vec<Viewer>), PairFault>
    ensures count { OnOk result (IsViewerCount viewers) }
    ensures list { IfOk result (λ p. p.0.list ≡ arc_value first ∷ []) }
    ensures viewers { IfOk result (λ p. length p.1.items ≡ viewers) }
    ensures told { IfOk result (λ p. All (λ w. w.seen ≡ arc_value first ∷ []) p.1.items) }
    ensures fault { IfErr result (IsPairFault viewers) }
{
    if !is_viewer_count(viewers) {
        return Err(PairFault::NoViewer);
    }
    match pair_of(rt, alloc, first, viewers) {
        Ok(made) => Ok(made),
        Err(_) => Err(PairFault::Memory),
    }
}

// A publisher that shows this version, and so many viewers that have seen it.
fn pair_of<R: Wait + Drop>(
    rt: R,
    alloc: Global,
    first: Arc<Version>,
    viewers: usize,
) -> Result<(Publisher<R>, Vec<Viewer>), AllocError>
    ensures list { IfOk result (λ p. p.0.list ≡ arc_value first ∷ []) }
    ensures viewers { IfOk result (λ p. length p.1.items ≡ viewers) }
    ensures told { IfOk result (λ p. All (λ w. w.seen ≡ arc_value first ∷ []) p.1.items) }
{
    let mut made = Vec::with_capacity(alloc, viewers)?;
    let pen = writer(&rt, alloc, first)?;
    let mut publisher = Publisher { pen, rt };
    fill(&mut publisher, &mut made, viewers)?;
    Ok((publisher, made))
}

// Makes so many viewers, for which there is room.
fn fill<R: Wait + Drop>(
    publisher: &mut Publisher<R>,
    made: &mut Vec<Viewer>,
    viewers: usize,
) -> Result<(), AllocError>
    requires { made.old.items ≡ [] }
    ensures same { publisher.new ≡ publisher.old }
    ensures count { OnOk result (length made.new.items ≡ viewers) }
    ensures told { All (λ w. w.seen ≡ publisher.old.list) made.new.items }
{
    for _ in 0..viewers {
        let Ok(viewer) = publisher.viewer() else {
            return Err(AllocError);
        };
        made.push(viewer)?;
    }
    Ok(())
}
