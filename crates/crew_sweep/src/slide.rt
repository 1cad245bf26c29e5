//! The pool of a window that slides over pools in a row.
//!
//! Where a window begins beyond the middle, the stacks are made anew with the middle at its end; so
//! are they where windows were skipped. The pools from each place to the middle are copies of one
//! that grows.
ghost use Rattle.std.specs.Prelude.{◌≡◌, ◌≤◌, ◌<◌, ◌+◌, ◌-◌, ◌++◌, ◌⊎◌, ℕ, IfOk, List, OnOk, [], false, length, map, true};
ghost use Rattle.crew_pairing.specs.declared.vector.PairingVector.{PairingVector};
ghost use Rattle.crew_pool.specs.Apart.{AreApart};
ghost use Rattle.crew_pool.specs.Counted.{AreCounted};
ghost use Rattle.crew_pool.specs.LabelWalks.{IsPoolOf, shown};
ghost use Rattle.crew_pool.specs.Machinery.Meets.{vectors_of};
ghost use Rattle.crew_pool.specs.declared.label_walk.LabelWalk.{LabelWalk};
ghost use Rattle.crew_resource.specs.Members.{Member};
ghost use Rattle.crew_sweep.specs.Machinery.Parts.{AreHeld, AreSuffixes, IsPart};
ghost use Rattle.crew_sweep.specs.Machinery.Sliding.{Covers, IsSliding, IsStacked, Stacks};
ghost use Rattle.crew_vector.specs.Dominance.{is_at_most};

use crew_anchor::{AnchoredResource, AnchoredVector};
use crew_net::Window;
use crew_pool::{GrowingPool, LabelWalk, Pool, Walks, Workspace};
use std::alloc::{AllocError, Global};

/// The pool of a window that slides over pools in a row, kept as two stacks: the pools from each
/// place before the middle up to it, the nearest first, and the pool from the middle to the end.
/// So each pool of the row is merged twice, however wide the windows are.
#[derive(Drop)]
pub(crate) struct Slide {
    middle: usize,
    end: usize,
    before: Vec<Pool<AnchoredResource>>,
    after: GrowingPool<AnchoredResource>,
    window: Window,
    pool: Pool<AnchoredResource>,
}

// Two pools as one, of which the second is told by its labels.
fn joined(
    alloc: Global,
    resource: &AnchoredResource,
    room: &mut Workspace<AnchoredResource>,
    first: &Pool<AnchoredResource>,
    second: &[(AnchoredVector, LabelWalk)],
    walks: &Walks,
) -> Result<Pool<AnchoredResource>, AllocError>
    requires first { AreCounted (λ (v : PairingVector). v.duties) walks.now false first.now }
    requires apart { AreApart is_at_most (vectors_of second.now) }
    requires second { AreCounted (λ (v : PairingVector). v.duties) walks.now false second.now }
    ensures local { IfOk result (λ pool. (candidates : List (PairingVector × List ℕ))
        → IsPoolOf is_at_most candidates (map (shown walks.now) first.now)
        → IsPoolOf is_at_most (candidates ++ map (shown walks.now) second.now)
        (map (shown walks.now) pool)) }
    ensures counts { IfOk result (AreCounted (λ (v : PairingVector). v.duties) walks.now false) }
{
    let mut pool = GrowingPool::begin_with(alloc, resource, room, first)?;
    pool.merge(resource, room, second, walks)?;
    pool.copy_out(alloc, resource, room)
}

// The pools from each place of a window up to its end, and that of no place, the nearest first.
fn suffix_pools(
    alloc: Global,
    resource: &AnchoredResource,
    room: &mut Workspace<AnchoredResource>,
    held: &[Pool<AnchoredResource>],
    window: Window,
    walks: &Walks,
) -> Result<Vec<Pool<AnchoredResource>>, AllocError>
    requires held { AreHeld walks.now held.now }
    requires ordered { window.from ≤ window.end }
    requires within { window.end ≤ length held.now }
    ensures suffixes { IfOk result
        (λ pools. AreSuffixes walks.now held.now window.end pools.items) }
    ensures long { IfOk result (λ pools. length pools.items ≡ window.end - window.from + 1) }
{
    let mut suffixes = Vec::with_capacity(alloc, window.end - window.from + 1)?;
    let mut growing = GrowingPool::begin(alloc, room);
    for nearer in 0..window.end - window.from {
        let labels = Vec::from_slice(alloc, growing.as_slice())?;
        suffixes.push(Pool::from_apart(labels))?;
        let place = window.end - 1 - nearer;
        growing.merge(resource, room, held[place].as_slice(), walks)?;
    }
    suffixes.push(growing.copy_out(alloc, resource, room)?)?;
    Ok(suffixes)
}

impl Slide {
    /// At no window yet.
    pub(crate) fn new(alloc: Global) -> Slide
        ensures sliding { (walks : List (List ℕ)) (held : List (List (PairingVector × LabelWalk)))
            → IsSliding walks held result }
        ensures nowhere { (place : ℕ) → Covers result place → ⊥ }
    {
        Slide {
            middle: 0,
            end: 0,
            before: Vec::new(alloc),
            after: GrowingPool::new(alloc),
            window: Window { from: 0, end: 0 },
            pool: Pool::new(alloc),
        }
    }

    // Whether a window begins where the pools before the middle do, or later, and ends no earlier
    // than the slide does.
    fn reaches(&self, window: Window) -> bool
        ensures first { result ≡ true → window.from ≤ self.now.middle }
        ensures within { result ≡ true
            → self.now.middle - window.from < length self.now.before.items }
        ensures end { result ≡ true → self.now.end ≤ window.end }
    {
        window.from <= self.middle
            && self.middle - window.from < self.before.len()
            && self.end <= window.end
    }

    // Begins anew at a window.
    fn restart_at(
        &mut self,
        alloc: Global,
        resource: &AnchoredResource,
        room: &mut Workspace<AnchoredResource>,
        held: &[Pool<AnchoredResource>],
        window: Window,
        walks: &Walks,
    ) -> Result<(), AllocError>
        requires held { AreHeld walks.now held.now }
        requires ordered { window.from ≤ window.end }
        requires within { window.end ≤ length held.now }
        ensures suffixes { OnOk result
            (AreSuffixes walks.now held.now window.end self.new.before.items) }
        ensures long { OnOk result
            (length self.new.before.items ≡ window.end - window.from + 1) }
        ensures after { OnOk result (self.new.after ≡ []) }
        ensures middle { OnOk result ((self.new.middle ≡ window.end)
            × (self.new.end ≡ window.end)) }
    {
        self.before = suffix_pools(alloc, resource, room, held, window, walks)?;
        self.after.clear();
        self.middle = window.end;
        self.end = window.end;
        Ok(())
    }

    // Begins anew at a window, unless the slide reaches it as it is; then it lets go of the pools
    // from places before the window.
    fn begin_at(
        &mut self,
        alloc: Global,
        resource: &AnchoredResource,
        room: &mut Workspace<AnchoredResource>,
        held: &[Pool<AnchoredResource>],
        window: Window,
        walks: &Walks,
    ) -> Result<(), AllocError>
        requires held { AreHeld walks.now held.now }
        requires ordered { window.from ≤ window.end }
        requires within { window.end ≤ length held.now }
        requires sliding { IsSliding walks.now held.now self.old }
        ensures stacked { OnOk result (IsStacked walks.now held.now self.new) }
        ensures first { OnOk result (window.from ≤ self.new.middle) }
        ensures reach { OnOk result
            (self.new.middle - window.from < length self.new.before.items) }
        ensures end { OnOk result (self.new.end ≤ window.end) }
        ensures covers { OnOk result ((place : ℕ) → Stacks self.new place
            → Stacks self.old place ⊎ ((window.from ≤ place) × (place < window.end))) }
    {
        if self.reaches(window) {
            self.before.truncate(self.middle - window.from + 1);
            return Ok(());
        }
        self.restart_at(alloc, resource, room, held, window, walks)
    }

    // Goes on to an end.
    fn go_on(
        &mut self,
        resource: &AnchoredResource,
        room: &mut Workspace<AnchoredResource>,
        held: &[Pool<AnchoredResource>],
        end: usize,
        walks: &Walks,
    ) -> Result<(), AllocError>
        requires held { AreHeld walks.now held.now }
        requires middle { self.old.middle ≤ self.old.end }
        requires end { self.old.end ≤ end }
        requires within { end ≤ length held.now }
        requires after { IsPart walks.now held.now self.old.middle self.old.end self.old.after }
        ensures after { OnOk result (IsPart walks.now held.now self.old.middle end
            self.new.after) }
        ensures end { OnOk result (self.new.end ≡ end) }
        ensures before { self.new.before ≡ self.old.before }
        ensures middle { self.new.middle ≡ self.old.middle }
    {
        for place in self.end..end {
            self.after
                .merge(resource, room, held[place].as_slice(), walks)?;
        }
        self.end = end;
        Ok(())
    }

    /// Slides to a window.
    pub(crate) fn slide_to(
        &mut self,
        alloc: Global,
        resource: &AnchoredResource,
        room: &mut Workspace<AnchoredResource>,
        held: &[Pool<AnchoredResource>],
        window: Window,
        walks: &Walks,
    ) -> Result<(), AllocError>
        requires held { AreHeld walks.now held.now }
        requires ordered { window.from ≤ window.end }
        requires within { window.end ≤ length held.now }
        requires sliding { IsSliding walks.now held.now self.old }
        ensures sliding { OnOk result (IsSliding walks.now held.now self.new) }
        ensures window { OnOk result (self.new.window ≡ window) }
        ensures covers { OnOk result ((place : ℕ) → Covers self.new place
            → Covers self.old place ⊎ ((window.from ≤ place) × (place < window.end))) }
    {
        if self.window == window {
            return Ok(());
        }
        self.begin_at(alloc, resource, room, held, window, walks)?;
        self.go_on(resource, room, held, window.end, walks)?;
        let first = &self.before[self.middle - window.from];
        self.pool = joined(alloc, resource, room, first, self.after.as_slice(), walks)?;
        self.window = window;
        Ok(())
    }

    /// Whether the pool of a place is in the window, or the stacks have merged it.
    pub(crate) fn covers(&self, place: usize) -> bool
        ensures { result ≡ false → Covers self.now place → ⊥ }
    {
        if self.window.from <= place && place < self.window.end {
            return true;
        }
        if self.middle <= place {
            return place < self.end;
        }
        self.middle - place < self.before.len()
    }

    /// The pool of the window.
    pub(crate) fn pool(&self) -> &Pool<AnchoredResource>
        ensures { result.now ≡ self.now.pool }
    {
        &self.pool
    }
}
