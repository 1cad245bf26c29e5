//! The pools of arrivals.
//!
//! An arrival's pool is made when it is first waited on: by then nothing more arrives, since a rest
//! has ten hours at least. What left last boards first: a shorter duty to the same event is mostly
//! the better one, so what comes later is ruled out at once, where in order of time it would join
//! and go again; half to two fifths of the comparisons are left. Any order gives the same pool. An
//! arrival serves only to be waited on, so nothing boards into it that has no duty to spare.
ghost use Rattle.std.specs.Prelude.{◌≡◌, ◌<◌, ◌≤◌, ℕ, Bool, IfOk, IsPermutation, List, OnOk, Some, [], false, get_or, length, slice_get};
ghost use Rattle.crew_net.specs.Events.{arrives_at};
ghost use Rattle.crew_net.specs.Ranks.{ranks_where};
ghost use Rattle.crew_pairing.specs.declared.events.Arrival.{Arrival};
ghost use Rattle.crew_pairing.specs.declared.vector.PairingVector.{PairingVector};
ghost use Rattle.crew_pool.specs.declared.label_walk.LabelWalk.{LabelWalk};
ghost use Rattle.crew_resource.specs.Members.{Member};
ghost use Rattle.crew_sweep.specs.Machinery.Boardings.{HaveAsGood};
ghost use Rattle.crew_sweep.specs.Machinery.Grounds.{ArePools, IsGround, IsPoolAt, Stay};
ghost use Rattle.crew_sweep.specs.Machinery.Passing.{AreMade, IsArrivalPool, IsMade, IsPassing, IsSealed};
ghost use Rattle.crew_sweep.specs.declared.arrivals.Arrivals.{Arrivals as ArrivalsSpec};

use crate::boardings::without_worse;
use crate::ground::Ground;
use crate::passed::Passed;
use crate::prints::{Prints, print_of};
use crew_anchor::AnchoredResource;
use crew_carry::crew_step::{Pools, arrival_pool};
use crew_net::Window;
use crew_pool::{Pool, Walks, Workspace};
use std::alloc::{AllocError, Global};
use std::cmp::Reverse;

/// The pools of arrivals, each made when it is first waited on: `made` tells which are. `prints` has the
/// numbers also of those that were let go of.
#[derive(Drop)]
pub(crate) struct Arrivals {
    pub(crate) pools: Vec<Pool<AnchoredResource>>,
    pub(crate) made: Vec<bool>,
    pub(crate) prints: Prints,
}

// Ranks, those of the departures at the greatest positions first.
fn last_first(alloc: Global, ranks: &[u32], positions: &[u32]) -> Result<Vec<u32>, AllocError>
    ensures { IfOk result (λ sorted. IsPermutation ranks.now sorted.items) }
{
    let mut sorted = Vec::from_slice(alloc, ranks)?;
    sorted.sort_unstable_by_key(|rank| Reverse(positions.get(*rank as usize)));
    Ok(sorted)
}

// The ranks of the duties that arrive at a place, last departure first, but for those that have one as good.
fn ranks_to_board(alloc: Global, ground: &Ground, place: usize) -> Result<Vec<u32>, AllocError>
    requires ground { IsGround ground.now }
    requires place { place < length ground.now.net.now.arrivals }
    ensures among { IfOk result (λ ranks. (x : Arrival)
        → slice_get ground.now.net.now.arrivals place ≡ Some x → (k : ℕ) → Member ranks.items k
        → Member (ranks_where (arrives_at x) ground.now.net.now.duties) k) }
    ensures as_good { IfOk result (λ ranks. (x : Arrival)
        → slice_get ground.now.net.now.arrivals place ≡ Some x
        → HaveAsGood ground.now.net.now.duties ground.now.positions.now ranks.items
        (ranks_where (arrives_at x) ground.now.net.now.duties)) }
{
    let positions = ground.positions;
    let duties = ground.net.duties();
    let ranks = last_first(alloc, ground.net.arriving(place), positions)?;
    let some = without_worse(alloc, duties, positions, &ranks)?;
    without_worse(alloc, duties, positions, &some)
}

/// The pool of the arrival at a place, from those of the departures so far.
pub(crate) fn arrival_at(
    alloc: Global,
    ground: &Ground,
    place: usize,
    room: &mut Workspace<AnchoredResource>,
    passed: &Passed,
) -> Result<Pool<AnchoredResource>, AllocError>
    requires ground { IsGround ground.now }
    requires pools { (arrivals : ArrivalsSpec) × ArePools ground.now passed.now arrivals }
    requires place { place < length ground.now.net.now.arrivals }
    requires sealed { IsSealed ground.now.net.now (length passed.now.pools) place }
    ensures { IfOk result (IsPoolAt ground.now passed.now place) }
{
    let pools = passed.pools.all();
    arrival_from(alloc, ground, place, room, pools, &passed.walks)
}

/// The same from pools over walks, as a pass leaves them.
pub(crate) fn arrival_from(
    alloc: Global,
    ground: &Ground,
    place: usize,
    room: &mut Workspace<AnchoredResource>,
    pools: &Pools<AnchoredResource>,
    walks: &Walks,
) -> Result<Pool<AnchoredResource>, AllocError>
    requires ground { IsGround ground.now }
    requires pools { (made : List Bool) × (held : List (List (PairingVector × LabelWalk)))
        × IsPassing ground.now.net.now ground.now.base ground.now.resource walks.now pools.now made
        held }
    requires place { place < length ground.now.net.now.arrivals }
    requires sealed { IsSealed ground.now.net.now (length pools.now) place }
    ensures { IfOk result (IsArrivalPool ground.now.net.now ground.now.positions.now
        ground.now.resource walks.now pools.now place) }
{
    let positions = ground.positions;
    let duties = ground.net.duties();
    let ranks = ranks_to_board(alloc, ground, place)?;
    arrival_pool(
        alloc,
        &ground.resource,
        room,
        pools,
        duties,
        positions,
        &ranks,
        walks,
    )
}

impl Arrivals {
    /// So many, of which none is made.
    pub(crate) fn new(alloc: Global, count: usize) -> Result<Arrivals, AllocError>
        ensures pools { IfOk result (λ arrivals. length arrivals.pools.items ≡ count) }
        ensures made { IfOk result (λ arrivals. length arrivals.made.items ≡ count) }
        ensures empty { IfOk result (λ arrivals. (labels : List (PairingVector × LabelWalk))
            → Member arrivals.pools.items labels → labels ≡ []) }
        ensures none { IfOk result (λ arrivals. (place : ℕ) → IsMade arrivals.made.items place
            → ⊥) }
    {
        let mut pools = Vec::with_capacity(alloc, count)?;
        for _ in 0..count {
            pools.push(Pool::new(alloc))?;
        }
        let made = vec![in alloc; false; count]?;
        let prints = Prints::none(alloc, count)?;
        Ok(Arrivals {
            pools,
            made,
            prints,
        })
    }

    /// The numbers of all that were made.
    pub(crate) fn into_prints(self) -> Prints {
        let Arrivals {
            pools: _,
            made: _,
            prints,
        } = self;
        prints
    }

    /// Makes the pools of a window, from those of the departures so far.
    pub(crate) fn make_window(
        &mut self,
        alloc: Global,
        ground: &Ground,
        window: Window,
        room: &mut Workspace<AnchoredResource>,
        passed: &Passed,
    ) -> Result<(), AllocError>
        requires ground { IsGround ground.now }
        requires pools { ArePools ground.now passed.now self.old }
        requires within { window.end ≤ length ground.now.net.now.arrivals }
        requires sealed { (place : ℕ) → window.from ≤ place → place < window.end
            → IsSealed ground.now.net.now (length passed.now.pools) place }
        ensures pools { OnOk result (ArePools ground.now passed.now self.new) }
        ensures stayed { OnOk result (Stay self.old self.new) }
        ensures window { OnOk result (AreMade self.new.made.items window) }
    {
        for place in window.from..window.end {
            self.make(alloc, ground, place, room, passed)?;
        }
        Ok(())
    }

    /// Makes the pool of an arrival, where it isn't made yet.
    pub(crate) fn make(
        &mut self,
        alloc: Global,
        ground: &Ground,
        place: usize,
        room: &mut Workspace<AnchoredResource>,
        passed: &Passed,
    ) -> Result<(), AllocError>
        requires ground { IsGround ground.now }
        requires pools { ArePools ground.now passed.now self.old }
        requires place { place < length ground.now.net.now.arrivals }
        requires sealed { IsSealed ground.now.net.now (length passed.now.pools) place }
        ensures pools { OnOk result (ArePools ground.now passed.now self.new) }
        ensures stayed { OnOk result (Stay self.old self.new) }
        ensures made { OnOk result (IsMade self.new.made.items place) }
    {
        if self.made[place] {
            return Ok(());
        }
        let pool = arrival_at(alloc, ground, place, room, passed)?;
        self.prints.note(place, Some(print_of(&pool)));
        self.pools[place] = pool;
        self.made[place] = true;
        Ok(())
    }
}
