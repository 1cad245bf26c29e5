//! Numbers that are taken.
//!
//! A number is a key of a slab. A duty that two networks have keeps its key in a copy of the slab,
//! and one that is new takes a vacant key, which of several no contract says. Only then are the keys
//! of duties that went away left vacant, so that nothing new in the same step has them. The numbers
//! before stay as they are, also where memory runs out midway. A slab promises that a new key was
//! vacant, and no bound: so each new key is tested against the most duties that two networks have,
//! and one that isn't below counts as want of memory.
ghost use Rattle.std.specs.Prelude.{◌≡◌, ◌≢◌, ◌≤◌, ◌<◌, ◌⊎◌, ℕ, IfOk, None, Some, length, replicate, slice_get};
ghost use Rattle.std.specs.Arc.{arc_value};
ghost use Rattle.slab.specs.Slab.{ContainsKey, SameValues, Updates, get};
ghost use Rattle.crew_numbers.specs.Machinery.Taken.{AreDistinct, AreFresh, AreKept, AreNumbered, AreTaken, Keep};

use slab::Slab;
use std::alloc::{AllocError, Global};
use std::sync::Arc;

// What a number that no duty has tells in place of a rank.
const NONE: u32 = 4_294_967_295;

/// By rank the number of a duty, by number the rank of the duty that has it, and the numbers as
/// keys of a slab.
#[derive(Drop)]
pub(crate) struct Taken {
    pub(crate) numbers: Arc<Vec<u32>, Global>,
    pub(crate) ranks: Arc<Vec<u32>, Global>,
    pub(crate) keys: Slab<()>,
}

/// A copy of a slab, with the same keys.
pub(crate) fn copied(keys: &Slab<()>) -> Result<Slab<()>, AllocError>
    ensures { IfOk result (λ copy. SameValues keys.now copy) }
{
    keys.clone()
}

// For so many duties, that none keeps a number.
fn none_kept(alloc: Global, count: usize) -> Result<Vec<Option<u32>>, AllocError>
    ensures { IfOk result (λ kept. kept.items ≡ replicate count None) }
{
    let mut kept = Vec::with_capacity(alloc, count)?;
    for _ in 0..count {
        kept.push(None)?;
    }
    Ok(kept)
}

// Takes a vacant key. The code of `slab` gives out none from 400,000 on while fewer keys are taken,
// but its contract doesn't say so.
fn take(keys: &mut Slab<()>) -> Result<u32, AllocError>
    ensures few { IfOk result (λ number. number < 400_000) }
    ensures vacant { IfOk result (λ number. get keys.old number ≡ None) }
    ensures updates { IfOk result (λ number. Updates keys.old keys.new number (Some tt)) }
{
    keys.reserve(1)?;
    let key = keys.insert_reserved(());
    if key < 400_000 {
        return Ok(key as u32);
    }
    Err(AllocError)
}

// By rank the number of each duty: that which it keeps, and else a vacant key.
fn take_all(
    alloc: Global,
    keys: &mut Slab<()>,
    kept: &[Option<u32>],
) -> Result<Vec<u32>, AllocError>
    requires kept { AreKept kept.now keys.old }
    requires few { (n : ℕ) → ContainsKey keys.old n → n < 400_000 }
    ensures { IfOk result (λ numbers. AreTaken kept.now keys.old (length kept.now) numbers.items
        keys.new) }
{
    let mut numbers = Vec::with_capacity(alloc, kept.len())?;
    for rank in 0..kept.len() {
        let number = match kept[rank] {
            Some(number) => number,
            None => take(keys)?,
        };
        numbers.push(number)?;
    }
    Ok(numbers)
}

// A count above some numbers, which is no less than another count.
fn end_of(numbers: &[u32], least: usize) -> usize
    requires least { least ≤ 400_000 }
    requires few { (i n : ℕ) → slice_get numbers.now i ≡ Some n → n < 400_000 }
    ensures least { least ≤ result }
    ensures few { result ≤ 400_000 }
    ensures above { (i n : ℕ) → slice_get numbers.now i ≡ Some n → n < result }
{
    let mut end = least;
    for number in numbers {
        end = end.max(*number as usize + 1);
    }
    end
}

// By number the rank of the duty that has it.
fn ranks_of(alloc: Global, numbers: &[u32], end: usize) -> Result<Vec<u32>, AllocError>
    requires apart { AreDistinct numbers.now }
    requires few { length numbers.now ≤ 200_000 }
    requires below { (i n : ℕ) → slice_get numbers.now i ≡ Some n → n < end }
    ensures long { IfOk result (λ ranks. length ranks.items ≡ end) }
    ensures told { IfOk result (λ ranks. (i n : ℕ) → slice_get numbers.now i ≡ Some n
        → slice_get ranks.items n ≡ Some i) }
    ensures own { IfOk result (λ ranks. (i n : ℕ) → slice_get ranks.items n ≡ Some i
        → (slice_get numbers.now i ≡ Some n) ⊎ (i ≡ 4_294_967_295)) }
{
    let mut ranks = vec![in alloc; NONE; end]?;
    for rank in 0..numbers.len() {
        ranks[numbers[rank] as usize] = rank as u32;
    }
    Ok(ranks)
}

// Leaves a key vacant that tells no rank.
fn leave(keys: &mut Slab<()>, number: usize, rank: u32)
    ensures vacant { rank ≡ 4_294_967_295 → Updates keys.old keys.new number None }
    ensures stays { rank ≢ 4_294_967_295 → keys.new ≡ keys.old }
{
    if rank == NONE {
        keys.try_remove(number);
    }
}

// Leaves the keys vacant that tell no rank.
//
// It goes from the highest key down, so that the slab gives out the lowest of them first.
fn leave_all(keys: &mut Slab<()>, ranks: &[u32])
    ensures vacant { (n : ℕ) → slice_get ranks.now n ≡ Some 4_294_967_295
        → get keys.new n ≡ None }
    ensures stay { (n : ℕ) → (slice_get ranks.now n ≡ Some 4_294_967_295 → ⊥)
        → get keys.new n ≡ get keys.old n }
{
    for number in (0..ranks.len()).rev() {
        leave(keys, number, ranks[number]);
    }
}

/// Numbers of duties, of which some keep a key of a slab: each of the others takes one that is
/// vacant, and then the keys that no duty has are left vacant.
pub(crate) fn number(
    alloc: Global,
    mut keys: Slab<()>,
    kept: &[Option<u32>],
    least: usize,
) -> Result<Taken, AllocError>
    requires kept { AreKept kept.now keys }
    requires below { (n : ℕ) → ContainsKey keys n → n < least }
    requires least { least ≤ 400_000 }
    requires few { length kept.now ≤ 200_000 }
    ensures numbered { IfOk result (λ taken. AreNumbered (arc_value taken.numbers).items
        (arc_value taken.ranks).items taken.keys (length kept.now)) }
    ensures keep { IfOk result (λ taken. Keep kept.now (arc_value taken.numbers).items) }
    ensures fresh { IfOk result (λ taken. AreFresh kept.now keys
        (arc_value taken.numbers).items) }
{
    let numbers = take_all(alloc, &mut keys, kept)?;
    let end = end_of(&numbers, least);
    let ranks = ranks_of(alloc, &numbers, end)?;
    leave_all(&mut keys, &ranks);
    let numbers = Arc::new(alloc, numbers)?;
    let ranks = Arc::new(alloc, ranks)?;
    Ok(Taken {
        numbers,
        ranks,
        keys,
    })
}

/// Numbers of so many duties, none of which had one.
pub(crate) fn new_taken(alloc: Global, count: usize) -> Result<Taken, AllocError>
    requires { count ≤ 200_000 }
    ensures { IfOk result (λ taken. AreNumbered (arc_value taken.numbers).items
        (arc_value taken.ranks).items taken.keys count) }
{
    let kept = none_kept(alloc, count)?;
    let keys = Slab::with_capacity(alloc, count)?;
    number(alloc, keys, &kept, 0)
}
