//! Lists of duties.
//!
//! A block for each first flight: an edit changes the duties of few, so the next list takes the
//! blocks of all others as they stand, and so does one at new prices where a block's prices have
//! stayed. Of each duty its block's place is kept, so that a duty is found by its rank at once.

ghost use Rattle.std.specs.Prelude.{◌≡◌, ◌↔◌, ◌≤◌, ◌<◌, ◌+◌, ◌-◌, ◌++◌, [], ℕ, List, IsTrue, IfOk, OnErr, OnOk, Some, length, map, slice_get, replicate, vec_capacity, vec_len};
ghost use Rattle.std.specs.Arc.{arc_value};
ghost use Rattle.crew_pairing.specs.declared.duty.Duty.{Duty};
ghost use Rattle.crew_pairing.specs.Machinery.Blocks.{part_of};

use crate::duty::Duty;
use std::alloc::{AllocError, Global};
use std::marker::Model;
use std::sync::Arc;

// Duties that stand together, and how many stand before them.
#[derive(Drop)]
struct Block {
    start: usize,
    duties: Arc<Vec<Duty>, Global>,
}

/// Duties in order, in blocks. Lists that have a block in common share it.
///
/// A contract sees the list of the duties.
#[derive(Drop)]
pub struct Duties {
    blocks: Vec<Block>,
    // Of each duty, the place of its block.
    places: Vec<u32>,
}

impl Model for Duties {
    ghost use Rattle.std.specs.Prelude.{List};
    ghost use Rattle.crew_pairing.specs.declared.duty.Duty.{Duty};
    ghost use Rattle.crew_pairing.specs.Machinery.Blocks.{all_in, AreLaid};

    ghost Value = { List Duty };

    ghost view = { λ d. all_in d.blocks.items };

    ghost invariant = { λ d. AreLaid d.blocks.items d.places.items };
}

// Adds one place so many times, for which there is room.
fn name(places: &mut Vec<u32>, place: u32, count: usize)
    requires { vec_len places.old + count ≤ vec_capacity places.old }
    ensures { places.new.items ≡ places.old.items ++ replicate count place }
{
    for _ in 0..count {
        places.push_reserved(place);
    }
}

impl Duties {
    /// No duties.
    pub fn new(alloc: Global) -> Duties
        ensures { result ≡ [] }
    {
        Duties {
            blocks: Vec::new(alloc),
            places: Vec::new(alloc),
        }
    }

    /// Makes room for so many more duties in so many more blocks. On want of memory the duties stay as
    /// they are.
    pub fn reserve(&mut self, blocks: usize, duties: usize) -> Result<(), AllocError>
        ensures { self.new ≡ self.old }
    {
        self.blocks.reserve(blocks)?;
        self.places.reserve(duties)?;
        Ok(())
    }

    /// Adds the duties of a block. On want of memory nothing changes.
    pub fn push(&mut self, duties: Arc<Vec<Duty>, Global>) -> Result<(), AllocError>
        requires { length self.old + length (arc_value duties).items ≤ 4_294_967_295 }
        ensures ok { OnOk result (self.new ≡ self.old ++ (arc_value duties).items) }
        ensures err { OnErr result (self.new ≡ self.old) }
    {
        if duties.is_empty() {
            return Ok(());
        }
        self.blocks.reserve(1)?;
        self.places.reserve(duties.len())?;
        let start = self.places.len();
        name(&mut self.places, self.blocks.len() as u32, duties.len());
        self.blocks.push_reserved(Block { start, duties });
        Ok(())
    }

    /// How many there are.
    pub fn len(&self) -> usize
        ensures { result ≡ length self.now }
    {
        self.places.len()
    }

    /// Whether there are none.
    pub fn is_empty(&self) -> bool
        ensures { IsTrue result ↔ (self.now ≡ []) }
    {
        self.places.is_empty()
    }

    /// The duty at a place.
    #[inline]
    pub fn at(&self, place: usize) -> &Duty
        requires { place < length self.now }
        ensures { slice_get self.now place ≡ Some result.now }
    {
        let block = &self.blocks[self.places[place] as usize];
        &block.duties[place - block.start]
    }

    /// The place after the last duty of a duty's block.
    pub fn block_end(&self, place: usize) -> usize
        requires { place < length self.now }
        ensures least { place < result }
        ensures most { result ≤ length self.now }
    {
        let block = &self.blocks[self.places[place] as usize];
        block.start + block.duties.len()
    }

    /// The duties between two places as a block: one of these, where it stands just there, and else a
    /// copy.
    pub fn part(
        &self,
        alloc: Global,
        from: usize,
        to: usize,
    ) -> Result<Arc<Vec<Duty>, Global>, AllocError>
        requires ordered { from ≤ to }
        requires within { to ≤ length self.now }
        ensures { IfOk result (λ block. (arc_value block).items ≡ part_of self.now from to) }
    {
        if from < to {
            let block = &self.blocks[self.places[from] as usize];
            if block.start == from && block.duties.len() == to - from {
                return Arc::try_clone(&block.duties);
            }
        }
        let mut copy = Vec::with_capacity(alloc, to - from)?;
        for place in from..to {
            copy.push(self.at(place).copy())?;
        }
        Ok(Arc::new(alloc, copy)?)
    }
}
