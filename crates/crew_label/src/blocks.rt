//! Blocks of entries: labels' marks, and their places.
ghost use Rattle.std.specs.Prelude.{◌≡◌, true, ℕ, IfOk, OnOk};
ghost use Rattle.crew_resource.specs.Members.{Member};
ghost use Rattle.crew_label.specs.Machinery.Indexes.{IsHeld, IsPlaced, entries_from};
ghost use Rattle.crew_label.specs.Machinery.Marks.{are_at_most};
ghost use Rattle.crew_label.specs.declared.blocks.Block.{Block};
ghost use Rattle.crew_label.specs.declared.blocks.Entry.{Entry};

use crate::marks::lesser;
use crate::seen::{Seen, seen_at};
use std::alloc::{AllocError, Global};

/// A label's marks, and its place.
#[derive(Clone, Copy)]
pub(crate) struct Entry {
    pub(crate) marks: [i32; 16],
    pub(crate) place: usize,
}

/// Some entries, and marks that are at most those of each.
#[derive(Drop)]
pub(crate) struct Block {
    pub(crate) least: [i32; 16],
    pub(crate) entries: Vec<Entry>,
}

// Puts the entry of what is seen at a place at the end of some.
#[inline]
fn push_entry<V>(
    entries: &mut Vec<Entry>,
    list: &[Seen<'_, V>],
    place: usize,
) -> Result<(), AllocError>
    ensures has { OnOk result ((e : Entry) → Member (entries_from (λ s. s.marks.now) 0 list.now) e
        → e.place ≡ place → Member entries.new.items e) }
    ensures stays { OnOk result ((e : Entry) → Member entries.old.items e
        → Member entries.new.items e) }
{
    let Some(seen) = seen_at(list, place) else {
        return Ok(());
    };
    let marks = *seen.marks;
    entries.push(Entry { marks, place })?;
    Ok(())
}

// The entries at some places.
fn entries_at<V>(
    alloc: Global,
    list: &[Seen<'_, V>],
    places: &[usize],
) -> Result<Vec<Entry>, AllocError>
    ensures { IfOk result (λ entries. (e : Entry)
        → Member (entries_from (λ s. s.marks.now) 0 list.now) e → Member places.now e.place
        → Member entries.items e) }
{
    let mut entries = Vec::with_capacity(alloc, places.len())?;
    for place in places {
        push_entry(&mut entries, list, *place)?;
    }
    Ok(entries)
}

// The least marks of some entries.
fn least_of(entries: &[Entry]) -> [i32; 16]
    ensures { (e : Entry) → Member entries.now e → are_at_most result e.marks ≡ true }
{
    let mut least = [i32::MAX; 16];
    for entry in entries {
        least = lesser(&least, &entry.marks);
    }
    least
}

// Puts the entries at some places into one block.
fn push_block<V>(
    alloc: Global,
    blocks: &mut Vec<Block>,
    list: &[Seen<'_, V>],
    places: &[usize],
) -> Result<(), AllocError>
    ensures held { OnOk result ((e : Entry) → Member (entries_from (λ s. s.marks.now) 0 list.now) e
        → Member places.now e.place → IsHeld blocks.new.items e) }
    ensures stays { OnOk result ((e : Entry) → IsHeld blocks.old.items e
        → IsHeld blocks.new.items e) }
{
    let entries = entries_at(alloc, list, places)?;
    let least = least_of(&entries);
    blocks.push(Block { least, entries })?;
    Ok(())
}

/// A block of each part's entries.
pub(crate) fn blocks_of<V>(
    alloc: Global,
    list: &[Seen<'_, V>],
    parts: &[Vec<usize>],
) -> Result<Vec<Block>, AllocError>
    ensures { IfOk result (λ blocks. (e : Entry)
        → Member (entries_from (λ s. s.marks.now) 0 list.now) e → IsPlaced parts.now e.place
        → IsHeld blocks.items e) }
{
    let mut blocks = Vec::with_capacity(alloc, parts.len())?;
    for part in parts {
        push_block(alloc, &mut blocks, list, part)?;
    }
    Ok(blocks)
}

/// The least marks of some blocks.
pub(crate) fn least_of_blocks(blocks: &[Block]) -> [i32; 16]
    ensures { (b : Block) → Member blocks.now b → are_at_most result b.least ≡ true }
{
    let mut least = [i32::MAX; 16];
    for block in blocks {
        least = lesser(&least, &block.least);
    }
    least
}
