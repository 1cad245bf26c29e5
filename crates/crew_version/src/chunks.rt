//! Lists that share their items.
ghost use Rattle.std.specs.Prelude.{◌≡◌, ◌≤◌, ◌+◌, ◌++◌, ◌∷◌, [], IfOk, length, map, slice_get, vec_capacity, vec_len};
ghost use Rattle.std.specs.Arc.{arc_value};
ghost use Rattle.crew_version.specs.Machinery.Chunks.{all_of};

use std::alloc::{AllocError, Global};
use std::marker::Model;
use std::sync::Arc;

/// A list that longer lists share. Its items stand in chunks, and each longer list takes in those
/// last chunks that hold no more than what comes after them, so there are few: an item is copied
/// once for each doubling of its chunk at most.
///
/// A contract sees the list.
#[derive(Drop)]
pub(crate) struct Chunks<T> {
    chunks: Vec<Arc<Vec<T>, Global>>,
    len: usize,
}

impl<T> Model for Chunks<T> {
    ghost use Rattle.std.specs.Prelude.{◌≡◌, List, length, map};
    ghost use Rattle.crew_version.specs.Machinery.Chunks.{all_of};

    ghost Value = { List T };

    ghost view = { λ c. all_of (map (λ a. a.value) c.chunks.items) };

    ghost invariant = { λ c. c.len ≡ length (all_of (map (λ a. a.value) c.chunks.items)) };
}

// How many chunks stay before those that join with so many items more, and how many items these
// come to with them.
fn joining<T: Drop>(chunks: &[Arc<Vec<T>, Global>], more: usize) -> (usize, usize)
    ensures { result.0 ≤ length chunks.now }
{
    let mut stay = chunks.len();
    let mut count = more;
    while stay > 0 && chunks[stay - 1].len() <= count {
        stay -= 1;
        count = count.saturating_add(chunks[stay].len());
    }
    (stay, count)
}

// Owners of the same chunks, with room for one more.
fn shared<T: Drop>(
    alloc: Global,
    chunks: &[Arc<Vec<T>, Global>],
) -> Result<Vec<Arc<Vec<T>, Global>>, AllocError>
    ensures same { IfOk result (λ all. all_of (map arc_value all.items) ≡ all_of (map arc_value chunks.now)) }
    ensures room { IfOk result (λ all. vec_len all + 1 ≤ vec_capacity all) }
{
    let mut all = Vec::with_capacity(alloc, chunks.len() + 1)?;
    for chunk in chunks {
        all.push(Arc::try_clone(chunk)?)?;
    }
    all.reserve(1)?;
    Ok(all)
}

// The items of some chunks, and then others; they come to so many.
fn joined<T: Copy + Drop>(
    alloc: Global,
    chunks: &[Arc<Vec<T>, Global>],
    more: &[T],
    count: usize,
) -> Result<Vec<T>, AllocError>
    ensures { IfOk result (λ all. all.items ≡ all_of (map arc_value chunks.now) ++ more.now) }
{
    let mut all = Vec::with_capacity(alloc, count)?;
    for chunk in chunks {
        all.extend_from_slice(chunk)?;
    }
    all.extend_from_slice(more)?;
    Ok(all)
}

// Appends a chunk for which there is room.
fn append<T: Drop>(chunks: &mut Vec<Arc<Vec<T>, Global>>, chunk: Arc<Vec<T>, Global>)
    requires { vec_len chunks.old + 1 ≤ vec_capacity chunks.old }
    ensures { all_of (map arc_value chunks.new.items) ≡ all_of (map arc_value chunks.old.items) ++ (arc_value chunk).items }
{
    match chunks.push(chunk) {
        Ok(()) => {}
        Err(_) => unreachable!(),
    }
}

// The item at a place among those of some chunks.
fn item_at<T: Copy + Drop>(chunks: &[Arc<Vec<T>, Global>], place: usize) -> Option<T>
    ensures { result ≡ slice_get (all_of (map arc_value chunks.now)) place }
{
    let mut left = place;
    for chunk in chunks {
        if left < chunk.len() {
            return Some(chunk[left]);
        }
        left -= chunk.len();
    }
    None
}

impl<T: Drop> Chunks<T> {
    /// No items.
    pub(crate) fn new(alloc: Global) -> Chunks<T>
        ensures { result ≡ [] }
    {
        Chunks {
            chunks: Vec::new(alloc),
            len: 0,
        }
    }

    /// How many items there are.
    pub(crate) fn len(&self) -> usize
        ensures { result ≡ length self.now }
    {
        self.len
    }

    /// An equal list, which shares its items.
    pub(crate) fn copy(&self, alloc: Global) -> Result<Chunks<T>, AllocError>
        ensures { IfOk result (λ copy. copy ≡ self.now) }
    {
        let chunks = shared(alloc, &self.chunks)?;
        Ok(Chunks {
            chunks,
            len: self.len,
        })
    }
}

impl<T: Copy + Drop> Chunks<T> {
    /// The item at a place, if there is one.
    pub(crate) fn get(&self, place: usize) -> Option<T>
        ensures { result ≡ slice_get self.now place }
    {
        item_at(&self.chunks, place)
    }

    /// These items and then others.
    pub(crate) fn with(&self, alloc: Global, items: &[T]) -> Result<Chunks<T>, AllocError>
        ensures { IfOk result (λ longer. longer ≡ self.now ++ items.now) }
    {
        let Some(len) = self.len.checked_add(items.len()) else {
            return Err(AllocError);
        };
        let (stay, count) = joining(&self.chunks, items.len());
        let (staying, ending) = self.chunks.split_at(stay);
        let mut chunks = shared(alloc, staying)?;
        let last = joined(alloc, ending, items, count)?;
        append(&mut chunks, Arc::new(alloc, last)?);
        Ok(Chunks { chunks, len })
    }
}
