//! Bytes that were read and not yet passed.

ghost use Rattle.std.specs.Prelude.{◌≡◌, ◌+◌, ◌-◌, ◌<◌, ◌≤◌, [], IfOk, List, OnErr, drop, length, slice_range, take, vec_len, ℕ};
ghost use Rattle.std.specs.Io.KnownBytes.{Consumes, IsAtEnd, Keeps};
ghost use Rattle.crew_lines.specs.Known.{ahead};

use crate::fault::ReadFault;
use std::alloc::{AllocError, Global};
use std::io::Read;
use std::marker::Model;

// Room for twice the longest line.
const ROOM: usize = 131_072;

/// Bytes that were read and not yet passed, at most 131,072.
///
/// A contract sees them.
#[derive(Drop)]
pub struct Held {
    bytes: Vec<u8>,
    start: usize,
    end: usize,
}

impl Model for Held {
    ghost use Rattle.std.specs.Prelude.{◌≡◌, ◌≤◌, List, slice_range, vec_len, ℕ};

    ghost Value = { List ℕ };

    ghost view = { λ held. slice_range held.bytes.items held.start held.end };

    ghost invariant = { λ held. (held.start ≤ held.end) × (held.end ≤ vec_len held.bytes)
        × (vec_len held.bytes ≡ 131_072) };
}

impl Held {
    /// None yet, and all the room that there will be.
    pub(crate) fn new(alloc: Global) -> Result<Held, AllocError>
        ensures { IfOk result (λ held. held ≡ []) }
    {
        let mut bytes = Vec::with_capacity(alloc, ROOM)?;
        bytes.resize(ROOM, 0)?;
        Ok(Held {
            bytes,
            start: 0,
            end: 0,
        })
    }

    /// The bytes.
    pub(crate) fn as_slice(&self) -> &[u8]
        ensures { result.now ≡ self.now }
    {
        let (start, end) = (self.start, self.end);
        let all = self.bytes.as_slice();
        &all[start..end]
    }

    /// How many there are.
    pub(crate) fn count(&self) -> usize
        ensures { result ≡ length self.now }
    {
        self.end - self.start
    }

    /// Passes the first ones.
    pub(crate) fn pass(&mut self, count: usize)
        requires { count ≤ length self.old }
        ensures { self.new ≡ drop count self.old }
    {
        self.start += count;
    }

    /// Reads once, and says how many bytes came: none only at the end. Where the reader fails nothing
    /// is lost.
    pub(crate) fn fill<R: Read>(&mut self, reader: &mut R) -> Result<usize, ReadFault>
        requires { length self.old < 65_537 }
        ensures kept { Keeps (ahead R.remaining self.old reader.old)
            (ahead R.remaining self.new reader.new) }
        ensures end { IfOk result (λ count. count ≡ 0 → IsAtEnd (R.remaining reader.new)) }
        ensures none { IfOk result (λ count. count ≡ 0 → self.new ≡ self.old) }
    {
        move_to_front(&mut self.bytes, self.start, self.end);
        let end = self.end - self.start;
        self.start = 0;
        self.end = end;
        let count = read_behind(reader, &mut self.bytes, end)?;
        self.end = end + count;
        Ok(count)
    }
}

// Moves a part to the front.
fn move_to_front(bytes: &mut Vec<u8>, start: usize, end: usize)
    requires ordered { start ≤ end }
    requires in_bounds { end ≤ vec_len bytes.old }
    ensures part { take (end - start) bytes.new.items ≡ slice_range bytes.old.items start end }
    ensures room { vec_len bytes.new ≡ vec_len bytes.old }
{
    bytes.as_mut_slice().copy_within(start..end, 0);
}

// Reads once, behind so many bytes.
fn read_behind<R: Read>(reader: &mut R, bytes: &mut Vec<u8>, end: usize) -> Result<usize, ReadFault>
    requires { end < vec_len bytes.old }
    ensures room { vec_len bytes.new ≡ vec_len bytes.old }
    ensures front { take end bytes.new.items ≡ take end bytes.old.items }
    ensures fits { IfOk result (λ count. end + count ≤ vec_len bytes.new) }
    ensures read { IfOk result (λ count. Consumes (R.remaining reader.old) (R.remaining reader.new)
        (take count (drop end bytes.new.items))) }
    ensures end { IfOk result (λ count. count ≡ 0 → IsAtEnd (R.remaining reader.new)) }
    ensures kept { OnErr result (Keeps (R.remaining reader.old) (R.remaining reader.new)) }
{
    read_at(reader, bytes.as_mut_slice(), end)
}

// .. of a slice.
fn read_at<R: Read>(reader: &mut R, bytes: &mut [u8], at: usize) -> Result<usize, ReadFault>
    requires { at < length bytes.old }
    ensures front { take at bytes.new ≡ take at bytes.old }
    ensures fits { IfOk result (λ count. at + count ≤ length bytes.new) }
    ensures read { IfOk result (λ count. Consumes (R.remaining reader.old) (R.remaining reader.new)
        (take count (drop at bytes.new))) }
    ensures end { IfOk result (λ count. count ≡ 0 → IsAtEnd (R.remaining reader.new)) }
    ensures kept { OnErr result (Keeps (R.remaining reader.old) (R.remaining reader.new)) }
{
    match reader.read(&mut bytes[at..]) {
        Ok(count) => Ok(count),
        Err(_) => Err(ReadFault),
    }
}
