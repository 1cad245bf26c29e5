//! Marks by column.
ghost use Rattle.std.specs.Prelude.{◌≡◌, ◌<◌, ◌≤◌, ◌≤ℤ◌, ◌+◌, ◌++◌, ◌∷◌, ℕ, [], length, map, take, if◌then◌else◌, int_lt, negsuc, pos, slice_get, slice_index_or, vec_capacity, vec_len, OnErr, OnOk, MatchOption, Some};
ghost use Rattle.std.specs.List.{swap};
ghost use Rattle.std.specs.Simd.Lanes.{chunk, mask_l};
ghost use Rattle.crew_pool.specs.Marks.{are_at_most};
ghost use Rattle.crew_pool.specs.Machinery.Columns.{AreLevel, IsBelowAll, IsNext, NoneBetween, Rows, least, rows_of};

use crate::glance::are_at_most;
use std::alloc::{AllocError, Global};
use std::marker::Model;
use std::simd::prelude::*;

// How many rows are compared at once.
const LANES: usize = 4;

/// Rows of four marks, kept by column, so that four rows are compared at once.
///
/// A contract sees the list of the rows, and how many there is room for.
#[derive(Drop)]
pub(crate) struct Columns {
    first: Vec<i32>,
    second: Vec<i32>,
    third: Vec<i32>,
    fourth: Vec<i32>,
}

impl Model for Columns {
    ghost Value = { Rows };

    ghost view = { λ c. record {
      rows = rows_of c.first.items c.second.items c.third.items c.fourth.items;
      room = least (vec_capacity c.first) (vec_capacity c.second) (vec_capacity c.third)
          (vec_capacity c.fourth);
    } };

    ghost invariant = { λ c. AreLevel c.first.items c.second.items c.third.items c.fourth.items };
}

impl Columns {
    /// No rows.
    pub(crate) fn new(alloc: Global) -> Self
        ensures { result.rows ≡ [] }
    {
        Columns {
            first: Vec::new(alloc),
            second: Vec::new(alloc),
            third: Vec::new(alloc),
            fourth: Vec::new(alloc),
        }
    }

    /// Lets go of all rows, and keeps the memory.
    pub(crate) fn clear(&mut self)
        ensures { self.new.rows ≡ [] }
    {
        self.first.clear();
        self.second.clear();
        self.third.clear();
        self.fourth.clear();
    }

    /// Makes room for more rows. On want of memory the rows stay as they are.
    pub(crate) fn reserve(&mut self, more: usize) -> Result<(), AllocError>
        ensures rows { self.new.rows ≡ self.old.rows }
        ensures ok { OnOk result (length self.new.rows + more ≤ self.new.room) }
    {
        self.first.reserve(more)?;
        self.second.reserve(more)?;
        self.third.reserve(more)?;
        self.fourth.reserve(more)?;
        Ok(())
    }

    /// Adds a row. On want of memory nothing changes.
    pub(crate) fn push(&mut self, marks: [i32; 4]) -> Result<(), AllocError>
        ensures ok { OnOk result (self.new.rows ≡ self.old.rows ++ marks ∷ []) }
        ensures err { OnErr result (self.new.rows ≡ self.old.rows) }
    {
        self.reserve(1)?;
        self.first.push_reserved(marks[0]);
        self.second.push_reserved(marks[1]);
        self.third.push_reserved(marks[2]);
        self.fourth.push_reserved(marks[3]);
        Ok(())
    }

    /// The row at a place.
    #[inline(always)]
    pub(crate) fn at(&self, place: usize) -> [i32; 4]
        requires { place < length self.now.rows }
        ensures { slice_get self.now.rows place ≡ Some result }
    {
        [
            self.first[place],
            self.second[place],
            self.third[place],
            self.fourth[place],
        ]
    }

    /// Marks that are at most those of each row: the least of each column. That they are no less than
    /// that no clause says: callers lose time by it, and nothing else.
    pub(crate) fn least(&self) -> [i32; 4]
        ensures { IsBelowAll result self.now.rows }
    {
        [
            least_of(&self.first),
            least_of(&self.second),
            least_of(&self.third),
            least_of(&self.fourth),
        ]
    }

    /// The rows of two places, each in the other's.
    pub(crate) fn swap(&mut self, a: usize, b: usize)
        requires first { a < length self.old.rows }
        requires second { b < length self.old.rows }
        ensures rows { self.new.rows ≡ swap self.old.rows a b }
        ensures room { self.new.room ≡ self.old.room }
    {
        self.first.swap(a, b);
        self.second.swap(a, b);
        self.third.swap(a, b);
        self.fourth.swap(a, b);
    }

    /// Lets go of all rows but so many.
    pub(crate) fn truncate(&mut self, count: usize)
        ensures rows { self.new.rows ≡ take count self.old.rows }
        ensures room { self.new.room ≡ self.old.room }
    {
        self.first.truncate(count);
        self.second.truncate(count);
        self.third.truncate(count);
        self.fourth.truncate(count);
    }

    /// Takes in the rows of others, for which there is room.
    pub(crate) fn append(&mut self, other: &mut Columns)
        requires { length self.old.rows + length other.old.rows ≤ self.old.room }
        ensures rows { self.new.rows ≡ self.old.rows ++ other.old.rows }
        ensures emptied { other.new.rows ≡ [] }
    {
        append_reserved(&mut self.first, &mut other.first);
        append_reserved(&mut self.second, &mut other.second);
        append_reserved(&mut self.third, &mut other.third);
        append_reserved(&mut self.fourth, &mut other.fourth);
    }

    /// The first place at or after one whose marks are each at most these.
    #[inline(always)]
    pub(crate) fn next_at_most(&self, from: usize, marks: &[i32; 4]) -> Option<usize>
        requires { from ≤ length self.now.rows }
        ensures { MatchOption result
            (NoneBetween self.now.rows marks.now from (length self.now.rows))
            (IsNext self.now.rows marks.now from) }
    {
        let count = self.first.len();
        let mut at = from;
        while count - at >= LANES {
            let found = self.found_in_four(at, marks);
            if found != 0 {
                return Some(at + found.trailing_zeros() as usize);
            }
            at += LANES;
        }
        self.next_by_one(at, marks)
    }

    // The same, one place at a time.
    fn next_by_one(&self, from: usize, marks: &[i32; 4]) -> Option<usize>
        requires { from ≤ length self.now.rows }
        ensures { MatchOption result
            (NoneBetween self.now.rows marks.now from (length self.now.rows))
            (IsNext self.now.rows marks.now from) }
    {
        for place in from..self.first.len() {
            if are_at_most(&self.at(place), marks) {
                return Some(place);
            }
        }
        None
    }

    // Of four places from one on, a bit for each: whether its marks are each at most these.
    #[inline(always)]
    fn found_in_four(&self, at: usize, marks: &[i32; 4]) -> u64
        requires { at + LANES ≤ length self.now.rows }
        ensures { result ≡ mask_l (map (λ row. are_at_most row marks.now)
            (chunk at LANES self.now.rows)) }
    {
        let above = above(&self.first, at, marks[0])
            | above(&self.second, at, marks[1])
            | above(&self.third, at, marks[2])
            | above(&self.fourth, at, marks[3]);
        above.to_bitmask() ^ 15
    }
}

// Of four places of a column from one on: whether the number is above another.
#[inline(always)]
fn above(column: &[i32], at: usize, mark: i32) -> mask32x4
    requires { at + LANES ≤ length column.now }
    ensures { result ≡ map (λ x. if int_lt mark x then negsuc 0 else pos 0)
        (chunk at LANES column.now) }
{
    // What is read is known to fit its type, and what is loaded below isn't; the compiler drops
    // the reads.
    let _fitting = [column[at], column[at + 1], column[at + 2], column[at + 3]];
    i32x4::from_slice(&column[at..]).simd_gt(i32x4::splat(mark))
}

// The least number of a column, or the greatest there is.
fn least_of(column: &[i32]) -> i32
    ensures { (k : ℕ) → k < length column.now → result ≤ℤ slice_index_or column.now k (pos 0) }
{
    let mut least = i32::MAX;
    for number in column {
        least = least.min(*number);
    }
    least
}

// Takes in the numbers of another column, for which there is room.
fn append_reserved(column: &mut Vec<i32>, other: &mut Vec<i32>)
    requires { vec_len column.old + vec_len other.old ≤ vec_capacity column.old }
    ensures items { column.new.items ≡ column.old.items ++ other.old.items }
    ensures emptied { other.new.items ≡ [] }
{
    let _appended = column.append(other);
}
