//! Sets of places.
//!
//! Places are bits of words, with a row of bits above, one for each word that isn't nought, and one
//! above that; once made it takes no memory. To find the least place goes over the row at the top:
//! 1 word for 200,000 places, 13 for 3,200,000. A tree would hold a set of its own kind, and a type
//! that holds itself can't be shown to cross threads. With two rows in place of three a round over
//! 640,000 nodes spent more here than on any other of the board's steps.
ghost use Rattle.std.specs.Prelude.{◌≡◌, ◌<◌, ◌≤◌, IfOk, MatchOption, false, get_or, length, replicate, slice_set};
ghost use Rattle.crew_ready.specs.Firsts.{IsFirst, NoneSet};

use crate::bits::{clear_words, first_in, has_bit, rows_of, with_bit};
use crate::level::Level;
use std::alloc::{AllocError, Global};
use std::marker::Model;

/// A set of the places below a number, with the least one at hand. Once made it takes no memory.
///
/// A contract sees a list of flags, one for each place. Each place is a bit of a word, and a row
/// above has a bit for each word, which is set where the word isn't nought; so has a row above that
/// for its words. A change takes three steps. The least place is found by going over the words of
/// the row at the top, one for each 262,144 places: 1 for 200,000 places, and 13 for 3,200,000.
pub struct PlaceSet {
    count: usize,
    words: Vec<u64>,
    above: Level,
}

impl Drop for PlaceSet {
    fn drop(self) {
        let Self {
            count: _,
            words: _,
            above: _,
        } = self;
    }
}

impl Model for PlaceSet {
    ghost use Rattle.std.specs.Prelude.{Bool, List, length};
    ghost use Rattle.crew_ready.specs.Machinery.Words.{IsAbove, IsRow, flags_of};

    ghost Value = { List Bool };

    ghost view = { λ s. flags_of s.count s.words.items };

    ghost invariant = { λ s. IsRow s.count s.words.items × IsAbove s.words.items s.above };

    ghost size = { length };
}

impl PlaceSet {
    /// The empty set of places below `count`.
    pub fn new(alloc: Global, count: usize) -> Result<PlaceSet, AllocError>
        requires { count ≤ 4_294_967_295 }
        ensures { IfOk result (λ set. set ≡ replicate count false) }
    {
        let rows = rows_of(count);
        let words = clear_words(alloc, rows)?;
        let above = Level::new(alloc, rows)?;
        Ok(PlaceSet {
            count,
            words,
            above,
        })
    }

    /// Puts a place in, or takes it out.
    pub fn set(&mut self, place: usize, member: bool)
        requires { place < length self.old }
        ensures { self.new ≡ slice_set self.old place member }
    {
        let row = place / 64;
        let word = with_bit(self.words[row], (place % 64) as u32, member);
        self.words[row] = word;
        self.above.set(row, word > 0);
    }

    /// Whether a place is in the set, and `false` past the end.
    pub fn contains(&self, place: usize) -> bool
        ensures { result ≡ get_or self.now place false }
    {
        if place >= self.count {
            return false;
        }
        has_bit(self.words[place / 64], (place % 64) as u32)
    }

    /// The least place of the set.
    pub fn first(&self) -> Option<usize>
        ensures { MatchOption result (NoneSet self.now) (IsFirst self.now) }
    {
        let Some(row) = self.above.first() else {
            return None;
        };
        first_in(&self.words, row)
    }
}
