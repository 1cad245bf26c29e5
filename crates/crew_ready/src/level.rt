//! Rows of flags with a row above.
ghost use Rattle.std.specs.Prelude.{◌≡◌, ◌<◌, ◌≤◌, IfOk, MatchOption, false, length, replicate, slice_set};
ghost use Rattle.crew_ready.specs.Firsts.{IsFirst, NoneSet};

use crate::bits::{clear_words, first_in, rows_of, with_bit};
use crate::row::Row;
use std::alloc::{AllocError, Global};
use std::marker::Model;

/// A row of flags, each a bit of a word, below a row that has a flag for each word, which is set where
/// the word isn't nought. A change takes two steps, and the least flag is found by the row above.
///
/// A contract sees the list of the flags.
#[derive(Drop)]
pub(crate) struct Level {
    count: usize,
    words: Vec<u64>,
    above: Row,
}

impl Model for Level {
    ghost use Rattle.std.specs.Prelude.{Bool, List};
    ghost use Rattle.crew_ready.specs.Machinery.Words.{IsAbove, IsRow, flags_of};

    ghost Value = { List Bool };

    ghost view = { λ s. flags_of s.count s.words.items };

    ghost invariant = { λ s. IsRow s.count s.words.items × IsAbove s.words.items s.above };
}

impl Level {
    /// A row with no flag set.
    pub(crate) fn new(alloc: Global, count: usize) -> Result<Level, AllocError>
        requires { count ≤ 4_294_967_295 }
        ensures { IfOk result (λ level. level ≡ replicate count false) }
    {
        let rows = rows_of(count);
        let words = clear_words(alloc, rows)?;
        let above = Row::new(alloc, rows)?;
        Ok(Level {
            count,
            words,
            above,
        })
    }

    /// Sets a flag, or takes it away.
    pub(crate) fn set(&mut self, place: usize, member: bool)
        requires { place < length self.old }
        ensures { self.new ≡ slice_set self.old place member }
    {
        let row = place / 64;
        let word = with_bit(self.words[row], (place % 64) as u32, member);
        self.words[row] = word;
        self.above.set(row, word > 0);
    }

    /// The least place whose flag is set.
    pub(crate) fn first(&self) -> Option<usize>
        ensures { MatchOption result (NoneSet self.now) (IsFirst self.now) }
    {
        let Some(row) = self.above.first() else {
            return None;
        };
        first_in(&self.words, row)
    }
}
