//! Rows of flags.
ghost use Rattle.std.specs.Prelude.{◌≡◌, ◌<◌, ◌≤◌, IfOk, MatchOption, false, length, replicate, slice_set};
ghost use Rattle.crew_ready.specs.Firsts.{IsFirst, NoneSet};

use crate::bits::{clear_words, first_in, first_row, rows_of, with_bit};
use std::alloc::{AllocError, Global};
use std::marker::Model;

/// A row of flags, each a bit of a word. Its least flag is found by going over the words.
#[derive(Drop)]
pub(crate) struct Row {
    count: usize,
    words: Vec<u64>,
}

impl Model for Row {
    ghost use Rattle.std.specs.Prelude.{Bool, List};
    ghost use Rattle.crew_ready.specs.Machinery.Words.{IsRow, flags_of};

    ghost Value = { List Bool };

    ghost view = { λ r. flags_of r.count r.words.items };

    ghost invariant = { λ r. IsRow r.count r.words.items };
}

impl Row {
    /// A row with no flag set.
    pub(crate) fn new(alloc: Global, count: usize) -> Result<Row, AllocError>
        requires { count ≤ 4_294_967_295 }
        ensures { IfOk result (λ row. row ≡ replicate count false) }
    {
        let words = clear_words(alloc, rows_of(count))?;
        Ok(Row { count, words })
    }

    /// Sets a flag, or takes it away.
    pub(crate) fn set(&mut self, place: usize, member: bool)
        requires { place < length self.old }
        ensures { self.new ≡ slice_set self.old place member }
    {
        let row = place / 64;
        let word = with_bit(self.words[row], (place % 64) as u32, member);
        self.words[row] = word;
    }

    /// The least place whose flag is set.
    pub(crate) fn first(&self) -> Option<usize>
        ensures { MatchOption result (NoneSet self.now) (IsFirst self.now) }
    {
        let Some(row) = first_row(&self.words) else {
            return None;
        };
        first_in(&self.words, row)
    }
}
