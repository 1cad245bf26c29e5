//! The lines of a reader, in turn.

ghost use Rattle.std.specs.Prelude.{◌≡◌, ◌≤◌, IfOk, OnErr, OnOk, false, option_map, true};
ghost use Rattle.std.specs.Io.KnownBytes.{Keeps};
ghost use Rattle.crew_lines.specs.Finding.{IsWithin};
ghost use Rattle.crew_lines.specs.Lines.{told_in};

use crate::fault::ReadFault;
use crate::held::Held;
use crate::search::{Found, find_line, pass_line};
use std::alloc::{AllocError, Global};
use std::io::Read;

/// A line.
#[derive(Clone, Copy, Debug)]
pub enum Line<'a> {
    /// All of it, without its end: at most 65,536 bytes.
    Whole(&'a [u8]),
    /// The first 33 bytes of one that has more than 65,536.
    Long(&'a [u8]),
}

/// The lines of a reader.
#[derive(Drop)]
pub struct Lines<R> {
    reader: R,
    held: Held,
    found: Found,
    ghost within: { IsWithin held found },
}

impl<R: Read + Drop> Lines<R> {
    ghost use Rattle.crew_lines.specs.Reading.{HasNone, Takes, bytes_left, count_of, lines_left, told_by, told_last};

    /// The lines of a reader, with all the memory that they will want.
    pub fn new(alloc: Global, reader: R) -> Result<Lines<R>, AllocError>
        ensures { IfOk result (λ lines. lines_left R.remaining lines
            ≡ option_map told_in (R.remaining reader)) }
    {
        Ok(Lines {
            reader,
            held: Held::new(alloc)?,
            found: Found::NOTHING,
        })
    }

    // Passes the line that was found last; if it is too long, as far as it was looked at.
    fn pass(&mut self)
        ensures bytes { bytes_left R.remaining self.new ≡ bytes_left R.remaining self.old }
        ensures none { self.new.found.passed ≡ 0 }
        ensures long { self.new.found.is_long ≡ self.old.found.is_long }
    {
        let passed = self.found.passed;
        self.found.shown = 0;
        self.found.passed = 0;
        self.held.pass(passed);
    }

    // Passes the rest of the line that was found last, if it is too long.
    fn pass_rest(&mut self) -> Result<(), ReadFault>
        requires { self.old.found.passed ≡ 0 }
        ensures bytes { Keeps (bytes_left R.remaining self.old) (bytes_left R.remaining self.new) }
        ensures none { self.new.found.passed ≡ 0 }
        ensures short { OnOk result (self.new.found.is_long ≡ false) }
    {
        if self.found.is_long {
            pass_line(&mut self.held, &mut self.reader)?;
            self.found.is_long = false;
        }
        Ok(())
    }

    // Finds the next line.
    fn find(&mut self) -> Result<bool, ReadFault>
        requires none { self.old.found.passed ≡ 0 }
        requires short { self.old.found.is_long ≡ false }
        ensures line { IfOk result (λ found. found ≡ true → Takes (lines_left R.remaining self.old)
            (lines_left R.remaining self.new) (told_last self.new)) }
        ensures end { IfOk result (λ found. found ≡ false
            → HasNone (lines_left R.remaining self.old)) }
        ensures ended { IfOk result (λ found. found ≡ false
            → HasNone (lines_left R.remaining self.new)) }
        ensures kept { OnErr result (Keeps (bytes_left R.remaining self.old)
            (bytes_left R.remaining self.new)) }
    {
        self.found = find_line(&mut self.held, &mut self.reader)?;
        Ok(self.found.passed > 0)
    }

    /// Goes on to the next line, and says whether there is one. A read that answers an error, whatever
    /// it says, is a fault: no byte is lost then, and this may be called again.
    pub fn advance(&mut self) -> Result<bool, ReadFault>
        ensures line { IfOk result (λ found. found ≡ true → Takes (lines_left R.remaining self.old)
            (lines_left R.remaining self.new) (told_last self.new)) }
        ensures end { IfOk result (λ found. found ≡ false
            → HasNone (lines_left R.remaining self.old)) }
        ensures ended { IfOk result (λ found. found ≡ false
            → HasNone (lines_left R.remaining self.new)) }
        ensures kept { OnErr result (Keeps (bytes_left R.remaining self.old)
            (bytes_left R.remaining self.new)) }
    {
        self.pass();
        self.pass_rest()?;
        self.find()
    }

    /// The line that it has gone on to last; before the first, after the last and after a fault an
    /// empty one.
    pub fn line(&self) -> Line<'_>
        ensures told { told_by result ≡ told_last self.now }
        ensures short { count_of result ≤ 65_536 }
    {
        let bytes = &self.held.as_slice()[..self.found.shown];
        if self.found.is_long {
            Line::Long(bytes)
        } else {
            Line::Whole(bytes)
        }
    }
}
