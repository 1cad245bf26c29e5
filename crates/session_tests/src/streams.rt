//! Readers and writers in memory, which may be slow or fail.

use crate::ways::Ways;
use std::io::{self, ErrorKind, Print, Read, Write};

/// A writer whose text goes into the transcript.
#[derive(Drop)]
pub struct Shown<'a, R: Print> {
    rt: &'a R,
    // What stands before each line; `None` where nothing is shown.
    mark: Option<&'static str>,
    // Whether the next byte is the first of a line.
    begins: bool,
    // How many writes and flushes are still taken.
    writes: usize,
    flushes: usize,
    // How many bytes were taken.
    taken: usize,
}

impl<'a, R: Print> Shown<'a, R> {
    /// A writer that takes so many writes and flushes.
    pub fn new(
        rt: &'a R,
        mark: Option<&'static str>,
        writes: usize,
        flushes: usize,
    ) -> Shown<'a, R> {
        Shown {
            rt,
            mark,
            begins: true,
            writes,
            flushes,
            taken: 0,
        }
    }

    /// Shows how many bytes were taken, where they weren't shown themselves.
    pub fn show_count(&self) -> io::Result<()> {
        match self.mark {
            Some(_) => Ok(()),
            None => println!(self.rt; "{} bytes", self.taken),
        }
    }

    // Shows that the input has ended, and nothing from then on.
    fn close(&mut self) -> io::Result<()> {
        self.write(b"end of input\n")?;
        self.mark = None;
        Ok(())
    }

    // Shows a line or a part of one, with the mark where it begins.
    fn show_line(&self, mark: &str, line: &[u8]) -> io::Result<()> {
        if self.begins {
            io::writer(self.rt).write_all(mark.as_bytes())?;
        }
        io::writer(self.rt).write_all(line)
    }

    // Shows a text, with the mark before each line.
    fn show(&mut self, mark: &str, text: &[u8]) -> io::Result<()> {
        for line in text.split_inclusive(|byte| *byte == b'\n') {
            self.show_line(mark, line)?;
            self.begins = line.ends_with(b"\n");
        }
        Ok(())
    }
}

impl<R: Print> Write for Shown<'_, R> {
    fn write(&mut self, text: &[u8]) -> io::Result<usize> {
        if self.writes == 0 {
            return Err(io::Error::from(ErrorKind::StorageFull));
        }
        self.writes -= 1;
        self.taken = self.taken.saturating_add(text.len());
        if let Some(mark) = self.mark {
            self.show(mark, text)?;
        }
        Ok(text.len())
    }

    fn flush(&mut self) -> io::Result<()> {
        if self.flushes == 0 {
            return Err(io::Error::from(ErrorKind::StorageFull));
        }
        self.flushes -= 1;
        Ok(())
    }
}

/// A reader of a case's input.
#[derive(Drop)]
pub struct Source<'a, R: Print> {
    input: &'a [u8],
    rest: &'a [u8],
    // How often the input is given again.
    again: usize,
    // How many bytes a read gives at most, and how many are given before one fails.
    chunk: usize,
    left: usize,
    // What is given.
    echo: Shown<'a, R>,
}

impl<'a, R: Print> Source<'a, R> {
    /// A reader that gives this input, in these ways, and what it gives to `echo`.
    pub fn new(ways: &Ways, input: &'a [u8], echo: Shown<'a, R>) -> Source<'a, R> {
        Source {
            input,
            rest: input,
            again: ways.times.saturating_sub(1),
            chunk: ways.chunk,
            left: ways.reads,
            echo,
        }
    }

    // Begins again at the end of the input, where it is to be given again.
    fn begin_again(&mut self) {
        if self.rest.is_empty() && self.again > 0 {
            self.again -= 1;
            self.rest = self.input;
        }
    }
}

impl<R: Print> Read for Source<'_, R> {
    fn read(&mut self, buffer: &mut [u8]) -> io::Result<usize> {
        if self.left == 0 {
            return Err(io::Error::from(ErrorKind::PermissionDenied));
        }
        self.begin_again();
        let most = self.chunk.min(self.left).min(buffer.len());
        let given = self.rest.read(&mut buffer[..most])?;
        self.left = self.left.saturating_sub(given);
        if given > 0 {
            self.echo.write(&buffer[..given])?;
        } else {
            self.echo.close()?;
        }
        Ok(given)
    }
}
