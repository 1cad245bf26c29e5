//! Streams that note whether they have failed.

ghost use Rattle.std.specs.Prelude.{◌≡◌, ◌||◌, OnErr, OnOk, false, true};
ghost use Rattle.std.specs.Io.{ReadsAtMost, WritesAtMost};
ghost use Rattle.std.specs.Io.KnownBytes.{Appends, Keeps, ReadConsumes, WriteAppends};
ghost use Rattle.crew_session.specs.Streams.{bytes_held, bytes_left, is_flush_failure, is_read_failure, is_write_failure, read_ended, read_failed, write_failed};
ghost use Rattle.crew_session.specs.Texts.{AppendsBeginning};

use crate::text::write_text;
use std::io::{self, Read, Write};

/// A reader that notes whether it has failed: a read answered an error, or gave bytes after one
/// that gave none.
#[derive(Drop)]
pub struct NotedReader<R: Read + Drop> {
    reader: R,
    has_ended: bool,
    has_failed: bool,
}

impl<R: Read + Drop> NotedReader<R> {
    /// A reader over this one. It has not failed.
    pub fn new(reader: R) -> NotedReader<R>
        ensures bytes { bytes_left R.remaining result ≡ R.remaining reader }
        ensures fresh { read_failed result ≡ false }
    {
        NotedReader {
            reader,
            has_ended: false,
            has_failed: false,
        }
    }

    /// Whether it has failed.
    pub fn has_failed(&self) -> bool
        ensures { result ≡ read_failed self.now }
    {
        self.has_failed
    }
}

impl<R: Read + Drop> Read for NotedReader<R> {
    ghost use Rattle.crew_session.specs.Streams.{bytes_left};

    ghost remaining = { bytes_left R.remaining };

    fn read(&mut self, buffer: &mut [u8]) -> io::Result<usize>
        ensures bound { ReadsAtMost result buffer.new }
        ensures bytes { ReadConsumes (bytes_left R.remaining self.old)
            (bytes_left R.remaining self.new) result buffer.new }
        ensures noted { read_failed self.new
            ≡ (read_failed self.old || is_read_failure (read_ended self.old) result) }
    {
        let done = self.reader.read(buffer);
        match done {
            Ok(0) => {
                self.has_ended = self.has_ended || !buffer.is_empty();
                Ok(0)
            }
            Ok(given) => {
                self.has_failed = self.has_failed || self.has_ended;
                Ok(given)
            }
            Err(error) => {
                self.has_failed = true;
                Err(error)
            }
        }
    }
}

/// A writer that notes whether it has failed: a write or a flush answered an error, or a write took
/// nothing.
#[derive(Drop)]
pub struct NotedWriter<W: Write + Drop> {
    writer: W,
    has_failed: bool,
}

impl<W: Write + Drop> NotedWriter<W> {
    /// A writer over this one. It has not failed.
    pub fn new(writer: W) -> NotedWriter<W>
        ensures bytes { bytes_held W.contents result ≡ W.contents writer }
        ensures fresh { write_failed result ≡ false }
    {
        NotedWriter {
            writer,
            has_failed: false,
        }
    }

    /// Whether it has failed.
    pub fn has_failed(&self) -> bool
        ensures { result ≡ write_failed self.now }
    {
        self.has_failed
    }

    /// Writes a whole text, or fails after a beginning of it.
    pub fn put(&mut self, text: &[u8]) -> io::Result<()>
        ensures whole { OnOk result (Appends (bytes_held W.contents self.old)
            (bytes_held W.contents self.new) text.now) }
        ensures beginning { AppendsBeginning (bytes_held W.contents self.old)
            (bytes_held W.contents self.new) text.now }
        ensures failed { OnErr result (write_failed self.new ≡ true) }
    {
        match write_text(&mut self.writer, text) {
            Ok(()) => Ok(()),
            Err(error) => {
                self.has_failed = true;
                Err(error)
            }
        }
    }
}

impl<W: Write + Drop> Write for NotedWriter<W> {
    ghost use Rattle.crew_session.specs.Streams.{bytes_held};

    ghost contents = { bytes_held W.contents };

    fn write(&mut self, text: &[u8]) -> io::Result<usize>
        ensures bound { WritesAtMost result text.now }
        ensures bytes { WriteAppends (bytes_held W.contents self.old)
            (bytes_held W.contents self.new) result text.now }
        ensures noted { write_failed self.new
            ≡ (write_failed self.old || is_write_failure text.now result) }
    {
        match self.writer.write(text) {
            Ok(taken) => {
                self.has_failed = self.has_failed || (taken == 0 && !text.is_empty());
                Ok(taken)
            }
            Err(error) => {
                self.has_failed = true;
                Err(error)
            }
        }
    }

    fn flush(&mut self) -> io::Result<()>
        ensures bytes { Keeps (bytes_held W.contents self.old) (bytes_held W.contents self.new) }
        ensures noted { write_failed self.new
            ≡ (write_failed self.old || is_flush_failure result) }
    {
        match self.writer.flush() {
            Ok(()) => Ok(()),
            Err(error) => {
                self.has_failed = true;
                Err(error)
            }
        }
    }
}
