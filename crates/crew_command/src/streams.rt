//! Streams that answer while their input is open: what was written is on its way before a read
//! waits for more.

use crew_serve::crew_session::{NotedReader, NotedWriter};
use std::alloc::Global;
use std::cell::RefCell;
use std::io::{self, BufWriter, Read, Write};

/// A writer in blocks, which a reader sends on before it reads. Where a block can't be sent, no
/// more is written, and there is no more to read: nobody would get the answers.
#[derive(Drop)]
pub struct Outlet<W: Write + Drop> {
    held: RefCell<Held<W>>,
}

// What is held back, and whether sending it has failed.
#[derive(Drop)]
struct Held<W: Write + Drop> {
    writer: BufWriter<W>,
    is_broken: bool,
}

impl<W: Write + Drop> Held<W> {
    // What a call on the writer came to; after a failure there is no other call.
    fn note(&mut self, done: io::Result<()>) -> io::Result<()> {
        self.is_broken = done.is_err();
        done
    }

    fn write_all(&mut self, text: &[u8]) -> io::Result<()> {
        if self.is_broken {
            return Err(io::Error::from(io::ErrorKind::BrokenPipe));
        }
        let done = self.writer.write_all(text);
        self.note(done)
    }

    fn flush(&mut self) -> io::Result<()> {
        if self.is_broken {
            return Err(io::Error::from(io::ErrorKind::BrokenPipe));
        }
        let done = self.writer.flush();
        self.note(done)
    }
}

impl<W: Write + Drop> Outlet<W> {
    /// An outlet over a writer. `OutOfMemory` where there is none for a block.
    ///
    /// No clause: what a `RefCell` holds is hidden from contracts, so none can tell what the ends of
    /// an outlet write. The tests of the program drive them, over memory and over pipes.
    pub fn new(alloc: Global, writer: W) -> io::Result<Outlet<W>> {
        let writer = BufWriter::new(alloc, writer)?;
        Ok(Outlet {
            held: RefCell::new(Held {
                writer,
                is_broken: false,
            }),
        })
    }

    /// The end that is written to. No clause, for the same reason.
    pub fn writer(&self) -> NotedWriter<OutletWriter<'_, W>> {
        NotedWriter::new(OutletWriter { outlet: self })
    }

    /// The reader, which now sends what is held back before it reads. No clause, for the same reason.
    pub fn before<R: Read + Drop>(&self, reader: R) -> NotedReader<SendingReader<'_, R, W>> {
        NotedReader::new(SendingReader {
            reader,
            outlet: self,
        })
    }

    fn write_all(&self, text: &[u8]) -> io::Result<()> {
        match self.held.try_borrow_mut() {
            Ok(mut held) => held.write_all(text),
            Err(_) => Err(io::Error::from(io::ErrorKind::ResourceBusy)),
        }
    }

    fn send(&self) -> io::Result<()> {
        match self.held.try_borrow_mut() {
            Ok(mut held) => held.flush(),
            Err(_) => Err(io::Error::from(io::ErrorKind::ResourceBusy)),
        }
    }
}

/// The end of an outlet that is written to.
#[derive(Drop)]
pub struct OutletWriter<'a, W: Write + Drop> {
    outlet: &'a Outlet<W>,
}

impl<W: Write + Drop> Write for OutletWriter<'_, W> {
    fn write(&mut self, text: &[u8]) -> io::Result<usize> {
        self.outlet.write_all(text)?;
        Ok(text.len())
    }

    fn flush(&mut self) -> io::Result<()> {
        self.outlet.send()
    }
}

/// A reader that sends what an outlet holds back before it reads.
#[derive(Drop)]
pub struct SendingReader<'a, R, W: Write + Drop> {
    reader: R,
    outlet: &'a Outlet<W>,
}

impl<R: Read, W: Write + Drop> Read for SendingReader<'_, R, W> {
    fn read(&mut self, buffer: &mut [u8]) -> io::Result<usize> {
        match self.outlet.send() {
            Ok(()) => self.reader.read(buffer),
            Err(_) => Ok(0),
        }
    }
}
