//! Why a run of the program fails.

ghost use Rattle.std.specs.Prelude.{◌≡◌, ◌≤◌, IfSome, OnErr, OnOk, decimal, true};
ghost use Rattle.std.specs.Io.KnownBytes.{Appends};
ghost use Rattle.crew_serve.specs.crew_session.Streams.{bytes_held, write_failed};
ghost use Rattle.crew_serve.specs.crew_session.Texts.{AppendsBeginning};
ghost use Rattle.crew_command.specs.Faults.{bad_line, fault_of, line_of, status_of, text_of};
ghost use Rattle.crew_command.specs.Program.{ReportsLine};

use crew_rules::BadSetting;
use crew_serve::crew_session::{NotedWriter, SessionFault};
use itoa::Buffer;
use std::error::Error;
use std::io::Write;
use std::{fmt, io};

/// Why a run fails.
#[derive(Debug, Drop)]
pub enum Fault {
    /// The reader failed, or gave too many records.
    Read,
    /// The writer failed.
    Write,
    /// The words ask for nothing that there is.
    Usage(clap::Error),
    /// A word isn't text.
    Word,
    /// Out of memory.
    Memory,
    /// A setting is out of its range.
    Setting(BadSetting),
    /// The engine or its log isn't what it has to be.
    Strange,
}

impl fmt::Display for Fault {
    ghost output = { text_of };

    fn fmt<W: fmt::Write>(&self, f: &mut fmt::Formatter<W>) -> fmt::Result {
        match self {
            Fault::Read => write!(f, "read fault"),
            Fault::Write => write!(f, "write fault"),
            Fault::Usage(error) => write!(f, "{error}"),
            Fault::Word => write!(f, "a word is not UTF-8"),
            Fault::Memory => write!(f, "out of memory"),
            Fault::Setting(bad) => write!(f, "{bad}"),
            Fault::Strange => write!(f, "strange log"),
        }
    }
}

impl Error for Fault {}

// Writes the line of a bad setting by the text of its number.
fn put_bad<W: Write + Drop>(writer: &mut NotedWriter<W>, number: &[u8]) -> io::Result<()>
    ensures whole { OnOk result (Appends (bytes_held W.contents writer.old)
        (bytes_held W.contents writer.new) (bad_line number.now)) }
    ensures beginning { OnErr result (AppendsBeginning (bytes_held W.contents writer.old)
        (bytes_held W.contents writer.new) (bad_line number.now)) }
    ensures failed { OnErr result (write_failed writer.new ≡ true) }
{
    writer.put(b"crewprice: bad setting ")?;
    writer.put(number)?;
    writer.put(b"\n")
}

// Writes the line of a setting that is out of its range.
fn put_setting<W: Write + Drop>(writer: &mut NotedWriter<W>, bad: BadSetting) -> io::Result<()>
    ensures whole { OnOk result (Appends (bytes_held W.contents writer.old)
        (bytes_held W.contents writer.new) (bad_line (decimal bad.field))) }
    ensures beginning { OnErr result (AppendsBeginning (bytes_held W.contents writer.old)
        (bytes_held W.contents writer.new) (bad_line (decimal bad.field))) }
    ensures failed { OnErr result (write_failed writer.new ≡ true) }
{
    let mut buffer = Buffer::new();
    put_bad(writer, buffer.format(bad.field).as_bytes())
}

impl Fault {
    /// The fault that a session's fault is.
    pub fn of_session(fault: SessionFault) -> Fault
        ensures { result ≡ fault_of fault }
    {
        match fault {
            SessionFault::Read => Fault::Read,
            SessionFault::Write => Fault::Write,
            SessionFault::Memory => Fault::Memory,
            SessionFault::Strange(_) => Fault::Strange,
        }
    }

    /// The status with which the program ends.
    pub fn status(&self) -> u8
        ensures value { result ≡ status_of self.now }
        ensures most { result ≤ 5 }
    {
        match self {
            Fault::Read | Fault::Write => 1,
            Fault::Usage(_) | Fault::Word => 2,
            Fault::Memory => 3,
            Fault::Setting(_) => 4,
            Fault::Strange => 5,
        }
    }

    // Writes the line of the fault, or the text of the command line's own fault as it stands.
    fn put_line<W: Write + Drop>(&self, writer: &mut NotedWriter<W>) -> io::Result<()>
        ensures whole { OnOk result (IfSome (line_of self.now)
            (Appends (bytes_held W.contents writer.old) (bytes_held W.contents writer.new))) }
        ensures beginning { OnErr result (IfSome (line_of self.now) (AppendsBeginning
            (bytes_held W.contents writer.old) (bytes_held W.contents writer.new))) }
        ensures failed { OnErr result (IfSome (line_of self.now)
            (λ line. write_failed writer.new ≡ true)) }
    {
        match self {
            Fault::Read => writer.put(b"crewprice: read fault\n"),
            Fault::Write => writer.put(b"crewprice: write fault\n"),
            Fault::Usage(error) => write!(writer, "{error}"),
            Fault::Word => writer.put(b"crewprice: a word is not UTF-8\n"),
            Fault::Memory => writer.put(b"crewprice: out of memory\n"),
            Fault::Setting(bad) => put_setting(writer, *bad),
            Fault::Strange => writer.put(b"crewprice: strange log\n"),
        }
    }

    /// Writes the line of the fault, or the text of the command line's own fault as it stands. The
    /// line goes out whole, or the writer fails after a beginning of it; it takes no memory.
    pub fn tell<W: Write + Drop>(&self, writer: &mut NotedWriter<W>)
        ensures { IfSome (line_of self.now) (ReportsLine (bytes_held W.contents writer.old)
            (bytes_held W.contents writer.new) (write_failed writer.new)) }
    {
        let _ = self.put_line(writer);
    }
}
