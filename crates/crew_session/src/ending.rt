//! How the reading of records ends, and why a session stops.

ghost use Rattle.std.specs.Prelude.{◌≡◌, IfErr, OnOk};
ghost use Rattle.std.specs.Io.KnownBytes.{IsAtEnd, Keeps};
ghost use Rattle.crew_session.specs.Faults.{IsPlayFault, Never, cause_of};
ghost use Rattle.crew_session.specs.Streams.{read_failed, write_failed};

use crate::fault::SessionFault;
use crate::noted::{NotedReader, NotedWriter};
use std::io::{Read, Write};

// The most records that are taken.
pub(crate) const RECORDS: u32 = 2_000_000;

// How the reading of records ends.
#[derive(Clone, Copy)]
pub(crate) enum Ending {
    // The reader is at its end.
    AtEnd,
    // There are more than 2,000,000 records.
    TooManyRecords,
}

// That the reader is at its end.
fn check_end<R: Read>(reader: &mut R) -> Result<(), SessionFault>
    ensures end { OnOk result (IsAtEnd (R.remaining reader.new)) }
    ensures fault { IfErr result (λ why. why ≡ SessionFault.Read) }
{
    let Ok(0) = reader.read(&mut [0]) else {
        return Err(SessionFault::Read);
    };
    Ok(())
}

// That all that was written has gone out.
fn check_written<W: Write>(writer: &mut W) -> Result<(), SessionFault>
    ensures kept { Keeps (W.contents writer.old) (W.contents writer.new) }
    ensures fault { IfErr result (λ why. why ≡ SessionFault.Write) }
{
    writer.flush().map_err(|_| SessionFault::Write)
}

// That the input is at its end, and that all that was written has gone out.
pub(crate) fn check_all<R: Read, W: Write>(
    reader: &mut R,
    writer: &mut W,
) -> Result<(), SessionFault>
    ensures end { OnOk result (IsAtEnd (R.remaining reader.new)) }
    ensures kept { Keeps (W.contents writer.old) (W.contents writer.new) }
    ensures fault { IfErr result (IsPlayFault Never) }
{
    check_end(reader)?;
    check_written(writer)
}

// Why a session stops, by what has failed: the reader, the writer, or neither, and then there was
// no memory.
pub(crate) fn cause<R: Read + Drop, W: Write + Drop>(
    fault: SessionFault,
    reader: &NotedReader<R>,
    writer: &NotedWriter<W>,
) -> SessionFault
    ensures { result ≡ cause_of fault (read_failed reader.now) (write_failed writer.now) }
{
    match fault {
        SessionFault::Strange(number) => SessionFault::Strange(number),
        _ => {
            if reader.has_failed() {
                SessionFault::Read
            } else if writer.has_failed() {
                SessionFault::Write
            } else {
                SessionFault::Memory
            }
        }
    }
}
