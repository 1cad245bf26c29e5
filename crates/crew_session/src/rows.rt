//! The records of a reader, in turn.

ghost use Rattle.std.specs.Prelude.{◌≡◌, true, false, IfErr, IfOk};
ghost use Rattle.csv.specs.Records.{fields_of};
ghost use Rattle.crew_session.specs.Faults.{IsReadFault};
ghost use Rattle.crew_session.specs.Rows.{HasNoRow, IsOpen, TakesRow, rows_left};

use crate::fault::SessionFault;
use csv::{ByteRecord, ErrorKind, Reader};
use std::io::Read;

/// The next record into `row`, and whether there was one. A fault of the reader is `Read`, whatever
/// it says.
pub fn next_row<R: Read>(reader: &mut Reader<R>, row: &mut ByteRecord) -> Result<bool, SessionFault>
    requires { IsOpen reader.old }
    ensures goes_on { IfOk result (λ found. found ≡ true → IsOpen reader.new) }
    ensures row { IfOk result (λ found. found ≡ true → TakesRow (rows_left R.remaining reader.old)
        (rows_left R.remaining reader.new) (fields_of row.new)) }
    ensures end { IfOk result (λ found. found ≡ false
        → HasNoRow (rows_left R.remaining reader.old)) }
    ensures fault { IfErr result IsReadFault }
{
    match reader.read_byte_record(row) {
        Ok(found) => Ok(found),
        Err(e) => match e.kind() {
            ErrorKind::OutOfMemory => Err(SessionFault::Memory),
            _ => Err(SessionFault::Read),
        },
    }
}
