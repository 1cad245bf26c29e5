//! The record of a line.

ghost use Rattle.std.specs.Prelude.{◌≡◌, IfOk, IfSome};
ghost use Rattle.crew_records.specs.Commands.{IsDated};
ghost use Rattle.crew_serve.specs.Conversations.{command_in};

use crew_records::{Command, RecordFault, read_command};
use crew_session::next_row;
use csv::{ByteRecord, ReaderBuilder};
use std::alloc::{AllocError, Global};

/// What the record of a line asks for; `None` where the line is empty. More than one record are refused
/// as one of too many fields.
pub(crate) fn read_record(alloc: Global, line: &[u8]) -> Result<Option<Command>, AllocError>
    ensures command { IfOk result (λ command. command ≡ command_in line.now) }
    ensures dated { IfOk result (λ command. IfSome command IsDated) }
{
    let mut records = ReaderBuilder::new()
        .has_headers(false)
        .flexible(true)
        .from_reader(alloc, line);
    let mut row = ByteRecord::new(alloc);
    if !next_row(&mut records, &mut row).map_err(|_| AllocError)? {
        return Ok(None);
    }
    let command = read_command(&row);
    if next_row(&mut records, &mut row).map_err(|_| AllocError)? {
        return Ok(Some(Command::Refuse(RecordFault::FieldCount)));
    }
    Ok(Some(command))
}
