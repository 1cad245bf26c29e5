//! The answer to an audit.

ghost use Rattle.std.specs.Prelude.{◌≡◌, List, ℕ, IfErr, OnErr, OnOk};
ghost use Rattle.std.specs.Io.KnownBytes.{Appends};
ghost use Rattle.crew_session.specs.Audits.{Audits};
ghost use Rattle.crew_session.specs.Faults.{IsLineFault};
ghost use Rattle.crew_session.specs.Texts.{BeginsOne};

use crate::fault::SessionFault;
use crate::lines::{write_audit, write_refused};
use crew_audit::tally_all;
use crew_version::Version;
use std::alloc::Global;
use std::io::Write;

/// Counts the partial pairings of a version's timetable, and writes how many there are, or that
/// there are more than `limit`.
pub(crate) fn answer_audit<W: Write>(
    alloc: Global,
    number: u32,
    limit: u32,
    writer: &mut W,
    version: &Version,
) -> Result<(), SessionFault>
    ensures answered { OnOk result ((text : List ℕ)
        × Appends (W.contents writer.old) (W.contents writer.new) text
        × Audits limit number version.now text) }
    ensures begun { OnErr result (BeginsOne (W.contents writer.old) (W.contents writer.new)
        (Audits limit number version.now)) }
    ensures fault { IfErr result IsLineFault }
{
    match tally_all(
        alloc,
        version.settings(),
        version.timetable(),
        limit as usize,
    ) {
        Ok(tally) => write_audit(alloc, writer, &tally),
        Err(fault) => match fault.number() {
            Some(why) => write_refused(alloc, writer, number, why),
            None => Err(SessionFault::Memory),
        },
    }
}
