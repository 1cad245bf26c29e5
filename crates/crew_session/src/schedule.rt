//! A schedule: records to steps of the machine, and its replies to lines.
//!
//! A schedule stands at a state of the machine, and not at what the machine in code shows of one:
//! each record that is a step leads from a state to the next, and the code keeps that there is such
//! a state. What a record comes to is told by the zones alone, which don't depend on replies; so
//! the acts of a schedule are a function of its bytes.

ghost use Rattle.std.specs.Prelude.{◌≡◌, ◌≤◌, List, ℕ, IfErr, IfOk, IfSome, OnErr, OnOk, length};
ghost use Rattle.std.specs.Io.KnownBytes.{Appends, IsAtEnd};
ghost use Rattle.csv.specs.Records.{fields_of};
ghost use Rattle.crew_rules.specs.Settings.{IsChecked};
ghost use Rattle.crew_session.specs.Faults.{IsPlayFault, Never};
ghost use Rattle.crew_session.specs.Machinery.Endings.{HasEndedBy};
ghost use Rattle.crew_session.specs.Machinery.Players.{StandsFor};
ghost use Rattle.crew_session.specs.Replay.{IsReplayText, Performs, ReplayBegins};
ghost use Rattle.crew_session.specs.Replay as Spec;
ghost use Rattle.crew_session.specs.Rows.{IsOpen, records_of, rows_left};
ghost use Rattle.crew_session.specs.Stops.{IsSessionFault};
ghost use Rattle.crew_session.specs.Streams.{bytes_held, bytes_left, read_failed, write_failed};

use crate::demand::demand_of;
use crate::ending::{Ending, RECORDS, cause, check_all};
use crate::fault::SessionFault;
use crate::noted::{NotedReader, NotedWriter};
use crate::player::Player;
use crate::rows::next_row;
use crew_records::read_step;
use crew_rules::Settings;
use csv::{ByteRecord, Reader, ReaderBuilder};
use std::alloc::Global;
use std::io::{Read, Write};
use std::thread::Threads;

// Does what each record asks for that the reader has left.
fn perform_all<T: Threads + Sync, R: Read, W: Write>(
    rt: &T,
    alloc: Global,
    settings: &Settings,
    records: &mut Reader<R>,
    row: &mut ByteRecord,
    player: &mut Player,
    writer: &mut W,
) -> Result<Ending, SessionFault>
    requires checked { IsChecked settings.now }
    requires is_open { IsOpen records.old }
    requires stands { StandsFor settings.now player.old (Spec.start settings.now) }
    ensures ended { IfOk result (λ ending. IfSome (rows_left R.remaining records.old) (λ rows.
        HasEndedBy (Performs settings.now) (Spec.start settings.now) rows
        (W.contents writer.old) (W.contents writer.new) ending)) }
    ensures begun { OnErr result (IfSome (rows_left R.remaining records.old) (λ rows.
        ReplayBegins settings.now rows (W.contents writer.old) (W.contents writer.new))) }
    ensures fault { IfErr result (IsPlayFault Never) }
{
    'records: for number in 0..RECORDS {
        if !next_row(records, row)? {
            return Ok(Ending::AtEnd);
        }
        let demand = demand_of(settings, &player.zones, read_step(row));
        player.meet(rt, alloc, number + 1, demand, writer)?;
    }
    if next_row(records, row)? {
        Ok(Ending::TooManyRecords)
    } else {
        Ok(Ending::AtEnd)
    }
}

// The same, of a reader's bytes.
fn perform_bytes<T: Threads + Sync, R: Read + Drop, W: Write>(
    rt: &T,
    alloc: Global,
    settings: &Settings,
    reader: R,
    writer: &mut W,
) -> Result<Ending, SessionFault>
    requires checked { IsChecked settings.now }
    ensures ended { IfOk result (λ ending. IfSome (R.remaining reader) (λ bytes.
        HasEndedBy (Performs settings.now) (Spec.start settings.now) (records_of bytes)
        (W.contents writer.old) (W.contents writer.new) ending)) }
    ensures begun { OnErr result (IfSome (R.remaining reader) (λ bytes.
        ReplayBegins settings.now (records_of bytes)
        (W.contents writer.old) (W.contents writer.new))) }
    ensures fault { IfErr result (IsPlayFault Never) }
{
    let mut player = Player::new(alloc, settings)?;
    let mut records = ReaderBuilder::new()
        .has_headers(false)
        .flexible(true)
        .from_reader(alloc, reader);
    let mut row = ByteRecord::new(alloc);
    perform_all(
        rt,
        alloc,
        settings,
        &mut records,
        &mut row,
        &mut player,
        writer,
    )
}

// Plays a schedule over any reader and writer.
fn perform<T: Threads + Sync, R: Read, W: Write>(
    rt: &T,
    alloc: Global,
    settings: &Settings,
    reader: &mut R,
    writer: &mut W,
) -> Result<Ending, SessionFault>
    requires checked { IsChecked settings.now }
    ensures ended { IfOk result (λ ending. IfSome (R.remaining reader.old) (λ bytes.
        HasEndedBy (Performs settings.now) (Spec.start settings.now) (records_of bytes)
        (W.contents writer.old) (W.contents writer.new) ending)) }
    ensures end { IfOk result (λ ending. ending ≡ Ending.AtEnd
        → IsAtEnd (R.remaining reader.new)) }
    ensures begun { OnErr result (IfSome (R.remaining reader.old) (λ bytes.
        ReplayBegins settings.now (records_of bytes)
        (W.contents writer.old) (W.contents writer.new))) }
    ensures fault { IfErr result (IsPlayFault Never) }
{
    let ending = perform_bytes(rt, alloc, settings, &mut *reader, writer)?;
    if let Ending::AtEnd = ending {
        check_all(reader, writer)?;
    }
    Ok(ending)
}

/// Plays a schedule: reads records to the end of the input, each a step of the machine, and writes
/// a line or more for each reply, and one for each record that is refused.
///
/// Where the answer is `Ok`, what is written is the text of a schedule of the bytes that were read:
/// the replies of the machine's run over the records' steps, with the product's choices. There were
/// at most 2,000,000 records, and the input is at its end.
///
/// The lines of a record go out before the next record is read, each by one `write` where the writer
/// takes all of it, and one `flush` comes before `Ok`.
///
/// `Read` where the reader failed or gives more records, `Write` where the writer failed, and
/// `Memory` where neither did; never `Strange`. What was written is then a beginning of the text of
/// the first so many records, 2,000,000 at most.
pub fn replay<T: Threads + Sync, R: Read + Drop, W: Write + Drop>(
    rt: &T,
    alloc: Global,
    reader: &mut NotedReader<R>,
    writer: &mut NotedWriter<W>,
    settings: &Settings,
) -> Result<(), SessionFault>
    requires checked { IsChecked settings.now }
    ensures output { OnOk result (IfSome (bytes_left R.remaining reader.old) (λ bytes.
        (text : List ℕ)
        × Appends (bytes_held W.contents writer.old) (bytes_held W.contents writer.new) text
        × IsReplayText settings.now bytes text)) }
    ensures limit { OnOk result (IfSome (bytes_left R.remaining reader.old)
        (λ bytes. length (records_of bytes) ≤ 2_000_000)) }
    ensures end { OnOk result (IsAtEnd (bytes_left R.remaining reader.new)) }
    ensures begun { OnErr result (IfSome (bytes_left R.remaining reader.old) (λ bytes.
        ReplayBegins settings.now (records_of bytes)
        (bytes_held W.contents writer.old) (bytes_held W.contents writer.new))) }
    ensures fault { IfErr result (IsSessionFault Never
        (bytes_left R.remaining reader.old) (read_failed reader.new) (write_failed writer.new)) }
{
    match perform(rt, alloc, settings, &mut *reader, &mut *writer) {
        Ok(Ending::AtEnd) => Ok(()),
        Ok(Ending::TooManyRecords) => Err(SessionFault::Read),
        Err(fault) => Err(cause(fault, reader, writer)),
    }
}
