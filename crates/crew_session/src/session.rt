//! A session: records to commands, and commands to lines.

ghost use Rattle.std.specs.Prelude.{◌≡◌, ◌⊎◌, ◌↔◌, ◌+◌, ◌++◌, ◌<◌, ◌≤◌, ◌-ℤ◌, [], ℕ, List, IsTrue, false, pos, true, drop, length, IfErr, IfOk, IfSome, OnErr, OnOk, Some};
ghost use Rattle.std.specs.Io.KnownBytes.{Appends, IsAtEnd, Keeps};
ghost use Rattle.csv.specs.Records.{fields_of};
ghost use Rattle.crew_flights.specs.declared.entries.Entry.{Entry as EntryOf};
ghost use Rattle.crew_rules.specs.Settings.{IsChecked};
ghost use Rattle.crew_records.specs.Commands.{IsDated};
ghost use Rattle.crew_pairing.specs.Duties.{HasFew, HasTooMany};
ghost use Rattle.crew_session.specs.Engines.{AreTooMany, engine_number};
ghost use Rattle.crew_session.specs.declared.engine_fault.EngineFault.TheVariants.{TooManyDuties};
ghost use Rattle.crew_records.specs.declared.command.Command.TheVariants.{Settle};
ghost use Rattle.crew_session.specs.Faults.{IsLineFault, IsPlayFault, IsRecordFault, cause_of};
ghost use Rattle.crew_session.specs.Machinery.Journals.{Came, HasEnded, IsInStep, IsRefusal, state_of, zones_of};
ghost use Rattle.crew_session.specs.Lines.{refused_line, refused_lines, version_line};
ghost use Rattle.crew_session.specs.Oddities.{IsCalledFor, IsSettledAt, IsTold, Made, MeetsOdd, nothing_made};
ghost use Rattle.crew_session.specs.Rows.{IsOpen, records_of, rows_left};
ghost use Rattle.crew_session.specs.Session.{Begins, IsSessionText, Obeys, State, Writes};
ghost use Rattle.crew_session.specs.Session as Spec;
ghost use Rattle.crew_session.specs.Stops.{IsSessionFault};
ghost use Rattle.crew_session.specs.Streams.{bytes_held, bytes_left, read_failed, write_failed};
ghost use Rattle.crew_session.specs.Texts.{AppendsBeginning, BeginsOne};
ghost use Rattle.crew_version.specs.Versions.{Snapshot, opening, timetable_of, verdicts_of};

use crate::clocks::clock_at;
use crate::ending::{Ending, RECORDS, cause, check_all};
use crate::engine::Engine;
use crate::engine_fault::EngineFault;
use crate::fault::{SessionFault, stop};
use crate::journal::Journal;
use crate::lines::{write_refusals, write_refused, write_version};
use crate::noted::{NotedReader, NotedWriter};
use crate::question::answer;
use crate::rows::next_row;
use crew_clocks::Zone;
use crew_duty::{DutyFault, list_duties};
use crew_flights::{Code, Edit, Entry, Flight};
use crew_records::{Command, RecordFault, read_command};
use crew_rules::Settings;
use crew_version::Version;
use csv::{ByteRecord, Reader, ReaderBuilder};
use std::alloc::{AllocError, Global};
use std::io::{Read, Write};
use std::thread::Threads;

// Writes the refusal of an engine, or stops for want of memory.
fn refuse<W: Write>(
    alloc: Global,
    writer: &mut W,
    number: u32,
    fault: EngineFault,
) -> Result<(), SessionFault>
    ensures written { OnOk result ((why : ℕ) × (engine_number fault ≡ Some why)
        × Appends (W.contents writer.old) (W.contents writer.new) (refused_line number why)) }
    ensures begun { OnErr result (BeginsOne (W.contents writer.old) (W.contents writer.new)
        (IsRefusal number fault)) }
    ensures fault { IfErr result IsLineFault }
{
    match fault.number() {
        Some(why) => write_refused(alloc, writer, number, why),
        None => Err(SessionFault::Memory),
    }
}

// Hands an edit to the engine.
fn submit<W: Write, E: Engine>(
    alloc: Global,
    number: u32,
    edit: Edit,
    journal: &mut Journal,
    writer: &mut W,
    engine: &mut E,
) -> Result<(), SessionFault>
    requires { IsInStep E.MAY_BE_STRANGE journal.old (E.shown engine.old) (E.entries engine.old) }
    ensures came { OnOk result (Came (W.contents writer.old) (W.contents writer.new)
        (state_of journal.new (E.shown engine.new) (E.entries engine.new))
        (Spec.submit number edit
        (state_of journal.old (E.shown engine.old) (E.entries engine.old)))) }
    ensures begun { OnErr result (AppendsBeginning (W.contents writer.old) (W.contents writer.new)
        (Spec.submit number edit
        (state_of journal.old (E.shown engine.old) (E.entries engine.old))).1) }
    ensures in_step { OnOk result
        (IsInStep E.MAY_BE_STRANGE journal.new (E.shown engine.new) (E.entries engine.new)) }
    ensures shown { E.shown engine.new ≡ E.shown engine.old }
    ensures fault { IfErr result IsLineFault }
{
    let place = engine.version().count() + journal.records.len();
    match engine.submit(edit) {
        Ok(()) => Ok(journal.add(number, engine.may_be_strange(), place as u32, edit)?),
        Err((_, fault)) => refuse(alloc, writer, number, fault),
    }
}

// Takes a zone, or refuses it.
fn add_zone<W: Write>(
    alloc: Global,
    number: u32,
    code: Code,
    zone: Zone,
    journal: &mut Journal,
    writer: &mut W,
) -> Result<(), SessionFault>
    ensures came { (version : Snapshot) (taken : List EntryOf)
        → OnOk result (Came (W.contents writer.old) (W.contents writer.new)
        (state_of journal.new version taken)
        (Spec.add_zone number code zone (state_of journal.old version taken))) }
    ensures begun { (version : Snapshot) (taken : List EntryOf)
        → OnErr result (AppendsBeginning (W.contents writer.old) (W.contents writer.new)
        (Spec.add_zone number code zone (state_of journal.old version taken)).1) }
    ensures records { journal.new.records ≡ journal.old.records }
    ensures entries { journal.new.entries ≡ journal.old.entries }
    ensures fault { IfErr result IsLineFault }
{
    if let Some(fault) = journal.zones.refusal(code) {
        return write_refused(alloc, writer, number, fault.number());
    }
    Ok(journal.zones.add(code, zone)?)
}

/// Whether the entries of a version and these come to more than 200,000 legal duties.
pub fn has_too_many<R: Threads + Sync>(
    rt: &R,
    alloc: Global,
    version: &Version,
    entries: &[Entry],
) -> Result<bool, AllocError>
    ensures many { IfOk result (λ many. many ≡ true
        → HasTooMany version.now.settings (timetable_of (version.now.entries ++ entries.now))) }
    ensures few { IfOk result (λ many. many ≡ false
        → HasFew version.now.settings (timetable_of (version.now.entries ++ entries.now))) }
{
    let timetable = version.timetable_with(alloc, entries)?;
    match list_duties(rt, alloc, version.settings(), &timetable) {
        Ok(_) => Ok(false),
        Err(DutyFault::TooManyDuties) => Ok(true),
        Err(DutyFault::Memory) => Err(AllocError),
    }
}

// Writes that there are too many duties for a version. Of an engine that may be strange it is
// believed only where the entries that were sent come to too many.
fn decline<R: Threads + Sync, W: Write, E: Engine>(
    rt: &R,
    alloc: Global,
    number: u32,
    journal: &Journal,
    writer: &mut W,
    engine: &E,
) -> Result<(), SessionFault>
    requires in_step { IsInStep E.MAY_BE_STRANGE journal.now
        (E.shown engine.now) (E.entries engine.now) }
    requires many { AreTooMany (E.shown engine.now) (E.entries engine.now)
        ⊎ IsTrue E.MAY_BE_STRANGE }
    requires found { IsTrue E.MAY_BE_STRANGE → (E.found engine.now).what ≡ Err TooManyDuties }
    requires told { IsTrue E.MAY_BE_STRANGE → (before : Made)
        × IsTold before (E.entries engine.now) (E.made engine.now) (E.found engine.now) }
    ensures written { OnOk result
        (Appends (W.contents writer.old) (W.contents writer.new) (refused_line number 40)) }
    ensures many { OnOk result (AreTooMany (E.shown engine.now) (E.entries engine.now)) }
    ensures begun { OnErr result (BeginsOne (W.contents writer.old) (W.contents writer.new)
        (λ text. AreTooMany (E.shown engine.now) (E.entries engine.now)
        × (text ≡ refused_line number 40))) }
    ensures fault { IfErr result (IsRecordFault (MeetsOdd E.MAY_BE_STRANGE
        (λ at. at ≡ state_of journal.now (E.shown engine.now) (E.entries engine.now))
        (E.found engine.now))) }
{
    if engine.may_be_strange() && !has_too_many(rt, alloc, engine.version(), &journal.entries)? {
        return Err(stop(EngineFault::OtherLog));
    }
    refuse(alloc, writer, number, EngineFault::TooManyDuties)
}

// Whether a version is the next after this number, and has so many entries.
fn is_next(version: &Version, before: u64, count: usize) -> bool
    requires { before < 4_294_967_296 }
    ensures next { IsTrue result
        ↔ (version.now.number ≡ before + 1) × (length version.now.entries ≡ count) }
{
    version.number() == before + 1 && version.count() == count
}

// Writes the refusals among the entries of a new version, and the version.
fn publish<W: Write>(
    alloc: Global,
    writer: &mut W,
    records: &[u32],
    version: &Version,
    first: usize,
) -> Result<(), SessionFault>
    requires { first + length records.now ≤ 1_000_000 }
    ensures written { OnOk result (Appends (W.contents writer.old) (W.contents writer.new)
        (refused_lines records.now (drop first (verdicts_of version.now.entries))
        ++ version_line version.now)) }
    ensures begun { OnErr result (AppendsBeginning (W.contents writer.old) (W.contents writer.new)
        (refused_lines records.now (drop first (verdicts_of version.now.entries))
        ++ version_line version.now)) }
    ensures fault { IfErr result IsLineFault }
{
    write_refusals(alloc, writer, records, version, first)?;
    write_version(alloc, writer, version)
}

// Makes a version of all entries so far, and writes what it came to.
fn settle<R: Threads + Sync, W: Write, E: Engine>(
    rt: &R,
    alloc: Global,
    number: u32,
    journal: &mut Journal,
    writer: &mut W,
    engine: &mut E,
) -> Result<(), SessionFault>
    requires in_step { IsInStep E.MAY_BE_STRANGE journal.old
        (E.shown engine.old) (E.entries engine.old) }
    requires early { (E.shown engine.old).number < number }
    ensures settles { OnOk result ((text : List ℕ)
        × Appends (W.contents writer.old) (W.contents writer.new) text
        × Spec.Settles number (state_of journal.old (E.shown engine.old) (E.entries engine.old))
        (state_of journal.new (E.shown engine.new) (E.entries engine.new)) text) }
    ensures begun { OnErr result (BeginsOne (W.contents writer.old) (W.contents writer.new)
        (λ text. (after : State) × Spec.Settles number
        (state_of journal.old (E.shown engine.old) (E.entries engine.old)) after text)) }
    ensures in_step { OnOk result
        (IsInStep E.MAY_BE_STRANGE journal.new (E.shown engine.new) (E.entries engine.new)) }
    ensures late { OnOk result ((E.shown engine.new).number ≤ number) }
    ensures fault { IfErr result (IsRecordFault (MeetsOdd E.MAY_BE_STRANGE
        (λ at. at ≡ state_of journal.old (E.shown engine.old) (E.entries engine.old))
        (E.found engine.new))) }
{
    let before = engine.version().number();
    let first = engine.version().count();
    match engine.settle(rt) {
        Ok(()) => {}
        Err(fault) => match fault {
            EngineFault::TooManyDuties => {
                return decline(rt, alloc, number, journal, writer, engine);
            }
            _ => return Err(stop(fault)),
        },
    }
    if !is_next(engine.version(), before, first + journal.records.len()) {
        return Err(stop(EngineFault::OtherLog));
    }
    publish(alloc, writer, &journal.records, engine.version(), first)?;
    journal.clear();
    Ok(())
}

// Does what a record asks for.
fn obey<R: Threads + Sync, W: Write, E: Engine>(
    rt: &R,
    alloc: Global,
    settings: &Settings,
    number: u32,
    command: Command,
    journal: &mut Journal,
    writer: &mut W,
    engine: &mut E,
) -> Result<(), SessionFault>
    requires checked { IsChecked settings.now }
    requires dated { IsDated command }
    requires in_step { IsInStep E.MAY_BE_STRANGE journal.old
        (E.shown engine.old) (E.entries engine.old) }
    requires early { (E.shown engine.old).number < number }
    ensures obeys { OnOk result ((text : List ℕ)
        × Appends (W.contents writer.old) (W.contents writer.new) text
        × Obeys settings.now number command
        (state_of journal.old (E.shown engine.old) (E.entries engine.old))
        (state_of journal.new (E.shown engine.new) (E.entries engine.new)) text) }
    ensures begun { OnErr result (BeginsOne (W.contents writer.old) (W.contents writer.new)
        (λ text. (after : State) × Obeys settings.now number command
        (state_of journal.old (E.shown engine.old) (E.entries engine.old)) after text)) }
    ensures in_step { OnOk result
        (IsInStep E.MAY_BE_STRANGE journal.new (E.shown engine.new) (E.entries engine.new)) }
    ensures late { OnOk result ((E.shown engine.new).number ≤ number) }
    ensures fault { IfErr result (IsRecordFault (MeetsOdd E.MAY_BE_STRANGE
        (λ at. (command ≡ Settle)
        × (at ≡ state_of journal.old (E.shown engine.old) (E.entries engine.old)))
        (E.found engine.new))) }
{
    match command {
        Command::AddZone { code, zone } => add_zone(alloc, number, code, zone, journal, writer),
        Command::Submit(edit) => submit(alloc, number, edit, journal, writer, engine),
        Command::AddFlight {
            id,
            from,
            to,
            dep,
            arr,
            price,
        } => match clock_at(settings, &journal.zones, from, dep) {
            None => write_refused(alloc, writer, number, RecordFault::NoZone.number()),
            Some(report_clock) => {
                let edit = Edit::AddFlight(Flight {
                    id,
                    from,
                    to,
                    dep,
                    arr,
                    report_clock,
                    price,
                });
                submit(alloc, number, edit, journal, writer, engine)
            }
        },
        Command::Retime { id, from, dep, arr } => {
            match clock_at(settings, &journal.zones, from, dep) {
                None => write_refused(alloc, writer, number, RecordFault::NoZone.number()),
                Some(report_clock) => {
                    let edit = Edit::Retime {
                        id,
                        from,
                        dep,
                        arr,
                        report_clock,
                    };
                    submit(alloc, number, edit, journal, writer, engine)
                }
            }
        }
        Command::Settle => settle(rt, alloc, number, journal, writer, engine),
        Command::Refuse(fault) => write_refused(alloc, writer, number, fault.number()),
        question => answer(alloc, number, &question, engine.version(), writer),
    }
}

// Obeys each record that the reader has left.
fn obey_all<T: Threads + Sync, R: Read, W: Write, E: Engine>(
    rt: &T,
    alloc: Global,
    settings: &Settings,
    records: &mut Reader<R>,
    row: &mut ByteRecord,
    journal: &mut Journal,
    writer: &mut W,
    engine: &mut E,
) -> Result<Ending, SessionFault>
    requires checked { IsChecked settings.now }
    requires is_open { IsOpen records.old }
    requires in_step { IsInStep E.MAY_BE_STRANGE journal.old
        (E.shown engine.old) (E.entries engine.old) }
    requires opening { (E.shown engine.old).number ≡ 0 }
    ensures ended { IfOk result (λ ending. IfSome (rows_left R.remaining records.old) (λ rows.
        HasEnded settings.now
        (state_of journal.old (E.shown engine.old) (E.entries engine.old)) rows
        (W.contents writer.old) (W.contents writer.new) ending)) }
    ensures begun { OnErr result (IfSome (rows_left R.remaining records.old) (λ rows.
        Begins settings.now (state_of journal.old (E.shown engine.old) (E.entries engine.old)) rows
        (W.contents writer.old) (W.contents writer.new))) }
    ensures fault { IfErr result (IsPlayFault (MeetsOdd E.MAY_BE_STRANGE
        (λ at. IfSome (rows_left R.remaining records.old) (λ rows. IsSettledAt settings.now
        (state_of journal.old (E.shown engine.old) (E.entries engine.old)) rows at))
        (E.found engine.new))) }
{
    'records: for number in 0..RECORDS {
        if !next_row(records, row)? {
            return Ok(Ending::AtEnd);
        }
        obey(
            rt,
            alloc,
            settings,
            number + 1,
            read_command(row),
            journal,
            writer,
            engine,
        )?;
    }
    if next_row(records, row)? {
        Ok(Ending::TooManyRecords)
    } else {
        Ok(Ending::AtEnd)
    }
}

// The same, of a reader's bytes.
fn read_all<T: Threads + Sync, R: Read + Drop, W: Write, E: Engine>(
    rt: &T,
    alloc: Global,
    settings: &Settings,
    reader: R,
    writer: &mut W,
    engine: &mut E,
) -> Result<Ending, SessionFault>
    requires checked { IsChecked settings.now }
    requires entries { E.entries engine.old ≡ [] }
    requires version { E.shown engine.old ≡ opening settings.now }
    ensures ended { IfOk result (λ ending. IfSome (R.remaining reader) (λ bytes.
        HasEnded settings.now (Spec.start settings.now) (records_of bytes)
        (W.contents writer.old) (W.contents writer.new) ending)) }
    ensures begun { OnErr result (IfSome (R.remaining reader) (λ bytes.
        Begins settings.now (Spec.start settings.now) (records_of bytes)
        (W.contents writer.old) (W.contents writer.new))) }
    ensures fault { IfErr result (IsPlayFault (IsCalledFor E.MAY_BE_STRANGE settings.now
        (R.remaining reader) (E.found engine.new))) }
{
    let mut records = ReaderBuilder::new()
        .has_headers(false)
        .flexible(true)
        .from_reader(alloc, reader);
    let mut row = ByteRecord::new(alloc);
    let mut journal = Journal::new(alloc);
    obey_all(
        rt,
        alloc,
        settings,
        &mut records,
        &mut row,
        &mut journal,
        writer,
        engine,
    )
}

// Plays a session over any reader and writer.
fn play<T: Threads + Sync, R: Read, W: Write, E: Engine>(
    rt: &T,
    alloc: Global,
    reader: &mut R,
    writer: &mut W,
    settings: &Settings,
    engine: &mut E,
) -> Result<Ending, SessionFault>
    requires checked { IsChecked settings.now }
    requires entries { E.entries engine.old ≡ [] }
    requires version { E.shown engine.old ≡ opening settings.now }
    ensures ended { IfOk result (λ ending. IfSome (R.remaining reader.old) (λ bytes.
        HasEnded settings.now (Spec.start settings.now) (records_of bytes)
        (W.contents writer.old) (W.contents writer.new) ending)) }
    ensures end { IfOk result (λ ending. ending ≡ Ending.AtEnd
        → IsAtEnd (R.remaining reader.new)) }
    ensures begun { OnErr result (IfSome (R.remaining reader.old) (λ bytes.
        Begins settings.now (Spec.start settings.now) (records_of bytes)
        (W.contents writer.old) (W.contents writer.new))) }
    ensures fault { IfErr result (IsPlayFault (IsCalledFor E.MAY_BE_STRANGE settings.now
        (R.remaining reader.old) (E.found engine.new))) }
{
    let ending = read_all(rt, alloc, settings, &mut *reader, writer, engine)?;
    if let Ending::AtEnd = ending {
        check_all(reader, writer)?;
    }
    Ok(ending)
}

/// Plays a session: reads records to the end of the input, and writes a line for each refusal,
/// version and answer.
///
/// The engine is new: it has taken no edit, and the version that it shows, and has made last, is
/// number 0 under these settings. Where the answer is `Ok`, what is written is the text of a session
/// of the bytes that were read, there were at most 2,000,000 records, and the input is at its end.
///
/// Each line goes out before the next record is read, by one `write` where the writer takes all of
/// it, and one `flush` comes before `Ok`: a writer that is to show lines while the input is open
/// flushes them itself.
///
/// `Read` where the reader failed or gives more records, `Write` where the writer failed, `Memory`
/// where neither did, and `Strange` only of an engine that may be strange, and only where a settle
/// of the session found what no session brings about: 57, 62 or 65 where the engine answered that,
/// and 63 where it found a version that isn't the next one of all edits so far, or answered 40 and
/// these come to at most 200,000 duties. What it found is told by what the engine had made and read
/// before that settle and after it. What was written is then a beginning of the text of the
/// first so many records, 2,000,000 at most, and the engine is not used again.
pub fn run<T: Threads + Sync, R: Read + Drop, W: Write + Drop, E: Engine>(
    rt: &T,
    alloc: Global,
    reader: &mut NotedReader<R>,
    writer: &mut NotedWriter<W>,
    settings: &Settings,
    engine: &mut E,
) -> Result<(), SessionFault>
    requires checked { IsChecked settings.now }
    requires entries { E.entries engine.old ≡ [] }
    requires version { E.shown engine.old ≡ opening settings.now }
    requires made { E.made engine.old ≡ nothing_made (opening settings.now) }
    ensures output { OnOk result (IfSome (bytes_left R.remaining reader.old) (λ bytes.
        (text : List ℕ)
        × Appends (bytes_held W.contents writer.old) (bytes_held W.contents writer.new) text
        × IsSessionText settings.now bytes text)) }
    ensures limit { OnOk result (IfSome (bytes_left R.remaining reader.old)
        (λ bytes. length (records_of bytes) ≤ 2_000_000)) }
    ensures end { OnOk result (IsAtEnd (bytes_left R.remaining reader.new)) }
    ensures begun { OnErr result (IfSome (bytes_left R.remaining reader.old) (λ bytes.
        Begins settings.now (Spec.start settings.now) (records_of bytes)
        (bytes_held W.contents writer.old) (bytes_held W.contents writer.new))) }
    ensures fault { IfErr result (IsSessionFault (IsCalledFor E.MAY_BE_STRANGE settings.now
        (bytes_left R.remaining reader.old) (E.found engine.new))
        (bytes_left R.remaining reader.old) (read_failed reader.new) (write_failed writer.new)) }
{
    match play(rt, alloc, &mut *reader, &mut *writer, settings, engine) {
        Ok(Ending::AtEnd) => Ok(()),
        Ok(Ending::TooManyRecords) => Err(SessionFault::Read),
        Err(fault) => Err(cause(fault, reader, writer)),
    }
}
