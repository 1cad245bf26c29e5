//! What a record of a schedule asks for: one step of the engine, in the order in which a schedule
//! plays them.

ghost use Rattle.std.specs.Prelude.{◌≡◌, ◌≤◌, IfOk, IfSome, drop, length};
ghost use Rattle.csv.specs.Records.{fields_of};
ghost use Rattle.crew_records.specs.Commands.{IsDated, edit_named, zone_command};
ghost use Rattle.crew_records.specs.Fields.{field_of};
ghost use Rattle.crew_records.specs.Schedules.{IsDatedEdit, IsDatedStep, step_of};
ghost use Rattle.crew_records.specs.Schedules as Spec;

use crate::command::{Command, edit_command, zone_command};
use crate::fault::RecordFault;
use crate::fields::{count_fields, count_fields_at, field, read_count, width_at};
use crew_clocks::Zone;
use crew_flights::{Code, Edit, FlightId};
use crew_time::Minute;
use csv::ByteRecord;

/// An edit that a schedule pushes.
#[derive(Drop)]
pub enum PushedEdit {
    /// One that needs no clock.
    Ready(Edit),
    /// A flight, whose report clock is that of its from-airport.
    Flight {
        id: FlightId,
        from: Code,
        to: Code,
        dep: Minute,
        arr: Minute,
        price: i64,
    },
    /// Other times for a flight, whose report clock is that of its from-airport.
    Retime {
        id: FlightId,
        from: Code,
        dep: Minute,
        arr: Minute,
    },
}

/// What a record of a schedule asks for.
#[derive(Drop)]
pub enum StepRecord {
    /// A zone for an airport.
    AddZone {
        code: Code,
        zone: Zone,
    },
    /// An entry for the log: a seat's edit, under a number of that seat.
    Push {
        seat: u8,
        number: u32,
        edit: PushedEdit,
    },
    /// A round over all entries pushed so far.
    Begin,
    /// A job of the round.
    Claim,
    /// The result of a job that was handed out.
    Bring {
        job: u32,
    },
    /// A job that was handed out, without a result.
    GiveBack {
        job: u32,
    },
    /// The round is dropped.
    Abandon,
    /// The round's version.
    Seal,
    /// The version that was sealed last is published.
    Publish,
    /// What a reader is answered.
    Ask {
        reader: u8,
    },
    /// Nothing: the record is refused.
    Refuse(RecordFault),
}

// That a record has so many fields at least.
fn at_least(row: &ByteRecord, n: usize) -> Result<(), RecordFault>
    ensures { result ≡ Spec.at_least (fields_of row.now) n }
{
    if row.len() >= n {
        Ok(())
    } else {
        Err(RecordFault::FieldCount)
    }
}

// A seat, or a reader.
fn read_seat(field: &[u8]) -> Result<u8, RecordFault>
    ensures { result ≡ Spec.seat_field field.now }
{
    Ok(read_count(field, 2, 63)? as u8)
}

// How many fields the record of an edit has, of which so many are there, if an edit has the name.
fn edit_width(name: &[u8], count: usize) -> Option<usize>
    ensures { result ≡ Spec.edit_width name.now count }
{
    if name == b"base".as_slice() {
        return Some(3);
    }
    if name == b"baseprice".as_slice() {
        return Some(3);
    }
    if name == b"flight".as_slice() {
        return Some(7);
    }
    if name == b"cancel".as_slice() {
        return Some(2);
    }
    if name == b"retime".as_slice() {
        return Some(5);
    }
    if name == b"price".as_slice() {
        return Some(3);
    }
    if name == b"turn".as_slice() {
        return Some(if count == 3 { 3 } else { 4 });
    }
    if name == b"follow".as_slice() {
        return Some(if count == 2 { 2 } else { 3 });
    }
    None
}

// That a record has an edit of its own number of fields behind the first three.
fn has_edit(row: &ByteRecord) -> Result<(), RecordFault>
    ensures { result ≡ Spec.has_width (Spec.edit_width (field_of (fields_of row.now) 3)
        (length (drop 3 (fields_of row.now)))) (drop 3 (fields_of row.now)) }
{
    match edit_width(field(row, 3), width_at(row, 3)) {
        None => Err(RecordFault::UnknownRecord),
        Some(width) => count_fields_at(row, 3, width),
    }
}

// The edit that a command is.
fn edit_of(command: Command) -> Result<PushedEdit, RecordFault>
    requires { IsDated command }
    ensures value { result ≡ Spec.edit_of command }
    ensures dated { IfOk result IsDatedEdit }
{
    match command {
        Command::Submit(edit) => Ok(PushedEdit::Ready(edit)),
        Command::AddFlight {
            id,
            from,
            to,
            dep,
            arr,
            price,
        } => Ok(PushedEdit::Flight {
            id,
            from,
            to,
            dep,
            arr,
            price,
        }),
        Command::Retime { id, from, dep, arr } => Ok(PushedEdit::Retime { id, from, dep, arr }),
        _ => Err(RecordFault::UnknownRecord),
    }
}

// The edit behind the first three fields of a record.
fn read_edit(row: &ByteRecord) -> Result<PushedEdit, RecordFault>
    ensures value { result ≡ Spec.pushed (edit_named (field_of (drop 3 (fields_of row.now)) 0) (drop 3 (fields_of row.now))) }
    ensures dated { IfOk result IsDatedEdit }
{
    match edit_command(row, 3) {
        None => Err(RecordFault::UnknownRecord),
        Some(read) => edit_of(read?),
    }
}

#[tactic(auto, unfolding(crate::specs::Schedules::push_step))]
fn push_step(row: &ByteRecord) -> Result<StepRecord, RecordFault>
    ensures value { result ≡ Spec.push_step (fields_of row.now) }
    ensures dated { IfOk result IsDatedStep }
{
    at_least(row, 4)?;
    has_edit(row)?;
    let seat = read_seat(field(row, 1))?;
    let number = read_count(field(row, 2), 6, 999_999)?;
    let edit = read_edit(row)?;
    Ok(StepRecord::Push { seat, number, edit })
}

#[tactic(auto, unfolding(crate::specs::Schedules::bring_step))]
fn bring_step(row: &ByteRecord) -> Result<StepRecord, RecordFault>
    ensures value { result ≡ Spec.bring_step (fields_of row.now) }
    ensures dated { IfOk result IsDatedStep }
{
    count_fields(row, 2)?;
    let job = read_count(field(row, 1), 9, 999_999_999)?;
    Ok(StepRecord::Bring { job })
}

#[tactic(auto, unfolding(crate::specs::Schedules::give_back_step))]
fn give_back_step(row: &ByteRecord) -> Result<StepRecord, RecordFault>
    ensures value { result ≡ Spec.give_back_step (fields_of row.now) }
    ensures dated { IfOk result IsDatedStep }
{
    count_fields(row, 2)?;
    let job = read_count(field(row, 1), 9, 999_999_999)?;
    Ok(StepRecord::GiveBack { job })
}

#[tactic(auto, unfolding(crate::specs::Schedules::ask_step))]
fn ask_step(row: &ByteRecord) -> Result<StepRecord, RecordFault>
    ensures value { result ≡ Spec.ask_step (fields_of row.now) }
    ensures dated { IfOk result IsDatedStep }
{
    count_fields(row, 2)?;
    let reader = read_seat(field(row, 1))?;
    Ok(StepRecord::Ask { reader })
}

#[tactic(auto, unfolding(crate::specs::Schedules::plain_step))]
fn plain_step(row: &ByteRecord, step: StepRecord) -> Result<StepRecord, RecordFault>
    requires { IsDatedStep step }
    ensures value { result ≡ Spec.plain_step (fields_of row.now) step }
    ensures dated { IfOk result IsDatedStep }
{
    count_fields(row, 1)?;
    Ok(step)
}

// The zone of an airport.
fn zone_step(row: &ByteRecord) -> Result<StepRecord, RecordFault>
    ensures value { result ≡ Spec.zone_of (zone_command (fields_of row.now)) }
    ensures dated { IfOk result IsDatedStep }
{
    match zone_command(row)? {
        Command::AddZone { code, zone } => Ok(StepRecord::AddZone { code, zone }),
        _ => Err(RecordFault::UnknownRecord),
    }
}

// What a record of this name asks for, or why it is refused.
fn named_step(row: &ByteRecord) -> Result<StepRecord, RecordFault>
    ensures value { result ≡ Spec.step_named (field_of (fields_of row.now) 0) (fields_of row.now) }
    ensures dated { IfOk result IsDatedStep }
{
    let name = field(row, 0);
    if name == b"zone".as_slice() {
        return zone_step(row);
    }
    if name == b"push".as_slice() {
        return push_step(row);
    }
    if name == b"begin".as_slice() {
        return plain_step(row, StepRecord::Begin);
    }
    if name == b"claim".as_slice() {
        return plain_step(row, StepRecord::Claim);
    }
    if name == b"bring".as_slice() {
        return bring_step(row);
    }
    if name == b"giveback".as_slice() {
        return give_back_step(row);
    }
    if name == b"abandon".as_slice() {
        return plain_step(row, StepRecord::Abandon);
    }
    if name == b"seal".as_slice() {
        return plain_step(row, StepRecord::Seal);
    }
    if name == b"publish".as_slice() {
        return plain_step(row, StepRecord::Publish);
    }
    if name == b"ask".as_slice() {
        return ask_step(row);
    }
    Err(RecordFault::UnknownRecord)
}

/// What a record of a schedule asks for. It is refused by the first that applies: its name, its
/// number of fields, and then its fields from left to right; of a push the name and the number of
/// fields of its edit come before all fields.
pub fn read_step(row: &ByteRecord) -> StepRecord
    ensures value { result ≡ step_of (fields_of row.now) }
    ensures dated { IsDatedStep result }
{
    match named_step(row) {
        Ok(step) => step,
        Err(fault) => StepRecord::Refuse(fault),
    }
}
