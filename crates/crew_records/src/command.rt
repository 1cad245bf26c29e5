//! What a record asks for.

ghost use Rattle.std.specs.Prelude.{◌≡◌, ◌≤◌, IfOk, IfSome, drop};
ghost use Rattle.csv.specs.Records.{fields_of};
ghost use Rattle.crew_records.specs.Commands.{IsDated, command_of};
ghost use Rattle.crew_records.specs.Commands as Spec;

use crate::fault::RecordFault;
use crate::fields::{
    count_fields, count_fields_at, field, field_at, read_code, read_count, read_id, read_key,
    read_limit, read_price, read_time, read_walk, read_zone, width_at,
};
use crate::walk::ShortWalk;
use crew_clocks::Zone;
use crew_flights::{Code, Edit, FlightId};
use crew_pairing::Key;
use crew_time::Minute;
use csv::ByteRecord;

/// What a record asks for.
#[derive(Drop)]
pub enum Command {
    /// A zone for an airport.
    AddZone {
        code: Code,
        zone: Zone,
    },
    /// An edit that needs no clock.
    Submit(Edit),
    /// A flight, whose report clock is that of its from-airport.
    AddFlight {
        id: FlightId,
        from: Code,
        to: Code,
        dep: Minute,
        arr: Minute,
        price: i64,
    },
    /// Other times for a flight, whose report clock is that of its from-airport.
    Retime {
        id: FlightId,
        from: Code,
        dep: Minute,
        arr: Minute,
    },
    /// A version of all entries so far.
    Settle,
    /// The best pairing of the last version.
    Best,
    /// The best pairing of a base in the last version.
    BestOf {
        base: Code,
    },
    /// The front of a base and the duty of a key in the last version.
    ShowFront {
        base: Code,
        key: Key,
    },
    /// So many pairings of the last version, the least first.
    Cheapest {
        limit: u32,
    },
    /// So many pairings of the last version, of which so many at most fly a flight.
    Apart {
        limit: u32,
        share: u32,
    },
    /// So many pairings of a base in the last version, the least first.
    CheapestOf {
        base: Code,
        limit: u32,
    },
    /// So many pairings of a base in the last version, of which so many at most fly a flight.
    ApartOf {
        base: Code,
        limit: u32,
        share: u32,
    },
    /// Why a walk is, or isn't, a pairing of a base in the last version.
    Explain {
        base: Code,
        walk: ShortWalk,
    },
    /// The partial pairings of the last version, where there are at most so many.
    Audit {
        limit: u32,
    },
    /// Nothing: the record is refused.
    Refuse(RecordFault),
}

#[tactic(auto, unfolding(crate::specs::Commands::zone_command))]
pub(crate) fn zone_command(row: &ByteRecord) -> Result<Command, RecordFault>
    ensures value { result ≡ Spec.zone_command (fields_of row.now) }
    ensures dated { IfOk result IsDated }
{
    count_fields(row, 3)?;
    let code = read_code(field(row, 1))?;
    let zone = read_zone(field(row, 2))?;
    Ok(Command::AddZone { code, zone })
}

#[tactic(auto, unfolding(crate::specs::Commands::base_command))]
fn base_command(row: &ByteRecord, at: usize) -> Result<Command, RecordFault>
    requires { at ≤ 3 }
    ensures value { result ≡ Spec.base_command (drop at (fields_of row.now)) }
    ensures dated { IfOk result IsDated }
{
    count_fields_at(row, at, 3)?;
    let code = read_code(field_at(row, at, 1))?;
    let price = read_price(field_at(row, at, 2))?;
    Ok(Command::Submit(Edit::AddBase { code, price }))
}

#[tactic(auto, unfolding(crate::specs::Commands::base_price_command))]
fn base_price_command(row: &ByteRecord, at: usize) -> Result<Command, RecordFault>
    requires { at ≤ 3 }
    ensures value { result ≡ Spec.base_price_command (drop at (fields_of row.now)) }
    ensures dated { IfOk result IsDated }
{
    count_fields_at(row, at, 3)?;
    let code = read_code(field_at(row, at, 1))?;
    let price = read_price(field_at(row, at, 2))?;
    Ok(Command::Submit(Edit::BasePrice { code, price }))
}

#[tactic(auto, unfolding(crate::specs::Commands::flight_command))]
fn flight_command(row: &ByteRecord, at: usize) -> Result<Command, RecordFault>
    requires { at ≤ 3 }
    ensures value { result ≡ Spec.flight_command (drop at (fields_of row.now)) }
    ensures dated { IfOk result IsDated }
{
    count_fields_at(row, at, 7)?;
    let id = read_id(field_at(row, at, 1))?;
    let from = read_code(field_at(row, at, 2))?;
    let to = read_code(field_at(row, at, 3))?;
    let dep = read_time(field_at(row, at, 4))?;
    let arr = read_time(field_at(row, at, 5))?;
    let price = read_price(field_at(row, at, 6))?;
    Ok(Command::AddFlight {
        id,
        from,
        to,
        dep,
        arr,
        price,
    })
}

#[tactic(auto, unfolding(crate::specs::Commands::cancel_command))]
fn cancel_command(row: &ByteRecord, at: usize) -> Result<Command, RecordFault>
    requires { at ≤ 3 }
    ensures value { result ≡ Spec.cancel_command (drop at (fields_of row.now)) }
    ensures dated { IfOk result IsDated }
{
    count_fields_at(row, at, 2)?;
    let id = read_id(field_at(row, at, 1))?;
    Ok(Command::Submit(Edit::Cancel(id)))
}

#[tactic(auto, unfolding(crate::specs::Commands::retime_command))]
fn retime_command(row: &ByteRecord, at: usize) -> Result<Command, RecordFault>
    requires { at ≤ 3 }
    ensures value { result ≡ Spec.retime_command (drop at (fields_of row.now)) }
    ensures dated { IfOk result IsDated }
{
    count_fields_at(row, at, 5)?;
    let id = read_id(field_at(row, at, 1))?;
    let from = read_code(field_at(row, at, 2))?;
    let dep = read_time(field_at(row, at, 3))?;
    let arr = read_time(field_at(row, at, 4))?;
    Ok(Command::Retime { id, from, dep, arr })
}

#[tactic(auto, unfolding(crate::specs::Commands::price_command))]
fn price_command(row: &ByteRecord, at: usize) -> Result<Command, RecordFault>
    requires { at ≤ 3 }
    ensures value { result ≡ Spec.price_command (drop at (fields_of row.now)) }
    ensures dated { IfOk result IsDated }
{
    count_fields_at(row, at, 3)?;
    let id = read_id(field_at(row, at, 1))?;
    let price = read_price(field_at(row, at, 2))?;
    Ok(Command::Submit(Edit::Price { id, price }))
}

#[tactic(auto, unfolding(crate::specs::Commands::put_turn_command))]
fn put_turn_command(row: &ByteRecord, at: usize) -> Result<Command, RecordFault>
    requires { at ≤ 3 }
    ensures value { result ≡ Spec.put_turn_command (drop at (fields_of row.now)) }
    ensures dated { IfOk result IsDated }
{
    count_fields_at(row, at, 4)?;
    let before = read_id(field_at(row, at, 1))?;
    let after = read_id(field_at(row, at, 2))?;
    let minutes = read_count(field_at(row, at, 3), 6, 999_999)?;
    Ok(Command::Submit(Edit::Turn {
        before,
        after,
        minutes,
    }))
}

#[tactic(auto, unfolding(crate::specs::Commands::take_turn_command))]
fn take_turn_command(row: &ByteRecord, at: usize) -> Result<Command, RecordFault>
    requires { at ≤ 3 }
    ensures value { result ≡ Spec.take_turn_command (drop at (fields_of row.now)) }
    ensures dated { IfOk result IsDated }
{
    count_fields_at(row, at, 3)?;
    let before = read_id(field_at(row, at, 1))?;
    let after = read_id(field_at(row, at, 2))?;
    Ok(Command::Submit(Edit::TakeTurn { before, after }))
}

// A record of three fields takes a turn back.
fn turn_command(row: &ByteRecord, at: usize) -> Result<Command, RecordFault>
    requires { at ≤ 3 }
    ensures value { result ≡ Spec.turn_command (drop at (fields_of row.now)) }
    ensures dated { IfOk result IsDated }
{
    if width_at(row, at) == 3 {
        return take_turn_command(row, at);
    }
    put_turn_command(row, at)
}

#[tactic(auto, unfolding(crate::specs::Commands::put_follow_command))]
fn put_follow_command(row: &ByteRecord, at: usize) -> Result<Command, RecordFault>
    requires { at ≤ 3 }
    ensures value { result ≡ Spec.put_follow_command (drop at (fields_of row.now)) }
    ensures dated { IfOk result IsDated }
{
    count_fields_at(row, at, 3)?;
    let before = read_id(field_at(row, at, 1))?;
    let after = read_id(field_at(row, at, 2))?;
    Ok(Command::Submit(Edit::Follow { before, after }))
}

#[tactic(auto, unfolding(crate::specs::Commands::take_follow_command))]
fn take_follow_command(row: &ByteRecord, at: usize) -> Result<Command, RecordFault>
    requires { at ≤ 3 }
    ensures value { result ≡ Spec.take_follow_command (drop at (fields_of row.now)) }
    ensures dated { IfOk result IsDated }
{
    count_fields_at(row, at, 2)?;
    let before = read_id(field_at(row, at, 1))?;
    Ok(Command::Submit(Edit::TakeFollow { before }))
}

// A record of two fields takes a follow-on back.
fn follow_command(row: &ByteRecord, at: usize) -> Result<Command, RecordFault>
    requires { at ≤ 3 }
    ensures value { result ≡ Spec.follow_command (drop at (fields_of row.now)) }
    ensures dated { IfOk result IsDated }
{
    if width_at(row, at) == 2 {
        return take_follow_command(row, at);
    }
    put_follow_command(row, at)
}

#[tactic(auto, unfolding(crate::specs::Commands::front_command))]
fn front_command(row: &ByteRecord) -> Result<Command, RecordFault>
    ensures value { result ≡ Spec.front_command (fields_of row.now) }
    ensures dated { IfOk result IsDated }
{
    count_fields(row, 3)?;
    let base = read_code(field(row, 1))?;
    let key = read_key(field(row, 2))?;
    Ok(Command::ShowFront { base, key })
}

// The base that a field names, where it is the last and a code.
fn base_at(row: &ByteRecord, at: usize) -> Option<Code>
    requires { at ≤ 3 }
    ensures { result ≡ Spec.base_at (fields_of row.now) at }
{
    if row.len() != at + 1 {
        return None;
    }
    read_code(field(row, at)).ok()
}

#[tactic(auto, unfolding(crate::specs::Commands::cheapest_command))]
fn cheapest_command(row: &ByteRecord) -> Result<Command, RecordFault>
    ensures value { result ≡ Spec.cheapest_command (fields_of row.now) }
    ensures dated { IfOk result IsDated }
{
    count_fields(row, 2)?;
    let limit = read_limit(field(row, 1), 10_000)?;
    Ok(Command::Cheapest { limit })
}

#[tactic(auto, unfolding(crate::specs::Commands::apart_command))]
fn apart_command(row: &ByteRecord) -> Result<Command, RecordFault>
    ensures value { result ≡ Spec.apart_command (fields_of row.now) }
    ensures dated { IfOk result IsDated }
{
    count_fields(row, 3)?;
    let most = read_limit(field(row, 1), 10_000)?;
    let share = read_limit(field(row, 2), 10_000)?;
    Ok(Command::Apart { limit: most, share })
}

// The pairings of a base, where a share of 0 is any.
fn pairings_of(base: Code, limit: u32, share: u32) -> Command
    ensures value { result ≡ Spec.pairings_of base limit share }
    ensures dated { IsDated result }
{
    if share == 0 {
        return Command::CheapestOf { base, limit };
    }
    Command::ApartOf { base, limit, share }
}

#[tactic(auto, unfolding(crate::specs::Commands::pairings_of_command))]
fn pairings_of_command(row: &ByteRecord, base: Code) -> Result<Command, RecordFault>
    ensures value { result ≡ Spec.pairings_of_command (fields_of row.now) base }
    ensures dated { IfOk result IsDated }
{
    let most = read_limit(field(row, 1), 10_000)?;
    let share = read_count(field(row, 2), 5, 10_000)?;
    Ok(pairings_of(base, most, share))
}

// A record has a base where its fourth field is the last and a code, and a share where it has three
// fields; each other is refused where it hasn't two.
fn pairings_command(row: &ByteRecord) -> Result<Command, RecordFault>
    ensures value { result ≡ Spec.pairings_command (fields_of row.now) }
    ensures dated { IfOk result IsDated }
{
    if let Some(base) = base_at(row, 3) {
        return pairings_of_command(row, base);
    }
    if row.len() == 3 {
        return apart_command(row);
    }
    cheapest_command(row)
}

#[tactic(auto, unfolding(crate::specs::Commands::explain_command))]
fn explain_command(row: &ByteRecord) -> Result<Command, RecordFault>
    ensures value { result ≡ Spec.explain_command (fields_of row.now) }
    ensures dated { IfOk result IsDated }
{
    count_fields(row, 3)?;
    let base = read_code(field(row, 1))?;
    let walk = read_walk(field(row, 2))?;
    Ok(Command::Explain { base, walk })
}

#[tactic(auto, unfolding(crate::specs::Commands::audit_command))]
fn audit_command(row: &ByteRecord) -> Result<Command, RecordFault>
    ensures value { result ≡ Spec.audit_command (fields_of row.now) }
    ensures dated { IfOk result IsDated }
{
    count_fields(row, 2)?;
    let limit = read_limit(field(row, 1), 10_000_000)?;
    Ok(Command::Audit { limit })
}

#[tactic(auto, unfolding(crate::specs::Commands::plain_command))]
fn plain_command(row: &ByteRecord, command: Command) -> Result<Command, RecordFault>
    requires { IsDated command }
    ensures value { result ≡ Spec.plain_command (fields_of row.now) command }
    ensures dated { IfOk result IsDated }
{
    count_fields(row, 1)?;
    Ok(command)
}

// A record has a base where its second field is the last and a code; each other is refused where it
// has more than its name.
fn best_command(row: &ByteRecord) -> Result<Command, RecordFault>
    ensures value { result ≡ Spec.best_command (fields_of row.now) }
    ensures dated { IfOk result IsDated }
{
    match base_at(row, 1) {
        Some(base) => Ok(Command::BestOf { base }),
        None => plain_command(row, Command::Best),
    }
}

// The edit that a record of this name asks for from a place on, if it is one of an edit.
pub(crate) fn edit_command(row: &ByteRecord, at: usize) -> Option<Result<Command, RecordFault>>
    requires { at ≤ 3 }
    ensures value { result ≡ Spec.edit_command (drop at (fields_of row.now)) }
    ensures dated { IfSome result (λ r. IfOk r IsDated) }
{
    let name = field_at(row, at, 0);
    if name == b"base".as_slice() {
        return Some(base_command(row, at));
    }
    if name == b"baseprice".as_slice() {
        return Some(base_price_command(row, at));
    }
    if name == b"flight".as_slice() {
        return Some(flight_command(row, at));
    }
    if name == b"cancel".as_slice() {
        return Some(cancel_command(row, at));
    }
    if name == b"retime".as_slice() {
        return Some(retime_command(row, at));
    }
    if name == b"price".as_slice() {
        return Some(price_command(row, at));
    }
    if name == b"turn".as_slice() {
        return Some(turn_command(row, at));
    }
    if name == b"follow".as_slice() {
        return Some(follow_command(row, at));
    }
    None
}

// What a record of this name asks for, or why it is refused.
fn named_command(row: &ByteRecord) -> Result<Command, RecordFault>
    ensures value { result ≡ Spec.named_command (fields_of row.now) }
    ensures dated { IfOk result IsDated }
{
    if let Some(edit) = edit_command(row, 0) {
        return edit;
    }
    let name = field(row, 0);
    if name == b"zone".as_slice() {
        return zone_command(row);
    }
    if name == b"settle".as_slice() {
        return plain_command(row, Command::Settle);
    }
    if name == b"best".as_slice() {
        return best_command(row);
    }
    if name == b"front".as_slice() {
        return front_command(row);
    }
    if name == b"pairings".as_slice() {
        return pairings_command(row);
    }
    if name == b"explain".as_slice() {
        return explain_command(row);
    }
    if name == b"audit".as_slice() {
        return audit_command(row);
    }
    Err(RecordFault::UnknownRecord)
}

/// What a record asks for. It is refused by the first that applies: its name, its number of
/// fields, and then its fields from left to right.
pub fn read_command(row: &ByteRecord) -> Command
    ensures value { result ≡ command_of (fields_of row.now) }
    ensures dated { IsDated result }
{
    match named_command(row) {
        Ok(command) => command,
        Err(fault) => Command::Refuse(fault),
    }
}
