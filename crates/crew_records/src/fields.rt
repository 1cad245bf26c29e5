//! Readers of the fields of records.

ghost use Rattle.std.specs.Prelude.{◌≡◌, ◌<◌, ◌≤◌, ◌^◌, ◌+◌, ◌-◌, ◌*◌, ◌∷◌, IfOk, drop, length, slice_index, true};
ghost use Rattle.std.specs.Char.{is_ascii_digit};
ghost use Rattle.std.specs.List.{list_all, position, slice_split};
ghost use Rattle.crew_records.specs.Machinery.Cuts.{spaced_of, texts_of};
ghost use Rattle.std.specs.Option.{option_map};
ghost use Rattle.csv.specs.Records.{fields_of};
ghost use Rattle.crew_time.specs.Instant.{IsInYears};
ghost use Rattle.crew_records.specs.Fields as Spec;

use crate::fault::RecordFault;
use crate::walk::ShortWalk;
use crew_clocks::Zone;
use crew_flights::{Code, FlightId};
use crew_pairing::{Key, Leg};
use crew_time::Minute;
use csv::ByteRecord;

// A field, where a missing one is empty.
pub(crate) fn field(row: &ByteRecord, i: usize) -> &[u8]
    ensures { result.now ≡ Spec.field_of (fields_of row.now) i }
{
    match row.get(i) {
        Some(field) => field,
        None => &[],
    }
}

// That a record has so many fields.
pub(crate) fn count_fields(row: &ByteRecord, n: usize) -> Result<(), RecordFault>
    ensures { result ≡ Spec.count_field (fields_of row.now) n }
{
    if row.len() == n {
        Ok(())
    } else {
        Err(RecordFault::FieldCount)
    }
}

// A field of what a record has from a place on, where a missing one is empty.

pub(crate) fn field_at(row: &ByteRecord, at: usize, i: usize) -> &[u8]
    requires at { at ≤ 3 }
    requires few { i ≤ 8 }
    ensures { result.now ≡ Spec.field_of (drop at (fields_of row.now)) i }
{
    field(row, at + i)
}

// How many fields a record has from a place on.
#[tactic(auto, using(crate::proofs::DropFacts::count_of_drop))]
pub(crate) fn width_at(row: &ByteRecord, at: usize) -> usize
    ensures { result ≡ length (drop at (fields_of row.now)) }
{
    row.len().saturating_sub(at)
}

// That a record has so many fields from a place on.
#[tactic(auto, using(crate::proofs::DropFacts::count_of_drop))]
pub(crate) fn count_fields_at(row: &ByteRecord, at: usize, n: usize) -> Result<(), RecordFault>
    ensures { result ≡ Spec.count_field (drop at (fields_of row.now)) n }
{
    if width_at(row, at) == n {
        Ok(())
    } else {
        Err(RecordFault::FieldCount)
    }
}

// The code of an airport.
pub(crate) fn read_code(field: &[u8]) -> Result<Code, RecordFault>
    ensures { result ≡ Spec.code_field field.now }
{
    match field {
        [a, b, c] => Code::new([*a, *b, *c]).ok_or(RecordFault::BadField),
        _ => Err(RecordFault::BadField),
    }
}

// Whether there are digits alone.
fn are_digits(bytes: &[u8]) -> bool
    ensures { result ≡ list_all is_ascii_digit bytes.now }
{
    bytes.iter().all(|b| b.is_ascii_digit())
}

// Whether there are 1 to so many digits without a leading zero.
fn is_number(digits: &[u8], most: usize) -> bool
    ensures { result ≡ Spec.is_number most digits.now }
{
    !digits.is_empty() && digits[0] != b'0' && are_digits(digits) && digits.len() <= most
}

// The number that at most 18 digits write.
#[tactic(auto, using(crate::proofs::NumberFacts::number_facts))]
fn number_of(digits: &[u8]) -> u64
    requires digits { list_all is_ascii_digit digits.now ≡ true }
    requires few { length digits.now ≤ 18 }
    ensures { result ≡ Spec.read_on 0 digits.now }
{
    let mut number = 0;
    for digit in digits {
        number = number * 10 + u64::from(*digit - b'0');
    }
    number
}

// A number of 1 to so many digits without a leading zero.
#[tactic(auto, using(crate::proofs::NumberFacts::number_facts))]
fn read_number(field: &[u8], most: usize) -> Result<u64, RecordFault>
    requires { most ≤ 18 }
    ensures value { result ≡ Spec.number_field most field.now }
    ensures least { IfOk result (λ n. 1 ≤ n) }
    ensures most { IfOk result (λ n. n < 10 ^ most) }
{
    if is_number(field, most) {
        Ok(number_of(field))
    } else {
        Err(RecordFault::BadField)
    }
}

// The number of a flight.
pub(crate) fn read_id(field: &[u8]) -> Result<FlightId, RecordFault>
    ensures { result ≡ Spec.id_field field.now }
{
    let number = read_number(field, 6)?;
    FlightId::new(number as u32).ok_or(RecordFault::BadField)
}

// A leg: a flight's number, with a `d` after it where the crew rides.
fn read_leg(field: &[u8]) -> Result<Leg, RecordFault>
    ensures { result ≡ Spec.leg_field field.now }
{
    match field.split_last() {
        Some((b'd', id)) => Ok(Leg::new(read_id(id)?, true)),
        _ => Ok(Leg::new(read_id(field)?, false)),
    }
}

// Where the first `-` stands.
fn first_dash(field: &[u8]) -> Option<usize>
    ensures { result ≡ position Spec.is_dash field.now }
{
    field.iter().position(|b| *b == b'-')
}

// The text before the first `-`, and the text after it if there is one.
fn cut(field: &[u8]) -> (&[u8], Option<&[u8]>)
    ensures { slice_split Spec.is_dash field.now ≡ result.0.now ∷ texts_of (option_map (λ rest. rest.now) result.1) }
{
    match first_dash(field) {
        None => (field, None),
        Some(at) => (&field[..at], Some(&field[at + 1..])),
    }
}

// The key of a duty: at most eight legs joined by `-`.
pub(crate) fn read_key(field: &[u8]) -> Result<Key, RecordFault>
    ensures { result ≡ Spec.duty_field field.now }
{
    let (first, mut rest) = cut(field);
    let mut key = Key::of(read_leg(first)?);
    for _ in 1..8u32 {
        let Some(text) = rest else {
            return Ok(key);
        };
        let (next, after) = cut(text);
        key.push(read_leg(next)?);
        rest = after;
    }
    match rest {
        None => Ok(key),
        Some(_) => Err(RecordFault::BadField),
    }
}

// Where the first space stands.
fn first_space(field: &[u8]) -> Option<usize>
    ensures { result ≡ position Spec.is_space field.now }
{
    field.iter().position(|b| *b == b' ')
}

// The text before the first space, and the text after it if there is one.
fn cut_space(field: &[u8]) -> (&[u8], Option<&[u8]>)
    ensures { slice_split Spec.is_space field.now
        ≡ result.0.now ∷ spaced_of (option_map (λ rest. rest.now) result.1) }
{
    match first_space(field) {
        None => (field, None),
        Some(at) => (&field[..at], Some(&field[at + 1..])),
    }
}

// A walk: at most twelve duties, each a space from the one before.
pub(crate) fn read_walk(field: &[u8]) -> Result<ShortWalk, RecordFault>
    ensures { result ≡ Spec.walk_field field.now }
{
    let (first, mut rest) = cut_space(field);
    let first = read_key(first)?;
    let mut walk = ShortWalk::of(&first);
    for _ in 1..12u32 {
        let Some(text) = rest else {
            return Ok(walk);
        };
        let (next, after) = cut_space(text);
        walk.push(read_key(next)?);
        rest = after;
    }
    match rest {
        None => Ok(walk),
        Some(_) => Err(RecordFault::BadField),
    }
}

// A limit, which is at most so much.
pub(crate) fn read_limit(field: &[u8], most: u32) -> Result<u32, RecordFault>
    ensures { result ≡ Spec.limit_field most field.now }
{
    let number = read_number(field, 8)?;
    if number > u64::from(most) {
        return Err(RecordFault::BadField);
    }
    Ok(number as u32)
}

// A number of at most so much: `0`, or so many digits at most without a leading zero.
pub(crate) fn read_count(field: &[u8], digits: usize, most: u32) -> Result<u32, RecordFault>
    requires { digits ≤ 9 }
    ensures { result ≡ Spec.count_up_to digits most field.now }
{
    if field == b"0".as_slice() {
        return Ok(0);
    }
    let number = read_number(field, digits)?;
    if number > u64::from(most) {
        return Err(RecordFault::BadField);
    }
    Ok(number as u32)
}

// A price, whatever its range.
pub(crate) fn read_price(field: &[u8]) -> Result<i64, RecordFault>
    ensures { result ≡ Spec.price_field field.now }
{
    if field == b"0".as_slice() {
        return Ok(0);
    }
    match field.split_first() {
        None => Err(RecordFault::BadField),
        Some((b'-', digits)) => Ok(-(read_number(digits, 18)? as i64)),
        Some(_) => Ok(read_number(field, 18)? as i64),
    }
}

// An instant.
pub(crate) fn read_time(field: &[u8]) -> Result<Minute, RecordFault>
    ensures value { result ≡ Spec.time_field field.now }
    ensures years { IfOk result IsInYears }
{
    Ok(crew_clocks::read_minute(field)?)
}

// A zone.
pub(crate) fn read_zone(field: &[u8]) -> Result<Zone, RecordFault>
    ensures { result ≡ Spec.zone_field field.now }
{
    Ok(Zone::read(field)?)
}
