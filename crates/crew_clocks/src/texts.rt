//! Texts of instants.

ghost use Rattle.std.specs.Prelude.{◌≡◌, ◌<◌, ◌≤◌, ◌+◌, ◌*◌, ◌+ℤ◌, ◌*ℤ◌, ◌↔◌, IsSome, ◌++◌, ℕ, List, pos, IfOk, IfSome, Some, OnOk, OnErr, Ok, drop, length, true};
ghost use Rattle.jiff_core.specs.Calendar.{IsBetween};
ghost use Rattle.jiff_core.specs.Date.{epoch_day};
ghost use Rattle.crew_time.specs.Instant.{IsInYears};
ghost use Rattle.crew_clocks.specs.Civil as Spec;
ghost use Rattle.crew_clocks.specs.Civil.{IsTextOf, form_of, is_date, parts_at, parts_minute, text_minute, two_of};

use crate::civil::Parts;
use crate::fault::TimeFault;
use crew_time::Minute;
use jiff::civil;
use jiff_core::civil::Date;
use std::alloc::AllocError;

// Two digits.
fn two(a: u8, b: u8) -> Option<u8>
    ensures value { result ≡ two_of a b }
    ensures bound { IfSome result (λ n. n ≤ 99) }
{
    if a.is_ascii_digit() && b.is_ascii_digit() {
        Some((a - b'0') * 10 + (b - b'0'))
    } else {
        None
    }
}

// Whether the marks of a time stand in their places.
fn has_marks(text: &[u8]) -> bool
    ensures value { result ≡ Spec.has_marks text.now }
    ensures length { result ≡ true → length text.now ≡ 16 }
{
    text.len() == 16 && text[4] == b'-' && text[7] == b'-' && text[10] == b'T' && text[13] == b':'
}

// The numbers of a text of the form `YYYY-MM-DDTHH:MM`.
#[tactic(auto, unfolding(crate::specs::Civil::form_of))]
fn parts(text: &[u8]) -> Option<Parts>
    ensures value { result ≡ form_of text.now }
    ensures bound { IfSome result (λ p. (p.year ≤ 9_999) × (p.month ≤ 99) × (p.day ≤ 99)
        × (p.hour ≤ 99) × (p.minute ≤ 99)) }
{
    if !has_marks(text) {
        return None;
    }
    let century = two(text[0], text[1])?;
    let year = two(text[2], text[3])?;
    let month = two(text[5], text[6])?;
    let day = two(text[8], text[9])?;
    let hour = two(text[11], text[12])?;
    let minute = two(text[14], text[15])?;
    Some(Parts {
        year: century as u16 * 100 + year as u16,
        month,
        day,
        hour,
        minute,
    })
}

// The date of these numbers, if the calendar has one.
fn date_of(year: u16, month: u8, day: u8) -> Option<Date>
    requires { (year ≤ 9_999) × (month ≤ 99) × (day ≤ 99) }
    ensures some { IsSome result ↔ (is_date year month day ≡ true) }
    ensures value { IfSome result (λ d. (d.year ≡ pos year) × (d.month ≡ month) × (d.day ≡ day)) }
{
    match civil::Date::new(year as i16, month as i8, day as i8) {
        Ok(date) => Some(date.to_plain()),
        Err(_) => None,
    }
}

// That many days and a time of day, in minutes.
fn minutes_at(days: i32, hour: u8, minute: u8) -> i64
    ensures { result ≡ days *ℤ pos 1_440 +ℤ pos (hour * 60 + minute) }
{
    days as i64 * 1_440 + (hour as i64 * 60 + minute as i64)
}

// The instant of a time.
fn minute_of(parts: Parts) -> Result<Minute, TimeFault>
    requires { (parts.year ≤ 9_999) × (parts.month ≤ 99) × (parts.day ≤ 99) × (parts.hour ≤ 99)
        × (parts.minute ≤ 99) }
    ensures { result ≡ parts_minute parts }
{
    let Some(date) = date_of(parts.year, parts.month, parts.day) else {
        return Err(TimeFault::NoSuchTime);
    };
    if parts.hour > 23 || parts.minute > 59 {
        return Err(TimeFault::NoSuchTime);
    }
    if parts.year < 2_000 || parts.year > 2_099 {
        return Err(TimeFault::YearRange);
    }
    match Minute::new(minutes_at(date.to_unix_epoch_day(), parts.hour, parts.minute)) {
        Some(minute) => Ok(minute),
        None => unreachable!(),
    }
}

/// The instant of a text `YYYY-MM-DDTHH:MM`, a time in UTC of the years 2000 to 2099.
///
/// It is `BadTimeText` where the text has not this form, else `NoSuchTime` where the calendar has
/// no such date or the clock no such time (a day ends at 23:59), else `YearRange` where the year
/// is another. It takes no memory.
pub fn read_minute(text: &[u8]) -> Result<Minute, TimeFault>
    ensures value { result ≡ text_minute text.now }
    ensures years { IfOk result IsInYears }
{
    match parts(text) {
        None => Err(TimeFault::BadTimeText),
        Some(parts) => minute_of(parts),
    }
}

// The text of these numbers.
fn text_of(year: u16, month: u8, day: u8, of_day: u16) -> [u8; 16]
    requires date { (year ≤ 9_999) × (month ≤ 99) × (day ≤ 99) }
    requires time { of_day < 1_440 }
    ensures { form_of result ≡ Some (parts_at year month day of_day) }
{
    [
        b'0' + (year / 1_000) as u8,
        b'0' + (year / 100 % 10) as u8,
        b'0' + (year / 10 % 10) as u8,
        b'0' + (year % 10) as u8,
        b'-',
        b'0' + month / 10,
        b'0' + month % 10,
        b'-',
        b'0' + day / 10,
        b'0' + day % 10,
        b'T',
        b'0' + (of_day / 600) as u8,
        b'0' + (of_day / 60 % 10) as u8,
        b':',
        b'0' + (of_day % 60 / 10) as u8,
        b'0' + (of_day % 60 % 10) as u8,
    ]
}

// The year of a date in the years of instants.
fn year_of(date: Date) -> u16
    requires { IsBetween (pos 10_956) (pos 47_482) (epoch_day date) }
    ensures { (date.year ≡ pos result) × (result ≤ 9_999) }
{
    date.year as u16
}

// The text of an instant.
fn minute_text(minute: Minute) -> [u8; 16]
    ensures { IsTextOf minute result }
{
    let value = minute.get() as u32;
    let Ok(date) = Date::from_unix_epoch_day((value / 1_440) as i64) else {
        unreachable!();
    };
    text_of(year_of(date), date.month, date.day, (value % 1_440) as u16)
}

/// Appends the text of an instant, `YYYY-MM-DDTHH:MM` in UTC, to `out`.
///
/// It is an error where there is no memory for the sixteen bytes, and `out` is then unchanged.
pub fn write_minute(out: &mut Vec<u8>, minute: Minute) -> Result<(), AllocError>
    ensures ok { OnOk result ((text : List ℕ) × (out.new.items ≡ out.old.items ++ text)
        × IsTextOf minute text) }
    // What is written of an instant of those years is read as it.
    ensures reads_back { OnOk result
        (IsInYears minute → text_minute (drop (length out.old.items) out.new.items) ≡ Ok minute) }
    // A text that is read as the instant is the one that is written.
    ensures only_text { OnOk result ((text : List ℕ) → text_minute text ≡ Ok minute
        → out.new.items ≡ out.old.items ++ text) }
    ensures err { OnErr result (out.new.items ≡ out.old.items) }
{
    out.extend_from_slice(&minute_text(minute))
}
