//! Numbers of duties, which stay from one network to the next, and calls of what no program calls.
//!
//! Each line of a case's input is written again. A record of an edit makes the timetable, and
//! `timetable new` begins another; `numbers new` makes numbers of its duties, and `numbers next`
//! those that follow the last ones. Below a line that asks for numbers, which have places from 0,
//! stands its answer; a line that begins with `;` says what follows is about. `crate::calls` tells
//! the other lines.

ghost use Rattle.std.specs.Prelude.{◌≡◌, IfSome};
ghost use Rattle.crew_dirty.specs.Dirty.{IsNetOver};
ghost use Rattle.crew_rules.specs.Settings.{standard};

use crate::calls;
use crate::edits::edit_of;
use crate::words::{count_of, key_of};
use crew_duty::list_duties;
use crew_flights::{Entry, Timetable};
use crew_net::Net;
use crew_numbers::Numbers;
use crew_rules::Settings;
use std::alloc::{AllocError, Global};
use std::io::{self, Print};
use std::sync::Arc;
use std::thread::Threads;

/// A timetable with the one that was kept before, the entries of a log, and numbers, each after
/// those before.
#[derive(Drop)]
pub struct Desk {
    pub earlier: Timetable,
    pub timetable: Timetable,
    pub entries: Vec<Entry>,
    numbers: Vec<Numbers>,
}

/// The network of a timetable, under the standard settings.
pub fn net_over<R: Threads + Sync>(rt: &R, alloc: Global, timetable: &Timetable) -> Option<Net>
    ensures settings { IfSome result (λ net. net.settings ≡ standard) }
    ensures over { IfSome result (IsNetOver timetable.now) }
{
    let settings = Settings::standard();
    settings.check().ok()?;
    let duties = list_duties(rt, alloc, &settings, timetable).ok()?;
    let duties = Arc::new(alloc, duties).ok()?;
    Net::build(alloc, &settings, timetable, duties).ok()
}

// Adds numbers of a network after the last ones, or with none before them.
fn push(alloc: Global, all: &mut Vec<Numbers>, net: Net) -> Option<()> {
    let net = Arc::new(alloc, net).ok()?;
    let numbers = match all.last() {
        Some(last) => last.next(alloc, net),
        None => Numbers::new(alloc, net),
    };
    all.push(numbers.ok()?).ok()
}

// Adds numbers of the timetable's network.
fn make<R: Threads + Sync>(rt: &R, alloc: Global, desk: &mut Desk) -> Option<()> {
    let net = net_over(rt, alloc, &desk.timetable)?;
    push(alloc, &mut desk.numbers, net)
}

// The number of the duty of one leg that has a flight, if there is one.
fn number_of(numbers: &Numbers, flight: &str) -> Option<u32> {
    let rank = numbers.net().rank_of_key(&key_of(flight)?)?;
    numbers.numbers().get(rank).copied()
}

// Writes the numbers of duties of one leg each.
fn write_numbers(out: &mut String, numbers: &Numbers, flights: &[&str]) -> Result<(), AllocError> {
    for flight in flights {
        match number_of(numbers, *flight) {
            Some(number) => write!(out, " {number}")?,
            None => out.push_str(" none")?,
        }
    }
    Ok(())
}

// Writes the flights of the duty that has a number, if one has.
fn write_duty_at(out: &mut String, numbers: &Numbers, number: usize) -> Result<(), AllocError> {
    let Some(rank) = numbers.ranks().get(number).copied() else {
        return out.push_str(" none");
    };
    let rank = rank as usize;
    let net = numbers.net();
    if rank >= net.duty_count() {
        return out.push_str(" none");
    }
    for leg in net.duty(rank).key.legs() {
        write!(out, " {}", leg.flight().get())?;
    }
    Ok(())
}

// Writes what is asked of numbers.
fn write_asked(out: &mut String, numbers: &Numbers, words: &[&str]) -> Option<()> {
    match *words {
        ["of", ref flights @ ..] => write_numbers(out, numbers, flights).ok(),
        ["at", number] => write_duty_at(out, numbers, count_of(number)).ok(),
        _ => None,
    }
}

// Writes what is asked of the numbers at a place.
fn answer(desk: &Desk, place: &str, words: &[&str], out: &mut String) -> Option<()> {
    let numbers = desk.numbers.get(count_of(place))?;
    out.push('=').ok()?;
    write_asked(out, numbers, words)?;
    out.push('\n').ok()
}

/// Takes an edit in.
pub fn take(timetable: &mut Timetable, fields: &[&str]) -> Option<()> {
    let edit = edit_of(fields)?;
    match timetable.apply(&edit) {
        Ok(_) => Some(()),
        Err(_) => None,
    }
}

// Obeys a line's words.
fn obey<R: Threads + Sync>(
    rt: &R,
    alloc: Global,
    desk: &mut Desk,
    words: &[&str],
    out: &mut String,
) -> Option<()> {
    match *words {
        ["timetable", "new"] => {
            desk.timetable = Timetable::new(alloc);
            Some(())
        }
        ["numbers", "new"] => {
            desk.numbers.clear();
            make(rt, alloc, desk)
        }
        ["numbers", "next"] => make(rt, alloc, desk),
        ["number", place, ref words @ ..] => answer(desk, place, words, out),
        _ => calls::obey(rt, alloc, desk, words, out),
    }
}

// Writes a line, and what it comes to.
fn obey_line<R: Threads + Sync>(
    rt: &R,
    alloc: Global,
    desk: &mut Desk,
    line: &str,
    out: &mut String,
) -> Result<(), AllocError> {
    out.push_str(line)?;
    out.push('\n')?;
    if line.is_empty() || line.starts_with(';') {
        return Ok(());
    }
    let words: Vec<&str> = line.split([' ', ',']).collect(alloc)?;
    match obey(rt, alloc, desk, &words, out) {
        Some(()) => Ok(()),
        None => out.push_str("= nothing\n"),
    }
}

/// Obeys the lines of a case.
pub fn play<R: Print + Threads + Sync>(rt: &R, alloc: Global, input: &str) -> io::Result<()> {
    let mut desk = Desk {
        earlier: Timetable::new(alloc),
        timetable: Timetable::new(alloc),
        entries: Vec::new(alloc),
        numbers: Vec::new(alloc),
    };
    let mut out = String::new(alloc);
    for line in input.lines() {
        obey_line(rt, alloc, &mut desk, line, &mut out)?;
    }
    print!(rt; "{out}")
}
