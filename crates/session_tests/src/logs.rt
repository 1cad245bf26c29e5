//! A log and its seats, by commands.

ghost use Rattle.crew_log.specs.Logs.{AreOf};

use crate::words::{Answer, read};
use crew_flights::{Edit, FlightId};
use crew_log::{Log, Receipt, Seat};
use std::alloc::Global;
use std::io::{self, Print};
use std::sync::Wait;
use std::thread::{Threads, join};

// Takes the next seat, which stands after those before, and gives its number.
fn take(log: &mut Log, seats: &mut Vec<Seat>) -> Answer {
    match log.seat() {
        Ok(seat) => {
            let number = seat.number();
            match seats.push(seat) {
                Ok(()) => Ok(u64::from(number)),
                Err(_) => Err(None),
            }
        }
        Err(fault) => Err(fault.number()),
    }
}

// Submits an edit that cancels flight 1, and gives its place.
fn submit<R: Wait>(rt: &R, seat: &mut Seat, log: &Log) -> Answer {
    let Some(id) = FlightId::new(1) else {
        return Err(None);
    };
    match seat.submit(rt, log, Edit::Cancel(id)) {
        Ok(receipt) => Ok(receipt.place() as u64),
        Err((_, fault)) => Err(fault.number()),
    }
}

// Submits so many, and gives the place of the last.
fn push<R: Wait>(rt: &R, seat: &mut Seat, log: &Log, count: usize) -> Answer {
    let mut last = Err(None);
    for _ in 0..count {
        last = submit(rt, seat, log);
    }
    last
}

// The same of a seat that may not be there.
fn push_by<R: Wait>(rt: &R, seat: Option<&mut Seat>, log: &Log, count: usize) -> Answer {
    match seat {
        Some(seat) => push(rt, seat, log, count),
        None => Err(None),
    }
}

// How many entries a seat has made.
fn made(seat: Option<&Seat>) -> Answer {
    match seat {
        Some(seat) => Ok(u64::from(seat.made())),
        None => Err(None),
    }
}

// Submits so many by each of the first two seats at once, in threads.
fn push_both<R: Threads + Wait + Sync>(
    rt: &R,
    seats: &mut [Seat],
    log: &Log,
    count: usize,
) -> Answer {
    let [first, second, ..] = seats else {
        return Err(None);
    };
    let (one, other) = join(
        rt,
        move || push(rt, first, log, count).is_ok(),
        move || push(rt, second, log, count).is_ok(),
    );
    if one && other {
        Ok(count as u64)
    } else {
        Err(None)
    }
}

// The seat and the number of the entry that a receipt shows.
fn sender(log: &Log, receipts: &[Receipt], at: usize) -> Option<(u8, u32)>
    requires { AreOf log.now receipts.now }
{
    let entry = receipts.get(at)?.entry(log);
    Some((entry.seat, entry.number))
}

// How many entries of a seat are among these, where they lie in order of their numbers from 0.
fn count_in_order(log: &Log, receipts: &[Receipt], seat: usize) -> Answer
    requires { AreOf log.now receipts.now }
{
    let mut next: u32 = 0;
    for at in 0..receipts.len() {
        match sender(log, receipts, at) {
            Some((by, number)) if usize::from(by) == seat => {
                if number != next {
                    return Err(None);
                }
                next = next.saturating_add(1);
            }
            _ => {}
        }
    }
    Ok(u64::from(next))
}

// How many entries of a seat there are, in order.
fn sent_by(alloc: Global, log: &Log, seat: usize) -> Answer {
    match log.read_from(alloc, 0) {
        Ok(receipts) => count_in_order(log, &receipts, seat),
        Err(_) => Err(None),
    }
}

// How many entries stand from a place on.
fn count_from(alloc: Global, log: &Log, place: usize) -> Answer {
    match log.read_from(alloc, place) {
        Ok(receipts) => Ok(receipts.len() as u64),
        Err(_) => Err(None),
    }
}

// How many entries stand from a place on, for one who has the receipts of all that stand.
fn count_past(alloc: Global, log: &Log, place: usize) -> Answer {
    match log.read_from(alloc, 0) {
        Ok(shown) => match log.read_past(alloc, place, &shown) {
            Ok(receipts) => Ok(receipts.len() as u64),
            Err(_) => Err(None),
        },
        Err(_) => Err(None),
    }
}

// The seat of this number of a log.
fn seat_of(log: &mut Log, number: usize) -> Option<Seat> {
    for _ in 0..number {
        log.seat().ok()?;
    }
    log.seat().ok()
}

// Submits an edit by a new seat of another log, which has this number, and gives its place.
fn submit_as_stranger<R: Wait>(rt: &R, alloc: Global, log: &Log, number: usize) -> Answer {
    let Ok(mut other) = Log::new(alloc) else {
        return Err(None);
    };
    match seat_of(&mut other, number) {
        Some(mut seat) => submit(rt, &mut seat, log),
        None => Err(None),
    }
}

// The seat and the number of the entry at a place.
fn sender_at(alloc: Global, log: &Log, place: usize) -> Option<(u8, u32)> {
    match log.read_from(alloc, place) {
        Ok(receipts) => sender(log, &receipts, 0),
        Err(_) => None,
    }
}

// Which seat made the entry at a place.
fn seat_at(alloc: Global, log: &Log, place: usize) -> Answer {
    match sender_at(alloc, log, place) {
        Some((seat, _)) => Ok(u64::from(seat)),
        None => Err(None),
    }
}

// The number of the entry at a place.
fn number_at(alloc: Global, log: &Log, place: usize) -> Answer {
    match sender_at(alloc, log, place) {
        Some((_, number)) => Ok(u64::from(number)),
        None => Err(None),
    }
}

// Obeys a command.
fn obey<R: Threads + Wait + Sync>(
    rt: &R,
    alloc: Global,
    log: &mut Log,
    seats: &mut Vec<Seat>,
    line: &str,
) -> Answer {
    let (word, first, second) = read(line);
    match word {
        "take" => take(log, seats),
        "push" => push_by(rt, seats.get_mut(first), log, second),
        "both" => push_both(rt, seats, log, first),
        "made" => made(seats.get(first)),
        "from" => count_from(alloc, log, first),
        "past" => count_past(alloc, log, first),
        "stranger" => submit_as_stranger(rt, alloc, log, first),
        "seat" => seat_at(alloc, log, first),
        "number" => number_at(alloc, log, first),
        "ordered" => sent_by(alloc, log, first),
        _ => Err(None),
    }
}

// Obeys each command, and shows what it comes to.
fn obey_all<R: Print + Threads + Wait + Sync>(
    rt: &R,
    alloc: Global,
    log: &mut Log,
    seats: &mut Vec<Seat>,
    input: &str,
) -> io::Result<()> {
    for line in input.lines() {
        println!(rt; "{line}: {:?}", obey(rt, alloc, log, seats, line))?;
    }
    Ok(())
}

/// Plays the commands of a case over a log.
pub fn play_log<R: Print + Threads + Wait + Sync>(
    rt: &R,
    alloc: Global,
    input: &str,
) -> io::Result<()> {
    match Log::new(alloc) {
        Ok(mut log) => obey_all(rt, alloc, &mut log, &mut Vec::new(alloc), input),
        Err(fault) => Err(io::Error::from(fault)),
    }
}
