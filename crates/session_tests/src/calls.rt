//! Public functions of libraries that no program calls: each is called with ample memory over a
//! small timetable, since no contract says that it succeeds there.
//!
//! They are lines of the cases of numbers. A record of an edit changes the timetable, behind
//! `entry SEAT NUMBER` it is an entry of a log, and `kept` keeps the timetable as the earlier one. Any
//! other line is a call, and below it stands its answer.

mod carries;
mod lists;
mod plays;
mod solves;
mod steps;

use crate::edits::edit_of;
use crate::numbers::{Desk, net_over, take};
use crate::words::{code_of, count_of, key_of};
use crew_flights::Entry;
use crew_net::{Net, Node};
use std::alloc::{AllocError, Global};
use std::thread::Threads;

// Writes numbers.
fn write_ranks(out: &mut String, ranks: &[u32]) -> Result<(), AllocError> {
    for rank in ranks {
        write!(out, " {rank}")?;
    }
    Ok(())
}

// The layers of a network.
fn write_layers(alloc: Global, net: &Net, out: &mut String) -> Option<()> {
    let layers = net.layers(alloc).ok()?;
    write_ranks(out, &layers).ok()
}

// The ranks of the duties just before the node of a base and a flight.
fn write_before(
    alloc: Global,
    net: &Net,
    base: &str,
    flight: &str,
    out: &mut String,
) -> Option<()> {
    let node = Node {
        base: code_of(base)?,
        key: key_of(flight)?,
    };
    let ranks = net.preds(alloc, &node).ok()??;
    write_ranks(out, &ranks).ok()
}

// Answers a call of networks.
fn ask_net<R: Threads + Sync>(
    rt: &R,
    alloc: Global,
    desk: &Desk,
    words: &[&str],
    out: &mut String,
) -> Option<()> {
    let net = net_over(rt, alloc, &desk.timetable)?;
    match *words {
        ["layers"] => write_layers(alloc, &net, out),
        ["before", base, flight] => write_before(alloc, &net, base, flight, out),
        _ => carries::answer(rt, alloc, &desk.earlier, &desk.timetable, &net, words, out),
    }
}

// Answers a call.
fn ask<R: Threads + Sync>(
    rt: &R,
    alloc: Global,
    desk: &Desk,
    words: &[&str],
    out: &mut String,
) -> Option<()> {
    match *words {
        ["fold"] => lists::write_fold(alloc, &desk.entries, out),
        ["play", ref steps @ ..] => plays::write_play(rt, alloc, &desk.entries, steps, out),
        ["audit", limit] => lists::write_audit(alloc, &desk.timetable, count_of(limit), out),
        ["solve"] => solves::write_solved(rt, alloc, &desk.timetable, out),
        ["solve", workers] => {
            let both = (&desk.earlier, &desk.timetable);
            solves::write_both(rt, alloc, both, count_of(workers), out)
        }
        ["copy"] => lists::write_copy(rt, alloc, out),
        ["value"] => steps::write_value(out),
        ["work"] => steps::write_work(alloc, out),
        _ => ask_net(rt, alloc, desk, words, out),
    }
}

// Adds an entry, by its seat, its number and the record of its edit.
fn enter(entries: &mut Vec<Entry>, words: &[&str]) -> Option<()> {
    let [seat, number, fields @ ..] = words else {
        return None;
    };
    let seat = seat.parse::<u8>().ok()?;
    let number = number.parse::<u32>().ok()?;
    let edit = edit_of(fields)?;
    entries.push(Entry { seat, number, edit }).ok()
}

// Keeps the timetable as the earlier one.
fn keep(alloc: Global, desk: &mut Desk) -> Option<()> {
    desk.earlier = desk.timetable.copy(alloc).ok()?;
    Some(())
}

// Writes the answer of a call.
fn answer<R: Threads + Sync>(
    rt: &R,
    alloc: Global,
    desk: &Desk,
    words: &[&str],
    out: &mut String,
) -> Option<()> {
    out.push('=').ok()?;
    ask(rt, alloc, desk, words, out)?;
    out.push('\n').ok()
}

/// Obeys a line's words.
pub fn obey<R: Threads + Sync>(
    rt: &R,
    alloc: Global,
    desk: &mut Desk,
    words: &[&str],
    out: &mut String,
) -> Option<()> {
    let (word, rest) = words.split_first()?;
    match *word {
        "kept" => keep(alloc, desk),
        "entry" => enter(&mut desk.entries, rest),
        "base" | "flight" | "price" | "cancel" => take(&mut desk.timetable, words),
        _ => answer(rt, alloc, desk, words, out),
    }
}
