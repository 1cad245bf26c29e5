//! Calls of a log's fold, of the audit and of a version's copy.

use crate::versions::fill;
use crew_audit::{Partial, enumerate};
use crew_flights::{Entry, Timetable, Verdict, fold};
use crew_rules::Settings;
use crew_version::Version;
use std::alloc::{AllocError, Global};
use std::thread::Threads;

// Writes what each entry was answered, 0 where it was accepted, and the bases with their prices.
fn write_folded(
    out: &mut String,
    timetable: &Timetable,
    verdicts: &[Verdict],
) -> Result<(), AllocError> {
    for verdict in verdicts {
        match verdict {
            Verdict::Accepted => out.push_str(" 0")?,
            Verdict::Refused(why) => write!(out, " {}", why.number())?,
        }
    }
    for (_, price) in timetable.bases() {
        write!(out, " base {price}")?;
    }
    Ok(())
}

/// What a log's entries come to.
pub fn write_fold(alloc: Global, entries: &[Entry], out: &mut String) -> Option<()> {
    match fold(alloc, entries) {
        Ok((timetable, verdicts)) => write_folded(out, &timetable, &verdicts).ok(),
        Err(_) => None,
    }
}

// Writes the cost of each partial pairing, and which are pairings.
fn write_partials(out: &mut String, partials: &[Partial]) -> Result<(), AllocError> {
    for partial in partials {
        let mark = if partial.pairing { " home" } else { "" };
        write!(out, " {}{mark}", partial.cost())?;
    }
    Ok(())
}

/// The partial pairings of a timetable, of which there are so many at most.
pub fn write_audit(
    alloc: Global,
    timetable: &Timetable,
    limit: usize,
    out: &mut String,
) -> Option<()> {
    match enumerate(alloc, &Settings::standard(), timetable, limit) {
        Ok(partials) => write_partials(out, &partials).ok(),
        Err(_) => None,
    }
}

// Writes the number of a copy of a version, and how many entries it has.
fn write_copied(alloc: Global, version: &Version, out: &mut String) -> Option<()> {
    match version.copy(alloc) {
        Ok(copy) => write!(out, " {} of {}", copy.number(), copy.count()).ok(),
        Err(_) => None,
    }
}

/// A copy of the second version, of an entry more each.
pub fn write_copy<R: Threads + Sync>(rt: &R, alloc: Global, out: &mut String) -> Option<()> {
    let mut all = Vec::new(alloc);
    fill(rt, alloc, &mut all, 0)?;
    write_copied(alloc, all.last()?, out)
}
