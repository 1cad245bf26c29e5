//! Runs beside workers, which have to come to what the same run without them comes to.

use crate::outbox::Collected;
use crate::runs::Case;
use crew_command::{NotedReader, NotedWriter, command};
use std::alloc::{AllocError, Global};
use std::io::{self, Eprint, Print};
use std::sync::Wait;
use std::thread::Threads;
use std::time::Clock;

// What a run comes to: what it writes, and its status.
type Outcome = (Vec<u8>, u8);

// Runs the program over a writer in memory.
fn outcome_of<R: Print + Eprint + Threads + Wait + Sync + Clock>(
    rt: &R,
    alloc: Global,
    words: &[&str],
    case: &Case<'_>,
) -> Outcome {
    let mut written = Vec::new(alloc);
    let status = command(
        rt,
        alloc,
        words,
        &mut NotedReader::new(case.source(rt)),
        &mut NotedWriter::new(&mut written),
        &Collected::new(rt, alloc),
        &mut NotedWriter::new(Vec::new(alloc)),
    );
    (written, status)
}

// These words, with so many workers.
fn with_workers<'a>(
    alloc: Global,
    words: &[&'a str],
    workers: &'a str,
) -> Result<Vec<&'a str>, AllocError> {
    let mut all = words.to_vec(alloc)?;
    all.extend_from_slice(&["--workers", workers])?;
    Ok(all)
}

// Whether words ask for a session, and say nothing of workers.
fn is_alone(words: &[&str]) -> bool {
    words.get(1) == Some(&"run") && !words.contains(&"--workers")
}

// Runs a session beside so many workers; shows where that comes to something else.
fn compare_beside<R: Print + Eprint + Threads + Wait + Sync + Clock>(
    rt: &R,
    alloc: Global,
    words: &[&str],
    case: &Case<'_>,
    alone: &Outcome,
    workers: &str,
) -> io::Result<()> {
    let words = with_workers(alloc, words, workers)?;
    if outcome_of(rt, alloc, &words, case) == *alone {
        Ok(())
    } else {
        println!(rt; "beside {workers} workers it comes to something else")
    }
}

// Runs a session once more without workers, and beside 1 and 8.
fn compare_all<R: Print + Eprint + Threads + Wait + Sync + Clock>(
    rt: &R,
    alloc: Global,
    words: &[&str],
    case: &Case<'_>,
) -> io::Result<()> {
    let alone = outcome_of(rt, alloc, words, case);
    for workers in ["1", "8"] {
        compare_beside(rt, alloc, words, case, &alone, workers)?;
    }
    Ok(())
}

/// Runs a session once more without workers, and beside 1 and 8; shows which comes to something
/// else.
pub fn compare<R: Print + Eprint + Threads + Wait + Sync + Clock>(
    rt: &R,
    alloc: Global,
    words: &[&str],
    case: &Case<'_>,
) -> io::Result<()> {
    if is_alone(words) {
        compare_all(rt, alloc, words, case)
    } else {
        Ok(())
    }
}
