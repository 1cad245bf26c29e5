//! Whole runs of the program.

use crate::beside::compare;
use crate::outbox::Collected;
use crate::streams::{Shown, Source};
use crate::ways::Ways;
use crew_command::{NotedReader, NotedWriter, Outlet, command};
use std::alloc::Global;
use std::io::{self, Eprint, Print, Read, Write};
use std::sync::Wait;
use std::thread::Threads;
use std::time::Clock;

/// A case: how its streams behave, and its input.
#[derive(Clone, Copy)]
pub struct Case<'a> {
    ways: Ways,
    input: &'a [u8],
}

impl<'a> Case<'a> {
    /// A case of this input, but for the bytes that are cut off.
    pub fn new(ways: Ways, input: &'a [u8]) -> Case<'a> {
        let kept = input.len().saturating_sub(ways.cut);
        Case {
            ways,
            input: &input[..kept],
        }
    }

    /// The input.
    pub fn input(&self) -> &'a [u8] {
        self.input
    }

    /// A reader of the input, which shows nothing.
    pub fn source<R: Print>(&self, rt: &'a R) -> Source<'a, R> {
        Source::new(&self.ways, self.input, Shown::new(rt, None, usize::MAX, 0))
    }

    /// A writer of what the run writes, with this mark before each line.
    pub fn answers<R: Print>(&self, rt: &'a R, mark: &'static str) -> Shown<'a, R> {
        let mark = if self.ways.count > 0 {
            None
        } else {
            Some(mark)
        };
        Shown::new(rt, mark, self.ways.writes, self.ways.flushes)
    }

    // A writer of the fault's text.
    fn faults<R: Print>(&self, rt: &'a R) -> Shown<'a, R> {
        Shown::new(rt, Some("! "), self.ways.tells, usize::MAX)
    }
}

// Shows the status, where it isn't 0.
fn show_status<R: Print>(rt: &R, status: u8) -> io::Result<()> {
    if status > 0 {
        println!(rt; "status {status}")?;
    }
    Ok(())
}

// Runs the program, and shows its status. Where its answers are shown too, and not only counted, it
// is compared with runs beside workers.
fn run_plain<R: Print + Eprint + Threads + Wait + Sync + Clock>(
    rt: &R,
    alloc: Global,
    words: &[&str],
    case: &Case<'_>,
) -> io::Result<()> {
    let mut answers = case.answers(rt, "");
    let told = Collected::new(rt, alloc);
    let status = command(
        rt,
        alloc,
        words,
        &mut NotedReader::new(case.source(rt)),
        &mut NotedWriter::new(&mut answers),
        &told,
        &mut NotedWriter::new(case.faults(rt)),
    );
    told.show(&mut answers)?;
    answers.show_count()?;
    show_status(rt, status)?;
    if case.ways.count > 0 {
        return Ok(());
    }
    compare(rt, alloc, words, case)
}

// Runs the program over an outlet.
fn run_over<T: Threads + Wait + Sync + Clock + Eprint, R: Read, W: Write + Drop, F: Write + Drop>(
    rt: &T,
    alloc: Global,
    words: &[&str],
    reader: &mut R,
    outlet: &Outlet<W>,
    faults: F,
) -> u8 {
    let mut reader = outlet.before(reader);
    let mut writer = outlet.writer();
    let mut faults = NotedWriter::new(faults);
    let told = Collected::new(rt, alloc);
    command(
        rt,
        alloc,
        words,
        &mut reader,
        &mut writer,
        &told,
        &mut faults,
    )
}

// Runs the program over an outlet, which answers while the input is open, and shows its status.
fn run_open<'a, R: Print + Eprint + Threads + Wait + Sync + Clock>(
    rt: &'a R,
    alloc: Global,
    words: &[&str],
    case: &Case<'a>,
) -> io::Result<()> {
    let echo = Shown::new(rt, Some("> "), usize::MAX, 0);
    let mut source = Source::new(&case.ways, case.input, echo);
    let outlet = Outlet::new(alloc, case.answers(rt, "< "))?;
    let status = run_over(rt, alloc, words, &mut source, &outlet, case.faults(rt));
    show_status(rt, status)
}

/// Runs the program under these words, and shows what came of it.
pub fn play_run<R: Print + Eprint + Threads + Wait + Sync + Clock>(
    rt: &R,
    alloc: Global,
    words: &[&str],
    case: &Case<'_>,
) -> io::Result<()> {
    if case.ways.open > 0 {
        run_open(rt, alloc, words, case)
    } else {
        run_plain(rt, alloc, words, case)
    }
}
