//! Plays the cases that stand on standard input, and writes a transcript of what came of them:
//! whole runs of the program, from their words to their status, over readers and writers in memory
//! that may be slow or fail, and what the libraries (`library`), numbers of duties (`numbers`),
//! functions that no program calls (`calls`), a log, a published pair and a running service (`log`,
//! `pair`, `service`) answer to calls, each a line of the input that is written again with its
//! answer. The stored run has the cases (`stdin`) and what has to come of them (`stdout`), both as
//! plain data, which costs no proof. It promises nothing to others, so its functions have no
//! clause, but for what a call below asks for.
//!
//! A case begins with `#` and its name. Lines that begin with `%` say how its streams behave
//! (`Ways`), other lines are remarks, and the line that begins with `$` has its words; what
//! follows up to the next case is its input, byte for byte. Nothing else has a `#` or a `$`. The
//! transcript has all of the case but its input, then what was written, the fault's text with `! `
//! before each of its lines, and the status where it isn't 0.
//!
//! `service SEATS VIEWERS WORKERS` is a service with so many of each: threads that work, clients that
//! submit, a planner that settles, and viewers. `meet WORKERS` is a service whose gates hold whoever
//! comes first until another comes.
#![tactic(auto)]

mod beside;
mod calls;
mod desk;
mod edits;
mod library;
mod logs;
mod meeting;
mod numbers;
mod outbox;
mod pairs;
mod runs;
mod serving;
mod sights;
mod streams;
mod versions;
mod ways;
mod words;

use runs::Case;
use std::alloc::Global;
use std::io::{self, Eprint, Print, Read};
use std::str::from_utf8;
use std::sync::Wait;
use std::thread::Threads;
use std::time::Clock;
use ways::Ways;
use words::{count_at, parted};

// A part of a case as text; nothing where it is none.
fn text_of(part: &[u8]) -> &str {
    from_utf8(part).unwrap_or("")
}

// What stands before the first such byte, and what after it.
fn cut(text: &[u8], at: u8) -> (&[u8], &[u8]) {
    let mut parts = text.splitn(2, |byte| *byte == at);
    match (parts.next(), parts.next()) {
        (Some(before), Some(after)) => (before, after),
        _ => (text, &[]),
    }
}

// Plays what the words ask for, the first of which is the program's name, or names another thing.
fn play_words<R: Print + Eprint + Threads + Wait + Sync + Clock>(
    rt: &R,
    alloc: Global,
    words: &[&str],
    case: &Case<'_>,
) -> io::Result<()> {
    let input = text_of(case.input());
    let (word, rest) = parted(words);
    match word {
        "library" => library::play(rt, alloc, input),
        "numbers" | "calls" => numbers::play(rt, alloc, input),
        "log" => logs::play_log(rt, alloc, input),
        "pair" => pairs::play_pair(rt, alloc, rest, input),
        "service" => serving::play(rt, alloc, rest, input),
        "meet" => meeting::play(rt, alloc, count_at(rest, 0)),
        _ => runs::play_run(rt, alloc, words, case),
    }
}

// Plays a case.
fn play<R: Print + Eprint + Threads + Wait + Sync + Clock>(
    rt: &R,
    alloc: Global,
    text: &[u8],
) -> io::Result<()> {
    let (head, rest) = cut(text, b'$');
    let (line, input) = cut(rest, b'\n');
    let head = text_of(head);
    let line = text_of(line);
    println!(rt; "#{head}${line}")?;
    let case = Case::new(Ways::read(head), input);
    let words: Vec<&str> = line.split_whitespace().collect(alloc)?;
    play_words(rt, alloc, words.as_slice(), &case)
}

// Plays each case of a text.
fn play_all<R: Print + Eprint + Threads + Wait + Sync + Clock>(
    rt: &R,
    alloc: Global,
    text: &[u8],
) -> io::Result<()> {
    for case in text.split(|byte| *byte == b'#').skip(1) {
        play(rt, alloc, case)?;
    }
    Ok(())
}

fn main(rt: HostRuntime) -> io::Result<()> {
    let mut text = Vec::new(rt.alloc());
    rt.reader().read_to_end(&mut text)?;
    play_all(&rt, rt.alloc(), text.as_slice())
}
