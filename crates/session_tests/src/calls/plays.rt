//! Calls of plays of steps.

use crew_command::crew_core::{Reply, Step, Trace, play};
use crew_flights::Entry;
use crew_rules::Settings;
use std::alloc::{AllocError, Global};
use std::thread::Threads;

// The step of a name, with its number where it has one.
fn named(name: &str, number: u8) -> Option<Step> {
    match name {
        "begin" => Some(Step::Begin),
        "claim" => Some(Step::Claim),
        "bring" => Some(Step::Bring(u32::from(number))),
        "back" => Some(Step::GiveBack(u32::from(number))),
        "abandon" => Some(Step::Abandon),
        "seal" => Some(Step::Seal),
        "publish" => Some(Step::Publish),
        "ask" => Some(Step::Ask(number)),
        _ => None,
    }
}

// The step that a word names, as `begin`, or `bring:0`.
fn step_of(word: &str) -> Option<Step> {
    match word.split_once(':') {
        Some((name, number)) => named(name, number.parse::<u8>().ok()?),
        None => named(word, 0),
    }
}

// The pushes of entries, and after them the steps that words name.
fn steps_of(alloc: Global, entries: &[Entry], words: &[&str]) -> Option<Vec<Step>> {
    let mut steps = Vec::new(alloc);
    for entry in entries {
        steps.push(Step::Push(*entry)).ok()?;
    }
    for word in words {
        steps.push(step_of(word)?).ok()?;
    }
    Some(steps)
}

// Writes what became of a job.
fn write_job(out: &mut String, reply: &Reply) -> Result<(), AllocError> {
    match reply {
        Reply::Claimed { job, .. } => write!(out, " claim {job}"),
        Reply::NoneReady => out.push_str(" none"),
        Reply::Brought { job, brought } => write!(out, " bring {job} {brought:?}"),
        Reply::GivenBack { job, freed } => write!(out, " back {job} {freed}"),
        _ => write!(out, " {}", reply.number().unwrap_or(0)),
    }
}

// Writes what a step came to: the number of a refusal, or a word and what it is about.
fn write_reply(out: &mut String, reply: &Reply) -> Result<(), AllocError> {
    match reply {
        Reply::Pushed(place) => write!(out, " push {place}"),
        Reply::Begun => out.push_str(" begun"),
        Reply::Abandoned(open) => write!(out, " abandon {open}"),
        Reply::Sealed { version, .. } => write!(out, " seal {}", version.number()),
        Reply::Published(version) => write!(out, " publish {}", version.number()),
        Reply::Answered { reader, version } => { write!(out, " ask {reader} {}", version.number()) }
        _ => write_job(out, reply),
    }
}

// Writes all replies, and how many versions are published.
fn write_trace(out: &mut String, trace: &Trace) -> Result<(), AllocError> {
    for reply in &trace.replies {
        write_reply(out, reply)?;
    }
    write!(out, " of {}", trace.published.len())
}

/// What a play comes to that pushes these entries, and then goes by the steps that words name.
pub fn write_play<R: Threads + Sync>(
    rt: &R,
    alloc: Global,
    entries: &[Entry],
    words: &[&str],
    out: &mut String,
) -> Option<()> {
    let steps = steps_of(alloc, entries, words)?;
    match play(rt, alloc, &Settings::standard(), &steps) {
        Ok(trace) => write_trace(out, &trace).ok(),
        Err(_) => None,
    }
}
