//! The program `crewprice`: finds the legal crew pairing of least reduced cost, again after each
//! change of flights and prices.
//!
//! `main` hands the words, the standard input and the standard outputs to `command`, which does the
//! whole run over any reader and writers and gives the status.
#![tactic(auto)]

ghost use Rattle.std.specs.Prelude.{◌≡◌, ◌≢◌};
ghost use Rattle.std.specs.IoError.{error_kind};

use crew_command::{Fault, NotedWriter, Outlet, Post, command};
use std::io::ErrorKind;
use std::process::ExitCode;
use std::rt::Env;
use std::{env, io};

// The words of the command line, the program's own name first.
fn words_of<R: Env + AllocGlobal>(rt: &R) -> io::Result<Vec<String>> {
    let mut words = Vec::new(rt.alloc());
    for word in env::args(rt)? {
        words.push(word)?;
    }
    Ok(words)
}

// The fault of words that can't be had: one is no text, or there is no memory.
fn fault_in_words(error: &io::Error) -> Fault
    ensures word { error_kind error.now ≡ ErrorKind.InvalidData → result ≡ Fault.Word }
    ensures memory { error_kind error.now ≢ ErrorKind.InvalidData → result ≡ Fault.Memory }
{
    match error.kind() {
        ErrorKind::InvalidData => Fault::Word,
        _ => Fault::Memory,
    }
}

fn main(rt: HostRuntime) -> ExitCode {
    let mut faults = NotedWriter::new(rt.stderr());
    let words = match words_of(&rt) {
        Ok(words) => words,
        Err(error) => {
            let fault = fault_in_words(&error);
            fault.tell(&mut faults);
            return ExitCode::from(fault.status());
        }
    };
    let Ok(outlet) = Outlet::new(rt.alloc(), io::writer(&rt)) else {
        Fault::Memory.tell(&mut faults);
        return ExitCode::from(Fault::Memory.status());
    };
    let status = command(
        &rt,
        rt.alloc(),
        words.as_slice(),
        &mut outlet.before(rt.reader()),
        &mut outlet.writer(),
        &Post::new(&rt, io::writer(&rt)),
        &mut faults,
    );
    ExitCode::from(status)
}
