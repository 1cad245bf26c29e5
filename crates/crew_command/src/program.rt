//! The whole run, over any reader and writers.

ghost use Rattle.std.specs.Prelude.{◌≡◌, ◌<◌, ◌≤◌, IfErr, map};
ghost use Rattle.clap.specs.Words.{kind_of};
ghost use Rattle.crew_rules.specs.Settings.{IsChecked, check_of};
ghost use Rattle.crew_serve.specs.crew_session.Streams.{bytes_held, bytes_left, read_failed, write_failed};
ghost use Rattle.crew_command.specs.Program.{Answers, Comes, Outcome, Plays, Shows, Reports, WroteOf, status_after, streams};
ghost use Rattle.crew_serve.specs.Serving.{IsServingFault};
ghost use Rattle.crew_words.specs.Words.{settings_of};
ghost use Rattle.crew_words.specs.declared.task.Task.TheVariants.{Run};

use crate::fault::Fault;
use clap::error::ErrorKind;
use crew_rules::Settings;
use crew_serve::crew_session::{NotedReader, NotedWriter, Plain, SessionFault, replay, run};
use crew_serve::{Crew, House, Outbox, run_with_workers, serve};
use crew_words::{Hosting, Sharing, Task, read_words};
use std::alloc::Global;
use std::convert::AsStr;
use std::io;
use std::io::{Eprint, Read, Write};
use std::sync::Wait;
use std::thread::Threads;
use std::time::Clock;

// Writes the help that the words asked for.
fn write_help<W: Write>(help: &clap::Error, writer: &mut W) -> io::Result<()> {
    write!(writer, "{help}")?;
    writer.flush()
}

// Shows the help that the words asked for. Where it can't, the writer failed, or there was no
// memory.
fn show<W: Write + Drop>(help: &clap::Error, writer: &mut NotedWriter<W>) -> Result<(), Fault>
    ensures { Shows (write_failed writer.new) result }
{
    match write_help(help, &mut *writer) {
        Ok(()) => Ok(()),
        Err(_) => {
            if writer.has_failed() {
                Err(Fault::Write)
            } else {
                Err(Fault::Memory)
            }
        }
    }
}

// Answers words that the parser doesn't take: with the help that they asked for, or a fault.
fn answer<W: Write + Drop>(error: clap::Error, writer: &mut NotedWriter<W>) -> Result<(), Fault>
    ensures { Answers (kind_of error) error (bytes_held W.contents writer.old)
        (bytes_held W.contents writer.new) (write_failed writer.new) result }
{
    match error.kind() {
        ErrorKind::OutOfMemory => Err(Fault::Memory),
        ErrorKind::DisplayHelp | ErrorKind::DisplayVersion => show(&error, writer),
        _ => Err(Fault::Usage(error)),
    }
}

// Plays a session in this thread.
fn play_alone<T: Threads + Sync, R: Read + Drop, W: Write + Drop>(
    rt: &T,
    alloc: Global,
    settings: &Settings,
    sharing: Sharing,
    reader: &mut NotedReader<R>,
    writer: &mut NotedWriter<W>,
) -> Result<(), SessionFault>
    requires checked { IsChecked settings.now }
    requires alone { sharing.workers ≡ 0 }
    ensures { WroteOf (Run settings.now sharing) (streams (bytes_left R.remaining reader.old)
        (bytes_held W.contents writer.old) (bytes_held W.contents writer.new)
        (read_failed reader.new) (write_failed writer.new)) result }
{
    let mut engine = Plain::new(alloc, settings);
    run(rt, alloc, reader, writer, settings, &mut engine)
}

// Plays a session beside workers.
fn play_beside<T: Threads + Wait + Sync + Clock + Eprint, R: Read + Drop, W: Write + Drop>(
    rt: &T,
    alloc: Global,
    settings: &Settings,
    sharing: Sharing,
    reader: &mut NotedReader<R>,
    writer: &mut NotedWriter<W>,
) -> Result<(), SessionFault>
    requires checked { IsChecked settings.now }
    requires some { 0 < sharing.workers }
    ensures { WroteOf (Run settings.now sharing) (streams (bytes_left R.remaining reader.old)
        (bytes_held W.contents writer.old) (bytes_held W.contents writer.new)
        (read_failed reader.new) (write_failed writer.new)) result }
{
    let Sharing { workers, progress } = sharing;
    let crew = Crew { workers, progress };
    run_with_workers(rt, alloc, reader, writer, settings, crew)
}

// Plays a session, in this thread alone where there are no workers.
fn play_session<T: Threads + Wait + Sync + Clock + Eprint, R: Read + Drop, W: Write + Drop>(
    rt: &T,
    alloc: Global,
    settings: &Settings,
    sharing: Sharing,
    reader: &mut NotedReader<R>,
    writer: &mut NotedWriter<W>,
) -> Result<(), SessionFault>
    requires { IsChecked settings.now }
    ensures { WroteOf (Run settings.now sharing) (streams (bytes_left R.remaining reader.old)
        (bytes_held W.contents writer.old) (bytes_held W.contents writer.new)
        (read_failed reader.new) (write_failed writer.new)) result }
{
    if sharing.workers == 0 {
        play_alone(rt, alloc, settings, sharing, reader, writer)
    } else {
        play_beside(rt, alloc, settings, sharing, reader, writer)
    }
}

// Serves clients, whose answers go elsewhere than a session's lines.
fn play_service<T: Threads + Wait + Sync, R: Read + Drop, S: Outbox + Sync>(
    rt: &T,
    alloc: Global,
    settings: &Settings,
    hosting: Hosting,
    reader: &mut NotedReader<R>,
    answers: &S,
) -> Result<(), SessionFault>
    requires { IsChecked settings.now }
    ensures { IfErr result (IsServingFault (read_failed reader.new)) }
{
    let Hosting {
        seats,
        viewers,
        workers,
    } = hosting;
    let house = House {
        seats,
        viewers,
        workers,
    };
    serve(rt, alloc, reader, answers, settings, house)
}

// Does a task whose settings are in their ranges.
fn play<
    T: Threads + Wait + Sync + Clock + Eprint,
    R: Read + Drop,
    W: Write + Drop,
    S: Outbox + Sync,
>(
    rt: &T,
    alloc: Global,
    task: Task,
    reader: &mut NotedReader<R>,
    writer: &mut NotedWriter<W>,
    answers: &S,
) -> Result<(), SessionFault>
    requires { IsChecked (settings_of task) }
    ensures { WroteOf task (streams (bytes_left R.remaining reader.old)
        (bytes_held W.contents writer.old) (bytes_held W.contents writer.new)
        (read_failed reader.new) (write_failed writer.new)) result }
{
    match task {
        Task::Run(settings, sharing) => {
            play_session(rt, alloc, &settings, sharing, reader, writer)
        }
        Task::Replay(settings) => replay(rt, alloc, reader, writer, &settings),
        Task::Serve(settings, hosting) => {
            play_service(rt, alloc, &settings, hosting, reader, answers)
        }
    }
}

// Does a task, or refuses its settings.
fn run_task<
    T: Threads + Wait + Sync + Clock + Eprint,
    R: Read + Drop,
    W: Write + Drop,
    S: Outbox + Sync,
>(
    rt: &T,
    alloc: Global,
    task: Task,
    reader: &mut NotedReader<R>,
    writer: &mut NotedWriter<W>,
    answers: &S,
) -> Result<(), Fault>
    ensures { Plays task (check_of (settings_of task))
        (streams (bytes_left R.remaining reader.old) (bytes_held W.contents writer.old)
        (bytes_held W.contents writer.new) (read_failed reader.new) (write_failed writer.new))
        result }
{
    if let Err(bad) = task.settings().check() {
        return Err(Fault::Setting(bad));
    }
    match play(rt, alloc, task, reader, writer, answers) {
        Ok(()) => Ok(()),
        Err(fault) => Err(Fault::of_session(fault)),
    }
}

// Does what the words ask for.
fn run_words<
    T: Threads + Wait + Sync + Clock + Eprint,
    A: AsStr,
    R: Read + Drop,
    W: Write + Drop,
    S: Outbox + Sync,
>(
    rt: &T,
    alloc: Global,
    words: &[A],
    reader: &mut NotedReader<R>,
    writer: &mut NotedWriter<W>,
    answers: &S,
) -> Result<(), Fault>
    ensures { Comes (map A.text words.now) (streams (bytes_left R.remaining reader.old)
        (bytes_held W.contents writer.old) (bytes_held W.contents writer.new)
        (read_failed reader.new) (write_failed writer.new)) result }
{
    match read_words(alloc, words) {
        Ok(task) => run_task(rt, alloc, task, reader, writer, answers),
        Err(error) => answer(error, writer),
    }
}

/// Does what the words ask for, and gives the status: 0 done, or help or the version was asked for;
/// 1 a read or write fault; 2 a fault in the words; 3 out of memory; 4 a bad setting; 5 a strange log.
/// The line of a fault goes to `faults`, what a service's clients are told to `answers`, all else to
/// `writer`; a fault in writing to `faults` changes nothing. The first word is the program's own name.
pub fn command<
    T: Threads + Wait + Sync + Clock + Eprint,
    A: AsStr,
    R: Read + Drop,
    W: Write + Drop,
    S: Outbox + Sync,
    F: Write + Drop,
>(
    rt: &T,
    alloc: Global,
    words: &[A],
    reader: &mut NotedReader<R>,
    writer: &mut NotedWriter<W>,
    answers: &S,
    faults: &mut NotedWriter<F>,
) -> u8
    // The words come to an outcome; this is its status, and its line is told.
    ensures ends { (r : Outcome) × Comes (map A.text words.now)
        (streams (bytes_left R.remaining reader.old) (bytes_held W.contents writer.old)
        (bytes_held W.contents writer.new) (read_failed reader.new) (write_failed writer.new)) r
        × (result ≡ status_after r) × Reports r (bytes_held F.contents faults.old)
        (bytes_held F.contents faults.new) (write_failed faults.new) }
    ensures most { result ≤ 5 }
{
    match run_words(rt, alloc, words, reader, writer, answers) {
        Ok(()) => 0,
        Err(fault) => {
            fault.tell(faults);
            fault.status()
        }
    }
}
