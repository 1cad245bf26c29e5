//! Sessions beside workers.
//!
//! The session stays with the caller, whose streams needn't cross threads; the workers' threads are
//! started by one thread beside it and joined at its end, so no session fails for want of threads.
//! What was written is known after the join, since the session is lent by `&mut` and not moved.
ghost use Rattle.std.specs.Prelude.{◌≡◌, ◌⊎◌, ◌≤◌, [], ℕ, List, IfErr, IfSome, OnErr, OnOk, length};
ghost use Rattle.std.specs.Io.KnownBytes.{Appends, IsAtEnd};
ghost use Rattle.crew_rules.specs.Settings.{IsChecked};
ghost use Rattle.crew_session.specs.Rows.{records_of};
ghost use Rattle.crew_session.specs.Session.{Begins, IsSessionText, start};
ghost use Rattle.crew_session.specs.Streams.{bytes_held, bytes_left, read_failed, write_failed};
ghost use Rattle.crew_version.specs.Versions.{opening};
ghost use Rattle.crew_log.specs.Logs.{unused_seat};
ghost use Rattle.crew_service.specs.Plans.{AreSeatsFrom, new_planner};
ghost use Rattle.crew_session.specs.Oddities.{nothing_made};
ghost use Rattle.crew_serve.specs.Machinery.Played.{IsPlayed, played};
ghost use Rattle.crew_serve.specs.Workers.{EndsStrange, IsUnbegun};

use crate::parts::{only_seat, only_viewer};
use crate::report::report;
use crate::threaded::Threaded;
use crew_log::Seat;
use crew_publish::Viewer;
use crew_rules::Settings;
use crew_service::{Open, Planner, Service, Shared, Worker};
use crew_session::{Engine, NotedReader, NotedWriter, SessionFault, run};
use std::alloc::Global;
use std::io::{Eprint, Read, Write};
use std::sync::Wait;
use std::thread;
use std::thread::Threads;
use std::time::Clock;

/// Who takes part in the work of a session beside the thread that reads it.
#[derive(Clone, Copy, Debug)]
pub struct Crew {
    /// How many threads do.
    pub workers: u32,
    /// How many seconds lie between two lines on standard error that tell how far the open round is;
    /// with 0 there is none.
    pub progress: u32,
}

// Takes part in the work of a service until it is closed, by the threads of a crew, of which this is
// one. A thread that can't be made is left out.
fn work<T: Threads + Wait + Sync + Clock + Eprint>(
    rt: &T,
    alloc: Global,
    shared: &Shared,
    crew: Crew,
) {
    thread::scope(thread::scope_env(), rt, |scope| {
        if crew.progress > 0 {
            let _ = scope.spawn(move || report(rt, shared, crew.progress));
        }
        for _ in 1..crew.workers {
            let _ = scope.spawn(move || Worker::new(Open).run(rt, alloc, shared));
        }
        if crew.workers > 0 {
            Worker::new(Open).run(rt, alloc, shared);
        }
    });
}

// Plays a session over a service by its engine, and closes it.
fn play_over<T: Threads + Wait + Sync + Clock + Eprint, R: Read + Drop, W: Write + Drop, E: Engine>(
    rt: &T,
    alloc: Global,
    shared: &Shared,
    engine: &mut E,
    reader: &mut NotedReader<R>,
    writer: &mut NotedWriter<W>,
    settings: &Settings,
) -> Result<(), SessionFault>
    requires checked { IsChecked settings.now }
    requires entries { E.entries engine.old ≡ [] }
    requires version { E.shown engine.old ≡ opening settings.now }
    requires made { E.made engine.old ≡ nothing_made (opening settings.now) }
    ensures { IsPlayed settings.now (played
        (bytes_left R.remaining reader.old) (bytes_left R.remaining reader.new)
        (bytes_held W.contents writer.old) (bytes_held W.contents writer.new)
        (read_failed reader.new) (write_failed writer.new)) result }
{
    let done = run(rt, alloc, reader, writer, settings, engine);
    shared.close(rt);
    done
}

// Plays a session over a service by its engine, beside a crew. That works in a thread of its
// own; where none can be made it comes last, and finds the service closed.
fn play_beside<
    T: Threads + Wait + Sync + Clock + Eprint,
    R: Read + Drop,
    W: Write + Drop,
    E: Engine,
>(
    rt: &T,
    alloc: Global,
    shared: &Shared,
    engine: &mut E,
    reader: &mut NotedReader<R>,
    writer: &mut NotedWriter<W>,
    settings: &Settings,
    crew: Crew,
) -> Result<(), SessionFault>
    requires checked { IsChecked settings.now }
    requires entries { E.entries engine.old ≡ [] }
    requires version { E.shown engine.old ≡ opening settings.now }
    requires made { E.made engine.old ≡ nothing_made (opening settings.now) }
    ensures { IsPlayed settings.now (played
        (bytes_left R.remaining reader.old) (bytes_left R.remaining reader.new)
        (bytes_held W.contents writer.old) (bytes_held W.contents writer.new)
        (read_failed reader.new) (write_failed writer.new)) result }
{
    let mut works = || work(rt, alloc, shared, crew);
    let mut plays = || -> Result<(), SessionFault>
        requires checked { IsChecked settings.now }
        requires entries { E.entries engine.now ≡ [] }
        requires version { E.shown engine.now ≡ opening settings.now }
        requires made { E.made engine.now ≡ nothing_made (opening settings.now) }
    { play_over(rt, alloc, shared, engine, reader, writer, settings) };
    let (_, done) = thread::join_mut(rt, &mut works, &mut plays);
    done
}

// Plays a session over a service, of which these are the planner, the seat and the viewer.
fn play_parts<'a, T: Threads + Wait + Sync + Clock + Eprint, R: Read + Drop, W: Write + Drop>(
    rt: &'a T,
    alloc: Global,
    shared: &Shared,
    parts: (Planner<'a, T, Open>, Seat, Viewer),
    reader: &mut NotedReader<R>,
    writer: &mut NotedWriter<W>,
    settings: &Settings,
    crew: Crew,
) -> Result<(), SessionFault>
    requires checked { IsChecked settings.now }
    requires planner { parts.0 ≡ new_planner settings.now shared.now }
    requires seat { parts.1 ≡ unused_seat 0 }
    ensures { IsPlayed settings.now (played
        (bytes_left R.remaining reader.old) (bytes_left R.remaining reader.new)
        (bytes_held W.contents writer.old) (bytes_held W.contents writer.new)
        (read_failed reader.new) (write_failed writer.new)) result }
{
    let mut engine = Threaded::new(rt, alloc, shared, parts, settings);
    play_beside(
        rt,
        alloc,
        shared,
        &mut engine,
        reader,
        writer,
        settings,
        crew,
    )
}

// Plays a session over a new service with one seat and one viewer.
fn play_service<'a, T: Threads + Wait + Sync + Clock + Eprint, R: Read + Drop, W: Write + Drop>(
    rt: &'a T,
    alloc: Global,
    service: Service<'a, T, Open>,
    reader: &mut NotedReader<R>,
    writer: &mut NotedWriter<W>,
    settings: &Settings,
    crew: Crew,
) -> Result<(), SessionFault>
    requires checked { IsChecked settings.now }
    requires planner { service.planner ≡ new_planner settings.now service.shared }
    requires seats { AreSeatsFrom 0 service.seats.items }
    requires one_seat { length service.seats.items ≡ 1 }
    requires one_viewer { length service.viewers.items ≡ 1 }
    ensures { IsPlayed settings.now (played
        (bytes_left R.remaining reader.old) (bytes_left R.remaining reader.new)
        (bytes_held W.contents writer.old) (bytes_held W.contents writer.new)
        (read_failed reader.new) (write_failed writer.new)) result }
{
    let Service {
        shared,
        planner,
        seats,
        viewers,
    } = service;
    let parts = (planner, only_seat(seats), only_viewer(viewers));
    play_parts(rt, alloc, &shared, parts, reader, writer, settings, crew)
}

/// Plays a session as `crew_session::run` does, over a service of its own whose work a crew of threads
/// shares with this one; a thread that can't be made is left out, and without any this one works
/// alone. What is written is the same for every number.
///
/// Where the answer is `Ok`, what is written is the text of a session of the bytes that were read,
/// there were at most 2,000,000 records, and the input is at its end. `Read` where the reader failed
/// or gives more records, `Write` where the writer failed, `Memory` where neither did, and `Strange`
/// only where a settle of the session found what no session brings about, and that is told by what the
/// service's planner had made and read before it and after it: what was written is then a beginning
/// of the text of the first so many records. Before anything is read or written it may be `Memory`.
pub fn run_with_workers<T: Threads + Wait + Sync + Clock + Eprint, R: Read + Drop, W: Write + Drop>(
    rt: &T,
    alloc: Global,
    reader: &mut NotedReader<R>,
    writer: &mut NotedWriter<W>,
    settings: &Settings,
    crew: Crew,
) -> Result<(), SessionFault>
    requires { IsChecked settings.now }
    ensures output { OnOk result (IfSome (bytes_left R.remaining reader.old) (λ bytes.
        (text : List ℕ)
        × Appends (bytes_held W.contents writer.old) (bytes_held W.contents writer.new) text
        × IsSessionText settings.now bytes text)) }
    ensures limit { OnOk result (IfSome (bytes_left R.remaining reader.old)
        (λ bytes. length (records_of bytes) ≤ 2_000_000)) }
    ensures end { OnOk result (IsAtEnd (bytes_left R.remaining reader.new)) }
    ensures begun { OnErr result (IfSome (bytes_left R.remaining reader.old) (λ bytes.
        Begins settings.now (start settings.now) (records_of bytes)
        (bytes_held W.contents writer.old) (bytes_held W.contents writer.new))) }
    ensures fault { IfErr result (λ fault.
        EndsStrange settings.now (bytes_left R.remaining reader.old)
        (read_failed reader.new) (write_failed writer.new) fault
        ⊎ IsUnbegun (bytes_held W.contents writer.old) (bytes_held W.contents writer.new) fault) }
{
    match Service::new(rt, alloc, settings, (1, 1), Open) {
        Ok(service) => play_service(rt, alloc, service, reader, writer, settings, crew),
        Err(_) => Err(SessionFault::Memory),
    }
}
