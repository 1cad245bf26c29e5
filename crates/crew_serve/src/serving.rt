//! A running service with its clients.
//!
//! The thread that reads stays with the caller, whose reader needn't cross threads. The planner is made
//! in a thread of its own, beside which each client has one; so what is published, and who settles,
//! never leaves the thread that it began in.

ghost use denote.Param.Send.{IsSync};
ghost use Rattle.std.specs.Prelude.{◌≡◌, IfErr, OnOk};
ghost use Rattle.std.specs.Io.KnownBytes.{IsAtEnd};
ghost use Rattle.crew_rules.specs.Settings.{IsChecked};
ghost use Rattle.crew_serve.specs.Serving.{IsServingFault};
ghost use Rattle.crew_session.specs.Streams.{bytes_left, read_failed};

use crate::attend::{Booth, attend};
use crate::bell::Bell;
use crate::clerk::Hall;
use crate::client_fault::ClientFault;
use crate::front::Front;
use crate::house::House;
use crate::message::Message;
use crate::office::Office;
use crate::post::Outbox;
use crew_lines::Lines;
use crew_publish::Viewer;
use crew_rules::Settings;
use crew_service::{Open, Service, SettleFault, Shared, Worker};
use crew_session::{NotedReader, SessionFault};
use crossbeam_channel::{Receiver, Sender, bounded};
use std::alloc::{AllocError, Global};
use std::io::Read;
use std::sync::{Mutex, Wait};
use std::thread;
use std::thread::Threads;

// How many lines may wait for a client.
const WAITING: usize = 1_024;

// The ends of the channels to the desks: those that send, and those that receive.
type Channels = (Vec<Sender<Message>>, Vec<Receiver<Message>>);

// A channel to each of so many desks.
fn channels(alloc: Global, desks: u32) -> Result<Channels, AllocError> {
    let mut senders = Vec::new(alloc);
    let mut receivers = Vec::new(alloc);
    for _ in 0..desks {
        let (sender, receiver) = bounded(alloc, WAITING)?;
        senders.push(sender)?;
        receivers.push(receiver)?;
    }
    Ok((senders, receivers))
}

// What the planner tells the clients by.
type Tellers = Vec<Sender<Result<(), SettleFault>>>;

// The desks as they are handed to the thread of the planner: their booths, what rings, and what the clients
// are told by.
#[derive(Drop)]
struct Floor {
    booths: Vec<Booth>,
    rings: Receiver<usize>,
    tellers: Tellers,
}

// A desk for each of these viewers, to which these lines come.
fn floor_of(
    alloc: Global,
    viewers: Vec<Viewer>,
    lines: Vec<Receiver<Message>>,
    ready: &Sender<()>,
) -> Result<Floor, AllocError> {
    let (rings, rung) = bounded(alloc, viewers.len().max(1))?;
    let mut booths = Vec::new(alloc);
    let mut tellers = Vec::new(alloc);
    for (number, (viewer, lines)) in viewers.into_iter().zip(lines).enumerate() {
        let (teller, told) = bounded(alloc, 1)?;
        tellers.push(teller)?;
        let rings = rings.clone()?;
        let ready = ready.clone()?;
        let bell = Bell {
            number,
            rings,
            told,
        };
        booths.push(Booth {
            bell,
            viewer,
            lines,
            ready,
        })?;
    }
    Ok(Floor {
        booths,
        rings: rung,
        tellers,
    })
}

// Reads lines until there are no more, and hands each to its client's desk.
fn read_all<T: Wait, R: Read + Drop, S: Outbox>(
    rt: &T,
    alloc: Global,
    reader: &mut NotedReader<R>,
    answers: &S,
    desks: Vec<Sender<Message>>,
) -> Result<(), SessionFault> {
    let mut front = Front::new(alloc, desks)?;
    let mut lines = Lines::new(alloc, reader)?;
    for _ in 0..u64::MAX {
        match lines.advance() {
            Ok(true) => front.take(rt, answers, lines.line())?,
            Ok(false) => return Ok(()),
            Err(_) => return Err(SessionFault::Read),
        }
        if answers.has_failed() {
            return Err(SessionFault::Write);
        }
    }
    Ok(())
}

// Why nothing more is read: the reader has failed, or there was no memory.
fn of_reader<R: Read + Drop>(reader: &NotedReader<R>) -> SessionFault
    ensures { IsServingFault (read_failed reader.now) result }
{
    if reader.has_failed() {
        SessionFault::Read
    } else {
        SessionFault::Memory
    }
}

// Serves the clients at these desks until no line comes any more: workers, and a thread for each desk,
// beside this one, which settles. A worker that can't be started is left out; a desk that can't never
// tells that it is ready.
fn open<T: Threads + Wait + Sync, S: Outbox + Sync>(
    rt: &T,
    alloc: Global,
    hall: &Hall<'_>,
    office: &mut Office<'_, T>,
    floor: Floor,
    workers: u32,
    answers: &S,
)
    requires { IsChecked hall.now.settings }
{
    let shared = hall.shared;
    let Floor {
        booths,
        rings,
        tellers,
    } = floor;
    thread::scope(
        thread::scope_env(),
        rt,
        |scope| -> ()
            requires { IsChecked hall.now.settings }
        {
            for _ in 0..workers {
                let _ = scope.spawn(move || Worker::new(Open).run(rt, alloc, shared));
            }
            for booth in booths {
                let attends = move || -> Result<(), ClientFault>
                    requires { IsSync T.row × IsChecked hall.now.settings }
                { attend(rt, alloc, hall, booth, answers) };
                let _ = scope.spawn(attends);
            }
            office.work(rt, alloc, &rings, &tellers);
            shared.close(rt);
        },
    );
}

// Hosts clients by a service, to whose desks these lines come.
fn host_by<T: Threads + Wait + Sync, S: Outbox + Sync>(
    rt: &T,
    alloc: Global,
    service: Service<'_, T, Open>,
    settings: &Settings,
    plan: (u32, &S),
    lines: Vec<Receiver<Message>>,
    ready: Sender<()>,
) -> Result<(), AllocError>
    requires checked { IsChecked settings.now }
    requires own { service.planner.log ≡ service.shared }
{
    let (workers, answers) = plan;
    let Service {
        shared,
        planner,
        seats,
        viewers,
    } = service;
    let floor = floor_of(alloc, viewers, lines, &ready)?;
    drop(ready);
    let hall = Hall {
        shared: &shared,
        settings: *settings,
        seats: Mutex::new(seats),
    };
    let mut office = Office::new(&shared, planner);
    open(rt, alloc, &hall, &mut office, floor, workers, answers);
    Ok(())
}

// Makes a service, and hosts clients by it.
fn host<T: Threads + Wait + Sync, S: Outbox + Sync>(
    rt: &T,
    alloc: Global,
    settings: &Settings,
    house: House,
    answers: &S,
    lines: Vec<Receiver<Message>>,
    ready: Sender<()>,
) -> Result<(), AllocError>
    requires { IsChecked settings.now }
{
    let counts = (house.seats as usize, house.viewers as usize);
    match Service::new(rt, alloc, settings, counts, Open) {
        Ok(service) => host_by(
            rt,
            alloc,
            service,
            settings,
            (house.workers, answers),
            lines,
            ready,
        ),
        Err(_) => Err(AllocError),
    }
}

// Reads what comes once all desks are ready, which they aren't where there was no memory for one, or for
// the service.
fn read_when_ready<T: Wait, R: Read + Drop, S: Outbox>(
    rt: &T,
    alloc: Global,
    reader: &mut NotedReader<R>,
    answers: &S,
    desks: Vec<Sender<Message>>,
    readied: &Receiver<()>,
) -> Result<(), SessionFault> {
    for _ in 0..desks.len() {
        if readied.recv(rt).is_err() {
            return Err(SessionFault::Memory);
        }
    }
    read_all(rt, alloc, reader, answers, desks)
}

// How a service ends once all its threads have: by what has failed, or at the end of its input.
fn end<R: Read + Drop, S: Outbox>(
    reader: &mut NotedReader<R>,
    answers: &S,
    done: Result<(), SessionFault>,
) -> Result<(), SessionFault>
    ensures end { OnOk result (IsAtEnd (bytes_left R.remaining reader.new)) }
    ensures fault { IfErr result (IsServingFault (read_failed reader.new)) }
{
    if answers.has_failed() {
        return Err(SessionFault::Write);
    }
    if done.is_err() {
        return Err(of_reader(reader));
    }
    match reader.read(&mut [0]) {
        Ok(0) => Ok(()),
        _ => Err(of_reader(reader)),
    }
}

/// Serves clients from the lines of a reader until there are no more, and posts their answers.
///
/// Where the answer is `Ok` the input is at its end. `Read` where the reader failed, `Write` where an
/// answer couldn't be sent, and `Memory` where there was none for the service or no thread for a desk, or
/// none for a client to be told of it: what was read before is answered all the same, but where answers
/// can't be sent.
pub fn serve<T: Threads + Wait + Sync, R: Read + Drop, S: Outbox + Sync>(
    rt: &T,
    alloc: Global,
    reader: &mut NotedReader<R>,
    answers: &S,
    settings: &Settings,
    house: House,
) -> Result<(), SessionFault>
    requires { IsChecked settings.now }
    ensures end { OnOk result (IsAtEnd (bytes_left R.remaining reader.new)) }
    ensures fault { IfErr result (IsServingFault (read_failed reader.new)) }
{
    let (senders, receivers) = channels(alloc, house.viewers)?;
    let (ready, readied) = bounded(alloc, senders.len().max(1))?;
    let done = thread::scope(
        thread::scope_env(),
        rt,
        |scope| -> Result<(), SessionFault>
            requires { IsChecked settings.now }
        {
            let hosts = move || -> Result<(), AllocError>
                requires { IsSync T.row × IsSync S.row × IsChecked settings.now }
            { host(rt, alloc, settings, house, answers, receivers, ready) };
            let Ok(hosted) = scope.spawn(hosts) else {
                return Err(SessionFault::Memory);
            };
            let done = read_when_ready(rt, alloc, &mut *reader, answers, senders, &readied);
            let _ = hosted.join(rt);
            done
        },
    );
    end(reader, answers, done)
}
