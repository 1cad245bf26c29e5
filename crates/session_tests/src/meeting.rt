//! Gates that hold whoever comes first until another comes, so that a service whose work is all done
//! by one thread runs out of turns.
ghost use Rattle.std.specs.Prelude.{◌≡◌};

use crate::desk::Desk;
use crew_command::crew_service::{Gate, Service, Shared, Worker};
use crew_net::Node;
use crew_rules::Settings;
use std::alloc::Global;
use std::io::{self, Print};
use std::sync::Wait;
use std::sync::atomic::{AtomicU64, Ordering};
use std::thread;
use std::thread::Threads;
use std::time::{Clock, Duration};

// How many turns of a millisecond a gate waits.
const TURNS: u32 = 10_000;

// How many owners of a gate came, and how many ran out of turns.
#[derive(Drop)]
struct Meeting {
    came: AtomicU64,
    late: AtomicU64,
}

impl Meeting {
    // Waits until another owner has come; whether one did in time.
    fn is_met<R: Clock>(&self, rt: &R) -> bool {
        for _ in 0..TURNS {
            if self.came.load(Ordering::SeqCst) > 1 {
                return true;
            }
            thread::sleep(rt, Duration::from_millis(1));
        }
        false
    }
}

// The gate of an owner.
#[derive(Drop)]
struct Meeter<'a, R: Clock> {
    rt: &'a R,
    meeting: &'a Meeting,
    has_come: bool,
}

impl<'a, R: Clock> Gate for Meeter<'a, R> {
    fn claimed(&mut self, _node: &Node) {
        if self.has_come {
            return;
        }
        self.has_come = true;
        self.meeting.came.fetch_add(1, Ordering::SeqCst);
        if !self.meeting.is_met(self.rt) {
            self.meeting.late.fetch_add(1, Ordering::SeqCst);
        }
    }
}

// The gate of one more owner.
fn gate_of<'a, R: Clock>(rt: &'a R, meeting: &'a Meeting) -> Meeter<'a, R> {
    Meeter {
        rt,
        meeting,
        has_come: false,
    }
}

// What is submitted: two nodes are ready at once.
const COMMANDS: &str = "submit 0 base,JFK,0
submit 0 flight,101,JFK,BOS,2025-07-01T12:00,2025-07-01T13:10,3000
submit 0 flight,102,JFK,BOS,2025-07-01T14:00,2025-07-01T15:15,2000
settle
ask 0 see";

// Works beside so many workers, each with a gate.
fn serve<R: Print + Threads + Wait + Sync + Clock>(
    rt: &R,
    alloc: Global,
    meeting: &Meeting,
    shared: &Shared,
    desk: &mut Desk<'_, R, Meeter<'_, R>>,
    workers: usize,
) -> io::Result<()> {
    thread::scope(thread::scope_env(), rt, |scope| {
        for _ in 0..workers {
            let _ = scope.spawn(move || Worker::new(gate_of(rt, meeting)).run(rt, alloc, shared));
        }
        let told = desk.obey_all(rt, rt, alloc, COMMANDS);
        shared.close(rt);
        told
    })
}

// Works over a service whose planner has a gate.
fn play_over<R: Print + Threads + Wait + Sync + Clock>(
    rt: &R,
    alloc: Global,
    meeting: &Meeting,
    service: Service<'_, R, Meeter<'_, R>>,
    workers: usize,
) -> io::Result<()>
    requires { service.planner.log ≡ service.shared }
{
    let Service {
        shared,
        planner,
        seats,
        viewers,
    } = service;
    let mut desk = Desk::new(alloc, &shared, planner, seats, viewers);
    serve(rt, alloc, meeting, &shared, &mut desk, workers)
}

/// Plays a settle of two nodes that are ready at once beside so many workers, and shows how many
/// owners of gates ran out of turns.
pub fn play<R: Print + Threads + Wait + Sync + Clock>(
    rt: &R,
    alloc: Global,
    workers: usize,
) -> io::Result<()> {
    let meeting = Meeting {
        came: AtomicU64::new(0),
        late: AtomicU64::new(0),
    };
    let gate = gate_of(rt, &meeting);
    match Service::new(rt, alloc, &Settings::standard(), (1, 1), gate) {
        Ok(service) => play_over(rt, alloc, &meeting, service, workers)?,
        Err(fault) => println!(rt; "no service: {:?}", fault.number())?,
    }
    println!(rt; "out of turns: {}", meeting.late.load(Ordering::SeqCst))
}
