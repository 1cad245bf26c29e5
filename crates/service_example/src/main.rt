//! The engine as threads in one program: two clients submit edits, a planner settles them beside two
//! workers, and two query threads look at what is published meanwhile and wait for nobody. It is an
//! example to begin from; `docs/solver.md` tells what each call promises.
#![tactic(auto)]

ghost use Rattle.std.specs.Prelude.{◌≡◌};

mod flights;
mod office;
mod queries;

use crew_publish::Viewer;
use crew_rules::Settings;
use crew_service::{Open, Service, Shared, Worker};
use office::Office;
use queries::watch;
use std::alloc::Global;
use std::io::{self, ErrorKind, Print};
use std::sync::Wait;
use std::thread;
use std::thread::Threads;
use std::time::Clock;

// What the query threads saw: the cost of the best pairing, each.
type Seen = (Option<i64>, Option<i64>);

// Plays the planner's part beside two workers and two query threads, which take a viewer each along.
// The service is closed on each way out of it, so that the workers end.
fn play<R: Threads + Wait + Sync + Clock>(
    rt: &R,
    alloc: Global,
    shared: &Shared,
    office: &mut Office<'_, R>,
    first: Viewer,
    second: Viewer,
) -> Option<Seen> {
    thread::scope(thread::scope_env(), rt, |scope| {
        for _ in 0..2 {
            let _ = scope.spawn(move || Worker::new(Open).run(rt, alloc, shared));
        }
        let first = scope.spawn(move || watch(rt, first, 3));
        let second = scope.spawn(move || watch(rt, second, 3));
        let settled = office.plan(rt, alloc);
        shared.close(rt);
        settled?;
        Some((first.ok()?.join(rt), second.ok()?.join(rt)))
    })
}

// Plays over a service with a seat for each client and one for the planner, and two viewers.
fn play_over<R: Print + Threads + Wait + Sync + Clock>(
    rt: &R,
    alloc: Global,
    service: Service<'_, R, Open>,
) -> io::Result<()>
    requires { service.planner.log ≡ service.shared }
{
    let Service {
        shared,
        planner,
        seats,
        mut viewers,
    } = service;
    let (Some(first), Some(second)) = (viewers.pop(), viewers.pop()) else {
        return Err(io::Error::from(ErrorKind::OutOfMemory));
    };
    let mut office = Office::new(&shared, planner, seats);
    let seen = play(rt, alloc, &shared, &mut office, first, second);
    println!(rt; "the query threads saw {seen:?}")
}

fn main(rt: HostRuntime) -> io::Result<()> {
    match Service::new(&rt, rt.alloc(), &Settings::standard(), (3, 2), Open) {
        Ok(service) => play_over(&rt, rt.alloc(), service),
        Err(_) => Err(io::Error::from(ErrorKind::OutOfMemory)),
    }
}
