//! A service that is served by workers.
ghost use Rattle.std.specs.Prelude.{◌≡◌};
ghost use Rattle.crew_rules.specs.Settings.{IsChecked};

use crate::desk::Desk;
use crate::words::count_at;
use crew_command::crew_service::{Gate, Open, Service, Shared, Worker};
use crew_rules::Settings;
use std::alloc::Global;
use std::io::{self, Print};
use std::sync::Wait;
use std::thread;
use std::thread::Threads;

// Obeys the commands of a case beside so many workers; one that can't be made is left out.
fn serve<R: Print + Threads + Wait + Sync, G: Gate>(
    rt: &R,
    alloc: Global,
    shared: &Shared,
    desk: &mut Desk<'_, R, G>,
    workers: usize,
    input: &str,
) -> io::Result<()> {
    thread::scope(thread::scope_env(), rt, |scope| {
        for _ in 0..workers {
            let _ = scope.spawn(move || Worker::new(Open).run(rt, alloc, shared));
        }
        let told = desk.obey_all(rt, rt, alloc, input);
        shared.close(rt);
        told
    })
}

// Plays the commands over a service.
fn play_over<R: Print + Threads + Wait + Sync>(
    rt: &R,
    alloc: Global,
    service: Service<'_, R, Open>,
    workers: usize,
    input: &str,
) -> io::Result<()>
    requires { service.planner.log ≡ service.shared }
{
    let Service {
        shared,
        planner,
        seats,
        viewers,
    } = service;
    let mut desk = Desk::new(alloc, &shared, planner, seats, viewers);
    serve(rt, alloc, &shared, &mut desk, workers, input)
}

/// Plays the commands of a case over a service, or shows the number of why there is none. The words
/// are how many seats it has, how many viewers, and how many workers.
pub fn play<R: Print + Threads + Wait + Sync>(
    rt: &R,
    alloc: Global,
    words: &[&str],
    input: &str,
) -> io::Result<()> {
    let counts = (count_at(words, 0), count_at(words, 1));
    let workers = count_at(words, 2);
    match Service::new(rt, alloc, &Settings::standard(), counts, Open) {
        Ok(service) => play_over(rt, alloc, service, workers, input),
        Err(fault) => println!(rt; "no service: {:?}", fault.number()),
    }
}
