//! A service as it is made.
ghost use Rattle.std.specs.Prelude.{◌≡◌, ◌↔◌, ◌∷◌, ◌≤◌, [], All, IfErr, IfOk, IsTrue, OnOk, length};
ghost use Rattle.std.specs.Arc.{arc_value};
ghost use Rattle.crew_publish.specs.Faults.{IsViewerCount};
ghost use Rattle.crew_rules.specs.Settings.{IsChecked};
ghost use Rattle.crew_service.specs.Faults.{IsSeatCount, IsServiceFault};
ghost use Rattle.crew_service.specs.Plans.{AreSeatsFrom, new_planner};
ghost use Rattle.crew_board.specs.crew_version.Versions.{opening as opening_of};

use crate::fault::ServiceFault;
use crate::gate::Gate;
use crate::planner::Planner;
use crate::shared::Shared;
use crew_board::Board;
use crew_board::crew_version::Version;
use crew_log::{Log, Seat};
use crew_publish::{PairFault, Publisher, Viewer, pair};
use crew_rules::Settings;
use std::alloc::{AllocError, Global};
use std::sync::{Arc, Wait};

/// A service: what its threads share, its planner, and a seat and a viewer for each client and each
/// query thread. They are moved out of it, each to its thread.
#[derive(Drop)]
pub struct Service<'a, R: Wait, G: Gate> {
    pub shared: Shared,
    pub planner: Planner<'a, R, G>,
    pub seats: Vec<Seat>,
    pub viewers: Vec<Viewer>,
}

// The version before any entry, shared.
fn opening(alloc: Global, settings: &Settings) -> Result<Arc<Version, Global>, AllocError>
    requires { IsChecked settings.now }
    ensures { IfOk result (λ version. arc_value version ≡ opening_of settings.now) }
{
    Arc::new(alloc, Version::opening(alloc, settings)).map_err(|_| AllocError)
}

// Whether a log may have so many seats.
fn is_seat_count(seats: usize) -> bool
    ensures { IsTrue result ↔ IsSeatCount seats }
{
    seats <= 64
}

// Whether a pair may have so many viewers.
fn is_viewer_count(viewers: usize) -> bool
    ensures { IsTrue result ↔ IsViewerCount viewers }
{
    0 < viewers && viewers <= 64
}

// A log that has given so many seats, and these.
fn log_with(alloc: Global, count: usize) -> Result<(Log, Vec<Seat>), AllocError>
    requires { IsSeatCount count }
    ensures log { IfOk result (λ made. made.0.seats ≡ count) }
    ensures count { IfOk result (λ made. length made.1.items ≡ count) }
    ensures seats { IfOk result (λ made. AreSeatsFrom 0 made.1.items) }
{
    let mut log = Log::new(alloc)?;
    let seats = seats_of(alloc, &mut log, count)?;
    Ok((log, seats))
}

// So many seats of a log that has given none.
fn seats_of(alloc: Global, log: &mut Log, count: usize) -> Result<Vec<Seat>, AllocError>
    requires none { log.old.seats ≡ 0 }
    requires few { IsSeatCount count }
    ensures log { IfOk result (λ seats. log.new.seats ≡ count) }
    ensures count { IfOk result (λ seats. length seats.items ≡ count) }
    ensures seats { IfOk result (λ seats. AreSeatsFrom 0 seats.items) }
{
    let mut seats = Vec::with_capacity(alloc, count)?;
    for _ in 0..count {
        match log.seat() {
            Ok(seat) => seats.push(seat)?,
            Err(_) => unreachable!(),
        }
    }
    Ok(seats)
}

// A publisher with its viewers, which have seen a version.
fn published<'a, R: Wait>(
    rt: &'a R,
    alloc: Global,
    version: &Arc<Version, Global>,
    viewers: usize,
) -> Result<(Publisher<&'a R>, Vec<Viewer>), AllocError>
    requires { IsViewerCount viewers }
    ensures list { IfOk result (λ made. made.0.list ≡ arc_value version.now ∷ []) }
    ensures count { IfOk result (λ made. length made.1.items ≡ viewers) }
    ensures seen { IfOk result
        (λ made. All (λ viewer. viewer.seen ≡ arc_value version.now ∷ []) made.1.items) }
{
    let first = Arc::try_clone(version)?;
    match pair(rt, alloc, first, viewers) {
        Ok(made) => Ok(made),
        Err(PairFault::Memory) => Err(AllocError),
        Err(PairFault::NoViewer) => unreachable!(),
    }
}

impl<'a, R: Wait, G: Gate + Drop> Service<'a, R, G> {
    /// A service under some settings, with so many seats, from 0 to 64, and so many viewers, from 1
    /// to 64, before any entry. The gate is the planner's. `TooManySeats`, else `NoViewer`, where
    /// there are more or none, else `Memory`. It may wait.
    pub fn new(
        rt: &'a R,
        alloc: Global,
        settings: &Settings,
        counts: (usize, usize),
        gate: G,
    ) -> Result<Self, ServiceFault>
        requires { IsChecked settings.now }
        ensures few { OnOk result (IsSeatCount counts.0 × IsViewerCount counts.1) }
        ensures planner { IfOk result
            (λ service. service.planner ≡ new_planner settings.now service.shared) }
        ensures count { IfOk result (λ service. length service.seats.items ≡ counts.0) }
        ensures seats { IfOk result (λ service. AreSeatsFrom 0 service.seats.items) }
        ensures viewers { IfOk result (λ service. length service.viewers.items ≡ counts.1) }
        ensures seen { IfOk result
            (λ service. All (λ viewer. viewer.seen ≡ opening_of settings.now ∷ []) service.viewers.items) }
        ensures fault { IfErr result (IsServiceFault counts.0 counts.1) }
    {
        let (seats, viewers) = counts;
        if !is_seat_count(seats) {
            return Err(ServiceFault::TooManySeats);
        }
        if !is_viewer_count(viewers) {
            return Err(ServiceFault::NoViewer);
        }
        Ok(Service::made(rt, alloc, settings, counts, gate)?)
    }

    // As `new`, where there may be so many seats and viewers.
    fn made(
        rt: &'a R,
        alloc: Global,
        settings: &Settings,
        counts: (usize, usize),
        gate: G,
    ) -> Result<Self, AllocError>
        requires checked { IsChecked settings.now }
        requires seats { IsSeatCount counts.0 }
        requires viewers { IsViewerCount counts.1 }
        ensures planner { IfOk result
            (λ service. service.planner ≡ new_planner settings.now service.shared) }
        ensures count { IfOk result (λ service. length service.seats.items ≡ counts.0) }
        ensures seats { IfOk result (λ service. AreSeatsFrom 0 service.seats.items) }
        ensures viewers { IfOk result (λ service. length service.viewers.items ≡ counts.1) }
        ensures seen { IfOk result
            (λ service. All (λ viewer. viewer.seen ≡ opening_of settings.now ∷ []) service.viewers.items) }
    {
        let (log, seats) = log_with(alloc, counts.0)?;
        let version = opening(alloc, settings)?;
        let sealed = Arc::try_clone(&version)?;
        let (publisher, viewers) = published(rt, alloc, &version, counts.1)?;
        let planner = Planner::new(rt, alloc, &log, version, publisher, gate);
        Ok(Service {
            shared: Shared::new(log, Board::new(sealed)),
            planner,
            seats,
            viewers,
        })
    }
}
