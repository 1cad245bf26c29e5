//! Those who take part in the work.
use crate::gate::Gate;
use crate::jobs::perform;
use crate::shared::Shared;
use std::alloc::Global;
use std::sync::Wait;

/// Why a worker has ended.
#[derive(Clone, Copy, Debug, PartialEq, Eq)]
pub enum Ended {
    /// The service was closed.
    Closed,
    /// Out of memory: what the worker had it has given back.
    Memory,
}

/// One who claims lots of jobs, works them out and brings the results, until the service is closed.
#[derive(Drop)]
pub struct Worker<G: Gate> {
    gate: G,
}

impl<G: Gate> Worker<G> {
    /// A worker with a gate. No clause: a contract sees nothing of a worker.
    pub fn new(gate: G) -> Worker<G> {
        Worker { gate }
    }

    /// Works until the service is closed, or there is no memory; it then gives back what it has. It
    /// waits where no node is ready. No clause: what it does lies under the lock, where it needn't be
    /// trusted, since the board judges each result by what its job holds.
    pub fn run<R: Wait>(&mut self, rt: &R, alloc: Global, shared: &Shared) -> Ended {
        for _ in rt.forever() {
            if let Some(ended) = self.work_lot(rt, alloc, shared) {
                return ended;
            }
        }
        unreachable!()
    }

    // Works out one lot of jobs. Says why the worker ends, where it does.
    fn work_lot<R: Wait>(&mut self, rt: &R, alloc: Global, shared: &Shared) -> Option<Ended> {
        let Ok(taken) = shared.take(rt, alloc) else {
            return Some(Ended::Memory);
        };
        let Some(lot) = taken else {
            return Some(Ended::Closed);
        };
        let Ok(done) = perform(alloc, &mut self.gate, &lot) else {
            shared.give_back(rt, &lot);
            return Some(Ended::Memory);
        };
        shared.bring(rt, done);
        None
    }
}
