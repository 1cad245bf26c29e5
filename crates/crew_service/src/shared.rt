//! What threads share.
ghost use Rattle.std.specs.Prelude.{◌≡◌, IfErr, IfOk, IfSome};
ghost use Rattle.std.specs.Arc.{arc_value};
ghost use mathlib.Core.List.{IsPrefix};
ghost use Rattle.crew_service.specs.Next.{IsNextOver};
ghost use Rattle.crew_service.specs.Machinery.Rounds.{IsRoundFault};

use crate::fault::SettleFault;
use crate::jobs::{Held, claim, is_over};
use crate::round::open_round;
use crate::seal::seal_round;
use crew_board::Board;
use crew_board::crew_job::{DoneLot, Lot};
use crew_board::crew_round::Progress;
use crew_board::crew_version::Version;
use crew_flights::Entry;
use crew_log::Log;
use std::alloc::{AllocError, Global};
use std::marker::Model;
use std::sync::{Arc, Condvar, Mutex, Wait};
use std::thread::Threads;

/// A log, and a board under a lock. Threads share it by reference.
///
/// A contract sees the log, which tells this service from others. Of what lies under the lock it
/// sees nothing.
pub struct Shared {
    log: Log,
    held: Mutex<Held>,
    moved: Condvar,
}

impl Drop for Shared {
    fn drop(self) {
        let Self {
            log: _,
            held: _,
            moved: _,
        } = self;
    }
}

impl Model for Shared {
    ghost use Rattle.crew_log.specs.Logs as Spec;

    ghost Value = { Spec.Log };

    ghost view = { λ s. s.log };
}

impl Shared {
    // A log, and a board on which nobody has worked.
    pub(crate) fn new(log: Log, board: Board) -> Shared
        ensures { result ≡ log }
    {
        let held = Held {
            board,
            is_closed: false,
        };
        Shared {
            log,
            held: Mutex::new(held),
            moved: Condvar::new(),
        }
    }

    /// The log.
    pub fn log(&self) -> &Log
        ensures { result.now ≡ self.now }
    {
        &self.log
    }

    /// How many nodes the open round has, and how many of them are done and out; `None` where none
    /// is open. It waits for the lock. No clause: what lies under a lock is hidden from contracts.
    pub fn progress<R: Wait>(&self, rt: &R) -> Option<Progress> {
        let held = self.held.lock(rt);
        held.board.progress()
    }

    /// Ends the workers, each after the lot that it has. It waits for the lock. No clause, for the
    /// same reason.
    pub fn close<R: Wait>(&self, rt: &R) {
        let mut held = self.held.lock(rt);
        held.is_closed = true;
        self.moved.notify_all();
    }

    /// Whether the workers were ended. It waits for the lock. No clause, for the same reason.
    pub fn is_closed<R: Wait>(&self, rt: &R) -> bool {
        let held = self.held.lock(rt);
        held.is_closed
    }

    // A lot for a worker, once a node is ready; `None` once the service is closed.
    pub(crate) fn take<R: Wait>(&self, rt: &R, alloc: Global) -> Result<Option<Lot>, AllocError> {
        let mut held = self.held.lock(rt);
        for _ in rt.forever() {
            if held.is_closed {
                return Ok(None);
            }
            let lot = claim(alloc, &mut held.board)?;
            if lot.len() > 0 {
                return Ok(Some(lot));
            }
            held = self.moved.wait(rt, held);
        }
        unreachable!()
    }

    // A lot for the planner, once a node is ready; `None` once no node is left to be done.
    pub(crate) fn take_part<R: Wait>(
        &self,
        rt: &R,
        alloc: Global,
    ) -> Result<Option<Lot>, AllocError> {
        let mut held = self.held.lock(rt);
        for _ in rt.forever() {
            let lot = claim(alloc, &mut held.board)?;
            if lot.len() > 0 {
                return Ok(Some(lot));
            }
            if is_over(&held.board) {
                return Ok(None);
            }
            held = self.moved.wait(rt, held);
        }
        unreachable!()
    }

    // Brings the results of a lot, and wakes who waits.
    pub(crate) fn bring<R: Wait>(&self, rt: &R, done: DoneLot) {
        let mut held = self.held.lock(rt);
        held.board.bring_lot(done);
        self.moved.notify_all();
    }

    // Gives a lot back, and wakes who waits.
    pub(crate) fn give_back<R: Wait>(&self, rt: &R, lot: &Lot) {
        let mut held = self.held.lock(rt);
        held.board.give_back_lot(lot);
        self.moved.notify_all();
    }

    // Drops the round that is open.
    pub(crate) fn abandon<R: Wait>(&self, rt: &R) {
        let mut held = self.held.lock(rt);
        held.board.abandon();
    }

    // Opens a round over entries after a version, and wakes who waits.
    pub(crate) fn open<R: Wait, S: Threads + Sync>(
        &self,
        rt: (&R, &S),
        alloc: Global,
        version: &Arc<Version, Global>,
        entries: &[Entry],
    ) -> Result<(), SettleFault>
        requires { IsPrefix (arc_value version.now).entries entries.now }
        ensures { IfErr result (IsRoundFault (arc_value version.now) entries.now) }
    {
        let (wait, threads) = rt;
        let mut held = self.held.lock(wait);
        open_round(threads, alloc, &mut held.board, version, entries)?;
        self.moved.notify_all();
        Ok(())
    }

    // Seals the open round, where it is one over these entries after this version, and all of its
    // nodes are done.
    pub(crate) fn seal<R: Wait>(
        &self,
        rt: &R,
        alloc: Global,
        version: &Version,
        entries: &[Entry],
    ) -> Result<Option<Arc<Version, Global>>, AllocError>
        ensures { IfOk result (λ sealed. IfSome sealed
            (λ next. IsNextOver version.now entries.now (arc_value next))) }
    {
        let mut held = self.held.lock(rt);
        seal_round(alloc, &mut held.board, version, entries)
    }
}
