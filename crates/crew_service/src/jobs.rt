//! What lies under the lock, and the work on what was claimed there.
ghost use Rattle.std.specs.Prelude.{◌≡◌, IfOk};

use crate::gate::Gate;
use crew_board::Board;
use crew_board::crew_job::{DoneLot, Job, Lot, work_lot};
use crew_board::crew_round::Progress;
use crew_net::Node;
use std::alloc::{AllocError, Global};

/// A board, and whether the service was closed.
#[derive(Drop)]
pub(crate) struct Held {
    pub(crate) board: Board,
    pub(crate) is_closed: bool,
}

// How many jobs a lot has at most: half of what waits, rounded up, so that others find work too, and
// at least one.
fn lot_size(progress: Option<Progress>) -> usize {
    let waiting = match progress {
        Some(progress) => waiting_in(progress),
        None => 0,
    };
    (waiting - waiting / 2).max(1)
}

// How many nodes wait.
fn waiting_in(progress: Progress) -> usize {
    let undone = progress.nodes.saturating_sub(progress.done);
    undone.saturating_sub(progress.out)
}

/// Whether no node of a round is left to be done, or no round is open.
pub(crate) fn is_over(board: &Board) -> bool {
    match board.progress() {
        Some(progress) => progress.done == progress.nodes,
        None => true,
    }
}

/// Claims a lot, which has no jobs where no node is ready.
pub(crate) fn claim(alloc: Global, board: &mut Board) -> Result<Lot, AllocError> {
    let most = lot_size(board.progress());
    board.claim_lot(alloc, most)
}

// The node of a job.
fn node_of(job: &Job) -> Node {
    Node {
        base: job.code(),
        key: job.duty().key.copy(),
    }
}

/// Works a lot out, once the gate was called for each of its nodes.
pub(crate) fn perform<G: Gate>(
    alloc: Global,
    gate: &mut G,
    lot: &Lot,
) -> Result<DoneLot, AllocError>
    ensures { IfOk result (λ done. done ≡ lot.now) }
{
    for job in lot.jobs() {
        gate.claimed(&node_of(job));
    }
    work_lot(alloc, lot)
}
