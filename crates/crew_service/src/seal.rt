//! The seal of a planner's own round. A board may be shared with workers, and with whoever else has
//! the lock round it; so a planner seals the open round only where that comes after its own version
//! and is over its own entries.
ghost use Rattle.std.specs.Prelude.{◌≡◌, ◌↔◌, IfOk, IfSome, IsTrue, None, Some, slice_get};
ghost use Rattle.std.specs.Arc.{arc_value};
ghost use Rattle.crew_board.specs.Boards.{IsBoardOf};
ghost use Rattle.crew_board.specs.crew_machine.Crew.{CrewBoard};
ghost use Rattle.crew_service.specs.Machinery.Sealed.{IsSealedOf};
ghost use Rattle.crew_service.specs.Next.{IsNextOver, IsOwn, IsUndone, IsUnsealed};

use crew_board::crew_job::Ground;
use crew_board::crew_version::{Version, is_same_entry};
use crew_board::{Board, SealFault};
use crew_flights::Entry;
use crew_rules::Settings;
use std::alloc::{AllocError, Global};
use std::sync::Arc;

// Whether two settings are equal.
fn are_same(one: &Settings, other: &Settings) -> bool
    ensures { IsTrue result ↔ (one.now ≡ other.now) }
{
    one == other
}

// Whether the entry at a place of a ground is this one.
fn is_at(ground: &Ground, place: usize, entry: &Entry) -> bool
    ensures { IsTrue result ↔ (slice_get ground.now.entries place ≡ Some entry.now) }
{
    match ground.entry(place) {
        Some(found) => is_same_entry(&found, entry),
        None => false,
    }
}

// Whether the entries of a ground are these.
fn is_over(ground: &Ground, entries: &[Entry]) -> bool
    ensures { IsTrue result ↔ (ground.now.entries ≡ entries.now) }
{
    if ground.count() != entries.len() {
        return false;
    }
    for place in 0..entries.len() {
        if !is_at(ground, place, &entries[place]) {
            return false;
        }
    }
    true
}

// Whether the open round of a board is one over these entries after this version.
fn is_own(board: &Board, version: &Version, entries: &[Entry]) -> bool
    ensures { IsTrue result ↔ IsOwn board.now version.now entries.now }
{
    let sealed = board.sealed();
    if sealed.number() != version.number() || !are_same(sealed.settings(), version.settings()) {
        return false;
    }
    match board.round() {
        Some(ground) => is_over(ground, entries),
        None => false,
    }
}

/// Seals the open round of a board, where it is one over these entries after this version, and all
/// of its nodes are done. `None` only where it isn't, or a node of it isn't done. `Err` is want of
/// memory. Whoever else has worked on the board needn't be trusted: what is sealed is right by the
/// type of the board.
pub(crate) fn seal_round(
    alloc: Global,
    board: &mut Board,
    version: &Version,
    entries: &[Entry],
) -> Result<Option<Arc<Version, Global>>, AllocError>
    ensures next { IfOk result (λ sealed. IfSome sealed
        (λ next. IsNextOver version.now entries.now (arc_value next))) }
    ensures none { IfOk result (λ sealed. sealed ≡ None
        → IsUnsealed board.old version.now entries.now) }
{
    if !is_own(board, version, entries) {
        return Ok(None);
    }
    seal_own(alloc, board)
}

// Seals the open round of a board, where all of its nodes are done.
fn seal_own(alloc: Global, board: &mut Board) -> Result<Option<Arc<Version, Global>>, AllocError>
    ensures sealed { IfOk result (λ sealed. IfSome sealed
        (λ next. IsSealedOf board.old (arc_value next))) }
    ensures none { IfOk result (λ sealed. sealed ≡ None
        → (b : CrewBoard) → IsBoardOf board.old b → IsUndone board.old b) }
{
    let _stands = board.sealed();
    match board.seal(alloc) {
        Ok(sealed) => {
            let _right = sealed.number();
            Ok(Some(sealed))
        }
        Err(SealFault::Memory) => Err(AllocError),
        Err(_) => Ok(None),
    }
}
