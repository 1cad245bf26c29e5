//! A planner's round on a board.
ghost use Rattle.std.specs.Prelude.{◌≡◌, ◌≢◌, IfErr, None, Some};
ghost use Rattle.std.specs.Arc.{arc_value};
ghost use mathlib.Core.List.{IsPrefix};
ghost use Rattle.crew_board.specs.declared.fault.BeginFault.TheVariants.{Busy, Ground as NoGround};
ghost use Rattle.crew_board.specs.crew_job.declared.fault.GroundFault.TheVariants.{ShorterLog};
ghost use Rattle.crew_service.specs.Machinery.Rounds.{IsRoundFault, fault_of};

use crate::fault::SettleFault;
use crew_board::crew_job::GroundFault;
use crew_board::crew_version::Version;
use crew_board::{BeginFault, Board};
use crew_flights::Entry;
use std::alloc::Global;
use std::sync::Arc;
use std::thread::Threads;

// Why a round isn't begun on a board without one, over entries that begin with the sealed version's.
fn not_begun(fault: BeginFault) -> SettleFault
    requires busy { fault ≢ Busy }
    requires shorter { fault ≢ NoGround ShorterLog }
    ensures { fault_of fault ≡ Some result }
{
    match fault {
        BeginFault::Ground(GroundFault::LastVersion) => SettleFault::LastVersion,
        BeginFault::Ground(GroundFault::TooManyDuties) => SettleFault::TooManyDuties,
        BeginFault::Ground(GroundFault::Memory) => SettleFault::Memory,
        BeginFault::Busy | BeginFault::Ground(GroundFault::ShorterLog) => unreachable!(),
    }
}

/// Opens a round over entries that begin with a version's: whatever the board had, it has this
/// version sealed, and where it is refused no round is open.
pub(crate) fn open_round<S: Threads + Sync>(
    rt: &S,
    alloc: Global,
    board: &mut Board,
    version: &Arc<Version, Global>,
    entries: &[Entry],
) -> Result<(), SettleFault>
    requires { IsPrefix (arc_value version.now).entries entries.now }
    ensures { IfErr result (IsRoundFault (arc_value version.now) entries.now) }
{
    let own = Arc::try_clone(version)?;
    board.restore(own);
    begin_round(rt, alloc, board, entries)
}

// Begins a round on a board without one.
fn begin_round<S: Threads + Sync>(
    rt: &S,
    alloc: Global,
    board: &mut Board,
    entries: &[Entry],
) -> Result<(), SettleFault>
    requires none { board.old.round ≡ None }
    requires begins { IsPrefix board.old.sealed.entries entries.now }
    ensures { IfErr result (IsRoundFault board.old.sealed entries.now) }
{
    let _stands = board.sealed();
    match board.begin(rt, alloc, entries) {
        Ok(()) => Ok(()),
        Err(fault) => Err(not_begun(fault)),
    }
}
