//! A planner's attempts at the next version: rounds in which it takes part.
ghost use Rattle.std.specs.Prelude.{◌≡◌, IfErr, IfOk, IfSome};
ghost use Rattle.std.specs.Arc.{arc_value};
ghost use mathlib.Core.List.{IsPrefix};
ghost use Rattle.crew_service.specs.Next.{IsNextOver};
ghost use Rattle.crew_service.specs.Machinery.Rounds.{IsRoundFault};

use crate::fault::SettleFault;
use crate::gate::Gate;
use crate::jobs::perform;
use crate::shared::Shared;
use crew_board::crew_version::Version;
use crew_flights::Entry;
use std::alloc::{AllocError, Global};
use std::sync::{Arc, Wait};
use std::thread::Threads;

/// Makes the version after one, over entries that begin with its: opens a round, takes part in it
/// and seals it, and begins again where the round isn't its own any more. Where it is refused no
/// round is open. The first handle is for waiting, the second for threads.
pub(crate) fn next_over<R: Wait, S: Threads + Sync, G: Gate>(
    rt: (&R, &S),
    alloc: Global,
    shared: &Shared,
    gate: &mut G,
    version: &Arc<Version, Global>,
    entries: &[Entry],
) -> Result<Arc<Version, Global>, SettleFault>
    requires { IsPrefix (arc_value version.now).entries entries.now }
    ensures ok { IfOk result
        (λ next. IsNextOver (arc_value version.now) entries.now (arc_value next)) }
    ensures fault { IfErr result (IsRoundFault (arc_value version.now) entries.now) }
{
    let (wait, threads) = rt;
    for _ in wait.forever() {
        shared.open((wait, threads), alloc, version, entries)?;
        if let Some(next) = close(wait, alloc, shared, gate, version, entries)? {
            return Ok(next);
        }
    }
    unreachable!()
}

// Takes part in the round until it is over, and seals it, if it is one over these entries after this
// version. With no memory the round is dropped.
fn close<R: Wait, G: Gate>(
    rt: &R,
    alloc: Global,
    shared: &Shared,
    gate: &mut G,
    version: &Version,
    entries: &[Entry],
) -> Result<Option<Arc<Version, Global>>, AllocError>
    ensures { IfOk result (λ sealed. IfSome sealed
        (λ next. IsNextOver version.now entries.now (arc_value next))) }
{
    let Ok(()) = take_part(rt, alloc, shared, gate) else {
        shared.abandon(rt);
        return Err(AllocError);
    };
    let Ok(sealed) = shared.seal(rt, alloc, version, entries) else {
        shared.abandon(rt);
        return Err(AllocError);
    };
    Ok(sealed)
}

// Takes part in the work until no node is left to be done.
fn take_part<R: Wait, G: Gate>(
    rt: &R,
    alloc: Global,
    shared: &Shared,
    gate: &mut G,
) -> Result<(), AllocError> {
    for _ in rt.forever() {
        let Some(lot) = shared.take_part(rt, alloc)? else {
            return Ok(());
        };
        let done = perform(alloc, gate, &lot)?;
        shared.bring(rt, done);
    }
    unreachable!()
}
