//! Plays of steps.
ghost use Rattle.std.specs.Prelude.{◌≡◌, IfOk};
ghost use Rattle.crew_core.specs.Replies.{acts_of};
ghost use Rattle.crew_core.specs.Plays.{IsTraceOf};
ghost use Rattle.crew_rules.specs.Settings.{IsChecked};

use crate::machine::Machine;
use crate::reply::Reply;
use crate::step::Step;
use crew_board::crew_version::Version;
use crew_rules::Settings;
use std::alloc::{AllocError, Global};
use std::sync::Arc;
use std::thread::Threads;

/// What a play of steps comes to.
#[derive(Drop)]
pub struct Trace {
    /// The reply of each step, in order.
    pub replies: Vec<Reply>,
    /// The published versions in order, that of number 0 first.
    pub published: Vec<Arc<Version, Global>>,
}

/// Plays steps on a new machine. The replies are those of the machine's run over exactly these steps,
/// with the product's choices, and with it go the words of the headline: each published version's
/// fronts and best pairing are those of enumerating all legal pairings of what its entries come to,
/// and each query is answered a published version, none older than its reader had seen.
pub fn play<R: Threads + Sync>(
    rt: &R,
    alloc: Global,
    settings: &Settings,
    steps: &[Step],
) -> Result<Trace, AllocError>
    requires { IsChecked settings.now }
    ensures { IfOk result (IsTraceOf settings.now (acts_of steps.now)) }
{
    let mut machine = Machine::new(alloc, settings)?;
    let mut replies = Vec::with_capacity(alloc, steps.len())?;
    for step in steps {
        replies.push(machine.step(rt, alloc, *step)?)?;
    }
    Ok(Trace {
        replies,
        published: machine.into_published(),
    })
}
