//! The one who settles, when clients ring.

ghost use Rattle.std.specs.Prelude.{◌≡◌};

use crew_service::{Open, Planner, SettleFault, Shared};
use crossbeam_channel::{Receiver, Sender};
use std::alloc::Global;
use std::marker::Model;
use std::sync::Wait;
use std::thread::Threads;

// The most clients that there are.
const DESKS: usize = 64;

/// A planner with what it shares. A contract sees the log, which is the planner's own.
#[derive(Drop)]
pub(crate) struct Office<'a, R: Wait> {
    shared: &'a Shared,
    planner: Planner<'a, R, Open>,
}

impl<'a, R: Wait> Model for Office<'a, R> {
    ghost use Rattle.std.specs.Prelude.{◌≡◌};
    ghost use Rattle.crew_log.specs.Logs as Spec;

    ghost Value = { Spec.Log };

    ghost view = { λ o. o.shared.now };

    ghost invariant = { λ o. o.planner.log ≡ o.shared.now };
}

// Who rang, of those who have rung by now. Those who ring later wait for the next settle.
fn rung<W: Wait>(rt: &W, first: usize, rings: &Receiver<usize>) -> [bool; DESKS] {
    let mut asked = [false; DESKS];
    if first < DESKS {
        asked[first] = true;
    }
    for _ in 0..DESKS {
        let Ok(desk) = rings.try_recv(rt) else {
            return asked;
        };
        if desk < DESKS {
            asked[desk] = true;
        }
    }
    asked
}

impl<'a, R: Wait> Office<'a, R> {
    /// A planner, of what is shared here.
    pub(crate) fn new(shared: &'a Shared, planner: Planner<'a, R, Open>) -> Self
        requires { planner.log ≡ shared.now }
        ensures { result ≡ shared.now }
    {
        Office { shared, planner }
    }

    // Settles over all that the log shows.
    fn settle<S: Threads + Sync>(&mut self, rt: &S, alloc: Global) -> Result<(), SettleFault>
        ensures { self.new ≡ self.old }
    {
        match self.planner.settle(rt, alloc, self.shared, &[]) {
            Ok(_) => Ok(()),
            Err(fault) => Err(fault),
        }
    }

    /// Settles whenever clients ring, once for all who have rung by then, and tells each what came of
    /// it, until no client is left. No clause: what is published tells.
    pub(crate) fn work<S: Threads + Wait + Sync>(
        &mut self,
        rt: &S,
        alloc: Global,
        rings: &Receiver<usize>,
        clients: &[Sender<Result<(), SettleFault>>],
    ) {
        for _ in rt.forever() {
            let Ok(first) = rings.recv(rt) else {
                return;
            };
            let asked = rung(rt, first, rings);
            let told = self.settle(rt, alloc);
            for (client, is_asked) in clients.iter().zip(asked) {
                if is_asked {
                    let _ = client.send(rt, told);
                }
            }
        }
    }
}
