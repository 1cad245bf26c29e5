//! What the planner's thread works with.

ghost use Rattle.std.specs.Prelude.{◌≡◌, IfSome};
ghost use Rattle.crew_log.specs.Logs.{AreOf, IsOf};

use crate::flights::{base, home, out};
use crew_flights::Edit;
use crew_log::{Receipt, Seat};
use crew_service::{Open, Planner, Shared};
use std::alloc::Global;
use std::marker::Model;
use std::sync::Wait;
use std::thread;
use std::thread::Threads;

/// A planner with what it shares, and the seats by which edits are submitted.
///
/// A contract sees the log. The type keeps that it is the planner's own, which each settle asks for.
#[derive(Drop)]
pub struct Office<'a, R: Wait> {
    shared: &'a Shared,
    planner: Planner<'a, R, Open>,
    seats: Vec<Seat>,
}

impl<'a, R: Wait> Model for Office<'a, R> {
    ghost use Rattle.std.specs.Prelude.{◌≡◌};
    ghost use Rattle.crew_log.specs.Logs as Spec;

    ghost Value = { Spec.Log };

    ghost view = { λ o. o.shared.now };

    ghost invariant = { λ o. o.planner.log ≡ o.shared.now };
}

// Submits an edit by a seat.
fn submit<R: Wait>(rt: &R, shared: &Shared, seat: &mut Seat, edit: Option<Edit>) -> Option<Receipt>
    ensures { IfSome result (λ receipt. IsOf shared.now receipt) }
{
    match seat.submit(rt, shared.log(), edit?) {
        Ok(receipt) => Some(receipt),
        Err(_) => None,
    }
}

// Submits the two flights, each by a client in a thread of its own. Whether the log has both.
fn submit_flights<R: Threads + Wait + Sync>(rt: &R, shared: &Shared, seats: &mut [Seat]) -> bool {
    let [first, second, ..] = seats else {
        return false;
    };
    let (is_out, is_home) = thread::join(
        rt,
        move || submit(rt, shared, first, out()).is_some(),
        move || submit(rt, shared, second, home()).is_some(),
    );
    is_out && is_home
}

impl<'a, R: Wait> Office<'a, R> {
    /// Of a service's parts.
    pub fn new(shared: &'a Shared, planner: Planner<'a, R, Open>, seats: Vec<Seat>) -> Self
        requires { planner.log ≡ shared.now }
    {
        Office {
            shared,
            planner,
            seats,
        }
    }

    // Settles with some receipts, and gives the number of the version that was published.
    fn settle<S: Threads + Sync>(
        &mut self,
        rt: &S,
        alloc: Global,
        receipts: &[Receipt],
    ) -> Option<u64>
        requires { AreOf self.old receipts.now }
        ensures { self.new ≡ self.old }
    {
        match self.planner.settle(rt, alloc, self.shared, receipts) {
            Ok(note) => Some(note.number()),
            Err(_) => None,
        }
    }

    // Opens a base by the last seat, and settles with the receipt of that.
    fn open_base<S: Threads + Wait + Sync>(&mut self, rt: &S, alloc: Global) -> Option<u64> {
        let seat = self.seats.last_mut()?;
        let receipt = submit(rt, self.shared, seat, base())?;
        self.settle(rt, alloc, &[receipt])
    }

    /// What the planner does: it settles what it has, and once the clients are done it opens a base and
    /// settles with the receipt of that, so that the last version has all three entries. Its number.
    pub fn plan<S: Threads + Wait + Sync>(&mut self, rt: &S, alloc: Global) -> Option<u64> {
        let _ = self.settle(rt, alloc, &[]);
        if !submit_flights(rt, self.shared, &mut self.seats) {
            return None;
        }
        self.open_base(rt, alloc)
    }
}
