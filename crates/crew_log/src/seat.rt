//! Seats.

ghost use Rattle.std.specs.Prelude.{◌≡◌, ◌<◌, ◌+◌, ◌^◌, IfOk, IfErr};
ghost use Rattle.crew_log.specs.Faults.{IsSubmitFault};
ghost use Rattle.crew_log.specs.Logs.{IsOf, next_entry, with_entry};

use crate::fault::LogFault;
use crate::log::Log;
use crate::receipt::Receipt;
use crate::rights::Turn;
use crew_flights::Edit;
use std::marker::Model;
use std::sync::Wait;

/// The right to push edits to a log as one of its seats: it is used with the log that gave it. In
/// another log it is refused, as for want of memory, where that log's seat of the same number has
/// made another count of entries, and else makes that seat's next one.
///
/// A contract sees its number, and how many entries it has made.
#[derive(Drop)]
pub struct Seat {
    turn: Turn,
}

impl Model for Seat {
    ghost use Rattle.crew_log.specs.Logs as Spec;

    ghost Value = { Spec.Seat };

    ghost view = { λ s. s.turn };
}

impl Seat {
    // The seat whose turn it is.
    pub(crate) fn of(turn: Turn) -> Seat
        ensures { result ≡ turn }
    {
        Seat { turn }
    }

    /// Its number, from 0 to 63.
    pub fn number(&self) -> u8
        ensures value { result ≡ self.now.number }
        ensures few { result < 64 }
    {
        self.turn.seat()
    }

    /// How many entries it has made.
    pub fn made(&self) -> u32
        ensures { result ≡ self.now.made }
    {
        self.turn.made()
    }

    /// Pushes an edit as this seat's next entry, whose number is how many it has made, and gives
    /// the receipt.
    ///
    /// `SeatFull` exactly where the seat has made 1,000,000, and else `Memory`: the edit comes
    /// back, and the seat is as it was.
    pub fn submit<R: Wait>(
        &mut self,
        rt: &R,
        log: &Log,
        edit: Edit,
    ) -> Result<Receipt, (Edit, LogFault)>
        ensures shown { IfOk result (λ receipt. IsOf log.now receipt) }
        ensures entry { IfOk result (λ receipt. receipt.value ≡ next_entry self.old edit) }
        ensures made { IfOk result (λ _. (self.old.made < 1_000_000)
            × (self.new ≡ with_entry self.old)) }
        ensures back { IfErr result (λ refused. refused.0 ≡ edit) }
        ensures fault { IfErr result (λ refused. IsSubmitFault self.old refused.1) }
        ensures same { IfErr result (λ _. self.new ≡ self.old) }
    {
        if self.turn.made() >= 1_000_000 {
            return Err((edit, LogFault::SeatFull));
        }
        match log.push(rt, &mut self.turn, edit) {
            Ok(receipt) => Ok(receipt),
            Err(edit) => Err((edit, LogFault::Memory)),
        }
    }
}
