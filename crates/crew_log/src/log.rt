//! The log.

ghost use Rattle.std.specs.Prelude.{◌≡◌, ◌<◌, ◌+◌, ◌^◌, Some, IfOk, IfErr, IfSome, IfNone, OnOk, length};
ghost use Rattle.crew_log.specs.Logs.{AreOf, HaveNone, IsOf, IsRun, new_seat, next_entry, with_entry, with_seat};
ghost use Rattle.crew_log.specs.Machinery.Draws.{first_places};
ghost use Rattle.crew_log.specs.Machinery.Rights.{names_of, place_of};
ghost use Rattle.crew_log.specs.declared.fault.LogFault.TheVariants.{TooManySeats};

use crate::fault::LogFault;
use crate::look::{Unshown, look};
use crate::places::{Drawings, Drawn, Places, Taken};
use crate::receipt::{Receipt, copy_at};
use crate::rights::{Rights, Turn, Turns};
use crate::seat::Seat;
use crate::stamped::{InPlace, Stamped, tag};
use boxcar::table::Table;
use crew_flights::{Edit, Entry};
use std::alloc::{AllocError, Global};
use std::marker::Model;
use std::sync::Wait;

/// Entries by place, 0 and up. A place that shows its entry shows it for good, and a number of a
/// seat has one place.
///
/// A contract sees the row of places, which tells this log from others, and how many seats were
/// given. What the row shows at a moment no contract sees: a receipt says it of its place.
pub struct Log {
    pub(crate) row: Table<Stamped, InPlace, Global>,
    rights: Rights,
    turns: Turns,
    places: Places,
}

impl Drop for Log {
    fn drop(self) {
        let Self {
            row: _,
            rights: _,
            turns: _,
            places: _,
        } = self;
    }
}

impl Model for Log {
    ghost use Rattle.std.specs.Prelude.{◌≡◌, ◌≤◌};
    ghost use Rattle.crew_log.specs.Logs as Spec;
    ghost use Rattle.crew_log.specs.Machinery.Rights.{names_of};

    ghost Value = { Spec.Log };

    ghost view = { λ l. record { row = l.row; seats = l.turns.given } };

    ghost invariant = { λ l. (l.turns.given ≤ 64) × (l.row.tag ≡ names_of l.rights l.places) };
}

// The next place of a row, which has memory for its entry: it is drawn only where there is some. The
// places that were drawn then are the first ones up to it, each once, and it is the last.
fn draw<R: Wait>(rt: &R, row: &Table<Stamped, InPlace, Global>, places: &Places) -> Option<Drawn>
    ensures { IfSome result (λ drawn. (drawn.history.book ≡ places.now)
        × (drawn.history.log ≡ first_places (drawn.place + 1))) }
{
    for _ in rt.forever() {
        let place = places.next();
        row.reserve_at(place).ok()?;
        if let Some(drawn) = places.draw(place) {
            return Some(drawn);
        }
    }
    unreachable!()
}

impl Log {
    /// A log that has given no seat.
    pub fn new(alloc: Global) -> Result<Log, AllocError>
        ensures { IfOk result (λ log. log.seats ≡ 0) }
    {
        let (rights, turns) = Rights::new(alloc)?;
        let places = Places::new();
        Ok(Log {
            row: Table::new(alloc, tag(&rights, &places))?,
            rights,
            turns,
            places,
        })
    }

    /// The next seat, which has made no entry. Seats are numbered 0 to 63, in each log anew.
    /// `TooManySeats` exactly where all 64 are given; then nothing changes.
    pub fn seat(&mut self) -> Result<Seat, LogFault>
        ensures ok { IfOk result (λ seat. (self.old.seats < 64) × (seat ≡ new_seat self.old)
            × (self.new ≡ with_seat self.old)) }
        ensures err { IfErr result (λ fault. (self.old.seats ≡ 64) × (fault ≡ TooManySeats)
            × (self.new ≡ self.old)) }
    {
        match self.turns.give() {
            Some(turn) => Ok(Seat::of(turn)),
            None => Err(LogFault::TooManySeats),
        }
    }

    // The next place, with the right to it for a turn's number.
    fn take<R: Wait>(&self, rt: &R, turn: &mut Turn) -> Option<Taken>
        requires { turn.old.made < 1_000_000 }
        ensures turn { IfSome result (λ _. turn.new ≡ with_entry turn.old) }
        ensures names { IfSome result (λ taken. names_of taken.right.history.book taken.drawn.book
            ≡ self.now.row.tag) }
        ensures claimed { IfSome result (λ taken. place_of taken.right.history.log turn.old.number turn.old.made
            ≡ Some taken.place) }
        ensures drawn { IfSome result (λ taken. taken.drawn.log ≡ first_places (taken.place + 1)) }
        ensures none { IfNone result (turn.new ≡ turn.old) }
    {
        if !self.rights.is_next(turn) {
            return None;
        }
        draw(rt, &self.row, &self.places)?.claim(&self.rights, turn)
    }

    // Enters an edit, as the next entry of the seat whose turn it is.
    pub(crate) fn push<R: Wait>(&self, rt: &R, turn: &mut Turn, edit: Edit) -> Result<Receipt, Edit>
        requires { turn.old.made < 1_000_000 }
        ensures of { IfOk result (λ receipt. IsOf self.now receipt) }
        ensures entry { IfOk result (λ receipt. receipt.value ≡ next_entry turn.old edit) }
        ensures turn { OnOk result (turn.new ≡ with_entry turn.old) }
        ensures back { IfErr result (λ back. (back ≡ edit) × (turn.new ≡ turn.old)) }
    {
        let entry = Entry {
            seat: turn.seat(),
            number: turn.made(),
            edit,
        };
        let Some(taken) = self.take(rt, turn) else {
            return Err(entry.edit);
        };
        let Taken {
            place,
            right,
            drawn,
        } = taken;
        let stamped = Stamped {
            entry,
            right,
            drawn,
        };
        match self.row.set_placed(rt, place, stamped) {
            Ok(at) => Ok(Receipt { at }),
            Err(Stamped { entry, right, .. }) => {
                turn.give_back(right);
                Err(entry.edit)
            }
        }
    }

    // What shows the entry at a place: as the row shows it now, or else as one of these receipts;
    // or that the row was looked at there and showed nothing, and none of these is of the place.
    fn receipt_at(&self, place: usize, receipts: &[Receipt]) -> Result<Receipt, Unshown>
        requires { AreOf self.now receipts.now }
        ensures ok { IfOk result (λ receipt. IsOf self.now receipt × (receipt.index ≡ place)) }
        ensures looked { IfErr result (λ unshown. (unshown.row.value ≡ self.now.row)
            × (unshown.place ≡ place)) }
        ensures none { IfErr result (λ _. HaveNone receipts.now place) }
    {
        let unshown = match look(&self.row, place) {
            Ok(at) => return Ok(Receipt { at }),
            Err(unshown) => unshown,
        };
        match copy_at(place, receipts) {
            Some(receipt) => Ok(receipt),
            None => Err(unshown),
        }
    }

    // The reading of `read_past`, with the look at the place where it ends, which showed nothing.
    fn read_until(
        &self,
        alloc: Global,
        from: usize,
        shown: &[Receipt],
    ) -> Result<(Vec<Receipt>, Unshown), AllocError>
        requires { AreOf self.now shown.now }
        ensures of { IfOk result (λ r. AreOf self.now r.0.items) }
        ensures places { IfOk result (λ r. IsRun from r.0.items) }
        ensures end { IfOk result (λ r. HaveNone shown.now (from + length r.0.items)) }
        ensures looked { IfOk result (λ r. (r.1.row.value ≡ self.now.row)
            × (r.1.place ≡ from + length r.0.items)) }
    {
        let mut receipts = Vec::new(alloc);
        for place in from..=usize::MAX {
            match self.receipt_at(place, shown) {
                Ok(receipt) => receipts.push(receipt)?,
                Err(unshown) => return Ok((receipts, unshown)),
            }
        }
        Err(AllocError)
    }

    /// Receipts of the entries from a place on, up to the first place that isn't shown yet.
    ///
    /// A submit that found no memory may leave a place that is never shown; a reading from at or
    /// below it ends there.
    pub fn read_from(&self, alloc: Global, from: usize) -> Result<Vec<Receipt>, AllocError>
        ensures of { IfOk result (λ receipts. AreOf self.now receipts.items) }
        ensures places { IfOk result (λ receipts. IsRun from receipts.items) }
    {
        self.read_past(alloc, from, &[])
    }

    /// As `read_from`, by one who has receipts: what they show is shown for good, so the reading
    /// doesn't end at the place of any of them, and goes past those that follow on one another.
    pub fn read_past(
        &self,
        alloc: Global,
        from: usize,
        shown: &[Receipt],
    ) -> Result<Vec<Receipt>, AllocError>
        requires { AreOf self.now shown.now }
        ensures of { IfOk result (λ receipts. AreOf self.now receipts.items) }
        ensures places { IfOk result (λ receipts. IsRun from receipts.items) }
        ensures end { IfOk result (λ receipts. HaveNone shown.now (from + length receipts.items)) }
    {
        let (receipts, _) = self.read_until(alloc, from, shown)?;
        Ok(receipts)
    }

    /// Receipts of one place have one entry.
    pub fn agree(&self, a: &Receipt, b: &Receipt)
        requires a { IsOf self.now a.now }
        requires b { IsOf self.now b.now }
        requires place { a.now.index ≡ b.now.index }
        ensures { a.now.value ≡ b.now.value }
    {
        self.row.agrees(&a.at, &b.at);
    }

    /// Receipts of one seat and number have one place.
    pub fn agree_by_number(&self, a: &Receipt, b: &Receipt)
        requires a { IsOf self.now a.now }
        requires b { IsOf self.now b.now }
        requires seat { a.now.value.seat ≡ b.now.value.seat }
        requires number { a.now.value.number ≡ b.now.value.number }
        ensures { a.now.index ≡ b.now.index }
    {
        let (one, other) = (self.row.value(&a.at), self.row.value(&b.at));
        one.right.meet(&other.right);
    }

    /// What a receipt shows of the draws: the places that were drawn up to its own are the first
    /// ones, each once and with none left out, and its own is the last of them.
    pub fn drawn_to(&self, receipt: &Receipt) -> Drawings
        requires { IsOf self.now receipt.now }
        ensures { result.log ≡ first_places (receipt.now.index + 1) }
    {
        self.row.value(&receipt.at).drawn.again()
    }
}
