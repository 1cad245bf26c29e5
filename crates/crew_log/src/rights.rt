//! Which place has which number of which seat. All threads share the history of what was claimed,
//! in which a number of a seat has one place. It exists in proofs alone: what is there at run time
//! are the counters of the seats.
//!
//! That a place shows one entry doesn't say that an entry stands at one place only, so a submit
//! that pushes twice would keep to it. A claim ties the seat's next number to a place that was
//! drawn, in a history that exists in proofs alone; and the row takes an entry only with what shows
//! that the place is that of its number. A right can't be copied, and only a seat's turn gets one,
//! by going on to the next number. It costs a submit two atomic steps, and an entry no memory. A
//! row of `boxcar` that gives places by itself couldn't serve: the closure that is told the place
//! can't refuse.

ghost use Rattle.std.specs.Prelude.{◌≡◌, ◌<◌, ◌≤◌, ◌+◌, ◌-◌, Some, IfOk, IfSome, IfNone};
ghost use mathlib.Core.List.{IsPrefix};
ghost use Rattle.crew_log.specs.Logs.{unused_seat, with_entry};
ghost use Rattle.crew_log.specs.Machinery.Rights.{counter_of, place_of};

use logbook::{Gain, Offer, Opening, Pens, Plain, Play, Rule, Seen, Start, Word};
use std::alloc::{AllocError, Global};
use std::marker::Model;

/// The place of an entry, by its seat and its number.
#[derive(Clone, Copy)]
pub struct Claim {
    pub seat: u8,
    pub number: u32,
    pub place: usize,
}

/// The rule of the history.
pub struct Once;

impl Rule<Claim, u64> for Once {
    ghost use Rattle.std.specs.Prelude.{[]};
    ghost use base.Fml.{ftrue};
    ghost use Rattle.crew_log.specs.Machinery.Rights.{IsKept};

    ghost holds = { λ cells log. IsKept cells log };

    ghost first = { [] };

    ghost hinted = { λ n log. Unit {0} };

    ghost shows = { λ log. [] };

    ghost keeps = { λ names log. ftrue };

    ghost moves = { λ ask before after answer. Unit {0} };
}

impl Opening<(), Claim> for Once {
    ghost use Rattle.std.specs.Prelude.{[]};

    ghost log = { λ count about. [] };
}

/// Callers trade nothing.
pub struct Nothing;

impl Gain<Claim, u64> for Nothing {
    ghost use base.Fml.{ftrue};

    ghost after = { λ names about answer. ftrue };
}

/// A step that looks.
pub struct Looks;

impl Play<Claim, u64> for Looks {
    ghost then = { λ s v found w. Unit {0} };
}

/// A step that claims a place for the next number of a seat.
pub struct Claims;

impl Play<Claim, u64> for Claims {
    ghost use Rattle.crew_log.specs.Machinery.Rights.{Claimed};

    ghost then = { Claimed };
}

impl Plain<Claim, Claim, u64> for Claims {
    ghost use Rattle.std.specs.Prelude.{None};

    ghost ask = { λ claim. claim };

    ghost state = { λ claim. None };
}

/// What was claimed up to a moment. It has no bytes.
pub type History = Seen<Claim, u64, Once>;

type Counter = Word<Claim, u64, Once>;

/// The right to a place for a number of a seat. It can't be copied: one entry takes it along.
#[derive(Drop)]
pub struct Right {
    history: History,
}

/// A seat's turn to enter its next number: who holds it is the seat. Nobody makes one but `Turns`.
///
/// A contract sees the number of the seat, and how many entries it has made.
#[derive(Drop)]
pub struct Turn {
    seat: u8,
    made: u32,
}

impl Model for Turn {
    ghost use Rattle.std.specs.Prelude.{◌≤◌, ◌<◌};
    ghost use Rattle.crew_log.specs.Logs as Spec;

    ghost Value = { Spec.Seat };

    ghost view = { λ t. record { number = t.seat; made = t.made } };

    ghost invariant = { λ t. (t.seat < 64) × (t.made ≤ 1_000_000) };
}

impl Turn {
    /// The number of the seat.
    pub fn seat(&self) -> u8
        ensures value { result ≡ self.now.number }
        ensures few { result < 64 }
    {
        self.seat
    }

    /// How many entries it has made.
    pub fn made(&self) -> u32
        ensures value { result ≡ self.now.made }
        ensures few { result ≤ 1_000_000 }
    {
        self.made
    }

    /// Takes a right back that no entry took along.
    pub fn give_back(&mut self, right: Right)
        requires { 0 < self.old.made }
        ensures { self.old ≡ with_entry self.new }
    {
        drop(right);
        self.made -= 1;
    }
}

/// The turns of the seats that aren't given yet.
#[derive(Drop)]
pub struct Turns {
    given: u8,
}

impl Turns {
    /// The turn of the next seat, if it isn't the 65th.
    pub fn give(&mut self) -> Option<Turn>
        ensures some { IfSome result (λ turn. (self.old.given < 64)
            × (turn ≡ unused_seat self.old.given) × (self.new.given ≡ self.old.given + 1)) }
        ensures none { IfNone result ((64 ≤ self.old.given) × (self.new ≡ self.old)) }
    {
        if self.given >= 64 {
            return None;
        }
        let seat = self.given;
        self.given += 1;
        Some(Turn { seat, made: 0 })
    }
}

/// The counters of 64 seats: how many numbers of each are claimed.
///
/// A contract sees which history they are of.
#[derive(Drop)]
pub struct Rights {
    history: History,
    counters: Vec<Counter>,
}

impl Model for Rights {
    ghost use Rattle.std.specs.Prelude.{◌≡◌};
    ghost use Rattle.logbook.specs.Pages.{Book, book_coded};
    ghost use Rattle.crew_log.specs.Machinery.Rights.{AreCounters};

    ghost Value = { Book };

    ghost coded = { book_coded };

    ghost view = { λ r. r.history.book };

    ghost invariant = { λ r. AreCounters r.history.book 64 r.counters.items };
}

// The next counter, of a seat that has claimed nothing.
fn counter(pens: &mut Pens) -> Counter
    requires { 0 < pens.old.left }
    ensures counter { result ≡ counter_of pens.old.book pens.old.next }
    ensures rest { (pens.new.book ≡ pens.old.book) × (pens.new.next ≡ pens.old.next + 1)
        × (pens.new.left ≡ pens.old.left - 1) }
{
    let mut pen = pens.take();
    Word::tracked(0, &mut pen)
}

impl Right {
    /// What both rights show of what was claimed.
    pub fn meet(&self, other: &Right) -> History
        requires { self.now.history.book ≡ other.now.history.book }
        ensures one { IsPrefix self.now.history.log result.log }
        ensures other { IsPrefix other.now.history.log result.log }
    {
        let mut both = self.history.again();
        both.learn(&other.history);
        both
    }
}

impl Rights {
    /// Rights of which none is claimed, and the turns of all seats.
    pub fn new(alloc: Global) -> Result<(Rights, Turns), AllocError>
        ensures { IfOk result (λ r. r.1.given ≡ 0) }
    {
        let (history, mut pens) = History::open_row::<(), Once>(&(), Start::alone(), 64);
        let mut counters = Vec::new(alloc);
        for _ in 0..64usize {
            counters.push(counter(&mut pens))?;
        }
        Ok((Rights { history, counters }, Turns { given: 0 }))
    }

    /// What is claimed by now, or more.
    pub fn history(&self) -> History
        ensures { result.book ≡ self.now }
    {
        self.history.again()
    }

    // How many numbers of a seat are claimed.
    fn count(&self, seat: u8) -> u64
        requires { seat < 64 }
    {
        let claim = Claim {
            seat,
            number: 0,
            place: 0,
        };
        let mut history = self.history.again();
        let mut offer: Offer<Claim, u64, Once, Nothing> = history.plain::<Nothing, Claim, Claims>(
            &claim,
        );
        self.counters[seat as usize].load::<Looks, Nothing>(&mut history, &mut offer)
    }

    /// Whether a turn is at its seat's next number. One of another log may not be.
    pub fn is_next(&self, turn: &Turn) -> bool {
        self.count(turn.seat()) == u64::from(turn.made())
    }

    // Claims a place for a number of a seat, where this is how many are claimed.
    fn claim(&self, claim: Claim) -> Option<History>
        requires { claim.seat < 64 }
        ensures { IfSome result (λ history. (history.book ≡ self.now)
            × (place_of history.log claim.seat claim.number ≡ Some claim.place)) }
    {
        let mut history = self.history.again();
        let mut offer: Offer<Claim, u64, Once, Nothing> = history.plain::<Nothing, Claim, Claims>(
            &claim,
        );
        let mut pen = history.no_pen();
        let number = u64::from(claim.number);
        let found = self.counters[claim.seat as usize].compare_exchange::<Claims, Nothing>(
            number,
            number + 1,
            &mut history,
            &mut offer,
            &mut pen,
        );
        if found == number { Some(history) } else { None }
    }

    /// The right to a place for a turn's number. The turn goes on to the next. None where it isn't
    /// at its seat's next number.
    pub fn take(&self, turn: &mut Turn, place: usize) -> Option<Right>
        requires { turn.old.made < 1_000_000 }
        ensures some { IfSome result (λ right. (turn.new ≡ with_entry turn.old)
            × (right.history.book ≡ self.now)
            × (place_of right.history.log turn.old.number turn.old.made ≡ Some place)) }
        ensures none { IfNone result (turn.new ≡ turn.old) }
    {
        let claim = Claim {
            seat: turn.seat,
            number: turn.made,
            place,
        };
        let history = self.claim(claim)?;
        turn.made += 1;
        Some(Right { history })
    }
}
