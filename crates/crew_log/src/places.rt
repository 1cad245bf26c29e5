//! Which places are drawn. All threads share the history of the draws, in which the places are
//! 0, 1, 2, .., each once and with none left out. It exists in proofs alone: what is there at run
//! time is the place that is drawn next.

ghost use Rattle.std.specs.Prelude.{◌≡◌, ◌<◌, ◌+◌, Some, IfSome, IfNone};
ghost use Rattle.crew_log.specs.Logs.{with_entry};
ghost use Rattle.crew_log.specs.Machinery.Draws.{first_places};
ghost use Rattle.crew_log.specs.Machinery.Rights.{place_of};

use crate::rights::{Looks, Nothing, Right, Rights, Turn};
use logbook::{Gain, Offer, Opening, Plain, Play, Rule, Seen, Start, Word};
use std::marker::Model;

/// The rule of the history.
pub struct NoneLeftOut;

impl Rule<usize, u64> for NoneLeftOut {
    ghost use Rattle.std.specs.Prelude.{[]};
    ghost use base.Fml.{ftrue};
    ghost use Rattle.crew_log.specs.Machinery.Draws.{AreDrawn};

    ghost holds = { λ cells log. AreDrawn cells log };

    ghost first = { [] };

    ghost hinted = { λ n log. Unit {0} };

    ghost shows = { λ log. [] };

    ghost keeps = { λ names log. ftrue };

    ghost moves = { λ ask before after answer. Unit {0} };
}

impl Opening<(), usize> for NoneLeftOut {
    ghost use Rattle.std.specs.Prelude.{[]};

    ghost log = { λ count about. [] };
}

impl Gain<usize, u64> for Nothing {
    ghost use base.Fml.{ftrue};

    ghost after = { λ names about answer. ftrue };
}

impl Play<usize, u64> for Looks {
    ghost then = { λ s v found w. Unit {0} };
}

/// A step that draws a place.
pub struct Draws;

impl Play<usize, u64> for Draws {
    ghost use Rattle.crew_log.specs.Machinery.Draws.{Drew};

    ghost then = { Drew };
}

impl Plain<usize, usize, u64> for Draws {
    ghost use Rattle.std.specs.Prelude.{None};

    ghost ask = { λ place. place };

    ghost state = { λ place. None };
}

/// What was drawn up to a moment. It has no bytes.
pub type Drawings = Seen<usize, u64, NoneLeftOut>;

type Counter = Word<usize, u64, NoneLeftOut>;

/// The counter of places: how many are drawn.
///
/// A contract sees which history it is of.
#[derive(Drop)]
pub struct Places {
    history: Drawings,
    next: Counter,
}

impl Model for Places {
    ghost use Rattle.std.specs.Prelude.{◌≡◌};
    ghost use Rattle.logbook.specs.Pages.{Book, book_coded};
    ghost use Rattle.crew_log.specs.Machinery.Rights.{counter_of};

    ghost Value = { Book };

    ghost coded = { book_coded };

    ghost view = { λ p. p.history.book };

    ghost invariant = { λ p. p.next ≡ counter_of p.history.book 0 };
}

/// A place that was drawn. It can't be copied, and it can't be let go: a claim alone takes it in.
pub struct Drawn {
    place: usize,
    history: Drawings,
}

/// A place that was drawn, with the right to it, and with what was drawn up to it.
#[derive(Drop)]
pub struct Taken {
    pub place: usize,
    pub right: Right,
    pub drawn: Drawings,
}

impl Places {
    /// A counter of which no place is drawn. No clause says so, since each draw tells what is drawn.
    pub fn new() -> Places {
        let (history, mut pens) = Drawings::open_row::<(), NoneLeftOut>(&(), Start::alone(), 1);
        let mut pen = pens.take();
        let next = Word::tracked(0, &mut pen);
        Places { history, next }
    }

    /// What is drawn by now, or more.
    pub fn history(&self) -> Drawings
        ensures { result.book ≡ self.now }
    {
        self.history.again()
    }

    /// The place that is next, until somebody draws it. No clause says so, since another thread may draw
    /// it at once: `draw` tells whether it was.
    pub fn next(&self) -> usize {
        let mut history = self.history.again();
        let mut offer: Offer<usize, u64, NoneLeftOut, Nothing> = history.plain::<
            Nothing,
            usize,
            Draws,
        >(&0);
        self.next.load::<Looks, Nothing>(&mut history, &mut offer) as usize
    }

    /// Draws this place, if it is the next one: the places that were drawn then are the first ones
    /// up to it, each once, and it is the last of them.
    pub fn draw(&self, place: usize) -> Option<Drawn>
        ensures place { IfSome result (λ drawn. drawn.place ≡ place) }
        ensures last { IfSome result (λ drawn. (drawn.history.book ≡ self.now)
            × (drawn.history.log ≡ first_places (place + 1))) }
    {
        let number = place as u64;
        let more = number.checked_add(1)?;
        let mut history = self.history.again();
        let mut offer: Offer<usize, u64, NoneLeftOut, Nothing> = history.plain::<
            Nothing,
            usize,
            Draws,
        >(&place);
        let mut pen = history.no_pen();
        let found = self
            .next
            .compare_exchange::<Draws, Nothing>(number, more, &mut history, &mut offer, &mut pen);
        if found == number {
            Some(Drawn { place, history })
        } else {
            None
        }
    }
}

impl Drawn {
    /// Claims the place for a turn's number, and the turn goes on to the next. None where it isn't
    /// at its seat's next number, as that of another log may be: then no entry takes the place.
    pub fn claim(self, rights: &Rights, turn: &mut Turn) -> Option<Taken>
        requires { turn.old.made < 1_000_000 }
        ensures turn { IfSome result (λ _. turn.new ≡ with_entry turn.old) }
        ensures claimed { IfSome result (λ taken. (taken.right.history.book ≡ rights.now)
            × (place_of taken.right.history.log turn.old.number turn.old.made ≡ Some taken.place)) }
        ensures drawn { IfSome result (λ taken. (taken.place ≡ self.place)
            × (taken.drawn ≡ self.history)) }
        ensures none { IfNone result (turn.new ≡ turn.old) }
    {
        let Drawn { place, history } = self;
        let right = rights.take(turn, place)?;
        Some(Taken {
            place,
            right,
            drawn: history,
        })
    }
}
