//! What stands in the row of a log.

ghost use Rattle.std.specs.Prelude.{◌≡◌};
ghost use Rattle.crew_log.specs.Machinery.Rights.{names_of};

use crate::places::{Drawings, Places};
use crate::rights::{History, Right, Rights};
use boxcar::Keeps;
use boxcar::tag::{Names, Tag};
use crew_flights::Entry;

/// What stands at a place: an entry, with the right to the place, and with what was drawn up to it.
#[derive(Drop)]
pub struct Stamped {
    pub entry: Entry,
    pub right: Right,
    pub drawn: Drawings,
}

/// The rule of a row of places.
pub struct InPlace;

impl Keeps<Stamped> for InPlace {
    ghost use Rattle.crew_log.specs.Machinery.Rights.{IsInPlace};

    ghost holds = { λ tag place s. IsInPlace tag place s.right.history.book s.right.history.log
        s.drawn.book s.drawn.log s.entry };
}

// The histories that a row is named after.
#[derive(Drop)]
struct Histories {
    claims: History,
    draws: Drawings,
}

struct ByBooks;

impl Names<Histories> for ByBooks {
    ghost use Rattle.crew_log.specs.Machinery.Rights.{names_of};

    ghost numbers = { λ both. names_of both.claims.book both.draws.book };
}

/// The name that a row gets of what is claimed and drawn.
pub fn tag(rights: &Rights, places: &Places) -> Tag
    ensures { result.numbers ≡ names_of rights.now places.now }
{
    let histories = Histories {
        claims: rights.history(),
        draws: places.history(),
    };
    Tag::of::<Histories, ByBooks>(&histories)
}
