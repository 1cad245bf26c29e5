//! Logs of entries, and what they come to.

ghost use Rattle.std.specs.Prelude.{◌≡◌, ◌∷◌, ◌++◌, [], List, IfOk, OnErr};

use crate::edit::{Edit, Refusal, Verdict};
use crate::timetable::Timetable;
use std::alloc::{AllocError, Global};
use std::marker::Model;

/// An entry of a log: an edit, the seat that sent it, and its number among that seat's entries.
#[derive(Clone, Copy, Debug, PartialEq, Eq)]
pub struct Entry {
    pub seat: u8,
    pub number: u32,
    pub edit: Edit,
}

/// A fold under way: the timetable that the entries so far come to.
///
/// A contract sees the timetable, and how many entries of each seat were in turn.
#[derive(Drop)]
pub struct Folding {
    timetable: Timetable,
    turns: [u64; 256],
}

impl Model for Folding {
    ghost use Rattle.std.specs.Prelude.{◌≡◌, length};
    ghost use Rattle.crew_flights.specs.Fold.{Standing, standing_code};

    ghost Value = { Standing };

    ghost coded = { standing_code };

    ghost view = { λ f. record { timetable = f.timetable; turns = f.turns } };

    ghost invariant = { λ f. length f.turns ≡ 256 };
}

impl Folding {
    ghost use Rattle.crew_flights.specs.Fold.{HasTaken, fold_of};
    ghost use Rattle.crew_flights.specs.declared.entries.Entry.{Entry};

    /// No entries taken.
    pub fn new(alloc: Global) -> Self
        ensures { HasTaken [] result }
    {
        Folding {
            timetable: Timetable::new(alloc),
            turns: [0; 256],
        }
    }

    /// Takes the next entry, and gives its verdict: `OutOfTurn` where its number isn't the count
    /// of its seat's earlier entries that were in turn, and else that of its edit. On want of
    /// memory nothing changes.
    pub fn take(&mut self, entry: &Entry) -> Result<Verdict, AllocError>
        ensures ok { IfOk result (λ verdict. (entries : List Entry) → HasTaken entries self.old
            → HasTaken (entries ++ entry.now ∷ []) self.new
            × ((fold_of (entries ++ entry.now ∷ [])).1 ≡ (fold_of entries).1 ++ verdict ∷ [])) }
        ensures err { OnErr result (self.new ≡ self.old) }
    {
        let turn = self.turns[entry.seat as usize];
        if u64::from(entry.number) != turn {
            return Ok(Verdict::Refused(Refusal::OutOfTurn));
        }
        let verdict = self.timetable.apply(&entry.edit)?;
        self.turns[entry.seat as usize] = turn + 1;
        Ok(verdict)
    }

    /// The timetable that the entries so far come to.
    pub fn timetable(&self) -> &Timetable
        ensures { result.now ≡ self.now.timetable }
    {
        &self.timetable
    }

    /// The timetable that the entries so far come to, kept.
    pub fn into_timetable(self) -> Timetable
        ensures { result ≡ self.timetable }
    {
        self.timetable
    }

    /// The same fold again.
    pub fn copy(&self, alloc: Global) -> Result<Folding, AllocError>
        ensures { IfOk result (λ copied. copied ≡ self.now) }
    {
        Ok(Folding {
            timetable: self.timetable.copy(alloc)?,
            turns: self.turns,
        })
    }
}

ghost use Rattle.crew_flights.specs.Fold.{fold_of};

/// Takes entries in place order, from an empty timetable: the timetable that they come to, and
/// a verdict for each.
pub fn fold(alloc: Global, entries: &[Entry]) -> Result<(Timetable, Vec<Verdict>), AllocError>
    ensures { IfOk result (λ folded. (folded.0, folded.1.items) ≡ fold_of entries.now) }
{
    let mut fold = Folding::new(alloc);
    let mut verdicts = Vec::with_capacity(alloc, entries.len())?;
    for entry in entries {
        verdicts.push(fold.take(entry)?)?;
    }
    Ok((fold.into_timetable(), verdicts))
}
