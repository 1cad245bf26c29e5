//! What the commands of a case work on.
ghost use Rattle.std.specs.Prelude.{◌≡◌};
ghost use Rattle.crew_log.specs.Logs.{AreOf};

use crate::edits::edit_of;
use crate::sights::{
    all_see, best_cost, count_views, entries_of, held_of, hold_all, verdict_at, view_of,
};
use crate::words::{Answer, count_at, count_of, parted};
use crew_command::crew_service::{Gate, Planner, Shared};
use crew_flights::Edit;
use crew_log::{Receipt, Seat};
use crew_publish::{Note, View, Viewer};
use crew_version::Version;
use std::alloc::Global;
use std::io::{self, Print};
use std::marker::Model;
use std::sync::Wait;
use std::thread::Threads;

/// A planner with what it shares, the seats, the receipts that weren't handed in yet, the note that
/// came last, the viewers, and views that are held.
#[derive(Drop)]
pub struct Desk<'a, R: Wait, G: Gate> {
    shared: &'a Shared,
    planner: Planner<'a, R, G>,
    seats: Vec<Seat>,
    receipts: Vec<Receipt>,
    notes: Vec<Note<&'a R>>,
    viewers: Vec<Viewer>,
    held: Vec<View>,
}

// What words, behind a viewer's, ask of a version.
fn asked_of(version: &Version, words: &[&str]) -> Answer {
    match *words {
        [_, "see"] => Ok(version.number()),
        [_, "count"] => Ok(version.count() as u64),
        [_, "verdict", place] => verdict_at(version, count_of(place)),
        [_, "front", base, flight] => entries_of(version, base, flight),
        _ => Err(None),
    }
}

impl<'a, R: Wait, G: Gate> Model for Desk<'a, R, G> {
    ghost use Rattle.std.specs.Prelude.{◌≡◌};
    ghost use Rattle.crew_log.specs.Logs as Spec;
    ghost use Rattle.crew_log.specs.Logs.{AreOf};

    ghost Value = { Spec.Log };

    ghost view = { λ d. d.shared.now };

    ghost invariant = { λ d. (d.planner.log ≡ d.shared.now) × AreOf d.shared.now d.receipts.items };
}

impl<'a, R: Wait, G: Gate> Desk<'a, R, G> {
    /// A desk where nothing was submitted.
    pub fn new(
        alloc: Global,
        shared: &'a Shared,
        planner: Planner<'a, R, G>,
        seats: Vec<Seat>,
        viewers: Vec<Viewer>,
    ) -> Self
        requires { planner.log ≡ shared.now }
    {
        Desk {
            shared,
            planner,
            seats,
            receipts: Vec::new(alloc),
            notes: Vec::new(alloc),
            viewers,
            held: Vec::new(alloc),
        }
    }

    /// What it shares.
    pub fn shared(&self) -> &'a Shared {
        self.shared
    }

    // Submits an edit by a seat, and gives its place.
    fn submit(&mut self, rt: &R, seat: usize, edit: Edit) -> Answer {
        let Some(seat) = self.seats.get_mut(seat) else {
            return Err(None);
        };
        if self.receipts.reserve(1).is_err() {
            return Err(None);
        }
        match seat.submit(rt, self.shared.log(), edit) {
            Ok(receipt) => {
                let place = receipt.place() as u64;
                self.receipts.push_reserved(receipt);
                Ok(place)
            }
            Err((_, fault)) => Err(fault.number()),
        }
    }

    // Settles all receipts, and gives the number that the note tells.
    fn settle<S: Threads + Sync>(&mut self, rt: &S, alloc: Global) -> Answer {
        if self.notes.reserve(1).is_err() {
            return Err(None);
        }
        match self.planner.settle(rt, alloc, self.shared, &self.receipts) {
            Ok(note) => {
                let number = note.number();
                self.notes.clear();
                self.notes.push_reserved(note);
                Ok(number)
            }
            Err(fault) => Err(fault.number()),
        }
    }

    // A viewer learns of the last note.
    fn learn(&mut self, viewer: usize) -> Answer {
        match (self.viewers.get_mut(viewer), self.notes.last()) {
            (Some(viewer), Some(note)) => match viewer.learn(note) {
                Ok(()) => Ok(note.count() as u64),
                Err(fault) => Err(fault.number()),
            },
            _ => Err(None),
        }
    }

    // What words ask of the version that a viewer sees.
    fn ask(&mut self, viewer: usize, words: &[&str]) -> Answer {
        let view = view_of(&mut self.viewers, viewer)?;
        asked_of(view.version(), words)
    }

    // How many of so many views of a viewer are of the version of this number.
    fn count_views(&mut self, viewer: usize, number: usize, views: usize) -> Answer {
        match self.viewers.get_mut(viewer) {
            Some(viewer) => count_views(viewer, number as u64, views),
            None => Err(None),
        }
    }

    // What a word and others ask for that a viewer answers.
    fn look(&mut self, word: &str, rest: &[&str]) -> Answer {
        match word {
            "ask" => self.ask(count_at(rest, 0), rest),
            "views" => self.count_views(count_at(rest, 0), count_at(rest, 1), count_at(rest, 2)),
            "learn" => self.learn(count_at(rest, 0)),
            "all" => all_see(&mut self.viewers, count_at(rest, 0) as u64),
            "hold" => hold_all(&mut self.viewers, &mut self.held),
            "held" => held_of(&self.held, count_at(rest, 0) as u64),
            _ => Err(None),
        }
    }

    // What a seat and the record of an edit submit.
    fn submit_as(&mut self, rt: &R, words: &[&str]) -> Answer {
        let (seat, fields) = parted(words);
        match edit_of(fields) {
            Some(edit) => self.submit(rt, count_of(seat), edit),
            None => Err(None),
        }
    }

    // How many nodes the open round has.
    fn count_open(&self, rt: &R) -> Answer {
        match self.shared.progress(rt) {
            Some(progress) => Ok(progress.nodes as u64),
            None => Err(None),
        }
    }

    // What words ask for.
    fn obey<S: Threads + Sync>(
        &mut self,
        rt: &S,
        wait: &R,
        alloc: Global,
        words: &[&str],
    ) -> Answer {
        let (word, rest) = parted(words);
        match word {
            "submit" => self.submit_as(wait, rest),
            "settle" => self.settle(rt, alloc),
            "kept" => Ok(self.planner.version().number()),
            "open" => self.count_open(wait),
            _ => self.look(word, rest),
        }
    }

    /// Obeys a command, and shows what it comes to.
    pub fn obey_line<S: Print + Threads + Sync>(
        &mut self,
        rt: &S,
        wait: &R,
        alloc: Global,
        line: &str,
    ) -> io::Result<()> {
        let words: Vec<&str> = line.split([' ', ',']).collect(alloc)?;
        if let ["best", viewer] = *words.as_slice() {
            let best = best_cost(&mut self.viewers, count_of(viewer));
            return println!(rt; "{line}: {best:?}");
        }
        println!(rt; "{line}: {:?}", self.obey(rt, wait, alloc, &words))
    }

    /// Obeys each command, and shows what it comes to.
    pub fn obey_all<S: Print + Threads + Sync>(
        &mut self,
        rt: &S,
        wait: &R,
        alloc: Global,
        input: &str,
    ) -> io::Result<()> {
        for line in input.lines() {
            self.obey_line(rt, wait, alloc, line)?;
        }
        Ok(())
    }
}
