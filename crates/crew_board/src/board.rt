//! The board: the version that was sealed last, and the round that is open.
//!
//! A board is told by the machine's boards that it could be, and not by a list of cells with
//! fronts: it shows entries and marks, and a clause holds for each board of the machine that shows
//! the same. Fronts needn't be kept as lists to be spoken of, since what is done is right and a
//! node has one front.
ghost use Rattle.std.specs.Prelude.{◌≡◌, ℕ, IfErr, IfOk, List, MatchOption, None, OnErr, OnOk, Some, filter, length};
ghost use Rattle.std.specs.Arc.{arc_value};
ghost use Rattle.crew_board.specs.Boards.{IsBoardOf, ShownRound};
ghost use Rattle.crew_board.specs.Calls.{HasAbandoned, HasBegun, HasBrought, HasClaimed, HasGivenBack, HasSealed, IsBeginFault, IsSealFault};
ghost use Rattle.crew_board.specs.Lots.{AreResultsOf, AreWorksOf, HasBroughtLot, HasClaimedLot, HasGivenBackLot};
ghost use Rattle.crew_job.specs.Jobs.{IsJobOf};
ghost use Rattle.crew_machine.specs.Crew.{CrewBoard, DutyWork, Entries, IsLocalOf, crew};
ghost use Rattle.crew_machine.specs.Rounds.{NoneReady};
ghost use Rattle.crew_round.specs.Marks.{is_done, is_out};

use crate::fault::{BeginFault, SealFault};
use crate::round::Round;
use crate::tally::{Tally, all_stale};
use crew_flights::Entry;
use crew_job::crew_version::Version;
use crew_job::{Done, DoneLot, Ground, Job, Lot};
use crew_machine::Brought;
use crew_round::Progress;
use std::alloc::{AllocError, Global};
use std::marker::Model;
use std::sync::Arc;
use std::thread::Threads;

/// The version that was sealed last, and at most one round that is open over it.
///
/// A contract sees the version, and the entries and marks of the round. It tells of each board of
/// the machine of which that is shown, which step a call is; `sealed` tells that there is one.
pub struct Board {
    sealed: Arc<Version, Global>,
    round: Option<Round>,
}

impl Drop for Board {
    fn drop(self) {
        let Self {
            sealed: _,
            round: _,
        } = self;
    }
}

impl Model for Board {
    ghost use Rattle.crew_board.specs.Boards.{ShownBoard};
    ghost use Rattle.crew_board.specs.Machinery.Settled.{IsSettled, board_of};

    ghost Value = { ShownBoard };

    ghost view = { λ b. board_of b.sealed.value b.round };

    ghost invariant = { λ b. IsSettled b.sealed.value b.round };
}

impl Board {
    /// A board over a version, on which no round is open.
    pub fn new(sealed: Arc<Version, Global>) -> Board
        ensures sealed { result.sealed ≡ arc_value sealed }
        ensures round { result.round ≡ None }
    {
        let _right = sealed.number();
        let _checked = sealed.settings();
        Board {
            sealed,
            round: None,
        }
    }

    /// The version that was sealed last.
    pub fn sealed(&self) -> &Arc<Version, Global>
        ensures sealed { arc_value result.now ≡ self.now.sealed }
        ensures stands { (b : CrewBoard) × IsBoardOf self.now b }
    {
        &self.sealed
    }

    /// The ground of the open round; `None` where none is open.
    pub fn round(&self) -> Option<&Ground>
        ensures { MatchOption result (self.now.round ≡ None) (λ ground. (r : ShownRound)
            × (self.now.round ≡ Some r) × (r.entries ≡ ground.now.entries)) }
    {
        match &self.round {
            Some(round) => Some(round.ground()),
            None => None,
        }
    }

    /// How many nodes the open round has, and how many of them are done and out; `None` where none
    /// is open.
    pub fn progress(&self) -> Option<Progress>
        ensures { MatchOption result (self.now.round ≡ None) (λ progress. (r : ShownRound)
            × (self.now.round ≡ Some r) × (progress.nodes ≡ length r.marks)
            × (progress.done ≡ length (filter is_done r.marks))
            × (progress.out ≡ length (filter is_out r.marks))) }
    {
        match &self.round {
            Some(round) => Some(round.progress()),
            None => None,
        }
    }

    /// Opens a round over entries that begin with the sealed version's: the nodes that no change
    /// reaches are done, and the others wait. Refused for the first of these that applies: a round
    /// is open; the entries don't begin with the version's; it has the last number; they come to
    /// more than 200,000 legal duties; there is no memory.
    pub fn begin<R: Threads + Sync>(
        &mut self,
        rt: &R,
        alloc: Global,
        entries: &[Entry],
    ) -> Result<(), BeginFault>
        ensures ok { OnOk result ((b : CrewBoard) → IsBoardOf self.old b
            → HasBegun self.old b entries.now self.new) }
        ensures fault { IfErr result (λ fault. (b : CrewBoard) → IsBoardOf self.old b
            → IsBeginFault self.old b entries.now fault) }
        ensures err { OnErr result (self.new ≡ self.old) }
        ensures sealed { self.new.sealed ≡ self.old.sealed }
    {
        if self.round.is_some() {
            return Err(BeginFault::Busy);
        }
        let ground = Ground::begin(rt, alloc, &self.sealed, entries)?;
        let round = Round::begin(alloc, ground)?;
        self.round = Some(round);
        Ok(())
    }

    /// Hands out the job of the least node that waits and whose nodes before it are done; `None`
    /// where there is none, or no round is open. With no memory for a job that there is, nothing is
    /// handed out.
    pub fn claim(&mut self, alloc: Global) -> Result<Option<Job>, AllocError>
        ensures ok { IfOk result (λ claimed. (b : CrewBoard) → IsBoardOf self.old b
            → HasClaimed self.old b claimed self.new) }
        ensures err { OnErr result (self.new ≡ self.old) }
        ensures some { OnErr result ((b : CrewBoard) → IsBoardOf self.old b
            → NoneReady (crew self.old.sealed.settings) b → ⊥) }
        ensures sealed { self.new.sealed ≡ self.old.sealed }
    {
        let Some(round) = &mut self.round else {
            return Ok(None);
        };
        round.claim(alloc)
    }

    /// Takes a result in by what its job holds, whoever made it and when: `Stale` where that is no
    /// node's own job now, `Again` where the node is done, and else it is stored, and all whose job
    /// is the sealed version's are done with it. Takes no memory.
    pub fn bring(&mut self, done: Done) -> Brought
        ensures brought { (b : CrewBoard) (work : DutyWork) (front : Entries) → IsBoardOf self.old b
            → IsJobOf done work → IsLocalOf work front
            → HasBrought self.old b work front result self.new }
        ensures sealed { self.new.sealed ≡ self.old.sealed }
    {
        let Some(round) = &mut self.round else {
            return Brought::Stale;
        };
        round.bring(done)
    }

    /// Hands out the jobs of so many nodes at most, one after another, each that of the least node
    /// that is ready then. It ends where none is ready, or where there is no memory for the next job;
    /// and is refused only where that is the first: then nothing is handed out.
    pub fn claim_lot(&mut self, alloc: Global, most: usize) -> Result<Lot, AllocError>
        ensures ok { IfOk result (λ lot. (b : CrewBoard) → IsBoardOf self.old b
            → HasClaimedLot self.old b most lot self.new) }
        ensures err { OnErr result (self.new ≡ self.old) }
        ensures some { OnErr result ((b : CrewBoard) → IsBoardOf self.old b
            → NoneReady (crew self.old.sealed.settings) b → ⊥) }
        ensures sealed { self.new.sealed ≡ self.old.sealed }
    {
        let Some(round) = &mut self.round else {
            return Ok(Lot::new(alloc));
        };
        round.claim_lot(alloc, most)
    }

    /// Takes the results of a lot in, in order, each as `bring` does, and tells how many came to what.
    /// Their ground is compared with the round's once. Takes no memory.
    pub fn bring_lot(&mut self, done: DoneLot) -> Tally
        ensures brought { (b : CrewBoard) (results : List (DutyWork × Entries)) → IsBoardOf self.old b
            → AreResultsOf done results → HasBroughtLot self.old b results result self.new }
        ensures sealed { self.new.sealed ≡ self.old.sealed }
    {
        let Some(round) = &mut self.round else {
            return all_stale(&done);
        };
        round.bring_lot(done)
    }

    /// Takes the jobs of a lot back that aren't done, in order, each as `give_back` does. Tells how many
    /// nodes wait again.
    pub fn give_back_lot(&mut self, lot: &Lot) -> usize
        ensures given_back { (b : CrewBoard) (works : List DutyWork) → IsBoardOf self.old b
            → AreWorksOf lot.now works → HasGivenBackLot self.old b works result self.new }
        ensures sealed { self.new.sealed ≡ self.old.sealed }
    {
        let Some(round) = &mut self.round else {
            return 0;
        };
        round.give_back_lot(lot)
    }

    /// Takes a job back that isn't done. Tells whether its node waits again: it was out, and the
    /// job is its own now.
    pub fn give_back(&mut self, job: &Job) -> bool
        ensures given_back { (b : CrewBoard) (work : DutyWork) → IsBoardOf self.old b
            → IsJobOf job.now work → HasGivenBack self.old b work result self.new }
        ensures sealed { self.new.sealed ≡ self.old.sealed }
    {
        let Some(round) = &mut self.round else {
            return false;
        };
        round.give_back(job)
    }

    /// Drops the round that is open. Tells whether one was.
    pub fn abandon(&mut self) -> bool
        ensures abandoned { (b : CrewBoard) → IsBoardOf self.old b
            → HasAbandoned self.old b result self.new }
        ensures sealed { self.new.sealed ≡ self.old.sealed }
    {
        if self.round.is_none() {
            return false;
        }
        self.round = None;
        true
    }

    /// Seals the round: the version that its fronts make is the sealed one, and no round is open.
    /// Refused where no round is open, or by the least node that isn't done, or for want of memory.
    pub fn seal(&mut self, alloc: Global) -> Result<Arc<Version, Global>, SealFault>
        ensures ok { IfOk result (λ version. (b : CrewBoard) → IsBoardOf self.old b
            → HasSealed self.old b (arc_value version) self.new) }
        ensures fault { IfErr result (λ fault. (b : CrewBoard) → IsBoardOf self.old b
            → IsSealFault self.old b fault) }
        ensures err { OnErr result (self.new ≡ self.old) }
        ensures sealed { IfOk result (λ version. self.new.sealed ≡ arc_value version) }
    {
        let Some(round) = &self.round else {
            return Err(SealFault::NoRound);
        };
        if let Some(node) = round.first_undone() {
            return Err(SealFault::NotDone(node));
        }
        let version = round.close(alloc)?;
        self.sealed = Arc::try_clone(&version)?;
        self.round = None;
        Ok(version)
    }

    /// Puts a version in the sealed one's place, and drops the round that is open.
    pub fn restore(&mut self, version: Arc<Version, Global>)
        ensures sealed { self.new.sealed ≡ arc_value version }
        ensures round { self.new.round ≡ None }
    {
        let _right = version.number();
        let _checked = version.settings();
        self.sealed = version;
        self.round = None;
    }
}
