//! The machine.
//!
//! Of readers nothing is kept: the version published last answers each of them, and that is never
//! before one that it was answered. A round over the whole log is never refused for a log that is
//! too short, since what is sealed is a beginning of the log in each state that can be reached.
ghost use Rattle.std.specs.Prelude.{◌≡◌, ◌≢◌, ◌↔◌, ◌<◌, IfOk, IsTrue, OnErr, Some, length, map};
ghost use Rattle.std.specs.Arc.{arc_value};
ghost use Rattle.crew_board.specs.declared.fault.BeginFault.TheVariants.{Ground};
ghost use Rattle.crew_board.specs.declared.fault.SealFault.TheVariants as Seal;
ghost use Rattle.crew_core.specs.Machines.{IsMachineOf};
ghost use Rattle.crew_core.specs.Machinery.Refused.{begin_reply, seal_reply};
ghost use Rattle.crew_core.specs.Memory.{MayClose, MayOpen, MayPublish, TakesMemory};
ghost use Rattle.crew_core.specs.Replies.{IsStep, act_of, named};
ghost use Rattle.crew_board.specs.crew_job.Jobs.{IsJobOf, job_node};
ghost use Rattle.crew_board.specs.crew_job.declared.fault.GroundFault.TheVariants.{Memory, ShorterLog};
ghost use Rattle.crew_machine.specs.Crew.{CrewState, DutyNode, DutyWork, Entries, IsLocalOf, crew};
ghost use Rattle.crew_machine.specs.Steps as Steps;
ghost use Rattle.crew_rules.specs.Settings.{IsChecked};
ghost use Rattle.crew_board.specs.crew_version.Versions as Versions;

use crate::reply::Reply;
use crate::step::Step;
use crew_board::crew_job::{Done, GroundFault, Job, work};
use crew_board::crew_version::Version;
use crew_board::{BeginFault, Board, SealFault};
use crew_flights::Entry;
use crew_net::Node;
use crew_rules::Settings;
use std::alloc::{AllocError, Global};
use std::marker::Model;
use std::sync::Arc;
use std::thread::Threads;

/// A log, the board over it, the jobs that were handed out, and the versions that were published.
///
/// A contract sees these. A machine always stands for a state of `crew_machine`'s that can be
/// reached; `published` tells so.
pub struct Machine {
    log: Vec<Entry>,
    board: Board,
    jobs: Vec<Job>,
    published: Vec<Arc<Version, Global>>,
}

impl Drop for Machine {
    fn drop(self) {
        let Self {
            log: _,
            board: _,
            jobs: _,
            published: _,
        } = self;
    }
}

impl Model for Machine {
    ghost use Rattle.std.specs.Prelude.{map};
    ghost use Rattle.crew_core.specs.Machines.{IsMachineOf, ShownMachine};
    ghost use Rattle.crew_machine.specs.Crew.{CrewState};

    ghost Value = { ShownMachine };

    ghost view = { λ m. record {
      log = m.log.items;
      board = m.board;
      jobs = m.jobs.items;
      published = map (λ a. a.value) m.published.items;
    } };

    ghost invariant = { λ m. (state : CrewState) × IsMachineOf (record {
      log = m.log.items;
      board = m.board;
      jobs = m.jobs.items;
      published = map (λ a. a.value) m.published.items;
    }) state };
}

// The version before any entry, shared.
fn opening(alloc: Global, settings: &Settings) -> Result<Arc<Version, Global>, AllocError>
    requires { IsChecked settings.now }
    ensures { IfOk result (λ version. arc_value version ≡ Versions.opening settings.now) }
{
    Arc::new(alloc, Version::opening(alloc, settings)).map_err(|_| AllocError)
}

// The reply to a round that isn't begun over the whole log, which begins with what is settled.
fn not_begun(fault: BeginFault) -> Result<Reply, AllocError>
    requires { fault ≢ Ground ShorterLog }
    ensures told { IfOk result (λ reply. begin_reply fault ≡ Some reply) }
    ensures memory { OnErr result (fault ≡ Ground Memory) }
{
    match fault {
        BeginFault::Busy => Ok(Reply::Busy),
        BeginFault::Ground(GroundFault::LastVersion) => Ok(Reply::LastVersion),
        BeginFault::Ground(GroundFault::TooManyDuties) => Ok(Reply::TooManyDuties),
        BeginFault::Ground(GroundFault::Memory) => Err(AllocError),
        BeginFault::Ground(GroundFault::ShorterLog) => unreachable!(),
    }
}

// The reply to a round that isn't sealed.
fn not_sealed(fault: SealFault) -> Result<Reply, AllocError>
    ensures told { IfOk result (λ reply. seal_reply fault ≡ Some reply) }
    ensures memory { OnErr result (fault ≡ Seal.Memory) }
{
    match fault {
        SealFault::NoRound => Ok(Reply::NoRound),
        SealFault::NotDone(node) => Ok(Reply::NotDone(node)),
        SealFault::Memory => Err(AllocError),
    }
}

// The node of a job.
fn node_of(job: &Job) -> Node
    ensures { (n : DutyNode) → job_node job.now ≡ Some n → result ≡ named n }
{
    Node {
        base: job.code(),
        key: job.duty().key.copy(),
    }
}

// Does a job. What is done has a front, which its work leaves.
fn done(alloc: Global, job: &Job) -> Result<Done, AllocError>
    ensures job { IfOk result (λ done. done ≡ job.now) }
    ensures front { IfOk result (λ done. (front : Entries)
        × ((work : DutyWork) → IsJobOf done work → IsLocalOf work front)) }
{
    let done = work(alloc, job)?;
    {
        let _front = done.front();
    }
    Ok(done)
}

impl Machine {
    /// A machine before any step.
    pub fn new(alloc: Global, settings: &Settings) -> Result<Machine, AllocError>
        requires { IsChecked settings.now }
        ensures starts { IfOk result (λ machine. IsMachineOf machine
            (Steps.start (crew settings.now))) }
        ensures settings { IfOk result (λ machine. machine.board.sealed.settings
            ≡ settings.now) }
    {
        let opening = opening(alloc, settings)?;
        let mut published = Vec::with_capacity(alloc, 1)?;
        published.push(Arc::try_clone(&opening)?)?;
        Ok(Machine {
            log: Vec::new(alloc),
            board: Board::new(opening),
            jobs: Vec::new(alloc),
            published,
        })
    }

    /// The versions that were published, in order, that of number 0 first.
    pub fn published(&self) -> &[Arc<Version, Global>]
        ensures published { map arc_value result.now ≡ self.now.published }
        ensures stands { (state : CrewState) × IsMachineOf self.now state }
    {
        &self.published
    }

    /// The same, where nothing else of the machine is wanted any more.
    pub fn into_published(self) -> Vec<Arc<Version, Global>>
        ensures { map arc_value result.items ≡ self.published }
    {
        let Self {
            log: _,
            board: _,
            jobs: _,
            published,
        } = self;
        published
    }

    // Puts an entry at the end of the log.
    fn push(&mut self, entry: Entry) -> Result<Reply, AllocError>
        ensures ok { IfOk result (λ reply. IsStep self.old (Steps.Push entry) reply self.new) }
        ensures err { OnErr result (self.new ≡ self.old) }
    {
        let Entry { seat, number, edit } = entry;
        let place = self.log.len();
        self.log.reserve(1)?;
        self.log.push_reserved(Entry { seat, number, edit });
        Ok(Reply::Pushed(place))
    }

    // Opens a round over the whole log.
    fn begin<R: Threads + Sync>(&mut self, rt: &R, alloc: Global) -> Result<Reply, AllocError>
        ensures ok { IfOk result (λ reply. IsStep self.old Steps.Begin reply self.new) }
        ensures err { OnErr result (self.new ≡ self.old) }
        ensures memory { OnErr result (MayOpen self.old.board) }
    {
        if let Err(fault) = self.board.begin(rt, alloc, &self.log) {
            return not_begun(fault);
        }
        Ok(Reply::Begun)
    }

    // Hands out the job of the least ready node.
    fn claim(&mut self, alloc: Global) -> Result<Reply, AllocError>
        ensures ok { IfOk result (λ reply. IsStep self.old Steps.Claim reply self.new) }
        ensures err { OnErr result (self.new ≡ self.old) }
    {
        let number = self.jobs.len();
        self.jobs.reserve(1)?;
        let Some(job) = self.board.claim(alloc)? else {
            return Ok(Reply::NoneReady);
        };
        let node = node_of(&job);
        self.jobs.push_reserved(job);
        Ok(Reply::Claimed { job: number, node })
    }

    // Works a job out, and brings its result.
    fn bring(&mut self, alloc: Global, job: u32) -> Result<Reply, AllocError>
        ensures ok { IfOk result (λ reply. IsStep self.old (Steps.Bring job) reply self.new) }
        ensures err { OnErr result (self.new ≡ self.old) }
        ensures memory { OnErr result (job < length self.old.jobs) }
    {
        let Some(found) = self.jobs.get(job as usize) else {
            return Ok(Reply::NotBrought(job));
        };
        let done = done(alloc, found)?;
        let brought = self.board.bring(done);
        Ok(Reply::Brought { job, brought })
    }

    // Gives a job back.
    fn give_back(&mut self, job: u32) -> Reply
        ensures { IsStep self.old (Steps.Give_back job) result self.new }
    {
        let Some(found) = self.jobs.get(job as usize) else {
            return Reply::NotGivenBack(job);
        };
        let freed = self.board.give_back(found);
        Reply::GivenBack { job, freed }
    }

    // Drops the round.
    fn abandon(&mut self) -> Reply
        ensures { IsStep self.old Steps.Abandon result self.new }
    {
        Reply::Abandoned(self.board.abandon())
    }

    // Seals the round's version.
    fn seal(&mut self, alloc: Global) -> Result<Reply, AllocError>
        ensures ok { IfOk result (λ reply. IsStep self.old Steps.Seal reply self.new) }
        ensures err { OnErr result (self.new ≡ self.old) }
        ensures memory { OnErr result (MayClose self.old.board) }
    {
        let settled = self.board.sealed().count();
        let version = match self.board.seal(alloc) {
            Ok(version) => version,
            Err(fault) => return not_sealed(fault),
        };
        Ok(Reply::Sealed { settled, version })
    }

    // Whether the version that was sealed last is published: of published and sealed versions each
    // has a number of its own.
    fn is_published(&self) -> bool
        ensures { (state : CrewState) → IsMachineOf self.now state → (IsTrue result
            ↔ (Steps.last_of state.published ≡ Some state.board.sealed)) }
    {
        self.latest().number() == self.board.sealed().number()
    }

    // The version that was published last.
    fn latest(&self) -> &Arc<Version, Global>
        ensures { Steps.last_of self.now.published ≡ Some (arc_value result.now) }
    {
        match self.published.last() {
            Some(version) => version,
            None => unreachable!(),
        }
    }

    // Publishes the version that was sealed last.
    fn publish(&mut self) -> Result<Reply, AllocError>
        ensures ok { IfOk result (λ reply. IsStep self.old Steps.Publish reply self.new) }
        ensures err { OnErr result (self.new ≡ self.old) }
        ensures memory { OnErr result (MayPublish self.old) }
    {
        if self.is_published() {
            return Ok(Reply::NothingNew);
        }
        self.published.reserve(1)?;
        let version = Arc::try_clone(self.board.sealed())?;
        let shared = Arc::try_clone(&version)?;
        self.published.push_reserved(shared);
        Ok(Reply::Published(version))
    }

    // Answers a reader.
    fn ask(&self, reader: u8) -> Result<Reply, AllocError>
        ensures { IfOk result (λ reply. IsStep self.now (Steps.Ask reader) reply self.now) }
    {
        let version = Arc::try_clone(self.latest())?;
        Ok(Reply::Answered { reader, version })
    }

    /// One step of `crew_machine`'s, with the product's choices: a round is begun over the whole log,
    /// the least ready node's job is handed out, all that is unchanged with a result is done with it,
    /// and the version published last answers a reader. With no memory nothing changes, and want of it
    /// is answered only to a step that takes some: never where a job is given back or the round is
    /// dropped, nor in the place of a refusal, but for that of too many duties.
    pub fn step<R: Threads + Sync>(
        &mut self,
        rt: &R,
        alloc: Global,
        step: Step,
    ) -> Result<Reply, AllocError>
        ensures ok { IfOk result (λ reply. IsStep self.old (act_of step) reply self.new) }
        ensures err { OnErr result (self.new ≡ self.old) }
        ensures memory { OnErr result (TakesMemory self.old step) }
    {
        match step {
            Step::Push(entry) => self.push(entry),
            Step::Begin => self.begin(rt, alloc),
            Step::Claim => self.claim(alloc),
            Step::Bring(job) => self.bring(alloc, job),
            Step::GiveBack(job) => Ok(self.give_back(job)),
            Step::Abandon => Ok(self.abandon()),
            Step::Seal => self.seal(alloc),
            Step::Publish => self.publish(),
            Step::Ask(reader) => self.ask(reader),
        }
    }
}
