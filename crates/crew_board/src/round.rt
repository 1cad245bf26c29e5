//! A round: its ground, what is known of its nodes, and what shows the fronts of those that are done.
//!
//! A lot is of one base: who works it out makes the sweep of a base that has none, which is nearly
//! all of a round's work, so several can do so at once. With 256 jobs a lot the comparing of
//! grounds took as long as all else. A lot has an eighth of what waits at most, but for 64, so that
//! nobody works long when the others have nothing left.
ghost use Rattle.std.specs.Prelude.{◌≡◌, ◌↔◌, ◌⊎◌, ◌+◌, ◌<◌, ◌≤◌, [], ℕ, Bool, IfOk, IfSome, IsTrue, List, MatchOption, None, OnErr, OnOk, Some, filter, get_or, length, map, slice_get, slice_set, true};
ghost use Rattle.std.specs.Arc.{arc_value};
ghost use Rattle.std.specs.Option.{option_map};
ghost use Rattle.crew_board.specs.Lots.{freed_of, tally_of};
ghost use Rattle.crew_board.specs.Machinery.Held.{AllNone, IsBegun, Marked};
ghost use Rattle.crew_board.specs.Machinery.Likes.{AreLike};
ghost use Rattle.crew_board.specs.Machinery.Turns.{ClaimsEach, HasAdded, HasClaimed, IsFirstNode, IsNowhere, IsOwnPlace, IsReadableFrom, IsStored, TakesBack, TakesBackEach, TakesIn, TakesInEach};
ghost use Rattle.crew_job.specs.Grounds.{IsGround, nodes_in};
ghost use Rattle.crew_job.specs.Jobs.{IsJobOf, IsOwnAt, IsPlaced, job_node};
ghost use Rattle.crew_job.specs.Lots.{StandOn};
ghost use Rattle.crew_job.specs.Shown.{IsAsSealed};
ghost use Rattle.crew_machine.specs.Crew.{DutyNode, DutyWork};
ghost use Rattle.crew_machine.specs.declared.rounds.Brought.{Brought};
ghost use Rattle.crew_round.specs.Marks.{AllDone, AreDoneBefore, AreSameBefore, IsFirstReady, IsFirstUndone, IsMarked, IsReady, IsUndone, NoneReady, node_count};
ghost use Rattle.crew_round.specs.Marks as Spec;
ghost use Rattle.crew_round.specs.declared.mark.Mark.TheVariants.{Done as DoneMark, Out as OutMark};
ghost use Rattle.crew_job.specs.crew_version.Versions.{IsRight};
ghost use Rattle.crew_job.specs.crew_plan.Plans.{AreAllIn, AreFrontsIn};

use crate::alike::{Likeness, is_same_round, is_unknown, likeness_of};
use crate::before::are_same_before;
use crate::tally::{Tally, count, count_if, none_counted};
use crew_job::crew_fronts::BaseFronts;
use crew_job::crew_version::Version;
use crew_job::{Done, DoneLot, Ground, Job, Lot, is_own_by_work};
use crew_machine::Brought;
use crew_net::Node;
use crew_round::{Mark, Marks, Progress};
use std::alloc::{AllocError, Global};
use std::marker::Model;
use std::sync::Arc;

// How many jobs a lot has at most, once its base has a sweep.
const LOT: usize = 2_048;

// The same, where each front is compared with that of the version before, which is most of the work.
const COMPARED_LOT: usize = 512;

// How many a lot may have even where few nodes wait.
const SHORT_LOT: usize = 64;

// Which part of the nodes that wait a lot has at most, so that those who work end at about one time.
const SHARES: usize = 8;

/// A round over a ground.
///
/// A contract sees the ground, and the marks of its nodes. The front of a node that is done is
/// shown by a sweep at its place, or, without one, by the version before the round.
#[derive(Drop)]
pub(crate) struct Round {
    ground: Arc<Ground, Global>,
    marks: Marks,
    shown: Vec<Option<Arc<BaseFronts, Global>>>,
    // By base the place of a node that a sweep of the ground's own plan shows.
    swept: Vec<Option<usize>>,
}

impl Model for Round {
    ghost use Rattle.std.specs.Prelude.{map};
    ghost use Rattle.std.specs.Option.{option_map};
    ghost use Rattle.crew_board.specs.Machinery.Held.{IsHeld, Marked};

    ghost Value = { Marked };

    ghost view = { λ r. record { ground = r.ground.value; marks = r.marks } };

    ghost invariant = { λ r. IsHeld (record { ground = r.ground.value; marks = r.marks })
        (map (option_map (λ a. a.value)) r.shown.items) r.swept.items };
}

// Places for so many sweeps, with none.
fn nothing_shown(
    alloc: Global,
    count: usize,
) -> Result<Vec<Option<Arc<BaseFronts, Global>>>, AllocError>
    ensures long { IfOk result (λ shown. length shown.items ≡ count) }
    ensures none { IfOk result (λ shown. AllNone shown.items) }
{
    let mut shown = Vec::with_capacity(alloc, count)?;
    for _ in 0..count {
        shown.push(None)?;
    }
    Ok(shown)
}

// Places by base for so many bases, with none.
fn nothing_noted(alloc: Global, count: usize) -> Result<Vec<Option<usize>>, AllocError>
    ensures long { IfOk result (λ noted. length noted.items ≡ count) }
    ensures none { IfOk result (λ noted. AllNone noted.items) }
{
    let mut noted = Vec::with_capacity(alloc, count)?;
    for _ in 0..count {
        noted.push(None)?;
    }
    Ok(noted)
}

// Whether a mark is that of a node that is done.
fn is_done(mark: Option<Mark>) -> bool
    ensures { IsTrue result ↔ (mark ≡ Some DoneMark) }
{
    matches!(mark, Some(Mark::Done))
}

// Whether a mark is that of a node whose job is handed out.
fn is_out(mark: Option<Mark>) -> bool
    ensures { IsTrue result ↔ (mark ≡ Some OutMark) }
{
    matches!(mark, Some(Mark::Out))
}

// Puts what shows a node's front at its place.
fn show(shown: &mut [Option<Arc<BaseFronts, Global>>], place: usize, sweep: Arc<BaseFronts, Global>)
    requires { place < length shown.old }
    ensures { shown.new ≡ slice_set shown.old place (Some sweep) }
{
    shown[place] = Some(sweep);
}

// Notes a place for a base, where there is none and it is told to.
fn note(swept: &mut [Option<usize>], told: bool, base: usize, place: usize)
    requires { IsTrue told → base < length swept.old }
    ensures long { length swept.new ≡ length swept.old }
    ensures noted { (k p : ℕ) → slice_get swept.new k ≡ Some (Some p)
        → (slice_get swept.old k ≡ Some (Some p))
        ⊎ ((k ≡ base) × (p ≡ place) × IsTrue told) }
{
    if told && swept[base].is_none() {
        swept[base] = Some(place);
    }
}

// A ground that threads share.
fn shared(alloc: Global, ground: Ground) -> Result<Arc<Ground, Global>, AllocError>
    ensures { IfOk result (λ shared. arc_value shared ≡ ground) }
{
    Arc::new(alloc, ground).map_err(|_| AllocError)
}

impl Round {
    /// A round as it begins: the nodes that no change reaches are done, and the others wait.
    pub(crate) fn begin(alloc: Global, ground: Ground) -> Result<Round, AllocError>
        ensures ground { IfOk result (λ round. round.ground ≡ ground) }
        ensures begun { IfOk result IsBegun }
    {
        let carried = ground.carried(alloc)?;
        let net = ground.shared_net()?;
        let shown = nothing_shown(alloc, net.len())?;
        let swept = nothing_noted(alloc, ground.base_count())?;
        let marks = Marks::begin(alloc, net, carried)?;
        let ground = shared(alloc, ground)?;
        Ok(Round {
            ground,
            marks,
            shown,
            swept,
        })
    }

    /// The ground.
    pub(crate) fn ground(&self) -> &Ground
        ensures { result.now ≡ self.now.ground }
    {
        &self.ground
    }

    /// How many nodes there are, are done, and are out.
    pub(crate) fn progress(&self) -> Progress
        ensures nodes { result.nodes ≡ length self.now.marks.marks }
        ensures done { result.done ≡ length (filter Spec.is_done self.now.marks.marks) }
        ensures out { result.out ≡ length (filter Spec.is_out self.now.marks.marks) }
    {
        self.marks.progress()
    }

    /// Hands out the job of the least ready node, which is out then.
    pub(crate) fn claim(&mut self, alloc: Global) -> Result<Option<Job>, AllocError>
        ensures ok { IfOk result (λ claimed. HasClaimed self.old claimed self.new) }
        ensures err { OnErr result (self.new ≡ self.old) }
        ensures some { OnErr result ((place : ℕ) × IsReady self.old.marks place) }
    {
        let Some(place) = self.marks.first_ready() else {
            return Ok(None);
        };
        let job = self.job_at(alloc, place)?;
        self.marks.claim(place);
        Ok(Some(job))
    }

    /// Hands out the jobs of the least ready nodes, one after another, so many at most. With no
    /// memory for a job it ends there, and is refused only where that was the first.
    pub(crate) fn claim_lot(&mut self, alloc: Global, most: usize) -> Result<Lot, AllocError>
        ensures each { IfOk result (λ lot. ClaimsEach self.old lot self.new) }
        ensures most { IfOk result (λ lot. length lot ≤ most) }
        ensures some { IfOk result (λ lot. lot ≡ [] → 0 < most → NoneReady self.old.marks) }
        ensures err { OnErr result (self.new ≡ self.old) }
        ensures ready { OnErr result ((place : ℕ) × IsReady self.old.marks place) }
    {
        let mut lot = Lot::new(alloc);
        if most == 0 {
            return Ok(lot);
        }
        self.claim_into(alloc, &mut lot)?;
        self.fill(alloc, most, &mut lot);
        Ok(lot)
    }

    // Hands out the job of the least ready node into a lot of the round's. Tells whether there is
    // one.
    fn claim_into(&mut self, alloc: Global, lot: &mut Lot) -> Result<bool, AllocError>
        requires { StandOn self.old.ground lot.old }
        ensures ok { IfOk result (λ added. HasAdded self.old lot.old added self.new lot.new) }
        ensures err { OnErr result (self.new ≡ self.old) }
        ensures left { OnErr result (lot.new ≡ lot.old) }
        ensures ready { OnErr result ((place : ℕ) × IsReady self.old.marks place) }
    {
        let Some(first) = self.marks.first_ready() else {
            return Ok(false);
        };
        self.claim_at(alloc, first, lot)?;
        Ok(true)
    }

    // Hands out the job of the node at a place, the least ready one, into a lot of the round's.
    fn claim_at(&mut self, alloc: Global, first: usize, lot: &mut Lot) -> Result<(), AllocError>
        requires first { IsFirstReady self.old.marks first }
        requires lot { StandOn self.old.ground lot.old }
        ensures ok { OnOk result (HasAdded self.old lot.old true self.new lot.new) }
        ensures err { OnErr result (self.new ≡ self.old) }
        ensures left { OnErr result (lot.new ≡ lot.old) }
    {
        let job = self.job_at(alloc, first)?;
        lot.push(job)?;
        self.marks.claim(first);
        Ok(())
    }

    // The least ready node, where it may go with a lot.
    fn next_for(&self, lot: &Lot) -> Option<usize>
        ensures { IfSome result (IsFirstReady self.now.marks) }
    {
        let next = self.marks.first_ready()?;
        if self.goes_on(lot, next) {
            Some(next)
        } else {
            None
        }
    }

    // How many jobs a lot of the round has at most, once its base has a sweep.
    fn longest_lot(&self) -> usize {
        match self.ground.sealed().solution() {
            Some(_) => COMPARED_LOT,
            None => LOT,
        }
    }

    // How many it has at most now.
    fn lot_size(&self) -> usize {
        let Progress { nodes, done, out } = self.marks.progress();
        let waiting = nodes.saturating_sub(done).saturating_sub(out);
        (waiting / SHARES).max(SHORT_LOT).min(self.longest_lot())
    }

    // Whether the node at a place may go with a lot: it is of the base of the lot's last job, and the lot
    // is short or the base has no sweep yet. A lot is of one base, so that whoever works it out makes
    // the sweep of one base at most.
    fn goes_on(&self, lot: &Lot, next: usize) -> bool {
        let Some(last) = lot.jobs().last() else {
            return true;
        };
        let base = last.base();
        let is_one = next.checked_div(self.ground.net().duty_count()) == Some(base);
        is_one && (lot.len() < self.lot_size() || !self.is_swept(base))
    }

    // Whether a sweep of a base over the ground's plan stands.
    fn is_swept(&self, base: usize) -> bool {
        matches!(self.swept.get(base), Some(Some(_)))
    }

    // Hands out jobs into a lot of the round's until it has so many, or no node is ready that may go
    // with it, or there is no memory for the next.
    fn fill(&mut self, alloc: Global, most: usize, lot: &mut Lot)
        requires lot { StandOn self.old.ground lot.old }
        requires most { length lot.old ≤ most }
        ensures each { (start : Marked) → ClaimsEach start lot.old self.old
            → ClaimsEach start lot.new self.new }
        ensures more { length lot.old ≤ length lot.new }
        ensures most { length lot.new ≤ most }
    {
        while lot.len() < most {
            let Some(next) = self.next_for(lot) else {
                return;
            };
            if self.claim_at(alloc, next, lot).is_err() {
                return;
            }
        }
    }

    // The job of the node at a place that is ready.
    fn job_at(&self, alloc: Global, place: usize) -> Result<Job, AllocError>
        requires { IsReady self.now.marks place }
        ensures ground { IfOk result (λ job. job.ground ≡ self.now.ground) }
        ensures node { IfOk result (λ job. slice_get (nodes_in self.now.ground.plan.net) place
            ≡ job_node job) }
    {
        let count = self.ground.net().duty_count();
        let base = place / count;
        let sweep = self.sweep_for(alloc, place, base)?;
        let ground = Arc::try_clone(&self.ground)?;
        Ok(Job::new(ground, base, place % count, sweep))
    }

    // The sweep from which a ready node's job reads the fronts before it: where one of its base
    // stands that, none where the version before the round has all of these fronts, and else a new
    // one.
    fn sweep_for(
        &self,
        alloc: Global,
        place: usize,
        base: usize,
    ) -> Result<Option<Arc<BaseFronts, Global>>, AllocError>
        requires place { place < length self.now.marks.marks }
        requires base { base < length self.now.ground.plan.prices }
        ensures { IfOk result (λ sweep. IsReadableFrom self.now place base
            (option_map arc_value sweep)) }
    {
        if let Some(sweep) = self.sweep_of(base)? {
            return Ok(Some(sweep));
        }
        if self.is_same_before(place) {
            return Ok(None);
        }
        Ok(Some(self.ground.sweep(alloc, base)?))
    }

    // Whether each node just before a place has the front of the version before the round.
    fn is_same_before(&self, place: usize) -> bool
        requires { place < length self.now.marks.marks }
        ensures { IsTrue result ↔ AreSameBefore self.now.marks place }
    {
        let _nodes = self.marks.len();
        let net = self.ground.net();
        let rank = place % net.duty_count();
        let duty = net.duty(rank);
        are_same_before(&self.marks, net, duty, place - rank)
    }

    // The sweep of a base over the ground's plan, where one stands.
    fn sweep_of(&self, base: usize) -> Result<Option<Arc<BaseFronts, Global>>, AllocError>
        requires { base < length self.now.ground.plan.prices }
        ensures { IfOk result (λ sweep. IfSome sweep (λ b.
            AreFrontsIn self.now.ground.plan base (arc_value b))) }
    {
        let Some(place) = self.swept[base] else {
            return Ok(None);
        };
        match &self.shown[place] {
            Some(sweep) => Ok(Some(Arc::try_clone(sweep)?)),
            None => Ok(None),
        }
    }

    // The place of a job's node, whose ground is so like the round's.
    fn place_of(&self, job: &Job, like: Likeness) -> Option<usize>
        requires { AreLike like job.now.ground self.now.ground }
        ensures { MatchOption result (IsNowhere self.now job.now)
            (λ place. slice_get (nodes_in self.now.ground.plan.net) place ≡ job_node job.now) }
    {
        let _ground = job.ground();
        if is_same_round(like) {
            Some(job.place())
        } else {
            self.ground.place_of(job)
        }
    }

    // Whether a job, whose ground is so like the round's, is the own one of its node at a place, before
    // which all is done. Where the data are the same it is, since the node is.
    fn is_own_at(&self, job: &Job, like: Likeness, place: usize) -> bool
        requires like { AreLike like job.now.ground self.now.ground }
        requires stands { slice_get (nodes_in self.now.ground.plan.net) place ≡ job_node job.now }
        requires before { AreDoneBefore self.now.marks place }
        ensures { IsTrue result ↔ ((work : DutyWork) → IsJobOf job.now work
            → IsOwnAt self.now.ground place work) }
    {
        if is_unknown(like) {
            is_own_by_work(job, &self.ground, place, &self.shown)
        } else {
            true
        }
    }

    // The place of the node whose own job this is now; the job's ground is so like the round's.
    fn own_place(&self, job: &Job, like: Likeness) -> Option<usize>
        requires { AreLike like job.now.ground self.now.ground }
        ensures own { MatchOption result (IsNowhere self.now job.now)
            (IsOwnPlace self.now job.now) }
        ensures low { IfSome result (λ place. place < length self.now.marks.marks) }
        ensures once { IfSome result (λ place. (k : ℕ) → IsOwnPlace self.now job.now k → place ≡ k) }
        ensures ground { IsGround job.now.ground }
        ensures placed { IsPlaced job.now }
    {
        let _ground = job.ground();
        let Some(place) = self.place_of(job, like) else {
            return None;
        };
        if !self.marks.is_clear(place) {
            return None;
        }
        let own = self.is_own_at(job, like, place);
        if own { Some(place) } else { None }
    }

    // How like a ground is to the round's; nothing is known where there is none.
    fn likeness_to(&self, ground: Option<&Ground>) -> Likeness
        ensures { IfSome ground.entry (λ g. AreLike result g.now self.now.ground) }
    {
        match ground {
            Some(ground) => likeness_of(ground, &self.ground),
            None => Likeness::Unknown,
        }
    }

    /// Takes a result in by what its job holds, and marks what is unchanged with it.
    pub(crate) fn bring(&mut self, done: Done) -> Brought
        ensures { TakesIn self.old done result self.new }
    {
        let like = likeness_of(done.job().ground(), &self.ground);
        self.take_in(done, like)
    }

    /// Takes the results of a lot in, in order, and tells how many came to what.
    pub(crate) fn bring_lot(&mut self, done: DoneLot) -> Tally
        ensures { (brought : List Brought) × TakesInEach self.old done brought self.new
            × (result ≡ tally_of brought) }
    {
        let like = self.likeness_to(done.ground());
        let _count = done.len();
        let mut tally = none_counted();
        for one in done.into_results() {
            tally = count(self.take_in(one, like), tally);
        }
        tally
    }

    // Takes a result in, whose job's ground is so like the round's.
    fn take_in(&mut self, done: Done, like: Likeness) -> Brought
        requires { AreLike like done.ground self.old.ground }
        ensures { TakesIn self.old done result self.new }
    {
        let Some(place) = self.own_place(done.job(), like) else {
            return Brought::Stale;
        };
        let was_done = is_done(self.marks.mark(place));
        if was_done {
            return Brought::Again;
        }
        let same = self.is_kept(place, &done, like);
        self.store(place, same, done, like);
        Brought::Stored
    }

    // Whether the version before the round has the node at a place with the front that is done: that is
    // known with what is done where its ground is of this round, and else the two are compared.
    fn is_kept(&self, place: usize, done: &Done, like: Likeness) -> bool
        requires like { AreLike like done.now.ground self.now.ground }
        requires own { IsOwnPlace self.now done.now place }
        ensures { (n : DutyNode) → slice_get (nodes_in self.now.ground.plan.net) place ≡ Some n
            → (IsTrue result ↔ IsAsSealed self.now.ground n) }
    {
        let _ground = done.job().ground();
        if is_same_round(like) {
            done.is_kept()
        } else {
            self.is_as_sealed(place, done)
        }
    }

    // The same, by comparing.
    fn is_as_sealed(&self, place: usize, done: &Done) -> bool
        requires { IsOwnPlace self.now done.now place }
        ensures { (n : DutyNode) → slice_get (nodes_in self.now.ground.plan.net) place ≡ Some n
            → (IsTrue result ↔ IsAsSealed self.now.ground n) }
    {
        let _ground = done.job().ground();
        let front = done.front();
        self.ground.has_kept(place, &front)
    }

    // Marks a node done whose own job is done, and what is unchanged with it. Its sweep is one of the
    // round's where the plans are the same.
    fn store(&mut self, place: usize, same: bool, done: Done, like: Likeness)
        requires like { AreLike like done.ground self.old.ground }
        requires own { IsOwnPlace self.old done place }
        requires undone { IsUndone self.old.marks place }
        requires told { (n : DutyNode) → slice_get (nodes_in self.old.ground.plan.net) place ≡ Some n
            → (same ≡ true) ↔ IsAsSealed self.old.ground n }
        ensures { IsStored self.old place same self.new }
    {
        let own = is_same_round(like);
        let _ground = done.job().ground();
        let base = done.job().base();
        show(&mut self.shown, place, done.into_sweep());
        self.marks.store(place, same);
        note(&mut self.swept, own, base, place);
    }

    /// Takes a job back that isn't done: its node waits again, where it is out and the job is its own.
    pub(crate) fn give_back(&mut self, job: &Job) -> bool
        ensures { TakesBack self.old job.now result self.new }
    {
        let like = likeness_of(job.ground(), &self.ground);
        self.take_back(job, like)
    }

    /// Takes the jobs of a lot back that aren't done, in order, and tells how many nodes wait again.
    pub(crate) fn give_back_lot(&mut self, lot: &Lot) -> usize
        ensures { (freed : List Bool) × TakesBackEach self.old lot.now freed self.new
            × (result ≡ freed_of freed) }
    {
        let like = self.likeness_to(lot.ground());
        let mut count = 0;
        for job in lot.jobs() {
            count = count_if(self.take_back(job, like), count);
        }
        count
    }

    // Takes a job back, whose ground is so like the round's.
    fn take_back(&mut self, job: &Job, like: Likeness) -> bool
        requires { AreLike like job.now.ground self.old.ground }
        ensures { TakesBack self.old job.now result self.new }
    {
        let Some(place) = self.own_place(job, like) else {
            return false;
        };
        let out = is_out(self.marks.mark(place));
        if !out {
            return false;
        }
        self.marks.free(place);
        true
    }

    /// The least node that isn't done.
    pub(crate) fn first_undone(&self) -> Option<Node>
        ensures { MatchOption result (AllDone self.now.marks) (IsFirstNode self.now) }
    {
        let place = self.marks.first_undone()?;
        self.ground.net().node(place)
    }

    /// The version that the round comes to: the fronts of each base are those that stand, or are made.
    pub(crate) fn close(&self, alloc: Global) -> Result<Arc<Version, Global>, AllocError>
        ensures number { IfOk result
            (λ version. (arc_value version).number ≡ self.now.ground.number) }
        ensures settings { IfOk result
            (λ version. (arc_value version).settings ≡ self.now.ground.settings) }
        ensures entries { IfOk result
            (λ version. (arc_value version).entries ≡ self.now.ground.entries) }
        ensures right { IfOk result (λ version. IsRight (arc_value version)) }
    {
        let count = self.ground.base_count();
        let mut sweeps = Vec::with_capacity(alloc, count)?;
        for base in 0..count {
            sweeps.push(self.swept_or_made(alloc, base)?)?;
        }
        self.ground.close(alloc, sweeps)
    }

    // The sweep of a base over the ground's plan: that which stands, or a new one.
    fn swept_or_made(
        &self,
        alloc: Global,
        base: usize,
    ) -> Result<Arc<BaseFronts, Global>, AllocError>
        requires { base < length self.now.ground.plan.prices }
        ensures { IfOk result (λ sweep. AreFrontsIn self.now.ground.plan base (arc_value sweep)) }
    {
        match self.sweep_of(base)? {
            Some(sweep) => Ok(sweep),
            None => self.ground.sweep(alloc, base),
        }
    }
}
