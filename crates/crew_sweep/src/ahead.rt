//! The arrivals on which the departures of the next hours wait, whose pools several threads make at
//! once.
//!
//! Departures that report less than the least rest after one another don't wait on each other's
//! duties. So when a pass comes to the first of them, nothing more will reach the arrivals on which
//! they wait, and the pools of these can be made side by side. Which arrivals are made ahead is a
//! hint: a pool comes out the same whenever it is made, and what wasn't made ahead is made when it
//! is first waited on.
//!
//! Those into which the most labels may board are begun first: one that takes long and is begun
//! last keeps all threads but its own waiting. That nothing more reaches a place is looked up in
//! the positions of its duties' departures, once more as it is taken. Departures write walks into
//! one arena, so they stay with the calling thread.
ghost use Rattle.std.specs.Prelude.{◌≡◌, ◌<◌, ◌≤◌, ℕ, IfOk, OnOk, length, set, true};
ghost use Rattle.crew_sweep.specs.Machinery.Ahead.{AreAhead, IsSlid};
ghost use Rattle.crew_sweep.specs.Machinery.Lanes.{AllMadeAt, AreDone, AreGrouped, AreLanes, AreMadeAt, IsDone};
ghost use Rattle.crew_sweep.specs.Machinery.Slides.{AreUnderWay};
ghost use Rattle.crew_sweep.specs.Machinery.Grounds.{ArePools, IsGround, Stands, Stay};
ghost use Rattle.crew_sweep.specs.Machinery.Passing.{AreSealed, IsMade, IsSealed};
ghost use Rattle.crew_sweep.specs.declared.arrivals.Arrivals.{Arrivals as ArrivalsSpec};
ghost use Rattle.crew_sweep.specs.declared.ground.Ground.{Ground as GroundSpec};
ghost use Rattle.crew_sweep.specs.declared.passing.Passing.{Passing as PassingSpec};

use crate::arrivals::{Arrivals, arrival_at};
use crate::batch::{LEAST_REST, batch_end};
use crate::ground::Ground;
use crate::lanes::{Lane, Slid, empty_groups, go_on_each, lanes_in_groups, slid_from};
use crate::passed::Passed;
use crate::passing::Passing;
use crate::prints::print_of;
use crate::slides::Slides;
use crate::windows::{Waiting, made_until};
use crew_anchor::AnchoredResource;
use crew_claims::{Claims, Sharing, map_jobs};
use crew_net::Window;
use crew_pool::{Pool, Workspace};
use std::alloc::{AllocError, Global};
use std::cmp::Reverse;
use std::mem;
use std::thread::Threads;

// The fewest pools for each thread: with fewer a thread costs more than it gives.
const SHARE: usize = 4;

// The pool of the arrival at a place, with its number.
#[derive(Drop)]
struct Made {
    place: usize,
    print: u64,
    pool: Pool<AnchoredResource>,
}

// Whether all duties that arrive at a place left with the departures so far.
fn is_sealed(ground: &Ground, passed: usize, place: usize) -> bool
    requires ground { IsGround ground.now }
    requires place { place < length ground.now.net.now.arrivals }
    ensures { result ≡ true → IsSealed ground.now.net.now passed place }
{
    for rank in ground.net.arriving(place) {
        if ground.positions[*rank as usize] as usize >= passed {
            return false;
        }
    }
    true
}

/// What is made ahead for a departure: nothing where its pool is kept, what has changed of its window
/// where it may be mended, or else its whole window.
#[derive(Clone, Copy)]
pub(crate) enum Wanted {
    Nothing,
    Changes,
    Window,
}

// Marks the places of a window, but for those that are spared.
fn mark_window<S: Fn(usize) -> bool>(marks: &mut [bool], window: Window, spared: &S)
    requires within { window.end ≤ length marks.old }
    requires spared { (place : ℕ) → place < length marks.old → S.pre spared.now place }
    ensures { length marks.new ≡ length marks.old }
{
    for place in window.from..window.end {
        if !spared(place) {
            marks[place] = true;
        }
    }
}

// Marks what is wanted of a window.
fn mark_wanted<S: Fn(usize) -> bool>(marks: &mut [bool], window: Window, wanted: Wanted, spared: &S)
    requires within { window.end ≤ length marks.old }
    requires spared { (place : ℕ) → place < length marks.old → S.pre spared.now place }
    ensures { length marks.new ≡ length marks.old }
{
    let none = |_: usize| -> bool { false };
    match wanted {
        Wanted::Nothing => {}
        Wanted::Changes => mark_window(marks, window, spared),
        Wanted::Window => mark_window(marks, window, &none),
    }
}

// Marks at the arrivals that are made ahead for the departures from a position on, up to another:
// `spared` tells where nothing has changed.
fn marks_of<K: Fn(usize) -> Wanted, S: Fn(usize) -> bool>(
    alloc: Global,
    ground: &Ground,
    from: usize,
    end: usize,
    wanted: &K,
    spared: &S,
) -> Result<Vec<bool>, AllocError>
    requires ground { IsGround ground.now }
    requires end { end ≤ length ground.now.net.now.by_report }
    requires wanted { (place : ℕ) → place < length ground.now.net.now.departures
        → K.pre wanted.now place }
    requires spared { (place : ℕ) → place < length ground.now.net.now.arrivals
        → S.pre spared.now place }
    ensures { IfOk result (λ marks. length marks.items ≡ length ground.now.net.now.arrivals) }
{
    let mut marks = vec![in alloc; false; ground.net.arrivals().len()]?;
    for position in from..end {
        let place = ground.net.by_report()[position] as usize;
        let window = ground.net.window(place);
        let wish = wanted(place);
        mark_wanted(&mut marks, window, wish, spared);
    }
    Ok(marks)
}

// Whether the pool of an arrival is made ahead: it is marked, isn't made, and nothing more will reach
// it.
fn is_wanted(ground: &Ground, passed: usize, marks: &[bool], made: &[bool], place: usize) -> bool
    requires ground { IsGround ground.now }
    requires marks { length marks.now ≡ length ground.now.net.now.arrivals }
    requires made { length made.now ≡ length ground.now.net.now.arrivals }
    ensures within { result ≡ true → place < length ground.now.net.now.arrivals }
    ensures sealed { result ≡ true → IsSealed ground.now.net.now passed place }
{
    if place >= marks.len() || !marks[place] || made[place] {
        return false;
    }
    is_sealed(ground, passed, place)
}

// How many labels of the departures so far may board the duties that arrive at a place. No clause says
// so, since it is there for speed.
fn label_count(ground: &Ground, passed: &Passed, place: usize) -> usize
    requires ground { IsGround ground.now }
    requires place { place < length ground.now.net.now.arrivals }
{
    let ranks = ground.net.arriving(place);
    let mut count: usize = 0;
    for rank in ranks {
        let position = ground.positions[*rank as usize] as usize;
        if position < passed.pools.len() {
            count = count.saturating_add(passed.pools.get(position).len());
        }
    }
    count
}

// The marked arrivals whose pools aren't made, each after how many labels may board into it, most first:
// a long one that a thread begins late keeps the others waiting. No clause says so, since it is there
// for speed.
fn longest_first(
    alloc: Global,
    ground: &Ground,
    passed: &Passed,
    marks: &[bool],
    made: &[bool],
) -> Result<Vec<(usize, usize)>, AllocError>
    requires ground { IsGround ground.now }
    requires marks { length marks.now ≡ length ground.now.net.now.arrivals }
    requires made { length made.now ≡ length ground.now.net.now.arrivals }
{
    let mut places = Vec::new(alloc);
    for place in 0..marks.len() {
        if marks[place] && !made[place] {
            places.push((label_count(ground, passed, place), place))?;
        }
    }
    places.sort_unstable_by_key(|it| Reverse(it.0));
    Ok(places)
}

// Those of the marked arrivals that nothing more will reach, and whose pools aren't made, the longest
// first.
fn unmade(
    alloc: Global,
    ground: &Ground,
    passed: &Passed,
    marks: &[bool],
    made: &[bool],
) -> Result<Vec<usize>, AllocError>
    requires ground { IsGround ground.now }
    requires marks { length marks.now ≡ length ground.now.net.now.arrivals }
    requires made { length made.now ≡ length ground.now.net.now.arrivals }
    ensures { IfOk result (λ places. AreSealed ground.now.net.now (length passed.now.pools)
        places.items) }
{
    let position = passed.pools.len();
    let mut places = Vec::new(alloc);
    for it in longest_first(alloc, ground, passed, marks, made)? {
        if is_wanted(ground, position, marks, made, it.1) {
            places.push(it.1)?;
        }
    }
    Ok(places)
}

// The arrivals to make ahead after the departures so far, of what those wait on that follow, up to a
// position. Those into which the most labels may board come first.
fn places_ahead<K: Fn(usize) -> Wanted, S: Fn(usize) -> bool>(
    alloc: Global,
    ground: &Ground,
    passed: &Passed,
    end: usize,
    wanted: &K,
    spared: &S,
    made: &[bool],
) -> Result<Vec<usize>, AllocError>
    requires ground { IsGround ground.now }
    requires end { end ≤ length ground.now.net.now.by_report }
    requires wanted { (place : ℕ) → place < length ground.now.net.now.departures
        → K.pre wanted.now place }
    requires spared { (place : ℕ) → place < length ground.now.net.now.arrivals
        → S.pre spared.now place }
    requires made { length made.now ≡ length ground.now.net.now.arrivals }
    ensures { IfOk result (λ places. AreSealed ground.now.net.now (length passed.now.pools)
        places.items) }
{
    let marks = marks_of(alloc, ground, passed.pools.len(), end, wanted, spared)?;
    unmade(alloc, ground, passed, &marks, made)
}

// In how many threads so many pools are made: no more than are worth it, however many there may be.
fn threads_for(threads: usize, pools: usize) -> usize {
    threads.min(pools / SHARE)
}

// In how many threads so many pools are made and so many windows merged beside them: one at least.
fn threads_beside(threads: usize, pools: usize, windows: usize) -> usize {
    let work = pools.saturating_add(windows);
    threads_for(threads, work).max(1)
}

// What a thread has done: the lanes that it let go on, and the pools of arrivals that it made.
#[derive(Drop)]
struct Done {
    lanes: Vec<Lane>,
    pools: Vec<Made>,
}

// The pools of the arrivals at some places that a thread takes one by one.
fn make_claimed(
    alloc: Global,
    ground: &Ground,
    passed: &Passed,
    room: &mut Workspace<AnchoredResource>,
    places: &[usize],
    claims: &Claims,
) -> Result<Vec<Made>, AllocError>
    requires ground { IsGround ground.now }
    requires pools { (arrivals : ArrivalsSpec) × ArePools ground.now passed.now arrivals }
    requires sealed { AreSealed ground.now.net.now (length passed.now.pools) places.now }
    requires claims { claims.now ≡ length places.now }
    ensures { IfOk result (λ made. AreMadeAt ground.now passed.now made.items) }
{
    let mut made = Vec::new(alloc);
    for _ in 0..places.len() {
        let Some(index) = claims.next() else {
            break;
        };
        let place = places[index];
        let pool = arrival_at(alloc, ground, place, room, passed)?;
        let print = print_of(&pool);
        made.push(Made { place, print, pool })?;
    }
    Ok(made)
}

// Lets lanes go on, and makes the pools of the arrivals at some places that nobody else takes.
fn do_part(
    alloc: Global,
    ground: &Ground,
    passing: &Passing,
    places: &[usize],
    claims: &Claims,
    lanes: Vec<Lane>,
) -> Result<Done, AllocError>
    requires ground { IsGround ground.now }
    requires pools { ArePools ground.now passing.now.passed passing.now.arrivals }
    requires sealed { AreSealed ground.now.net.now (length passing.now.passed.pools) places.now }
    requires claims { claims.now ≡ length places.now }
    requires lanes { AreLanes ground.now.net.now passing.now.passed.walks
        passing.now.arrivals.made.items passing.now.arrivals.pools.items lanes.items }
    ensures { IfOk result (IsDone ground.now passing.now) }
{
    let passed = &passing.passed;
    let arrivals = &passing.arrivals;
    let mut room = Workspace::new(alloc);
    let lanes = go_on_each(alloc, ground, passed, arrivals, &mut room, lanes)?;
    let pools = make_claimed(alloc, ground, passed, &mut room, places, claims)?;
    Ok(Done { lanes, pools })
}

// In as many threads as there are groups of lanes: each lets its lanes go on before it helps to make the
// pools of the arrivals at some places.
fn done_by_threads<T: Threads + Sync>(
    rt: &T,
    alloc: Global,
    ground: &Ground,
    passing: &Passing,
    places: &[usize],
    groups: Vec<Vec<Lane>>,
) -> Result<Vec<Result<Done, AllocError>>, AllocError>
    requires ground { IsGround ground.now }
    requires pools { ArePools ground.now passing.now.passed passing.now.arrivals }
    requires sealed { AreSealed ground.now.net.now (length passing.now.passed.pools) places.now }
    requires groups { AreGrouped ground.now.net.now passing.now.passed.walks
        passing.now.arrivals.made.items passing.now.arrivals.pools.items groups.items }
    ensures { IfOk result (λ all. AreDone ground.now passing.now all.items) }
{
    let claims = Claims::new(places.len());
    let part = |lanes: Vec<Lane>| -> Result<Done, AllocError>
        requires { IsGround ground.now × ArePools ground.now passing.now.passed passing.now.arrivals
            × AreSealed ground.now.net.now (length passing.now.passed.pools) places.now
            × (claims ≡ length places.now) × AreLanes ground.now.net.now
            passing.now.passed.walks passing.now.arrivals.made.items
            passing.now.arrivals.pools.items lanes.items }
        ensures { IfOk result (IsDone ground.entry.now passing.entry.now) }
    { do_part(alloc, ground, passing, places, &claims, lanes) };
    map_jobs(rt, alloc, groups, &part)
}

// What threads have done, apart: the lanes, and the pools.
fn apart(
    alloc: Global,
    all: Vec<Result<Done, AllocError>>,
) -> Result<(Vec<Vec<Lane>>, Vec<Vec<Made>>), AllocError>
    ensures { (g : GroundSpec) (p : PassingSpec) → AreDone g p all.items
        → IfOk result (λ both. AreGrouped g.net.now p.passed.walks p.arrivals.made.items
        p.arrivals.pools.items both.0.items × AllMadeAt g p.passed both.1.items) }
{
    let mut groups = Vec::with_capacity(alloc, all.len())?;
    let mut made = Vec::with_capacity(alloc, all.len())?;
    for done in all {
        let Done { lanes, pools } = done?;
        groups.push(lanes)?;
        made.push(pools)?;
    }
    Ok((groups, made))
}

impl Arrivals {
    // Puts a pool at its place, where that has none.
    fn put(&mut self, made: Made)
        requires made { made.place < length self.old.made.items }
        requires pools { made.place < length self.old.pools.items }
        ensures kept { IsMade self.old.made.items made.place
            → (self.new.made.items ≡ self.old.made.items)
            × (self.new.pools.items ≡ self.old.pools.items) }
        ensures put { (IsMade self.old.made.items made.place → ⊥)
            → (self.new.made.items ≡ set self.old.made.items made.place true)
            × (self.new.pools.items ≡ set self.old.pools.items made.place made.pool) }
    {
        let Made { place, print, pool } = made;
        if self.made[place] {
            return;
        }
        self.prints.note(place, Some(print));
        self.pools[place] = pool;
        self.made[place] = true;
    }

    // Puts what a thread made of arrivals in their places.
    fn put_each(&mut self, ground: &Ground, passed: &Passed, made: Vec<Made>)
        requires ground { IsGround ground.now }
        requires pools { ArePools ground.now passed.now self.old }
        requires made { AreMadeAt ground.now passed.now made.items }
        ensures pools { ArePools ground.now passed.now self.new }
        ensures stayed { Stay self.old self.new }
    {
        for it in made {
            self.put(it);
        }
    }

    // The same of what several threads made.
    fn put_all(&mut self, ground: &Ground, passed: &Passed, all: Vec<Vec<Made>>)
        requires ground { IsGround ground.now }
        requires pools { ArePools ground.now passed.now self.old }
        requires made { AllMadeAt ground.now passed.now all.items }
        ensures pools { ArePools ground.now passed.now self.new }
        ensures stayed { Stay self.old self.new }
    {
        for made in all {
            self.put_each(ground, passed, made);
        }
    }
}

impl Passing {
    /// Where the pass comes to the first departure of a batch: begins it, and makes at once, in at
    /// most so many threads, the pools that are wanted ahead for the departures of the batch; `spared`
    /// tells where nothing has changed. With fewer than two threads nothing is made ahead.
    pub(crate) fn make_ahead<T: Threads + Sync, K: Fn(usize) -> Wanted, S: Fn(usize) -> bool>(
        &mut self,
        rt: &T,
        alloc: Global,
        sharing: &Sharing,
        ground: &Ground,
        wanted: &K,
        spared: &S,
    ) -> Result<(), AllocError>
        requires ground { IsGround ground.now }
        requires stands { Stands ground.now self.old }
        requires wanted { (place : ℕ) → place < length ground.now.net.now.departures
            → K.pre wanted.now place }
        requires spared { (place : ℕ) → place < length ground.now.net.now.arrivals
            → S.pre spared.now place }
        ensures stands { OnOk result (Stands ground.now self.new) }
        ensures passed { self.new.passed ≡ self.old.passed }
    {
        let Some(end) = self.begin_batch(alloc, ground) else {
            return Ok(());
        };
        let share = sharing.share();
        let threads = share.threads();
        if threads < 2 {
            return Ok(());
        }
        let made = &self.arrivals.made;
        let passed = &self.passed;
        let places = places_ahead(alloc, ground, passed, end, wanted, spared, made)?;
        let threads = threads_for(threads, places.len());
        let groups = empty_groups(alloc, threads)?;
        let all = done_by_threads(rt, alloc, ground, self, &places, groups)?;
        let (_, made) = apart(alloc, all)?;
        self.arrivals.put_all(ground, &self.passed, made);
        Ok(())
    }

    // Slides that have gone on to the windows of the departures that come next, up to a position; and
    // beside it, in at most so many threads, the pools of the arrivals at some places.
    fn slid_beside<T: Threads + Sync>(
        &self,
        rt: &T,
        alloc: Global,
        threads: usize,
        ground: &Ground,
        places: &[usize],
        slides: Slides,
        end: usize,
    ) -> Result<(Slid, Vec<Vec<Made>>), AllocError>
        requires ground { IsGround ground.now }
        requires pools { ArePools ground.now self.now.passed self.now.arrivals }
        requires sealed { AreSealed ground.now.net.now (length self.now.passed.pools) places.now }
        requires slides { AreUnderWay ground.now.net.now self.now.passed.walks
            self.now.arrivals.made.items self.now.arrivals.pools.items slides }
        requires end { end ≤ length ground.now.net.now.by_report }
        ensures slid { IfOk result (λ all. IsSlid ground.now.net.now self.now.passed.walks
            self.now.arrivals.made.items self.now.arrivals.pools.items all.0) }
        ensures made { IfOk result (λ all. AllMadeAt ground.now self.now.passed all.1.items) }
    {
        let from = self.passed.pools.len();
        let (airports, slides) = slides.apart();
        let count = slides.len();
        let groups = lanes_in_groups(alloc, ground, &airports, slides, from, end, threads)?;
        let all = done_by_threads(rt, alloc, ground, self, places, groups)?;
        let (groups, made) = apart(alloc, all)?;
        let slid = slid_from(alloc, airports, count, from, end, groups)?;
        Ok((slid, made))
    }

    /// What stands in the windows of the departures that come next, where all of it is made; and
    /// beside it, by threads of those that are shared, makes the pools on which departures wait that
    /// report less than the least rest after the next one. The windows go half as far, since what is
    /// made beside them isn't there for them yet.
    pub(crate) fn look_ahead<T: Threads + Sync>(
        &mut self,
        rt: &T,
        alloc: Global,
        sharing: &Sharing,
        ground: &Ground,
    ) -> Result<Vec<Option<Waiting>>, AllocError>
        requires ground { IsGround ground.now }
        requires stands { Stands ground.now self.old }
        requires left { length self.old.passed.pools < length ground.now.net.now.by_report }
        ensures stands { OnOk result (Stands ground.now self.new) }
        ensures passed { OnOk result (self.new.passed ≡ self.old.passed) }
        ensures ahead { IfOk result (λ ahead. AreAhead ground.now.net.now self.new.passed.walks
            self.new.arrivals.made.items self.new.arrivals.pools.items ahead.items) }
    {
        let from = self.passed.pools.len();
        self.let_go(alloc, ground, from);
        let end = batch_end(ground, from, LEAST_REST);
        let next = batch_end(ground, from, LEAST_REST / 2);
        let next = made_until(ground, &self.arrivals, from, next);
        let all = |_: usize| -> Wanted { Wanted::Window };
        let none = |_: usize| -> bool { false };
        let made = &self.arrivals.made;
        let places = places_ahead(alloc, ground, &self.passed, end, &all, &none, made)?;
        let slides = mem::replace(&mut self.slides, Slides::none(alloc));
        let share = sharing.share();
        let threads = threads_beside(share.threads(), places.len(), next.saturating_sub(from));
        let (slid, made) = self.slid_beside(rt, alloc, threads, ground, &places, slides, next)?;
        let Slid { slides, ahead } = slid;
        self.slides = slides;
        self.arrivals.put_all(ground, &self.passed, made);
        Ok(ahead)
    }
}
