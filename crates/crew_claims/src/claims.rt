//! Calls of a function at many indices, by threads that take the indices one by one.
//!
//! The threads share a counter, of which no contract says anything but that what it gives is in
//! bounds, so it is no more than a hint of which index to call next. Each thread hands out its
//! results with their indices; each result goes to its place; and for a place that has none the
//! calling thread makes the call itself. So the results are right whatever the counter says.
//!
//! The calling thread starts all others itself: a tree of threads, each of which starts half of the
//! rest, is the shorter program, but a kernel often leaves two of them on one processor for ten
//! milliseconds or more, while another stands idle. Four threads that compute for 2 to 30
//! milliseconds each took 1.3 to 1.8 times as long as one by a tree or a chain, and 1.01 to 1.06
//! times so.
ghost use Rattle.std.specs.Prelude.{◌≡◌, ◌<◌, ◌++◌, ◌∷◌, [], ℕ, All, IfOk, IfSome, None, Ok, length, vec_len};
ghost use Rattle.std.specs.Fn.{FnReturns};
ghost use Rattle.std.specs.Fork.{AcceptsJobs, GivesEach, GivesJobs};
ghost use Rattle.std.specs.Fork.Halves.{GivesFor};
ghost use Rattle.std.specs.Thread.{IsSend, IsSync};
ghost use Rattle.crew_claims.specs.Machinery.Claims.{ArePlaced, IsMade};

use std::alloc::{AllocError, Global};
use std::marker::Model;
use std::sync::atomic::{AtomicUsize, Ordering};
use std::thread::{Threads, join};

/// Indices that threads take one by one, so that a thread whose calls take long keeps no other
/// waiting. Which index is next is a hint: an index may be given more than once, or never.
///
/// A contract sees how many indices there are.
#[derive(Drop)]
pub struct Claims {
    next: AtomicUsize,
    count: usize,
}

impl Model for Claims {
    ghost use Rattle.std.specs.Prelude.{ℕ};

    ghost Value = { ℕ };

    ghost view = { λ c. c.count };
}

impl Claims {
    /// So many indices, none of which is taken.
    pub fn new(count: usize) -> Claims
        ensures { result ≡ count }
    {
        let next = AtomicUsize::new(0);
        Claims { next, count }
    }

    /// How many indices there are.
    pub fn count(&self) -> usize
        ensures { result ≡ self.now }
    {
        self.count
    }

    /// The next index that nobody has taken yet: `None` where all are taken.
    pub fn next(&self) -> Option<usize>
        ensures { IfSome result (λ index. index < self.now) }
    {
        let index = self.next.fetch_add(1, Ordering::SeqCst);
        if index < self.count {
            Some(index)
        } else {
            None
        }
    }
}

// What a thread made: its results with their indices, or want of memory.
type Made<X> = Result<Vec<(usize, X)>, AllocError>;

/// All calls, made in order by the calling thread.
pub fn map_in_turn<X: Drop, F: Fn(usize) -> X>(
    alloc: Global,
    count: usize,
    f: &F,
) -> Result<Vec<X>, AllocError>
    requires { (i : ℕ) → i < count → F.pre f.now i }
    ensures len { IfOk result (λ made. vec_len made ≡ count) }
    ensures each { IfOk result (λ made. GivesEach F.Fn f.now count made.items) }
{
    let mut made = Vec::with_capacity(alloc, count)?;
    for index in 0..count {
        made.push(f(index))?;
    }
    Ok(made)
}

// The calls of one thread, which takes indices until all are taken: the results, each with its
// index.
fn claim<X: Drop, F: Fn(usize) -> X>(alloc: Global, claims: &Claims, f: &F) -> Made<X>
    requires { (i : ℕ) → i < claims.now → F.pre f.now i }
    ensures { IfOk result (λ made. All (IsMade F.Fn f.now claims.now) made.items) }
{
    let mut made = Vec::new(alloc);
    for _ in 0..claims.count() {
        let Some(index) = claims.next() else {
            break;
        };
        made.push((index, f(index)))?;
    }
    Ok(made)
}

// Places for so many results, none of which stands there yet.
fn unmade<X: Drop>(alloc: Global, count: usize) -> Result<Vec<Option<X>>, AllocError>
    ensures len { IfOk result (λ places. length places.items ≡ count) }
    ensures none { IfOk result (λ places. All (λ place. place ≡ None) places.items) }
{
    let mut places = Vec::with_capacity(alloc, count)?;
    for _ in 0..count {
        places.push(None)?;
    }
    Ok(places)
}

// What stands at a place, or else what a call with that place gives.
fn placed_or_called<X: Drop, F: Fn(usize) -> X>(place: Option<X>, index: usize, f: &F) -> X
    requires placed { IfSome place (λ x. FnReturns F.Fn f.now (index, tt) x) }
    requires called { F.pre f.now index }
    ensures { FnReturns F.Fn f.now (index, tt) result }
{
    match place {
        Some(x) => x,
        None => f(index),
    }
}

// What stands at the places, in order. The calling thread makes the calls that are wanting.
fn complete<X: Drop, F: Fn(usize) -> X>(
    alloc: Global,
    places: Vec<Option<X>>,
    f: &F,
) -> Result<Vec<X>, AllocError>
    requires placed { ArePlaced F.Fn f.now places.items }
    requires called { (i : ℕ) → i < vec_len places → F.pre f.now i }
    ensures len { IfOk result (λ made. vec_len made ≡ vec_len places) }
    ensures each { IfOk result (λ made. GivesEach F.Fn f.now (vec_len places) made.items) }
{
    let mut made = Vec::with_capacity(alloc, places.len())?;
    for place in places {
        made.push(placed_or_called(place, made.len(), f))?;
    }
    Ok(made)
}

// The results of the threads in the order of their indices.
fn in_order<X: Drop, F: Fn(usize) -> X>(
    alloc: Global,
    count: usize,
    lists: Vec<Made<X>>,
    f: &F,
) -> Result<Vec<X>, AllocError>
    requires made { All (λ list. IfOk list
        (λ made. All (IsMade F.Fn f.now count) made.items)) lists.items }
    requires called { (i : ℕ) → i < count → F.pre f.now i }
    ensures len { IfOk result (λ made. vec_len made ≡ count) }
    ensures each { IfOk result (λ made. GivesEach F.Fn f.now count made.items) }
{
    let mut places = unmade(alloc, count)?;
    for made in lists {
        for (index, result) in made? {
            places[index] = Some(result);
        }
    }
    complete(alloc, places, f)
}

// What came of the jobs before, and of one more.
fn with_one<Y: Drop>(before: Result<Vec<Y>, AllocError>, y: Y) -> Result<Vec<Y>, AllocError>
    ensures { IfOk result (λ all. (was : _) × (before ≡ Ok was)
        × (all.items ≡ was.items ++ y ∷ [])) }
{
    let mut all = before?;
    all.push(y)?;
    Ok(all)
}

// Calls g at each job, in as many threads.
#[cycle(jobs)]
fn start_each<T: Threads + Sync, J: Send + Drop, Y: Send + Drop, G: Fn(J) -> Y + Sync>(
    rt: &T,
    alloc: Global,
    mut jobs: Vec<J>,
    g: &G,
) -> Result<Vec<Y>, AllocError>
    requires { AcceptsJobs G.Fn g.now jobs.items }
    ensures { IfOk result (λ all. GivesFor G.Fn g.now jobs.items all.items) }
{
    let Some(job) = jobs.pop() else {
        return Ok(Vec::new(alloc));
    };
    let one = move || -> Y
        requires { G.pre g.now job }
        ensures { FnReturns G.Fn g.entry.now (job, tt) result }
    { g(job) };
    if jobs.is_empty() {
        return with_one(Ok(Vec::new(alloc)), one());
    }
    let rest = move || -> Result<Vec<Y>, AllocError>
        requires { IsSync T.row × IsSync G.row × IsSend J.row × IsSend Y.row
            × AcceptsJobs G.Fn g.now jobs.items }
        ensures { IfOk result (λ all. GivesFor G.Fn g.entry.now jobs.items all.items) }
    { start_each(rt, alloc, jobs, g) };
    let (y, others) = join(rt, one, rest);
    with_one(others, y)
}

/// Calls g at each job, each in a thread of its own, this one among them, and gives the results in
/// order.
///
/// This thread starts each of the others itself: threads that are started one by another may stay on
/// one processor for a while.
///
/// On `Err`, which means that memory ran out, the results so far are dropped.
pub fn map_jobs<T: Threads + Sync, J: Send + Drop, Y: Send + Drop, G: Fn(J) -> Y + Sync>(
    rt: &T,
    alloc: Global,
    jobs: Vec<J>,
    g: &G,
) -> Result<Vec<Y>, AllocError>
    requires { AcceptsJobs G.Fn g.now jobs.items }
    ensures len { IfOk result (λ all. vec_len all ≡ vec_len jobs) }
    ensures each { IfOk result (λ all. GivesJobs G.Fn g.now jobs.items all.items) }
{
    start_each(rt, alloc, jobs, g)
}

/// Calls f(0) to f(count - 1), in at most so many threads, this one among them, each of which takes
/// the next index that nobody has taken yet, and gives the results in order. So a call that takes
/// long keeps no other thread waiting. With 0 or 1 threads, or fewer than two calls, the calling
/// thread makes them all, in order.
///
/// On `Err`, which means that memory ran out, the results so far are dropped, and some calls may
/// not have been made.
pub fn map_claimed<T: Threads + Sync, X: Send + Drop, F: Fn(usize) -> X + Sync>(
    rt: &T,
    alloc: Global,
    threads: usize,
    count: usize,
    f: &F,
) -> Result<Vec<X>, AllocError>
    requires { (i : ℕ) → i < count → F.pre f.now i }
    ensures len { IfOk result (λ made. vec_len made ≡ count) }
    ensures each { IfOk result (λ made. GivesEach F.Fn f.now count made.items) }
{
    if threads < 2 || count < 2 {
        return map_in_turn(alloc, count, f);
    }
    let claims = Claims::new(count);
    let idle = vec![in alloc; (); threads.min(count)]?;
    let one = |_: ()| -> Made<X>
        requires { (i : ℕ) → i < claims → F.pre f.now i }
        ensures { IfOk result (λ made. All (IsMade F.Fn f.entry.now claims) made.items) }
    { claim(alloc, &claims, f) };
    let lists = map_jobs(rt, alloc, idle, &one)?;
    in_order(alloc, count, lists, f)
}
