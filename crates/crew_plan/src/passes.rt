//! The passes of a plan's bases, by one thread or more.
//!
//! Threads are shared out from 64 duties on, where those of short pairings are from 1,000: a pass
//! over labels that remember takes some hundred times as long. The share of a base is fixed, so
//! with three bases and four threads one stands idle.
ghost use Rattle.std.specs.Prelude.{◌≡◌, ◌<◌, IfOk, IfSome, Some, length, map, slice_index_or};
ghost use Rattle.std.specs.Arc.{arc_value};
ghost use Rattle.crew_plan.specs.Plans.{AreAllIn, AreFrontsIn};

use crate::long_plan::LongPlan;
use crew_fronts::BaseFronts;
use std::alloc::{AllocError, Global};
use std::sync::Arc;
use std::thread::{Threads, for_each_mut};

// The fewest legal duties for whose passes threads are started: with fewer a thread costs more than
// it gives.
const SHARED: usize = 64;

// In how many threads the passes over a network of so many duties are made.
fn threads_for(workers: usize, duties: usize) -> usize
    ensures { 0 < result }
{
    if duties < SHARED { 1 } else { workers.max(1) }
}

// How many of so many threads the pass over each of so many bases goes by: all together are no more
// than these.
fn share_of(threads: usize, bases: usize) -> usize {
    (threads / bases.max(1)).max(1)
}

// Places for the fronts of so many bases, of which none are made yet.
fn unmade(alloc: Global, count: usize) -> Result<Vec<Option<Arc<BaseFronts, Global>>>, AllocError>
    ensures { IfOk result (λ passed. length passed.items ≡ count) }
{
    let mut passed = Vec::with_capacity(alloc, count)?;
    for _ in 0..count {
        passed.push(None)?;
    }
    Ok(passed)
}

// Passes over each base into its place, in at most so many threads, this one among them. Where there
// are more of them than bases, the pass over each base goes by its share of them.
fn pass_in<R: Threads + Sync>(
    rt: &R,
    alloc: Global,
    plan: &LongPlan,
    threads: usize,
    passed: &mut [Option<Arc<BaseFronts, Global>>],
)
    requires threads { 0 < threads }
    requires long { length passed.old ≡ length plan.now.prices }
    ensures long { length passed.new ≡ length plan.now.prices }
    ensures each { (place : _) (d : _) → place < length plan.now.prices
        → IfSome (slice_index_or passed.new place d)
        (λ fronts. AreFrontsIn plan.now place (arc_value fronts)) }
{
    let share = share_of(threads, passed.len());
    for_each_mut(
        rt,
        passed,
        threads,
        &|place: usize, passed: &mut Option<Arc<BaseFronts, Global>>|
            requires { place < length plan.now.prices }
            ensures { IfSome passed.new
                (λ fronts. AreFrontsIn plan.entry.now place (arc_value fronts)) }
        {
            *passed = plan.pass_by_threads(rt, alloc, share, place).ok();
        },
    );
}

// What was made, where each could be.
fn all_made(
    alloc: Global,
    passed: Vec<Option<Arc<BaseFronts, Global>>>,
) -> Result<Vec<Arc<BaseFronts, Global>>, AllocError>
    ensures { IfOk result (λ fronts. passed.items ≡ map Some fronts.items) }
{
    let mut fronts = Vec::with_capacity(alloc, passed.len())?;
    for made in passed {
        let Some(made) = made else {
            return Err(AllocError);
        };
        fronts.push(made)?;
    }
    Ok(fronts)
}

/// The fronts of all bases of a plan, in order, whatever the number of workers. So many threads at
/// most make them, which are shared out among the bases: where there are twice as many as bases or
/// more, the pass over a base goes by several. With 0 or 1, and for few duties, it is the calling
/// thread alone.
pub(crate) fn pass_all<R: Threads + Sync>(
    rt: &R,
    alloc: Global,
    plan: &LongPlan,
    workers: usize,
) -> Result<Vec<Arc<BaseFronts, Global>>, AllocError>
    ensures { IfOk result (λ fronts. AreAllIn plan.now (map arc_value fronts.items)) }
{
    let mut passed = unmade(alloc, plan.base_count())?;
    let threads = threads_for(workers, plan.net().duty_count());
    pass_in(rt, alloc, plan, threads, &mut passed);
    all_made(alloc, passed)
}
