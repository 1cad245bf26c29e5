//! The sweeps of a plan's bases, by one thread or more.
//!
//! Bases go to threads one by one, each to whichever is free: dearer ones aren't known before they
//! are swept. Below 1,000 legal duties all passes take a few milliseconds, and no thread is
//! started. A pass takes its part of the threads that are left before each step and gives it back
//! after it, so the last base goes by all. Bases one after another with all threads took half as
//! long again with four bases.
ghost use Rattle.std.specs.Prelude.{◌≡◌, ◌<◌, ℕ, IfOk, IfSome, Ok, length, map, slice_index_or, vec_len};
ghost use Rattle.std.specs.Arc.{arc_value};
ghost use Rattle.crew_flights.specs.Timetable.{IsBasePrice};
ghost use Rattle.crew_solve.specs.Machinery.Planned.{IsPast};
ghost use Rattle.crew_sweep.specs.Sweeps.{IsSweepable, IsSwept};
ghost use Rattle.crew_solve.specs.Plans.{AreSweepsIn, IsSweepIn};

use crate::base_fronts::BaseFronts;
use crate::past::Past;
use crate::plan::Plan;
use crew_claims::{Sharing, map_claimed};
use crew_flights::Code;
use crew_net::Net;
use crew_sweep::{Sweep, sweep, sweep_by_threads};
use std::alloc::{AllocError, Global};
use std::sync::Arc;
use std::thread::Threads;

// The fronts of some bases, or want of memory.
type Made = Vec<Result<Arc<BaseFronts, Global>, AllocError>>;

// The fewest legal duties for whose passes threads are started: with fewer a thread costs more than
// it gives.
const SHARED: usize = 1_000;

// In how many threads the passes over a network of so many duties are made.
fn threads_for(workers: usize, duties: usize) -> usize
    ensures { 0 < result }
{
    if duties < SHARED { 1 } else { workers.max(1) }
}

// The sweep of a base at its price, from scratch.
fn sweep_anew(
    alloc: Global,
    net: &Arc<Net, Global>,
    positions: &[u32],
    base: Code,
    price: i64,
) -> Result<Sweep, AllocError>
    requires sweepable { IsSweepable (arc_value net.now) positions.now }
    requires price { IsBasePrice price }
    ensures { IfOk result (IsSwept (arc_value net.now) (base, price)) }
{
    sweep(alloc, Arc::try_clone(net)?, positions, base, price)
}

// The same by threads of those that are shared.
fn sweep_anew_by_threads<R: Threads + Sync>(
    rt: &R,
    alloc: Global,
    sharing: &Sharing,
    net: &Arc<Net, Global>,
    positions: &[u32],
    base: Code,
    price: i64,
) -> Result<Sweep, AllocError>
    requires sweepable { IsSweepable (arc_value net.now) positions.now }
    requires price { IsBasePrice price }
    ensures { IfOk result (IsSwept (arc_value net.now) (base, price)) }
{
    let net = Arc::try_clone(net)?;
    sweep_by_threads(rt, alloc, sharing, net, positions, base, price)
}

/// The sweep of a base at its price, beside earlier fronts of it, if there are any.
pub(crate) fn sweep_base(
    alloc: Global,
    net: &Arc<Net, Global>,
    positions: &[u32],
    past: Option<&Past>,
    base: Code,
    price: i64,
) -> Result<Sweep, AllocError>
    requires sweepable { IsSweepable (arc_value net.now) positions.now }
    requires past { IfSome past (λ p. IsPast (arc_value net.now) p.now) }
    requires price { IsBasePrice price }
    ensures { IfOk result (IsSwept (arc_value net.now) (base, price)) }
{
    let Some(past) = past else {
        return sweep_anew(alloc, net, positions, base, price);
    };
    match past.fronts_at(base, price) {
        Some(earlier) => past.renew(alloc, net, positions, earlier),
        None => sweep_anew(alloc, net, positions, base, price),
    }
}

/// The same by threads of those that are shared.
pub(crate) fn sweep_base_by_threads<R: Threads + Sync>(
    rt: &R,
    alloc: Global,
    sharing: &Sharing,
    net: &Arc<Net, Global>,
    positions: &[u32],
    past: Option<&Past>,
    base: Code,
    price: i64,
) -> Result<Sweep, AllocError>
    requires sweepable { IsSweepable (arc_value net.now) positions.now }
    requires past { IfSome past (λ p. IsPast (arc_value net.now) p.now) }
    requires price { IsBasePrice price }
    ensures { IfOk result (IsSwept (arc_value net.now) (base, price)) }
{
    let Some(past) = past else {
        return sweep_anew_by_threads(rt, alloc, sharing, net, positions, base, price);
    };
    match past.fronts_at(base, price) {
        Some(earlier) => past.renew_by_threads(rt, alloc, sharing, net, positions, earlier),
        None => sweep_anew_by_threads(rt, alloc, sharing, net, positions, base, price),
    }
}

// Sweeps each base, in at most so many threads, this one among them, each of which takes the next base
// that nobody has taken yet. The fewer bases are still under way, the more threads a sweep goes by.
fn sweep_each<R: Threads + Sync>(
    rt: &R,
    alloc: Global,
    plan: &Plan,
    threads: usize,
) -> Result<Made, AllocError>
    ensures long { IfOk result (λ made. vec_len made ≡ length plan.now.prices) }
    ensures each { IfOk result (λ made. (place : ℕ) (d : _) → place < length plan.now.prices
        → IfOk (slice_index_or made.items place d)
        (λ fronts. IsSweepIn plan.now place (arc_value fronts))) }
{
    let sharing = Sharing::new(threads, plan.base_count());
    let part = |place: usize| -> Result<Arc<BaseFronts, Global>, AllocError>
        requires { place < length plan.now.prices }
        ensures { IfOk result (λ fronts. IsSweepIn plan.entry.now place (arc_value fronts)) }
    {
        let fronts = plan.sweep_by_threads(rt, alloc, &sharing, place);
        sharing.end_one();
        fronts
    };
    map_claimed(rt, alloc, threads, plan.base_count(), &part)
}

// What was made, where each could be.
fn all_made(alloc: Global, made: Made) -> Result<Vec<Arc<BaseFronts, Global>>, AllocError>
    ensures { IfOk result (λ fronts. made.items ≡ map Ok fronts.items) }
{
    let mut fronts = Vec::with_capacity(alloc, made.len())?;
    for of_base in made {
        fronts.push(of_base?)?;
    }
    Ok(fronts)
}

/// The fronts of all bases of a plan, in order, whatever the number of workers. So many threads at
/// most make them, which are shared out among the bases that are still under way, so the last bases
/// go by several. With 0 or 1, and for few duties, it is the calling thread alone.
pub(crate) fn sweep_all<R: Threads + Sync>(
    rt: &R,
    alloc: Global,
    plan: &Plan,
    workers: usize,
) -> Result<Vec<Arc<BaseFronts, Global>>, AllocError>
    ensures { IfOk result (λ fronts. AreSweepsIn plan.now (map arc_value fronts.items)) }
{
    let threads = threads_for(workers, plan.net().duty_count());
    let made = sweep_each(rt, alloc, plan, threads)?;
    all_made(alloc, made)
}
