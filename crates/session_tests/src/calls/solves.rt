//! Calls of all fronts of a timetable.

use crew_flights::Timetable;
use crew_rules::Settings;
use crew_solve::{Solution, solve, solve_next, solve_with};
use crew_vector::PricedPairing;
use std::alloc::Global;
use std::thread::Threads;

// Writes the cost and the length of a copy of the best pairing.
fn write_best(alloc: Global, best: &PricedPairing, out: &mut String) -> Option<()> {
    match best.copy(alloc) {
        Ok(best) => write!(out, " {} by {}", best.cost, best.walk.keys().len()).ok(),
        Err(_) => None,
    }
}

// Writes the best pairing, and how many entries all fronts have.
fn write_solution(alloc: Global, solution: &Solution, out: &mut String) -> Option<()> {
    write_best(alloc, solution.best()?, out)?;
    let mut count: usize = 0;
    for place in 0..solution.net().len() {
        let node = solution.net().node(place)?;
        count = count.saturating_add(solution.front(node.base, &node.key)?.len());
    }
    write!(out, " of {count}").ok()
}

/// All fronts of a timetable.
pub fn write_solved<R: Threads + Sync>(
    rt: &R,
    alloc: Global,
    timetable: &Timetable,
    out: &mut String,
) -> Option<()> {
    match solve(rt, alloc, &Settings::standard(), timetable) {
        Ok(solution) => write_solution(alloc, &solution, out),
        Err(_) => None,
    }
}

// Writes an earlier solution, and beside it all fronts of a timetable.
fn write_next<R: Threads + Sync>(
    rt: &R,
    alloc: Global,
    timetable: &Timetable,
    earlier: &Solution,
    workers: usize,
    out: &mut String,
) -> Option<()> {
    let settings = Settings::standard();
    write_solution(alloc, earlier, out)?;
    match solve_next(rt, alloc, &settings, timetable, earlier, workers) {
        Ok(solution) => write_solution(alloc, &solution, out),
        Err(_) => None,
    }
}

/// All fronts of the first of two timetables by so many workers, and beside them those of the second.
pub fn write_both<R: Threads + Sync>(
    rt: &R,
    alloc: Global,
    both: (&Timetable, &Timetable),
    workers: usize,
    out: &mut String,
) -> Option<()> {
    match solve_with(rt, alloc, &Settings::standard(), both.0, workers) {
        Ok(solution) => write_next(rt, alloc, both.1, &solution, workers, out),
        Err(_) => None,
    }
}
