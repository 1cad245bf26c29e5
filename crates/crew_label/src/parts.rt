//! Places of labels, divided into parts whose marks are near each other.
ghost use Rattle.std.specs.Prelude.{◌≡◌, ◌≤ℤ◌, MatchOption, None, Some, not, pos, negsuc, ℕ, IfOk, OnOk, slice_get};
ghost use Rattle.std.specs.List.{filter};
ghost use Rattle.crew_resource.specs.Members.{Member};
ghost use Rattle.crew_label.specs.Machinery.Indexes.{IsPlaced, is_low};
ghost use Rattle.crew_label.specs.Machinery.Marks.{mark_at};

use crate::marks::{greater, lesser};
use crate::seen::{Seen, seen_at};
use std::alloc::{AllocError, Global};

// How often a list is cut at most: where its labels are all alike it isn't cut to the end.
pub(crate) const CUTS: u32 = 48;

// The marks at so many places of a list decide where it is cut.
const SAMPLE: usize = 64;

// The least and the greatest marks of some labels.
#[derive(Clone, Copy)]
pub(crate) struct Spread {
    pub(crate) least: [i32; 16],
    pub(crate) most: [i32; 16],
}

// Where a list of places is cut in two: those with at most so much at a mark, and the others.
#[derive(Clone, Copy)]
pub(crate) struct Cut {
    pub(crate) at: usize,
    pub(crate) middle: i64,
}

// The least and the greatest marks at places that are spread evenly over some.
pub(crate) fn spread_of<V>(list: &[Seen<'_, V>], places: &[usize]) -> Spread {
    let mut least = [i32::MAX; 16];
    let mut most = [i32::MIN; 16];
    let step = places.len() / SAMPLE + 1;
    let mut at = 0;
    while at < places.len() {
        if let Some(seen) = seen_at(list, places[at]) {
            least = lesser(&least, seen.marks);
            most = greater(&most, seen.marks);
        }
        at += step;
    }
    Spread { least, most }
}

// The mark at a place, or 0 where there is none.
#[inline]
fn mark_at(marks: &[i32; 16], at: usize) -> i32
    ensures { result ≡ mark_at at marks.now }
{
    if at < 16 { marks[at] } else { 0 }
}

// How far the marks at a place lie from each other.
#[inline]
fn width(spread: &Spread, at: usize) -> i64
    ensures least { negsuc 4_294_967_296 ≤ℤ result }
    ensures most { result ≤ℤ pos 4_294_967_296 }
{
    i64::from(mark_at(&spread.most, at)) - i64::from(mark_at(&spread.least, at))
}

// How far they do, to how far those of the whole list do.
#[inline]
fn share(spread: &Spread, whole: &Spread, at: usize) -> i64 {
    width(spread, at) * 65_536 / width(whole, at).max(1)
}

// The cut in the middle of the marks that lie the furthest from each other.
fn cut_of(spread: &Spread, whole: &Spread) -> Cut {
    let mut at = 0;
    let mut most = -1;
    for place in 0..16 {
        let share = share(spread, whole, place);
        if share > most {
            at = place;
            most = share;
        }
    }
    let least = i64::from(mark_at(&spread.least, at));
    let most = i64::from(mark_at(&spread.most, at));
    let middle = (least + most).div_euclid(2);
    Cut { at, middle }
}

// Whether a place is on the low side of a cut.
#[inline]
fn is_low<V>(list: &[Seen<'_, V>], cut: Cut, place: usize) -> bool
    ensures { result ≡ is_low list.now cut place }
{
    match seen_at(list, place) {
        None => false,
        Some(seen) => i64::from(mark_at(seen.marks, cut.at)) <= cut.middle,
    }
}

// The places on the low side of a cut, and the others.
fn sides<V>(
    alloc: Global,
    list: &[Seen<'_, V>],
    places: &[usize],
    cut: Cut,
) -> Result<(Vec<usize>, Vec<usize>), AllocError>
    ensures low { IfOk result (λ both. both.0.items ≡ filter (λ k. is_low list.now cut k) places.now) }
    ensures high { IfOk result (λ both. both.1.items
        ≡ filter (λ k. not (is_low list.now cut k)) places.now) }
{
    let mut low = Vec::with_capacity(alloc, places.len())?;
    let mut high = Vec::with_capacity(alloc, places.len())?;
    for place in places {
        if is_low(list, cut, *place) {
            low.push(*place)?;
        } else {
            high.push(*place)?;
        }
    }
    Ok((low, high))
}

// Puts places into one part.
fn push_part(parts: &mut Vec<Vec<usize>>, places: Vec<usize>) -> Result<(), AllocError>
    ensures placed { OnOk result ((k : ℕ) → Member places.items k → IsPlaced parts.new.items k) }
    ensures stays { OnOk result ((k : ℕ) → IsPlaced parts.old.items k
        → IsPlaced parts.new.items k) }
{
    parts.push(places)?;
    Ok(())
}

/// Divides places into parts of at most so many, by at most so many cuts in a row.
///
/// Marks are read where they stand, so what a cut moves is a place alone.
pub(crate) fn divide<V>(
    alloc: Global,
    most: usize,
    cuts: u32,
    whole: &Spread,
    list: &[Seen<'_, V>],
    places: Vec<usize>,
    parts: &mut Vec<Vec<usize>>,
) -> Result<(), AllocError>
    ensures placed { OnOk result ((k : ℕ) → Member places.items k → IsPlaced parts.new.items k) }
    ensures stays { OnOk result ((k : ℕ) → IsPlaced parts.old.items k
        → IsPlaced parts.new.items k) }
{
    if cuts == 0 || places.len() <= most {
        return push_part(parts, places);
    }
    let cut = cut_of(&spread_of(list, &places), whole);
    let (low, high) = sides(alloc, list, &places, cut)?;
    divide(alloc, most, cuts - 1, whole, list, low, parts)?;
    divide(alloc, most, cuts - 1, whole, list, high, parts)?;
    Ok(())
}
