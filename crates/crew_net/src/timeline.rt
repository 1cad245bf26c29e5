//! What happens, by the moment at which it happens.
//!
//! To put events in order, where and when each is and the rank of its duty are made one number of
//! 128 bits: a place takes 24 bits, a minute 32, a rank 18. Such numbers sort faster than slots. Duties by key leave in runs, one for each first
//! flight or so (`runs`), which are put in order first: the sort of the whole then only looks.

ghost use Rattle.std.specs.Prelude.{◌≡◌, ◌≤◌, ◌<◌, ◌-◌, ◌+◌, ◌≤ℤ◌, negsuc, not, pos, true, IfOk, IsTrue, List, ℤ, ℕ, length, map, take, drop, get_or};
ghost use Rattle.crew_flights.specs.Codes.{is_code};
ghost use Rattle.crew_net.specs.Machinery.Moments as Spec;
ghost use Rattle.crew_net.specs.Machinery.Moments.{AreKeys, AreMoments, AreSlotKeys, AreStarts, IsBounded, IsKey, IsMinute};
ghost use Rattle.crew_resource.specs.Members.{Each};
ghost use Rattle.crew_net.specs.Machinery.Timelines.{IsShape, IsTimeline, IsWithin};

use crate::window::Window;
use crew_flights::Code;
use std::alloc::{AllocError, Global};

/// The moments at which something happens, each once and in order, and the places of what happens
/// then.
#[derive(Drop)]
pub(crate) struct Timeline {
    /// Rising.
    pub(crate) moments: Vec<i64>,
    /// Where the places of each moment begin, and then where the last ones end.
    pub(crate) starts: Vec<u32>,
    /// By moment, and rising at each.
    pub(crate) places: Vec<u32>,
}

// The bytes of a place as one number.
fn code_number(airport: Code) -> u32
    ensures value { result ≡ Spec.code_number airport }
    ensures bound { result < 16_777_216 }
    ensures code { is_code airport ≡ true }
{
    let [first, second, third] = airport.get();
    u32::from(first) * 65_536 + u32::from(second) * 256 + u32::from(third)
}

/// An airport and a minute as one number: airports lie further apart than any two minutes.
pub(crate) fn moment(airport: Code, minute: i64) -> i64
    requires { IsMinute minute }
    ensures value { result ≡ Spec.moment airport minute }
    ensures code { is_code airport ≡ true }
    ensures bound { IsBounded result }
{
    i64::from(code_number(airport)) * 4_295_000_000 + minute
}

/// A slot as one number: such numbers are quicker to sort than slots.
pub(crate) fn slot_key(at: i64, place: usize) -> u128
    requires bounded { IsBounded at }
    requires few { place < 200_000 }
    ensures { Spec.keyed_slot result ≡ record { at = at; place = place } }
{
    (at + 2_147_500_001) as u128 * 200_000 + place as u128
}

// The moment of a key.
fn keyed_at(key: u128) -> i64
    requires { IsKey key }
    ensures value { result ≡ (Spec.keyed_slot key).at }
    ensures least { negsuc 2_147_500_000 ≤ℤ result }
    ensures most { result ≤ℤ pos 100_000_000_000_000_000 }
{
    (key / 200_000) as i64 - 2_147_500_001
}

/// The places of keys.
pub(crate) fn places_of(alloc: Global, keys: &[u128]) -> Result<Vec<u32>, AllocError>
    ensures { IfOk result (λ places. places.items ≡ map (λ k. (Spec.keyed_slot k).place) keys.now) }
{
    keys.iter()
        .map(|key| (*key % 200_000) as u32)
        .collect(alloc)
}

// Whether the last of some moments is this one.
fn ends_at(moments: &[i64], at: i64) -> bool
    ensures some { IsTrue result → 0 < length moments.now }
    ensures same { (e : ℤ) → IsTrue result → get_or moments.now (length moments.now - 1) e ≡ at }
    ensures other { (e : ℤ) → IsTrue (not result) → 0 < length moments.now
        → get_or moments.now (length moments.now - 1) e ≡ at → ⊥ }
{
    match moments.last() {
        Some(last) => *last == at,
        None => false,
    }
}

// The moments of keys in order, each once, and where each begins.
fn moments_of(alloc: Global, keys: &[u128]) -> Result<(Vec<i64>, Vec<u32>), AllocError>
    requires ascend { Spec.Ascend (map Spec.keyed_slot keys.now) }
    requires few { length keys.now ≤ 200_000 }
    requires keys { Each IsKey keys.now }
    ensures moments { IfOk result (λ r. AreMoments (map Spec.keyed_slot keys.now) r.0.items) }
    ensures starts { IfOk result (λ r. AreStarts (map Spec.keyed_slot keys.now) r.0.items
        r.1.items) }
{
    let mut moments = Vec::new(alloc);
    let mut starts = Vec::new(alloc);
    for (place, key) in keys.iter().enumerate() {
        let at = keyed_at(*key);
        if !ends_at(&moments, at) {
            moments.push(at)?;
            starts.push(place as u32)?;
        }
    }
    starts.push(keys.len() as u32)?;
    Ok((moments, starts))
}

/// The moments that lie between two, both included.
pub(crate) fn window_between(moments: &[i64], earliest: i64, latest: i64) -> Window
    requires { Spec.Rise moments.now }
    ensures { IsWithin moments.now earliest latest result }
{
    let from = moments.partition_point(|at| *at < earliest);
    let later = &moments[from..];
    let count = later.partition_point(|at| *at <= latest);
    Window {
        from,
        end: from + count,
    }
}

impl Timeline {
    /// All that has these keys.
    pub(crate) fn of(alloc: Global, keys: Vec<u128>) -> Result<Timeline, AllocError>
        requires few { length keys.items ≤ 200_000 }
        requires keys { AreSlotKeys keys.items }
        ensures { (ats : List ℤ) → AreKeys ats keys.items
            → IfOk result (λ timeline. IsTimeline ats timeline) }
    {
        let mut keys = keys;
        keys.sort_unstable();
        let (moments, starts) = moments_of(alloc, &keys)?;
        let places = places_of(alloc, &keys)?;
        Ok(Timeline {
            moments,
            starts,
            places,
        })
    }

    /// The places of what happens in a window of moments.
    pub(crate) fn places_in(&self, window: Window) -> &[u32]
        requires shape { IsShape self.now }
        requires ordered { window.from ≤ window.end }
        requires within { window.end ≤ length self.now.moments.items }
        ensures { (d : ℕ) → result.now ≡ take
            (get_or self.now.starts.items window.end d - get_or self.now.starts.items window.from d)
            (drop (get_or self.now.starts.items window.from d) self.now.places.items) }
    {
        let from = self.starts[window.from] as usize;
        let end = self.starts[window.end] as usize;
        &self.places[from..end]
    }
}
