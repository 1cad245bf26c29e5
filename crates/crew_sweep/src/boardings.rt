//! Duties between the same two events of which another is as good to board, whoever boards.
//!
//! What boards such a duty falls to what boards the other, or is it: so an arrival needn't go over the
//! pool of its departure for it.
ghost use Rattle.std.specs.Prelude.{◌≡◌, ◌↔◌, ◌<◌, ◌-ℤ◌, ◌≤ℤ◌, ℕ, IfOk, IsTrue, length, true};
ghost use Rattle.crew_pairing.specs.Events.{IsSound};
ghost use Rattle.crew_pairing.specs.declared.duty.Duty.{Duty as DutySpec};
ghost use Rattle.crew_resource.specs.Members.{Member};
ghost use Rattle.crew_sweep.specs.Machinery.Boardings.{HaveAsGood, IsAsGood, TakesNoMore};

use crew_pairing::{Duties, Duty};
use std::alloc::{AllocError, Global};

// What a duty costs: its pay less its price.
fn cost_of(duty: &Duty) -> i64
    requires { IsSound duty.now }
    ensures { result ≡ duty.now.pay -ℤ duty.now.price }
{
    i64::from(duty.pay) - duty.price
}

// Whether a duty costs no more than another.
fn costs_no_more(one: &Duty, other: &Duty) -> bool
    requires one { IsSound one.now }
    requires other { IsSound other.now }
    ensures { IsTrue result
        ↔ ((one.now.pay -ℤ one.now.price) ≤ℤ (other.now.pay -ℤ other.now.price)) }
{
    cost_of(one) <= cost_of(other)
}

// Whether covering the flights of a duty is worth no less than covering those of another.
fn is_worth_no_less(one: &Duty, other: &Duty) -> bool
    ensures { IsTrue result ↔ (other.now.price ≤ℤ one.now.price) }
{
    other.price <= one.price
}

// Whether a duty has no more minutes of duty than another.
fn has_no_more_duty(one: &Duty, other: &Duty) -> bool
    ensures { IsTrue result ↔ (one.now.fdp ≤ℤ other.now.fdp) }
{
    one.fdp <= other.fdp
}

// Whether a duty has no more minutes of flight than another.
fn has_no_more_flight(one: &Duty, other: &Duty) -> bool
    ensures { IsTrue result ↔ (one.now.fly ≤ℤ other.now.fly) }
{
    one.fly <= other.fly
}

// Whether two duties end at the same minute.
fn end_together(one: &Duty, other: &Duty) -> bool
    ensures { IsTrue result ↔ (one.now.release ≡ other.now.release) }
{
    one.release == other.release
}

// Whether a duty ends when another does, takes no more of what is capped, and costs no more by any rate.
fn takes_no_more(one: &Duty, other: &Duty) -> bool
    requires one { IsSound one.now }
    requires other { IsSound other.now }
    ensures { IsTrue result ↔ TakesNoMore one.now other.now }
{
    end_together(one, other)
        & (has_no_more_duty(one, other)
            & (has_no_more_flight(one, other)
                & (is_worth_no_less(one, other) & costs_no_more(one, other))))
}

// Whether the duty of one rank is as good to board as that of another.
fn is_as_good(duties: &Duties, positions: &[u32], first: u32, second: u32) -> bool
    requires sound { (d : DutySpec) → Member duties.now d → IsSound d }
    requires first { first < length duties.now }
    requires second { second < length duties.now }
    requires position { length positions.now ≡ length duties.now }
    ensures { result ≡ true → IsAsGood duties.now positions.now first second }
{
    if positions[first as usize] != positions[second as usize] {
        return false;
    }
    let one = duties.at(first as usize);
    let other = duties.at(second as usize);
    if !takes_no_more(one, other) {
        return false;
    }
    first <= second || !takes_no_more(other, one)
}

// Whether one of some ranks is as good as another: those that leave with it stand last.
fn has_as_good(duties: &Duties, positions: &[u32], ranks: &[u32], rank: u32) -> bool
    requires sound { (d : DutySpec) → Member duties.now d → IsSound d }
    requires ranks { (one : ℕ) → Member ranks.now one → one < length duties.now }
    requires rank { rank < length duties.now }
    requires position { length positions.now ≡ length duties.now }
    ensures { result ≡ true
        → (k : ℕ) × Member ranks.now k × IsAsGood duties.now positions.now k rank }
{
    for back in 0..ranks.len() {
        let one = ranks[ranks.len() - 1 - back];
        if positions[one as usize] != positions[rank as usize] {
            return false;
        }
        if is_as_good(duties, positions, one, rank) {
            return true;
        }
    }
    false
}

/// Ranks from the last to the first, without those that come to one as good among these: where a second
/// call does the same, none is left that has another as good, and the order is as it was.
pub(crate) fn without_worse(
    alloc: Global,
    duties: &Duties,
    positions: &[u32],
    ranks: &[u32],
) -> Result<Vec<u32>, AllocError>
    requires sound { (d : DutySpec) → Member duties.now d → IsSound d }
    requires ranks { (one : ℕ) → Member ranks.now one → one < length duties.now }
    requires position { length positions.now ≡ length duties.now }
    ensures among { IfOk result (λ kept. (k : ℕ) → Member kept.items k → Member ranks.now k) }
    ensures as_good { IfOk result
        (λ kept. HaveAsGood duties.now positions.now kept.items ranks.now) }
{
    let mut kept = Vec::with_capacity(alloc, ranks.len())?;
    for back in 0..ranks.len() {
        let rank = ranks[ranks.len() - 1 - back];
        if !has_as_good(duties, positions, &kept, rank) {
            kept.push(rank)?;
        }
    }
    Ok(kept)
}
