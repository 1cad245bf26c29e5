//! Lists of duties: what may stand next, whether they keep within the caps on totals, and what is
//! listed of them.

ghost use Rattle.std.specs.Prelude.{◌≡◌, ◌≤◌, ◌≤ℤ◌, ◌-ℤ◌, ◌*ℤ◌, ◌++◌, ◌∷◌, [], false, IfOk, length, map, pos};
ghost use Rattle.crew_flights.specs.Timetable.{IsBasePrice};
ghost use Rattle.crew_rules.specs.Settings.{IsChecked};
ghost use Rattle.crew_pairing.specs.Legality.{duty_of, total};
ghost use Rattle.crew_pairing.specs.Machinery.Listing.{timed};
ghost use Rattle.crew_resource.specs.Members.{Each};
ghost use Rattle.crew_pairing.specs.Pairings.{may_stand_after};
ghost use Rattle.crew_pairing.specs.Pairings as Spec;
ghost use Rattle.crew_pairing.specs.Vectors.{vector_of};
ghost use Rattle.crew_audit.specs.Machinery.Listing.{comes_back, keeps_totals, listed, may_join};
ghost use Rattle.crew_audit.specs.Machinery.Ranges.{IsInRange};

use crate::partial::Partial;
use crew_flights::{Code, Flight};
use crew_pairing::{Duty, PairingVector, Walk};
use crew_rules::{Settings, guaranteed, rated};
use std::alloc::{AllocError, Global};

/// The least rest between two duties, in minutes: 14 CFR 117.25(e).
pub(crate) const LEAST_REST: i64 = 600;

// The minutes from the release of a duty to the report of one that begins with this flight.
fn rest_before(settings: &Settings, last: &Duty, flight: &Flight) -> i64
    requires checked { IsChecked settings.now }
    requires range { IsInRange last.now }
    ensures { result ≡ Spec.rest last.now (duty_of settings.now (timed false flight.now) []) }
{
    flight.dep.get() - i64::from(settings.lead) - i64::from(last.release)
}

// Whether a duty that begins with this flight may stand just after this duty.
fn may_rest(settings: &Settings, last: &Duty, flight: &Flight) -> bool
    requires checked { IsChecked settings.now }
    requires range { IsInRange last.now }
    ensures { result ≡ may_stand_after settings.now last.now
        (duty_of settings.now (timed false flight.now) []) }
{
    if last.to != flight.from {
        return false;
    }
    let rest = rest_before(settings, last, flight);
    LEAST_REST <= rest && rest <= i64::from(settings.max_rest)
}

/// Whether a duty that begins with this flight may stand first, or after these duties.
pub(crate) fn may_leave(settings: &Settings, base: Code, before: &[Duty], flight: &Flight) -> bool
    requires checked { IsChecked settings.now }
    requires ranges { Each IsInRange before.now }
    ensures { result ≡ may_join base settings.now before.now
        (duty_of settings.now (timed false flight.now) []) }
{
    match before.last() {
        None => flight.from == base,
        Some(last) => may_rest(settings, last, flight),
    }
}

// What duties come to.
#[derive(Clone, Copy)]
struct Sums {
    fdp: i64,
    fly: i64,
    pay: i64,
    price: i64,
}

fn add_up(duties: &[Duty]) -> Sums
    requires few { length duties.now ≤ 13 }
    requires ranges { Each IsInRange duties.now }
    ensures fdp { result.fdp ≡ total (λ d. d.fdp) duties.now }
    ensures fly { result.fly ≡ total (λ d. d.fly) duties.now }
    ensures pay { result.pay ≡ total (λ d. d.pay) duties.now }
    ensures price { result.price ≡ total (λ d. d.price) duties.now }
    ensures bound_fdp { ((pos 0 -ℤ pos 200_000_000_000) ≤ℤ result.fdp)
        × (result.fdp ≤ℤ pos 200_000_000_000) }
    ensures bound_fly { ((pos 0 -ℤ pos 200_000_000_000) ≤ℤ result.fly)
        × (result.fly ≤ℤ pos 200_000_000_000) }
    ensures bound_pay { ((pos 0 -ℤ pos 200_000_000_000) ≤ℤ result.pay)
        × (result.pay ≤ℤ pos 200_000_000_000) }
    ensures bound_price { ((pos 0 -ℤ pos 200_000_000_000) ≤ℤ result.price)
        × (result.price ≤ℤ pos 200_000_000_000) }
{
    let mut sums = Sums {
        fdp: 0,
        fly: 0,
        pay: 0,
        price: 0,
    };
    for duty in duties {
        sums = Sums {
            fdp: sums.fdp + i64::from(duty.fdp),
            fly: sums.fly + i64::from(duty.fly),
            pay: sums.pay + i64::from(duty.pay),
            price: sums.price + duty.price,
        };
    }
    sums
}

// The minutes from the first report to the last release.
fn minutes_away(duties: &[Duty]) -> i64
    requires { Each IsInRange duties.now }
    ensures value { result ≡ Spec.minutes_away duties.now }
    ensures bound { ((pos 0 -ℤ pos 60_000_000) ≤ℤ result) × (result ≤ℤ pos 60_000_000) }
{
    match (duties.first(), duties.last()) {
        (Some(first), Some(last)) => i64::from(last.release) - i64::from(first.report),
        _ => 0,
    }
}

/// Whether these duties are within the caps on totals.
pub(crate) fn keep_totals(settings: &Settings, duties: &[Duty]) -> bool
    requires few { length duties.now ≤ 13 }
    requires ranges { Each IsInRange duties.now }
    ensures { result ≡ keeps_totals settings.now duties.now }
{
    let sums = add_up(duties);
    if sums.fdp > i64::from(settings.fdp_total) {
        return false;
    }
    if sums.fly > i64::from(settings.fly_cap) {
        return false;
    }
    if duties.len() > settings.max_duties as usize {
        return false;
    }
    minutes_away(duties) <= i64::from(settings.away_cap)
}

/// The vector of these duties.
pub(crate) fn vector_of(settings: &Settings, base_price: i64, duties: &[Duty]) -> PairingVector
    requires checked { IsChecked settings.now }
    requires price { IsBasePrice base_price }
    requires few { length duties.now ≤ 13 }
    requires ranges { Each IsInRange duties.now }
    ensures { result ≡ vector_of settings.now base_price duties.now }
{
    let sums = add_up(duties);
    let away = minutes_away(duties);
    let prices = sums.price + base_price;
    PairingVector {
        duty_pay: sums.pay - prices,
        trip_rig: rated(settings.trip_rig, away) - prices,
        guarantee: guaranteed(settings.guarantee, duties.len() as u32) - prices,
        fdp: sums.fdp,
        fly: sums.fly,
        duties: duties.len() as i64,
        away,
    }
}

// The keys of these duties.
fn walk_of(alloc: Global, duties: &[Duty]) -> Result<Walk, AllocError>
    ensures { IfOk result (λ walk. walk ≡ map (λ d. d.key) duties.now) }
{
    let mut keys = Vec::with_capacity(alloc, duties.len())?;
    for duty in duties {
        keys.push(duty.key.copy())?;
    }
    Ok(Walk::new(keys))
}

/// Whether these duties arrive at the base in the end.
pub(crate) fn is_back(base: Code, duties: &[Duty]) -> bool
    ensures { result ≡ comes_back base duties.now }
{
    match duties.last() {
        Some(last) => last.to == base,
        None => false,
    }
}

/// These duties as a partial pairing of a base with this price.
pub(crate) fn partial_from(
    alloc: Global,
    settings: &Settings,
    base: Code,
    base_price: i64,
    duties: &[Duty],
) -> Result<Partial, AllocError>
    requires checked { IsChecked settings.now }
    requires price { IsBasePrice base_price }
    requires few { length duties.now ≤ 13 }
    requires ranges { Each IsInRange duties.now }
    ensures { IfOk result (λ partial. partial ≡ listed settings.now base base_price duties.now) }
{
    Ok(Partial {
        base,
        walk: walk_of(alloc, duties)?,
        vector: vector_of(settings, base_price, duties),
        pairing: is_back(base, duties),
    })
}

/// These duties, and then one more.
pub(crate) fn followed_by(
    alloc: Global,
    before: &[Duty],
    next: Duty,
) -> Result<Vec<Duty>, AllocError>
    ensures { IfOk result (λ longer. longer.items ≡ before.now ++ next ∷ []) }
{
    let mut longer = Vec::with_capacity(alloc, before.len() + 1)?;
    for duty in before {
        longer.push(duty.copy())?;
    }
    longer.push(next)?;
    Ok(longer)
}
