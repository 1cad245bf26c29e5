//! What lists of duties come to.

ghost use Rattle.std.specs.Prelude.{◌≡◌, ◌≤◌, ◌≤ℤ◌, ◌-ℤ◌, length, pos};
ghost use Rattle.crew_pairing.specs.Legality.{total};
ghost use Rattle.crew_resource.specs.Members.{Each};
ghost use Rattle.crew_pairing.specs.Pairings as Spec;
ghost use Rattle.crew_explain.specs.Machinery.Ranges.{IsInRange};

use crew_pairing::Duty;

/// What duties come to.
#[derive(Clone, Copy)]
pub(crate) struct Sums {
    pub(crate) fdp: i64,
    pub(crate) fly: i64,
    pub(crate) pay: i64,
    pub(crate) price: i64,
}

pub(crate) fn add_up(duties: &[Duty]) -> Sums
    requires few { length duties.now ≤ 13 }
    requires ranges { Each IsInRange duties.now }
    ensures fdp { result.fdp ≡ total (λ d. d.fdp) duties.now }
    ensures fly { result.fly ≡ total (λ d. d.fly) duties.now }
    ensures pay { result.pay ≡ total (λ d. d.pay) duties.now }
    ensures price { result.price ≡ total (λ d. d.price) duties.now }
    ensures bound_fdp { ((pos 0 -ℤ pos 200_000_000_000) ≤ℤ result.fdp)
        × (result.fdp ≤ℤ pos 200_000_000_000) }
    ensures bound_fly { ((pos 0 -ℤ pos 200_000_000_000) ≤ℤ result.fly)
        × (result.fly ≤ℤ pos 200_000_000_000) }
    ensures bound_pay { ((pos 0 -ℤ pos 200_000_000_000) ≤ℤ result.pay)
        × (result.pay ≤ℤ pos 200_000_000_000) }
    ensures bound_price { ((pos 0 -ℤ pos 200_000_000_000) ≤ℤ result.price)
        × (result.price ≤ℤ pos 200_000_000_000) }
{
    let mut sums = Sums {
        fdp: 0,
        fly: 0,
        pay: 0,
        price: 0,
    };
    for duty in duties {
        sums = Sums {
            fdp: sums.fdp + i64::from(duty.fdp),
            fly: sums.fly + i64::from(duty.fly),
            pay: sums.pay + i64::from(duty.pay),
            price: sums.price + duty.price,
        };
    }
    sums
}

/// The minutes from the first report to the last release.
pub(crate) fn minutes_away(duties: &[Duty]) -> i64
    requires { Each IsInRange duties.now }
    ensures value { result ≡ Spec.minutes_away duties.now }
    ensures bound { ((pos 0 -ℤ pos 60_000_000) ≤ℤ result) × (result ≤ℤ pos 60_000_000) }
{
    match (duties.first(), duties.last()) {
        (Some(first), Some(last)) => i64::from(last.release) - i64::from(first.report),
        _ => 0,
    }
}
