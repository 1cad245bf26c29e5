//! What each duty adds to a part, and what a rest before it adds.
ghost use Rattle.std.specs.Prelude.{◌≡◌, ◌+◌, ◌*◌, ◌≤ℤ◌, ◌-ℤ◌, ◌*ℤ◌, neg_ℤ, pos, negsuc, Some, None, unsigned_abs};
ghost use Rattle.crew_pairing.specs.Events.{IsSound};
ghost use Rattle.crew_vector.specs.Machinery.Amounts as Spec;

use crew_pairing::{Arrival, Departure, Duty};
use crew_resource::Amount;

/// The minutes from one instant to another.
#[inline]
fn minutes(from: i64, to: i64) -> i64
    requires least { pos 0 ≤ℤ (to -ℤ from) }
    requires most { (to -ℤ from) ≤ℤ pos 10_000 }
    ensures { result ≡ to -ℤ from }
{
    to - from
}

/// So many points for each of some minutes.
#[inline]
fn product(rate: u32, minutes: i64) -> i64
    requires least { pos 0 ≤ℤ minutes }
    requires most { minutes ≤ℤ pos 10_000 }
    ensures value { result ≡ pos rate *ℤ minutes }
    ensures least { pos 0 ≤ℤ result }
    ensures most { result ≤ℤ pos 42_949_672_960_000 }
{
    i64::from(rate) * minutes
}

/// So many points for each minute from one instant to another.
#[inline]
fn rated(rate: u32, from: i64, to: i64) -> i64
    requires least { pos 0 ≤ℤ (to -ℤ from) }
    requires most { (to -ℤ from) ≤ℤ pos 10_000 }
    ensures value { result ≡ pos rate *ℤ (to -ℤ from) }
    ensures least { pos 0 ≤ℤ result }
    ensures most { result ≤ℤ pos 42_949_672_960_000 }
{
    product(rate, minutes(from, to))
}

/// So many points for each elapsed minute of a duty, less its price.
#[inline]
fn elapsed_less_price(rate: u32, duty: &Duty) -> i64
    requires { IsSound duty.now }
    ensures value { result ≡ Spec.rig_own rate duty.now }
    ensures least { negsuc 8_000_000_000 ≤ℤ result }
    ensures most { result ≤ℤ pos 43_000_000_000_000 }
{
    let points = rated(rate, i64::from(duty.report), i64::from(duty.release));
    points - duty.price
}

/// The duties' pays, less prices.
#[derive(Clone, Copy)]
pub struct DutyPay {
    pub base_price: i32,
}

impl Amount for DutyPay {
    type Item = Duty;

    ghost idle_of = { λ a _. neg_ℤ a.base_price };

    ghost wait_of = { λ _ _ _. pos 0 };

    ghost own_of = { λ _. Spec.pay_own };

    ghost cap_of = { λ _. None };

    ghost share = { λ a. unsigned_abs a.base_price + 8_000_020_000 };

    ghost shares = { λ a. Spec.pay_laws a.base_price };

    #[inline]
    fn idle(&self, _departure: &Departure) -> i64 {
        -i64::from(self.base_price)
    }

    #[inline]
    fn wait(&self, _arrival: &Arrival, _departure: &Departure) -> i64 {
        0
    }

    #[inline]
    fn own(&self, duty: &Duty) -> i64 {
        i64::from(duty.pay) - duty.price
    }

    #[inline]
    fn cap(&self) -> Option<i64> {
        None
    }
}

/// The trip rig for each minute away, less prices.
#[derive(Clone, Copy)]
pub struct TripRig {
    pub rate: u32,
    pub base_price: i32,
}

impl Amount for TripRig {
    type Item = Duty;

    ghost idle_of = { λ a _. neg_ℤ a.base_price };

    ghost wait_of = { λ a x g. Spec.rig_wait a.rate x g };

    ghost own_of = { λ a d. Spec.rig_own a.rate d };

    ghost cap_of = { λ _. None };

    ghost share = { λ a. a.rate * 10_000 + unsigned_abs a.base_price + 8_000_000_000 };

    ghost shares = { λ a. Spec.rig_laws a.rate a.base_price };

    #[inline]
    fn idle(&self, _departure: &Departure) -> i64 {
        -i64::from(self.base_price)
    }

    #[inline]
    fn wait(&self, arrival: &Arrival, departure: &Departure) -> i64 {
        rated(self.rate, arrival.release, departure.report)
    }

    #[inline]
    fn own(&self, duty: &Duty) -> i64 {
        elapsed_less_price(self.rate, duty)
    }

    #[inline]
    fn cap(&self) -> Option<i64> {
        None
    }
}

/// The guarantee for each duty, less prices.
#[derive(Clone, Copy)]
pub struct Guarantee {
    pub points: u32,
    pub base_price: i32,
}

impl Amount for Guarantee {
    type Item = Duty;

    ghost idle_of = { λ a _. neg_ℤ a.base_price };

    ghost wait_of = { λ _ _ _. pos 0 };

    ghost own_of = { λ a d. Spec.guarantee_own a.points d };

    ghost cap_of = { λ _. None };

    ghost share = { λ a. a.points + unsigned_abs a.base_price + 8_000_000_000 };

    ghost shares = { λ a. Spec.guarantee_laws a.points a.base_price };

    #[inline]
    fn idle(&self, _departure: &Departure) -> i64 {
        -i64::from(self.base_price)
    }

    #[inline]
    fn wait(&self, _arrival: &Arrival, _departure: &Departure) -> i64 {
        0
    }

    #[inline]
    fn own(&self, duty: &Duty) -> i64 {
        i64::from(self.points) - duty.price
    }

    #[inline]
    fn cap(&self) -> Option<i64> {
        None
    }
}

/// Flight duty minutes.
#[derive(Clone, Copy)]
pub struct DutyMinutes {
    pub cap: u32,
}

impl Amount for DutyMinutes {
    type Item = Duty;

    ghost idle_of = { λ _ _. pos 0 };

    ghost wait_of = { λ _ _ _. pos 0 };

    ghost own_of = { λ _ d. d.fdp };

    ghost cap_of = { λ a. Some (pos a.cap) };

    ghost share = { λ _. 840 };

    ghost shares = { λ _. Spec.fdp_laws };

    #[inline]
    fn idle(&self, _departure: &Departure) -> i64 {
        0
    }

    #[inline]
    fn wait(&self, _arrival: &Arrival, _departure: &Departure) -> i64 {
        0
    }

    #[inline]
    fn own(&self, duty: &Duty) -> i64 {
        i64::from(duty.fdp)
    }

    #[inline]
    fn cap(&self) -> Option<i64> {
        Some(i64::from(self.cap))
    }
}

/// Flight minutes.
#[derive(Clone, Copy)]
pub struct FlightMinutes {
    pub cap: u32,
}

impl Amount for FlightMinutes {
    type Item = Duty;

    ghost idle_of = { λ _ _. pos 0 };

    ghost wait_of = { λ _ _ _. pos 0 };

    ghost own_of = { λ _ d. d.fly };

    ghost cap_of = { λ a. Some (pos a.cap) };

    ghost share = { λ _. 540 };

    ghost shares = { λ _. Spec.fly_laws };

    #[inline]
    fn idle(&self, _departure: &Departure) -> i64 {
        0
    }

    #[inline]
    fn wait(&self, _arrival: &Arrival, _departure: &Departure) -> i64 {
        0
    }

    #[inline]
    fn own(&self, duty: &Duty) -> i64 {
        i64::from(duty.fly)
    }

    #[inline]
    fn cap(&self) -> Option<i64> {
        Some(i64::from(self.cap))
    }
}

/// Minutes away, from the first report to the last release.
#[derive(Clone, Copy)]
pub struct MinutesAway {
    pub cap: u32,
}

impl Amount for MinutesAway {
    type Item = Duty;

    ghost idle_of = { λ _ _. pos 0 };

    ghost wait_of = { λ _. Spec.away_wait };

    ghost own_of = { λ _. Spec.away_own };

    ghost cap_of = { λ a. Some (pos a.cap) };

    ghost share = { λ _. 8_280 };

    ghost shares = { λ _. Spec.away_laws };

    #[inline]
    fn idle(&self, _departure: &Departure) -> i64 {
        0
    }

    #[inline]
    fn wait(&self, arrival: &Arrival, departure: &Departure) -> i64 {
        departure.report - arrival.release
    }

    #[inline]
    fn own(&self, duty: &Duty) -> i64 {
        i64::from(duty.release) - i64::from(duty.report)
    }

    #[inline]
    fn cap(&self) -> Option<i64> {
        Some(i64::from(self.cap))
    }
}
