//! The vector of a pairing as of a common instant.
ghost use Rattle.std.specs.Prelude.{◌≡◌, ◌≤◌, ◌+◌, ◌+ℤ◌, ◌*◌, ◌*ℤ◌, ◌^◌, ℕ, ℤ, pos, Some};
ghost use Rattle.crew_anchor.specs.Machinery.AnchorLaws.{anchored_bounds, anchored_counting, anchored_grading, anchored_shifts, anchored_staged, anchored_steps};
ghost use Rattle.crew_anchor.specs.Anchors.{shown};
ghost use Rattle.crew_anchor.specs.Machinery.Bounds.{AreWithin, fits_in, is_ready, may_board};
ghost use Rattle.crew_anchor.specs.Stages.{anchored_board, anchored_resource, flown, is_within_caps_at};
ghost use Rattle.crew_anchor.specs.Machinery.Values.{anchored_value, begun, near};
ghost use Rattle.crew_pairing.specs.Events.{IsSound};
ghost use Rattle.crew_resource.specs.Machinery.Count.{count_grade};
ghost use Rattle.crew_resource.specs.Machinery.Sum.{LiesWithin};
ghost use Rattle.crew_resource.specs.Machinery.Uses.{HasRoom};
ghost use Rattle.crew_rules.specs.Settings.{IsChecked};
ghost use Rattle.crew_vector.specs.Dominance.{is_at_most};
ghost use Rattle.crew_vector.specs.Machinery.Named.{named_order};
ghost use Rattle.crew_flights.specs.Timetable.{IsBasePrice};

use crate::vector::AnchoredVector;
use crew_pairing::{Arrival, Departure, Duty, PairingVector};
use crew_resource::{Count, Placed, Resource, Staged};
use crew_rules::Settings;
use std::alloc::AllocError;

/// The resource of a base's pairings, by vectors as of a common instant: waiting changes nothing,
/// and a duty adds the same to each vector.
#[derive(Clone, Copy, Debug)]
pub struct AnchoredResource {
    base_price: i32,
    trip_rig: u32,
    guarantee: u32,
    fdp_cap: u32,
    fly_cap: u32,
    max_duties: u32,
    away_cap: u32,
}

/// The nearest minute of 32 bits.
#[inline]
fn near_minute(minute: i64) -> i64
    ensures value { result ≡ near minute }
    ensures within { LiesWithin 2_147_483_648 result }
{
    minute.min(2_147_483_647).max(-2_147_483_648)
}

/// So many points for each minute up to an instant.
#[inline]
fn points_to(rate: u32, minute: i64) -> i64
    requires { LiesWithin 2_147_483_648 minute }
    ensures value { result ≡ pos rate *ℤ minute }
    ensures within { LiesWithin (rate * 2_147_483_648) result }
{
    i64::from(rate) * minute
}

impl AnchoredResource {
    /// The resource of a base's pairings. A value has at most `max_duties` duties, and sums fit.
    pub fn new(settings: &Settings, base_price: i64) -> AnchoredResource
        requires checked { IsChecked settings.now }
        requires price { IsBasePrice base_price }
        ensures made { result ≡ anchored_resource settings.now base_price }
        ensures most { ⟦<AnchoredResource as Staged<Duty>>⟧.most result
            ≡ Some settings.now.max_duties }
        ensures fits { (n : ℕ) → n ≤ 100_000 → ⟦<AnchoredResource as Staged<Duty>>⟧.fits result n }
    {
        AnchoredResource {
            base_price: base_price as i32,
            trip_rig: settings.trip_rig,
            guarantee: settings.guarantee,
            fdp_cap: settings.fdp_cap.min(settings.fdp_total),
            fly_cap: settings.fly_cap,
            max_duties: settings.max_duties,
            away_cap: settings.away_cap,
        }
    }

    /// The resource of lists with a duty to spare: of one duty less at most.
    pub fn sparing(&self) -> AnchoredResource
        requires { 1 ≤ self.now.max_duties }
        ensures { (most : ℕ) → most + 1 ≡ self.now.max_duties
            → result ≡ record self.now { max_duties = most } }
    {
        AnchoredResource {
            max_duties: self.max_duties - 1,
            ..*self
        }
    }

    /// The vector as of a minute.
    #[inline]
    pub fn show(&self, value: &AnchoredVector, minute: i64) -> PairingVector
        requires room { HasRoom (fits_in self.now) (is_ready self.now) value.now }
        requires minute { LiesWithin 2_147_483_648 minute }
        ensures { result ≡ shown self.now.trip_rig minute value.now }
    {
        self.at(&value.parts(), minute)
    }

    // The vector as of a minute, of parts that fit.
    #[inline]
    fn at(&self, value: &PairingVector, minute: i64) -> PairingVector
        requires fits { fits_in self.now 1 }
        requires value { AreWithin (2 ^ 62) value.now }
        requires minute { LiesWithin 2_147_483_648 minute }
        ensures { result ≡ shown self.now.trip_rig minute value.now }
    {
        PairingVector {
            trip_rig: value.trip_rig + points_to(self.trip_rig, minute),
            away: value.away + minute,
            ..*value
        }
    }

    /// A vector with what a duty adds.
    #[inline]
    fn with_duty(&self, value: &PairingVector, duty: &Duty) -> PairingVector
        requires { may_board value.now duty.now }
        ensures { result ≡ flown self.now value.now duty.now }
    {
        PairingVector {
            duty_pay: value.duty_pay + (i64::from(duty.pay) - duty.price),
            trip_rig: value.trip_rig - duty.price,
            guarantee: value.guarantee + (i64::from(self.guarantee) - duty.price),
            fdp: value.fdp + i64::from(duty.fdp),
            fly: value.fly + i64::from(duty.fly),
            duties: value.duties + 1,
            away: value.away,
        }
    }

    /// Whether a vector is within the caps, at a minute.
    #[inline]
    fn is_within_caps(&self, value: &PairingVector, minute: i32) -> bool
        requires { LiesWithin (2 ^ 62) value.now.away }
        ensures within { result ≡ is_within_caps_at self.now minute value.now }
        ensures fdp { self.now.fdp_cap ≤ 4_294_967_295 }
        ensures fly { self.now.fly_cap ≤ 4_294_967_295 }
        ensures duties { self.now.max_duties ≤ 4_294_967_295 }
    {
        let away = value.away + i64::from(minute);
        (value.fdp <= i64::from(self.fdp_cap))
            & ((value.fly <= i64::from(self.fly_cap))
                & ((value.duties <= i64::from(self.max_duties))
                    & (away <= i64::from(self.away_cap))))
    }
}

impl Resource for AnchoredResource {
    type Value = AnchoredVector;

    type Item = Duty;

    ghost opens = { λ r d. anchored_board r (begun r d.report) d };

    ghost extends = { λ r v _ next. anchored_board r v next };

    ghost below = { is_at_most };

    ghost value_of = { anchored_value };

    ghost grade_of = { λ v. count_grade v.duties };

    ghost can_start = { λ r d. IsSound d × fits_in r 1 };

    ghost can_extend = { λ _ v _ next. may_board v next };

    ghost order = { named_order };

    ghost steps = { anchored_steps };

    ghost grading = { anchored_grading };

    #[inline]
    fn start(&self, duty: &Duty) -> Result<Option<AnchoredVector>, AllocError> {
        let begun = self.idle(&duty.departure());
        Ok(self.board(&begun, duty))
    }

    #[inline]
    fn extend(
        &self,
        value: &AnchoredVector,
        _last: &Duty,
        next: &Duty,
    ) -> Result<Option<AnchoredVector>, AllocError> {
        Ok(self.board(value, next))
    }

    #[inline]
    fn at_most(&self, a: &AnchoredVector, b: &AnchoredVector) -> bool {
        let money = (a.duty_pay <= b.duty_pay)
            & ((a.trip_rig <= b.trip_rig) & (a.guarantee <= b.guarantee));
        let minutes = (a.fdp <= b.fdp) & (a.fly <= b.fly);
        money & (minutes & ((a.duties <= b.duties) & (a.report >= b.report)))
    }

    #[inline]
    fn copy(&self, value: &AnchoredVector) -> Result<AnchoredVector, AllocError> {
        Ok(*value)
    }

    #[inline]
    fn grade(&self, value: &AnchoredVector) -> u32 {
        let count: Count<Duty> = Count::new(self.max_duties);
        count.grade(&i64::from(value.duties))
    }
}

impl Staged<Duty> for AnchoredResource {
    ghost idle_of = { λ r g. begun r g.report };

    ghost waited = { λ _ v _ _. v };

    ghost boards = { anchored_board };

    ghost is_shift = { λ _. Unit {0} };

    ghost most = { λ r. Some r.max_duties };

    ghost count_of = { λ _ v. v.duties };

    ghost fits = { fits_in };

    ghost ready = { is_ready };

    ghost arrived = { is_ready };

    ghost can_idle = { λ r _. fits_in r 1 };

    ghost can_wait = { λ _ _ _ _. Unit {0} };

    ghost can_board = { λ _. may_board };

    ghost staged = { anchored_staged };

    ghost shifting = { λ r _. anchored_shifts r };

    ghost counting = { anchored_counting };

    ghost bounds = { anchored_bounds };

    #[inline]
    fn idle(&self, departure: &Departure) -> AnchoredVector {
        let minute = near_minute(departure.report);
        let price = i64::from(self.base_price);
        AnchoredVector {
            duty_pay: -price,
            trip_rig: -price - points_to(self.trip_rig, minute),
            guarantee: -price,
            fdp: 0,
            fly: 0,
            duties: 0,
            report: minute as i32,
        }
    }

    #[inline]
    fn wait(
        &self,
        value: &AnchoredVector,
        _arrival: &Arrival,
        _departure: &Departure,
    ) -> AnchoredVector {
        *value
    }

    #[inline]
    fn board(&self, value: &AnchoredVector, duty: &Duty) -> Option<AnchoredVector> {
        let parts = value.parts();
        let longer = self.with_duty(&parts, duty);
        if self.is_within_caps(&longer, duty.release) {
            Some(AnchoredVector::of(&longer))
        } else {
            None
        }
    }
}
