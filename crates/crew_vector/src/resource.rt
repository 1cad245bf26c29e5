//! The vector of a pairing as a resource.
//!
//! The theory takes a vector for seven resources side by side (`Both`, `Sum`, `Count`), and the
//! ghosts say so; the bodies are seven sums and one look at the caps, since bodies that named all
//! seven types had them spelled out in their proofs: a quarter of the crate's time.
ghost use Rattle.std.specs.Prelude.{◌≡◌, ◌≤◌, ℕ, List, Some, pos};
ghost use Rattle.std.specs.Option.{option_map};
ghost use Rattle.crew_pairing.specs.declared.duty.Duty.{Duty};
ghost use Rattle.crew_rules.specs.Settings.{IsChecked};
ghost use Rattle.crew_vector.specs.Dominance.{is_at_most};
ghost use Rattle.crew_vector.specs.Machinery.Named.{named_order};
ghost use Rattle.crew_vector.specs.Machinery.Numbers.{named, numbers_of};
ghost use Rattle.crew_vector.specs.Machinery.VectorResources.{vector_resource, sides_of, within_caps};
ghost use Rattle.crew_vector.specs.Values.{value_of};
ghost use Rattle.crew_flights.specs.Timetable.{IsBasePrice};
ghost use Rattle.crew_vector.specs.Machinery.VectorLaws.{vector_bounds, vector_counting, vector_grading, vector_shifts, vector_staged, vector_steps};

use crate::amounts::{DutyMinutes, DutyPay, FlightMinutes, Guarantee, MinutesAway, TripRig};
use crew_pairing::{Arrival, Departure, Duty, PairingVector};
use crew_resource::{Amount, Both, Count, Placed, Resource, Staged, Sum};
use crew_rules::Settings;
use std::alloc::AllocError;

/// What a pairing is paid three ways, each less prices.
type Money = Both<Sum<DutyPay>, Both<Sum<TripRig>, Sum<Guarantee>>>;

/// What the caps are on.
type Limits = Both<Both<Sum<DutyMinutes>, Sum<FlightMinutes>>, Both<Count<Duty>, Sum<MinutesAway>>>;

/// The seven parts side by side.
type Sides = Both<Money, Limits>;

/// The resource extension function of a base's labels: seven parts over duties.
#[derive(Clone, Copy, Debug)]
pub struct VectorResource {
    base_price: i32,
    trip_rig: u32,
    guarantee: u32,
    fdp_cap: u32,
    fly_cap: u32,
    max_duties: u32,
    away_cap: u32,
}

impl VectorResource {
    /// The resource of a base's pairings. The value of each list of duties is its vector, and none
    /// exactly where the list is empty or a beginning of it passes a cap; a value has at most
    /// `max_duties` duties, and sums fit.
    pub fn new(settings: &Settings, base_price: i64) -> VectorResource
        requires checked { IsChecked settings.now }
        requires price { IsBasePrice base_price }
        ensures made { result ≡ vector_resource settings.now base_price }
        ensures values { (duties : List Duty)
            → ⟦<VectorResource as Resource>⟧.value_of result duties
            ≡ value_of settings.now base_price duties }
        ensures most { ⟦<VectorResource as Staged<Duty>>⟧.most result
            ≡ Some settings.now.max_duties }
        ensures fits { (n : ℕ) → n ≤ 100_000 → ⟦<VectorResource as Staged<Duty>>⟧.fits result n }
    {
        VectorResource::under(settings, base_price)
    }

    /// The resource of a base's pairings under caps of any size, as those of pairings of more than
    /// 138 hours are.
    pub fn under(settings: &Settings, base_price: i64) -> VectorResource
        requires { IsBasePrice base_price }
        ensures { result ≡ vector_resource settings.now base_price }
    {
        VectorResource {
            base_price: base_price as i32,
            trip_rig: settings.trip_rig,
            guarantee: settings.guarantee,
            fdp_cap: settings.fdp_cap.min(settings.fdp_total),
            fly_cap: settings.fly_cap,
            max_duties: settings.max_duties,
            away_cap: settings.away_cap,
        }
    }

    /// The vector, where it passes no cap.
    #[inline]
    fn within(&self, vector: PairingVector) -> Option<PairingVector>
        ensures { result ≡ within_caps self.now vector }
    {
        let minutes = (vector.fdp <= i64::from(self.fdp_cap))
            & (vector.fly <= i64::from(self.fly_cap));
        let span = (vector.duties <= i64::from(self.max_duties))
            & (vector.away <= i64::from(self.away_cap));
        if minutes & span { Some(vector) } else { None }
    }

    #[inline]
    fn duty_pay(&self) -> DutyPay
        ensures { result.base_price ≡ self.now.base_price }
    {
        DutyPay {
            base_price: self.base_price,
        }
    }

    #[inline]
    fn rig(&self) -> TripRig
        ensures rate { result.rate ≡ self.now.trip_rig }
        ensures price { result.base_price ≡ self.now.base_price }
    {
        TripRig {
            rate: self.trip_rig,
            base_price: self.base_price,
        }
    }

    #[inline]
    fn guaranteed(&self) -> Guarantee
        ensures points { result.points ≡ self.now.guarantee }
        ensures price { result.base_price ≡ self.now.base_price }
    {
        Guarantee {
            points: self.guarantee,
            base_price: self.base_price,
        }
    }

    #[inline]
    fn minutes_away(&self) -> MinutesAway
        ensures { result.cap ≡ self.now.away_cap }
    {
        MinutesAway { cap: self.away_cap }
    }
}

impl Resource for VectorResource {
    type Value = PairingVector;

    type Item = Duty;

    ghost opens = { λ s d. option_map named (⟦<Sides as Resource>⟧.opens (sides_of s) d) };

    ghost extends = { λ s v last next. option_map named
        (⟦<Sides as Resource>⟧.extends (sides_of s) (numbers_of v) last next) };

    ghost below = { is_at_most };

    ghost value_of = { λ s duties. option_map named
        (⟦<Sides as Resource>⟧.value_of (sides_of s) duties) };

    ghost grade_of = { λ v. ⟦<Sides as Resource>⟧.grade_of (numbers_of v) };

    ghost can_start = { λ s. ⟦<Sides as Resource>⟧.can_start (sides_of s) };

    ghost can_extend = { λ s v. ⟦<Sides as Resource>⟧.can_extend (sides_of s) (numbers_of v) };

    ghost order = { named_order };

    ghost steps = { vector_steps };

    ghost grading = { vector_grading };

    #[inline]
    fn start(&self, duty: &Duty) -> Result<Option<PairingVector>, AllocError> {
        let empty = self.idle(&duty.departure());
        Ok(self.board(&empty, duty))
    }

    #[inline]
    fn extend(
        &self,
        value: &PairingVector,
        last: &Duty,
        next: &Duty,
    ) -> Result<Option<PairingVector>, AllocError> {
        let waited = self.wait(value, &last.arrival(), &next.departure());
        Ok(self.board(&waited, next))
    }

    #[inline]
    fn at_most(&self, a: &PairingVector, b: &PairingVector) -> bool {
        let money = (a.duty_pay <= b.duty_pay)
            & ((a.trip_rig <= b.trip_rig) & (a.guarantee <= b.guarantee));
        let minutes = (a.fdp <= b.fdp) & (a.fly <= b.fly);
        money & (minutes & ((a.duties <= b.duties) & (a.away <= b.away)))
    }

    #[inline]
    fn copy(&self, value: &PairingVector) -> Result<PairingVector, AllocError> {
        Ok(*value)
    }

    #[inline]
    fn grade(&self, value: &PairingVector) -> u32 {
        Count::<Duty>::new(self.max_duties).grade(&value.duties)
    }
}

impl Staged<Duty> for VectorResource {
    ghost idle_of = { λ s g. named (⟦<Sides as Staged<Duty>>⟧.idle_of (sides_of s) g) };

    ghost waited = { λ s v x g. named
        (⟦<Sides as Staged<Duty>>⟧.waited (sides_of s) (numbers_of v) x g) };

    ghost boards = { λ s v d. option_map named
        (⟦<Sides as Staged<Duty>>⟧.boards (sides_of s) (numbers_of v) d) };

    ghost is_shift = { λ _. Unit {0} };

    ghost most = { λ s. Some s.max_duties };

    ghost count_of = { λ _ v. v.duties };

    ghost fits = { λ s. ⟦<Sides as Staged<Duty>>⟧.fits (sides_of s) };

    ghost ready = { λ s n v. ⟦<Sides as Staged<Duty>>⟧.ready (sides_of s) n (numbers_of v) };

    ghost arrived = { λ s n v. ⟦<Sides as Staged<Duty>>⟧.arrived (sides_of s) n (numbers_of v) };

    ghost can_idle = { λ s. ⟦<Sides as Staged<Duty>>⟧.can_idle (sides_of s) };

    ghost can_wait = { λ s v. ⟦<Sides as Staged<Duty>>⟧.can_wait (sides_of s) (numbers_of v) };

    ghost can_board = { λ s v. ⟦<Sides as Staged<Duty>>⟧.can_board (sides_of s) (numbers_of v) };

    ghost staged = { vector_staged };

    ghost shifting = { λ s _. vector_shifts s };

    ghost counting = { vector_counting };

    ghost bounds = { vector_bounds };

    #[inline]
    fn idle(&self, _departure: &Departure) -> PairingVector {
        let unpaid = -i64::from(self.base_price);
        PairingVector {
            duty_pay: unpaid,
            trip_rig: unpaid,
            guarantee: unpaid,
            fdp: 0,
            fly: 0,
            duties: 0,
            away: 0,
        }
    }

    #[inline]
    fn wait(
        &self,
        value: &PairingVector,
        arrival: &Arrival,
        departure: &Departure,
    ) -> PairingVector {
        PairingVector {
            trip_rig: value.trip_rig + self.rig().wait(arrival, departure),
            away: value.away + self.minutes_away().wait(arrival, departure),
            ..*value
        }
    }

    #[inline]
    fn board(&self, value: &PairingVector, duty: &Duty) -> Option<PairingVector> {
        let aboard = PairingVector {
            duty_pay: value.duty_pay + self.duty_pay().own(duty),
            trip_rig: value.trip_rig + self.rig().own(duty),
            guarantee: value.guarantee + self.guaranteed().own(duty),
            fdp: value.fdp + i64::from(duty.fdp),
            fly: value.fly + i64::from(duty.fly),
            duties: value.duties + 1,
            away: value.away + self.minutes_away().own(duty),
        };
        self.within(aboard)
    }
}
