//! Vectors as of a common instant.
//!
//! A label's vector takes 40 bytes, and a label 48: minutes and duties stay within caps of 32 bits,
//! and the minutes away are told by the report of the first duty; money keeps 64 bits, as prices
//! may be great. Clauses see the seven parts.
ghost use Rattle.std.proofs.Common.{refl};
ghost use Rattle.std.specs.Cmp.{eq_by_cmp_equiv, partial_equiv_from_equiv, partial_order_from_total};
ghost use Rattle.std.specs.Ordering.{as_partial_cmp, eq_by_cmp};
ghost use Rattle.std.specs.Prelude.{◌≡◌};
ghost use Rattle.crew_anchor.specs.Machinery.Narrow.{vector_total};
ghost use Rattle.crew_vector.specs.Fronts.{vector_cmp};

use crew_pairing::PairingVector;
use std::cmp::Ordering;
use std::marker::Model;

/// A vector as of a common instant, in 40 bytes: minutes and duties are counted within caps of 32
/// bits, and the minutes away are told by the report of the first duty.
///
/// A contract sees the seven parts, by which vectors are listed in order.
#[derive(Clone, Copy, Debug)]
pub struct AnchoredVector {
    pub(crate) duty_pay: i64,
    pub(crate) trip_rig: i64,
    pub(crate) guarantee: i64,
    pub(crate) fdp: u32,
    pub(crate) fly: u32,
    pub(crate) duties: u32,
    pub(crate) report: i32,
}

impl Model for AnchoredVector {
    ghost use Rattle.std.specs.Prelude.{neg_ℤ, pos, unsigned_abs};
    ghost use Rattle.crew_anchor.specs.Machinery.Narrow.{other_sign};
    ghost use Rattle.crew_pairing.specs.declared.vector.PairingVector.{PairingVector as Vector};

    ghost Value = { Vector };

    ghost view = { λ v. record {
      duty_pay = v.duty_pay;
      trip_rig = v.trip_rig;
      guarantee = v.guarantee;
      fdp = pos v.fdp;
      fly = pos v.fly;
      duties = pos v.duties;
      away = neg_ℤ v.report;
    } };

    ghost inverse = { λ v. record {
      duty_pay = v.duty_pay;
      trip_rig = v.trip_rig;
      guarantee = v.guarantee;
      fdp = unsigned_abs v.fdp;
      fly = unsigned_abs v.fly;
      duties = unsigned_abs v.duties;
      report = neg_ℤ v.away;
    } };

    ghost inverse_ok = { λ v _. other_sign v.report (λ report. record v { report = report }) };
}

impl AnchoredVector {
    ghost use Rattle.crew_anchor.specs.Machinery.Narrow.{AreNarrow};

    /// A vector of seven parts that fit.
    #[inline]
    pub(crate) fn of(parts: &PairingVector) -> AnchoredVector
        requires { AreNarrow parts.now }
        ensures { result ≡ parts.now }
    {
        AnchoredVector {
            duty_pay: parts.duty_pay,
            trip_rig: parts.trip_rig,
            guarantee: parts.guarantee,
            fdp: parts.fdp as u32,
            fly: parts.fly as u32,
            duties: parts.duties as u32,
            report: (-parts.away) as i32,
        }
    }

    /// The seven parts.
    #[inline]
    pub fn parts(&self) -> PairingVector
        ensures same { result ≡ self.now }
        ensures narrow { AreNarrow self.now }
    {
        PairingVector {
            duty_pay: self.duty_pay,
            trip_rig: self.trip_rig,
            guarantee: self.guarantee,
            fdp: i64::from(self.fdp),
            fly: i64::from(self.fly),
            duties: i64::from(self.duties),
            away: -i64::from(self.report),
        }
    }

    /// The pay of the duties, less prices, in points.
    #[inline]
    pub fn duty_pay(&self) -> i64
        ensures { result ≡ self.now.duty_pay }
    {
        self.duty_pay
    }
}

impl PartialEq for AnchoredVector {
    ghost eq = { eq_by_cmp vector_cmp };

    ghost laws = { partial_equiv_from_equiv (eq_by_cmp_equiv vector_total) };

    fn eq(&self, other: &AnchoredVector) -> bool {
        self.cmp(other) == Ordering::Equal
    }
}

impl Eq for AnchoredVector {
    ghost laws = { eq_by_cmp_equiv vector_total };
}

impl PartialOrd for AnchoredVector {
    ghost partial_cmp = { as_partial_cmp vector_cmp };

    ghost laws = { partial_order_from_total vector_total };

    fn partial_cmp(&self, other: &AnchoredVector) -> Option<Ordering> {
        Some(self.cmp(other))
    }
}

impl Ord for AnchoredVector {
    ghost cmp = { vector_cmp };

    ghost total = { vector_total };

    ghost matches_partial_cmp = { λ a b. refl };

    ghost matches_eq = { λ a b. refl };

    fn cmp(&self, other: &AnchoredVector) -> Ordering {
        self.parts().cmp(&other.parts())
    }
}
