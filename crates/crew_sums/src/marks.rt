//! The marks of seven sums.
ghost use Rattle.std.specs.Prelude.{◌≡◌};
ghost use Rattle.crew_sums.specs.Machinery.Marks.{marks_of, marks_rise, narrowed};

use crate::SumsResource;
use crew_anchor::AnchoredVector;
use crew_forgetful::Marked;
use crew_pairing::Duty;

/// The nearest number of 32 bits.
#[inline]
fn narrow(number: i64) -> i32
    ensures { result ≡ narrowed number }
{
    number.clamp(-2_147_483_648, 2_147_483_647) as i32
}

impl Marked<Duty> for SumsResource {
    ghost marks_of = { λ _ v _. marks_of v };

    ghost marks_rise = { λ _ _ a b h. marks_rise a b h };

    /// The guarantee, the minutes of duty and of flight and those away, which tell the most values
    /// apart, then the other three sums. The last nine tell nothing.
    #[inline]
    fn marks(&self, value: &AnchoredVector, _moment: i32) -> [i32; 16] {
        let parts = value.parts();
        [
            narrow(parts.guarantee),
            narrow(parts.fdp),
            narrow(parts.fly),
            narrow(parts.away),
            narrow(parts.duty_pay),
            narrow(parts.trip_rig),
            narrow(parts.duties),
            0,
            0,
            0,
            0,
            0,
            0,
            0,
            0,
            0,
        ]
    }

    /// Marks of sums are the same from any moment.
    #[inline]
    fn moment(&self, _value: &AnchoredVector) -> i32 {
        0
    }
}
