//! The marks of anchored vectors.
ghost use Rattle.std.specs.Prelude.{◌≡◌};
ghost use Rattle.crew_anchor.specs.Machinery.Marks.{marks_of, marks_rise, narrowed};

use crate::AnchoredResource;
use crate::vector::AnchoredVector;
use crew_pool::Marked;

/// The nearest number of 32 bits.
#[inline]
fn narrow(number: i64) -> i32
    ensures { result ≡ narrowed number }
{
    number.clamp(-2_147_483_648, 2_147_483_647) as i32
}

impl Marked for AnchoredResource {
    ghost marks_of = { marks_of };

    ghost marks_rise = { marks_rise };

    /// The guarantee, the minutes of duty and of flight and those away, each as near as 32 bits
    /// come: the four parts that tell the most vectors apart. Of two vectors that each of them lets
    /// pass, one is nearly always at most the other.
    #[inline]
    fn marks(&self, value: &AnchoredVector) -> [i32; 4] {
        let parts = value.parts();
        [
            narrow(parts.guarantee),
            narrow(parts.fdp),
            narrow(parts.fly),
            narrow(parts.away),
        ]
    }
}
