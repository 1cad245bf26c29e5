//! How the pools of seven sums are put together.
ghost use Rattle.std.specs.Prelude.{◌≡◌, true};
ghost use Rattle.crew_anchor.specs.Machinery.Marks.{marks_of, marks_rise};
ghost use Rattle.crew_sums.specs.Machinery.Plain.{sums_plain};

use crate::SumsResource;
use crew_anchor::AnchoredVector;
use crew_pass::Pooled;
use crew_pool::Marked;
use crew_room::Glanced;

impl Glanced for SumsResource {
    ghost glance_of = { marks_of };

    ghost glances_rise = { marks_rise };

    /// The guarantee, the minutes of duty and of flight and those away: the four sums that tell the
    /// most values apart.
    #[inline]
    fn glance(&self, value: &AnchoredVector) -> [i32; 4] {
        self.anchored.marks(value)
    }
}

impl Pooled for SumsResource {
    ghost plain = { λ _. true };

    ghost plainly = { λ _ _. sums_plain };

    /// It is.
    #[inline]
    fn is_plain(&self) -> bool {
        true
    }
}
