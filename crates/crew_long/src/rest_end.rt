//! The end of the last long rest.

ghost use Rattle.std.specs.Prelude.{◌≡◌, ◌-ℤ◌, FitsSigned};
ghost use Rattle.std.specs.Int.{w64};
ghost use Rattle.std.proofs.Common.{refl};
ghost use Rattle.std.specs.Ordering.{eq_by_cmp, as_partial_cmp};
ghost use Rattle.std.specs.Cmp.{eq_by_cmp_equiv, partial_equiv_from_equiv, partial_order_from_total};
ghost use Rattle.crew_long.specs.RestEnds.{rest_end_cmp};
ghost use Rattle.crew_long.specs.Machinery.RestOrder.{rest_end_cmp_total};

use std::cmp::Ordering;

/// The end of the last rest of 1,800 minutes or more, or the first report, in minutes since
/// 1970-01-01T00:00 UTC. The later it is, the lesser: fewer minutes have passed since.
#[derive(Clone, Copy, Debug)]
pub struct RestEnd {
    pub minute: i64,
}

impl RestEnd {
    /// The minutes from there to a report.
    #[inline]
    pub fn minutes_until(&self, report: i32) -> i64
        requires { FitsSigned w64 (report -ℤ self.now.minute) }
        ensures { result ≡ report -ℤ self.now.minute }
    {
        i64::from(report) - self.minute
    }
}

impl PartialEq for RestEnd {
    ghost eq = { eq_by_cmp rest_end_cmp };

    ghost laws = { partial_equiv_from_equiv (eq_by_cmp_equiv rest_end_cmp_total) };

    fn eq(&self, other: &RestEnd) -> bool {
        self.cmp(other) == Ordering::Equal
    }
}

impl Eq for RestEnd {
    ghost laws = { eq_by_cmp_equiv rest_end_cmp_total };
}

impl PartialOrd for RestEnd {
    ghost partial_cmp = { as_partial_cmp rest_end_cmp };

    ghost laws = { partial_order_from_total rest_end_cmp_total };

    fn partial_cmp(&self, other: &RestEnd) -> Option<Ordering> {
        Some(self.cmp(other))
    }
}

impl Ord for RestEnd {
    ghost cmp = { rest_end_cmp };

    ghost total = { rest_end_cmp_total };

    ghost matches_partial_cmp = { λ a b. refl };

    ghost matches_eq = { λ a b. refl };

    fn cmp(&self, other: &RestEnd) -> Ordering {
        other.minute.cmp(&self.minute)
    }
}
