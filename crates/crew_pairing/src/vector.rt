//! The vector of a list of duties, and what it costs.
ghost use Rattle.std.specs.Prelude.{◌≡◌};
ghost use Rattle.crew_pairing.specs.Vectors as Spec;

/// The vector of a list of duties. Money is in points, times are minutes. Vectors are listed by
/// their parts in order.
#[derive(Clone, Copy, Debug, PartialEq, Eq, PartialOrd, Ord)]
pub struct PairingVector {
    /// 1: the sum of the duties' pays, less prices.
    pub duty_pay: i64,
    /// 2: the trip rig for each minute away, less prices.
    pub trip_rig: i64,
    /// 3: the guarantee for each duty, less prices.
    pub guarantee: i64,
    /// 4: flight duty minutes.
    pub fdp: i64,
    /// 5: flight minutes.
    pub fly: i64,
    /// 6: the number of duties.
    pub duties: i64,
    /// 7: minutes away, from the first report to the last release.
    pub away: i64,
}

impl PairingVector {
    /// The reduced cost: the greatest of the three ways to pay, each less prices. In points.
    #[inline]
    pub fn reduced_cost(&self) -> i64
        ensures { result ≡ Spec.reduced_cost self.now }
    {
        self.duty_pay.max(self.trip_rig).max(self.guarantee)
    }
}
