//! A pairing with what it costs.
ghost use Rattle.std.specs.Prelude.{◌≡◌, IfOk};

use crew_flights::Code;
use crew_pairing::Walk;
use std::alloc::{AllocError, Global};

/// A column: a pairing by its path, with its reduced cost, pay and minutes away. Money is in points.
#[derive(Debug, Drop)]
pub struct PricedPairing {
    /// The base that it leaves and comes back to.
    pub base: Code,
    /// The keys of its duties.
    pub walk: Walk,
    /// Its reduced cost: its pay, less the dual prices of the flights that it flies and of its base.
    pub cost: i64,
    /// Its pay.
    pub pay: i64,
    /// The minutes from its first report to its last release.
    pub away: i64,
}

impl PricedPairing {
    /// An equal pairing.
    pub fn copy(&self, alloc: Global) -> Result<PricedPairing, AllocError>
        ensures { IfOk result (λ pairing. pairing ≡ self.now) }
    {
        Ok(PricedPairing {
            base: self.base,
            walk: self.walk.copy(alloc)?,
            cost: self.cost,
            pay: self.pay,
            away: self.away,
        })
    }
}
