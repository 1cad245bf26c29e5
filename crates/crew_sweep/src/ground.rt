//! What a pass of one base goes by.
ghost use Rattle.std.specs.Prelude.{◌≡◌, ◌≤◌, ◌-◌, ℕ, ℤ};
ghost use Rattle.crew_anchor.specs.Machinery.Bounds.{fits_in};
ghost use Rattle.crew_anchor.specs.Stages.{anchored_resource};
ghost use Rattle.crew_sweep.specs.Machinery.Grounds.{IsGround};
ghost use Rattle.crew_sweep.specs.Sweeps.{IsSweepable};

use crew_anchor::AnchoredResource;
use crew_flights::Code;
use crew_net::Net;

/// A network, the positions of its duties' departures, a base, and the resource of its labels: the
/// base's own, with a duty to spare.
#[derive(Drop)]
pub(crate) struct Ground<'a> {
    pub(crate) net: &'a Net,
    pub(crate) positions: &'a [u32],
    pub(crate) base: Code,
    pub(crate) resource: AnchoredResource,
}

impl<'a> Ground<'a> {
    /// The ground of a base over a network, under the base's own resource.
    pub(crate) fn of(
        net: &'a Net,
        positions: &'a [u32],
        base: Code,
        full: &AnchoredResource,
    ) -> Ground<'a>
        requires sweepable { IsSweepable net.now positions.now }
        requires full { (price : ℤ) × (full.now ≡ anchored_resource net.now.settings price) }
        requires fits { (n : ℕ) → n ≤ 100_000 → fits_in full.now n }
        ensures net { result.net.now ≡ net.now }
        ensures base { result.base ≡ base }
        ensures resource { result.resource ≡ record full.now {
          max_duties = full.now.max_duties - 1;
        } }
        ensures ground { IsGround result }
    {
        let _settings = net.settings();
        let _departures = net.departures();
        let _arrivals = net.arrivals();
        let _places = net.by_report();
        let resource = full.sparing();
        Ground {
            net,
            positions,
            base,
            resource,
        }
    }
}
