//! What one pass leaves.
ghost use Rattle.std.specs.Prelude.{◌≡◌, ◌<◌, ◌≤◌, ◌≤ℤ◌, ℕ, List, [], get_or, length, true};
ghost use Rattle.std.specs.Arc.{arc_value};
ghost use Rattle.crew_anchor.specs.Stages.{anchored_resource};
ghost use Rattle.crew_pairing.specs.Events.{IsSound};
ghost use Rattle.crew_pairing.specs.declared.duty.Duty.{Duty};
ghost use Rattle.crew_pairing.specs.declared.vector.PairingVector.{PairingVector};
ghost use Rattle.crew_pool.specs.Counted.{AreCounted};
ghost use Rattle.crew_pool.specs.declared.label_walk.LabelWalk.{LabelWalk};
ghost use Rattle.crew_resource.specs.Members.{Member};

use crate::digest::Digest;
use crate::passed::Passed;
use crate::prints::Prints;
use crate::row::Row;
use crew_anchor::AnchoredResource;
use crew_carry::crew_step::Pools;
use crew_flights::Code;
use crew_net::Net;
use crew_pool::{Pool, Walks};
use std::alloc::{AllocError, Global};
use std::marker::Model;
use std::sync::Arc;

/// The pools of a base, one for each departure of its network in order of report.
///
/// A contract sees the network, the base with its price, the walks by place, and the labels of each
/// pool. Labels stand as of a common instant.
pub struct Sweep {
    net: Arc<Net, Global>,
    base: Code,
    price: i64,
    resource: AnchoredResource,
    walks: Walks,
    pools: Row,
    prints: Prints,
}

impl Drop for Sweep {
    fn drop(self) {
        let Self {
            net: _,
            base: _,
            price: _,
            resource: _,
            walks: _,
            pools: _,
            prints: _,
        } = self;
    }
}

impl Model for Sweep {
    ghost use Rattle.crew_sweep.specs.Machinery.Kept.{IsKept};
    ghost use Rattle.crew_sweep.specs.Sweeps.{BaseSweep};

    ghost Value = { BaseSweep };

    ghost view = { λ s. record {
      net = s.net.value;
      base = s.base;
      price = s.price;
      walks = s.walks;
      pools = s.pools;
    } };

    ghost invariant = { λ s. IsKept (record {
      net = s.net.value;
      base = s.base;
      price = s.price;
      walks = s.walks;
      pools = s.pools;
    }) s.resource };
}

impl Sweep {
    ghost use Rattle.crew_anchor.specs.Machinery.Bounds.{fits_in};
    ghost use Rattle.crew_flights.specs.Timetable.{IsBasePrice, IsSound as IsSoundTable, Timetable};
    ghost use Rattle.crew_pairing.specs.Duties.{AreDuties};
    ghost use Rattle.crew_sweep.specs.Machinery.Digests.{IsDigest};
    ghost use Rattle.crew_sweep.specs.Machinery.Grounds.{IsLeft};
    ghost use Rattle.crew_sweep.specs.Machinery.Kept.{AreKept, keyed_pools, sparing_of};
    ghost use Rattle.crew_sweep.specs.Machinery.Numbered.{AreLocal};
    ghost use Rattle.crew_sweep.specs.Machinery.Passing.{AreLabels, passed_network};
    ghost use Rattle.crew_sweep.specs.Sweeps.{ShowsFronts};

    // What a pass over all departures of a base leaves, under the base's own resource.
    pub(crate) fn of(
        net: Arc<Net, Global>,
        base: Code,
        price: i64,
        resource: AnchoredResource,
        passed: Passed,
        prints: Prints,
    ) -> Sweep
        requires price { IsBasePrice price }
        requires resource { resource ≡ anchored_resource (arc_value net).settings price }
        requires fits { (n : ℕ) → n ≤ 100_000 → fits_in resource n }
        requires passed { IsLeft (arc_value net) base resource passed }
        ensures is { result ≡ record {
          net = arc_value net;
          base = base;
          price = price;
          walks = passed.walks;
          pools = passed.pools;
        } }
        ensures right { (t : Timetable) → IsSoundTable t
            → AreDuties (arc_value net).settings t (arc_value net).duties → ShowsFronts t result }
    {
        let _settings = net.settings();
        Sweep {
            net,
            base,
            price,
            resource,
            walks: passed.walks,
            pools: passed.pools,
            prints,
        }
    }

    /// The network.
    pub fn net(&self) -> &Net
        ensures net { result.now ≡ self.now.net }
        ensures sound { (d : Duty) → Member self.now.net.duties d → IsSound d }
    {
        &self.net
    }

    /// The base.
    pub fn base(&self) -> Code
        ensures { result ≡ self.now.base }
    {
        self.base
    }

    /// The resource of the base's labels.
    pub fn resource(&self) -> &AnchoredResource
        ensures { result.now ≡ anchored_resource self.now.net.settings self.now.price }
    {
        &self.resource
    }

    /// The base's price.
    pub fn price(&self) -> i64
        ensures { result ≡ self.now.price }
    {
        self.price
    }

    /// A floor of the duty pay of the labels that the departure's pool has that stands there in order of
    /// report, in points: none is less. It is the least of them, which no clause says, since that is
    /// there for speed.
    pub fn duty_pay_floor(&self, index: usize) -> i64
        requires { index < length self.now.net.by_report }
        ensures { (l : PairingVector × LabelWalk) → Member (get_or self.now.pools index []) l
            → result ≤ℤ l.0.duty_pay }
    {
        self.digest(index).floor
    }

    // The pools of all departures, in order of report.
    pub(crate) fn pools(&self) -> &Pools<AnchoredResource>
        ensures all { result.now ≡ self.now.pools }
        ensures long { length self.now.pools ≡ length self.now.net.by_report }
        ensures local { AreLocal (passed_network self.now.net self.now.base (sparing_of self.now))
            (length self.now.pools) (keyed_pools self.now) }
        ensures spared { (labels : List (PairingVector × LabelWalk))
            → Member self.now.pools labels
            → AreLabels (sparing_of self.now) (length self.now.net.duties) self.now.walks labels }
        ensures whole { (labels : List (PairingVector × LabelWalk))
            → Member self.now.pools labels
            → AreCounted (λ (v : PairingVector). v.duties) self.now.walks true labels }
    {
        self.pools.all()
    }

    /// The walks of the labels.
    pub fn walks(&self) -> &Walks
        ensures { result.now ≡ self.now.walks }
    {
        &self.walks
    }

    /// The pool of the departure that stands there in order of report.
    pub fn pool(&self, index: usize) -> &Pool<AnchoredResource>
        requires { index < length self.now.net.by_report }
        ensures same { result.now ≡ get_or self.now.pools index [] }
        ensures kept { AreKept (anchored_resource self.now.net.settings self.now.price)
            (length self.now.net.duties) self.now.walks result.now }
    {
        self.pools.get(index)
    }

    /// The same pool, to be shared.
    pub(crate) fn shared(&self, index: usize) -> &Arc<Pool<AnchoredResource>, Global>
        requires { index < length self.now.net.by_report }
        ensures same { arc_value result.now ≡ get_or self.now.pools index [] }
        ensures kept { AreKept (anchored_resource self.now.net.settings self.now.price)
            (length self.now.net.duties) self.now.walks (arc_value result.now) }
    {
        self.pools.shared(index)
    }

    /// The number of the arrival at a place, if it is known. No clause says which, since it is there for
    /// speed.
    pub(crate) fn print(&self, place: usize) -> Option<u64> {
        self.prints.at(place)
    }

    /// The digest of the pool of the departure that stands there in order of report.
    pub(crate) fn digest(&self, index: usize) -> Digest
        requires { index < length self.now.net.by_report }
        ensures { IsDigest result (get_or self.now.pools index []) }
    {
        self.pools.digest(index)
    }

    /// How many labels the pools have, those of departures that share one once: their walks stand at the
    /// same places. No clause says so, since it is there for memory's sake.
    pub(crate) fn label_count(&self, alloc: Global) -> Result<usize, AllocError> {
        let mut spans = Vec::with_capacity(alloc, self.pools.len())?;
        for position in 0..self.pools.len() {
            let span = self.pools.digest(position).span;
            spans.push((span.first, span.last, self.pools.get(position).len()))?;
        }
        spans.sort_unstable();
        let mut count: usize = 0;
        let mut last = (0, 0, 0);
        for span in spans {
            if span != last {
                count = count.saturating_add(span.2);
                last = span;
            }
        }
        Ok(count)
    }
}
