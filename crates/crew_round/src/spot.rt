//! Where a node stands.
ghost use Rattle.std.specs.Prelude.{◌≡◌, ◌<◌};
ghost use Rattle.crew_net.specs.Nets.{AreArrivalPlaces};
ghost use Rattle.crew_pairing.specs.declared.duty.Duty.{Duty};
ghost use Rattle.crew_round.specs.Machinery.Lines.{IsSpot};
ghost use Rattle.crew_round.specs.Marks.{node_count};

use crew_net::Net;

/// Where a node stands: its place, that of its base, the rank of its duty, and the place of the
/// duty's arrival.
#[derive(Clone, Copy)]
pub(crate) struct Spot {
    pub(crate) place: usize,
    pub(crate) base: usize,
    pub(crate) rank: usize,
    pub(crate) arrival: usize,
}

/// Where the node of a place stands.
pub(crate) fn spot_at(net: &Net, arrivals: &[u32], place: usize) -> Spot
    requires place { place < node_count net.now }
    requires arrivals { AreArrivalPlaces net.now arrivals.now }
    ensures place { result.place ≡ place }
    ensures spot { (d : Duty) × IsSpot net.now result d }
{
    let count = net.duty_count();
    let rank = place % count;
    Spot {
        place,
        base: place / count,
        rank,
        arrival: arrivals[rank] as usize,
    }
}
