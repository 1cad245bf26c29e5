//! Where duties leave and arrive, by their ranks.
ghost use Rattle.std.specs.Prelude.{◌≡◌, ◌<◌, ℕ, IfOk, get_or, length};
ghost use Rattle.crew_net.specs.Nets.{AreArrivalPlaces};
ghost use Rattle.crew_net.specs.Positions.{ArePositions};
ghost use Rattle.crew_resource.specs.Members.{Member};

use crate::net::Net;
use std::alloc::{AllocError, Global};

/// The place of each duty's arrival among the arrivals of the network, by rank.
pub fn arrival_places(alloc: Global, net: &Net) -> Result<Vec<u32>, AllocError>
    ensures { IfOk result (λ places. AreArrivalPlaces net.now places.items) }
{
    let mut places = vec![in alloc; 0; net.duty_count()]?;
    for arrival in 0..net.arrivals().len() {
        write_at(&mut places, net.arriving(arrival), arrival as u32);
    }
    Ok(places)
}

/// The position of each duty's departure, by rank: its place among all departures of the network,
/// in order of report.
pub fn departure_positions(alloc: Global, net: &Net) -> Result<Vec<u32>, AllocError>
    ensures { IfOk result (λ positions. ArePositions net.now positions.items) }
{
    let mut positions = vec![in alloc; 0; net.duty_count()]?;
    let places = net.by_report();
    for position in 0..net.departures().len() {
        write_at(
            &mut positions,
            net.leaving(places[position] as usize),
            position as u32,
        );
    }
    Ok(positions)
}

/// Writes a place at each of some ranks. What stands at other ranks stays.
pub fn write_at(places: &mut [u32], ranks: &[u32], place: u32)
    requires { (rank : ℕ) → Member ranks.now rank → rank < length places.old }
    ensures long { length places.new ≡ length places.old }
    ensures there { (rank : ℕ) → Member ranks.now rank → get_or places.new rank 0 ≡ place }
    ensures elsewhere { (rank : ℕ) → (Member ranks.now rank → ⊥)
        → get_or places.new rank 0 ≡ get_or places.old rank 0 }
{
    for rank in ranks {
        places[*rank as usize] = place;
    }
}
