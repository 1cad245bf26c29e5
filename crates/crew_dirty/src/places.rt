//! Where duties leave.
ghost use Rattle.std.specs.Prelude.{◌≡◌, ℕ, IfOk, Some, get_or, length, slice_get};
ghost use Rattle.crew_pairing.specs.Events.{departure_of};
ghost use Rattle.crew_pairing.specs.declared.duty.Duty.{Duty};

use crew_net::{Net, write_at};
use std::alloc::{AllocError, Global};

/// The place of each duty's departure among the departures of the network, by rank.
pub(crate) fn departure_places(alloc: Global, net: &Net) -> Result<Vec<u32>, AllocError>
    ensures long { IfOk result (λ places. length places.items ≡ length net.now.duties) }
    ensures leaves { IfOk result (λ places. (rank : ℕ) (d : Duty)
        → slice_get net.now.duties rank ≡ Some d
        → slice_get net.now.departures (get_or places.items rank 0) ≡ Some (departure_of d)) }
{
    let mut places = vec![in alloc; 0; net.duty_count()]?;
    for departure in 0..net.departures().len() {
        write_at(&mut places, net.leaving(departure), departure as u32);
    }
    Ok(places)
}
