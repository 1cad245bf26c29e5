//! What the layers of duties are worked out by.
ghost use Rattle.std.specs.Prelude.{◌≡◌, ◌≤◌, ◌<◌, ◌⊎◌, ℕ, get_or, length};
ghost use Rattle.crew_net.specs.Machinery.Raised.{IsRaised, StandsIn};
ghost use Rattle.crew_resource.specs.Members.{Member};

use crate::window::Window;

/// The greatest of the numbers in a window, and 0 where there are none.
pub(crate) fn greatest(numbers: &[u32], window: Window) -> u32
    requires ordered { window.from ≤ window.end }
    requires within { window.end ≤ length numbers.now }
    ensures most { (k : ℕ) → window.from ≤ k → k < window.end → get_or numbers.now k 0 ≤ result }
    ensures tied { (result ≡ 0) ⊎ StandsIn numbers.now window result }
{
    let numbers = &numbers[window.from..window.end];
    numbers.iter().copied().max().unwrap_or(0)
}

/// Raises what stands at the places of some ranks to a layer at least.
pub(crate) fn raise(next: &mut [u32], places: &[u32], ranks: &[u32], layer: u32)
    requires ranks { (rank : ℕ) → Member ranks.now rank → rank < length places.now }
    requires places { (rank : ℕ) → Member ranks.now rank
        → get_or places.now rank 0 < length next.old }
    ensures long { length next.new ≡ length next.old }
    ensures kept { (k : ℕ) → get_or next.old k 0 ≤ get_or next.new k 0 }
    ensures there { (rank : ℕ) → Member ranks.now rank
        → layer ≤ get_or next.new (get_or places.now rank 0) 0 }
    ensures from { (k : ℕ) → (get_or next.new k 0 ≡ get_or next.old k 0)
        ⊎ IsRaised ranks.now places.now layer k (get_or next.new k 0) }
{
    for rank in ranks {
        let place = places[*rank as usize] as usize;
        next[place] = next[place].max(layer);
    }
}
