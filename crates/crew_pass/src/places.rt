//! The numbers of duties, and where these leave.
ghost use Rattle.std.specs.Prelude.{◌≡◌, IfOk};
ghost use Rattle.std.specs.Arc.{arc_value};
ghost use Rattle.crew_pass.specs.Machinery.Terms.{ArePlaces};

use crew_net::departure_positions;
use crew_numbers::Numbers;
use std::alloc::{AllocError, Global};
use std::sync::Arc;

/// The number of each duty by rank, the rank of each by number, and the position of each duty's
/// departure by rank, which is its place among all departures in order of report.
pub(crate) struct Places {
    pub(crate) numbers: Arc<Vec<u32>, Global>,
    pub(crate) ranks: Arc<Vec<u32>, Global>,
    pub(crate) positions: Arc<Vec<u32>, Global>,
}

impl Drop for Places {
    fn drop(self) {
        let Self {
            numbers: _,
            ranks: _,
            positions: _,
        } = self;
    }
}

impl Places {
    /// The numbers of a network's duties, which are shared, and where these leave.
    pub(crate) fn of(alloc: Global, numbers: &Numbers) -> Result<Places, AllocError>
        ensures { IfOk result (ArePlaces numbers.now.net) }
    {
        let positions = Arc::new(alloc, departure_positions(alloc, numbers.net())?)?;
        let ranks = Arc::try_clone(numbers.ranks())?;
        let numbers = Arc::try_clone(numbers.numbers())?;
        Ok(Places {
            numbers,
            ranks,
            positions,
        })
    }

    /// The same, shared.
    pub(crate) fn shared(&self) -> Result<Places, AllocError>
        ensures numbers { IfOk result (λ p. arc_value p.numbers ≡ arc_value self.now.numbers) }
        ensures ranks { IfOk result (λ p. arc_value p.ranks ≡ arc_value self.now.ranks) }
        ensures positions { IfOk result (λ p. arc_value p.positions
            ≡ arc_value self.now.positions) }
    {
        Ok(Places {
            numbers: Arc::try_clone(&self.numbers)?,
            ranks: Arc::try_clone(&self.ranks)?,
            positions: Arc::try_clone(&self.positions)?,
        })
    }
}
