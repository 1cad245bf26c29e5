//! What takes the partials that the search finds, one by one: a list, or a running tally.

ghost use Rattle.std.specs.Prelude.{◌≡◌, ◌<◌, ◌≤◌, ℕ, List, [], ◌∷◌, OnOk, length};
ghost use Rattle.crew_audit.specs.declared.partial.Partial.{Partial};
ghost use Rattle.crew_audit.specs.Machinery.Taking.{Took};
ghost use Rattle.crew_audit.specs.Tallies.{IsTally};
ghost use Rattle.crew_audit.specs.Machinery.Listing.{listed};
ghost use Rattle.crew_audit.specs.Machinery.Ranges.{IsInRange};
ghost use Rattle.crew_flights.specs.Timetable.{IsBasePrice};
ghost use Rattle.crew_resource.specs.Members.{Each};
ghost use Rattle.crew_rules.specs.Settings.{IsChecked};

use crate::chain::{is_back, partial_from, vector_of};
use crate::partial::Partial;
use crate::search::Scope;
use crate::tally::Tally;
use crew_pairing::Duty;
use std::alloc::{AllocError, Global};

/// What takes partials.
pub(crate) trait Sink: Drop {
    // how many it has taken
    ghost count: { Self → ℕ };

    // these may be all that it has taken, in order
    ghost holds: { Self → List Partial → Type 0 };

    /// How many it has taken.
    fn taken(&self) -> usize
        ensures { result ≡ count self.now };

    /// Takes these duties, as a partial of a base with its price.
    fn take(&mut self, alloc: Global, scope: &Scope<'_>, duties: &[Duty]) -> Result<(), AllocError>
        requires checked { IsChecked scope.now.settings.now }
        requires price { IsBasePrice scope.now.base_price }
        requires few { length duties.now ≤ 13 }
        requires ranges { Each IsInRange duties.now }
        requires room { count self.old < usize.MAX }
        ensures { OnOk result (Took count holds self.old self.new
            (listed scope.now.settings.now scope.now.base scope.now.base_price duties.now ∷ [])) };
}

impl Sink for Vec<Partial> {
    ghost count = { λ partials. length partials.items };

    ghost holds = { λ partials ps. partials.items ≡ ps };

    fn taken(&self) -> usize {
        self.len()
    }

    fn take(
        &mut self,
        alloc: Global,
        scope: &Scope<'_>,
        duties: &[Duty],
    ) -> Result<(), AllocError> {
        let partial = partial_from(alloc, scope.settings, scope.base, scope.base_price, duties)?;
        self.push(partial)?;
        Ok(())
    }
}

/// A tally of the partials so far.
#[derive(Drop)]
pub(crate) struct Running {
    pub(crate) tally: Tally,
    ghost fewer: { tally.pairings ≤ tally.partials },
}

impl Running {
    /// Of no partials.
    pub(crate) fn new() -> Running
        ensures { IsTally [] result.tally }
    {
        Running {
            tally: Tally {
                partials: 0,
                pairings: 0,
                cost: None,
            },
        }
    }
}

impl Sink for Running {
    ghost count = { λ running. running.tally.partials };

    ghost holds = { λ running ps. IsTally ps running.tally };

    fn taken(&self) -> usize {
        self.tally.partials
    }

    fn take(
        &mut self,
        _alloc: Global,
        scope: &Scope<'_>,
        duties: &[Duty],
    ) -> Result<(), AllocError> {
        let vector = vector_of(scope.settings, scope.base_price, duties);
        let pairing = is_back(scope.base, duties);
        let tally = self.tally.with(pairing, vector.reduced_cost());
        *self = Running { tally };
        Ok(())
    }
}
