//! What an audit counts.

ghost use Rattle.std.specs.Prelude.{◌≡◌, ◌<◌, ◌≤◌, ◌+◌, if◌then◌else◌};
ghost use Rattle.crew_audit.specs.Tallies.{IsTally, cost_in, least_with};
ghost use Rattle.crew_audit.specs.declared.partial.Partial.{Partial as Counted};

use crate::partial::Partial;

/// How many partial pairings there are, how many of them are pairings, and the least reduced cost of a
/// pairing, in points.
#[derive(Clone, Copy, Debug, PartialEq, Eq)]
pub struct Tally {
    /// The partial pairings.
    pub partials: usize,
    /// Those that come back to their base.
    pub pairings: usize,
    /// The least cost of a pairing, and none where there is no pairing.
    pub cost: Option<i64>,
}

impl Partial {
    /// Its cost: the greatest of the first three parts of its vector.
    pub fn cost(&self) -> i64
        ensures { result ≡ cost_in self.now }
    {
        self.vector.reduced_cost()
    }
}

// The least cost so far, and with one partial more, which may be a pairing, of this cost.
fn least(cost: Option<i64>, pairing: bool, own: i64) -> Option<i64>
    ensures { (p : Counted) → p.pairing ≡ pairing → cost_in p ≡ own → result ≡ least_with cost p }
{
    if !pairing {
        return cost;
    }
    match cost {
        Some(least) => Some(least.min(own)),
        None => Some(own),
    }
}

impl Tally {
    /// What is counted with one partial more, which may be a pairing, of this cost.
    pub(crate) fn with(&self, pairing: bool, cost: i64) -> Tally
        requires room { self.now.partials < usize.MAX }
        requires fewer { self.now.pairings ≤ self.now.partials }
        ensures partials { result.partials ≡ self.now.partials + 1 }
        ensures pairings { result.pairings ≡ self.now.pairings + (if pairing then 1 else 0) }
        ensures cost { (p : Counted) → p.pairing ≡ pairing → cost_in p ≡ cost
            → result.cost ≡ least_with self.now.cost p }
    {
        Tally {
            partials: self.partials + 1,
            pairings: self.pairings + usize::from(pairing),
            cost: least(self.cost, pairing, cost),
        }
    }

    /// What these partials come to.
    pub fn of(partials: &[Partial]) -> Tally
        ensures { IsTally partials.now result }
    {
        let mut cost = None;
        for partial in partials {
            cost = least(cost, partial.pairing, partial.cost());
        }
        Tally {
            partials: partials.len(),
            pairings: partials.iter().filter(|partial| partial.pairing).count(),
            cost,
        }
    }
}
