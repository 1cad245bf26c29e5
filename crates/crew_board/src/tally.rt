//! What became of the results of a lot.
ghost use Rattle.std.specs.Prelude.{◌≡◌, ◌+◌, ◌<◌, ◌∷◌, [], map};
ghost use Rattle.crew_board.specs.Lots.{counted, freed_of, tally_of};
ghost use Rattle.crew_machine.specs.declared.rounds.Brought.TheVariants.{Stale};

use crew_job::DoneLot;
use crew_machine::Brought;

/// What became of the results of a lot: how many came to what.
#[derive(Clone, Copy, Debug, PartialEq, Eq)]
pub struct Tally {
    /// Those that were stored.
    pub stored: usize,
    /// Those whose nodes were done before.
    pub again: usize,
    /// Those that are no node's own now.
    pub stale: usize,
}

/// The tally of no results.
pub(crate) fn none_counted() -> Tally
    ensures { result ≡ tally_of [] }
{
    Tally {
        stored: 0,
        again: 0,
        stale: 0,
    }
}

/// A tally with one result more.
pub(crate) fn count(brought: Brought, tally: Tally) -> Tally
    requires { tally.stored + tally.again + tally.stale < 18_446_744_073_709_551_615 }
    ensures { result ≡ counted brought tally }
{
    match brought {
        Brought::Stored => Tally {
            stored: tally.stored + 1,
            ..tally
        },
        Brought::Again => Tally {
            again: tally.again + 1,
            ..tally
        },
        Brought::Stale => Tally {
            stale: tally.stale + 1,
            ..tally
        },
    }
}

/// A count with one more, where it is told to.
pub(crate) fn count_if(told: bool, count: usize) -> usize
    requires { count < 18_446_744_073_709_551_615 }
    ensures { result ≡ count + freed_of (told ∷ []) }
{
    if told { count + 1 } else { count }
}

/// The tally of results that are no node's own.
pub(crate) fn all_stale(done: &DoneLot) -> Tally
    ensures { result ≡ tally_of (map (λ job. Stale) done.now) }
{
    Tally {
        stored: 0,
        again: 0,
        stale: done.len(),
    }
}
