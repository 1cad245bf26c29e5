//! Walks of a pass's labels.
ghost use Rattle.std.specs.Prelude.{◌≡◌, length, slice_get};
ghost use Rattle.std.specs.Option.{option_copied};
ghost use Rattle.crew_fronts.specs.Machinery.Lent as Spec;
ghost use Rattle.crew_label.specs.Walks.{Leads, walk_of};

use crew_answers::{LongResource, LongValue};
use crew_label::{Label, Link, Table, Trails};
use crew_pairing::{Duties, Key};
use std::marker::Model;

/// The walk of a label of a pass's fronts, read along its links.
///
/// A contract sees the list of the keys.
#[derive(Drop)]
pub(crate) struct PassedWalk<'a> {
    table: &'a Table<LongResource>,
    duties: &'a Duties,
    label: &'a Label<LongValue>,
}

impl<'a> Model for PassedWalk<'a> {
    ghost use Rattle.std.specs.Prelude.{List};
    ghost use Rattle.crew_fronts.specs.Machinery.Lent.{IsRead, keyed_walk};
    ghost use Rattle.crew_pairing.specs.Legs.{Leg};

    ghost Value = { List (List Leg) };

    ghost view = { λ w. keyed_walk w.table.now w.duties.now w.label.now };

    ghost invariant = { λ w. IsRead w.table.now w.duties.now w.label.now };
}

// The rank that stands at a place of a walk of so many duties, which ends with a link.
fn rank_at<T: Trails>(trails: &T, link: Option<Link>, count: usize, place: usize) -> Option<u32>
    requires leads { Leads (T.leads trails.now) link }
    requires count { count ≡ length (walk_of (T.trail trails.now) link) }
    ensures { result ≡ slice_get (walk_of (T.trail trails.now) link) place }
{
    let last = link?;
    let before = trails.before(last);
    let count = count - 1;
    if place == count {
        Some(trails.rank(last))
    } else {
        rank_at(trails, before, count, place)
    }
}

impl<'a> PassedWalk<'a> {
    // The walk of a label.
    pub(crate) fn new(
        table: &'a Table<LongResource>,
        duties: &'a Duties,
        label: &'a Label<LongValue>,
    ) -> PassedWalk<'a>
        requires { Spec.IsRead table.now duties.now label.now }
        ensures { result ≡ Spec.keyed_walk table.now duties.now label.now }
    {
        PassedWalk {
            table,
            duties,
            label,
        }
    }

    /// How many duties the walk has: its value counts them.
    pub(crate) fn len(&self) -> usize
        ensures { result ≡ length self.now }
    {
        self.label.value.sums.duties as usize
    }

    /// The key of the duty at a place, if there are so many.
    pub(crate) fn key(&self, place: usize) -> Option<&'a Key>
        ensures { option_copied result ≡ slice_get self.now place }
    {
        let rank = rank_at(self.table, self.label.before, self.len(), place)?;
        Some(&self.duties.at(rank as usize).key)
    }
}
