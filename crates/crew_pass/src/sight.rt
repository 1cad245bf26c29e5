//! Walks, read from the departures that a thread has seen.
ghost use Rattle.std.specs.Prelude.{◌≡◌, ◌<◌, Some, length, slice_get};
ghost use Rattle.crew_label.specs.Tables.{leads_in, rank_of, trail_in};
ghost use Rattle.crew_label.specs.declared.label.Label.{Label};
ghost use Rattle.crew_pass.specs.Machinery.Seen.{AreSeen};
ghost use Rattle.crew_pass.specs.Machinery.Shelves.{sighted};
ghost use Rattle.crew_pass.specs.Machinery.Terms.{MayPass, terms};

use crate::ground::Ground;
use crate::seen::Seen;
use crate::shelf::Shelf;
use crew_forgetful::Lapses;
use crew_label::{Link, Pool, Trails};
use crew_pairing::Duty;
use crew_resource::Resource;
use std::marker::Model;

/// The departures that a thread has seen, as walks are read from them.
///
/// A contract sees the table of the labelling, and the pools that are seen of it.
pub(crate) struct Sight<'s, 'a, 'r, R: Lapses<Duty>> {
    ground: &'s Ground<'a, 'r, R>,
    departures: &'s Shelf<R>,
}

impl<'s, 'a, 'r, R: Lapses<Duty>> Drop for Sight<'s, 'a, 'r, R> {
    fn drop(self) {
        let Self {
            ground: _,
            departures: _,
        } = self;
    }
}

impl<'s, 'a, 'r, R: Lapses<Duty>> Model for Sight<'s, 'a, 'r, R> {
    ghost use Rattle.crew_pass.specs.Machinery.Shelves.{IsSighted, Sighted, sighted};
    ghost use Rattle.crew_pass.specs.Machinery.Terms.{terms};

    ghost Value = { Sighted R.Value };

    ghost view = { λ s. sighted
        (terms R.Value.cmp R.Lapses R.Staged R.Forgets R.Resource s.ground.now) s.departures.now };

    ghost invariant = { λ s. IsSighted (sighted
        (terms R.Value.cmp R.Lapses R.Staged R.Forgets R.Resource s.ground.now) s.departures.now) };
}

impl<'s, 'a, 'r, R: Lapses<Duty>> Sight<'s, 'a, 'r, R> {
    /// Walks over the departures that are seen.
    pub(crate) fn over(ground: &'s Ground<'a, 'r, R>, seen: &'s Seen<R>) -> Self
        requires may { MayPass
            (terms R.Value.cmp R.Lapses.own R.Staged.own R.Forgets.own R.Resource.own ground.now) }
        requires seen { AreSeen
            (terms R.Value.cmp R.Lapses.own R.Staged.own R.Forgets.own R.Resource.own ground.now)
            seen.now }
        ensures { result ≡ sighted (terms R.Value.cmp R.Lapses.own R.Staged.own R.Forgets.own
            R.Resource.own ground.now) seen.now.departures }
    {
        let departures = &seen.departures;
        Sight { ground, departures }
    }
}

impl<'s, 'a, 'r, R: Lapses<Duty>> Trails for Sight<'s, 'a, 'r, R> {
    ghost leads = { λ s link. leads_in s.table.leaves s.seen link };

    ghost trail = { λ s link. trail_in s.table.leaves s.table.pools link };

    ghost rank = { λ s duty. rank_of s.table.leaves duty };

    fn rank(&self, link: Link) -> u32 {
        self.ground.ranks[link.duty as usize]
    }

    fn before(&self, link: Link) -> Option<Link> {
        let rank = self.ground.ranks[link.duty as usize];
        let position = self.ground.positions[rank as usize];
        let Some(pool) = self.departures.get(position as usize) else {
            unreachable!();
        };
        before_of(pool, link.place)
    }
}

// What the walk of a pool's label ends with.
fn before_of<R: Resource>(pool: &Pool<R>, place: u32) -> Option<Link>
    requires { place < length pool.now }
    ensures { (l : Label R.Value) → slice_get pool.now place ≡ Some l → result ≡ l.before }
{
    pool.as_slice()[place as usize].before
}
