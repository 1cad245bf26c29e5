//! The pools of departures, as a table.
ghost use Rattle.std.specs.Prelude.{◌≡◌, ◌++◌, ◌∷◌, [], ℕ, List, Some, None, length, map, slice_get, ◌<◌, true, MatchOption, OnOk, OnErr};
ghost use Rattle.std.specs.Arc.{arc_value};
ghost use Rattle.crew_resource.specs.Members.{Member};
ghost use Rattle.crew_label.specs.Boarding.{LeadInto};
ghost use Rattle.crew_label.specs.Tables.{AreLinked, Tabled, leads_in, rank_of, trail_in};
ghost use Rattle.crew_label.specs.Walks.{Leads};
ghost use Rattle.crew_label.specs.declared.label.Label.{Label};
ghost use Rattle.crew_label.specs.declared.label.Link.{Link};

use crate::label::Link;
use crate::pool::Pool;
use crate::trails::Trails;
use crew_resource::Resource;
use std::alloc::{AllocError, Global};
use std::marker::Model;
use std::sync::Arc;

/// The pools of departures, in order: each is shared, and leads to labels of earlier ones. The table
/// owns what it stands on, so it can be kept for as long as its labels are of use.
///
/// A contract sees for each duty by number its rank, by rank the departure that it leaves from, and the
/// pools.
pub struct Table<R: Resource> {
    ranks: Arc<Vec<u32>, Global>,
    positions: Arc<Vec<u32>, Global>,
    pools: Vec<Arc<Pool<R>, Global>>,
}

impl<R: Resource> Drop for Table<R> {
    fn drop(self) {
        let Self {
            ranks: _,
            positions: _,
            pools: _,
        } = self;
    }
}

impl<R: Resource> Model for Table<R> {
    ghost Value = { Tabled R.Value };

    ghost view = { λ t. record {
      leaves = record { ranks = t.ranks.value.items; positions = t.positions.value.items };
      pools = map arc_value t.pools.items;
    } };

    ghost invariant = { λ t. AreLinked (record {
      ranks = t.ranks.value.items;
      positions = t.positions.value.items;
    }) [] (map arc_value t.pools.items) };
}

impl<R: Resource> Table<R> {
    /// No pools yet, over duties whose ranks are told by number, and their departures by rank.
    pub fn new(
        alloc: Global,
        ranks: Arc<Vec<u32>, Global>,
        positions: Arc<Vec<u32>, Global>,
    ) -> Self
        ensures { result ≡ record {
          leaves = record { ranks = (arc_value ranks).items; positions = (arc_value positions).items };
          pools = [];
        } }
    {
        Table {
            ranks,
            positions,
            pools: Vec::new(alloc),
        }
    }

    /// How many departures have their pools.
    pub fn len(&self) -> usize
        ensures { result ≡ length self.now.pools }
    {
        self.pools.len()
    }

    /// The pool of a departure.
    pub fn get(&self, departure: usize) -> Option<&Arc<Pool<R>, Global>>
        ensures { MatchOption result (slice_get self.now.pools departure ≡ None)
            (λ pool. slice_get self.now.pools departure ≡ Some (arc_value pool.now)) }
    {
        self.pools.get(departure)
    }

    /// The next departure's pool, whose labels lead to earlier departures.
    ///
    /// What led to a label leads to it still, with the same walk, and the links of the duties that
    /// leave from this departure lead to its labels. On want of memory nothing changes.
    pub fn add(&mut self, pool: Arc<Pool<R>, Global>) -> Result<(), AllocError>
        requires { (l : Label R.Value) → Member (arc_value pool) l
            → Leads (leads_in self.old.leaves self.old.pools) l.before }
        ensures added { OnOk result (self.new ≡ record {
          leaves = self.old.leaves;
          pools = self.old.pools ++ arc_value pool ∷ [];
        }) }
        ensures stays { OnOk result ((link : Link)
            → leads_in self.old.leaves self.old.pools link ≡ true
            → (leads_in self.new.leaves self.new.pools link ≡ true)
            × (trail_in self.new.leaves self.new.pools link
            ≡ trail_in self.old.leaves self.old.pools link)) }
        ensures into { OnOk result ((duty rank : ℕ)
            → slice_get self.old.leaves.ranks duty ≡ Some rank
            → slice_get self.old.leaves.positions rank ≡ Some (length self.old.pools)
            → LeadInto (leads_in self.new.leaves self.new.pools)
            (trail_in self.new.leaves self.new.pools) duty rank (arc_value pool)) }
        ensures err { OnErr result (self.new ≡ self.old) }
    {
        self.pools.push(pool)?;
        Ok(())
    }
}

impl<R: Resource> Trails for Table<R> {
    ghost leads = { λ t link. leads_in t.leaves t.pools link };

    ghost trail = { λ t link. trail_in t.leaves t.pools link };

    ghost rank = { λ t duty. rank_of t.leaves duty };

    fn rank(&self, link: Link) -> u32 {
        self.ranks[link.duty as usize]
    }

    fn before(&self, link: Link) -> Option<Link> {
        let rank = self.rank(link);
        let departure = self.positions[rank as usize];
        before_of(&self.pools[departure as usize], link.place)
    }
}

// What the walk of a pool's label ends with.
fn before_of<R: Resource>(pool: &Pool<R>, place: u32) -> Option<Link>
    requires { place < length pool.now }
    ensures { (l : Label R.Value) → slice_get pool.now place ≡ Some l → result ≡ l.before }
{
    pool.as_slice()[place as usize].before
}
