//! What a pass leaves.
ghost use Rattle.std.specs.Prelude.{◌≡◌, ◌<◌, ◌++◌, ℕ, List, [], IfOk, OnOk, get_or, length, map};
ghost use Rattle.std.specs.Arc.{arc_value};
ghost use Rattle.crew_label.specs.Tables.{trail_in};
ghost use Rattle.crew_label.specs.Walks.{Leads, walk_of};
ghost use Rattle.crew_label.specs.declared.label.Label.{Label};
ghost use Rattle.crew_pool.specs.Ranks.{key_at};
ghost use Rattle.crew_resource.specs.Members.{Each, Member};
ghost use Rattle.crew_pass.specs.Passes.{AreTold, keyed_entries};

use crew_label::{Label, Link, Pool, Table, Trails};
use crew_net::Net;
use crew_pairing::{Duties, Duty, Key, Walk};
use crew_resource::Resource;
use std::alloc::{AllocError, Global};
use std::marker::Model;
use std::sync::Arc;

/// The fronts of a base's duties, each a shared pool, and the pools of the departures that they
/// leave from. It owns the network and what its labels lead to, so it can be kept, and be shared by
/// threads.
///
/// A contract sees the network, where duties leave, the pools in order of report, and the fronts by
/// rank.
pub struct BaseFronts<R: Resource> {
    net: Arc<Net, Global>,
    table: Table<R>,
    fronts: Vec<Arc<Pool<R>, Global>>,
}

impl<R: Resource> Drop for BaseFronts<R> {
    fn drop(self) {
        let Self {
            net: _,
            table: _,
            fronts: _,
        } = self;
    }
}

impl<R: Resource> Model for BaseFronts<R> {
    ghost use Rattle.std.specs.Prelude.{map};
    ghost use Rattle.std.specs.Arc.{arc_value};
    ghost use Rattle.crew_pass.specs.Passes.{AreTold, BasePass};

    ghost Value = { BasePass R.Value };

    ghost view = { λ f. record {
      net = f.net.value;
      leaves = f.table.leaves;
      pools = f.table.pools;
      fronts = map arc_value f.fronts.items;
    } };

    ghost invariant = { λ f. AreTold (record {
      net = f.net.value;
      leaves = f.table.leaves;
      pools = f.table.pools;
      fronts = map arc_value f.fronts.items;
    }) };
}

impl<R: Resource> BaseFronts<R> {
    // The fronts over a table.
    pub(crate) fn new(
        net: Arc<Net, Global>,
        table: Table<R>,
        fronts: Vec<Arc<Pool<R>, Global>>,
    ) -> Self
        requires { AreTold (record {
          net = arc_value net;
          leaves = table.leaves;
          pools = table.pools;
          fronts = map arc_value fronts.items;
        }) }
        ensures { result ≡ record {
          net = arc_value net;
          leaves = table.leaves;
          pools = table.pools;
          fronts = map arc_value fronts.items;
        } }
    {
        BaseFronts { net, table, fronts }
    }

    /// The network.
    pub fn net(&self) -> &Arc<Net, Global>
        ensures { arc_value result.now ≡ self.now.net }
    {
        &self.net
    }

    /// The pools of departures, in order of report.
    pub fn table(&self) -> &Table<R>
        ensures { result.now ≡ record { leaves = self.now.leaves; pools = self.now.pools } }
    {
        &self.table
    }

    /// The front of the duty of a rank.
    pub fn front(&self, rank: usize) -> &Arc<Pool<R>, Global>
        requires { rank < length self.now.net.duties }
        ensures front { arc_value result.now ≡ get_or self.now.fronts rank [] }
        ensures held { Member self.now.fronts (arc_value result.now) }
        ensures told { AreTold self.now }
    {
        &self.fronts[rank]
    }

    /// The duties of the walk of a front's label, by rank.
    pub fn ranks(&self, alloc: Global, label: &Label<R::Value>) -> Result<Vec<u32>, AllocError>
        requires { (labels : List (Label R.Value)) × Member self.now.fronts labels
            × Member labels label.now }
        ensures { IfOk result (λ ranks. ranks.items
            ≡ walk_of (trail_in self.now.leaves self.now.pools) label.now.before) }
    {
        let mut ranks = Vec::new(alloc);
        push_walk(&self.table, &mut ranks, label.before)?;
        Ok(ranks)
    }

    /// The walk of a front's label.
    pub fn walk(&self, alloc: Global, label: &Label<R::Value>) -> Result<Walk, AllocError>
        requires { (labels : List (Label R.Value)) × Member self.now.fronts labels
            × Member labels label.now }
        ensures { IfOk result (λ walk. walk ≡ map (key_at self.now.net.duties)
            (walk_of (trail_in self.now.leaves self.now.pools) label.now.before)) }
    {
        let ranks = self.ranks(alloc, label)?;
        let keys = keys_of(alloc, self.net.duties(), &ranks)?;
        Ok(Walk::new(keys))
    }

    /// The entries of the front of the duty of a rank: values with their walks.
    pub fn entries(
        &self,
        alloc: Global,
        resource: &R,
        rank: usize,
    ) -> Result<Vec<(R::Value, Walk)>, AllocError>
        requires { rank < length self.now.net.duties }
        ensures { IfOk result (λ entries. entries.items ≡ keyed_entries self.now rank) }
    {
        let mut entries = Vec::new(alloc);
        let front = self.front(rank);
        for label in front.as_slice() {
            let value = resource.copy(&label.value)?;
            let walk = self.walk(alloc, label)?;
            entries.push((value, walk))?;
        }
        Ok(entries)
    }
}

// Puts the walk that ends with a link at the end of a list, duty by duty.
fn push_walk<T: Trails>(
    trails: &T,
    ranks: &mut Vec<u32>,
    link: Option<Link>,
) -> Result<(), AllocError>
    requires { Leads (T.leads trails.now) link }
    ensures { OnOk result (ranks.new.items ≡ ranks.old.items ++ walk_of (T.trail trails.now) link) }
{
    let Some(last) = link else {
        return Ok(());
    };
    push_walk(trails, ranks, trails.before(last))?;
    ranks.push(trails.rank(last))?;
    Ok(())
}

// The keys of the duties of some ranks.
fn keys_of(alloc: Global, duties: &Duties, ranks: &[u32]) -> Result<Vec<Key>, AllocError>
    requires { Each (λ rank. rank < length duties.now) ranks.now }
    ensures { IfOk result (λ keys. keys.items ≡ map (key_at duties.now) ranks.now) }
{
    let mut keys = Vec::with_capacity(alloc, ranks.len())?;
    for rank in ranks {
        keys.push(duties.at(*rank as usize).key.copy())?;
    }
    Ok(keys)
}
