//! Pools in a row.
ghost use Rattle.std.specs.Prelude.{◌≡◌, ◌<◌, ◌∷◌, ◌++◌, [], IfOk, List, OnErr, OnOk, get_or, length, map};
ghost use Rattle.std.specs.Arc.{arc_value};
ghost use Rattle.crew_pool.specs.declared.label_walk.LabelWalk.{LabelWalk};

use crew_pool::Pool;
use crew_resource::Resource;
use std::alloc::{AllocError, Global};
use std::marker::Model;
use std::sync::Arc;

/// Pools in a row, each behind an `Arc`: other rows may hold it too.
///
/// A contract sees the list of the pools.
pub struct Pools<R: Resource> {
    pools: Vec<Arc<Pool<R>, Global>>,
}

impl<R: Resource> Drop for Pools<R> {
    fn drop(self) {
        let Self { pools: _ } = self;
    }
}

impl<R: Resource> Model for Pools<R> {
    ghost Value = { List (List (R.Value × LabelWalk)) };

    ghost view = { λ p. map arc_value p.pools.items };
}

impl<R: Resource> Pools<R> {
    /// None yet, with room for so many.
    pub fn with_capacity(alloc: Global, count: usize) -> Result<Self, AllocError>
        ensures { IfOk result (λ pools. pools ≡ []) }
    {
        let pools = Vec::with_capacity(alloc, count)?;
        Ok(Pools { pools })
    }

    /// How many there are.
    pub fn len(&self) -> usize
        ensures { result ≡ length self.now }
    {
        self.pools.len()
    }

    /// The pool at a place.
    pub fn get(&self, place: usize) -> &Pool<R>
        requires { place < length self.now }
        ensures { result.now ≡ get_or self.now place [] }
    {
        self.shared(place)
    }

    /// The pool at a place, to be shared.
    pub fn shared(&self, place: usize) -> &Arc<Pool<R>, Global>
        requires { place < length self.now }
        ensures { arc_value result.now ≡ get_or self.now place [] }
    {
        &self.pools[place]
    }

    /// Puts a pool at the end. On want of memory nothing changes.
    pub fn push(&mut self, pool: Arc<Pool<R>, Global>) -> Result<(), AllocError>
        ensures added { OnOk result (self.new ≡ self.old ++ arc_value pool ∷ []) }
        ensures err { OnErr result (self.new ≡ self.old) }
    {
        self.pools.push(pool)?;
        Ok(())
    }
}
