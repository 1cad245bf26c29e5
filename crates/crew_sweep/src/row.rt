//! The pools of departures in a row, with what is known of each without going over it.
ghost use Rattle.std.specs.Prelude.{◌≡◌, ◌<◌, ◌∷◌, ◌++◌, [], IfOk, OnErr, OnOk, get_or, length};
ghost use Rattle.std.specs.Arc.{arc_value};
ghost use Rattle.crew_sweep.specs.Machinery.Digests.{IsDigest};

use crate::digest::Digest;
use crew_anchor::AnchoredResource;
use crew_carry::crew_step::Pools;
use crew_pool::Pool;
use std::alloc::{AllocError, Global};
use std::marker::Model;
use std::sync::Arc;

/// The pools of departures in order of report, and the digest of each.
///
/// A contract sees the list of the pools.
pub(crate) struct Row {
    pools: Pools<AnchoredResource>,
    digests: Vec<Digest>,
}

impl Drop for Row {
    fn drop(self) {
        let Self {
            pools: _,
            digests: _,
        } = self;
    }
}

impl Model for Row {
    ghost use Rattle.std.specs.Prelude.{List};
    ghost use Rattle.crew_pairing.specs.declared.vector.PairingVector.{PairingVector};
    ghost use Rattle.crew_pool.specs.declared.label_walk.LabelWalk.{LabelWalk};
    ghost use Rattle.crew_sweep.specs.Machinery.Digests.{AreDigests};

    ghost Value = { List (List (PairingVector × LabelWalk)) };

    ghost view = { λ r. r.pools };

    ghost invariant = { λ r. AreDigests r.digests.items r.pools };
}

impl Row {
    /// None yet, with room for so many.
    pub(crate) fn with_capacity(alloc: Global, count: usize) -> Result<Row, AllocError>
        ensures { IfOk result (λ row. row ≡ []) }
    {
        let pools = Pools::with_capacity(alloc, count)?;
        let digests = Vec::with_capacity(alloc, count)?;
        Ok(Row { pools, digests })
    }

    /// All of them.
    pub(crate) fn all(&self) -> &Pools<AnchoredResource>
        ensures { result.now ≡ self.now }
    {
        &self.pools
    }

    /// How many there are.
    pub(crate) fn len(&self) -> usize
        ensures { result ≡ length self.now }
    {
        self.pools.len()
    }

    /// The pool at a place.
    pub(crate) fn get(&self, place: usize) -> &Pool<AnchoredResource>
        requires { place < length self.now }
        ensures { result.now ≡ get_or self.now place [] }
    {
        self.pools.get(place)
    }

    /// The pool at a place, to be shared.
    pub(crate) fn shared(&self, place: usize) -> &Arc<Pool<AnchoredResource>, Global>
        requires { place < length self.now }
        ensures { arc_value result.now ≡ get_or self.now place [] }
    {
        self.pools.shared(place)
    }

    /// The digest of the pool at a place.
    pub(crate) fn digest(&self, place: usize) -> Digest
        requires { place < length self.now }
        ensures { IsDigest result (get_or self.now place []) }
    {
        self.digests[place]
    }

    /// Puts a pool at the end. On want of memory nothing changes.
    pub(crate) fn push(
        &mut self,
        pool: Arc<Pool<AnchoredResource>, Global>,
    ) -> Result<(), AllocError>
        ensures added { OnOk result (self.new ≡ self.old ++ arc_value pool ∷ []) }
        ensures err { OnErr result (self.new ≡ self.old) }
    {
        let digest = Digest::of(&pool);
        self.push_with(pool, digest)
    }

    /// Puts a pool at the end, whose digest this is. On want of memory nothing changes.
    pub(crate) fn push_with(
        &mut self,
        pool: Arc<Pool<AnchoredResource>, Global>,
        digest: Digest,
    ) -> Result<(), AllocError>
        requires { IsDigest digest (arc_value pool) }
        ensures added { OnOk result (self.new ≡ self.old ++ arc_value pool ∷ []) }
        ensures err { OnErr result (self.new ≡ self.old) }
    {
        self.digests.reserve(1)?;
        self.pools.push(pool)?;
        self.digests.push_reserved(digest);
        Ok(())
    }
}
