//! The least of many pairings.

ghost use Rattle.std.specs.Prelude.{◌≡◌, ◌≤ℤ◌, ◌≤◌, ◌++◌, ◌∷◌, IfOk, List, OnErr, OnOk, Option, [], false, length, slice_get};
ghost use Rattle.std.proofs.Common.{refl};
ghost use Rattle.std.specs.Ordering.{as_partial_cmp, eq_by_cmp};
ghost use Rattle.std.specs.Cmp.{eq_by_cmp_equiv, partial_equiv_from_equiv, partial_order_from_total};
ghost use Rattle.crew_pairing.specs.Legs.{Leg};
ghost use Rattle.crew_solve.specs.Cheapest.{pairing_cmp, pairing_total};
ghost use Rattle.crew_solve.specs.Machinery.Floors.{may_begin};
ghost use Rattle.crew_solve.specs.Machinery.Keeps.{IsBound};
ghost use Rattle.crew_solve.specs.Machinery.Takes.{Taken as TakenOf};
ghost use Rattle.crew_vector.specs.declared.priced.PricedPairing.{PricedPairing as PairingOf};

use crate::taken::Taken;
use crate::walk_view::WalkView;
use crew_pairing::Key;
use crew_vector::PricedPairing;
use std::alloc::{AllocError, Global};
use std::cmp::Ordering;
use std::collections::BTreeSet;
use std::marker::Model;

// A pairing, which compares by cost and then by walk.
#[derive(Drop)]
struct ByCost {
    pairing: PricedPairing,
}

impl Model for ByCost {
    ghost Value = { PairingOf };

    ghost view = { λ b. b.pairing };
}

impl PartialEq for ByCost {
    ghost eq = { eq_by_cmp pairing_cmp };

    ghost laws = { partial_equiv_from_equiv (eq_by_cmp_equiv pairing_total) };

    fn eq(&self, other: &ByCost) -> bool {
        self.cmp(other) == Ordering::Equal
    }
}

impl Eq for ByCost {
    ghost laws = { eq_by_cmp_equiv pairing_total };
}

impl PartialOrd for ByCost {
    ghost partial_cmp = { as_partial_cmp pairing_cmp };

    ghost laws = { partial_order_from_total pairing_total };

    fn partial_cmp(&self, other: &ByCost) -> Option<Ordering> {
        Some(self.cmp(other))
    }
}

impl Ord for ByCost {
    ghost cmp = { pairing_cmp };

    ghost total = { pairing_total };

    ghost matches_partial_cmp = { λ a b. refl };

    ghost matches_eq = { λ a b. refl };

    fn cmp(&self, other: &ByCost) -> Ordering {
        let (pairing, other) = (&self.pairing, &other.pairing);
        pairing
            .cost
            .cmp(&other.cost)
            .then(pairing.walk.cmp(&other.walk))
    }
}

// The pairings of a set in order.
fn in_order(alloc: Global, kept: BTreeSet<ByCost>) -> Result<Vec<PricedPairing>, AllocError>
    ensures { IfOk result (λ pairings. pairings.items ≡ kept.keys) }
{
    let mut pairings = Vec::with_capacity(alloc, kept.len())?;
    for held in kept {
        pairings.push(held.pairing)?;
    }
    Ok(pairings)
}

// The cost of the last of so many; `None` where they are fewer.
fn bound_of(pairings: &BTreeSet<ByCost>, limit: usize) -> Option<i64>
    requires { length pairings.now.keys ≤ limit }
    ensures { (beside : Option TakenOf) → IsBound result
        (record { limit = limit; beside = beside; pairings = pairings.now.keys }) }
{
    if pairings.len() < limit {
        return None;
    }
    match pairings.last() {
        None => Some(i64::MIN),
        Some(last) => Some(last.pairing.cost),
    }
}

/// The least of the pairings so far by cost and walk, up to a limit: of all, or of those alone that
/// may be taken beside others.
///
/// A contract sees the limit, those that are taken already, and the pairings in order.
pub struct CheapestSoFar {
    limit: usize,
    beside: Option<Taken>,
    pairings: BTreeSet<ByCost>,
    bound: Option<i64>,
}

impl Drop for CheapestSoFar {
    fn drop(self) {
        let Self {
            limit: _,
            beside: _,
            pairings: _,
            bound: _,
        } = self;
    }
}

impl Model for CheapestSoFar {
    ghost use Rattle.std.specs.Prelude.{◌≤◌, length};
    ghost use Rattle.crew_solve.specs.Machinery.Keeps as Spec;

    ghost Value = { Spec.CheapestSoFar };

    ghost view = { λ k. record {
      limit = k.limit;
      beside = k.beside;
      pairings = k.pairings.keys;
    } };

    ghost invariant = { λ k. (length k.pairings.keys ≤ k.limit) × Spec.IsBound k.bound
        (record { limit = k.limit; beside = k.beside; pairings = k.pairings.keys }) };
}

impl CheapestSoFar {
    ghost use Rattle.crew_solve.specs.Machinery.Keeps as Spec;

    /// None yet, of so many at most. It takes no memory.
    pub fn new(alloc: Global, limit: usize) -> Self
        ensures { result ≡ Spec.nothing limit }
    {
        let pairings = BTreeSet::new(alloc);
        let bound = bound_of(&pairings, limit);
        CheapestSoFar {
            limit,
            beside: None,
            pairings,
            bound,
        }
    }

    /// None yet, of so many that may be taken beside these.
    pub(crate) fn beside(alloc: Global, limit: usize, taken: Taken) -> Self
        ensures { result ≡ Spec.nothing_beside limit taken }
    {
        CheapestSoFar {
            limit,
            beside: Some(taken),
            pairings: BTreeSet::new(alloc),
            bound: None,
        }
    }

    // Whether a pairing is among those that are asked for.
    fn is_wanted(&self, alloc: Global, pairing: &PricedPairing) -> Result<bool, AllocError>
        ensures { IfOk result (λ wanted. wanted ≡ Spec.is_wanted self.now.beside pairing.now) }
    {
        match &self.beside {
            None => Ok(true),
            Some(taken) => taken.may_take(alloc, pairing),
        }
    }

    /// Whether a pairing that costs this or more may be among the least. `false` only where to take it
    /// in would change nothing. It takes no memory.
    pub fn wants(&self, cost: i64) -> bool
        ensures { result ≡ false → (p : PairingOf) → cost ≤ℤ p.cost
            → Spec.keep self.now p ≡ self.now }
    {
        match self.bound {
            None => true,
            Some(bound) => cost <= bound,
        }
    }

    /// Whether all pairings are asked for, and not those alone that may be taken beside others. No clause
    /// says so, since it is there for speed.
    pub(crate) fn asks_for_all(&self) -> bool {
        self.beside.is_none()
    }

    /// Whether pairings that begin with a walk may be among those that are asked for. It takes no
    /// memory.
    pub(crate) fn may_begin(&self, walk: &WalkView<'_>) -> bool
        ensures { result ≡ may_begin self.now.beside walk.now }
    {
        match &self.beside {
            None => true,
            Some(taken) => taken.may_begin(walk),
        }
    }

    /// Whether a pairing that ends with the duty of a key may be among those that are asked for.
    pub(crate) fn may_end(&self, key: &Key) -> bool
        ensures { result ≡ false → (p : PairingOf) (before : List (List Leg))
            → p.walk ≡ before ++ key.now ∷ [] → Spec.is_wanted self.now.beside p ≡ false }
    {
        match &self.beside {
            None => true,
            Some(taken) => taken.may_end(key),
        }
    }

    /// Whether a pairing of this cost and walk may be among those that are asked for. It takes no
    /// memory.
    pub(crate) fn may_pass(&self, cost: i64, walk: &WalkView<'_>) -> bool
        ensures { result ≡ false → (p : PairingOf) → p.cost ≡ cost → p.walk ≡ walk.now
            → Spec.is_wanted self.now.beside p ≡ false }
    {
        match &self.beside {
            None => true,
            Some(taken) => taken.may_pass(cost, walk),
        }
    }

    // Takes a pairing in; where there are then more than the limit, the greatest goes. On want of memory
    // nothing changes.
    fn put(&mut self, pairing: PricedPairing) -> Result<(), AllocError>
        ensures kept { OnOk result (self.new ≡ Spec.put self.old pairing) }
        ensures same { OnErr result (self.new ≡ self.old) }
    {
        self.pairings.insert(ByCost { pairing })?;
        if self.pairings.len() > self.limit {
            self.pairings.pop_last();
        }
        self.bound = bound_of(&self.pairings, self.limit);
        Ok(())
    }

    /// Takes a pairing in that is asked for; where there are then more than the limit, the greatest
    /// goes. One that is not asked for, or is there already, changes nothing. `AllocError` on want of
    /// memory: then nothing changes either, and the pairing is let go.
    pub fn keep(&mut self, alloc: Global, pairing: PricedPairing) -> Result<(), AllocError>
        ensures kept { OnOk result (self.new ≡ Spec.keep self.old pairing) }
        ensures same { OnErr result (self.new ≡ self.old) }
    {
        let wanted = self.is_wanted(alloc, &pairing)?;
        if wanted {
            self.put(pairing)?;
        }
        Ok(())
    }

    /// The least, if there is one. It takes no memory.
    pub fn into_first(self) -> Option<PricedPairing>
        ensures { result ≡ slice_get self.pairings 0 }
    {
        let Self {
            limit: _,
            beside: _,
            mut pairings,
            bound: _,
        } = self;
        match pairings.pop_first() {
            None => None,
            Some(first) => Some(first.pairing),
        }
    }

    /// The pairings by cost and walk, the least first, and no more than the limit. `AllocError` on want
    /// of memory for the list.
    pub fn into_vec(self, alloc: Global) -> Result<Vec<PricedPairing>, AllocError>
        ensures { IfOk result (λ pairings. pairings.items ≡ self.pairings) }
    {
        let Self {
            limit: _,
            beside: _,
            pairings,
            bound: _,
        } = self;
        in_order(alloc, pairings)
    }

    /// Those that were taken already, and the pairings in order.
    pub(crate) fn into_parts(
        self,
        alloc: Global,
    ) -> Result<(Option<Taken>, Vec<PricedPairing>), AllocError>
        ensures beside { IfOk result (λ parts. parts.0 ≡ self.beside) }
        ensures pairings { IfOk result (λ parts. parts.1.items ≡ self.pairings) }
    {
        let Self {
            limit: _,
            beside,
            pairings,
            bound: _,
        } = self;
        let pairings = in_order(alloc, pairings)?;
        Ok((beside, pairings))
    }
}
