//! Keys of duties, and walks.
//!
//! A key holds up to eight legs in place, as many as a duty may have, so that making, copying and
//! letting go of a duty asks for no memory. It is made by `of` and `push`: a list would have to be
//! tested, and the searches have a leg at a time.

ghost use Rattle.std.specs.Prelude.{◌≡◌, ◌≤◌, ◌-◌, ◌++◌, ◌∷◌, [], List, IfOk, length, take};
ghost use Rattle.std.proofs.Common.{refl};
ghost use Rattle.std.specs.Ordering.{as_partial_cmp, eq_by_cmp};
ghost use Rattle.std.specs.Cmp.{eq_by_cmp_equiv, partial_equiv_from_equiv, partial_order_from_total};
ghost use Rattle.crew_pairing.specs.Legs.{Leg};
ghost use Rattle.crew_pairing.specs.Keys.{key_cmp, key_total, walk_cmp, walk_total};

use crate::leg::Leg;
use std::alloc::{AllocError, Global};
use std::cmp::Ordering;
use std::marker::Model;

/// The most legs of a key.
const LEGS: usize = 8;

/// The key of a duty: its legs in order, one at least and eight at most.
///
/// A contract sees the list of the legs. Keys compare leg by leg, a proper beginning first.
#[derive(Debug, Drop)]
pub struct Key {
    legs: [Leg; LEGS],
    count: u8,
}

impl Model for Key {
    ghost Value = { List Leg };

    ghost view = { λ key. take key.count key.legs };

    ghost invariant = { λ key. (1 ≤ key.count) × (key.count ≤ 8) };
}

impl Key {
    /// The key of one leg.
    pub fn of(leg: Leg) -> Key
        ensures { result ≡ leg ∷ [] }
    {
        Key {
            legs: [leg; LEGS],
            count: 1,
        }
    }

    /// Appends a leg.
    pub fn push(&mut self, leg: Leg)
        requires { length self.old ≤ 7 }
        ensures { self.new ≡ self.old ++ leg ∷ [] }
    {
        self.legs[self.count as usize] = leg;
        self.count += 1;
    }

    /// Takes the last leg off; one stays.
    pub fn pop(&mut self)
        requires { 2 ≤ length self.old }
        ensures { self.new ≡ take (length self.old - 1) self.old }
    {
        self.count -= 1;
    }

    /// The legs.
    pub fn legs(&self) -> &[Leg]
        ensures { result.now ≡ self.now }
    {
        &self.legs[..self.count as usize]
    }

    /// An equal key.
    pub fn copy(&self) -> Key
        ensures { result ≡ self.now }
    {
        let [a, b, c, d, e, f, g, h] = &self.legs;
        Key {
            legs: [*a, *b, *c, *d, *e, *f, *g, *h],
            count: self.count,
        }
    }
}

impl PartialEq for Key {
    ghost eq = { eq_by_cmp key_cmp };

    ghost laws = { partial_equiv_from_equiv (eq_by_cmp_equiv key_total) };

    fn eq(&self, other: &Key) -> bool {
        self.cmp(other) == Ordering::Equal
    }
}

impl Eq for Key {
    ghost laws = { eq_by_cmp_equiv key_total };
}

impl PartialOrd for Key {
    ghost partial_cmp = { as_partial_cmp key_cmp };

    ghost laws = { partial_order_from_total key_total };

    fn partial_cmp(&self, other: &Key) -> Option<Ordering> {
        Some(self.cmp(other))
    }
}

impl Ord for Key {
    ghost cmp = { key_cmp };

    ghost total = { key_total };

    ghost matches_partial_cmp = { λ a b. refl };

    ghost matches_eq = { λ a b. refl };

    fn cmp(&self, other: &Key) -> Ordering {
        self.legs().cmp(other.legs())
    }
}

/// A walk: the keys of a pairing's duties in order.
///
/// A contract sees the list of the keys. Walks compare key by key, a proper beginning first.
#[derive(Debug, Drop)]
pub struct Walk {
    keys: Vec<Key>,
}

impl Model for Walk {
    ghost Value = { List (List Leg) };

    ghost view = { λ walk. walk.keys.items };
}

impl Walk {
    /// The walk over these keys.
    pub fn new(keys: Vec<Key>) -> Self
        ensures { result ≡ keys.items }
    {
        Walk { keys }
    }

    /// The keys.
    pub fn keys(&self) -> &[Key]
        ensures { result.now ≡ self.now }
    {
        &self.keys
    }

    /// An equal walk.
    pub fn copy(&self, alloc: Global) -> Result<Walk, AllocError>
        ensures { IfOk result (λ walk. walk ≡ self.now) }
    {
        let mut keys = Vec::with_capacity(alloc, self.keys.len())?;
        for key in &self.keys {
            keys.push(key.copy())?;
        }
        Ok(Walk { keys })
    }
}

impl PartialEq for Walk {
    ghost eq = { eq_by_cmp walk_cmp };

    ghost laws = { partial_equiv_from_equiv (eq_by_cmp_equiv walk_total) };

    fn eq(&self, other: &Walk) -> bool {
        self.cmp(other) == Ordering::Equal
    }
}

impl Eq for Walk {
    ghost laws = { eq_by_cmp_equiv walk_total };
}

impl PartialOrd for Walk {
    ghost partial_cmp = { as_partial_cmp walk_cmp };

    ghost laws = { partial_order_from_total walk_total };

    fn partial_cmp(&self, other: &Walk) -> Option<Ordering> {
        Some(self.cmp(other))
    }
}

impl Ord for Walk {
    ghost cmp = { walk_cmp };

    ghost total = { walk_total };

    ghost matches_partial_cmp = { λ a b. refl };

    ghost matches_eq = { λ a b. refl };

    fn cmp(&self, other: &Walk) -> Ordering {
        self.keys.cmp(&other.keys)
    }
}
