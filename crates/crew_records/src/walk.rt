//! Walks that records name, in place: so reading a record asks for no memory.
ghost use Rattle.std.specs.Prelude.{◌≡◌, ◌≤◌, ◌++◌, ◌∷◌, [], length};

use crew_pairing::Key;
use std::marker::Model;

/// The most duties of a walk that a record names.
const DUTIES: usize = 12;

/// A walk of one to twelve duties, in place.
///
/// A contract sees the list of the keys.
#[derive(Drop)]
pub struct ShortWalk {
    keys: [Key; DUTIES],
    count: u8,
}

impl Model for ShortWalk {
    ghost use Rattle.std.specs.Prelude.{◌≤◌, List, take};
    ghost use Rattle.crew_pairing.specs.Legs.{Leg};

    ghost Value = { List (List Leg) };

    ghost view = { λ walk. take walk.count walk.keys };

    ghost invariant = { λ walk. (1 ≤ walk.count) × (walk.count ≤ 12) };
}

impl ShortWalk {
    /// The walk of one duty, which fills the places that are not in use.
    pub fn of(key: &Key) -> ShortWalk
        ensures { result ≡ key.now ∷ [] }
    {
        ShortWalk {
            keys: [
                key.copy(),
                key.copy(),
                key.copy(),
                key.copy(),
                key.copy(),
                key.copy(),
                key.copy(),
                key.copy(),
                key.copy(),
                key.copy(),
                key.copy(),
                key.copy(),
            ],
            count: 1,
        }
    }

    /// Appends a duty.
    pub fn push(&mut self, key: Key)
        requires { length self.old ≤ 11 }
        ensures { self.new ≡ self.old ++ key ∷ [] }
    {
        self.keys[self.count as usize] = key;
        self.count += 1;
    }

    /// The keys of the duties.
    pub fn keys(&self) -> &[Key]
        ensures value { result.now ≡ self.now }
        ensures few { length result.now ≤ 12 }
    {
        &self.keys[..self.count as usize]
    }
}
