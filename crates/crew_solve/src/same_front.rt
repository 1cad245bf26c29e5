//! Whether two lent fronts are one.
//!
//! Each entry of the one is looked for among the labels of the other from where the one before it
//! was found: so fronts whose labels stand alike are gone over once, and the first that isn't found
//! ends it.
ghost use Rattle.std.specs.Prelude.{◌≡◌, ◌↔◌, IsTrue, List};
ghost use Rattle.crew_pairing.specs.Legs.{Leg};
ghost use Rattle.crew_pairing.specs.declared.vector.PairingVector.{PairingVector as Vector};
ghost use Rattle.crew_resource.specs.Members.{Member};
ghost use Rattle.crew_vector.specs.Fronts.{RiseByVector};

use crate::front_view::FrontView;
use crate::lookup::{Entry, Lookup};

// Whether an entry is one of a front's: it is looked for among the labels that are left, and where it
// is none of them among all.
fn has_entry<'a>(front: &FrontView<'a>, left: &mut Lookup<'a>, wanted: &Entry<'_>) -> bool
    requires { (e : Vector × List (List Leg)) → Member left.old e → Member front.now e }
    ensures found { IsTrue result ↔ Member front.now wanted.now }
    ensures left { (e : Vector × List (List Leg)) → Member left.new e → Member front.now e }
{
    if left.pass(wanted) {
        return true;
    }
    *left = front.lookup();
    left.pass(wanted)
}

// Whether each entry of a front is one of another's. Each is looked for from where the one before it
// was found, so labels that stand alike are gone over once.
fn are_entries_of(one: &FrontView<'_>, other: &FrontView<'_>) -> bool
    ensures all { IsTrue result
        ↔ ((e : Vector × List (List Leg)) → Member one.now e → Member other.now e) }
    ensures one { RiseByVector one.now }
    ensures other { RiseByVector other.now }
{
    let mut left = other.lookup();
    for entry in one.shown() {
        if !has_entry(other, &mut left, &entry) {
            return false;
        }
    }
    true
}

impl FrontView<'_> {
    /// Whether another front has the same entries: each vector with its walk. It takes no memory,
    /// and where the labels of both stand alike it goes over them once.
    pub fn is_same(&self, other: &FrontView<'_>) -> bool
        ensures { IsTrue result ↔ (self.now ≡ other.now) }
    {
        self.len() == other.len() && are_entries_of(self, other)
    }
}
