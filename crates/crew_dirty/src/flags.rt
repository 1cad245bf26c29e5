//! Flags by rank, and marks at arrivals.
ghost use Rattle.std.specs.Prelude.{◌≡◌, ◌≤◌, ◌<◌, ◌⊎◌, ◌&&◌, ◌↔◌, ℕ, IsTrue, false, true, get_or, length};
ghost use Rattle.crew_dirty.specs.Machinery.Marks.{IsClear, IsMarkedBy};
ghost use Rattle.crew_resource.specs.Members.{Member};

use crew_net::Window;

/// The flag at a place, and `false` past the end.
pub(crate) fn flag(flags: &[bool], place: usize) -> bool
    ensures { result ≡ get_or flags.now place false }
{
    if place < flags.len() {
        return flags[place];
    }
    false
}

/// Puts at some ranks the flags of others, or `false` where there is no leave.
pub(crate) fn put_flags(flags: &mut [bool], ranks: &[u32], leave: bool, others: &[bool])
    requires ranks { (rank : ℕ) → Member ranks.now rank → rank < length flags.old }
    requires others { (rank : ℕ) → Member ranks.now rank → rank < length others.now }
    ensures long { length flags.new ≡ length flags.old }
    ensures there { (rank : ℕ) → Member ranks.now rank
        → get_or flags.new rank false ≡ (leave && get_or others.now rank false) }
    ensures elsewhere { (rank : ℕ) → (Member ranks.now rank → ⊥)
        → get_or flags.new rank false ≡ get_or flags.old rank false }
{
    for rank in ranks {
        let own = others[*rank as usize];
        flags[*rank as usize] = leave & own;
    }
}

/// Marks the places of the ranks without a flag.
pub(crate) fn mark(marks: &mut [bool], places: &[u32], ranks: &[u32], flags: &[bool])
    requires ranks { (rank : ℕ) → Member ranks.now rank → rank < length places.now }
    requires places { (rank : ℕ) → Member ranks.now rank
        → get_or places.now rank 0 < length marks.old }
    ensures long { length marks.new ≡ length marks.old }
    ensures kept { (k : ℕ) → get_or marks.old k false ≡ true → get_or marks.new k false ≡ true }
    ensures there { (k : ℕ) → IsMarkedBy ranks.now places.now flags.now k
        → get_or marks.new k false ≡ true }
    ensures from { (k : ℕ) → get_or marks.new k false ≡ true
        → (get_or marks.old k false ≡ true) ⊎ IsMarkedBy ranks.now places.now flags.now k }
{
    for rank in ranks {
        let own = flag(flags, *rank as usize);
        let place = places[*rank as usize] as usize;
        marks[place] = marks[place] | !own;
    }
}

/// Whether no mark stands in a window.
pub(crate) fn is_clear(marks: &[bool], window: Window) -> bool
    requires ordered { window.from ≤ window.end }
    requires within { window.end ≤ length marks.now }
    ensures { IsTrue result ↔ IsClear marks.now window }
{
    for place in window.from..window.end {
        if marks[place] {
            return false;
        }
    }
    true
}
