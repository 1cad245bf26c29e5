//! Walks that share their beginnings.
ghost use Rattle.std.specs.Prelude.{◌≡◌, ◌<◌, ℕ, List, [], ◌∷◌, ◌++◌, length, get_or, OnOk, OnErr, IfOk, IfSome, IsNone};
ghost use Rattle.std.specs.Cmp.Lexicographic.{slice_cmp};
ghost use Rattle.std.specs.Ordering.{nat_cmp};
ghost use Rattle.crew_pool.specs.Arena.{walk_at};
ghost use Rattle.crew_pool.specs.Machinery.ArenaLinks.{all_walks, AreLinked};
ghost use Rattle.crew_pool.specs.LabelWalks.{duty_of, walk_of_label};
ghost use Rattle.crew_pool.specs.Renumbered.{walks_under};

use crate::label_walk::{LabelWalk, NO_DUTY};
use crate::links::{Link, Links};
use std::alloc::{AllocError, Global};
use std::cmp::Ordering;
use std::marker::Model;

// The most walks with a duty, so that a place is a u32.
const MOST: usize = 0xffff_ffff;

/// Paths (walks) over duties by rank, each a duty longer than one that stands before it.
///
/// A contract sees the list of the walks, by place. The walk at place 0 has no duty.
pub struct Walks {
    links: Links,
}

impl Drop for Walks {
    fn drop(self) {
        let Self { links: _ } = self;
    }
}

impl Model for Walks {
    ghost Value = { List (List ℕ) };

    ghost view = { λ w. all_walks w.links };

    ghost invariant = { λ w. AreLinked 0 w.links };
}

impl Walks {
    /// The walk of no duty alone.
    pub fn new(alloc: Global) -> Self
        ensures { result ≡ [] ∷ [] }
    {
        Walks {
            links: Links::new(alloc),
        }
    }

    /// Adds the walk at a place with one duty more, and gives its place.
    ///
    /// On want of memory, or where there are 2^32 walks, nothing changes.
    pub fn add(&mut self, before: u32, duty: u32) -> Result<u32, AllocError>
        requires { before < length self.old }
        ensures ok { IfOk result (λ place. place ≡ length self.old) }
        ensures added { OnOk result (self.new ≡ self.old
            ++ (walk_at self.old before ++ duty ∷ []) ∷ []) }
        ensures err { OnErr result (self.new ≡ self.old) }
    {
        let count = self.links.len();
        if count >= MOST {
            return Err(AllocError);
        }
        self.links.push(Link { before, duty })?;
        Ok(count as u32 + 1)
    }

    /// The place of the walk of no duty.
    pub fn empty_walk(&self) -> u32
        ensures there { result < length self.now }
        ensures empty { walk_at self.now result ≡ [] }
    {
        let _links = &self.links;
        0
    }

    /// How many walks there are.
    pub fn count(&self) -> usize
        ensures { result ≡ length self.now }
    {
        self.links.len() + 1
    }

    /// The place of the walk before the one at a place, and the duty that comes after it there;
    /// `None` for the walk of no duty.
    pub fn last(&self, place: u32) -> Option<(u32, u32)>
        requires { place < length self.now }
        ensures none { IsNone result → walk_at self.now place ≡ [] }
        ensures some { IfSome result (λ l. (l.0 < place)
            × (walk_at self.now place ≡ walk_at self.now l.0 ++ l.1 ∷ [])) }
    {
        let links = &self.links;
        if place == 0 {
            return None;
        }
        let link = links.at(place as usize - 1);
        Some((link.before, link.duty))
    }

    /// The same walks, so that `under` can share them.
    pub fn share(self, alloc: Global) -> Result<Walks, AllocError>
        ensures { IfOk result (λ walks. walks ≡ self) }
    {
        let Walks { links } = self;
        let links = links.share(alloc)?;
        Ok(Walks { links })
    }

    /// The same walks at the same places, each duty by the rank of its twin, or by its own where it has
    /// none. Walks that are shared take no memory anew.
    pub fn under(&self, alloc: Global, twins: &[Option<u32>]) -> Result<Walks, AllocError>
        ensures { IfOk result (λ walks. walks ≡ walks_under twins.now self.now) }
    {
        let links = self.links.under(alloc, twins)?;
        Ok(Walks { links })
    }

    /// Compares the walks of two places, duty by duty, by rank.
    pub fn compare(&self, a: u32, b: u32) -> Ordering
        requires a { a < length self.now }
        requires b { b < length self.now }
        requires same { length (walk_at self.now a) ≡ length (walk_at self.now b) }
        ensures { result ≡ slice_cmp nat_cmp (walk_at self.now a) (walk_at self.now b) }
    {
        compare_links(&self.links, a, b)
    }

    /// The walk of a label, by rank, from its first duty on.
    pub fn ranks(&self, alloc: Global, label: LabelWalk) -> Result<Vec<u32>, AllocError>
        requires { label.walk < length self.now }
        ensures { IfOk result (λ ranks. ranks.items ≡ walk_of_label self.now label) }
    {
        ranks_of(alloc, &self.links, label)
    }
}

// Compares two walks from their last duties back to where they meet.
fn compare_links(links: &Links, a: u32, b: u32) -> Ordering
    requires linked { AreLinked 0 links.now }
    requires a { a < length (all_walks links.now) }
    requires b { b < length (all_walks links.now) }
    requires same { length (walk_at (all_walks links.now) a)
        ≡ length (walk_at (all_walks links.now) b) }
    ensures { result ≡ slice_cmp nat_cmp (walk_at (all_walks links.now) a)
        (walk_at (all_walks links.now) b) }
{
    let mut x = a;
    let mut y = b;
    let mut order = Ordering::Equal;
    while x != y {
        let p = links.at(x as usize - 1);
        let q = links.at(y as usize - 1);
        order = p.duty.cmp(&q.duty).then(order);
        x = p.before;
        y = q.before;
    }
    order
}

// The walk of a label: from its last duty back, and then turned round.
fn ranks_of(alloc: Global, links: &Links, label: LabelWalk) -> Result<Vec<u32>, AllocError>
    requires linked { AreLinked 0 links.now }
    requires walk { label.walk < length (all_walks links.now) }
    ensures { IfOk result (λ ranks. ranks.items ≡ walk_of_label (all_walks links.now) label) }
{
    let mut ranks = last_of(alloc, label.duty)?;
    let mut place = label.walk;
    while place != 0 {
        let link = links.at(place as usize - 1);
        ranks.push(link.duty)?;
        place = link.before;
    }
    ranks.reverse();
    Ok(ranks)
}

// The duty after a walk, if there is one.
fn last_of(alloc: Global, duty: u32) -> Result<Vec<u32>, AllocError>
    ensures { IfOk result (λ ranks. ranks.items ≡ duty_of duty) }
{
    let mut ranks = Vec::new(alloc);
    if duty != NO_DUTY {
        ranks.push(duty)?;
    }
    Ok(ranks)
}
