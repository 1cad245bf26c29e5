//! Links that lists of walks may share.
//!
//! A link has a duty by its rank, and ranks change with each flight that comes or goes, so a list
//! can't have another's links as they stand. What it has of its own is what has become of the
//! ranks, 4 bytes a duty in place of 8 a walk, and nothing where none has changed. What a pass adds
//! stands behind; once that comes to half of what is shared the pass ends by joining the two. So a
//! walk is read from two lists at most, and a chain of edits copies a list once in many settles.
ghost use Rattle.std.specs.Prelude.{◌≡◌, ◌<◌, ◌≤◌, ◌∷◌, ◌++◌, [], ℕ, List, IfOk, OnErr, OnOk, Some, length, map, slice_get, true};
ghost use Rattle.crew_pool.specs.Machinery.Links.{begun, link_under, rank_now};
ghost use Rattle.crew_pool.specs.Renumbered.{rank_under};

use std::alloc::{AllocError, Global};
use std::marker::Model;
use std::sync::Arc;

// So many links or more grow by a quarter.
const MANY: usize = 8_192;

// Links behind a beginning are fewer than it has, divided by this.
const PART: usize = 2;

/// A walk's last duty, and the place of the walk before it.
#[derive(Clone, Copy)]
pub(crate) struct Link {
    pub(crate) before: u32,
    pub(crate) duty: u32,
}

// Links that others may have, too. `ranks` has what has become of the ranks of their duties; where it has
// nothing, a rank has stayed.
//
// A contract sees the links, with the ranks that the duties have now.
#[derive(Drop)]
struct Beginning {
    links: Arc<Vec<Link>, Global>,
    ranks: Vec<u32>,
}

impl Model for Beginning {
    ghost use Rattle.std.specs.Prelude.{List, map};
    ghost use Rattle.std.specs.Arc.{arc_value};
    ghost use Rattle.crew_pool.specs.Machinery.Links.{link_now};
    ghost use Rattle.crew_pool.specs.declared.links.Link.{Link};

    ghost Value = { List Link };

    ghost view = { λ b. map (link_now b.ranks.items) (arc_value b.links).items };
}

/// Links, of which a beginning may be shared, fewer than 2^32.
///
/// A contract sees the list of the links.
#[derive(Drop)]
pub(crate) struct Links {
    beginning: Option<Beginning>,
    own: Vec<Link>,
}

impl Model for Links {
    ghost use Rattle.std.specs.Prelude.{◌++◌, ◌≤◌, List, length};
    ghost use Rattle.crew_pool.specs.Machinery.Links.{begun};
    ghost use Rattle.crew_pool.specs.declared.links.Link.{Link};

    ghost Value = { List Link };

    ghost view = { λ l. begun l.beginning ++ l.own.items };

    ghost invariant = { λ l. length (begun l.beginning ++ l.own.items) ≤ 4_294_967_295 };
}

// What has become of a rank: where nothing tells, it has stayed.
fn rank_now(ranks: &[u32], rank: u32) -> u32
    ensures { result ≡ rank_now ranks.now rank }
{
    match ranks.get(rank as usize) {
        Some(now) => *now,
        None => rank,
    }
}

// The rank of a duty's twin; its own where it has none.
fn rank_under(twins: &[Option<u32>], rank: u32) -> u32
    ensures { result ≡ rank_under twins.now rank }
{
    match twins.get(rank as usize) {
        Some(Some(twin)) => *twin,
        _ => rank,
    }
}

// Whether each duty that has a twin has its rank.
fn have_own_ranks(twins: &[Option<u32>]) -> bool
    ensures { result ≡ true → (rank : ℕ) → rank_under twins.now rank ≡ rank }
{
    for rank in 0..twins.len() {
        if let Some(twin) = twins[rank]
            && twin as usize != rank
        {
            return false;
        }
    }
    true
}

// What becomes of ranks where duties go over to their twins. There is no memory for 2^32 ranks.
fn ranks_under(alloc: Global, ranks: &[u32], twins: &[Option<u32>]) -> Result<Vec<u32>, AllocError>
    ensures { IfOk result (λ news. (rank : ℕ)
        → rank_now news.items rank ≡ rank_under twins.now (rank_now ranks.now rank)) }
{
    if have_own_ranks(twins) {
        return Vec::from_slice(alloc, ranks);
    }
    let count = ranks.len().max(twins.len());
    let mut news = Vec::with_capacity(alloc, count)?;
    for rank in 0..count {
        let Ok(rank) = u32::try_from(rank) else {
            return Err(AllocError);
        };
        news.push(rank_under(twins, rank_now(ranks, rank)))?;
    }
    Ok(news)
}

impl Beginning {
    // Links as they stand.
    fn of(alloc: Global, links: Vec<Link>) -> Result<Beginning, AllocError>
        ensures { IfOk result (λ beginning. beginning ≡ links.items) }
    {
        let links = Arc::new(alloc, links)?;
        let ranks = Vec::new(alloc);
        Ok(Beginning { links, ranks })
    }

    fn len(&self) -> usize
        ensures { result ≡ length self.now }
    {
        self.links.len()
    }

    fn at(&self, place: usize) -> Link
        requires { place < length self.now }
        ensures { slice_get self.now place ≡ Some result }
    {
        let link = self.links[place];
        let duty = rank_now(&self.ranks, link.duty);
        Link {
            before: link.before,
            duty,
        }
    }

    // The same links, their duties by the ranks of their twins.
    fn under(&self, alloc: Global, twins: &[Option<u32>]) -> Result<Beginning, AllocError>
        ensures { IfOk result (λ beginning. beginning ≡ map (link_under twins.now) self.now) }
    {
        let links = Arc::try_clone(&self.links)?;
        let ranks = ranks_under(alloc, &self.ranks, twins)?;
        Ok(Beginning { links, ranks })
    }

    // All its links, and others behind them, in one list.
    fn join(&self, alloc: Global, others: &[Link]) -> Result<Vec<Link>, AllocError>
        ensures { IfOk result (λ all. all.items ≡ self.now ++ others.now) }
    {
        let mut all = Vec::with_capacity(alloc, self.len().saturating_add(others.len()))?;
        for place in 0..self.len() {
            all.push(self.at(place))?;
        }
        all.extend_from_slice(others)?;
        Ok(all)
    }
}

// How many links a beginning has, if there is one.
fn count_of(beginning: &Option<Beginning>) -> usize
    ensures { result ≡ length (begun beginning.now) }
{
    match beginning {
        Some(beginning) => beginning.len(),
        None => 0,
    }
}

// A beginning, if there is one, its duties by the ranks of their twins.
fn beginning_under(
    alloc: Global,
    beginning: &Option<Beginning>,
    twins: &[Option<u32>],
) -> Result<Option<Beginning>, AllocError>
    ensures { IfOk result (λ news. begun news ≡ map (link_under twins.now) (begun beginning.now)) }
{
    match beginning {
        Some(beginning) => Ok(Some(beginning.under(alloc, twins)?)),
        None => Ok(None),
    }
}

// Links, their duties by the ranks of their twins.
fn links_under(
    alloc: Global,
    links: &[Link],
    twins: &[Option<u32>],
) -> Result<Vec<Link>, AllocError>
    ensures { IfOk result (λ news. news.items ≡ map (link_under twins.now) links.now) }
{
    let mut news = Vec::with_capacity(alloc, links.len())?;
    for link in links {
        news.push(Link {
            before: link.before,
            duty: rank_under(twins, link.duty),
        })?;
    }
    Ok(news)
}

impl Links {
    /// No links.
    pub(crate) fn new(alloc: Global) -> Links
        ensures { result ≡ [] }
    {
        Links {
            beginning: None,
            own: Vec::new(alloc),
        }
    }

    /// How many there are.
    pub(crate) fn len(&self) -> usize
        ensures all { result ≡ length self.now }
        ensures few { result ≤ 4_294_967_295 }
    {
        count_of(&self.beginning) + self.own.len()
    }

    /// The link at a place.
    pub(crate) fn at(&self, place: usize) -> Link
        requires { place < length self.now }
        ensures { slice_get self.now place ≡ Some result }
    {
        match &self.beginning {
            Some(beginning) if place < beginning.len() => beginning.at(place),
            Some(beginning) => self.own[place - beginning.len()],
            None => self.own[place],
        }
    }

    /// Adds a link; on want of memory, none. Room for many grows by a quarter, and not, as by `Vec::push`
    /// alone, to twice what it was: links stay as long as a version, and of what it has of its own they
    /// may be the most.
    pub(crate) fn push(&mut self, link: Link) -> Result<(), AllocError>
        requires { length self.old < 4_294_967_295 }
        ensures ok { OnOk result (self.new ≡ self.old ++ link ∷ []) }
        ensures err { OnErr result (self.new ≡ self.old) }
    {
        let len = self.own.len();
        if len >= MANY && len == self.own.capacity() {
            self.own.reserve_exact(len / 4)?;
        }
        self.own.push(link)?;
        Ok(())
    }

    /// The same links, so that `under` can share them.
    pub(crate) fn share(self, alloc: Global) -> Result<Links, AllocError>
        ensures { IfOk result (λ links. links ≡ self) }
    {
        let Links { beginning, own } = self;
        let all = match beginning {
            None => own,
            Some(beginning) if own.len() < beginning.len() / PART => {
                return Ok(Links {
                    beginning: Some(beginning),
                    own,
                });
            }
            Some(beginning) => beginning.join(alloc, &own)?,
        };
        Ok(Links {
            beginning: Some(Beginning::of(alloc, all)?),
            own: Vec::new(alloc),
        })
    }

    /// The same links, their duties by the ranks of their twins. What is shared takes no memory anew but
    /// for these ranks.
    pub(crate) fn under(&self, alloc: Global, twins: &[Option<u32>]) -> Result<Links, AllocError>
        ensures { IfOk result (λ links. links ≡ map (link_under twins.now) self.now) }
    {
        let beginning = beginning_under(alloc, &self.beginning, twins)?;
        let own = links_under(alloc, &self.own, twins)?;
        Ok(Links { beginning, own })
    }
}
