//! Pools under way.
//!
//! A pool that nothing joins any more keeps no marks: the next that is made of it makes them anew,
//! which costs less than the memory. A pool that grows from nothing is five lists that double some
//! ten times each, and ends with room for up to twice its labels; so each thread has one such pool,
//! and what it leaves is copied out at its size, with room for the empty label.
ghost use Rattle.std.specs.Prelude.{◌≡◌, ℕ, List, [], ◌++◌, ◌⊎◌, map, IfOk, OnOk, OnErr};
ghost use Rattle.std.specs.List.Sorted.{IsPermutation};
ghost use Rattle.crew_resource.specs.Members.{Member};
ghost use Rattle.crew_pool.specs.Apart.{AreApart};
ghost use Rattle.crew_pool.specs.Machinery.Meets.{vectors_of};
ghost use Rattle.crew_pool.specs.LabelWalks.{AreAlikeWhereSame, IsPoolOf, shown};
ghost use Rattle.crew_pool.specs.declared.label_walk.LabelWalk.{LabelWalk};

use crate::arena::Walks;
use crate::label_walk::LabelWalk;
use crate::labels::Labels;
use crate::marks::Marked;
use crate::merge::merge_labels;
use crate::pool::{Pool, copy_labels};
use crate::workspace::Workspace;
use std::alloc::{AllocError, Global};
use std::marker::Model;
use std::mem;

/// A pool that other labels join: its labels, none of which dominates another, with their marks.
///
/// A contract sees the list of the labels. Their order is free, and statements on pools speak of
/// membership.
pub struct GrowingPool<R: Marked> {
    pub(crate) labels: Labels<R>,
}

impl<R: Marked> Drop for GrowingPool<R> {
    fn drop(self) {
        let Self { labels: _ } = self;
    }
}

impl<R: Marked> Model for GrowingPool<R> {
    ghost Value = { List (R.Value × LabelWalk) };

    ghost view = { λ p. p.labels };

    ghost invariant = { λ p. AreApart R.below (vectors_of p.labels) };
}

impl<R: Marked> GrowingPool<R> {
    /// No labels.
    pub fn new(alloc: Global) -> Self
        ensures { result ≡ [] }
    {
        GrowingPool {
            labels: Labels::new(alloc),
        }
    }

    /// No labels, in memory that a room has kept.
    pub fn begin(alloc: Global, room: &mut Workspace<R>) -> Self
        ensures { result ≡ [] }
    {
        let mut labels = mem::replace(&mut room.spare, Labels::new(alloc));
        labels.clear();
        GrowingPool { labels }
    }

    /// The labels of a pool, which others may join, in memory that a room has kept.
    pub fn begin_with(
        alloc: Global,
        resource: &R,
        room: &mut Workspace<R>,
        pool: &Pool<R>,
    ) -> Result<Self, AllocError>
        ensures { IfOk result (λ growing. growing ≡ pool.now) }
    {
        let mut labels = mem::replace(&mut room.spare, Labels::new(alloc));
        labels.clear();
        labels.copy_in(resource, pool.as_slice())?;
        Ok(GrowingPool { labels })
    }

    /// The pool, which nothing joins any more, in a list of its size, with room for one label more.
    /// Its own memory is kept in a room.
    pub fn copy_out(
        self,
        alloc: Global,
        resource: &R,
        room: &mut Workspace<R>,
    ) -> Result<Pool<R>, AllocError>
        ensures { IfOk result (λ pool. pool ≡ self) }
    {
        let Self { labels } = self;
        let copied = copy_labels(alloc, resource, labels.as_slice())?;
        room.spare = labels;
        Ok(Pool::from_apart(copied))
    }

    /// A pool that others may join.
    pub fn of(alloc: Global, resource: &R, pool: Pool<R>) -> Result<Self, AllocError>
        ensures { IfOk result (λ growing. growing ≡ pool) }
    {
        let labels = Labels::of(alloc, resource, pool.into_vec())?;
        Ok(GrowingPool { labels })
    }

    /// The pool, which nothing joins any more.
    pub fn into_pool(self) -> Pool<R>
        ensures { result ≡ self }
    {
        let Self { labels } = self;
        Pool::from_apart(labels.into_vec())
    }

    /// The labels: none is at most another.
    pub fn as_slice(&self) -> &[(R::Value, LabelWalk)]
        ensures all { result.now ≡ self.now }
        ensures apart { AreApart R.below (vectors_of self.now) }
    {
        self.labels.as_slice()
    }

    /// Lets go of all labels, and keeps the memory.
    pub fn clear(&mut self)
        ensures { self.new ≡ [] }
    {
        self.labels.clear();
    }

    /// Merges labels, none of which dominates another, into the pool; the dominated of both go.
    ///
    /// If the labels were what a list of candidates leaves, they are then what that list leaves
    /// with the others after it. On want of memory no label has gone or joined, but lesser walks
    /// may already stand at ties.
    pub fn merge(
        &mut self,
        resource: &R,
        room: &mut Workspace<R>,
        list: &[(R::Value, LabelWalk)],
        walks: &Walks,
    ) -> Result<(), AllocError>
        requires apart { AreApart R.below (vectors_of list.now) }
        requires between { AreAlikeWhereSame walks.now self.old list.now }
        requires within { AreAlikeWhereSame walks.now list.now list.now }
        ensures local { OnOk result ((candidates : List (R.Value × List ℕ))
            → IsPoolOf R.below candidates (map (shown walks.now) self.old)
            → IsPoolOf R.below (candidates ++ map (shown walks.now) list.now)
            (map (shown walks.now) self.new)) }
        ensures from { (a : R.Value × LabelWalk) → Member self.new a
            → Member self.old a ⊎ Member list.now a }
        ensures err { OnErr result (IsPermutation (vectors_of self.old) (vectors_of self.new)) }
    {
        merge_labels(resource, &mut self.labels, &mut room.free, list, walks)?;
        Ok(())
    }
}
