//! Pools.
ghost use Rattle.std.specs.Prelude.{◌≡◌, ◌↔◌, List, [], length, IsTrue, IfOk};
ghost use Rattle.std.specs.Slice.Iter.{iter_rest};
ghost use Rattle.crew_pool.specs.Apart.{AreApart};
ghost use Rattle.crew_pool.specs.Machinery.Meets.{vectors_of};
ghost use Rattle.crew_pool.specs.declared.label_walk.LabelWalk.{LabelWalk};

use crate::label_walk::LabelWalk;
use crew_resource::Resource;
use std::alloc::{AllocError, Global};
use std::marker::Model;
use std::slice;

/// The non-dominated labels of one event: vectors, none of which dominates another, each with its path.
///
/// A contract sees the list of the labels. Their order is free, and statements on pools speak of
/// membership.
pub struct Pool<R: Resource> {
    labels: Vec<(R::Value, LabelWalk)>,
}

impl<R: Resource> Drop for Pool<R> {
    fn drop(self) {
        let Self { labels: _ } = self;
    }
}

impl<R: Resource> Model for Pool<R> {
    ghost Value = { List (R.Value × LabelWalk) };

    ghost view = { λ p. p.labels.items };

    ghost invariant = { λ p. AreApart R.below (vectors_of p.labels.items) };
}

impl<R: Resource> Pool<R> {
    /// No labels.
    pub fn new(alloc: Global) -> Self
        ensures { result ≡ [] }
    {
        Pool {
            labels: Vec::new(alloc),
        }
    }

    /// The labels of a list, of which none dominates or equals another.
    pub fn from_apart(labels: Vec<(R::Value, LabelWalk)>) -> Self
        requires { AreApart R.below (vectors_of labels.items) }
        ensures { result ≡ labels.items }
    {
        Self { labels }
    }

    /// How many labels there are.
    pub fn len(&self) -> usize
        ensures { result ≡ length self.now }
    {
        self.labels.len()
    }

    /// Whether there are none.
    pub fn is_empty(&self) -> bool
        ensures { IsTrue result ↔ (self.now ≡ []) }
    {
        self.labels.is_empty()
    }

    /// The labels: none is at most another.
    pub fn as_slice(&self) -> &[(R::Value, LabelWalk)]
        ensures all { result.now ≡ self.now }
        ensures apart { AreApart R.below (vectors_of self.now) }
    {
        self.labels.as_slice()
    }

    /// The labels, one by one.
    pub fn iter(&self) -> slice::Iter<'_, (R::Value, LabelWalk)>
        ensures all { iter_rest result ≡ self.now }
        ensures apart { AreApart R.below (vectors_of self.now) }
    {
        self.labels.iter()
    }

    /// Lets go of all labels, and keeps the memory.
    pub fn clear(&mut self)
        ensures { self.new ≡ [] }
    {
        self.labels.clear();
    }

    /// An equal pool, with room for one label more.
    pub fn copy(&self, alloc: Global, resource: &R) -> Result<Pool<R>, AllocError>
        ensures { IfOk result (λ pool. pool ≡ self.now) }
    {
        let labels = copy_labels(alloc, resource, &self.labels)?;
        Ok(Pool { labels })
    }

    /// The list of the labels alone.
    pub fn into_vec(self) -> Vec<(R::Value, LabelWalk)>
        ensures all { result.items ≡ self }
        ensures apart { AreApart R.below (vectors_of self) }
    {
        let Self { labels } = self;
        labels
    }
}

/// Equal labels, in a list of its size with room for one more.
pub(crate) fn copy_labels<R: Resource>(
    alloc: Global,
    resource: &R,
    labels: &[(R::Value, LabelWalk)],
) -> Result<Vec<(R::Value, LabelWalk)>, AllocError>
    ensures { IfOk result (λ copied. copied.items ≡ labels.now) }
{
    let mut copied = Vec::with_capacity(alloc, labels.len().saturating_add(1))?;
    for label in labels {
        let value = resource.copy(&label.0)?;
        copied.push((value, label.1))?;
    }
    Ok(copied)
}
