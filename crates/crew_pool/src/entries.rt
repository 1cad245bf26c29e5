//! The entries of a view, one by one.
ghost use Rattle.std.specs.Prelude.{◌≡◌, ℕ, List};
ghost use Rattle.std.specs.Iterator.{YieldsFirst, item_count};
ghost use Rattle.std.specs.Map.Iter.{TakesFirst};
ghost use Rattle.std.specs.Slice.Iter.{iter_rest};
ghost use Rattle.crew_resource.specs.Members.{Member};
ghost use Rattle.crew_pool.specs.Counted.{boarded_labels};
ghost use Rattle.crew_pool.specs.declared.label_walk.LabelWalk.{LabelWalk};

use crate::label_walk::LabelWalk;
use crew_resource::{Placed, Resource, Staged};
use std::marker::Model;
use std::slice;

/// The entries of a view that are still to come.
///
/// A contract sees their list.
#[derive(Drop)]
pub struct Entries<'a, P: Placed, R: Staged<P>> {
    resource: &'a R,
    labels: slice::Iter<'a, (R::Value, LabelWalk)>,
    item: &'a P,
    duty: u32,
}

impl<'a, P: Placed, R: Staged<P>> Model for Entries<'a, P, R> {
    ghost Value = { List (R.Value × LabelWalk) };

    ghost view = { λ e. boarded_labels (λ u. R.boards e.resource.now u e.item.now) e.duty
        (iter_rest e.labels) };

    ghost invariant = { λ e. (l : R.Value × LabelWalk) → Member (iter_rest e.labels) l
        → R.can_board e.resource.now l.0 e.item.now };
}

impl<'a, P: Placed, R: Staged<P>> Entries<'a, P, R> {
    // The labels that are left and board the item.
    pub(crate) fn new(
        resource: &'a R,
        labels: slice::Iter<'a, (R::Value, LabelWalk)>,
        item: &'a P,
        duty: u32,
    ) -> Self
        requires { (l : R.Value × LabelWalk) → Member (iter_rest labels) l
            → R.can_board resource.now l.0 item.now }
        ensures { result ≡ boarded_labels (λ u. R.boards resource.now u item.now) duty
            (iter_rest labels.entry) }
    {
        Entries {
            resource,
            labels,
            item,
            duty,
        }
    }
}

impl<'a, P: Placed, R: Staged<P>> Iterator for Entries<'a, P, R> {
    type Item = (R::Value, LabelWalk);

    ghost next_gives = { YieldsFirst (λ s. s) };

    ghost remaining = { item_count (λ s. s) };

    fn next(&mut self) -> Option<(R::Value, LabelWalk)> {
        next_boarding(self.resource, &mut self.labels, self.item, self.duty)
    }
}

// The first label that boards an item, after it; those before it are passed.
fn next_boarding<'a, P: Placed, R: Staged<P>>(
    resource: &R,
    labels: &mut slice::Iter<'a, (R::Value, LabelWalk)>,
    item: &P,
    duty: u32,
) -> Option<(R::Value, LabelWalk)>
    requires { (l : R.Value × LabelWalk) → Member (iter_rest labels.old) l
        → R.can_board resource.now l.0 item.now }
    ensures takes { TakesFirst (λ x. x)
        (boarded_labels (λ u. R.boards resource.now u item.now) duty (iter_rest labels.old))
        result (boarded_labels (λ u. R.boards resource.now u item.now) duty
        (iter_rest labels.new)) }
    ensures from { (l : R.Value × LabelWalk) → Member (iter_rest labels.new) l
        → Member (iter_rest labels.old) l }
{
    while let Some(label) = labels.next() {
        if let Some(value) = resource.board(&label.0, item) {
            let walk = label.1.walk;
            return Some((value, LabelWalk { walk, duty }));
        }
    }
    None
}
