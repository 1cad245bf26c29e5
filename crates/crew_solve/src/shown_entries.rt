//! The entries of a lent front as its labels stand.
ghost use Rattle.std.specs.Prelude.{◌≡◌, ◌<◌, length, map};
ghost use Rattle.std.specs.Iterator.{YieldsFirst, item_count};
ghost use Rattle.crew_anchor.specs.Machinery.Bounds.{fits_in, is_ready};
ghost use Rattle.crew_pool.specs.LabelWalks.{walk_of_label};
ghost use Rattle.crew_resource.specs.Machinery.Sum.{LiesWithin};
ghost use Rattle.crew_resource.specs.Machinery.Uses.{HasRoom};
ghost use Rattle.crew_resource.specs.Members.{Each};
ghost use Rattle.crew_solve.specs.Machinery.Homes.{resource_of};
ghost use Rattle.crew_solve.specs.Machinery.Lent as Spec;

use crate::walk_view::WalkView;
use crew_anchor::{AnchoredResource, AnchoredVector};
use crew_pairing::{Duty, PairingVector};
use crew_pool::{Entries, LabelWalk, View};
use crew_sweep::Sweep;
use std::marker::Model;

/// The entries that a view shows of a duty, which are still to come: each vector with its walk, in
/// the order of the pool's labels.
///
/// A contract sees their list.
#[derive(Drop)]
pub(crate) struct ShownEntries<'a> {
    sweep: &'a Sweep,
    duty: &'a Duty,
    labels: Entries<'a, Duty, AnchoredResource>,
}

impl<'a> Model for ShownEntries<'a> {
    ghost use Rattle.std.specs.Prelude.{List, map};
    ghost use Rattle.crew_pairing.specs.Legs.{Leg};
    ghost use Rattle.crew_pairing.specs.declared.vector.PairingVector.{PairingVector as Vector};
    ghost use Rattle.crew_solve.specs.Machinery.Lent.{AreLent, entry_of};

    ghost Value = { List (Vector × List (List Leg)) };

    ghost view = { λ e. map (entry_of e.sweep.now e.duty.now.release) e.labels };

    ghost invariant = { λ e. AreLent e.sweep.now e.duty.now e.labels };
}

/// The entry of a label at a duty.
pub(crate) fn entry_of<'a>(
    sweep: &'a Sweep,
    duty: &Duty,
    value: &AnchoredVector,
    label: LabelWalk,
) -> (PairingVector, WalkView<'a>)
    requires room { LiesWithin 2_147_483_648 duty.now.release
        → HasRoom (fits_in (resource_of sweep.now)) (is_ready (resource_of sweep.now)) value.now }
    requires there { label.walk < length sweep.now.walks }
    requires ranked { Each (λ rank. rank < length sweep.now.net.duties)
        (walk_of_label sweep.now.walks label) }
    ensures { result ≡ Spec.entry_of sweep.now duty.now.release (value.now, label) }
{
    let vector = sweep.resource().show(value, i64::from(duty.release));
    (vector, WalkView::new(sweep, label))
}

impl<'a> ShownEntries<'a> {
    // The entries of a view.
    pub(crate) fn new(
        sweep: &'a Sweep,
        duty: &'a Duty,
        view: &View<'a, Duty, AnchoredResource>,
    ) -> ShownEntries<'a>
        requires { Spec.AreLent sweep.now duty.now view.now }
        ensures { result ≡ map (Spec.entry_of sweep.now duty.now.release) view.now }
    {
        let labels = view.iter();
        ShownEntries {
            sweep,
            duty,
            labels,
        }
    }
}

impl<'a> Iterator for ShownEntries<'a> {
    type Item = (PairingVector, WalkView<'a>);

    ghost next_gives = { YieldsFirst (λ s. s) };

    ghost remaining = { item_count (λ s. s) };

    fn next(&mut self) -> Option<(PairingVector, WalkView<'a>)> {
        let (sweep, duty) = (self.sweep, self.duty);
        let (value, label) = self.labels.next()?;
        Some(entry_of(sweep, duty, &value, label))
    }
}
