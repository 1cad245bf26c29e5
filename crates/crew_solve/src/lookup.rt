//! Entries of a lent front that are looked for.
ghost use Rattle.std.specs.Prelude.{◌≡◌, ◌↔◌, ◌+ℤ◌, ◌-ℤ◌, ◌∷◌, [], IsTrue, List};
ghost use Rattle.std.specs.Slice.Iter.{iter_rest};
ghost use Rattle.crew_anchor.specs.Machinery.Bounds.{may_board};
ghost use Rattle.crew_pairing.specs.Legs.{Leg};
ghost use Rattle.crew_pairing.specs.declared.vector.PairingVector.{PairingVector as Vector};
ghost use Rattle.crew_resource.specs.Members.{Member};
ghost use Rattle.crew_solve.specs.Machinery.Lent as Spec;

use crate::shown_entries::entry_of;
use crate::walk_view::WalkView;
use crew_anchor::AnchoredVector;
use crew_pairing::{Duty, PairingVector};
use crew_pool::LabelWalk;
use crew_resource::Staged;
use crew_sweep::Sweep;
use std::marker::Model;
use std::slice;

// A vector with its walk.
pub(crate) type Entry<'a> = (PairingVector, WalkView<'a>);

/// Labels of a departure's pool, among which entries at a duty are looked for.
///
/// A contract sees the list of the entries that they show there.
#[derive(Drop)]
pub(crate) struct Lookup<'a> {
    sweep: &'a Sweep,
    duty: &'a Duty,
    rank: u32,
    labels: slice::Iter<'a, (AnchoredVector, LabelWalk)>,
}

impl<'a> Model for Lookup<'a> {
    ghost use Rattle.std.specs.Prelude.{List};
    ghost use Rattle.std.specs.Slice.Iter.{iter_rest};
    ghost use Rattle.crew_pairing.specs.Legs.{Leg};
    ghost use Rattle.crew_pairing.specs.declared.vector.PairingVector.{PairingVector as Vector};
    ghost use Rattle.crew_solve.specs.Machinery.Lent.{MayBeShown, shown_at};

    ghost Value = { List (Vector × List (List Leg)) };

    ghost view = { λ l. shown_at l.sweep.now l.duty.now l.rank (iter_rest l.labels) };

    ghost invariant = { λ l. MayBeShown l.sweep.now l.duty.now l.rank (iter_rest l.labels) };
}

// Whether two vectors are equal.
fn is_same_vector(one: &PairingVector, other: &PairingVector) -> bool
    ensures { IsTrue result ↔ (one.now ≡ other.now) }
{
    one == other
}

// Whether two entries are one.
pub(crate) fn is_same_entry(one: &Entry<'_>, other: &Entry<'_>) -> bool
    ensures { IsTrue result ↔ (one.now ≡ other.now) }
{
    is_same_vector(&one.0, &other.0) && one.1.is_same(&other.1)
}

// The pay of a label's duties and of one more, less the prices of all.
fn duty_pay_with(vector: &AnchoredVector, duty: &Duty) -> i64
    requires { may_board vector.now duty.now }
    ensures { result ≡ vector.now.duty_pay +ℤ (duty.now.pay -ℤ duty.now.price) }
{
    vector.duty_pay() + (i64::from(duty.pay) - duty.price)
}

// Whether an entry is what a label shows at a duty. The pay tells most labels apart.
fn is_shown(
    sweep: &Sweep,
    duty: &Duty,
    rank: u32,
    label: &(AnchoredVector, LabelWalk),
    wanted: &Entry<'_>,
) -> bool
    requires { Spec.MayBeShown sweep.now duty.now rank (label.now ∷ []) }
    ensures { IsTrue result
        ↔ Member (Spec.shown_at sweep.now duty.now rank (label.now ∷ [])) wanted.now }
{
    if duty_pay_with(&label.0, duty) != wanted.0.duty_pay {
        return false;
    }
    let Some(value) = sweep.resource().board(&label.0, duty) else {
        return false;
    };
    let walk = label.1.walk;
    let entry = entry_of(sweep, duty, &value, LabelWalk { walk, duty: rank });
    is_same_entry(&entry, wanted)
}

// Passes over labels until one is passed that shows an entry at a duty. Tells whether there was one.
fn pass_labels(
    sweep: &Sweep,
    duty: &Duty,
    rank: u32,
    labels: &mut slice::Iter<'_, (AnchoredVector, LabelWalk)>,
    wanted: &Entry<'_>,
) -> bool
    requires { Spec.MayBeShown sweep.now duty.now rank (iter_rest labels.old) }
    ensures found { IsTrue result
        ↔ Member (Spec.shown_at sweep.now duty.now rank (iter_rest labels.old)) wanted.now }
    ensures left { (e : Vector × List (List Leg))
        → Member (Spec.shown_at sweep.now duty.now rank (iter_rest labels.new)) e
        → Member (Spec.shown_at sweep.now duty.now rank (iter_rest labels.old)) e }
    ensures may { Spec.MayBeShown sweep.now duty.now rank (iter_rest labels.new) }
{
    while let Some(label) = labels.next() {
        if is_shown(sweep, duty, rank, label, wanted) {
            return true;
        }
    }
    false
}

impl<'a> Lookup<'a> {
    // All these labels.
    pub(crate) fn new(
        sweep: &'a Sweep,
        duty: &'a Duty,
        rank: u32,
        labels: &'a [(AnchoredVector, LabelWalk)],
    ) -> Lookup<'a>
        requires { Spec.MayBeShown sweep.now duty.now rank labels.now }
        ensures { result ≡ Spec.shown_at sweep.now duty.now rank labels.now }
    {
        let labels = labels.iter();
        Lookup {
            sweep,
            duty,
            rank,
            labels,
        }
    }

    // Passes over labels until one is passed that shows an entry. Tells whether there was one.
    pub(crate) fn pass(&mut self, wanted: &Entry<'_>) -> bool
        ensures found { IsTrue result ↔ Member self.old wanted.now }
        ensures left { (e : Vector × List (List Leg)) → Member self.new e → Member self.old e }
    {
        pass_labels(self.sweep, self.duty, self.rank, &mut self.labels, wanted)
    }
}
