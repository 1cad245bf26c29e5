//! Whether two sweeps leave the same labels at a departure.
ghost use Rattle.std.specs.Prelude.{◌≡◌, ◌<◌, IfSome, IsTrue, List, length, map};
ghost use Rattle.crew_pairing.specs.Events.{departure_of};
ghost use Rattle.crew_pairing.specs.Legs.{Leg};
ghost use Rattle.crew_pairing.specs.declared.duty.Duty.{Duty as DutyOf};
ghost use Rattle.crew_pairing.specs.declared.vector.PairingVector.{PairingVector as Vector};
ghost use Rattle.crew_pool.specs.LabelWalks.{walk_of_label};
ghost use Rattle.crew_resource.specs.Members.{Each, Member};
ghost use Rattle.crew_solve.specs.Machinery.Keyed.{AreReadable, keyed_label};
ghost use Rattle.crew_solve.specs.Solutions.{ShowSame};
ghost use Rattle.crew_sweep.specs.Sweeps.{pool_at};

use crate::base_fronts::BaseFronts;
use crate::entries::place_of;
use crate::lookup::{Entry, is_same_entry};
use crate::walk_view::WalkView;
use crew_anchor::AnchoredVector;
use crew_pairing::Duty;
use crew_pool::LabelWalk;
use crew_sweep::Sweep;

// A label as of the common instant, with its walk.
fn label_entry<'a>(sweep: &'a Sweep, label: &(AnchoredVector, LabelWalk)) -> Entry<'a>
    requires there { label.now.1.walk < length sweep.now.walks }
    requires ranked { Each (λ rank. rank < length sweep.now.net.duties)
        (walk_of_label sweep.now.walks label.now.1) }
    ensures { result ≡ keyed_label sweep.now label.now }
{
    (label.0.parts(), WalkView::new(sweep, label.1))
}

// The place, from one on, of a label that is a wanted one.
fn find_from(
    sweep: &Sweep,
    labels: &[(AnchoredVector, LabelWalk)],
    from: usize,
    wanted: &Entry<'_>,
) -> Option<usize>
    requires { AreReadable sweep.now labels.now }
    ensures { IfSome result (λ place. (place < length labels.now)
        × Member (map (keyed_label sweep.now) labels.now) wanted.now) }
{
    for place in from..labels.len() {
        let entry = label_entry(sweep, &labels[place]);
        if is_same_entry(&entry, wanted) {
            return Some(place);
        }
    }
    None
}

// The place of a label that is a wanted one, which is looked for from a place on, and then among all.
fn find(
    sweep: &Sweep,
    labels: &[(AnchoredVector, LabelWalk)],
    from: usize,
    wanted: &Entry<'_>,
) -> Option<usize>
    requires { AreReadable sweep.now labels.now }
    ensures { IfSome result (λ place. (place < length labels.now)
        × Member (map (keyed_label sweep.now) labels.now) wanted.now) }
{
    match find_from(sweep, labels, from, wanted) {
        Some(place) => Some(place),
        None => find_from(sweep, labels, 0, wanted),
    }
}

// Whether each label of a sweep's is one of another's. Each is looked for from where the one before it
// was found, so labels that stand alike are gone over once.
fn are_all_among(
    one: &Sweep,
    labels: &[(AnchoredVector, LabelWalk)],
    other: &Sweep,
    others: &[(AnchoredVector, LabelWalk)],
) -> bool
    requires own { AreReadable one.now labels.now }
    requires others { AreReadable other.now others.now }
    ensures { IsTrue result → (e : Vector × List (List Leg))
        → Member (map (keyed_label one.now) labels.now) e
        → Member (map (keyed_label other.now) others.now) e }
{
    let mut from = 0;
    for place in 0..labels.len() {
        let wanted = label_entry(one, &labels[place]);
        let Some(found) = find(other, others, from, &wanted) else {
            return false;
        };
        from = found + 1;
    }
    true
}

// The labels of the pool that a duty leaves from; `None` where no duty of the network leaves there.
fn labels_at<'a>(sweep: &'a Sweep, duty: &Duty) -> Option<&'a [(AnchoredVector, LabelWalk)]>
    ensures pool { IfSome result (λ labels. labels.now ≡ pool_at sweep.now duty.now) }
    ensures readable { IfSome result (λ labels. AreReadable sweep.now labels.now) }
{
    let net = sweep.net();
    let index = place_of(net, duty);
    if index < net.by_report().len() {
        return Some(sweep.pool(index).as_slice());
    }
    None
}

// Whether two sweeps have the same labels in the pools that a duty leaves from.
fn are_same_labels(one: &Sweep, other: &Sweep, duty: &Duty) -> bool
    ensures { IsTrue result → (e : Vector × List (List Leg))
        → (Member (map (keyed_label one.now) (pool_at one.now duty.now)) e
        → Member (map (keyed_label other.now) (pool_at other.now duty.now)) e)
        × (Member (map (keyed_label other.now) (pool_at other.now duty.now)) e
        → Member (map (keyed_label one.now) (pool_at one.now duty.now)) e) }
{
    let Some(labels) = labels_at(one, duty) else {
        return false;
    };
    let Some(others) = labels_at(other, duty) else {
        return false;
    };
    labels.len() == others.len()
        && are_all_among(one, labels, other, others)
        && are_all_among(other, others, one, labels)
}

impl BaseFronts {
    /// Whether these fronts and others, under the same settings and at the same price, were made of the
    /// same labels where a duty leaves: then both show the same at each duty that leaves there.
    /// `false` says nothing. It takes no memory, and where the labels stand alike it goes over them
    /// once for each side.
    pub fn leaves_alike(&self, other: &BaseFronts, duty: &Duty) -> bool
        ensures { IsTrue result → self.now.net.settings ≡ other.now.net.settings
            → self.now.price ≡ other.now.price → (d : DutyOf)
            → departure_of d ≡ departure_of duty.now → ShowSame self.now other.now d }
    {
        are_same_labels(self.sweep(), other.sweep(), duty)
    }
}
