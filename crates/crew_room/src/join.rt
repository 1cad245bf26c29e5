//! Labels that join others.
//!
//! Each newcomer meets the labels that are there; those for which none of them may stand wait until
//! all have met them. Then they join, and the labels go for which one of them may stand. A label that
//! stands for a newcomer moves forward, so contracts speak of the labels in some order.
ghost use Rattle.std.specs.Prelude.{◌≡◌, ◌++◌, ◌∷◌, ℕ, List, [], OnErr, OnOk, Some};
ghost use Rattle.std.specs.List.Sorted.{IsPermutation};
ghost use Rattle.crew_forgetful.specs.Sweeps.{TellCount};
ghost use Rattle.crew_label.specs.Boarding.{LeadInto, boarded_from, linked};
ghost use Rattle.crew_label.specs.Pools.{AreCounted, IsCounted, stands_label};
ghost use Rattle.crew_label.specs.declared.label.Label.{Label};
ghost use Rattle.crew_resource.specs.Members.{Member};
ghost use Rattle.crew_room.specs.Machinery.Joins.{free_of, joined};

use crate::glance::Glanced;
use crate::held::Held;
use crew_forgetful::Forgets;
use crew_label::{Label, Link, Trails};
use crew_resource::{Placed, Resource, Staged};
use std::alloc::AllocError;

// The most labels of a pool that a link can tell apart.
const MOST: usize = 0xffff_ffff;

// Labels of another pool join.
pub(crate) fn join_labels<P: Placed, R: Forgets<P> + Glanced, T: Trails>(
    resource: &R,
    trails: &T,
    held: &mut Held<R>,
    free: &mut Held<R>,
    labels: &[Label<R::Value>],
) -> Result<(), AllocError>
    requires tell { TellCount R.same_sums (R.count_of resource.now) }
    requires held { AreCounted (R.count_of resource.now) (T.leads trails.now)
        (T.trail trails.now) held.old }
    requires labels { AreCounted (R.count_of resource.now) (T.leads trails.now)
        (T.trail trails.now) labels.now }
    ensures ok { OnOk result ((order : List (Label R.Value)) × IsPermutation held.old order
        × (held.new ≡ joined (stands_label R.below R.same_sums (T.trail trails.now)) order
        labels.now)) }
    ensures err { OnErr result (IsPermutation held.old held.new) }
{
    free.clear();
    for label in labels {
        meet::<P, R, T>(resource, trails, held, free, label)?;
    }
    held.take_in::<P, T>(resource, trails, free)?;
    Ok(())
}

// A label meets others: where none of them may stand for it, an equal one waits with the free.
fn meet<P: Placed, R: Forgets<P> + Glanced, T: Trails>(
    resource: &R,
    trails: &T,
    held: &mut Held<R>,
    free: &mut Held<R>,
    label: &Label<R::Value>,
) -> Result<(), AllocError>
    requires tell { TellCount R.same_sums (R.count_of resource.now) }
    requires held { AreCounted (R.count_of resource.now) (T.leads trails.now)
        (T.trail trails.now) held.old }
    requires label { IsCounted (R.count_of resource.now) (T.leads trails.now)
        (T.trail trails.now) label.now }
    ensures order { IsPermutation held.old held.new }
    ensures free { OnOk result (free.new ≡ free.old
        ++ free_of (stands_label R.below R.same_sums (T.trail trails.now)) held.old
        (label.now ∷ [])) }
{
    let marks = resource.glance(&label.value);
    let Some(place) = held.first_standing::<P, T>(resource, trails, label, &marks) else {
        let value = resource.copy(&label.value)?;
        let before = label.before;
        free.push(Label { value, before }, marks)?;
        return Ok(());
    };
    held.advance(place);
    Ok(())
}

// What of a departure's labels boards an item joins.
pub(crate) fn join_boarding<P: Placed, R: Forgets<P> + Glanced, T: Trails>(
    resource: &R,
    trails: &T,
    held: &mut Held<R>,
    free: &mut Held<R>,
    labels: &[Label<R::Value>],
    item: &P,
    duty: u32,
) -> Result<(), AllocError>
    requires boards { (l : Label R.Value) → Member labels.now l
        → R.can_board resource.now l.value item.now }
    requires tell { TellCount R.same_sums (R.count_of resource.now) }
    requires into { (rank : ℕ) × LeadInto (T.leads trails.now) (T.trail trails.now) duty rank
        labels.now }
    requires most { (most : ℕ) × (R.most resource.now ≡ Some most) }
    requires held { AreCounted (R.count_of resource.now) (T.leads trails.now)
        (T.trail trails.now) held.old }
    requires labels { AreCounted (R.count_of resource.now) (T.leads trails.now)
        (T.trail trails.now) labels.now }
    ensures ok { OnOk result ((order : List (Label R.Value)) × IsPermutation held.old order
        × (held.new ≡ joined (stands_label R.below R.same_sums (T.trail trails.now)) order
        (boarded_from (λ v. R.boards resource.now v item.now) duty 0 labels.now))) }
    ensures err { OnErr result (IsPermutation held.old held.new) }
{
    if labels.len() > MOST {
        return Err(AllocError);
    }
    free.clear();
    for (place, label) in labels.iter().enumerate() {
        let place = place as u32;
        let link = Link { duty, place };
        meet_boarding::<P, R, T>(resource, trails, held, free, &label.value, item, link)?;
    }
    held.take_in::<P, T>(resource, trails, free)?;
    Ok(())
}

// A value boards an item, if it can, and meets others.
fn meet_boarding<P: Placed, R: Forgets<P> + Glanced, T: Trails>(
    resource: &R,
    trails: &T,
    held: &mut Held<R>,
    free: &mut Held<R>,
    value: &R::Value,
    item: &P,
    link: Link,
) -> Result<(), AllocError>
    requires boards { R.can_board resource.now value.now item.now }
    requires tell { TellCount R.same_sums (R.count_of resource.now) }
    requires held { AreCounted (R.count_of resource.now) (T.leads trails.now)
        (T.trail trails.now) held.old }
    requires counts { AreCounted (R.count_of resource.now) (T.leads trails.now)
        (T.trail trails.now) (linked (R.boards resource.now value.now item.now) link) }
    ensures order { IsPermutation held.old held.new }
    ensures free { OnOk result (free.new ≡ free.old
        ++ free_of (stands_label R.below R.same_sums (T.trail trails.now)) held.old
        (linked (R.boards resource.now value.now item.now) link)) }
{
    let Some(value) = resource.board(value, item) else {
        return Ok(());
    };
    let before = Some(link);
    meet_own::<P, R, T>(resource, trails, held, free, Label { value, before })?;
    Ok(())
}

// A label meets others: where none of them may stand for it, it waits with the free.
fn meet_own<P: Placed, R: Forgets<P> + Glanced, T: Trails>(
    resource: &R,
    trails: &T,
    held: &mut Held<R>,
    free: &mut Held<R>,
    label: Label<R::Value>,
) -> Result<(), AllocError>
    requires tell { TellCount R.same_sums (R.count_of resource.now) }
    requires held { AreCounted (R.count_of resource.now) (T.leads trails.now)
        (T.trail trails.now) held.old }
    requires label { IsCounted (R.count_of resource.now) (T.leads trails.now)
        (T.trail trails.now) label }
    ensures order { IsPermutation held.old held.new }
    ensures free { OnOk result (free.new ≡ free.old
        ++ free_of (stands_label R.below R.same_sums (T.trail trails.now)) held.old
        (label ∷ [])) }
{
    let marks = resource.glance(&label.value);
    let Some(place) = held.first_standing::<P, T>(resource, trails, &label, &marks) else {
        free.push(label, marks)?;
        return Ok(());
    };
    held.advance(place);
    Ok(())
}
