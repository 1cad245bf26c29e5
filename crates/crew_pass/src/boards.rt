//! The front of a duty.
ghost use Rattle.std.specs.Prelude.{◌≡◌, ◌<◌, ◌++◌, true, [], IfOk, OnOk, get_or, length};
ghost use Rattle.crew_label.specs.Boarding.{boarded_from, linked};
ghost use Rattle.crew_label.specs.declared.label.Label.{Label};
ghost use Rattle.crew_labelling.specs.Labellings.{labelling_of};
ghost use Rattle.crew_resource.specs.Members.{Member};
ghost use Rattle.crew_pass.specs.Machinery.Seen.{AreSeen};
ghost use Rattle.crew_pass.specs.Machinery.Shelves.{IsThere};
ghost use Rattle.crew_pass.specs.Machinery.Terms.{MayPass, terms};

use crate::ground::Ground;
use crate::pooled::Pooled;
use crate::seen::Seen;
use crate::sight::Sight;
use crate::waits::rises;
use crew_label::{Label, Link, Pool, front_aboard};
use crew_pairing::Duty;
use std::alloc::{AllocError, Global};

// The most labels of a pool that a link can tell apart.
const MOST: usize = 0xffff_ffff;

// The labels that board a duty, by its number, each with a link to where it stood.
fn boarded<R: Pooled>(
    alloc: Global,
    resource: &R,
    labels: &[Label<R::Value>],
    duty: &Duty,
    number: u32,
) -> Result<Vec<Label<R::Value>>, AllocError>
    requires { (l : Label R.Value) → Member labels.now l
        → R.can_board resource.now l.value duty.now }
    ensures { IfOk result (λ front. front.items
        ≡ boarded_from (λ v. R.boards resource.now v duty.now) number 0 labels.now) }
{
    if labels.len() > MOST {
        return Err(AllocError);
    }
    let mut front = Vec::with_capacity(alloc, labels.len())?;
    for (place, label) in labels.iter().enumerate() {
        let place = place as u32;
        let link = Link {
            duty: number,
            place,
        };
        board_label(resource, &mut front, &label.value, duty, link)?;
    }
    Ok(front)
}

// A value boards a duty, if it can.
fn board_label<R: Pooled>(
    resource: &R,
    front: &mut Vec<Label<R::Value>>,
    value: &R::Value,
    duty: &Duty,
    link: Link,
) -> Result<(), AllocError>
    requires { R.can_board resource.now value.now duty.now }
    ensures { OnOk result (front.new.items
        ≡ front.old.items ++ linked (R.boards resource.now value.now duty.now) link) }
{
    let Some(value) = resource.board(value, duty) else {
        return Ok(());
    };
    let before = Some(link);
    front.push(Label { value, before })?;
    Ok(())
}

// The front of the duty of a rank, whose departure has been seen, where nothing is forgotten: all that
// boards it.
fn plain_front<R: Pooled>(
    alloc: Global,
    ground: &Ground<R>,
    seen: &Seen<R>,
    rank: u32,
) -> Result<Pool<R>, AllocError>
    requires plain { R.plain ground.now.resource.now ≡ true }
    requires may { MayPass (terms R.Value.cmp R.Lapses.own R.Staged.own R.Forgets.own R.Resource.own ground.now) }
    requires seen { AreSeen (terms R.Value.cmp R.Lapses.own R.Staged.own R.Forgets.own R.Resource.own ground.now) seen.now }
    requires rank { rank < length ground.now.net.now.duties }
    requires there { IsThere seen.now.departures (get_or ground.now.positions.now rank 0) }
    ensures { IfOk result (λ front. front ≡ get_or (labelling_of (terms R.Value.cmp R.Lapses.own R.Staged.own R.Forgets.own R.Resource.own ground.now)).fronts rank []) }
{
    let duty = ground.net.duty(rank as usize);
    let position = ground.positions[rank as usize];
    let pool = seen.departures.at(position as usize);
    let number = ground.numbers[rank as usize];
    let front = boarded(alloc, ground.resource, pool.as_slice(), duty, number)?;
    Ok(Pool::from_rising(front))
}

// The front of the duty of a rank, whose departure has been seen: what dominance leaves of the labels
// that board it from the pool of its departure.
fn filtered_front<R: Pooled>(
    alloc: Global,
    ground: &Ground<R>,
    seen: &Seen<R>,
    rank: u32,
) -> Result<Pool<R>, AllocError>
    requires may { MayPass (terms R.Value.cmp R.Lapses.own R.Staged.own R.Forgets.own R.Resource.own ground.now) }
    requires seen { AreSeen (terms R.Value.cmp R.Lapses.own R.Staged.own R.Forgets.own R.Resource.own ground.now) seen.now }
    requires rank { rank < length ground.now.net.now.duties }
    requires there { IsThere seen.now.departures (get_or ground.now.positions.now rank 0) }
    ensures { IfOk result (λ front. front ≡ get_or (labelling_of (terms R.Value.cmp R.Lapses.own R.Staged.own R.Forgets.own R.Resource.own ground.now)).fronts rank []) }
{
    let duty = ground.net.duty(rank as usize);
    let position = ground.positions[rank as usize];
    let pool = seen.departures.at(position as usize);
    let sight = Sight::over(ground, seen);
    let number = ground.numbers[rank as usize];
    let front = front_aboard::<Duty, R, Sight<R>>(
        alloc,
        ground.resource,
        &sight,
        pool,
        duty,
        number,
    )?;
    rises(&front);
    Ok(front)
}

/// The front of the duty of a rank, whose departure has been seen: what dominance leaves of the labels
/// that board it from the pool of its departure.
pub(crate) fn duty_front<R: Pooled>(
    alloc: Global,
    ground: &Ground<R>,
    seen: &Seen<R>,
    rank: u32,
) -> Result<Pool<R>, AllocError>
    requires may { MayPass (terms R.Value.cmp R.Lapses.own R.Staged.own R.Forgets.own R.Resource.own ground.now) }
    requires seen { AreSeen (terms R.Value.cmp R.Lapses.own R.Staged.own R.Forgets.own R.Resource.own ground.now) seen.now }
    requires rank { rank < length ground.now.net.now.duties }
    requires there { IsThere seen.now.departures (get_or ground.now.positions.now rank 0) }
    ensures { IfOk result (λ front. front ≡ get_or (labelling_of (terms R.Value.cmp R.Lapses.own R.Staged.own R.Forgets.own R.Resource.own ground.now)).fronts rank []) }
{
    if ground.resource.is_plain() {
        return plain_front(alloc, ground, seen, rank);
    }
    filtered_front(alloc, ground, seen, rank)
}
