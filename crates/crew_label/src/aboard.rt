//! The front of the labels that board.
ghost use Rattle.std.specs.Prelude.{◌≡◌, ◌⊎◌, ◌++◌, ℕ, Bool, List, Option, Some, map, IfOk, OnOk};
ghost use Rattle.crew_resource.specs.Labels.{IsLocal};
ghost use Rattle.crew_resource.specs.Members.{Member};
ghost use Rattle.crew_forgetful.specs.Machinery.Sums.{is_same};
ghost use Rattle.crew_forgetful.specs.Sweeps.{TellCount};
ghost use Rattle.crew_label.specs.Boarding.{LeadInto, boarded_from, linked};
ghost use Rattle.crew_label.specs.Machinery.Rules.{same_by};
ghost use Rattle.crew_label.specs.Machinery.Runs.{AreRuns, IsFrontOf, IsRun, boards_where};
ghost use Rattle.crew_label.specs.Pools.{AreCounted, ArePoolOf, AreRising};
ghost use Rattle.crew_label.specs.Walks.{ranks_at_most, shown};
ghost use Rattle.crew_label.specs.declared.label.Label.{Label};
ghost use Rattle.crew_label.specs.declared.label.Link.{Link};

use crate::gather::gather;
use crate::label::{Label, Link};
use crate::merge::merge_lists;
use crate::pool::Pool;
use crate::stand::{Rule, push_copy};
use crate::trails::Trails;
use crew_forgetful::{Forgets, Lapses};
use crew_resource::{Placed, Resource, Staged};
use std::alloc::{AllocError, Global};

// The most labels of a pool that a link can tell apart.
const MOST: usize = 0xffff_ffff;

/// The Pareto front of the labels that board an item from a departure's pool: what dominance by values
/// leaves of them, each value with its least path. It is a pool of its own labels, and so may be
/// merged.
///
/// In a departure's pool no label stands for another. Where nothing of two labels lapses as they
/// board, that is still so after it, unless their sums are the same: so only those are compared
/// anew, and they stand together. `duty` is the item's number. A pool of 2^32 labels is refused as
/// want of memory is.
pub fn front_aboard<P: Placed, R: Lapses<P>, T: Trails>(
    alloc: Global,
    resource: &R,
    trails: &T,
    pool: &Pool<R>,
    item: &P,
    duty: u32,
) -> Result<Pool<R>, AllocError>
    requires sound { P.is_sound item.now }
    requires boards { (l : Label R.Value) → Member pool.now l
        → R.can_board resource.now l.value item.now }
    requires tell { TellCount R.same_sums (R.count_of resource.now) }
    requires into { (rank : ℕ) × LeadInto (T.leads trails.now) (T.trail trails.now) duty rank
        pool.now }
    requires counts { AreCounted (R.count_of resource.now) (T.leads trails.now)
        (T.trail trails.now) pool.now }
    requires most { (most : ℕ) × (R.most resource.now ≡ Some most) }
    requires clean { (candidates : List (R.Value × List ℕ)) × ArePoolOf R.below R.same_sums
        (T.trail trails.now) candidates pool.now }
    ensures front { IfOk result (λ front. IsLocal R.below ranks_at_most
        (λ v w. Member (map (shown (T.trail trails.now)) (boarded_from
        (λ v. R.boards resource.now v item.now) duty 0 pool.now)) (v, w))
        (map (shown (T.trail trails.now)) front)) }
    ensures itself { IfOk result (λ front. ArePoolOf R.below R.same_sums (T.trail trails.now)
        (map (shown (T.trail trails.now)) front) front) }
    ensures from { IfOk result (λ front. (l : Label R.Value) → Member front l
        → Member (boarded_from (λ v. R.boards resource.now v item.now) duty 0 pool.now) l) }
{
    let labels = pool.as_slice();
    let kept = board_where::<P, R>(alloc, resource, labels, item, duty, false)?;
    let cut = board_where::<P, R>(alloc, resource, labels, item, duty, true)?;
    let front = front_of_both::<P, R, T>(alloc, resource, trails, &kept, &cut)?;
    Ok(Pool::from_rising(front))
}

// The labels that board an item, of which something lapses as they do, or of which nothing does.
fn board_where<P: Placed, R: Lapses<P>>(
    alloc: Global,
    resource: &R,
    labels: &[Label<R::Value>],
    item: &P,
    duty: u32,
    lapsing: bool,
) -> Result<Vec<Label<R::Value>>, AllocError>
    requires sound { P.is_sound item.now }
    requires boards { (l : Label R.Value) → Member labels.now l
        → R.can_board resource.now l.value item.now }
    ensures { IfOk result (λ view. view.items ≡ boarded_from (boards_where lapsing
        (λ v. R.lapses resource.now v item.now) (λ v. R.boards resource.now v item.now)) duty 0
        labels.now) }
{
    let mut view = Vec::new(alloc);
    if labels.len() > MOST {
        return Err(AllocError);
    }
    for (place, label) in labels.iter().enumerate() {
        let place = place as u32;
        let link = Link { duty, place };
        board_label_where(resource, &mut view, &label.value, item, link, lapsing)?;
    }
    Ok(view)
}

// A value boards an item, if it can, and if something of it lapses then, or nothing does.
fn board_label_where<P: Placed, R: Lapses<P>>(
    resource: &R,
    view: &mut Vec<Label<R::Value>>,
    value: &R::Value,
    item: &P,
    link: Link,
    lapsing: bool,
) -> Result<(), AllocError>
    requires sound { P.is_sound item.now }
    requires boards { R.can_board resource.now value.now item.now }
    ensures { OnOk result (view.new.items ≡ view.old.items
        ++ linked (boards_where lapsing (λ v. R.lapses resource.now v item.now)
        (λ v. R.boards resource.now v item.now) value.now) link) }
{
    if resource.is_lapsing(value, item) != lapsing {
        return Ok(());
    }
    board_label(resource, view, value, item, link)
}

// A value boards an item, if it can.
fn board_label<P: Placed, R: Staged<P>>(
    resource: &R,
    view: &mut Vec<Label<R::Value>>,
    value: &R::Value,
    item: &P,
    link: Link,
) -> Result<(), AllocError>
    requires { R.can_board resource.now value.now item.now }
    ensures { OnOk result (view.new.items ≡ view.old.items
        ++ linked (R.boards resource.now value.now item.now) link) }
{
    let Some(value) = resource.board(value, item) else {
        return Ok(());
    };
    let before = Some(link);
    view.push(Label { value, before })?;
    Ok(())
}

// The front of two lists of labels: of the first those with the same sums stand together, and none
// is at most one with other sums; of the second nothing is known.
fn front_of_both<P: Placed, R: Lapses<P>, T: Trails>(
    alloc: Global,
    resource: &R,
    trails: &T,
    kept: &[Label<R::Value>],
    cut: &[Label<R::Value>],
) -> Result<Vec<Label<R::Value>>, AllocError>
    requires tell { TellCount R.same_sums (R.count_of resource.now) }
    requires kept_counts { AreCounted (R.count_of resource.now) (T.leads trails.now)
        (T.trail trails.now) kept.now }
    requires cut_counts { AreCounted (R.count_of resource.now) (T.leads trails.now)
        (T.trail trails.now) cut.now }
    requires runs { AreRuns R.Value.cmp R.below R.same_sums kept.now }
    ensures rises { IfOk result (λ front. AreRising R.Value.cmp front.items) }
    ensures pool { IfOk result (λ front. ArePoolOf R.below (is_same R.below) (T.trail trails.now)
        (map (shown (T.trail trails.now)) kept.now ++ map (shown (T.trail trails.now)) cut.now)
        front.items) }
    ensures from { IfOk result (λ front. (l : Label R.Value) → Member front.items l
        → Member kept.now l ⊎ Member cut.now l) }
{
    let clean = front_of_runs::<P, R, T>(alloc, resource, trails, kept)?;
    if cut.is_empty() {
        return Ok(clean);
    }
    let cut = gather::<P, R, T>(alloc, resource, trails, Rule::Values, cut)?;
    merge_lists::<P, R, T>(alloc, resource, trails, Rule::Values, &clean, &cut)
}

// The front of labels of which those with the same sums stand together: that of each run of them,
// one after another.
fn front_of_runs<P: Placed, R: Lapses<P>, T: Trails>(
    alloc: Global,
    resource: &R,
    trails: &T,
    labels: &[Label<R::Value>],
) -> Result<Vec<Label<R::Value>>, AllocError>
    requires tell { TellCount R.same_sums (R.count_of resource.now) }
    requires counts { AreCounted (R.count_of resource.now) (T.leads trails.now)
        (T.trail trails.now) labels.now }
    requires runs { AreRuns R.Value.cmp R.below R.same_sums labels.now }
    ensures { IfOk result (λ front. IsFrontOf R.Value.cmp R.below (T.trail trails.now) labels.now
        front.items) }
{
    let mut front = Vec::new(alloc);
    let mut from = 0;
    while from < labels.len() {
        let rest = &labels[from..];
        let len = run_len::<P, R>(resource, rest);
        put_front::<P, R, T>(alloc, resource, trails, &mut front, &rest[..len])?;
        from += len;
    }
    Ok(front)
}

// Puts the front of labels at the end of a list. Most runs are one label, its own front.
fn put_front<P: Placed, R: Lapses<P>, T: Trails>(
    alloc: Global,
    resource: &R,
    trails: &T,
    list: &mut Vec<Label<R::Value>>,
    labels: &[Label<R::Value>],
) -> Result<(), AllocError>
    requires tell { TellCount R.same_sums (R.count_of resource.now) }
    requires counts { AreCounted (R.count_of resource.now) (T.leads trails.now)
        (T.trail trails.now) labels.now }
    ensures { OnOk result ((front : List (Label R.Value)) × (list.new.items
        ≡ list.old.items ++ front) × IsFrontOf R.Value.cmp R.below (T.trail trails.now)
        labels.now front) }
{
    if let [label] = labels {
        return push_copy(resource, list, label);
    }
    let mut front = gather::<P, R, T>(alloc, resource, trails, Rule::Values, labels)?;
    list.append(&mut front)?;
    Ok(())
}

// How many labels from the first on have the same sums as it.
fn run_len<P: Placed, R: Forgets<P>>(resource: &R, labels: &[Label<R::Value>]) -> usize
    ensures { IsRun R.same_sums labels.now result }
{
    for (place, label) in labels.iter().enumerate() {
        if !resource.has_same_sums(&labels[0].value, &label.value) {
            return place;
        }
    }
    labels.len()
}
