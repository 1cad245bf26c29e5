//! Whether two pools are alike.
ghost use Rattle.std.specs.Prelude.{◌≡◌, ◌<◌, ◌↔◌, ℕ, IfOk, IsTrue, List, Ok, length, map, true};
ghost use Rattle.std.specs.List.Sorted.{IsPermutation};
ghost use Rattle.crew_carry.specs.Carried.{AreTwinWalks};
ghost use Rattle.crew_carry.specs.Labels.{AreCarriedLabels};
ghost use Rattle.crew_carry.specs.Twins.{AreRankTwins};
ghost use Rattle.crew_pairing.specs.Legs.{Leg};
ghost use Rattle.crew_pairing.specs.declared.duty.Duty.{Duty};
ghost use Rattle.crew_pool.specs.Arena.{walk_at};
ghost use Rattle.crew_pool.specs.LabelWalks.{duty_of, shown};
ghost use Rattle.crew_pool.specs.Ranks.{by_key};
ghost use Rattle.crew_pool.specs.declared.label_walk.LabelWalk.{LabelWalk};
ghost use Rattle.crew_resource.specs.Members.{Member};

use crate::carrier::twin;
use crew_pool::{LabelWalk, NO_DUTY, Pool, Walks};
use crew_resource::Resource;
use std::alloc::{AllocError, Global};

/// Whether two pools have the same vectors, each with the same walk by key, in whatever order. A walk
/// is that of a label, with the duty after it where it has one.
///
/// The ranks are those of the duties' twins, from the old pool's network to the new one's. Labels
/// that are the same one by one, as they stand, are found so without memory.
pub fn are_alike<R: Resource>(
    alloc: Global,
    old: &Pool<R>,
    from: &Walks,
    ranks: &[Option<u32>],
    new: &Pool<R>,
    to: &Walks,
) -> Result<bool, AllocError>
    requires old_there { (l : R.Value × LabelWalk) → Member old.now l → l.1.walk < length from.now }
    requires new_there { (l : R.Value × LabelWalk) → Member new.now l → l.1.walk < length to.now }
    ensures alike { result ≡ Ok true → (olds news : List Duty) → AreRankTwins olds news ranks.now
        → (e : R.Value × List (List Leg))
        → (Member (by_key olds (map (shown from.now) old.now)) e
        → Member (by_key news (map (shown to.now) new.now)) e)
        × (Member (by_key news (map (shown to.now) new.now)) e
        → Member (by_key olds (map (shown from.now) old.now)) e) }
    ensures found { AreCarriedLabels ranks.now from.now to.now old.now new.now
        → result ≡ Ok true }
{
    let held = old.as_slice();
    let made = new.as_slice();
    if are_in_order::<R>(held, from, ranks, made, to) {
        return Ok(true);
    }
    if held.len() != made.len() {
        return Ok(false);
    }
    let olds = by_vector::<R>(alloc, held)?;
    let news = by_vector::<R>(alloc, made)?;
    Ok(are_twins::<R>(&olds, from, ranks, &news, to))
}

// Whether labels have the same vectors, each at the walk's twin, one by one as they stand.
fn are_in_order<R: Resource>(
    olds: &[(R::Value, LabelWalk)],
    from: &Walks,
    ranks: &[Option<u32>],
    news: &[(R::Value, LabelWalk)],
    to: &Walks,
) -> bool
    requires old_there { (l : R.Value × LabelWalk) → Member olds.now l
        → l.1.walk < length from.now }
    requires new_there { (l : R.Value × LabelWalk) → Member news.now l → l.1.walk < length to.now }
    ensures { IsTrue result
        ↔ AreCarriedLabels ranks.now from.now to.now olds.now news.now }
{
    if olds.len() != news.len() {
        return false;
    }
    for place in 0..olds.len() {
        if !is_twin::<R>(&olds[place], from, ranks, &news[place], to) {
            return false;
        }
    }
    true
}

// The labels in order of vector.
fn by_vector<'a, R: Resource>(
    alloc: Global,
    labels: &'a [(R::Value, LabelWalk)],
) -> Result<Vec<&'a (R::Value, LabelWalk)>, AllocError>
    ensures { IfOk result (λ sorted. IsPermutation labels.now (map (λ l. l.now) sorted.items)) }
{
    let mut sorted = Vec::with_capacity(alloc, labels.len())?;
    for label in labels {
        sorted.push(label)?;
    }
    sorted.sort_unstable_by(|a, b| a.0.cmp(&b.0));
    Ok(sorted)
}

// Whether labels have the same vectors, each at the walk's twin, one by one.
fn are_twins<R: Resource>(
    olds: &[&(R::Value, LabelWalk)],
    from: &Walks,
    ranks: &[Option<u32>],
    news: &[&(R::Value, LabelWalk)],
    to: &Walks,
) -> bool
    requires old_there { (l : R.Value × LabelWalk) → Member (map (λ l. l.now) olds.now) l
        → l.1.walk < length from.now }
    requires new_there { (l : R.Value × LabelWalk) → Member (map (λ l. l.now) news.now) l
        → l.1.walk < length to.now }
    ensures { IsTrue result ↔ AreCarriedLabels ranks.now from.now to.now
        (map (λ l. l.now) olds.now) (map (λ l. l.now) news.now) }
{
    if olds.len() != news.len() {
        return false;
    }
    for place in 0..olds.len() {
        if !is_twin::<R>(olds[place], from, ranks, news[place], to) {
            return false;
        }
    }
    true
}

// Whether a label has the same vector as another, at the walk's twin, with the twin of its duty.
fn is_twin<R: Resource>(
    old: &(R::Value, LabelWalk),
    from: &Walks,
    ranks: &[Option<u32>],
    new: &(R::Value, LabelWalk),
    to: &Walks,
) -> bool
    requires old { old.now.1.walk < length from.now }
    requires new { new.now.1.walk < length to.now }
    ensures { IsTrue result ↔ ((new.now.0 ≡ old.now.0)
        × AreTwinWalks ranks.now (duty_of old.now.1.duty) (duty_of new.now.1.duty)
        × AreTwinWalks ranks.now (walk_at from.now old.now.1.walk)
        (walk_at to.now new.now.1.walk)) }
{
    new.0.cmp(&old.0).is_eq()
        && is_twin_duty(old.1.duty, ranks, new.1.duty)
        && is_twin_walk(from, old.1.walk, ranks, to, new.1.walk)
}

// Whether the duty after a walk is the twin of that after another, or both have none.
fn is_twin_duty(old: u32, ranks: &[Option<u32>], new: u32) -> bool
    ensures { IsTrue result ↔ AreTwinWalks ranks.now (duty_of old) (duty_of new) }
{
    if old == NO_DUTY || new == NO_DUTY {
        return old == new;
    }
    match twin(ranks, old) {
        Some(found) => found == new,
        None => false,
    }
}

// Whether a walk has the twins of another's duties, from the last back.
fn is_twin_walk(from: &Walks, old: u32, ranks: &[Option<u32>], to: &Walks, new: u32) -> bool
    requires old { old < length from.now }
    requires new { new < length to.now }
    ensures { IsTrue result
        ↔ AreTwinWalks ranks.now (walk_at from.now old) (walk_at to.now new) }
{
    let Some((first, rank)) = from.last(old) else {
        return to.last(new).is_none();
    };
    let Some((start, duty)) = to.last(new) else {
        return false;
    };
    let Some(found) = twin(ranks, rank) else {
        return false;
    };
    found == duty && is_twin_walk(from, first, ranks, to, start)
}
