//! Pools that are carried from one list of walks to another.
ghost use Rattle.std.specs.Arc.{arc_value};
ghost use Rattle.std.specs.Prelude.{◌≡◌, ◌<◌, ℕ, ℤ, IfOk, IfSome, IsNone, List, OnOk, Option, Some, length, map, slice_get, true};
ghost use Rattle.crew_carry.specs.Carried.{AreTwinWalks, IsCarried, LacksTwin, twin_of};
ghost use Rattle.crew_carry.specs.Labels.{AreCarriedLabels};
ghost use Rattle.crew_carry.specs.Spans.{StandsWithin};
ghost use Rattle.crew_carry.specs.Twins.{AreRankTwins};
ghost use Rattle.crew_pairing.specs.declared.duty.Duty.{Duty};
ghost use Rattle.crew_pool.specs.Arena.{walk_at};
ghost use Rattle.crew_pool.specs.Counted.{AreCounted, AreWhole};
ghost use Rattle.crew_pool.specs.LabelWalks.{shown};
ghost use Rattle.crew_pool.specs.Ranks.{AreRanked, by_key};
ghost use Rattle.crew_pool.specs.declared.label_walk.LabelWalk.{LabelWalk};
ghost use Rattle.crew_resource.specs.Members.{Member};
ghost use Rattle.crew_step.specs.Walks.{HasGrown};

use crate::places::Places;
use crate::span::Span;
use crew_pool::{LabelWalk, NO_DUTY, Pool, Walks};
use crew_resource::Resource;
use std::alloc::{AllocError, Global};
use std::marker::Model;
use std::sync::Arc;

/// Where walks of one list stand in another, so far as they were carried there.
///
/// A contract sees, by place of an old walk, its place among the new ones.
pub struct Carrier {
    places: Places,
}

impl Drop for Carrier {
    fn drop(self) {
        let Self { places: _ } = self;
    }
}

impl Model for Carrier {
    ghost Value = { List (Option ℕ) };

    ghost view = { λ c. c.places };
}

impl Carrier {
    /// For so many old walks, of which none is carried yet.
    pub fn new(alloc: Global, count: usize) -> Result<Carrier, AllocError>
        ensures { IfOk result (λ carrier. (ranks : List (Option ℕ)) (from to : List (List ℕ))
            → length from ≡ count → IsCarried ranks from to carrier) }
    {
        let places = Places::none(alloc, count)?;
        Ok(Carrier { places })
    }

    /// For all old walks, which are carried at once, with the new walks, which share what the old ones
    /// share.
    ///
    /// Each old walk comes to its own place; one with a duty that has no twin isn't carried, and leaves
    /// its place to a walk of which no label knows. So a pool of carried walks can be shared as it
    /// stands. No clause says so: `share` looks where each walk is.
    pub fn in_place(
        alloc: Global,
        from: &Walks,
        ranks: &[Option<u32>],
    ) -> Result<(Carrier, Walks), AllocError>
        ensures { IfOk result (λ made. IsCarried ranks.now from.now made.1 made.0) }
    {
        let to = from.under(alloc, ranks)?;
        let places = Places::own(alloc, from, ranks)?;
        Ok((Carrier { places }, to))
    }

    /// A pool over the new walks, as `carry` makes it: the old one itself, shared, where each of its
    /// walks is carried to its own place.
    ///
    /// On want of memory some walks may already have been added, and nothing else has changed.
    pub fn share<R: Resource>(
        &mut self,
        alloc: Global,
        resource: &R,
        pool: &Arc<Pool<R>, Global>,
        from: &Walks,
        ranks: &[Option<u32>],
        to: &mut Walks,
    ) -> Result<Option<Arc<Pool<R>, Global>>, AllocError>
        requires there { (l : R.Value × LabelWalk) → Member (arc_value pool.now) l
            → l.1.walk < length from.now }
        requires whole { AreWhole (arc_value pool.now) }
        requires carried { IsCarried ranks.now from.now to.old self.old }
        ensures carried { IsCarried ranks.now from.now to.new self.new }
        ensures grown { HasGrown to.old to.new }
        ensures labels { IfOk result (λ o. IfSome o (λ new. (olds news : List Duty)
            → AreRankTwins olds news ranks.now → by_key news (map (shown to.new) (arc_value new))
            ≡ by_key olds (map (shown from.now) (arc_value pool.now)))) }
        ensures counted { IfOk result (λ o. IfSome o (λ new. (count : R.Value → ℤ)
            → AreCounted count from.now true (arc_value pool.now)
            → AreCounted count to.new true (arc_value new))) }
        ensures ranked { IfOk result (λ o. IfSome o (λ new. (olds news : List Duty)
            → AreRankTwins olds news ranks.now
            → AreRanked (length news) (map (shown to.new) (arc_value new)))) }
        ensures none { IfOk result (λ o. IsNone o → (l : R.Value × LabelWalk)
            × Member (arc_value pool.now) l × LacksTwin ranks.now (walk_at from.now l.1.walk)) }
    {
        if are_in_place::<R>(&self.places, pool.as_slice()) {
            return Ok(Some(Arc::try_clone(pool)?));
        }
        let Some(new) = self.carry(alloc, resource, pool, from, ranks, to)? else {
            return Ok(None);
        };
        Ok(Some(Arc::new(alloc, new)?))
    }

    /// Whether each walk of a span is known to have been carried to its own place, and the empty one
    /// too: so a pool whose walks stand there can be shared as it stands, and no label is looked at. It
    /// takes no memory. `false` promises nothing: it is the answer wherever the walks weren't carried at
    /// once, by `in_place`.
    pub fn stands(&self, span: Span) -> bool
        ensures { result ≡ true → (walk : ℕ) → StandsWithin span walk
            → slice_get self.now walk ≡ Some (Some walk) }
    {
        self.places.stand(0, 0) && self.places.stand(span.first, span.last)
    }

    /// A pool over the new walks, with the same vectors in the same order, each at its old walk's
    /// twin: `None` where a walk has a duty without one.
    ///
    /// Each old walk is added at most once, so walks that share a beginning still do. On want of
    /// memory some walks may already have been added, and nothing else has changed.
    pub fn carry<R: Resource>(
        &mut self,
        alloc: Global,
        resource: &R,
        pool: &Pool<R>,
        from: &Walks,
        ranks: &[Option<u32>],
        to: &mut Walks,
    ) -> Result<Option<Pool<R>>, AllocError>
        requires there { (l : R.Value × LabelWalk) → Member pool.now l
            → l.1.walk < length from.now }
        requires whole { AreWhole pool.now }
        requires carried { IsCarried ranks.now from.now to.old self.old }
        ensures carried { IsCarried ranks.now from.now to.new self.new }
        ensures grown { HasGrown to.old to.new }
        ensures labels { IfOk result (λ o. IfSome o (λ new. (olds news : List Duty)
            → AreRankTwins olds news ranks.now
            → by_key news (map (shown to.new) new) ≡ by_key olds (map (shown from.now) pool.now))) }
        ensures vectors { IfOk result (λ o. IfSome o (λ new.
            map (λ l. l.0) new ≡ map (λ l. l.0) pool.now)) }
        ensures counted { IfOk result (λ o. IfSome o (λ new. (count : R.Value → ℤ)
            → AreCounted count from.now true pool.now → AreCounted count to.new true new)) }
        ensures ranked { IfOk result (λ o. IfSome o (λ new. (olds news : List Duty)
            → AreRankTwins olds news ranks.now
            → AreRanked (length news) (map (shown to.new) new))) }
        ensures none { IfOk result (λ o. IsNone o → (l : R.Value × LabelWalk) × Member pool.now l
            × LacksTwin ranks.now (walk_at from.now l.1.walk)) }
    {
        let labels = pool.as_slice();
        let carried = carry_labels(&mut self.places, alloc, resource, labels, from, ranks, to)?;
        let Some(labels) = carried else {
            return Ok(None);
        };
        Ok(Some(Pool::from_apart(labels)))
    }
}

// Whether the walks of all labels were carried to their own places.
fn are_in_place<R: Resource>(places: &Places, labels: &[(R::Value, LabelWalk)]) -> bool
    requires { (l : R.Value × LabelWalk) → Member labels.now l → l.1.walk < length places.now }
    ensures { result ≡ true → (l : R.Value × LabelWalk) → Member labels.now l
        → slice_get places.now l.1.walk ≡ Some (Some l.1.walk) }
{
    for label in labels {
        if !places.is_own(label.1.walk) {
            return false;
        }
    }
    true
}

// The labels over the new walks, one by one.
fn carry_labels<R: Resource>(
    places: &mut Places,
    alloc: Global,
    resource: &R,
    labels: &[(R::Value, LabelWalk)],
    from: &Walks,
    ranks: &[Option<u32>],
    to: &mut Walks,
) -> Result<Option<Vec<(R::Value, LabelWalk)>>, AllocError>
    requires there { (l : R.Value × LabelWalk) → Member labels.now l
        → l.1.walk < length from.now }
    requires whole { AreWhole labels.now }
    requires carried { IsCarried ranks.now from.now to.old places.old }
    ensures carried { IsCarried ranks.now from.now to.new places.new }
    ensures grown { HasGrown to.old to.new }
    ensures labels { IfOk result (λ o. IfSome o (λ new.
        AreCarriedLabels ranks.now from.now to.new labels.now new.items)) }
    ensures none { IfOk result (λ o. IsNone o → (l : R.Value × LabelWalk) × Member labels.now l
        × LacksTwin ranks.now (walk_at from.now l.1.walk)) }
{
    let mut carried = Vec::with_capacity(alloc, labels.len())?;
    for label in labels {
        let Some(walk) = carry_walk(places, label.1.walk, from, ranks, to)? else {
            return Ok(None);
        };
        let value = resource.copy(&label.0)?;
        let duty = NO_DUTY;
        carried.push((value, LabelWalk { walk, duty }))?;
    }
    Ok(Some(carried))
}

// The place of a walk among the new ones, where it is added if it isn't there yet: a walk's twin is
// that of its beginning, and the twin of its last duty.
fn carry_walk(
    places: &mut Places,
    walk: u32,
    from: &Walks,
    ranks: &[Option<u32>],
    to: &mut Walks,
) -> Result<Option<u32>, AllocError>
    requires there { walk < length from.now }
    requires carried { IsCarried ranks.now from.now to.old places.old }
    ensures carried { IsCarried ranks.now from.now to.new places.new }
    ensures grown { HasGrown to.old to.new }
    ensures walk { IfOk result (λ o. IfSome o (λ place. (place < length to.new)
        × AreTwinWalks ranks.now (walk_at from.now walk) (walk_at to.new place))) }
    ensures none { IfOk result (λ o. IsNone o → LacksTwin ranks.now (walk_at from.now walk)) }
{
    if let Some(place) = places.at(walk) {
        return Ok(Some(place));
    }
    let Some((before, duty)) = from.last(walk) else {
        return Ok(Some(to.empty_walk()));
    };
    let Some(twin) = twin(ranks, duty) else {
        return Ok(None);
    };
    let Some(first) = carry_walk(places, before, from, ranks, to)? else {
        return Ok(None);
    };
    let place = to.add(first, twin)?;
    places.put(walk, place);
    Ok(Some(place))
}

/// The twin of a duty by rank, if it has one.
pub(crate) fn twin(ranks: &[Option<u32>], rank: u32) -> Option<u32>
    ensures { result ≡ twin_of ranks.now rank }
{
    if rank as usize >= ranks.len() {
        return None;
    }
    ranks[rank as usize]
}
