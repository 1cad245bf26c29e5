//! The numbers that duties keep from one network to the next.

ghost use Rattle.std.specs.Prelude.{◌≡◌, ◌≤◌, ◌<◌, IfOk, IfSome, length, map, option_and_then, slice_get};
ghost use Rattle.std.specs.Arc.{arc_value};
ghost use Rattle.crew_numbers.specs.Machinery.Kept.{AlikeIn, AreKeptOf, IsFoundAt, StayIn};
ghost use Rattle.crew_numbers.specs.Machinery.Taken.{AreNumbered};
ghost use Rattle.crew_pairing.specs.Duties.{RiseByKey};

use crate::taking::{Taken, copied, number};
use crew_net::Net;
use crew_pairing::Key;
use std::alloc::{AllocError, Global};

// The rank of the duty with a key, looked for at one rank first.
fn rank_near(net: &Net, key: &Key, near: usize) -> Option<usize>
    ensures found { IsFoundAt (map (λ d. d.key) net.now.duties) key.now result }
    ensures few { IfSome result (λ rank. rank < 200_000) }
{
    if near < net.duty_count() {
        let same = net.duty(near).key == *key;
        if same {
            return Some(near);
        }
    }
    net.rank_of_key(key)
}

// What stands at a rank, if there is a rank.
fn at_rank(numbers: &[u32], rank: Option<usize>) -> Option<u32>
    requires { IfSome rank (λ r. r < length numbers.now) }
    ensures { result ≡ option_and_then (slice_get numbers.now) rank }
{
    match rank {
        Some(rank) => Some(numbers[rank]),
        None => None,
    }
}

// The rank after one that was found, and else the one before.
fn next_near(near: usize, found: Option<usize>) -> usize
    requires { IfSome found (λ rank. rank < 200_000) }
{
    match found {
        Some(rank) => rank + 1,
        None => near,
    }
}

// The number that each duty of a network keeps, by rank: that of its key in another network.
//
// Duties mostly stand in both networks side by side, so each is looked for after the last one
// found.
fn kept_numbers(
    alloc: Global,
    numbers: &[u32],
    old: &Net,
    new: &Net,
) -> Result<Vec<Option<u32>>, AllocError>
    requires { length numbers.now ≡ length old.now.duties }
    ensures kept { IfOk result (λ kept. AreKeptOf (map (λ d. d.key) old.now.duties)
        (map (λ d. d.key) new.now.duties) numbers.now kept.items) }
    ensures long { IfOk result (λ kept. length kept.items ≡ length new.now.duties) }
    ensures few { length new.now.duties ≤ 200_000 }
    ensures rising { RiseByKey new.now.duties }
{
    let mut kept = Vec::with_capacity(alloc, new.duty_count())?;
    let mut near = 0;
    for rank in 0..new.duty_count() {
        let found = rank_near(old, &new.duty(rank).key, near);
        kept.push(at_rank(numbers, found))?;
        near = next_near(near, found);
    }
    Ok(kept)
}

/// Numbers of the duties of a network: a duty whose key another network has keeps its number there,
/// and each other one takes a number that no duty had there.
pub(crate) fn next_taken(
    alloc: Global,
    taken: &Taken,
    old: &Net,
    new: &Net,
) -> Result<Taken, AllocError>
    requires numbered { AreNumbered (arc_value taken.now.numbers).items
        (arc_value taken.now.ranks).items taken.now.keys (length old.now.duties) }
    requires rising { RiseByKey old.now.duties }
    ensures numbered { IfOk result (λ next. AreNumbered (arc_value next.numbers).items
        (arc_value next.ranks).items next.keys (length new.now.duties)) }
    ensures rising { RiseByKey new.now.duties }
    ensures stay { IfOk result (λ next. StayIn (map (λ d. d.key) old.now.duties)
        (map (λ d. d.key) new.now.duties) (arc_value taken.now.numbers).items
        (arc_value next.numbers).items) }
    ensures alike { IfOk result (λ next. AlikeIn (map (λ d. d.key) old.now.duties)
        (map (λ d. d.key) new.now.duties) (arc_value taken.now.numbers).items
        (arc_value next.numbers).items) }
{
    let kept = kept_numbers(alloc, &taken.numbers, old, new)?;
    number(alloc, copied(&taken.keys)?, &kept, taken.ranks.len())
}
