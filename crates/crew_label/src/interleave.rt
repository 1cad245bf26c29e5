//! Two lists that rise, as one.
ghost use Rattle.std.specs.Prelude.{◌≡◌, ◌<◌, ◌⊎◌, true, false, length, IfOk};
ghost use Rattle.crew_label.specs.Pools.{AreRising};
ghost use Rattle.crew_resource.specs.Members.{Member};
ghost use Rattle.crew_label.specs.Machinery.Seeing.{labels_of};
ghost use Rattle.crew_label.specs.declared.seen.Seen.{Seen};
ghost use Rattle.crew_label.specs.Machinery.Merges.{AreDistinct, IsMerged, ComesFirst};

use crate::seen::{Seen, push_seen};
use crew_resource::Resource;
use std::alloc::{AllocError, Global};

// All of two lists whose labels rise and have no value in common, as a list whose labels rise.
pub(crate) fn interleave<'a, R: Resource>(
    alloc: Global,
    one: &[Seen<'a, R::Value>],
    two: &[Seen<'a, R::Value>],
) -> Result<Vec<Seen<'a, R::Value>>, AllocError>
    requires one { AreRising R.Value.cmp (labels_of one.now) }
    requires two { AreRising R.Value.cmp (labels_of two.now) }
    requires distinct { AreDistinct (labels_of one.now) (labels_of two.now) }
    ensures labels { IfOk result (λ whole. IsMerged R.Value.cmp (labels_of one.now)
        (labels_of two.now) (labels_of whole.items)) }
    ensures from { IfOk result (λ whole. (s : Seen R.Value) → Member whole.items s
        → Member one.now s ⊎ Member two.now s) }
{
    let mut whole = Vec::with_capacity(alloc, one.len().saturating_add(two.len()))?;
    let mut i = 0;
    let mut j = 0;
    while i < one.len() || j < two.len() {
        if is_from_one::<R>(one, i, two, j) {
            push_seen::<R>(&mut whole, &one[i])?;
            i += 1;
        } else {
            push_seen::<R>(&mut whole, &two[j])?;
            j += 1;
        }
    }
    Ok(whole)
}

// Whether the next label is of the first list.
fn is_from_one<R: Resource>(
    one: &[Seen<'_, R::Value>],
    i: usize,
    two: &[Seen<'_, R::Value>],
    j: usize,
) -> bool
    requires left { i < length one.now ⊎ j < length two.now }
    requires distinct { AreDistinct (labels_of one.now) (labels_of two.now) }
    ensures one { result ≡ true → ComesFirst (λ s t. R.Value.cmp s.label.now.value
        t.label.now.value) one.now i two.now j }
    ensures two { result ≡ false → ComesFirst (λ s t. R.Value.cmp s.label.now.value
        t.label.now.value) two.now j one.now i }
{
    if i >= one.len() {
        return false;
    }
    if j >= two.len() {
        return true;
    }
    let first = one[i].label;
    let second = two[j].label;
    first.value.cmp(&second.value).is_lt()
}
