//! Labels, copied out in the listing order.
ghost use Rattle.std.specs.Prelude.{◌≡◌, IfOk};
ghost use Rattle.std.specs.List.Sorted.{IsPermutation};
ghost use Rattle.crew_label.specs.Pools.{AreRising};
ghost use Rattle.crew_room.specs.Rooms.{HaveOwnValues};

use crew_label::Label;
use crew_resource::Resource;
use std::alloc::{AllocError, Global};

// Equal labels, in a list of their number.
pub(crate) fn copy_labels<R: Resource>(
    alloc: Global,
    resource: &R,
    labels: &[Label<R::Value>],
) -> Result<Vec<Label<R::Value>>, AllocError>
    ensures { IfOk result (λ copied. copied.items ≡ labels.now) }
{
    let mut copied = Vec::with_capacity(alloc, labels.len())?;
    for label in labels {
        let value = resource.copy(&label.value)?;
        let before = label.before;
        copied.push(Label { value, before })?;
    }
    Ok(copied)
}

// Puts labels of which no value stands twice into the listing order.
pub(crate) fn sort_labels<R: Resource>(labels: &mut Vec<Label<R::Value>>)
    requires { HaveOwnValues labels.old.items }
    ensures same { IsPermutation labels.old.items labels.new.items }
    ensures rises { AreRising R.Value.cmp labels.new.items }
{
    labels.sort_unstable_by(|a, b| a.value.cmp(&b.value));
}
