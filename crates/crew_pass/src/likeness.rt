//! Whether a pool that was made anew came out as the earlier pass has it.
ghost use Rattle.std.specs.Prelude.{◌≡◌, ◌<◌, [], get_or, length};
ghost use Rattle.crew_labelling.specs.Labellings.{labelling_of};
ghost use Rattle.crew_pass.specs.Machinery.Beside.{AreBeside};
ghost use Rattle.crew_pass.specs.Machinery.Seen.{AreSeen};
ghost use Rattle.crew_pass.specs.Machinery.Shelves.{AreKnown};
ghost use Rattle.crew_pass.specs.Machinery.Terms.{MayPass, leaving_of, terms};

use crate::beside::Beside;
use crate::ground::Ground;
use crate::pooled::Pooled;
use crate::seen::Seen;
use crate::sight::Sight;
use crate::takeover::twin_at;
use crew_label::{Pool, are_alike, are_same};

/// Notes where the pool of the departure at a position came out alike.
pub(crate) fn note_departure<R: Pooled>(
    ground: &Ground<R>,
    beside: &Beside<R>,
    seen: &Seen<R>,
    pool: &Pool<R>,
    position: usize,
)
    requires may { MayPass (terms R.Value.cmp R.Lapses.own R.Staged.own R.Forgets.own R.Resource.own ground.now) }
    requires beside { AreBeside ground.now beside.now }
    requires seen { AreSeen (terms R.Value.cmp R.Lapses.own R.Staged.own R.Forgets.own R.Resource.own ground.now) seen.now }
    requires position { position < length ground.now.net.now.by_report }
    requires pool { pool.now ≡ get_or (labelling_of (terms R.Value.cmp R.Lapses.own R.Staged.own R.Forgets.own R.Resource.own ground.now)).departures position [] }
    requires known { AreKnown (leaving_of ground.now) seen.now.departures pool.now }
{
    let Some(other) = twin_at(&beside.twins.departures, position) else {
        return;
    };
    let table = beside.earlier.fronts().table();
    let Some(before) = table.get(other) else {
        return;
    };
    let sight = Sight::over(ground, seen);
    let twins = &beside.twins.duties;
    if are_alike(twins, &sight, table, pool, before) {
        beside.note_alike(ground, position);
    }
}

/// Notes where the pool of the arrival at a place came out the same.
pub(crate) fn note_arrival<R: Pooled>(
    ground: &Ground<R>,
    beside: &Beside<R>,
    seen: &Seen<R>,
    pool: &Pool<R>,
    place: usize,
)
    requires may { MayPass (terms R.Value.cmp R.Lapses.own R.Staged.own R.Forgets.own R.Resource.own ground.now) }
    requires beside { AreBeside ground.now beside.now }
    requires seen { AreSeen (terms R.Value.cmp R.Lapses.own R.Staged.own R.Forgets.own R.Resource.own ground.now) seen.now }
    requires place { place < length ground.now.net.now.arrivals }
    requires pool { pool.now ≡ get_or (labelling_of (terms R.Value.cmp R.Lapses.own R.Staged.own R.Forgets.own R.Resource.own ground.now)).arrivals place [] }
    requires known { AreKnown (leaving_of ground.now) seen.now.departures pool.now }
{
    let Some(other) = twin_at(&beside.twins.arrivals, place) else {
        return;
    };
    let Some(before) = beside.earlier.arrivals().get(other) else {
        return;
    };
    let table = beside.earlier.fronts().table();
    let sight = Sight::over(ground, seen);
    let twins = &beside.twins.duties;
    if are_same(twins, &sight, table, pool, before) {
        beside.note_same(ground, place);
    }
}
