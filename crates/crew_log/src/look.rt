//! Looks at a row of places.

ghost use Rattle.std.specs.Prelude.{◌≡◌, IfOk, IfErr};
ghost use Rattle.boxcar.specs.Table.{Shows};

use crate::stamped::{InPlace, Stamped};
use boxcar::table::{Placed, Table};
use std::alloc::Global;
use std::snapshot::Snapshot;

/// That a place of a row was looked at, and showed nothing then. `look` alone makes one.
#[derive(Drop)]
pub(crate) struct Unshown {
    place: usize,
    row: Snapshot<Table<Stamped, InPlace, Global>>,
}

/// What shows the entry at a place of a row, or else that the row was looked at there.
///
/// That a place with an entry isn't told to show nothing, no contract says: the row's own look
/// promises nothing where it finds none.
pub(crate) fn look(
    row: &Table<Stamped, InPlace, Global>,
    place: usize,
) -> Result<Placed<Stamped, InPlace, Global>, Unshown>
    ensures ok { IfOk result (λ at. (at.index ≡ place) × Shows row.now at) }
    ensures err { IfErr result (λ unshown. (unshown.row.value ≡ row.now)
        × (unshown.place ≡ place)) }
{
    match row.witness(place) {
        Some(at) => Ok(at),
        None => Err(Unshown {
            place,
            row: Snapshot::of(row),
        }),
    }
}
