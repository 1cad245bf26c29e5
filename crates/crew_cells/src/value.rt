//! A value that is right in a cell, wherever it lies.
ghost use Rattle.std.specs.Prelude.{◌≡◌};

use std::marker::Model;

// Where a value lies: in the cell, or with the caller.
#[derive(Drop)]
pub(crate) enum Place<'a, T> {
    There(&'a T),
    Own(T),
}

/// What came of an offer: the value that lies in the cell, or the caller's own, where another thread
/// is just writing the cell.
///
/// A contract sees the value.
#[derive(Drop)]
pub struct CellValue<'a, T> {
    place: Place<'a, T>,
}

impl<'a, T> Model for CellValue<'a, T> {
    ghost use Rattle.crew_cells.specs.Machinery.Places.{value_of};

    ghost Value = { T };

    ghost coded = { T.code };

    ghost view = { λ value. value_of value.place };
}

impl<'a, T> CellValue<'a, T> {
    /// One that lies in its cell.
    pub fn there(value: &'a T) -> CellValue<'a, T>
        ensures { result ≡ value.now }
    {
        CellValue {
            place: Place::There(value),
        }
    }

    /// One that lies with the caller.
    pub fn own(value: T) -> CellValue<'a, T>
        ensures { result ≡ value }
    {
        CellValue {
            place: Place::Own(value),
        }
    }

    /// The value.
    pub fn value(&self) -> &T
        ensures { result.now ≡ self.now }
    {
        match &self.place {
            Place::There(value) => value,
            Place::Own(value) => value,
        }
    }
}
