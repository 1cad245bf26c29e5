//! Which bases are the same.
ghost use Rattle.std.specs.Prelude.{◌≡◌, ◌↔◌, ℕ, ℤ, IfOk, IsTrue, List, Option, Some, false, get_or, slice_get, true};
ghost use Rattle.std.specs.FinMap as map;

use crew_flights::{Code, Timetable};
use std::alloc::{AllocError, Global};

// Whether two prices are the same, or neither is there.
fn is_same_price(old: Option<i64>, new: Option<i64>) -> bool
    ensures { IsTrue result ↔ (old ≡ new) }
{
    match (old, new) {
        (Some(old), Some(new)) => old == new,
        (None, None) => true,
        _ => false,
    }
}

/// The flags of the bases whose price is the same in both timetables.
pub(crate) fn same_prices(
    alloc: Global,
    old: &Timetable,
    new: &Timetable,
    bases: &[Code],
) -> Result<Vec<bool>, AllocError>
    ensures { IfOk result (λ flags. (place : ℕ) (base : List ℕ)
        → slice_get bases.now place ≡ Some base → (get_or flags.items place false ≡ true)
        ↔ (map.get old.now.bases base ≡ map.get new.now.bases base)) }
{
    let mut flags = Vec::with_capacity(alloc, bases.len())?;
    for base in bases {
        flags.push(is_same_price(old.base_price(*base), new.base_price(*base)))?;
    }
    Ok(flags)
}
