//! Laws over the definitions and types alone.
ghost use Rattle.std.specs.Prelude.{◌≡◌, ℕ};
ghost use Rattle.crew_cells.specs.Rules.{IsFunctional};

use crate::cells::{FullCells, OnceCells};
use crate::rule::CellRule;
use crate::value::CellValue;

/// Why any thread's value may be taken: of a rule that allows one value a cell, two values that hold
/// in a cell are equal.
pub fn one_value_a_cell<B, T, R: CellRule<B, T>>()
    ensures { (value_at : B → ℕ → T) → IsFunctional R.holds value_at
        → (basis : B) (number : ℕ) (one other : T) → R.holds basis number one
        → R.holds basis number other → one ≡ other }
{}

// Takes what threads may share, and give to one another.
fn crossing<X: Send + Sync>(_: &X) {}

/// Threads may share tables and values of cells, and give them to one another, where they may so
/// treat what is in the cells; the basis and the rule may be any.
pub fn tables_may_cross<B, T: Send + Sync, R: CellRule<B, T>>(
    cells: &OnceCells<B, T, R>,
    full: &FullCells<B, T, R>,
    value: &CellValue<'_, T>,
) {
    crossing(cells);
    crossing(full);
    crossing(value);
}
