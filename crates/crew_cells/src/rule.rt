//! What is right in a cell.
ghost use Rattle.std.specs.Prelude.{ℕ};

/// Which values are right in the cells of a table: by what the table stands on, and the number of the
/// cell.
pub trait CellRule<B, T> {
    ghost holds: { B → ℕ → T → Type 0 };
}
