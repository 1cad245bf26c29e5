//! Cells that are each written once, for values that any thread may make.
//!
//! A table has so many cells, over one basis: all that the values in it are made of. A rule says
//! which values are right in a cell, by the basis and the number of the cell. Whoever needs a cell
//! that is empty makes its value and offers it; nobody holds a lock or waits, and who was slower
//! uses what is there. The crate promises that each value read from a cell holds by the rule, for
//! the table's own basis and that cell's number, whichever thread put it in (`OnceCells::get`,
//! `OnceCells::offer`); that once all cells are written each read gives a value (`FullCells::get`);
//! and that of a rule which allows one value a cell all threads see the same one (`laws`). It
//! promises nothing of which thread makes what, and not that a value is made once.
//!
//! A cell is a slot of `boxcar`, whose rule may name nothing but numbers and the value. So a value
//! is stored with a token that names the basis, and the slot's numbers are that name and the number
//! of the cell; two tokens of one name are of one basis. Names, numbers and tokens take no bytes,
//! and bases are never compared.
#![tactic(auto)]

mod cells;
pub mod laws;
mod rule;
mod value;

pub use cells::{FullCells, OnceCells};
pub use rule::CellRule;
pub use value::CellValue;
