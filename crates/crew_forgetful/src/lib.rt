//! Resources that may forget a part of their values: labels at events, of which one may stand for
//! another.
//!
//! Dominance among labels (Irnich and Desaulniers 2005) drops a label for one whose value is at
//! most its own. Where boarding keeps two values apart, that loses no walk; but where boarding may
//! make two values one, the dropped label may have had the lesser walk. A resource of this crate
//! tells its sums, the part of a value that is never forgotten (`Forgets`), and a pool drops a label
//! only for one whose value is at most its own and whose sums differ or whose walk is no later. The
//! crate promises that such a pool is one for each list of labels and is made label by label
//! (`offer`), that pools merge in any order, and that fronts filtered from such pools are those of
//! all labels (`laws`). Of a resource with marks (`Marked`) a glance tells most pairs of values that
//! are in no order, and one that tells what lapses (`Lapses`) spares the labels that stand to each
//! other as they did.
#![tactic(auto)]

mod forgets;
mod lapses;
pub mod laws;
mod marked;
mod pool;

pub use forgets::{Forgets, stands_for};
pub use lapses::Lapses;
pub use marked::Marked;
pub use pool::offer;
