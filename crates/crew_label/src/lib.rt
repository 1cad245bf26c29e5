//! Pools of labels whose paths are links.
//!
//! A label is its value and a link: the duty boarded last, by its number, and the place of the label
//! that boarded it in the pool of the departure which that duty leaves from. So a path is read by
//! following links, there is no table of paths beside the pools, and a pool made once never changes:
//! it may be shared by threads and by versions. Labels are dominated by the rule that looks at
//! paths too (`crew_forgetful`), so a resource may forget a part of its values. A `Table` has the pools
//! of departures. `Pool::of_pools` merges the pools of one event all at once, one after another: their
//! labels stay where they stand, and those that are left are copied at the end. Which labels may
//! dominate another is looked up in an index, by their marks (`index`), so that few pairs of many
//! are compared. Of a resource that tells what lapses `front_aboard` extends a pool's labels and makes
//! their Pareto front at once: it compares anew only those where something lapses, or whose sums are the
//! same; and after a wait `Pool::waited` takes a pool as it stands, where it is no rest, or the pool
//! that every rest goes by (`Pool::rested`). Where nothing is forgotten, no front and no pool has to
//! be made (`laws`). Pools of two tables are compared whatever ranks duties have in them (`are_alike`,
//! `are_same`).
#![tactic(auto)]

mod aboard;
mod alike;
mod blocks;
mod gather;
mod index;
mod interleave;
mod label;
pub mod laws;
mod marks;
mod merge;
mod parts;
mod pool;
mod seen;
mod stand;
mod table;
mod trails;
mod waited;
mod whole;

pub use aboard::front_aboard;
pub use alike::{are_alike, are_same};
pub use label::{Label, Link};
pub use pool::Pool;
pub use table::Table;
pub use trails::{Trails, compare_walks};
