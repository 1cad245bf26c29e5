//! Pools: the non-dominated labels of one event. `GrowingPool::merge` and
//! `absorb_boarding` take a whole pool at once, and leave what all candidates so far leave; a glance
//! at marks (`Marked`) tells of most labels that they don't dominate another. A `View` shows what of
//! a departure's pool extends along a duty, with no memory. Paths of labels share their beginnings in
//! `Walks`, and are compared only at equal vectors.
#![tactic(auto)]

mod absorb;
mod arena;
mod columns;
mod entries;
mod growing;
mod label_walk;
mod labels;
pub mod laws;
mod links;
mod marks;
mod merge;
mod pool;
mod view;
mod workspace;

pub use absorb::absorb_boarding;
pub use arena::Walks;
pub use entries::Entries;
pub use growing::GrowingPool;
pub use label_walk::{LabelWalk, NO_DUTY};
pub use marks::Marked;
pub use pool::Pool;
pub use view::View;
pub use workspace::Workspace;
