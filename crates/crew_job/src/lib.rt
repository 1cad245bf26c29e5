//! What a board of jobs hands out and takes back. A `Ground` is what a round stands on: the version
//! that was sealed last, the entries that the round is over, and the plan of what they come to. A
//! `Job` is a node of a ground, and stands for one piece of work: the node's own inputs, and each
//! node just before it with its front. `work` does it, under no lock, and what is `Done` shows a front
//! that is local to that work, and tells whether the node has it as in the version that was sealed
//! last. `is_own` tells exactly, and by value, whether the work is that of a
//! node in another ground: whoever made a result and when, it is taken for what its job holds. No
//! comparison takes memory, and where settings and timetables are equal none looks at a front. Jobs
//! of one ground go in a `Lot`, which is done as a whole (`work_lot`), so that its ground is compared
//! once for all of them, and each base is swept once at most.
#![tactic(auto)]

mod before;
mod done;
mod done_lot;
mod fault;
mod fronts;
mod ground;
mod job;
mod kept;
pub mod laws;
mod left;
mod lot;
mod own;
mod places;
mod same_settings;
mod shown;

pub use before::may_follow;
// Crates below this one, which those above cite through it.
pub use crew_dirty;
pub use crew_version;
pub use crew_version::crew_fronts;
pub use done::{Done, work};
pub use done_lot::{DoneLot, work_lot};
pub use fault::GroundFault;
pub use ground::Ground;
pub use job::Job;
pub use lot::Lot;
pub use own::{is_own, is_own_by_data, is_own_by_work};
