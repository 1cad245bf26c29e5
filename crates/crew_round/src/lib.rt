//! What is known of each node of a round: whether it waits, is out or is done, and whether its
//! front is that of the version before. The crate promises that the least ready node and the least
//! undone one are at hand, and that after each store the nodes whose work is what it was are marked
//! done until none is left; no call goes over all nodes but the one that begins, and none but that
//! takes memory.
#![tactic(auto)]

mod cells;
mod line;
mod mark;
mod marking;
mod marks;
mod progress;
mod spot;

pub use mark::Mark;
pub use marks::Marks;
pub use progress::Progress;
