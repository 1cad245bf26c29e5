//! Rooms in which the pool of one event is put together.
//!
//! A room takes in labels, pool after pool (`Room::wait`) or as they board an item (`Room::board`), and
//! keeps those that dominance by the rule that looks at paths leaves (`crew_forgetful`): each newcomer is
//! tried against the labels that are there, and each of these against the newcomers that stay, and
//! none against its own. The crate promises that what a room has is then the pool of all candidates
//! together, that a failed step leaves the room its labels, and that `Room::sorted` copies out all of it,
//! in the listing order. The memory of a room serves one event after another. A glance at four marks
//! by column (`Glanced`) tells of most pairs that neither may stand for the other, four at a time.
#![tactic(auto)]

mod columns;
mod copy;
mod glance;
mod held;
mod join;
mod long;
mod room;
mod stand;

pub use glance::Glanced;
pub use room::Room;
