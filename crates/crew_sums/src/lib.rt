//! The fronts of pairings of which seven sums tell all, by the pass that serves every resource.
//!
//! `SumsResource` has a base's pairings by the seven sums of `crew_vector`, as of a common instant
//! (`crew_anchor`), with what `crew_pass` asks of a resource: nothing of a value is ever forgotten, so
//! that two values have the same sums only where they are one; a wait leaves a value as it is, and
//! none is a rest; nothing lapses; and marks rise with values. The crate promises that a covered pass
//! with it shows, at the release of each legal duty of a timetable, the duty's front (`laws`), and
//! that `sums_fronts` makes such a pass, in one thread or by several.
#![tactic(auto)]

mod forgets;
mod fronts;
mod glance;
mod lapses;
pub mod laws;
mod marks;
mod resource;

pub use fronts::{sums_fronts, sums_fronts_by_threads};
pub use resource::SumsResource;
