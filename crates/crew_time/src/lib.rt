//! Instants in whole minutes of UTC, and what clocks show. The crate promises that each is the
//! number of minutes that it stands for, within its range. Their texts, and the clocks of zones,
//! are `crew_clocks`': so what speaks of times alone stands on no calendar.
#![tactic(auto)]

mod instant;

pub use instant::{ClockMinute, Minute};
