//! What a pairing of up to 240 hours has to remember of its past: the flight duty periods of the
//! last 168 hours, and the end of the last rest of 30 hours.
//!
//! A pairing of at most 138 hours lies within one window of 168 consecutive hours, so totals tell
//! whether it keeps the caps of 14 CFR 117.23(c), and the free hours before its first report are
//! the 30 of 117.25(b) for each report. A longer one has many windows, and may need a long rest on
//! the way. The crate promises that a history, cut to the last window, and the end of the last long
//! rest tell of each list of duties whether it keeps both rules, as they are stated over the whole
//! list (`specs/Limits`), and that both are ordered and extend in order, as dominance asks of a
//! resource. A `History` has a fixed size and takes no memory.
#![tactic(auto)]

mod history;
pub mod laws;

// Crates below this one, which those above cite through it.
pub use crew_pairing;
pub use history::History;
