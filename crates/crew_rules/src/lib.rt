//! The rules that a crew pairing is held to: the settings of a session, the two tables of 14 CFR
//! part 117 for unaugmented operations, and what a duty and a pairing are paid.
//!
//! Each function is its definition in `specs/`: the tables at every minute of the day and every
//! number of flight segments, the pays as the greatest of their parts, and the check of settings
//! by the ranges of all fifteen.
#![tactic(auto)]

mod pay;
mod settings;
mod tables;

pub use pay::{duty_pay, guaranteed, pairing_pay, rated};
pub use settings::{BadSetting, Settings};
pub use tables::{limits_from, table_a, table_b};
