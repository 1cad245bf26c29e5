//! The flight duty periods of the last window, as a value.
ghost use Rattle.crew_long.specs.Machinery.Counted.{IsCounted, counted_prop};

use crew_history::History;

/// The flight duty periods of the last 168 hours, and the number of all duties of the list, which
/// are no fewer.
#[derive(Clone, Copy, PartialEq, Eq, PartialOrd, Ord)]
pub struct Recent {
    pub history: History,
    pub duties: u32,
    pub ghost kept: { IsCounted history duties } by { counted_prop history duties },
}
