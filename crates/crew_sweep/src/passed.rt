//! What a pass leaves.
use crate::row::Row;
use crew_pool::Walks;

/// The pools of the departures so far, in order of report, and the walks of all labels.
#[derive(Drop)]
pub(crate) struct Passed {
    pub(crate) walks: Walks,
    pub(crate) pools: Row,
}
