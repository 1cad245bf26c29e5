//! What a list of duties has, kept duty by duty.
use crew_long::{Recent, RestEnd};
use crew_pairing::PairingVector;

/// The seven sums of a list, the end of its last long rest, and the flight duty periods of its last
/// window. Values are listed by these in order.
#[derive(Clone, Copy, PartialEq, Eq, PartialOrd, Ord)]
pub struct LongValue {
    pub sums: PairingVector,
    pub rest_end: RestEnd,
    pub recent: Recent,
}
