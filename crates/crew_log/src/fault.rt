//! Why a log gives no seat, or takes no edit.

ghost use Rattle.std.specs.Prelude.{◌≡◌};
ghost use Rattle.crew_log.specs.Faults.{log_number};

use thiserror::Error;

/// Why a log gives no seat, or takes no edit.
#[derive(Clone, Copy, Debug, PartialEq, Eq, Error)]
pub enum LogFault {
    /// 60: all 64 seats are given.
    #[error("all 64 seats are given")]
    TooManySeats,
    /// 61: the seat has 1,000,000 entries.
    #[error("the seat has 1,000,000 entries")]
    SeatFull,
    /// Out of memory.
    #[error("out of memory")]
    Memory,
}

impl LogFault {
    /// The number of the refusal; out of memory has none.
    pub fn number(self) -> Option<u8>
        ensures { result ≡ log_number self }
    {
        match self {
            LogFault::TooManySeats => Some(60),
            LogFault::SeatFull => Some(61),
            LogFault::Memory => None,
        }
    }
}
