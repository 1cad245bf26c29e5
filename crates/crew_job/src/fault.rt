//! Why a round can't be begun.

ghost use Rattle.std.specs.Prelude.{◌≡◌};
ghost use Rattle.crew_job.specs.Grounds.{ground_number};

use std::alloc::AllocError;
use thiserror::Error;

/// Why a round can't be begun.
#[derive(Clone, Copy, Debug, PartialEq, Eq, Error)]
pub enum GroundFault {
    /// 51: the entries don't begin with those of the version that was sealed last.
    #[error("the entries don't begin with those of the sealed version")]
    ShorterLog,
    /// 57: the sealed version has the greatest number that there is.
    #[error("the version has the greatest number that there is")]
    LastVersion,
    /// 40: there are more than 200,000 legal duties.
    #[error("there are more than 200,000 legal duties")]
    TooManyDuties,
    /// There is no memory.
    #[error("out of memory")]
    Memory,
}

impl GroundFault {
    /// The number of the refusal; want of memory has none.
    pub fn number(self) -> Option<u8>
        ensures { result ≡ ground_number self }
    {
        match self {
            GroundFault::ShorterLog => Some(51),
            GroundFault::LastVersion => Some(57),
            GroundFault::TooManyDuties => Some(40),
            GroundFault::Memory => None,
        }
    }
}

impl From<AllocError> for GroundFault {
    ghost use Rattle.std.specs.Prelude.{◌≡◌};
    ghost use Rattle.crew_job.specs.declared.fault.GroundFault.TheVariants.{Memory};

    ghost from_gives = { λ _ fault. fault ≡ Memory };

    fn from(_: AllocError) -> GroundFault {
        GroundFault::Memory
    }
}
