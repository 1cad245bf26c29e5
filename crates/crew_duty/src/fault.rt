//! Why duties are not listed.

ghost use Rattle.std.specs.Prelude.{◌≡◌};
ghost use Rattle.crew_duty.specs.Faults.{duty_number};

use std::alloc::AllocError;
use thiserror::Error;

/// Why duties are not listed.
#[derive(Clone, Copy, Debug, PartialEq, Eq, Error)]
pub enum DutyFault {
    /// 40: there are more than 200,000 legal duties.
    #[error("there are more than 200,000 legal duties")]
    TooManyDuties,
    /// Out of memory.
    #[error("out of memory")]
    Memory,
}

impl DutyFault {
    /// The number of the refusal; want of memory has none.
    pub fn number(self) -> Option<u8>
        ensures { result ≡ duty_number self }
    {
        match self {
            DutyFault::TooManyDuties => Some(40),
            DutyFault::Memory => None,
        }
    }
}

impl From<AllocError> for DutyFault {
    ghost use Rattle.std.specs.Prelude.{◌≡◌};
    ghost use Rattle.crew_duty.specs.declared.fault.DutyFault.TheVariants.{Memory};

    ghost from_gives = { λ _ fault. fault ≡ Memory };

    fn from(_: AllocError) -> DutyFault {
        DutyFault::Memory
    }
}
