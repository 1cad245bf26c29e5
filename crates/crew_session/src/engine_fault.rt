//! Why an engine refuses.

ghost use Rattle.std.specs.Prelude.{◌≡◌};
ghost use Rattle.crew_session.specs.Engines.{engine_number};

use crew_version::VersionFault;
use std::alloc::AllocError;
use thiserror::Error;

/// Why an engine refuses.
#[derive(Clone, Copy, Debug, PartialEq, Eq, Error)]
pub enum EngineFault {
    /// 40: there are more than 200,000 legal duties.
    #[error("there are more than 200,000 legal duties")]
    TooManyDuties,
    /// 57: the version has the greatest number that there is.
    #[error("the version has the greatest number that there is")]
    LastVersion,
    /// 61: the engine has taken 1,000,000 edits.
    #[error("the engine has taken 1,000,000 edits")]
    SeatFull,
    /// 62: the entry at this place isn't shown.
    #[error("the entry at place {0} isn't shown")]
    Gap(u64),
    /// 63: what is shown doesn't come of the edits that were taken.
    #[error("what is shown doesn't come of the edits that were taken")]
    OtherLog,
    /// 65: the published version can't be read.
    #[error("the published version can't be read")]
    NoView,
    /// Out of memory.
    #[error("out of memory")]
    Memory,
}

impl EngineFault {
    /// The number of the refusal; out of memory has none.
    pub fn number(self) -> Option<u8>
        ensures { result ≡ engine_number self }
    {
        match self {
            EngineFault::TooManyDuties => Some(40),
            EngineFault::LastVersion => Some(57),
            EngineFault::SeatFull => Some(61),
            EngineFault::Gap(_) => Some(62),
            EngineFault::OtherLog => Some(63),
            EngineFault::NoView => Some(65),
            EngineFault::Memory => None,
        }
    }
}

impl From<AllocError> for EngineFault {
    ghost use Rattle.std.specs.Prelude.{◌≡◌};
    ghost use Rattle.crew_session.specs.declared.engine_fault.EngineFault.TheVariants.{Memory};

    ghost from_gives = { λ _ fault. fault ≡ Memory };

    fn from(_: AllocError) -> EngineFault {
        EngineFault::Memory
    }
}

impl From<VersionFault> for EngineFault {
    ghost use Rattle.crew_session.specs.Engines.{engine_fault_of};
    ghost use Rattle.std.specs.Prelude.{◌≡◌};

    ghost from_gives = { λ fault engine_fault. engine_fault ≡ engine_fault_of fault };

    fn from(fault: VersionFault) -> EngineFault {
        match fault {
            VersionFault::TooManyDuties => EngineFault::TooManyDuties,
            VersionFault::LastVersion => EngineFault::LastVersion,
            VersionFault::Memory => EngineFault::Memory,
        }
    }
}
