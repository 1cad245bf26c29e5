//! Why a version can't be followed.

ghost use Rattle.std.specs.Prelude.{◌≡◌};
ghost use Rattle.crew_version.specs.Faults.{version_number};

use std::alloc::AllocError;
use thiserror::Error;

/// Why a version can't be followed.
#[derive(Clone, Copy, Debug, PartialEq, Eq, Error)]
pub enum VersionFault {
    /// 40: there are more than 200,000 legal duties.
    #[error("there are more than 200,000 legal duties")]
    TooManyDuties,
    /// 57: the version has the greatest number that there is.
    #[error("the version has the greatest number that there is")]
    LastVersion,
    /// Out of memory.
    #[error("out of memory")]
    Memory,
}

impl VersionFault {
    /// The number of the refusal; out of memory has none.
    pub fn number(self) -> Option<u8>
        ensures { result ≡ version_number self }
    {
        match self {
            VersionFault::TooManyDuties => Some(40),
            VersionFault::LastVersion => Some(57),
            VersionFault::Memory => None,
        }
    }
}

impl From<AllocError> for VersionFault {
    ghost use Rattle.std.specs.Prelude.{◌≡◌};
    ghost use Rattle.crew_version.specs.declared.fault.VersionFault.TheVariants.{Memory};

    ghost from_gives = { λ _ fault. fault ≡ Memory };

    fn from(_: AllocError) -> VersionFault {
        VersionFault::Memory
    }
}
