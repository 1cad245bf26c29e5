//! Why a service isn't made, or doesn't settle.
ghost use Rattle.std.specs.Prelude.{◌≡◌};
ghost use Rattle.crew_service.specs.Faults.{service_number, settle_number};

use std::alloc::AllocError;
use thiserror::Error;

/// Why a service isn't made.
#[derive(Clone, Copy, Debug, PartialEq, Eq, Error)]
pub enum ServiceFault {
    /// 60: a log has 64 seats at most.
    #[error("a log has 64 seats at most")]
    TooManySeats,
    /// 64: a service has from 1 to 64 viewers.
    #[error("a service has from 1 to 64 viewers")]
    NoViewer,
    /// There is no memory.
    #[error("out of memory")]
    Memory,
}

impl ServiceFault {
    /// The number of the refusal; want of memory has none.
    pub fn number(self) -> Option<u8>
        ensures { result ≡ service_number self }
    {
        match self {
            ServiceFault::TooManySeats => Some(60),
            ServiceFault::NoViewer => Some(64),
            ServiceFault::Memory => None,
        }
    }
}

impl From<AllocError> for ServiceFault {
    ghost use Rattle.std.specs.Prelude.{◌≡◌};
    ghost use Rattle.crew_service.specs.declared.fault.ServiceFault.TheVariants.{Memory};

    ghost from_gives = { λ _ fault. fault ≡ Memory };

    fn from(_: AllocError) -> ServiceFault {
        ServiceFault::Memory
    }
}

/// Why a planner doesn't settle.
#[derive(Clone, Copy, Debug, PartialEq, Eq, Error)]
pub enum SettleFault {
    /// 62: this place of the log isn't shown, and a receipt has a place above it.
    #[error("place {0} of the log isn't shown, and a receipt has a place above it")]
    Gap(usize),
    /// 57: the planner's version has the greatest number that there is.
    #[error("the version has the greatest number that there is")]
    LastVersion,
    /// 40: there are more than 200,000 legal duties.
    #[error("there are more than 200,000 legal duties")]
    TooManyDuties,
    /// There is no memory.
    #[error("out of memory")]
    Memory,
}

impl SettleFault {
    /// The number of the refusal; want of memory has none.
    pub fn number(self) -> Option<u8>
        ensures { result ≡ settle_number self }
    {
        match self {
            SettleFault::Gap(_) => Some(62),
            SettleFault::LastVersion => Some(57),
            SettleFault::TooManyDuties => Some(40),
            SettleFault::Memory => None,
        }
    }
}

impl From<AllocError> for SettleFault {
    ghost use Rattle.std.specs.Prelude.{◌≡◌};
    ghost use Rattle.crew_service.specs.declared.fault.SettleFault.TheVariants.{Memory};

    ghost from_gives = { λ _ fault. fault ≡ Memory };

    fn from(_: AllocError) -> SettleFault {
        SettleFault::Memory
    }
}
