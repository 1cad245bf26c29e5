//! Why a record of a client is refused.

ghost use Rattle.std.specs.Prelude.{◌≡◌};
ghost use Rattle.crew_serve.specs.Faults.{client_number, fault_of};

use crew_log::LogFault;
use crew_publish::ViewFault;
use std::alloc::AllocError;
use thiserror::Error;

/// Why a record of a client is refused by the service.
#[derive(Clone, Copy, Debug, PartialEq, Eq, Error)]
pub(crate) enum ClientFault {
    /// 40: there are more than 200,000 legal duties.
    #[error("there are more than 200,000 legal duties")]
    TooManyDuties,
    /// 57: the version has the greatest number that there is.
    #[error("the version has the greatest number that there is")]
    LastVersion,
    /// 60: no seat is free.
    #[error("no seat is free")]
    NoSeat,
    /// 61: the seat has made 1,000,000 entries.
    #[error("the seat has made 1,000,000 entries")]
    SeatFull,
    /// 62: the published version lacks edits of the client.
    #[error("the published version lacks edits of the client")]
    Unsettled,
    /// 63: the published version has other settings.
    #[error("the published version has other settings")]
    OtherSettings,
    /// 65: the published version can't be read.
    #[error("the published version can't be read")]
    NoView,
    /// 66: out of memory.
    #[error("out of memory")]
    Memory,
}

impl ClientFault {
    /// The number of the refusal.
    pub(crate) fn number(self) -> u8
        ensures { result ≡ client_number self }
    {
        match self {
            ClientFault::TooManyDuties => 40,
            ClientFault::LastVersion => 57,
            ClientFault::NoSeat => 60,
            ClientFault::SeatFull => 61,
            ClientFault::Unsettled => 62,
            ClientFault::OtherSettings => 63,
            ClientFault::NoView => 65,
            ClientFault::Memory => 66,
        }
    }
}

impl From<AllocError> for ClientFault {
    ghost use Rattle.std.specs.Prelude.{◌≡◌};
    ghost use Rattle.crew_serve.specs.declared.client_fault.ClientFault.TheVariants.{Memory};

    ghost from_gives = { λ _ fault. fault ≡ Memory };

    fn from(_: AllocError) -> ClientFault {
        ClientFault::Memory
    }
}

/// Why a view isn't given, as a client is told.
pub(crate) fn of_view(fault: ViewFault) -> ClientFault
    ensures { result ≡ fault_of fault }
{
    match fault {
        ViewFault::NoView => ClientFault::NoView,
        ViewFault::Memory => ClientFault::Memory,
    }
}
