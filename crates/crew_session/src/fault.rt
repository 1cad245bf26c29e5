//! Why a session stops.

ghost use Rattle.std.specs.Prelude.{◌≡◌};
ghost use Rattle.crew_session.specs.Faults.{session_number, stop_of};

use crate::engine_fault::EngineFault;
use std::alloc::AllocError;
use thiserror::Error;

/// Why a session stops.
#[derive(Clone, Copy, Debug, PartialEq, Eq, Error)]
pub enum SessionFault {
    /// The reader failed, or gave more than 2,000,000 records.
    #[error("read fault")]
    Read,
    /// The writer failed.
    #[error("write fault")]
    Write,
    /// Out of memory.
    #[error("out of memory")]
    Memory,
    /// The engine answered 57, 62 or 65, whose number this is; or what it found doesn't come of the
    /// edits that were sent, or it answered 40 where these come to no more duties, and then this is
    /// 63.
    #[error("strange log")]
    Strange(u8),
}

impl SessionFault {
    /// The number of what the engine answered; the other faults have none.
    pub fn number(self) -> Option<u8>
        ensures { result ≡ session_number self }
    {
        match self {
            SessionFault::Strange(number) => Some(number),
            SessionFault::Read | SessionFault::Write | SessionFault::Memory => None,
        }
    }
}

impl From<AllocError> for SessionFault {
    ghost use Rattle.std.specs.Prelude.{◌≡◌};
    ghost use Rattle.crew_session.specs.declared.fault.SessionFault.TheVariants.{Memory};

    ghost from_gives = { λ _ fault. fault ≡ Memory };

    fn from(_: AllocError) -> SessionFault {
        SessionFault::Memory
    }
}

// Why a session stops where an engine refuses.
pub(crate) fn stop(fault: EngineFault) -> SessionFault
    ensures { result ≡ stop_of fault }
{
    match fault.number() {
        Some(number) => SessionFault::Strange(number),
        None => SessionFault::Memory,
    }
}
