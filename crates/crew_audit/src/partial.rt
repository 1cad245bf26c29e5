//! Partial pairings, and why they are not listed.

ghost use Rattle.std.specs.Prelude.{◌≡◌, IfOk};
ghost use Rattle.crew_audit.specs.Faults.{audit_number};

use crew_flights::Code;
use crew_pairing::{PairingVector, Walk};
use std::alloc::{AllocError, AllocFailed, Global};
use thiserror::Error;

/// A partial pairing of a base.
#[derive(Debug, Drop)]
pub struct Partial {
    /// The base that it leaves.
    pub base: Code,
    /// Its path: the keys of its duties.
    pub walk: Walk,
    /// Its resource vector, less the dual prices of its flights and of its base.
    pub vector: PairingVector,
    /// Whether it comes back to its base.
    pub pairing: bool,
}

impl Partial {
    /// An equal partial.
    pub fn copy(&self, alloc: Global) -> Result<Partial, AllocError>
        ensures { IfOk result (λ partial. partial ≡ self.now) }
    {
        Ok(Partial {
            walk: self.walk.copy(alloc)?,
            ..*self
        })
    }
}

/// Why partial pairings are not listed.
#[derive(Clone, Copy, Debug, PartialEq, Eq, Error)]
pub enum AuditFault {
    /// 45: there are more than the limit.
    #[error("there are more partial pairings than the limit")]
    OverLimit,
    /// Out of memory.
    #[error("out of memory")]
    Memory,
}

impl AuditFault {
    /// The number of the refusal; want of memory has none.
    pub fn number(self) -> Option<u8>
        ensures { result ≡ audit_number self }
    {
        match self {
            AuditFault::OverLimit => Some(45),
            AuditFault::Memory => None,
        }
    }
}

impl From<AllocError> for AuditFault {
    ghost use Rattle.std.specs.Prelude.{◌≡◌};
    ghost use Rattle.crew_audit.specs.declared.partial.AuditFault.TheVariants.{Memory};

    ghost from_gives = { λ _ fault. fault ≡ Memory };

    fn from(_: AllocError) -> AuditFault {
        AuditFault::Memory
    }
}

impl<T: Drop> From<AllocFailed<T>> for AuditFault {
    ghost use Rattle.std.specs.Prelude.{◌≡◌};
    ghost use Rattle.crew_audit.specs.declared.partial.AuditFault.TheVariants.{Memory};

    ghost from_gives = { λ _ fault. fault ≡ Memory };

    fn from(_: AllocFailed<T>) -> AuditFault {
        AuditFault::Memory
    }
}
