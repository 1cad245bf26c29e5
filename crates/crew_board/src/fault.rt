//! Why a round isn't begun, or sealed.
ghost use Rattle.std.specs.Prelude.{◌≡◌};
ghost use Rattle.crew_board.specs.Calls.{begin_number, seal_number};

use crew_job::GroundFault;
use crew_net::Node;
use std::alloc::AllocError;
use thiserror::Error;

/// Why a round isn't begun.
#[derive(Clone, Copy, Debug, PartialEq, Eq, Error)]
pub enum BeginFault {
    /// 50: a round is open.
    #[error("a round is open")]
    Busy,
    /// There is no ground for a round over these entries.
    #[error("{0}")]
    Ground(GroundFault),
}

impl BeginFault {
    /// The number of the refusal; want of memory has none.
    pub fn number(self) -> Option<u8>
        ensures { result ≡ begin_number self }
    {
        match self {
            BeginFault::Busy => Some(50),
            BeginFault::Ground(fault) => fault.number(),
        }
    }
}

impl From<GroundFault> for BeginFault {
    ghost use Rattle.std.specs.Prelude.{◌≡◌};
    ghost use Rattle.crew_board.specs.declared.fault.BeginFault.TheVariants.{Ground};

    ghost from_gives = { λ ground fault. fault ≡ Ground ground };

    fn from(fault: GroundFault) -> BeginFault {
        BeginFault::Ground(fault)
    }
}

impl From<AllocError> for BeginFault {
    ghost use Rattle.std.specs.Prelude.{◌≡◌};
    ghost use Rattle.crew_board.specs.declared.fault.BeginFault.TheVariants.{Ground};
    ghost use Rattle.crew_job.specs.declared.fault.GroundFault.TheVariants.{Memory};

    ghost from_gives = { λ _ fault. fault ≡ Ground Memory };

    fn from(_: AllocError) -> BeginFault {
        BeginFault::Ground(GroundFault::Memory)
    }
}

/// Why a round isn't sealed.
#[derive(Debug, Drop)]
pub enum SealFault {
    /// 53: no round is open.
    NoRound,
    /// 52: this node is the least that isn't done.
    NotDone(Node),
    /// Out of memory.
    Memory,
}

impl SealFault {
    /// The number of the refusal; want of memory has none.
    pub fn number(&self) -> Option<u8>
        ensures { result ≡ seal_number self.now }
    {
        match self {
            SealFault::NoRound => Some(53),
            SealFault::NotDone(_) => Some(52),
            SealFault::Memory => None,
        }
    }
}

impl From<AllocError> for SealFault {
    ghost use Rattle.std.specs.Prelude.{◌≡◌};
    ghost use Rattle.crew_board.specs.declared.fault.SealFault.TheVariants.{Memory};

    ghost from_gives = { λ _ fault. fault ≡ Memory };

    fn from(_: AllocError) -> SealFault {
        SealFault::Memory
    }
}
