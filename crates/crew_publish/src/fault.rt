//! Why a pair isn't made, a version isn't published, or a view isn't given.

ghost use Rattle.std.specs.Prelude.{◌≡◌};
ghost use Rattle.crew_publish.specs.Faults.{pair_number, publish_number, view_number};

use std::alloc::AllocError;
use thiserror::Error;

/// Why a pair isn't made.
#[derive(Clone, Copy, Debug, PartialEq, Eq, Error)]
pub enum PairFault {
    /// 64: there is no place for so many viewers, or none was asked for.
    #[error("there is no place for so many viewers, or none was asked for")]
    NoViewer,
    /// There is no memory.
    #[error("out of memory")]
    Memory,
}

impl PairFault {
    /// The number of the refusal; want of memory has none.
    pub fn number(self) -> Option<u8>
        ensures { result ≡ pair_number self }
    {
        match self {
            PairFault::NoViewer => Some(64),
            PairFault::Memory => None,
        }
    }
}

/// Why a version isn't published.
#[derive(Clone, Copy, Debug, PartialEq, Eq, Error)]
pub enum PublishFault {
    /// 56: the version doesn't follow the last one that was published.
    #[error("the version doesn't follow the last one that was published")]
    NotNext,
    /// There is no memory.
    #[error("out of memory")]
    Memory,
}

impl PublishFault {
    /// The number of the refusal; want of memory has none.
    pub fn number(self) -> Option<u8>
        ensures { result ≡ publish_number self }
    {
        match self {
            PublishFault::NotNext => Some(56),
            PublishFault::Memory => None,
        }
    }
}

/// Why a view isn't given.
#[derive(Clone, Copy, Debug, PartialEq, Eq, Error)]
pub enum ViewFault {
    /// 65: the published version can't be read.
    #[error("the published version can't be read")]
    NoView,
    /// There is no memory.
    #[error("out of memory")]
    Memory,
}

impl ViewFault {
    /// The number of the refusal; want of memory has none.
    pub fn number(self) -> Option<u8>
        ensures { result ≡ view_number self }
    {
        match self {
            ViewFault::NoView => Some(65),
            ViewFault::Memory => None,
        }
    }
}

impl From<AllocError> for PublishFault {
    ghost use Rattle.std.specs.Prelude.{◌≡◌};
    ghost use Rattle.crew_publish.specs.declared.fault.PublishFault.TheVariants.{Memory};

    ghost from_gives = { λ _ fault. fault ≡ Memory };

    fn from(_: AllocError) -> PublishFault {
        PublishFault::Memory
    }
}
