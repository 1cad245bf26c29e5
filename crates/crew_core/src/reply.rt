//! Replies.
ghost use Rattle.std.specs.Prelude.{◌≡◌};
ghost use Rattle.crew_core.specs.Replies.{reply_number};

use crew_board::crew_version::Version;
use crew_machine::Brought;
use crew_net::Node;
use std::alloc::Global;
use std::sync::Arc;

/// What a step comes to. It tells all that a line about the step shows.
#[derive(Drop)]
pub enum Reply {
    /// The entry has this place in the log.
    Pushed(usize),
    /// A round is open.
    Begun,
    /// 50: a round was open.
    Busy,
    /// 57: the version that was sealed last has the last number.
    LastVersion,
    /// 40: the log comes to more than 200,000 legal duties.
    TooManyDuties,
    /// The job of this number is handed out, which is this node's.
    Claimed {
        job: usize,
        node: Node,
    },
    /// No node is ready, or no round is open.
    NoneReady,
    /// What became of a job's result.
    Brought {
        job: u32,
        brought: Brought,
    },
    /// 54: no job of this number was handed out, so none is brought.
    NotBrought(u32),
    /// Whether the node of a job that was given back waits again.
    GivenBack {
        job: u32,
        freed: bool,
    },
    /// 54: no job of this number was handed out, so none is given back.
    NotGivenBack(u32),
    /// Whether a round was open; none is now.
    Abandoned(bool),
    /// This is the sealed version; so many entries had been settled before.
    Sealed {
        settled: usize,
        version: Arc<Version, Global>,
    },
    /// 53: no round is open.
    NoRound,
    /// 52: this node is the least that isn't done.
    NotDone(Node),
    /// This version is published.
    Published(Arc<Version, Global>),
    /// 55: the version that was sealed last is published already.
    NothingNew,
    /// A reader's query is answered from this version.
    Answered {
        reader: u8,
        version: Arc<Version, Global>,
    },
}

impl Reply {
    /// The number of a refusal; other replies have none.
    pub fn number(&self) -> Option<u8>
        ensures { result ≡ reply_number self.now }
    {
        match self {
            Reply::Busy => Some(50),
            Reply::LastVersion => Some(57),
            Reply::TooManyDuties => Some(40),
            Reply::NotBrought(_) | Reply::NotGivenBack(_) => Some(54),
            Reply::NoRound => Some(53),
            Reply::NotDone(_) => Some(52),
            Reply::NothingNew => Some(55),
            _ => None,
        }
    }
}
