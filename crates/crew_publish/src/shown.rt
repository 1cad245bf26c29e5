//! What readers take, and the rule over it.
use atomic_table::{Join, Split};
use crew_version::Version;
use crossbeam_utils::rule::{Outcome, Protocol};
use left_right::Absorb;
use left_right::reader::Reader;
use left_right::writer::Writer;
use std::alloc::{AllocError, Global};
use std::collections::LinkedList;
use std::sync::Arc;

/// The value that the two copies have.
#[derive(Drop)]
pub struct Shown {
    pub version: Arc<Version>,
    /// Nothing was published yet.
    pub opening: bool,
}

// What both copies have in common. No value of it is made.
pub struct Common {
    pub version: Version,
    pub opening: bool,
}

impl Absorb<Arc<Version>> for Shown {
    type State = Common;

    ghost use Rattle.std.specs.Prelude.{false};
    ghost use Rattle.std.specs.Arc.{arc_value};

    ghost state = { λ s. record { version = arc_value s.version; opening = s.opening } };

    ghost applied = { λ s a. record { version = arc_value a; opening = false } };

    fn absorb_first(&mut self, operation: &Arc<Version>, _other: &Shown) -> Result<(), AllocError> {
        let version = Arc::try_clone(operation)?;
        self.version = version;
        self.opening = false;
        Ok(())
    }
}

/// The lists that a seat knows. No value of it is made.
pub type Known = LinkedList<LinkedList<Version>>;

pub struct OneChain;

impl Protocol<Shown, Known> for OneChain {
    ghost use Rattle.std.specs.Prelude.{[]};
    ghost use Rattle.crew_publish.specs.Machinery.Rule.{Kept};

    ghost holds = { Kept };

    ghost first = { [] };
}

pub struct Sees;

impl Outcome<Shown, Known> for Sees {
    ghost use Rattle.crew_publish.specs.Machinery.Rule.{Seen};

    ghost then = { Seen };
}

pub struct Adds;

impl Outcome<Shown, Known> for Adds {
    ghost use Rattle.crew_publish.specs.Machinery.Rule.{Added};

    ghost then = { Added };
}

pub type Seat = Reader<Shown, Known, OneChain>;

pub type Pen = Writer<Shown, Arc<Version>, Known, OneChain>;

pub struct Opens;

impl Outcome<Shown, Known> for Opens {
    ghost use Rattle.crew_publish.specs.Machinery.Rule.{Opened};

    ghost then = { Opened };
}

/// A seat is told all that the writer's knows.
pub struct Briefing;

impl Split<Known> for Briefing {
    ghost left = { λ v. v };

    ghost right = { λ v. v };
}

impl Join<Known> for Briefing {
    ghost use Rattle.std.specs.Prelude.{◌++◌, []};

    ghost both = { λ v w. w ++ v };

    ghost spent = { [] };
}
