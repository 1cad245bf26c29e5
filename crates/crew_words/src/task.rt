//! What the program is asked to do.

ghost use Rattle.std.specs.Prelude.{◌≡◌};
ghost use Rattle.crew_words.specs.Words.{settings_of};

use crew_rules::Settings;

/// How the work of a session is shared.
#[derive(Clone, Copy, Debug)]
pub struct Sharing {
    /// How many threads take part beside the one that reads the session.
    pub workers: u32,
    /// How many seconds lie between two lines that tell how far a settle is; with 0 there is none.
    pub progress: u32,
}

impl Sharing {
    /// By nobody else, and nothing is told.
    pub const ALONE: Sharing = Sharing {
        workers: 0,
        progress: 0,
    };
}

/// What a service has room for, and how its work is shared.
#[derive(Clone, Copy, Debug)]
pub struct Hosting {
    /// How many clients may edit.
    pub seats: u32,
    /// How many clients there may be at a time.
    pub viewers: u32,
    /// How many threads take part in the work of each settle beside the one that settles.
    pub workers: u32,
}

impl Hosting {
    /// What a service has unless the words say otherwise.
    pub const STANDARD: Hosting = Hosting {
        seats: 64,
        viewers: 64,
        workers: 2,
    };
}

/// What the program is asked to do.
#[derive(Clone, Copy, Debug)]
pub enum Task {
    /// A session under these settings, whose work is shared so.
    Run(Settings, Sharing),
    /// A schedule of steps under these settings.
    Replay(Settings),
    /// A service for several clients under these settings, which has room for so many.
    Serve(Settings, Hosting),
}

impl Task {
    /// Its settings.
    pub fn settings(self) -> Settings
        ensures { result ≡ settings_of self }
    {
        match self {
            Task::Run(settings, _) | Task::Replay(settings) | Task::Serve(settings, _) => settings,
        }
    }
}
