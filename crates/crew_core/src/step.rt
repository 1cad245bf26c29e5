//! Steps.

use crew_flights::Entry;

/// A step of the machine. Jobs go by their numbers, which are given from 0 on as they are claimed.
#[derive(Clone, Copy, Debug)]
pub enum Step {
    /// An entry is put at the end of the log.
    Push(Entry),
    /// A round is opened over the whole log.
    Begin,
    /// The job of the least ready node is handed out.
    Claim,
    /// A job that was handed out is worked out, and its result is brought.
    Bring(u32),
    /// A job that was handed out is given back without a result.
    GiveBack(u32),
    /// The round is dropped.
    Abandon,
    /// The round's version is sealed.
    Seal,
    /// The version that was sealed last is published.
    Publish,
    /// A reader asks for the version that was published last.
    Ask(u8),
}
