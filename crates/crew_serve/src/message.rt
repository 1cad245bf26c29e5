//! What the reading thread hands to a client's thread.

use crew_lines::Name;

/// What comes to a desk, in turn.
#[derive(Drop)]
pub(crate) enum Message {
    /// A client of this name sits down.
    Join(Name),
    /// A record of the client.
    Record(Vec<u8>),
    /// A record of the client that is too long to be one.
    Long,
    /// A record of the client for which there was no memory.
    Lost,
    /// The client leaves.
    Leave,
}
