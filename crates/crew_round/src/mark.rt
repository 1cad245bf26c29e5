//! What is known of a node.

/// What a round knows of a node.
#[derive(Clone, Copy, Debug, PartialEq, Eq)]
pub enum Mark {
    /// It waits to be claimed.
    Waiting,
    /// It is claimed, and its result is awaited.
    Out,
    /// Its front is known.
    Done,
}
