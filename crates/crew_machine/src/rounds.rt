//! What a round knows of its nodes.

/// What a round knows of a node.
#[derive(Clone, Copy, Debug, Drop)]
pub enum Cell<F> {
    /// It isn't worked out.
    Waiting,
    /// Its job is handed out.
    Out,
    /// It is worked out, with this front.
    Done(F),
}

/// What became of a result.
#[derive(Clone, Copy, Debug, PartialEq, Eq)]
pub enum Brought {
    /// Its job isn't the node's own now, so nothing was taken.
    Stale,
    /// Its node was done already, so nothing was taken.
    Again,
    /// Its node is done, with its front.
    Stored,
}
