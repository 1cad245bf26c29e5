//! How far a round is.

/// How many nodes a round has, how many of them are done, and how many are out.
#[derive(Clone, Copy, Debug, PartialEq, Eq)]
pub struct Progress {
    /// All nodes.
    pub nodes: usize,
    /// Those that are done.
    pub done: usize,
    /// Those that are claimed and not done.
    pub out: usize,
}
