//! Windows of events.

/// Events that stand side by side in order: from a place up to another, which isn't one of them.
#[derive(Clone, Copy, Debug, PartialEq, Eq)]
pub struct Window {
    /// The place of the first.
    pub from: usize,
    /// The place after the last.
    pub end: usize,
}
