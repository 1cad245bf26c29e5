//! Labels and links.

/// The last duty of a path, and where the label stands that was extended by it.
///
/// The place is that of a label in the pool of the departure that the duty leaves from.
#[derive(Clone, Copy, Debug, PartialEq, Eq)]
pub struct Link {
    /// The duty's number.
    pub duty: u32,
    /// The place of the label that boarded it.
    pub place: u32,
}

/// A label: a value, and the link that its path ends with; `None` for the empty path.
#[derive(Drop)]
pub struct Label<V> {
    pub value: V,
    pub before: Option<Link>,
}
