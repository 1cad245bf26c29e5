//! How many a service has of each.

/// How many clients a service has room for, and who takes part in its work.
#[derive(Clone, Copy, Debug)]
pub struct House {
    /// How many clients may edit, 64 at most.
    pub seats: u32,
    /// How many clients there may be at a time, from 1 to 64.
    pub viewers: u32,
    /// How many threads take part in the work of each settle beside the one that settles.
    pub workers: u32,
}
