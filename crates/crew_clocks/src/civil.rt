//! The numbers that a text of a time writes.

/// The numbers of a text `YYYY-MM-DDTHH:MM`, before it is known that there is such a time.
#[derive(Clone, Copy)]
pub struct Parts {
    /// From 0 to 9999.
    pub year: u16,
    /// As written, from 0 to 99; a date has 1 to 12.
    pub month: u8,
    /// As written, from 0 to 99; a date has 1 to 31 at most.
    pub day: u8,
    /// As written, from 0 to 99; a clock has 0 to 23.
    pub hour: u8,
    /// As written, from 0 to 99; a clock has 0 to 59.
    pub minute: u8,
}
