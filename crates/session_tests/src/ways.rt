//! How the streams of a case behave.

/// How the streams of a case behave. A line `% NAME NUMBER` of the case sets one of these.
#[derive(Clone, Copy)]
pub struct Ways {
    /// How many bytes a read gives at most.
    pub chunk: usize,
    /// How many bytes are given before a read fails.
    pub reads: usize,
    /// How many writes are taken.
    pub writes: usize,
    /// How many flushes are.
    pub flushes: usize,
    /// How many writes of the fault's text are.
    pub tells: usize,
    /// How often the input is given, one after another.
    pub times: usize,
    /// How many bytes are left out at the end of the input.
    pub cut: usize,
    /// Above 0 if how many bytes are written is shown, at the end, and not the bytes.
    pub count: usize,
    /// Above 0 if an outlet answers while the input is open; what is read is shown too.
    pub open: usize,
}

// The number after this text; 0 where it is none, and this one where the text isn't there.
fn number_after(head: &str, text: &str, otherwise: usize) -> usize {
    match head.split_once(text) {
        None => otherwise,
        Some((_, rest)) => {
            let line = rest.lines().next().unwrap_or("");
            line.parse::<usize>().unwrap_or(0)
        }
    }
}

impl Ways {
    /// The ways of a case that begins with these lines; what they don't set never fails.
    pub fn read(head: &str) -> Ways {
        Ways {
            chunk: number_after(head, "% chunk ", usize::MAX),
            reads: number_after(head, "% reads ", usize::MAX),
            writes: number_after(head, "% writes ", usize::MAX),
            flushes: number_after(head, "% flushes ", usize::MAX),
            tells: number_after(head, "% tells ", usize::MAX),
            times: number_after(head, "% times ", 1),
            cut: number_after(head, "% cut ", 0),
            count: number_after(head, "% count ", 0),
            open: number_after(head, "% open ", 0),
        }
    }
}
