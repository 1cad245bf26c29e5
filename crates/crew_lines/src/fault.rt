//! Why no line can be read.

/// The reader failed: a read answered an error, whatever it says.
#[derive(Clone, Copy, Debug)]
pub struct ReadFault;
