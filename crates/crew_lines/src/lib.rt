//! The lines of a service's input. A line ends with LF, and the last one may go without. `Lines` reads
//! them from any reader in blocks, in memory that it has from its beginning on, and shows one after
//! another: a line of up to 65,536 bytes whole, and the beginning of a longer one, however long it is.
//! It promises that what it shows of known bytes is what is told of their lines, in order and with none
//! left out, and that a fault loses nothing. A line is NAME,RECORD: `split` promises to part it there
//! exactly where its NAME is one, 1 to 32 letters, digits, `-`, `_` or `.`.
#![tactic(auto)]

mod bytes;
mod fault;
mod held;
pub mod laws;
mod lines;
mod name;
mod parts;
mod search;
#[cfg(test)]
mod tests;

pub use fault::ReadFault;
pub use lines::{Line, Lines};
pub use name::Name;
pub use parts::split;
