//! The words of the command line: `crewprice run`, `crewprice replay` and `crewprice serve`, each with
//! an option for each setting, `run` with the number of workers and how often it is told how far a
//! settle is, `serve` with the numbers of seats, clients and workers, `--help` and `--version`.
//! `read_words` promises that it is asked for a session, a schedule or a service exactly as the words
//! say, that the settings and those numbers are exactly those that they ask for, each the number of the
//! option of its name and the standard where it isn't given, and that it fails exactly as the parser
//! finds the words wrong.
#![tactic(auto)]

mod options;
mod task;
mod words;

pub use task::{Hosting, Sharing, Task};
pub use words::read_words;
