//! The texts `YYYY-MM-DDTHH:MM` that name instants, and the local clocks of zones whose rules are
//! POSIX texts. The crate promises that a text names one instant or gets the first refusal that
//! applies, that reading and writing agree both ways on the years 2000 to 2099, and that a clock
//! shows the minute of the local day under the offset that the zone's rule gives at the instant,
//! with its seconds cut off.
#![tactic(auto)]

mod civil;
mod fault;
mod texts;
mod zone;

pub use fault::TimeFault;
pub use texts::{read_minute, write_minute};
pub use zone::Zone;
