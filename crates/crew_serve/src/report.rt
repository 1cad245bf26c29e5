//! Lines that tell how far the work of a service is.

use crew_round::Progress;
use crew_service::Shared;
use std::io::Eprint;
use std::sync::Wait;
use std::thread;
use std::time::{Clock, Duration};

// How many parts a second has, after each of which it is seen whether the service is closed.
const PARTS: u32 = 10;

// Waits for so many seconds, or until the service is closed. Whether it is.
fn is_over<T: Wait + Clock>(rt: &T, shared: &Shared, seconds: u32) -> bool {
    for _ in 0..u64::from(seconds) * u64::from(PARTS) {
        if shared.is_closed(rt) {
            return true;
        }
        thread::sleep(rt, Duration::from_millis(1000 / u64::from(PARTS)));
    }
    false
}

// Tells how far a round is. Nothing comes of a line that can't be written.
fn tell<T: Eprint>(rt: &T, progress: Progress) {
    let Progress { nodes, done, out } = progress;
    let _ = eprintln!(rt; "crewprice: {done} of {nodes} nodes done, {out} out");
}

/// Tells on standard error how far the open round is, every so many seconds, until the service is
/// closed. No clause: what lies under a lock is hidden from contracts, and so is what standard error
/// carries.
pub(crate) fn report<T: Wait + Clock + Eprint>(rt: &T, shared: &Shared, seconds: u32) {
    for _ in rt.forever() {
        if is_over(rt, shared, seconds) {
            return;
        }
        if let Some(progress) = shared.progress(rt) {
            tell(rt, progress);
        }
    }
}
