//! How a client asks for a settle.

use crew_service::SettleFault;
use crossbeam_channel::{Receiver, Sender};
use std::sync::Wait;

/// The end of a client: it rings by its number, and is told what came of a settle that was begun
/// after it rang.
#[derive(Drop)]
pub(crate) struct Bell {
    pub(crate) number: usize,
    pub(crate) rings: Sender<usize>,
    pub(crate) told: Receiver<Result<(), SettleFault>>,
}

impl Bell {
    /// Rings, and waits for what comes of it; want of memory where nobody answers. No clause: of what
    /// a settle did the published version tells.
    pub(crate) fn ring<W: Wait>(&self, rt: &W) -> Result<(), SettleFault> {
        if self.rings.send(rt, self.number).is_err() {
            return Err(SettleFault::Memory);
        }
        match self.told.recv(rt) {
            Ok(told) => told,
            Err(_) => Err(SettleFault::Memory),
        }
    }
}
