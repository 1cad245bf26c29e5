//! What a service's clients are told, held until the service has ended.

use crew_command::Outbox;
use std::alloc::Global;
use std::io::{self, Write};
use std::sync::{Mutex, Wait};

/// Texts, one after another.
pub struct Collected<'a, R: Wait> {
    rt: &'a R,
    text: Mutex<Vec<u8>>,
}

impl<'a, R: Wait> Drop for Collected<'a, R> {
    fn drop(self) {
        let Self { rt: _, text: _ } = self;
    }
}

impl<'a, R: Wait> Collected<'a, R> {
    /// None yet.
    pub fn new(rt: &'a R, alloc: Global) -> Self {
        Collected {
            rt,
            text: Mutex::new(Vec::new(alloc)),
        }
    }

    /// Writes what was collected.
    pub fn show<W: Write>(&self, writer: &mut W) -> io::Result<()> {
        let text = self.text.lock(self.rt);
        writer.write_all(&text)
    }
}

impl<R: Wait> Outbox for Collected<'_, R> {
    fn send(&self, text: &[u8]) {
        let mut all = self.text.lock(self.rt);
        let _ = all.extend_from_slice(text);
    }

    fn has_failed(&self) -> bool {
        false
    }
}
