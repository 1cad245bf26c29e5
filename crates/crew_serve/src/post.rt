//! Where answers go.

use crew_session::NotedWriter;
use std::io::Write;
use std::sync::{Mutex, Wait};

/// What sends answers on, for threads to share.
pub trait Outbox {
    /// Sends a text on, with nothing of another call in the midst of it. Where one can't be sent, none
    /// is from then on: a reader couldn't know what is missing.
    fn send(&self, text: &[u8]);

    /// Whether a text couldn't be sent.
    fn has_failed(&self) -> bool;
}

/// A writer to which threads post answers in turn. No clause: of what lies under a lock no contract
/// knows.
pub struct Post<'a, R: Wait, W: Write + Drop> {
    rt: &'a R,
    writer: Mutex<NotedWriter<W>>,
}

impl<'a, R: Wait, W: Write + Drop> Drop for Post<'a, R, W> {
    fn drop(self) {
        let Self { rt: _, writer: _ } = self;
    }
}

impl<'a, R: Wait, W: Write + Drop> Post<'a, R, W> {
    /// A post over a writer, by the handle by which threads wait for their turns. No clause: a contract
    /// sees nothing of what lies under a lock.
    pub fn new(rt: &'a R, writer: W) -> Self {
        Post {
            rt,
            writer: Mutex::new(NotedWriter::new(writer)),
        }
    }
}

// Writes a text and sends it on, unless the writer has failed.
fn write_on<W: Write + Drop>(writer: &mut NotedWriter<W>, text: &[u8]) {
    if writer.has_failed() {
        return;
    }
    if writer.put(text).is_ok() {
        let _ = writer.flush();
    }
}

impl<R: Wait, W: Write + Drop> Outbox for Post<'_, R, W> {
    fn send(&self, text: &[u8]) {
        let mut writer = self.writer.lock(self.rt);
        write_on(&mut writer, text);
    }

    fn has_failed(&self) -> bool {
        let writer = self.writer.lock(self.rt);
        writer.has_failed()
    }
}
