//! The thread of a client's desk.

ghost use Rattle.std.specs.Prelude.{◌≡◌, [], OnOk};
ghost use Rattle.crew_rules.specs.Settings.{IsChecked};

use crate::answer::{empty, page};
use crate::bell::Bell;
use crate::clerk::{Clerk, Hall};
use crate::client_fault::ClientFault;
use crate::desk::Desk;
use crate::message::Message;
use crate::post::Outbox;
use crate::talk::Talk;
use crew_lines::Name;
use crew_publish::Viewer;
use crossbeam_channel::{Receiver, Sender};
use std::alloc::{AllocError, Global};
use std::sync::Wait;
use std::thread::Threads;

/// A desk as its thread gets it: how its client asks for a settle, what sees for it, what comes from it,
/// and what tells that a client may sit down.
#[derive(Drop)]
pub(crate) struct Booth {
    pub(crate) bell: Bell,
    pub(crate) viewer: Viewer,
    pub(crate) lines: Receiver<Message>,
    pub(crate) ready: Sender<()>,
}

// Answers what comes from a client of this name.
fn answer<R: Wait, T: Threads + Sync>(
    rt: &T,
    talk: &mut Talk<'_, '_, R>,
    name: &mut Option<Name>,
    message: Message,
    out: &mut Vec<u8>,
) -> Result<(), AllocError>
    requires { out.old.items ≡ [] }
{
    if let Message::Join(joined) = message {
        *name = Some(joined);
        talk.join();
        return Ok(());
    }
    let Some(name) = name else {
        return Ok(());
    };
    match message {
        Message::Join(_) => Ok(()),
        Message::Record(line) => talk.line(rt, name.as_bytes(), &line, out),
        Message::Long => talk.long(name.as_bytes(), out),
        Message::Lost => talk.lost(name.as_bytes(), out),
        Message::Leave => talk.leave(name.as_bytes(), out),
    }
}

/// Serves the clients of a desk, one after another, until no more come. No clause: of what comes from
/// another thread no contract knows; how each line is answered says `Talk`.
pub(crate) fn attend<T: Threads + Wait + Sync, S: Outbox>(
    rt: &T,
    alloc: Global,
    hall: &Hall<'_>,
    booth: Booth,
    answers: &S,
) -> Result<(), ClientFault>
    requires { IsChecked hall.now.settings }
{
    let Booth {
        bell,
        viewer,
        lines,
        ready,
    } = booth;
    let clerk = Clerk::new(rt, hall, bell, viewer)?;
    let mut talk = Talk::new(alloc, Desk::new(alloc, clerk))?;
    let mut out = page(alloc)?;
    let mut name = None;
    let _ = ready.send(rt, ());
    drop(ready);
    for _ in rt.forever() {
        let Ok(message) = lines.recv(rt) else {
            return Ok(());
        };
        empty(alloc, &mut out);
        answer(rt, &mut talk, &mut name, message, &mut out)?;
        if !out.is_empty() {
            answers.send(&out);
        }
    }
    unreachable!()
}
