//! What the reading thread does with a line: it finds the client's desk, and hands the record there.

ghost use Rattle.std.specs.Prelude.{◌≡◌, length};

use crate::answer::{empty, page, put_answer, put_refused};
use crate::message::Message;
use crate::post::Outbox;
use crate::roster::Roster;
use crew_lines::{Line, Name, split};
use crossbeam_channel::Sender;
use std::alloc::{AllocError, Global};
use std::sync::Wait;

// Whom a line is answered to that has no name.
const NOBODY: &[u8] = b"?";

/// The front desk: who sits where, and how many lines have come.
#[derive(Drop)]
pub(crate) struct Front {
    alloc: Global,
    roster: Roster,
    desks: Vec<Sender<Message>>,
    lines: u32,
    text: Vec<u8>,
    out: Vec<u8>,
}

// The message of a record.
fn message_of(alloc: Global, record: &[u8]) -> Message {
    if record == b"leave".as_slice() || record == b"leave\r".as_slice() {
        return Message::Leave;
    }
    let mut line = Vec::new(alloc);
    match line.extend_from_slice(record) {
        Ok(()) => Message::Record(line),
        Err(_) => Message::Lost,
    }
}

impl Front {
    /// A front desk of a room with these desks, at which nobody sits.
    pub(crate) fn new(alloc: Global, desks: Vec<Sender<Message>>) -> Result<Front, AllocError> {
        let roster = Roster::new(alloc, desks.len())?;
        Ok(Front {
            alloc,
            roster,
            desks,
            lines: 0,
            text: page(alloc)?,
            out: page(alloc)?,
        })
    }

    // Refuses a record that comes to no desk.
    fn refuse<S: Outbox>(
        &mut self,
        answers: &S,
        name: &[u8],
        number: u32,
        why: u8,
    ) -> Result<(), AllocError> {
        empty(self.alloc, &mut self.text);
        empty(self.alloc, &mut self.out);
        put_refused(&mut self.text, number, why)?;
        put_answer(&mut self.out, name, 0, &self.text)?;
        answers.send(&self.out);
        Ok(())
    }

    // Hands a message to a desk. It waits where the desk has as many as it may.
    fn hand<W: Wait>(&self, rt: &W, desk: usize, message: Message) -> Result<(), AllocError> {
        match self.desks.get(desk) {
            Some(sender) => sender.send(rt, message).map_err(|_| AllocError),
            None => Err(AllocError),
        }
    }

    // The desk of a client, which sits down where it has none; `None` where there is none for it.
    fn desk_of<W: Wait>(&mut self, rt: &W, name: Name) -> Result<Option<usize>, AllocError> {
        if let Some(desk) = self.roster.find(&name) {
            return Ok(Some(desk));
        }
        let Some(desk) = self.roster.admit(name) else {
            return Ok(None);
        };
        self.hand(rt, desk, Message::Join(name))?;
        Ok(Some(desk))
    }

    // Takes a message of a client.
    fn pass<W: Wait, S: Outbox>(
        &mut self,
        rt: &W,
        answers: &S,
        name: Name,
        message: Message,
    ) -> Result<(), AllocError> {
        let Some(desk) = self.desk_of(rt, name)? else {
            return self.refuse(answers, name.as_bytes(), 1, 64);
        };
        if let Message::Leave = message {
            self.roster.leave(desk);
        }
        self.hand(rt, desk, message)
    }

    /// Takes a line. `Err` where a desk is gone, or a refusal can't be told. No clause: of what is sent
    /// to another thread no contract knows.
    pub(crate) fn take<W: Wait, S: Outbox>(
        &mut self,
        rt: &W,
        answers: &S,
        line: Line<'_>,
    ) -> Result<(), AllocError> {
        self.lines = self.lines.saturating_add(1);
        match line {
            Line::Whole(bytes) if bytes.is_empty() => Ok(()),
            Line::Whole(bytes) => match split(bytes) {
                Some((name, record)) => {
                    let message = message_of(self.alloc, record);
                    self.pass(rt, answers, name, message)
                }
                None => self.refuse(answers, NOBODY, self.lines, 76),
            },
            Line::Long(bytes) => match split(bytes) {
                Some((name, _)) => self.pass(rt, answers, name, Message::Long),
                None => self.refuse(answers, NOBODY, self.lines, 77),
            },
        }
    }
}
