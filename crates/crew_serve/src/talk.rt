//! A client's talk with the service: what comes from it, and how that is answered.

ghost use Rattle.std.specs.Prelude.{◌≡◌, [], IfOk, List, OnOk, ℕ};
ghost use Rattle.crew_serve.specs.Answers.{answer_text};
ghost use Rattle.crew_serve.specs.Clients.{IsSight};
ghost use Rattle.crew_serve.specs.Conversations.{Answers, RefusesBy, Tells, next_number};
ghost use Rattle.crew_serve.specs.Conversations as Spec;
ghost use Rattle.crew_serve.specs.Machinery.Talks.{talk_of};

use crate::answer::{empty, page, put_answer, put_refused};
use crate::desk::Desk;
use crate::record::read_record;
use std::alloc::{AllocError, Global};
use std::marker::Model;
use std::sync::Wait;
use std::thread::Threads;

/// A client that talks from its desk. Where there is no memory for a record, that is told; where not
/// even that can be told, a call fails.
///
/// A contract sees the service's settings, where the client stands, and how many records it has sent.
pub(crate) struct Talk<'s, 'a, R: Wait> {
    alloc: Global,
    desk: Desk<'s, 'a, R>,
    records: u32,
    text: Vec<u8>,
}

impl<'s, 'a, R: Wait> Drop for Talk<'s, 'a, R> {
    fn drop(self) {
        let Self {
            alloc: _,
            desk: _,
            records: _,
            text: _,
        } = self;
    }
}

impl<'s, 'a, R: Wait> Model for Talk<'s, 'a, R> {
    ghost use Rattle.crew_serve.specs.Machinery.Talks.{Talking};

    ghost Value = { Talking };

    ghost view = { λ t. record { desk = t.desk; records = t.records } };
}

// The number of the record after so many.
fn number_after(records: u32) -> u32
    ensures { result ≡ next_number records }
{
    records.saturating_add(1)
}

impl<'s, 'a, R: Wait> Talk<'s, 'a, R> {
    /// A client that sits down at a desk, and has sent nothing.
    pub(crate) fn new(alloc: Global, desk: Desk<'s, 'a, R>) -> Result<Self, AllocError>
        ensures { IfOk result (λ talk. talk ≡ record { desk = desk.entry; records = 0 }) }
    {
        Ok(Talk {
            alloc,
            desk,
            records: 0,
            text: page(alloc)?,
        })
    }

    /// Answers a line.
    pub(crate) fn line<T: Threads + Sync>(
        &mut self,
        rt: &T,
        name: &[u8],
        line: &[u8],
        out: &mut Vec<u8>,
    ) -> Result<(), AllocError>
        requires { out.old.items ≡ [] }
        ensures ok { OnOk result (Answers self.old.desk.settings name.now (Spec.Line line.now)
            (talk_of self.old) (talk_of self.new) out.new.items) }
        ensures settings { self.new.desk.settings ≡ self.old.desk.settings }
    {
        empty(self.alloc, &mut self.text);
        match read_record(self.alloc, line) {
            Ok(None) => return Ok(()),
            Ok(Some(command)) => {
                self.records = number_after(self.records);
                self.desk
                    .serve(rt, self.records, command, &mut self.text, out)?;
            }
            Err(_) => {
                self.records = number_after(self.records);
                put_refused(&mut self.text, self.records, 66)?;
            }
        }
        put_answer(out, name, self.desk.version(), &self.text)
    }

    // Refuses a record.
    fn refuse(&mut self, name: &[u8], why: u8, out: &mut Vec<u8>) -> Result<(), AllocError>
        requires { out.old.items ≡ [] }
        ensures ok { OnOk result ((text : List ℕ)
            × Tells (RefusesBy why) (talk_of self.old) (talk_of self.new) text
            × (out.new.items ≡ answer_text name.now self.new.desk.version.number text)) }
        ensures settings { self.new.desk.settings ≡ self.old.desk.settings }
    {
        empty(self.alloc, &mut self.text);
        self.records = number_after(self.records);
        put_refused(&mut self.text, self.records, why)?;
        put_answer(out, name, self.desk.version(), &self.text)
    }

    /// Answers a line that is too long.
    pub(crate) fn long(&mut self, name: &[u8], out: &mut Vec<u8>) -> Result<(), AllocError>
        requires { out.old.items ≡ [] }
        ensures ok { OnOk result (Answers self.old.desk.settings name.now Spec.Long
            (talk_of self.old) (talk_of self.new) out.new.items) }
        ensures settings { self.new.desk.settings ≡ self.old.desk.settings }
    {
        self.refuse(name, 77, out)
    }

    /// Answers a line for which there was no memory.
    pub(crate) fn lost(&mut self, name: &[u8], out: &mut Vec<u8>) -> Result<(), AllocError>
        requires { out.old.items ≡ [] }
        ensures ok { OnOk result (Answers self.old.desk.settings name.now Spec.Lost
            (talk_of self.old) (talk_of self.new) out.new.items) }
        ensures settings { self.new.desk.settings ≡ self.old.desk.settings }
    {
        self.refuse(name, 66, out)
    }

    /// The client leaves, and that is told.
    pub(crate) fn leave(&mut self, name: &[u8], out: &mut Vec<u8>) -> Result<(), AllocError>
        requires { out.old.items ≡ [] }
        ensures ok { OnOk result (Answers self.old.desk.settings name.now Spec.Leaving
            (talk_of self.old) (talk_of self.new) out.new.items) }
        ensures settings { self.new.desk.settings ≡ self.old.desk.settings }
    {
        self.desk.leave();
        put_answer(out, name, self.desk.version(), b"left\n")
    }

    /// The next client sits down: it has sent nothing, and sees what is published now, where that can be
    /// seen.
    pub(crate) fn join(&mut self)
        ensures sight { IsSight self.old.desk.version self.new.desk.version }
        ensures seen { self.new ≡ record {
          desk = record self.old.desk { version = self.new.desk.version };
          records = 0;
        } }
    {
        self.records = 0;
        self.desk.look();
    }
}
