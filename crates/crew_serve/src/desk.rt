//! A client as one thread serves it: its zones, its edits that wait, and its side of the service.

ghost use Rattle.std.specs.Prelude.{◌≡◌, ◌≢◌, ◌⊎◌, ◌++◌, [], OnErr, OnOk};
ghost use Rattle.crew_records.specs.Commands.{IsDated};
ghost use Rattle.crew_session.specs.Questions.{IsQuestion};
ghost use Rattle.crew_session.specs.Lines.{refused_line};
ghost use Rattle.crew_serve.specs.Faults.{client_number};
ghost use Rattle.crew_serve.specs.Clients.{AddsZone, Asks, Declines, Does, IsBlind, IsForgone, IsSight, Serves, Settles, Submits, newcomer, told_verdicts};
ghost use Rattle.crew_serve.specs.Machinery.Desks.{client_of};
ghost use Rattle.crew_session.specs.Zones.{zone_fault};
ghost use Rattle.crew_version.specs.Versions.{verdicts_of};

use crate::answer::{make_room, put_refused};
use crate::clerk::Clerk;
use crate::client_fault::ClientFault;
use crate::waiting::Waiting;
use crew_clocks::Zone;
use crew_flights::{Code, Edit, Flight};
use crew_records::{Command, RecordFault};
use crew_session::{Airports, answer, write_verdict, write_version};
use crew_version::Version;
use std::alloc::{AllocError, Global};
use std::marker::Model;
use std::sync::Wait;
use std::thread::Threads;

// Appends the verdicts of a version on edits that it has.
fn put_verdicts(
    alloc: Global,
    text: &mut Vec<u8>,
    version: &Version,
    waiting: &[Waiting],
) -> Result<(), AllocError>
    ensures { OnOk result (text.new.items ≡ text.old.items
        ++ told_verdicts waiting.now (verdicts_of version.now.entries)) }
{
    for edit in waiting {
        let verdict = version.verdict(edit.place);
        write_verdict(alloc, text, edit.number, verdict).map_err(|_| AllocError)?;
    }
    Ok(())
}

/// A client at its desk. A contract sees where the client stands.
pub(crate) struct Desk<'s, 'a, R: Wait> {
    alloc: Global,
    clerk: Clerk<'s, 'a, R>,
    airports: Airports,
    waiting: Vec<Waiting>,
}

impl<'s, 'a, R: Wait> Drop for Desk<'s, 'a, R> {
    fn drop(self) {
        let Self {
            alloc: _,
            clerk: _,
            airports: _,
            waiting: _,
        } = self;
    }
}

impl<'s, 'a, R: Wait> Model for Desk<'s, 'a, R> {
    ghost use Rattle.crew_serve.specs.Machinery.Desks.{AtDesk};

    ghost Value = { AtDesk };

    ghost view = { λ d. record {
      settings = d.clerk.settings;
      airports = d.airports;
      version = d.clerk.version;
      seat = d.clerk.seat;
      waiting = d.waiting.items;
    } };
}

impl<'s, 'a, R: Wait> Desk<'s, 'a, R> {
    /// A desk at which a client sits down, by its side of the service.
    pub(crate) fn new(alloc: Global, clerk: Clerk<'s, 'a, R>) -> Self
        ensures settings { result.settings ≡ clerk.entry.settings }
        ensures client { client_of result
            ≡ record (newcomer clerk.entry.version) { seat = clerk.entry.seat } }
    {
        Desk {
            alloc,
            clerk,
            airports: Airports::new(alloc),
            waiting: Vec::new(alloc),
        }
    }

    /// The number of the version that the client saw last.
    pub(crate) fn version(&self) -> u64
        ensures { result ≡ self.now.version.number }
    {
        self.clerk.number()
    }

    // Refuses a record by what the service says.
    fn refuse(&self, text: &mut Vec<u8>, number: u32, fault: ClientFault) -> Result<(), AllocError>
        ensures told { OnOk result (text.new.items
            ≡ text.old.items ++ refused_line number (client_number fault)) }
        ensures other { OnOk result (fault ≢ ClientFault.Memory) }
    {
        match fault {
            ClientFault::Memory => Err(AllocError),
            fault => put_refused(text, number, fault.number()),
        }
    }

    // Takes a zone, or refuses it.
    fn add_zone(
        &mut self,
        number: u32,
        code: Code,
        zone: Zone,
        text: &mut Vec<u8>,
    ) -> Result<(), AllocError>
        requires { text.old.items ≡ [] }
        ensures ok { OnOk result (AddsZone (zone_fault (client_of self.old).zones code) number code zone
            (client_of self.old) (client_of self.new) text.new.items) }
        ensures err { OnErr result (self.new ≡ self.old) }
        ensures settings { self.new.settings ≡ self.old.settings }
    {
        match self.airports.add(code, zone)? {
            None => Ok(()),
            Some(fault) => put_refused(text, number, fault.number()),
        }
    }

    // Makes an edit an entry of the log, which waits for a settle.
    fn submit(&mut self, number: u32, edit: Edit, text: &mut Vec<u8>) -> Result<(), AllocError>
        requires { text.old.items ≡ [] }
        ensures ok { OnOk result
            (Submits number edit (client_of self.old) (client_of self.new) text.new.items) }
        ensures err { OnErr result (IsForgone (client_of self.old) (client_of self.new)) }
        ensures settings { self.new.settings ≡ self.old.settings }
    {
        self.waiting.reserve(1)?;
        match self.clerk.submit(edit) {
            Ok((place, entry)) => {
                self.waiting.push_reserved(Waiting {
                    number,
                    place,
                    entry,
                });
                Ok(())
            }
            Err(fault) => self.refuse(text, number, fault),
        }
    }

    // Settles all edits that wait, and tells the verdicts on them and the version. They wait until there
    // is room for the answer.
    fn settle<T: Threads + Sync>(
        &mut self,
        rt: &T,
        number: u32,
        text: &mut Vec<u8>,
        out: &mut Vec<u8>,
    ) -> Result<(), AllocError>
        requires { text.old.items ≡ [] }
        ensures out { out.new.items ≡ out.old.items }
        ensures ok { OnOk result (Settles (client_of self.old) (client_of self.new) text.new.items
            ⊎ Declines number (client_of self.old) (client_of self.new) text.new.items
            ⊎ IsBlind number (client_of self.old) (client_of self.new) text.new.items) }
        ensures err { OnErr result (IsForgone (client_of self.old) (client_of self.new)) }
        ensures settings { self.new.settings ≡ self.old.settings }
    {
        match self.clerk.settle(rt, self.alloc, &self.waiting) {
            Ok(view) => {
                put_verdicts(self.alloc, text, view.version(), &self.waiting)?;
                write_version(self.alloc, text, view.version()).map_err(|_| AllocError)?;
                make_room(out, text)?;
                self.waiting.clear();
                Ok(())
            }
            Err(fault) => self.refuse(text, number, fault),
        }
    }

    // Answers a question by what is published.
    fn ask(
        &mut self,
        number: u32,
        question: &Command,
        text: &mut Vec<u8>,
        out: &mut Vec<u8>,
    ) -> Result<(), AllocError>
        requires question { IsQuestion question.now }
        requires empty { text.old.items ≡ [] }
        ensures out { out.new.items ≡ out.old.items }
        ensures ok { OnOk result
            (Asks number question.now (client_of self.old) (client_of self.new) text.new.items
            ⊎ IsBlind number (client_of self.old) (client_of self.new) text.new.items) }
        ensures err { OnErr result (IsForgone (client_of self.old) (client_of self.new)) }
        ensures settings { self.new.settings ≡ self.old.settings }
    {
        match self.clerk.see() {
            Ok(view) => {
                answer(self.alloc, number, question, view.version(), text).map_err(|_| AllocError)?;
                make_room(out, text)
            }
            Err(fault) => self.refuse(text, number, fault),
        }
    }

    // Does what a record asks for, and tells what is to be told. Where there is no memory for it, it is
    // as if the record hadn't come.
    fn obey<T: Threads + Sync>(
        &mut self,
        rt: &T,
        number: u32,
        command: Command,
        text: &mut Vec<u8>,
        out: &mut Vec<u8>,
    ) -> Result<(), AllocError>
        requires dated { IsDated command }
        requires empty { text.old.items ≡ [] }
        ensures out { out.new.items ≡ out.old.items }
        ensures ok { OnOk result (Does self.old.settings number command
            (client_of self.old) (client_of self.new) text.new.items) }
        ensures err { OnErr result (IsForgone (client_of self.old) (client_of self.new)) }
        ensures settings { self.new.settings ≡ self.old.settings }
    {
        match command {
            Command::AddZone { code, zone } => self.add_zone(number, code, zone, text),
            Command::Submit(edit) => self.submit(number, edit, text),
            Command::AddFlight {
                id,
                from,
                to,
                dep,
                arr,
                price,
            } => match self.airports.clock_at(self.clerk.settings(), from, dep) {
                None => put_refused(text, number, RecordFault::NoZone.number()),
                Some(report_clock) => {
                    let edit = Edit::AddFlight(Flight {
                        id,
                        from,
                        to,
                        dep,
                        arr,
                        report_clock,
                        price,
                    });
                    self.submit(number, edit, text)
                }
            },
            Command::Retime { id, from, dep, arr } => {
                match self.airports.clock_at(self.clerk.settings(), from, dep) {
                    None => put_refused(text, number, RecordFault::NoZone.number()),
                    Some(report_clock) => {
                        let edit = Edit::Retime {
                            id,
                            from,
                            dep,
                            arr,
                            report_clock,
                        };
                        self.submit(number, edit, text)
                    }
                }
            }
            Command::Settle => self.settle(rt, number, text, out),
            Command::Refuse(fault) => put_refused(text, number, fault.number()),
            question => self.ask(number, &question, text, out),
        }
    }

    /// Does what the record of a number asks for, and tells what is to be told, for which there is room in
    /// `out` then. Where there is no memory for it, that is told, and it is as if the record hadn't come,
    /// but that a later version may have been seen or a seat taken. `Err` where not even that can be told.
    pub(crate) fn serve<T: Threads + Sync>(
        &mut self,
        rt: &T,
        number: u32,
        command: Command,
        text: &mut Vec<u8>,
        out: &mut Vec<u8>,
    ) -> Result<(), AllocError>
        requires dated { IsDated command }
        requires empty { text.old.items ≡ [] }
        ensures out { out.new.items ≡ out.old.items }
        ensures ok { OnOk result (Serves self.old.settings number command
            (client_of self.old) (client_of self.new) text.new.items) }
        ensures settings { self.new.settings ≡ self.old.settings }
    {
        match self.obey(rt, number, command, text, out) {
            Ok(()) => Ok(()),
            Err(_) => {
                text.clear();
                put_refused(text, number, ClientFault::Memory.number())
            }
        }
    }

    /// Sees what is published now, where that can be seen.
    pub(crate) fn look(&mut self)
        ensures sight { IsSight self.old.version self.new.version }
        ensures seen { self.new ≡ record self.old { version = self.new.version } }
    {
        let _ = self.clerk.see();
    }

    /// The client leaves: its seat is free, and the next one who sits down has given no zone and made no
    /// edit.
    pub(crate) fn leave(&mut self)
        ensures left { client_of self.new ≡ newcomer self.old.version }
        ensures settings { self.new.settings ≡ self.old.settings }
    {
        self.clerk.stand();
        self.airports = Airports::new(self.alloc);
        self.waiting.clear();
    }
}
