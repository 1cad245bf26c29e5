//! A client's side of the running service: its seat, its viewer and its bell.

ghost use Rattle.std.specs.Prelude.{◌≡◌, ◌⊎◌, ◌++◌, ◌<◌, ◌↔◌, IfErr, IfOk, IsTrue, None, OnErr, OnOk, Some, true};
ghost use Rattle.crew_log.specs.Logs.{AreOf, IsOf};
ghost use Rattle.crew_rules.specs.Settings.{IsChecked};
ghost use Rattle.crew_serve.specs.Clients.{IsCrowded, IsSettledBy, IsSight};
ghost use Rattle.crew_version.specs.Versions.{IsRight};
ghost use Rattle.crew_serve.specs.Machinery.Clerks.{IsEntered, IsJudged, IsLeft, IsNotEntered, IsNotSettled, IsPast, IsUnseen};

use crate::bell::Bell;
use crate::client_fault::{ClientFault, of_view};
use crate::waiting::{Waiting, has_all, have_all};
use crew_flights::{Edit, Entry};
use crew_log::{Log, LogFault, Receipt, Seat};
use crew_publish::{View, Viewer};
use crew_rules::Settings;
use crew_service::{SettleFault, Shared};
use crew_session::has_too_many;
use crew_version::Version;
use std::alloc::{AllocError, Global};
use std::marker::Model;
use std::snapshot::Snapshot;
use std::sync::{Mutex, Wait};
use std::thread::Threads;

// How often a settle is asked for at most, where others leave holes in the log meanwhile.
const TRIES: usize = 10;

/// What all clients of a service share: its log, its settings, and the seats that are free.
pub(crate) struct Hall<'s> {
    pub(crate) shared: &'s Shared,
    pub(crate) settings: Settings,
    pub(crate) seats: Mutex<Vec<Seat>>,
}

impl<'s> Drop for Hall<'s> {
    fn drop(self) {
        let Self {
            shared: _,
            settings: _,
            seats: _,
        } = self;
    }
}

impl<'s> Hall<'s> {
    // A seat that is free, if there is one. No clause: what lies under a lock is hidden from contracts.
    fn take_seat<W: Wait>(&self, rt: &W) -> Option<Seat> {
        let mut seats = self.seats.lock(rt);
        seats.pop()
    }

    // Gives a seat back. It is lost where there is no memory for it. No clause, for the same reason.
    fn give_back<W: Wait>(&self, rt: &W, seat: Seat) {
        let mut seats = self.seats.lock(rt);
        let _ = seats.push(seat);
    }
}

/// A client's side of a service. It keeps no version, so that none outlives its use for one client.
///
/// A contract sees the settings of the service, the version that the client saw last, and its seat.
pub(crate) struct Clerk<'s, 'a, R: Wait> {
    rt: &'a R,
    hall: &'s Hall<'s>,
    bell: Bell,
    viewer: Viewer,
    seat: Option<Seat>,
    number: u64,
    seen: Snapshot<View>,
}

impl<'s, 'a, R: Wait> Drop for Clerk<'s, 'a, R> {
    fn drop(self) {
        let Self {
            rt: _,
            hall: _,
            bell: _,
            viewer: _,
            seat: _,
            number: _,
            seen: _,
        } = self;
    }
}

impl<'s, 'a, R: Wait> Model for Clerk<'s, 'a, R> {
    ghost use Rattle.crew_serve.specs.Machinery.Clerks.{Clerking, IsClerk};

    ghost Value = { Clerking };

    ghost view = { λ c. record {
      settings = c.hall.now.settings;
      version = c.seen.value.version;
      seat = c.seat;
    } };

    ghost invariant = { λ c. IsClerk c.hall.now.settings c.viewer c.seen.value.version c.number };
}

// Whether a version is under these settings.
fn is_under(version: &Version, settings: &Settings) -> bool
    ensures under { IsTrue result ↔ (version.now.settings ≡ settings.now) }
    ensures right { IsRight version.now }
{
    let _number = version.number();
    version.settings() == settings
}

// The entry of a receipt.
fn entry_of(log: &Log, receipt: &Receipt) -> Entry
    requires { IsOf log.now receipt.now }
    ensures { result ≡ receipt.now.value }
{
    let Entry { seat, number, edit } = *receipt.entry(log);
    Entry { seat, number, edit }
}

// The entries of some receipts.
fn entries_in(alloc: Global, log: &Log, receipts: &[Receipt]) -> Result<Vec<Entry>, AllocError>
    requires { AreOf log.now receipts.now }
{
    let mut entries = Vec::with_capacity(alloc, receipts.len())?;
    for receipt in receipts {
        let Entry { seat, number, edit } = *receipt.entry(log);
        entries.push(Entry { seat, number, edit })?;
    }
    Ok(entries)
}

// The entries of a log from a place on, as far as it shows them.
fn entries_from(alloc: Global, log: &Log, place: usize) -> Result<Vec<Entry>, AllocError> {
    let receipts = log.read_from(alloc, place)?;
    entries_in(alloc, log, &receipts)
}

// Whether a version and what a log shows after its entries come to more duties than may be listed,
// with all of these edits among them.
fn is_crowded<T: Threads + Sync>(
    rt: &T,
    alloc: Global,
    log: &Log,
    version: &Version,
    waiting: &[Waiting],
) -> Result<bool, AllocError>
    ensures { IfOk result (λ crowded. crowded ≡ true → IsCrowded waiting.now version.now) }
{
    let more = entries_from(alloc, log, version.count())?;
    Ok(have_all(version, &more, waiting) && has_too_many(rt, alloc, version, &more)?)
}

// Whether a version is past a number, and has these edits.
fn is_past(version: &Version, past: u64, waiting: &[Waiting]) -> bool
    ensures { IsTrue result ↔ IsPast past waiting.now version.now }
{
    version.number() > past && has_all(version, waiting)
}

// Why a version doesn't settle these edits, by what came of a settle before it was seen.
fn why_not<T: Threads + Sync>(
    rt: &T,
    alloc: Global,
    log: &Log,
    told: Result<(), SettleFault>,
    version: &Version,
    waiting: &[Waiting],
) -> ClientFault
    ensures { IsJudged waiting.now version.now result }
{
    match told {
        Err(SettleFault::TooManyDuties) => match is_crowded(rt, alloc, log, version, waiting) {
            Ok(true) => ClientFault::TooManyDuties,
            Ok(false) => ClientFault::Unsettled,
            Err(_) => ClientFault::Memory,
        },
        Err(SettleFault::LastVersion) if version.number() == u64::MAX => ClientFault::LastVersion,
        Err(SettleFault::Memory) => ClientFault::Memory,
        _ => ClientFault::Unsettled,
    }
}

// Whether a settle is to be asked for again.
fn is_unsettled(done: &Result<View, ClientFault>) -> bool {
    matches!(done, Err(ClientFault::Unsettled))
}

impl<'s, 'a, R: Wait> Clerk<'s, 'a, R> {
    /// A client's side of a service, which sees what is published then. `OtherSettings` where that is
    /// under others than the service's, `NoView` where it can't be read, or `Memory`.
    pub(crate) fn new(
        rt: &'a R,
        hall: &'s Hall<'s>,
        bell: Bell,
        viewer: Viewer,
    ) -> Result<Self, ClientFault>
        requires { IsChecked hall.now.settings }
        ensures settings { IfOk result (λ clerk. clerk.settings ≡ hall.now.settings) }
        ensures seat { IfOk result (λ clerk. clerk.seat ≡ None) }
    {
        let mut viewer = viewer;
        let view = match viewer.view() {
            Ok(view) => view,
            Err(fault) => return Err(of_view(fault)),
        };
        if !is_under(view.version(), &hall.settings) {
            return Err(ClientFault::OtherSettings);
        }
        let number = view.version().number();
        let seen = Snapshot::of(&view);
        Ok(Clerk {
            rt,
            hall,
            bell,
            viewer,
            seat: None,
            number,
            seen,
        })
    }

    /// The settings of the service.
    pub(crate) fn settings(&self) -> &Settings
        ensures value { result.now ≡ self.now.settings }
        ensures checked { IsChecked self.now.settings }
        ensures under { self.now.version.settings ≡ self.now.settings }
    {
        &self.hall.settings
    }

    /// The number of the version that was seen last.
    pub(crate) fn number(&self) -> u64
        ensures value { result ≡ self.now.version.number }
        ensures right { IsRight self.now.version }
    {
        self.number
    }

    /// What is published now.
    pub(crate) fn see(&mut self) -> Result<View, ClientFault>
        ensures sight { IfOk result (λ view. IsSight self.old.version view.version) }
        ensures seen { IfOk result (λ view. self.new ≡ record self.old { version = view.version }) }
        ensures fault { IfErr result (IsUnseen self.old.version) }
        ensures err { OnErr result (self.new ≡ self.old) }
        ensures right { IsRight self.new.version }
    {
        let view = match self.viewer.view() {
            Ok(view) => view,
            Err(fault) => return Err(of_view(fault)),
        };
        if !is_under(view.version(), &self.hall.settings) {
            return Err(ClientFault::OtherSettings);
        }
        self.number = view.version().number();
        self.seen = Snapshot::of(&view);
        Ok(view)
    }

    // Takes a seat, where the client has none and one is free.
    fn sit(&mut self)
        ensures kept { (seat : _) → self.old.seat ≡ Some seat → self.new ≡ self.old }
        ensures version { (self.new.version ≡ self.old.version)
            × (self.new.settings ≡ self.old.settings) }
    {
        if self.seat.is_none() {
            self.seat = self.hall.take_seat(self.rt);
        }
    }

    // Makes an edit the next entry of the client's own seat.
    fn enter(&mut self, edit: Edit) -> Result<(usize, Entry), ClientFault>
        ensures ok { IfOk result
            (λ entered. IsEntered self.old.seat edit entered.1 self.new.seat) }
        ensures fault { IfErr result (IsNotEntered self.old.seat self.new.seat) }
        ensures version { (self.new.version ≡ self.old.version)
            × (self.new.settings ≡ self.old.settings) }
        ensures right { IsRight self.new.version }
    {
        let log = self.hall.shared.log();
        let Some(seat) = &mut self.seat else {
            return Err(ClientFault::NoSeat);
        };
        match seat.submit(self.rt, log, edit) {
            Ok(receipt) => Ok((receipt.place(), entry_of(log, &receipt))),
            Err((_, LogFault::SeatFull)) => Err(ClientFault::SeatFull),
            Err(_) => Err(ClientFault::Memory),
        }
    }

    /// Makes an edit the next entry of the client's seat, which it takes with its first one, and gives
    /// the entry with its place in the log. `NoSeat` where it has none and none is free, `SeatFull`
    /// where the seat has made 1,000,000 entries, or `Memory`.
    pub(crate) fn submit(&mut self, edit: Edit) -> Result<(usize, Entry), ClientFault>
        ensures ok { IfOk result
            (λ entered. IsEntered self.old.seat edit entered.1 self.new.seat) }
        ensures fault { IfErr result (IsNotEntered self.old.seat self.new.seat) }
        ensures version { (self.new.version ≡ self.old.version)
            × (self.new.settings ≡ self.old.settings) }
        ensures right { IsRight self.new.version }
    {
        self.sit();
        self.enter(edit)
    }

    /// Gives the seat up.
    pub(crate) fn stand(&mut self)
        ensures { self.new ≡ record self.old { seat = None } }
    {
        if let Some(seat) = self.seat.take() {
            self.hall.give_back(self.rt, seat);
        }
    }

    // Asks once for a settle, and sees whether what is published then is past a number and has all of
    // these edits.
    fn try_settle<T: Threads + Sync>(
        &mut self,
        rt: &T,
        alloc: Global,
        past: u64,
        waiting: &[Waiting],
    ) -> Result<View, ClientFault>
        ensures sight { IsSight self.old.version self.new.version }
        ensures seen { self.new ≡ record self.old { version = self.new.version } }
        ensures ok { IfOk result (λ view. (view.version ≡ self.new.version)
            × IsPast past waiting.now view.version) }
        ensures fault { IfErr result
            (IsLeft self.old.version past waiting.now self.new.version) }
    {
        let told = self.bell.ring(self.rt);
        let view = self.see()?;
        if is_past(view.version(), past, waiting) {
            return Ok(view);
        }
        let log = self.hall.shared.log();
        Err(why_not(rt, alloc, log, told, view.version(), waiting))
    }

    /// Asks for a settle, and gives the published version that has these edits of the client: it follows
    /// the one that was seen before.
    ///
    /// `TooManyDuties` where the version that is seen then, with what the log shows after its entries,
    /// has all of these edits and comes to more than 200,000 duties; `LastVersion` where it has the
    /// greatest number; `Unsettled` where it isn't such a version, after several tries; `OtherSettings`
    /// where what is published is under other settings, `NoView` where it can't be read; or `Memory`.
    pub(crate) fn settle<T: Threads + Sync>(
        &mut self,
        rt: &T,
        alloc: Global,
        waiting: &[Waiting],
    ) -> Result<View, ClientFault>
        ensures sight { IsSight self.old.version self.new.version }
        ensures seen { self.new ≡ record self.old { version = self.new.version } }
        ensures ok { IfOk result (λ view. (view.version ≡ self.new.version)
            × IsSettledBy self.old.version waiting.now view.version) }
        ensures fault { IfErr result
            (IsNotSettled self.old.version waiting.now self.new.version) }
    {
        let past = self.number;
        for _ in 0..TRIES {
            let done = self.try_settle(rt, alloc, past, waiting);
            if !is_unsettled(&done) {
                return done;
            }
        }
        self.try_settle(rt, alloc, past, waiting)
    }
}
