//! The engine without workers.

ghost use Rattle.std.specs.Prelude.{◌≡◌, ◌+◌, ◌≤◌, [], false, length, vec_len};
ghost use Rattle.crew_rules.specs.Settings.{IsChecked};
ghost use Rattle.crew_session.specs.Oddities.{nothing_made};
ghost use Rattle.crew_version.specs.Versions.{opening};

use crate::engine::Engine;
use crate::engine_fault::EngineFault;
use crate::entry::make_entry;
use crew_flights::{Edit, Entry};
use crew_rules::Settings;
use crew_version::Version;
use std::alloc::Global;
use std::mem::replace;
use std::thread::Threads;

/// The engine without workers: a settle works on the thread that calls it, and goes on from the
/// fold of the version before. It is never strange. An entry waits in a list until a settle moves
/// it to its version, so each is kept once.
pub struct Plain {
    version: Version,
    pending: Vec<Entry>,
    ghost few: { length version.entries + vec_len pending ≤ 1_000_000 },
}

impl Drop for Plain {
    fn drop(self) {
        let Self {
            version: _,
            pending: _,
        } = self;
    }
}

impl Plain {
    ghost use Rattle.crew_session.specs.Machinery.Plains.{made_by, shown_by, taken_by};

    /// An engine that has taken no edit, with version 0 under these settings.
    pub fn new(alloc: Global, settings: &Settings) -> Self
        requires { IsChecked settings.now }
        ensures entries { taken_by result ≡ [] }
        ensures shown { shown_by result ≡ opening settings.now }
        ensures made { made_by result ≡ nothing_made (opening settings.now) }
    {
        Plain {
            version: Version::opening(alloc, settings),
            pending: Vec::new(alloc),
        }
    }
}

// The most edits that an engine takes.
const EDITS: usize = 1_000_000;

impl Engine for Plain {
    ghost use Rattle.crew_session.specs.Machinery.Plains.{found_by, made_by, shown_by, taken_by};

    ghost entries = { taken_by };

    ghost shown = { shown_by };

    ghost MAY_BE_STRANGE = { false };

    ghost made = { made_by };

    ghost found = { found_by };

    fn may_be_strange(&self) -> bool {
        false
    }

    fn submit(&mut self, edit: Edit) -> Result<(), (Edit, EngineFault)> {
        let number = self.version.count() + self.pending.len();
        if number >= EDITS {
            return Err((edit, EngineFault::SeatFull));
        }
        match self.pending.push(make_entry(number as u32, edit)) {
            Ok(()) => Ok(()),
            Err(failed) => Err((failed.value.edit, EngineFault::Memory)),
        }
    }

    fn settle<R: Threads + Sync>(&mut self, rt: &R) -> Result<(), EngineFault> {
        let alloc = *self.pending.allocator();
        let entries = replace(&mut self.pending, Vec::new(alloc));
        match self.version.next(rt, alloc, entries) {
            Ok(next) => {
                self.version = next;
                Ok(())
            }
            Err((entries, fault)) => {
                self.pending = entries;
                Err(fault.into())
            }
        }
    }

    fn version(&self) -> &Version {
        &self.version
    }
}
