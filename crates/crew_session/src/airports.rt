//! The clocks of airports, as a client gives them.

ghost use Rattle.std.specs.Prelude.{◌≡◌, IfOk, IfSome, None, OnErr};
ghost use Rattle.std.specs.FinMap as map;
ghost use Rattle.crew_time.specs.Instant.{IsInYears};
ghost use Rattle.crew_rules.specs.Settings.{IsChecked};
ghost use Rattle.crew_session.specs.Zones as Spec;

use crate::clocks::clock_at;
use crate::zones::Zones;
use crew_clocks::Zone;
use crew_flights::Code;
use crew_records::RecordFault;
use crew_rules::Settings;
use crew_time::{ClockMinute, Minute};
use std::alloc::{AllocError, Global};
use std::marker::Model;

/// The zones that a client gave to airports. A contract sees them as a list, of which `zones_from`
/// makes the map.
#[derive(Drop)]
pub struct Airports {
    zones: Zones,
}

impl Model for Airports {
    ghost use Rattle.std.specs.Prelude.{List, ℕ};
    ghost use Rattle.jiff_tz.specs.PosixText.{TzText};

    ghost Value = { List (List ℕ × TzText) };

    ghost view = { λ a. a.zones.by_code.entries };
}

impl Airports {
    /// No airport has a zone.
    pub fn new(alloc: Global) -> Self
        ensures { Spec.zones_from result ≡ map.empty }
    {
        Airports {
            zones: Zones::new(alloc),
        }
    }

    /// Gives an airport its zone, or tells why not: it has one, or 2,000 airports have one. Where it
    /// is refused, or there is no memory, nothing changes.
    pub fn add(&mut self, code: Code, zone: Zone) -> Result<Option<RecordFault>, AllocError>
        ensures told { IfOk result (λ refusal. refusal ≡ Spec.zone_fault (Spec.zones_from self.old) code) }
        ensures taken { IfOk result
            (λ refusal. refusal ≡ None
            → Spec.zones_from self.new ≡ map.insert (Spec.zones_from self.old) code zone) }
        ensures kept { IfOk result (λ refusal. IfSome refusal (λ why. self.new ≡ self.old)) }
        ensures err { OnErr result (self.new ≡ self.old) }
    {
        if let Some(fault) = self.zones.refusal(code) {
            return Ok(Some(fault));
        }
        self.zones.add(code, zone)?;
        Ok(None)
    }

    /// What the clock of an airport shows when the crew of a departure there reports; `None` where it
    /// has no zone.
    pub fn clock_at(&self, settings: &Settings, from: Code, dep: Minute) -> Option<ClockMinute>
        requires checked { IsChecked settings.now }
        requires dated { IsInYears dep }
        ensures { result ≡ Spec.clock_at settings.now (Spec.zones_from self.now) from dep }
    {
        clock_at(settings, &self.zones, from, dep)
    }
}
