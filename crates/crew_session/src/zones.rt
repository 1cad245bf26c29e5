//! The zones of airports.

ghost use Rattle.std.specs.Prelude.{◌≡◌, OnErr, OnOk};
ghost use Rattle.std.specs.Option.{option_copied};
ghost use Rattle.std.proofs.Props.{props};
ghost use Rattle.std.specs.BTreeMap.{IsOrdered};
ghost use Rattle.crew_flights.specs.Codes.{code_cmp};

use crew_clocks::Zone;
use crew_flights::Code;
use crew_records::RecordFault;
use std::alloc::{AllocError, Global};
use std::collections::BTreeMap;

// The most zones that a session holds.
const ZONES: usize = 2_000;

// A session's zones, by airport.
#[derive(Drop)]
pub(crate) struct Zones {
    by_code: BTreeMap<Code, Zone>,
    ghost ordered: { IsOrdered code_cmp by_code } by { Prim.hlevel props },
}

impl Zones {
    ghost use Rattle.std.specs.FinMap as map;
    ghost use Rattle.crew_session.specs.Machinery.Journals.{zones_of};
    ghost use Rattle.crew_session.specs.Zones.{zone_fault};

    // No zones.
    pub(crate) fn new(alloc: Global) -> Self
        ensures { zones_of result ≡ map.empty }
    {
        Zones {
            by_code: BTreeMap::new(alloc),
        }
    }

    // The zone of an airport.
    pub(crate) fn get(&self, code: Code) -> Option<&Zone>
        ensures { option_copied result ≡ map.get (zones_of self.now) code }
    {
        self.by_code.get(&code)
    }

    // Why a zone for this airport is refused, if it is.
    pub(crate) fn refusal(&self, code: Code) -> Option<RecordFault>
        ensures { result ≡ zone_fault (zones_of self.now) code }
    {
        if self.by_code.contains_key(&code) {
            return Some(RecordFault::ZoneExists);
        }
        if self.by_code.len() >= ZONES {
            return Some(RecordFault::TooManyZones);
        }
        None
    }

    // Takes a zone.
    pub(crate) fn add(&mut self, code: Code, zone: Zone) -> Result<(), AllocError>
        ensures ok { OnOk result (zones_of self.new ≡ map.insert (zones_of self.old) code zone) }
        ensures err { OnErr result (self.new.by_code.entries ≡ self.old.by_code.entries) }
    {
        self.by_code.insert(code, zone)?;
        Ok(())
    }
}
