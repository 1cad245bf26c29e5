//! What a session keeps.

ghost use Rattle.std.specs.Prelude.{◌≡◌, ◌++◌, ◌∷◌, [], OnOk, true};
ghost use Rattle.std.specs.FinMap as map;
ghost use Rattle.crew_session.specs.Machinery.Journals.{zones_of};
ghost use Rattle.crew_session.specs.Entries.{entry_of};

use crate::entry::make_entry;
use crate::zones::Zones;
use crew_flights::{Edit, Entry};
use std::alloc::{AllocError, Global};

// What a session keeps beside its engine: the zones, the records that made the entries since the
// last version, and, where the engine may be strange, these entries themselves.
#[derive(Drop)]
pub(crate) struct Journal {
    pub(crate) zones: Zones,
    pub(crate) records: Vec<u32>,
    pub(crate) entries: Vec<Entry>,
}

impl Journal {
    // Before any record.
    pub(crate) fn new(alloc: Global) -> Self
        ensures zones { zones_of result.zones ≡ map.empty }
        ensures records { result.records.items ≡ [] }
        ensures entries { result.entries.items ≡ [] }
    {
        Journal {
            zones: Zones::new(alloc),
            records: Vec::new(alloc),
            entries: Vec::new(alloc),
        }
    }

    // Takes the record that made the entry at a place, and the entry where it is to be kept.
    pub(crate) fn add(
        &mut self,
        number: u32,
        keeps: bool,
        place: u32,
        edit: Edit,
    ) -> Result<(), AllocError>
        ensures zones { zones_of self.new.zones ≡ zones_of self.old.zones }
        ensures records { OnOk result
            (self.new.records.items ≡ self.old.records.items ++ number ∷ []) }
        ensures entries { OnOk result (keeps ≡ true
            → self.new.entries.items ≡ self.old.entries.items ++ entry_of place edit ∷ []) }
    {
        if keeps {
            self.entries.push(make_entry(place, edit))?;
        }
        self.records.push(number)?;
        Ok(())
    }

    // Forgets the entries.
    pub(crate) fn clear(&mut self)
        ensures zones { zones_of self.new.zones ≡ zones_of self.old.zones }
        ensures records { self.new.records.items ≡ [] }
        ensures entries { self.new.entries.items ≡ [] }
    {
        self.records.clear();
        self.entries.clear();
    }
}
