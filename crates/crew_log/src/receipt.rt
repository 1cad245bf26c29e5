//! Receipts.

ghost use Rattle.std.specs.Prelude.{◌≡◌, IfSome, IfNone};
ghost use Rattle.crew_log.specs.Logs.{AreOf, HaveNone, IsOf};

use crate::log::Log;
use crate::stamped::{InPlace, Stamped};
use boxcar::table::Placed;
use crew_flights::Entry;
use std::alloc::Global;
use std::marker::Model;

/// What shows that a place of a log has an entry, for good. It is used with the log that it came
/// from.
///
/// A contract sees the place as `index`, the entry as `value`, and what ties it to its log.
pub struct Receipt {
    pub(crate) at: Placed<Stamped, InPlace, Global>,
}

impl Drop for Receipt {
    fn drop(self) {
        let Self { at: _ } = self;
    }
}

impl Model for Receipt {
    ghost use Rattle.boxcar.specs.Table.{Where};
    ghost use Rattle.crew_flights.specs.declared.entries.Entry.{Entry};

    ghost Value = { Where Entry };

    ghost view = { λ r. record {
      index = r.at.index;
      value = r.at.value.entry;
      bucket = r.at.bucket;
      row = r.at.row;
      item = r.at.item;
    } };
}

impl Receipt {
    /// The place, 0 and up.
    pub fn place(&self) -> usize
        ensures { result ≡ self.now.index }
    {
        self.at.index()
    }

    /// The entry at the place.
    pub fn entry<'a>(&self, log: &'a Log) -> &'a Entry
        requires { IsOf log.now self.now }
        ensures { result.now ≡ self.now.value }
    {
        &log.row.value(&self.at).entry
    }
}

// A copy of a receipt among these that has this place.
pub(crate) fn copy_at(place: usize, receipts: &[Receipt]) -> Option<Receipt>
    ensures some { (log : _) → AreOf log receipts.now
        → IfSome result (λ receipt. IsOf log receipt × (receipt.index ≡ place)) }
    ensures none { IfNone result (HaveNone receipts.now place) }
{
    for receipt in receipts {
        if receipt.place() == place {
            return Some(Receipt {
                at: receipt.at.again(),
            });
        }
    }
    None
}
