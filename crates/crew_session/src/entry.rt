//! Entries of a log with one seat.

ghost use Rattle.std.specs.Prelude.{◌≡◌};
ghost use Rattle.crew_session.specs.Entries.{entry_of};

use crew_flights::{Edit, Entry};

// The entry of an edit, after so many others.
pub(crate) fn make_entry(number: u32, edit: Edit) -> Entry
    ensures { result ≡ entry_of number edit }
{
    Entry {
        seat: 0,
        number,
        edit,
    }
}
