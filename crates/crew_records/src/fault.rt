//! Why a record is refused.

ghost use Rattle.std.specs.Prelude.{◌≡◌};
ghost use Rattle.crew_records.specs.Faults.{record_number};

use crew_clocks::TimeFault;
use thiserror::Error;

/// Why a record is refused before it reaches the timetable.
#[derive(Clone, Copy, Debug, PartialEq, Eq, Error)]
pub enum RecordFault {
    /// 1 to 4: a field is no text of a time, or of a zone.
    #[error("{0}")]
    Text(TimeFault),
    /// 70: no record has this name.
    #[error("no record has this name")]
    UnknownRecord,
    /// 71: a record of this name has another number of fields.
    #[error("a record of this name has another number of fields")]
    FieldCount,
    /// 72: a field has another form.
    #[error("a field has another form")]
    BadField,
    /// 73: the airport has no zone.
    #[error("the airport has no zone")]
    NoZone,
    /// 74: the airport has a zone already.
    #[error("the airport has a zone already")]
    ZoneExists,
    /// 75: 2,000 zones are held.
    #[error("2,000 zones are held")]
    TooManyZones,
}

impl RecordFault {
    /// The number by which the refusal is printed.
    pub fn number(self) -> u8
        ensures { result ≡ record_number self }
    {
        match self {
            RecordFault::Text(fault) => fault.number(),
            RecordFault::UnknownRecord => 70,
            RecordFault::FieldCount => 71,
            RecordFault::BadField => 72,
            RecordFault::NoZone => 73,
            RecordFault::ZoneExists => 74,
            RecordFault::TooManyZones => 75,
        }
    }
}

impl From<TimeFault> for RecordFault {
    ghost use Rattle.std.specs.Prelude.{◌≡◌};
    ghost use Rattle.crew_records.specs.declared.fault.RecordFault.TheVariants.{Text};

    ghost from_gives = { λ why fault. fault ≡ Text why };

    fn from(why: TimeFault) -> RecordFault {
        RecordFault::Text(why)
    }
}
