//! What is told of a walk.

ghost use Rattle.std.specs.Prelude.{◌≡◌, ◌≤◌, ◌≤ℤ◌, IfOk, Ok, length, pos};
ghost use Rattle.crew_flights.specs.Timetable.{IsBasePrice};
ghost use Rattle.crew_resource.specs.Members.{Each};
ghost use Rattle.crew_rules.specs.Settings.{IsChecked};
ghost use Rattle.crew_explain.specs.Explanations.{AreNumbers, IsExplained, way_by};
ghost use Rattle.crew_explain.specs.Machinery.Ranges.{IsInRange};

use crate::breach::{Breach, Rule};
use crate::sums::{add_up, minutes_away};
use crate::walk::{Read, read_walk, walk_breach};
use crew_flights::{Code, Timetable};
use crew_pairing::{Duty, Key};
use crew_rules::{Settings, guaranteed, rated};
use crew_time::ClockMinute;
use std::alloc::{AllocError, Global};

/// What a duty may have, in minutes, by the clock at its report.
#[derive(Clone, Copy, Debug, PartialEq, Eq)]
pub struct Limits {
    /// The clock where it reports.
    pub clock: ClockMinute,
    /// The most flight minutes: Table A.
    pub fly: u16,
    /// The most minutes of its flight duty period: Table B.
    pub fdp: u16,
}

/// What sets the pay of a pairing.
#[derive(Clone, Copy, Debug, PartialEq, Eq)]
pub enum Way {
    /// The pays of its duties.
    Duties,
    /// The trip rig for each minute away.
    Away,
    /// The guarantee for each duty.
    Guarantee,
}

/// The numbers of a pairing. Money is in points, times are in minutes.
#[derive(Debug, Drop)]
pub struct Numbers {
    /// Its pay less prices.
    pub cost: i64,
    /// Its pay.
    pub pay: i64,
    /// From the first report to the last release.
    pub away: i64,
    /// What sets its pay.
    pub way: Way,
    /// Its duties.
    pub duties: Vec<Duty>,
    /// What each duty may have.
    pub limits: Vec<Limits>,
}

/// What a walk is, as a pairing of a base.
#[derive(Debug, Drop)]
pub enum Explained {
    /// A legal pairing, with its numbers.
    Legal(Numbers),
    /// No legal pairing, by the first rule that it breaks.
    Broken(Breach),
}

// What sets the pay.
fn way_by(pays: i64, rig: i64, guarantee: i64) -> Way
    ensures { result ≡ way_by pays rig guarantee }
{
    if rig.max(guarantee) <= pays {
        Way::Duties
    } else if guarantee <= rig {
        Way::Away
    } else {
        Way::Guarantee
    }
}

// The numbers of these duties.
fn numbers_of(settings: &Settings, price: i64, read: Read) -> Numbers
    requires checked { IsChecked settings.now }
    requires price { IsBasePrice price }
    requires few { length read.duties.items ≤ 13 }
    requires ranges { Each IsInRange read.duties.items }
    ensures numbers { AreNumbers settings.now price result }
    ensures duties { result.duties ≡ read.duties }
    ensures limits { result.limits ≡ read.limits }
{
    let sums = add_up(&read.duties);
    let away = minutes_away(&read.duties);
    let rig = rated(settings.trip_rig, away);
    let guarantee = guaranteed(settings.guarantee, read.duties.len() as u32);
    let pay = sums.pay.max(rig).max(guarantee);
    Numbers {
        cost: pay - (sums.price + price),
        pay,
        away,
        way: way_by(sums.pay, rig, guarantee),
        duties: read.duties,
        limits: read.limits,
    }
}

/// Why a walk is, or isn't, a legal pairing of a base: its numbers, or the first rule that it breaks.
/// An error only where a growth was refused.
pub fn explain(
    alloc: Global,
    settings: &Settings,
    timetable: &Timetable,
    base: Code,
    walk: &[Key],
) -> Result<Explained, AllocError>
    requires checked { IsChecked settings.now }
    requires few { length walk.now ≤ 12 }
    ensures { IfOk result (λ told. IsExplained settings.now timetable.now base walk.now told) }
{
    let Some(price) = timetable.base_price(base) else {
        return Ok(Explained::Broken(Breach::of(Rule::Base, 0, 0)));
    };
    let read = match read_walk(alloc, settings, timetable, walk)? {
        Ok(read) => read,
        Err(breach) => return Ok(Explained::Broken(breach)),
    };
    match walk_breach(settings, base, &read.duties) {
        Some(breach) => Ok(Explained::Broken(breach)),
        None => Ok(Explained::Legal(numbers_of(settings, price, read))),
    }
}
