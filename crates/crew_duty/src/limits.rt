//! What no beginning of a duty may pass.

ghost use Rattle.std.specs.Prelude.{◌≡◌, ◌≤ℤ◌, ◌∷◌, List, pos};
ghost use Rattle.crew_rules.specs.Settings.{IsChecked};
ghost use Rattle.crew_rules.specs.declared.settings.Settings.{Settings};
ghost use Rattle.crew_pairing.specs.Legality.{last_of};
ghost use Rattle.crew_duty.specs.Machinery.Limits.{AreLimits, latest_departure};
ghost use Rattle.crew_pairing.specs.Machinery.Listing.{is_hopeless};
ghost use Rattle.crew_duty.specs.Machinery.Running.{AreTotals};

use crate::totals::Totals;
use crew_flights::Flight;
use crew_pairing::TimedLeg;
use crew_pairing::facts::report;
use crew_rules::{Settings, limits_from, table_a};

/// What no beginning of a duty may pass, by its first leg: so it is looked up once for all of them.
#[derive(Drop)]
pub(crate) struct Limits {
    /// When the crew reports.
    pub(crate) report: i64,
    /// The most legs that the crew rides.
    pub(crate) deadheads: usize,
    /// The most flight minutes.
    pub(crate) fly: u16,
    /// The most minutes from report to the last arrival, by the number of flight segments.
    pub(crate) periods: [u16; 7],
}

impl Limits {
    /// Of the duties that begin with this leg.
    pub(crate) fn of(settings: &Settings, first: &TimedLeg) -> Limits
        requires { IsChecked settings.now }
        ensures { AreLimits settings.now first.now result }
    {
        let clock = first.flight.report_clock;
        Limits {
            report: report(settings, first),
            deadheads: settings.deadheads as usize,
            fly: table_a(clock),
            periods: limits_from(clock),
        }
    }

    /// Whether no duty can begin with these legs, of which the last is of this flight.
    #[inline(always)]
    pub(crate) fn forbid(&self, last: &Flight, totals: Totals) -> bool
        requires { (s : Settings) × (first : TimedLeg) × AreLimits s first self.now }
        ensures { (s : Settings) (first : TimedLeg) (others : List TimedLeg)
            → AreLimits s first self.now → AreTotals (first ∷ others) totals
            → (last_of first others).flight ≡ last.now → result ≡ is_hopeless s first others }
    {
        if totals.deadheads > self.deadheads {
            return true;
        }
        let most = self.periods[totals.segments.clamp(1, 7) - 1];
        totals.fly > i64::from(self.fly) || last.arr.get() - self.report > i64::from(most)
    }

    /// The latest departure of a leg that goes on from these.
    #[inline(always)]
    pub(crate) fn latest(&self, totals: Totals) -> i64
        requires { (s : Settings) × (first : TimedLeg) × AreLimits s first self.now }
        ensures value { (s : Settings) (first : TimedLeg) (legs : List TimedLeg)
            → AreLimits s first self.now → AreTotals legs totals
            → result ≡ latest_departure s first legs }
        ensures least { pos 0 ≤ℤ result }
        ensures most { result ≤ℤ pos 100_000_000 }
    {
        let most = self.periods[totals.segments.clamp(1, 7) - 1];
        self.report + i64::from(most)
    }
}
