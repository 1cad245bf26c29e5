//! What a walk breaks.

ghost use Rattle.std.specs.Prelude.{◌≡◌};
ghost use Rattle.crew_explain.specs.Machinery.Firsts.{earliest};
ghost use Rattle.crew_explain.specs.Rules.{at_least, at_most, first_of, told};

/// A rule of a pairing.
#[derive(Clone, Copy, Debug, PartialEq, Eq)]
pub enum Rule {
    /// The base is held.
    Base,
    /// A duty has at most eight legs.
    Legs,
    /// The flight of a leg is held.
    Flight,
    /// A leg leaves the airport that the one before reached.
    Airport,
    /// The least minutes between two legs that have no turn.
    Connect,
    /// The turn between two legs: the least minutes between them.
    Turn,
    /// The most minutes between two legs.
    Sit,
    /// The most legs of a duty that are ridden.
    Deadheads,
    /// The last leg of a duty is flown.
    LastLeg,
    /// Table A.
    FlightTime,
    /// Table B.
    FlightDuty,
    /// The first duty leaves the base.
    Leaves,
    /// A duty leaves the airport that the one before reached.
    RestAirport,
    /// The least rest between two duties.
    Rest,
    /// The longest rest between two duties.
    MaxRest,
    /// The most flight duty minutes of a pairing.
    FdpTotal,
    /// The most flight minutes of a pairing.
    FlyCap,
    /// The most duties of a pairing.
    MaxDuties,
    /// The most minutes away from base.
    AwayCap,
    /// The most flight duty minutes in the 168 hours that end with a duty's last arrival.
    Window,
    /// The most minutes from the end of a rest of 30 hours to a report.
    FreeTime,
    /// The last duty returns to the base.
    Returns,
}

/// A rule that doesn't hold: the duty and the leg, from 1, the number found and its limit; 0 where
/// the rule has none.
#[derive(Clone, Copy, Debug, PartialEq, Eq)]
pub struct Breach {
    /// The rule.
    pub rule: Rule,
    /// The duty.
    pub duty: usize,
    /// The leg of the duty.
    pub leg: usize,
    /// What the walk has.
    pub found: i64,
    /// What it may have.
    pub limit: i64,
}

impl Breach {
    /// Of a rule that has no numbers.
    pub(crate) fn of(rule: Rule, duty: usize, leg: usize) -> Breach
        ensures { result ≡ told rule duty leg }
    {
        Breach {
            rule,
            duty,
            leg,
            found: 0,
            limit: 0,
        }
    }
}

/// That a number is at most its limit.
pub(crate) fn at_most(rule: Rule, duty: usize, leg: usize, found: i64, limit: i64) -> (bool, Breach)
    ensures { result ≡ at_most rule duty leg found limit }
{
    let breach = Breach {
        rule,
        duty,
        leg,
        found,
        limit,
    };
    (found <= limit, breach)
}

/// That a number is at least its limit.
pub(crate) fn at_least(
    rule: Rule,
    duty: usize,
    leg: usize,
    found: i64,
    limit: i64,
) -> (bool, Breach)
    ensures { result ≡ at_least rule duty leg found limit }
{
    let breach = Breach {
        rule,
        duty,
        leg,
        found,
        limit,
    };
    (limit <= found, breach)
}

/// The first rule that doesn't hold.
pub(crate) fn first_broken(rules: &[(bool, Breach)]) -> Option<Breach>
    ensures { result ≡ first_of rules.now }
{
    for &(holds, breach) in rules {
        if !holds {
            return Some(breach);
        }
    }
    None
}

/// The first of several breaches.
pub(crate) fn earliest(breaches: &[Option<Breach>]) -> Option<Breach>
    ensures { result ≡ earliest breaches.now }
{
    for &breach in breaches {
        if breach.is_some() {
            return breach;
        }
    }
    None
}
