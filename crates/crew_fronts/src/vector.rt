//! What a front shows of a pairing.
ghost use Rattle.std.specs.Prelude.{◌≡◌, ◌↔◌, IsTrue};
ghost use Rattle.crew_answers.specs.ShortPairings as Short;
ghost use Rattle.crew_pass.specs.crew_history.HistoryValues.{periods_of};

use crew_pairing::PairingVector;
use crew_pass::crew_history::History;
use std::marker::Model;

/// The resource vector of a path: the seven sums, the minutes since the last long rest, and the
/// flight duty periods of the last window. Where no pairing of the settings has more than 138 hours
/// the last two are the same for all lists.
///
/// A contract sees the vector.
#[derive(Drop)]
pub struct Vector {
    sums: PairingVector,
    since_rest: i64,
    history: History,
}

impl Model for Vector {
    ghost use Rattle.std.specs.Coded.{codes};
    ghost use Rattle.crew_answers.specs.LongVectors.{LongVector};
    ghost use Rattle.crew_pass.specs.crew_history.HistoryValues.{periods_of};
    ghost use Rattle.crew_pass.specs.crew_history.contracts.history.History as kept;

    ghost Value = { LongVector };

    ghost coded = { Prim.hlevel (codes, kept.the_row.coded) };

    ghost view = { λ v. record {
      sums = v.sums;
      since_rest = v.since_rest;
      history = periods_of v.history;
    } };
}

// Whether two vectors have the same sums.
#[inline]
fn are_same_sums(one: &PairingVector, other: &PairingVector) -> bool
    ensures { IsTrue result ↔ (one.now ≡ other.now) }
{
    one == other
}

// Whether two histories have the same periods.
#[inline]
fn are_same_periods(one: &History, other: &History) -> bool
    ensures { IsTrue result ↔ (periods_of one.now ≡ periods_of other.now) }
{
    one == other
}

impl Vector {
    // The vector of these parts.
    #[inline]
    pub(crate) fn new(sums: PairingVector, since_rest: i64, history: History) -> Vector
        ensures { result ≡ record {
          sums = sums;
          since_rest = since_rest;
          history = periods_of history;
        } }
    {
        Vector {
            sums,
            since_rest,
            history,
        }
    }

    // The vector of these sums without a past.
    #[inline]
    pub(crate) fn with_no_past(sums: PairingVector) -> Vector
        ensures { result ≡ Short.with_no_past sums }
    {
        Vector::new(sums, 0, History::new())
    }

    /// The seven sums.
    #[inline]
    pub fn sums(&self) -> &PairingVector
        ensures { result.now ≡ self.now.sums }
    {
        &self.sums
    }

    /// The minutes from the end of the last rest of 1,800 minutes or more, or from the first report,
    /// to the last report; 0 where no pairing of the settings has more than 138 hours.
    #[inline]
    pub fn since_rest(&self) -> i64
        ensures { result ≡ self.now.since_rest }
    {
        self.since_rest
    }

    /// An equal vector.
    pub fn copy(&self) -> Vector
        ensures { result ≡ self.now }
    {
        Vector {
            sums: self.sums,
            since_rest: self.since_rest,
            history: self.history,
        }
    }

    /// Whether another vector has the same parts.
    pub fn is_same(&self, other: &Vector) -> bool
        ensures { IsTrue result ↔ (self.now ≡ other.now) }
    {
        are_same_sums(&self.sums, &other.sums)
            && self.since_rest == other.since_rest
            && are_same_periods(&self.history, &other.history)
    }
}
