//! How like two grounds are, so that jobs of the one can be taken for jobs of the other.
ghost use Rattle.std.specs.Prelude.{◌≡◌, ◌↔◌, IsTrue, true};
ghost use Rattle.crew_board.specs.Machinery.Likes.{AreLike};
ghost use Rattle.crew_board.specs.declared.alike.Likeness.TheVariants as Is;
ghost use Rattle.crew_job.specs.Grounds.{sealed_data_of};

use crew_job::Ground;

/// How like the ground of a job is to that of a round.
#[derive(Clone, Copy)]
pub(crate) enum Likeness {
    /// Nothing is known: a job is compared with a node by what it holds.
    Unknown,
    /// The settings and the timetables are the same: so are the works of their nodes.
    SameData,
    /// The plans are the same too, and the timetables before: nodes have the same places, a sweep of
    /// the one is a sweep of the other, and what has its front of before in one has it in the other.
    SameRound,
}

// Whether two lists of places are one.
fn are_same_places(one: &[u32], other: &[u32]) -> bool
    ensures { result ≡ true → one.now ≡ other.now }
{
    one == other
}

// Whether two grounds, whose data are the same, go through departures in one order, after versions
// with one timetable.
fn are_of_one_round(one: &Ground, other: &Ground) -> bool
    ensures order { result ≡ true → one.now.plan.net.by_report ≡ other.now.plan.net.by_report }
    ensures sealed { result ≡ true → sealed_data_of one.now ≡ sealed_data_of other.now }
{
    are_same_places(one.net().by_report(), other.net().by_report())
        && one.is_same_sealed_data(other)
}

/// How like two grounds are. They have one plan where their data are the same, and departures are
/// gone through in one order.
pub(crate) fn likeness_of(one: &Ground, other: &Ground) -> Likeness
    ensures { AreLike result one.now other.now }
{
    if !one.is_same_data(other) {
        return Likeness::Unknown;
    }
    let (_own, _others) = (one.net(), other.net());
    if are_of_one_round(one, other) {
        Likeness::SameRound
    } else {
        Likeness::SameData
    }
}

/// Whether all that is known is that nothing is.
pub(crate) fn is_unknown(like: Likeness) -> bool
    ensures { IsTrue result ↔ (like ≡ Is.Unknown) }
{
    matches!(like, Likeness::Unknown)
}

/// Whether the plans are the same, and the timetables before.
pub(crate) fn is_same_round(like: Likeness) -> bool
    ensures { IsTrue result ↔ (like ≡ Is.SameRound) }
{
    matches!(like, Likeness::SameRound)
}
