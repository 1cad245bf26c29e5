//! Whether two timetables are one.
ghost use Rattle.std.specs.Prelude.{◌≡◌, ◌↔◌, IsTrue};
ghost use Rattle.std.specs.FinMap as fin;
ghost use Rattle.crew_flights.specs.Timetable.{IsSound};

use crew_flights::Timetable;

// Whether two timetables hold the same flights.
fn have_same_flights(one: &Timetable, other: &Timetable) -> bool
    ensures same { IsTrue result ↔ (fin.values one.now.flights ≡ fin.values other.now.flights) }
    ensures sound { IsSound one.now }
{
    one.flights().eq(other.flights())
}

// Whether two timetables hold the same bases at the same prices.
fn have_same_bases(one: &Timetable, other: &Timetable) -> bool
    ensures same { IsTrue result ↔ (fin.entries one.now.bases ≡ fin.entries other.now.bases) }
    ensures sound { IsSound other.now }
{
    one.bases().eq(other.bases())
}

// Whether two timetables hold the same turns.
fn have_same_turns(one: &Timetable, other: &Timetable) -> bool
    ensures { IsTrue result ↔ (fin.entries one.now.turns ≡ fin.entries other.now.turns) }
{
    one.turns().eq(other.turns())
}

// Whether in two timetables the same flights follow the same ones.
fn have_same_follow_ons(one: &Timetable, other: &Timetable) -> bool
    ensures { IsTrue result ↔ (fin.entries one.now.follows ≡ fin.entries other.now.follows) }
{
    one.follows().eq(other.follows())
}

// Whether two timetables hold the same turns and the same follow-ons.
fn have_same_links(one: &Timetable, other: &Timetable) -> bool
    ensures { IsTrue result ↔ ((fin.entries one.now.turns ≡ fin.entries other.now.turns)
        × (fin.entries one.now.follows ≡ fin.entries other.now.follows)) }
{
    have_same_turns(one, other) && have_same_follow_ons(one, other)
}

// Whether two timetables hold the same but for their flights.
fn have_same_others(one: &Timetable, other: &Timetable) -> bool
    ensures same { IsTrue result ↔ ((fin.entries one.now.bases ≡ fin.entries other.now.bases)
        × (fin.entries one.now.turns ≡ fin.entries other.now.turns)
        × (fin.entries one.now.follows ≡ fin.entries other.now.follows)) }
    ensures sound { IsSound other.now }
{
    have_same_bases(one, other) && have_same_links(one, other)
}

/// Whether two timetables hold the same flights, the same bases at the same prices, and the same
/// turns and follow-ons. It takes no memory.
pub fn are_same_timetables(one: &Timetable, other: &Timetable) -> bool
    ensures { IsTrue result ↔ (one.now ≡ other.now) }
{
    have_same_flights(one, other) && have_same_others(one, other)
}
