//! Whether an earlier network is a timetable's own.
ghost use Rattle.std.specs.Prelude.{◌≡◌, map, true};
ghost use Rattle.std.specs.FinMap as fin;
ghost use Rattle.crew_flights.specs.Timetable.{Timetable};
ghost use Rattle.crew_net.specs.Nets.{IsNetOf};

use crew_flights::Code;
use crew_fronts::crew_step::is_same_duty;
use crew_net::Net;
use crew_pairing::Duties;
use crew_rules::Settings;

/// Whether a network was made under these settings.
pub(crate) fn is_under(net: &Net, settings: &Settings) -> bool
    ensures { result ≡ true → net.now.settings ≡ settings.now }
{
    net.settings() == settings
}

// Whether two lists of duties are one.
fn are_same_duties(one: &Duties, other: &Duties) -> bool
    ensures { result ≡ true → one.now ≡ other.now }
{
    if one.len() != other.len() {
        return false;
    }
    for place in 0..one.len() {
        if !is_same_duty(one.at(place), other.at(place)) {
            return false;
        }
    }
    true
}

// Whether bases are those of a list with their prices.
fn are_same_bases(bases: &[Code], priced: &[(Code, i64)]) -> bool
    ensures { result ≡ true → bases.now ≡ map (λ base. base.0) priced.now }
{
    if bases.len() != priced.len() {
        return false;
    }
    for place in 0..bases.len() {
        let (base, _) = priced[place];
        if bases[place] != base {
            return false;
        }
    }
    true
}

/// Whether a network is that of a timetable under these settings, given its bases with their prices
/// and its legal duties.
pub(crate) fn is_of(net: &Net, settings: &Settings, bases: &[(Code, i64)], duties: &Duties) -> bool
    ensures { result ≡ true → (t : Timetable) → bases.now ≡ fin.entries t.bases
        → IsNetOf settings.now t duties.now net.now }
{
    let _departures = net.departures();
    let _arrivals = net.arrivals();
    let _places = net.by_report();
    is_under(net, settings)
        && are_same_bases(net.bases(), bases)
        && are_same_duties(net.duties(), duties)
}
