//! Whether two networks are one.
//!
//! Told by what `Twins` found, and not by comparing duties again: all arrivals have twins, so each
//! duty of the new network is in the old one, and there are as many.
ghost use Rattle.std.specs.Prelude.{◌≡◌, ◌<◌, ◌↔◌, ℕ, IsTrue, Some, length, slice_get, true};
ghost use Rattle.crew_sweep.specs.crew_carry.Twins.{AreTwins};
ghost use Rattle.crew_solve.specs.Machinery.Planned.{AreAlike, IsLaidOut};

use crew_flights::Code;
use crew_net::Net;
use crew_sweep::crew_carry::Twins;

// Whether two lists of bases are one.
fn are_same_bases(one: &[Code], other: &[Code]) -> bool
    ensures { IsTrue result ↔ (one.now ≡ other.now) }
{
    one == other
}

// Whether two lists of places are one.
fn are_same_places(one: &[u32], other: &[u32]) -> bool
    ensures { IsTrue result ↔ (one.now ≡ other.now) }
{
    one == other
}

// Whether each arrival of the new network has its twin in the old one.
fn have_twins(net: &Net, twins: &Twins) -> bool
    requires { length twins.now.arrivals ≡ length net.now.arrivals }
    ensures { result ≡ true → (place : ℕ) → place < length net.now.arrivals
        → (twin : ℕ) × (slice_get twins.now.arrivals place ≡ Some (Some twin)) }
{
    for place in 0..net.arrivals().len() {
        let Some(_twin) = twins.arrival(place) else {
            return false;
        };
    }
    true
}

// How many duties, departures and arrivals a network has together.
fn size_of(net: &Net) -> usize
    ensures { IsLaidOut net.now }
{
    net.duty_count() + net.departures().len() + net.arrivals().len()
}

// Whether two networks have the same bases, as many duties, and departures in the same order.
fn are_alike(old: &Net, net: &Net) -> bool
    ensures { result ≡ true → AreAlike old.now net.now }
{
    old.duty_count() == net.duty_count()
        && are_same_bases(old.bases(), net.bases())
        && are_same_places(old.by_report(), net.by_report())
}

/// Whether two networks under the same settings are one, given what they have alike.
pub(crate) fn are_one(old: &Net, net: &Net, twins: &Twins) -> bool
    requires settings { old.now.settings ≡ net.now.settings }
    requires twins { AreTwins old.now net.now twins.now }
    ensures { result ≡ true → old.now ≡ net.now }
{
    if size_of(old) != size_of(net) || !are_alike(old, net) {
        return false;
    }
    have_twins(net, twins)
}
