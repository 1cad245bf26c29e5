//! Laws over the definitions alone.
ghost use Rattle.std.specs.Prelude.{◌≡◌, ◌<◌, ◌≤◌, ◌≤ℤ◌, ℕ, List, Option, Some, count_by, length, slice_get, take};
ghost use Rattle.crew_fronts.specs.crew_answers.Bests.{IsBest, IsPairing};
ghost use Rattle.crew_flights.specs.Timetable.{IsSound, Timetable};
ghost use Rattle.crew_pairing.specs.Pairings.{last_duty};
ghost use Rattle.crew_rules.specs.Settings.{IsChecked};
ghost use Rattle.crew_rules.specs.declared.settings.Settings.{Settings};
ghost use Rattle.crew_plan.specs.Apart.{AreApart, AreApartOf, flies};
ghost use Rattle.crew_plan.specs.Cheapest.{AreCheapest, AreCheapestOf, IsBestOf, IsShown};
ghost use Rattle.crew_fronts.specs.crew_solve.crew_vector.declared.priced.PricedPairing.{PricedPairing};

/// There is one list of the columns of least reduced cost, whatever the limit.
pub fn cheapest_are_unique()
    ensures { (s : Settings) (t : Timetable) (limit : ℕ) (a b : List PricedPairing)
        → AreCheapest s t limit a → AreCheapest s t limit b → a ≡ b }
{}

/// The first of the columns of least cost is the best, and there is none exactly where there is no best.
pub fn first_of_the_cheapest_is_the_best()
    ensures { (s : Settings) (t : Timetable) (limit : ℕ) (pairings : List PricedPairing)
        (best : Option PricedPairing) → IsChecked s → IsSound t → 0 < limit
        → AreCheapest s t limit pairings → IsBest s t best → best ≡ slice_get pairings 0 }
{}

/// Each legal pairing, also one off the Pareto fronts, has one that they show with the same base
/// and the same last duty that costs no more.
pub fn fronts_show_one_that_costs_no_more()
    ensures { (s : Settings) (t : Timetable) (p : PricedPairing) → IsChecked s → IsSound t
        → (legal : IsPairing s t p) → (q : PricedPairing) × (shown : IsShown s t q)
        × (q.base ≡ p.base) × (last_duty shown.pairing.first shown.pairing.others
        ≡ last_duty legal.first legal.others) × (q.cost ≤ℤ p.cost) }
{}

/// There is one list of diverse columns (they share few flights), whatever the limit and the share.
pub fn apart_are_unique()
    ensures { (s : Settings) (t : Timetable) (limit share : ℕ) (a b : List PricedPairing)
        → AreApart s t limit share a → AreApart s t limit share b → a ≡ b }
{}

/// Of diverse columns those up to a limit are the first of those up to a greater one.
pub fn apart_begin_those_up_to_more()
    ensures { (s : Settings) (t : Timetable) (limit more share : ℕ) (a b : List PricedPairing)
        → limit ≤ more → AreApart s t limit share a → AreApart s t more share b → a ≡ take limit b }
{}

/// Where as many may fly a flight as there are columns of least cost, the diverse columns are these.
pub fn apart_with_room_are_the_cheapest()
    ensures { (s : Settings) (t : Timetable) (limit share : ℕ) (a b : List PricedPairing)
        → AreApart s t limit share a → AreCheapest s t limit b → length b ≤ share → a ≡ b }
{}

/// Of diverse columns no more than the share fly a flight.
pub fn apart_fly_no_flight_more_often()
    ensures { (s : Settings) (t : Timetable) (limit share flight : ℕ) (pairings : List PricedPairing)
        → AreApart s t limit share pairings → count_by (flies flight) pairings ≤ share }
{}

/// There is one list of the columns of least reduced cost of a base, whatever the limit.
pub fn cheapest_of_a_base_are_unique()
    ensures { (s : Settings) (t : Timetable) (base : List ℕ) (limit : ℕ) (a b : List PricedPairing)
        → AreCheapestOf s t base limit a → AreCheapestOf s t base limit b → a ≡ b }
{}

/// A base has one best pairing, or none.
pub fn best_of_a_base_is_unique()
    ensures { (s : Settings) (t : Timetable) (base : List ℕ) (a b : Option PricedPairing) → IsSound t
        → IsBestOf s t base a → IsBestOf s t base b → a ≡ b }
{}

/// The first of the columns of least cost of a base is its best, and there is none exactly where it
/// has no best.
pub fn first_of_the_cheapest_of_a_base_is_its_best()
    ensures { (s : Settings) (t : Timetable) (base : List ℕ) (limit : ℕ)
        (pairings : List PricedPairing) (best : Option PricedPairing) → IsSound t → 0 < limit
        → AreCheapestOf s t base limit pairings → IsBestOf s t base best
        → best ≡ slice_get pairings 0 }
{}

/// The best of all bases is the best of its own.
pub fn best_is_that_of_its_base()
    ensures { (s : Settings) (t : Timetable) (best : PricedPairing) → IsChecked s → IsSound t
        → IsBest s t (Some best) → IsBestOf s t best.base (Some best) }
{}

/// There is one list of diverse columns of a base, whatever the limit and the share.
pub fn apart_of_a_base_are_unique()
    ensures { (s : Settings) (t : Timetable) (base : List ℕ) (limit share : ℕ)
        (a b : List PricedPairing) → AreApartOf s t base limit share a
        → AreApartOf s t base limit share b → a ≡ b }
{}

/// Of diverse columns of a base no more than the share fly a flight.
pub fn apart_of_a_base_fly_no_flight_more_often()
    ensures { (s : Settings) (t : Timetable) (base : List ℕ) (limit share flight : ℕ)
        (pairings : List PricedPairing) → AreApartOf s t base limit share pairings
        → count_by (flies flight) pairings ≤ share }
{}
