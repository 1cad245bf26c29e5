//! Which pass makes the fronts.
ghost use Rattle.std.specs.Prelude.{◌≡◌};
ghost use Rattle.crew_fronts.specs.Fronts as Spec;

use crew_rules::Settings;

/// Whether the seven sums tell all that has to be known of a list of duties: no pairing of the
/// settings has more than 138 hours.
pub fn is_plain(settings: &Settings) -> bool
    ensures { result ≡ Spec.is_plain settings.now }
{
    !(settings.away_cap > 8_280)
}
