//! Whether two settings are one.
ghost use Rattle.std.specs.Prelude.{◌≡◌, ◌↔◌, IsTrue};

use crew_rules::Settings;

/// Whether two settings are equal.
pub(crate) fn are_same_settings(one: &Settings, other: &Settings) -> bool
    ensures { IsTrue result ↔ (one.now ≡ other.now) }
{
    one == other
}
