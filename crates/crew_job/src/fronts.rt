//! Whether two lent fronts are one.
ghost use Rattle.std.specs.Prelude.{◌≡◌, ◌↔◌, IsTrue};

use crew_version::crew_fronts::FrontView;

/// Whether two fronts have the same entries: each vector with its walk. It takes no memory.
pub(crate) fn is_same_front(one: &FrontView<'_>, other: &FrontView<'_>) -> bool
    ensures { IsTrue result ↔ (one.now ≡ other.now) }
{
    one.is_same(other)
}
