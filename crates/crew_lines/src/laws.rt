//! What is shown of a line that is too long tells its name.

ghost use Rattle.crew_lines.specs.Names.{BeginningsShowNames};

/// The first 33 bytes of a line, which are shown where it is too long, have the NAME of the whole one,
/// or none as it has none.
pub fn beginnings_show_names()
    ensures { BeginningsShowNames }
{}
