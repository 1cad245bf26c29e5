//! The parts of a line.

ghost use Rattle.std.specs.Prelude.{◌≡◌, option_map};
ghost use Rattle.crew_lines.specs.Names.{parts_of, split_at_comma};

use crate::bytes::count_before;
use crate::name::Name;

/// The NAME and the RECORD of a line, if it has a comma and what stands before the first one is a
/// name.
pub fn split(line: &[u8]) -> Option<(Name, &[u8])>
    ensures { option_map parts_of result ≡ split_at_comma line.now }
{
    let end = count_before(b',', line);
    if end == line.len() {
        return None;
    }
    let name = Name::read(&line[..end])?;
    Some((name, &line[end + 1..]))
}
