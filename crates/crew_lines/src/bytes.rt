//! What stands before a byte.

ghost use Rattle.std.specs.Prelude.{◌≡◌, ◌≤◌, length};
ghost use Rattle.crew_lines.specs.Bytes.{before};

use memchr::memchr;

/// How many bytes stand before the first one that is this; all where there is none.
pub(crate) fn count_before(byte: u8, bytes: &[u8]) -> usize
    ensures value { result ≡ length (before byte bytes.now) }
    ensures bound { result ≤ length bytes.now }
{
    match memchr(byte, bytes) {
        Some(place) => place,
        None => bytes.len(),
    }
}
