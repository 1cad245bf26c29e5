//! The search for the end of a line.

ghost use Rattle.std.specs.Prelude.{◌≡◌, ◌≤◌, ◌<◌, ◌++◌, [], IfNone, IfOk, IfSome, List, OnErr, OnOk, drop, false, length, true, ℕ};
ghost use Rattle.std.specs.Io.BufRead.{drop_through};
ghost use Rattle.std.specs.Io.KnownBytes.{IsAtEnd, Keeps};
ghost use Rattle.crew_lines.specs.Bytes.{before};
ghost use Rattle.crew_lines.specs.Finding.{FindsIn, IsFound, IsWithin};
ghost use Rattle.crew_lines.specs.Known.{Passes, PassesWithin, ahead};

use crate::bytes::count_before;
use crate::fault::ReadFault;
use crate::held::Held;
use std::io::Read;

// The most bytes of a line.
const MOST: usize = 65_536;

// How many bytes are shown of a line that has more: enough for a NAME and the comma after it.
const BEGINNING: usize = 33;

/// What was found at the front of the bytes held.
#[derive(Clone, Copy, Debug)]
pub struct Found {
    /// How many bytes are shown.
    pub shown: usize,
    /// How many are passed with them; none where nothing was found.
    pub passed: usize,
    /// Whether they are of a line that is too long, whose end lies further on.
    pub is_long: bool,
}

impl Found {
    /// Nothing yet.
    pub(crate) const NOTHING: Found = Found {
        shown: 0,
        passed: 0,
        is_long: false,
    };
}

// Passes what is held of a line that is too long, and says whether that was all of it.
fn pass_held(held: &mut Held) -> bool
    ensures ended { result ≡ true → (xs : List ℕ)
        → held.new ++ xs ≡ drop_through 10 (held.old ++ xs) }
    ensures goes_on { result ≡ false → (xs : List ℕ)
        → drop_through 10 xs ≡ drop_through 10 (held.old ++ xs) }
    ensures none { result ≡ false → held.new ≡ [] }
{
    let end = count_before(b'\n', held.as_slice());
    if end < held.count() {
        held.pass(end + 1);
        true
    } else {
        held.pass(end);
        false
    }
}

/// Passes the rest of a line that is too long. Where the reader fails it may have passed some of it.
pub(crate) fn pass_line<R: Read>(held: &mut Held, reader: &mut R) -> Result<(), ReadFault>
    ensures all { OnOk result (Passes (ahead R.remaining held.old reader.old)
        (ahead R.remaining held.new reader.new)) }
    ensures some { OnErr result (PassesWithin (ahead R.remaining held.old reader.old)
        (ahead R.remaining held.new reader.new)) }
{
    for _ in 0..u64::MAX {
        if pass_held(held) {
            return Ok(());
        }
        if held.fill(reader)? == 0 {
            return Ok(());
        }
    }
    Err(ReadFault)
}

// The line at the front of these bytes, as far as they tell.
fn find_in(bytes: &[u8]) -> Option<Found>
    ensures found { IfSome result (λ found. (xs : List ℕ)
        → IsFound bytes.now (bytes.now ++ xs) found) }
    ensures within { IfSome result (IsWithin bytes.now) }
    ensures some { IfSome result (λ found. 0 < found.passed) }
    ensures none { IfNone result (length (before 10 bytes.now) ≡ length bytes.now) }
    ensures short { IfNone result (length bytes.now ≤ 65_536) }
{
    let end = count_before(b'\n', bytes);
    if end > MOST {
        Some(Found {
            shown: BEGINNING,
            passed: MOST + 1,
            is_long: true,
        })
    } else if end < bytes.len() {
        Some(Found {
            shown: end,
            passed: end + 1,
            is_long: false,
        })
    } else {
        None
    }
}

/// The line at the front, which is there to its end, to more bytes than one may have, or to the end of
/// the input. Where the reader fails nothing is lost.
pub(crate) fn find_line<R: Read>(held: &mut Held, reader: &mut R) -> Result<Found, ReadFault>
    ensures kept { Keeps (ahead R.remaining held.old reader.old)
        (ahead R.remaining held.new reader.new) }
    ensures found { IfOk result (λ found. 0 < found.passed
        → FindsIn held.new (ahead R.remaining held.new reader.new) found) }
    ensures end { IfOk result (λ found. found.passed ≡ 0
        → IsAtEnd (ahead R.remaining held.new reader.new)) }
    ensures within { IfOk result (IsWithin held.new) }
{
    for _ in 0..u64::MAX {
        if let Some(found) = find_in(held.as_slice()) {
            return Ok(found);
        }
        if held.fill(reader)? == 0 {
            let count = held.count();
            return Ok(Found {
                shown: count,
                passed: count,
                is_long: false,
            });
        }
    }
    Err(ReadFault)
}
