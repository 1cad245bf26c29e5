//! Texts that go out as far as a writer takes them.

ghost use Rattle.std.specs.Prelude.{OnOk};
ghost use Rattle.std.specs.Io.KnownBytes.{Appends};
ghost use Rattle.crew_session.specs.Texts.{AppendsBeginning};

use std::io::{self, Write};

/// Writes a text, as far as the writer takes it. A write that takes nothing has failed, and so has
/// one that was interrupted.
pub fn write_text<W: Write>(writer: &mut W, text: &[u8]) -> io::Result<()>
    ensures whole { OnOk result (Appends (W.contents writer.old) (W.contents writer.new) text.now) }
    ensures beginning { AppendsBeginning (W.contents writer.old) (W.contents writer.new) text.now }
{
    let mut rest = text;
    while !rest.is_empty() {
        match writer.write(rest)? {
            0 => return Err(io::Error::from(io::ErrorKind::WriteZero)),
            taken => rest = &rest[taken..],
        }
    }
    Ok(())
}
