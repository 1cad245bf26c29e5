//! How an answer is laid out.

ghost use Rattle.std.specs.Prelude.{◌≡◌, ◌++◌, [], IfOk, OnOk, length};
ghost use Rattle.std.specs.List.{flat_map};
ghost use Rattle.crew_serve.specs.Answers.{answer_text, head_line, lines_of, named_line};
ghost use Rattle.crew_session.specs.Lines.{refused_line};
ghost use Rattle.crew_serve.specs.Machinery.Layouts.{name_at};

use std::alloc::{AllocError, Global};
use std::io::Write;

// Room for the answer of one refusal, so that one can be told where there is no more memory.
const ROOM: usize = 256;

// Room that a text may keep for the next one.
const KEPT: usize = 65_536;

// What a client's name takes at most in a line, with the space after it.
const NAMED: usize = 33;

/// An empty text with room for a refusal.
pub(crate) fn page(alloc: Global) -> Result<Vec<u8>, AllocError>
    ensures { IfOk result (λ text. text.items ≡ []) }
{
    Vec::with_capacity(alloc, ROOM)
}

/// Empties a text, which keeps room for a refusal, and no more than it may where there is memory for a
/// smaller one.
pub(crate) fn empty(alloc: Global, text: &mut Vec<u8>)
    ensures { text.new.items ≡ [] }
{
    text.clear();
    if text.capacity() > KEPT {
        if let Ok(small) = page(alloc) {
            *text = small;
        }
    }
}

/// Appends the line of a refusal. It takes no memory where there is room.
pub(crate) fn put_refused(text: &mut Vec<u8>, number: u32, why: u8) -> Result<(), AllocError>
    ensures { OnOk result (text.new.items ≡ text.old.items ++ refused_line number why) }
{
    write!(text, "record {number} refused {why}\n").map_err(|_| AllocError)
}

// How many lines a text has.
fn count_lines(text: &[u8]) -> usize
    ensures { result ≡ length (lines_of text.now) }
{
    let mut count = 0;
    let mut starts = true;
    for byte in text {
        count += usize::from(starts);
        starts = *byte == b'\n';
    }
    count
}

/// Makes room for the answer of a text, so that it can be appended where there is no more memory.
pub(crate) fn make_room(out: &mut Vec<u8>, text: &[u8]) -> Result<(), AllocError>
    ensures { out.new.items ≡ out.old.items }
{
    let names = count_lines(text).saturating_mul(NAMED);
    out.reserve(text.len().saturating_add(names).saturating_add(ROOM))
}

// Appends the first line of an answer.
fn put_head(out: &mut Vec<u8>, name: &[u8], version: u64, count: usize) -> Result<(), AllocError>
    ensures { OnOk result (out.new.items ≡ out.old.items ++ head_line name.now version count) }
{
    out.extend_from_slice(name)?;
    write!(out, " at {version} lines {count}\n").map_err(|_| AllocError)
}

// Appends a client's name, where a line begins there.
fn put_name(out: &mut Vec<u8>, name: &[u8], starts: bool) -> Result<(), AllocError>
    ensures { OnOk result (out.new.items ≡ out.old.items ++ name_at starts name.now) }
{
    if starts {
        out.extend_from_slice(name)?;
        out.push(b' ')?;
    }
    Ok(())
}

// Appends the lines of a text, each after a client's name.
fn put_lines(out: &mut Vec<u8>, name: &[u8], text: &[u8]) -> Result<(), AllocError>
    ensures { OnOk result (out.new.items
        ≡ out.old.items ++ flat_map (named_line name.now) (lines_of text.now)) }
{
    let mut starts = true;
    for byte in text {
        put_name(out, name, starts)?;
        out.push(*byte)?;
        starts = *byte == b'\n';
    }
    Ok(())
}

/// Appends the answer to a client, by the version that it is from and the text that is told; where
/// nothing is told there is none.
pub(crate) fn put_answer(
    out: &mut Vec<u8>,
    name: &[u8],
    version: u64,
    text: &[u8],
) -> Result<(), AllocError>
    ensures { OnOk result (out.new.items
        ≡ out.old.items ++ answer_text name.now version text.now) }
{
    if text.is_empty() {
        return Ok(());
    }
    put_head(out, name, version, count_lines(text))?;
    put_lines(out, name, text)
}
