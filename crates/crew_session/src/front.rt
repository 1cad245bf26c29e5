//! The answer to a front.

ghost use Rattle.std.specs.Prelude.{◌≡◌, ◌++◌, List, ℕ, IfErr, IfOk, OnErr, OnOk, Some, codes, decimal, length};
ghost use Rattle.std.specs.Io.KnownBytes.{Appends};
ghost use Rattle.std.specs.List.{flat_map};
ghost use Rattle.crew_session.specs.Faults.{IsLineFault};
ghost use Rattle.crew_session.specs.Fronts.{ShowsFront};
ghost use Rattle.crew_session.specs.Lines as Spec;
ghost use Rattle.crew_session.specs.Texts.{AppendsBeginning, BeginsOne};

use crate::fault::SessionFault;
use crate::lines::{put_key, put_number, put_signed, write_line};
use crew_flights::Code;
use crew_fronts::{FrontView, Vector, WalkView};
use crew_pairing::{Key, PairingVector};
use crew_rules::Settings;
use crew_version::Version;
use std::alloc::{AllocError, Global};
use std::io::Write;

// Appends a part of a vector.
fn put_part(line: &mut Vec<u8>, part: i64) -> Result<(), AllocError>
    ensures { OnOk result (line.new.items ≡ line.old.items ++ Spec.part_text part) }
{
    line.push(b' ')?;
    put_signed(line, part)
}

// Appends the parts of which the cost is the greatest.
fn put_costs(line: &mut Vec<u8>, vector: &PairingVector) -> Result<(), AllocError>
    ensures { OnOk result (line.new.items ≡ line.old.items ++ Spec.costs_text vector.now) }
{
    put_part(line, vector.duty_pay)?;
    put_part(line, vector.trip_rig)?;
    put_part(line, vector.guarantee)
}

// Appends the totals before the minutes away.
fn put_totals(line: &mut Vec<u8>, vector: &PairingVector) -> Result<(), AllocError>
    ensures { OnOk result (line.new.items ≡ line.old.items ++ Spec.totals_text vector.now) }
{
    put_part(line, vector.fdp)?;
    put_part(line, vector.fly)?;
    put_part(line, vector.duties)
}

// Appends the minutes since the last long rest, where the settings allow pairings of more than 138
// hours.
fn put_rest(line: &mut Vec<u8>, settings: &Settings, vector: &Vector) -> Result<(), AllocError>
    ensures { OnOk result (line.new.items
        ≡ line.old.items ++ Spec.rest_text settings.now vector.now) }
{
    if settings.away_cap > 8_280 {
        put_part(line, vector.since_rest())
    } else {
        Ok(())
    }
}

// Appends the parts of a vector that are shown.
fn put_vector(line: &mut Vec<u8>, settings: &Settings, vector: &Vector) -> Result<(), AllocError>
    ensures { OnOk result (line.new.items
        ≡ line.old.items ++ Spec.vector_text settings.now vector.now) }
{
    let sums = vector.sums();
    put_costs(line, sums)?;
    put_totals(line, sums)?;
    put_part(line, sums.away)?;
    put_rest(line, settings, vector)
}

// Appends a walk that a front lends.
fn put_lent_walk(line: &mut Vec<u8>, walk: &WalkView<'_>) -> Result<(), AllocError>
    ensures { OnOk result (line.new.items ≡ line.old.items ++ Spec.walk_text walk.now) }
{
    let Some(first) = walk.key(0) else {
        return Ok(());
    };
    put_key(line, first)?;
    for place in 1..walk.len() {
        let Some(key) = walk.key(place) else {
            unreachable!();
        };
        line.push(b' ')?;
        put_key(line, key)?;
    }
    Ok(())
}

// The line of an entry.
fn entry_line(
    alloc: Global,
    settings: &Settings,
    vector: &Vector,
    walk: &WalkView<'_>,
) -> Result<Vec<u8>, AllocError>
    ensures { IfOk result (λ line. line.items
        ≡ Spec.entry_line settings.now (vector.now, walk.now)) }
{
    let mut line = Vec::new(alloc);
    line.extend_from_slice(b"entry")?;
    put_vector(&mut line, settings, vector)?;
    line.push(b' ')?;
    put_lent_walk(&mut line, walk)?;
    line.push(b'\n')?;
    Ok(line)
}

// Writes a line for each entry.
fn write_entries<W: Write>(
    alloc: Global,
    writer: &mut W,
    settings: &Settings,
    front: &FrontView<'_>,
) -> Result<(), SessionFault>
    ensures written { OnOk result (Appends (W.contents writer.old) (W.contents writer.new)
        (flat_map (Spec.entry_line settings.now) front.now)) }
    ensures begun { OnErr result
        (AppendsBeginning (W.contents writer.old) (W.contents writer.new)
        (flat_map (Spec.entry_line settings.now) front.now)) }
    ensures fault { IfErr result IsLineFault }
{
    for (vector, walk) in front.iter() {
        write_line(writer, &entry_line(alloc, settings, &vector, &walk)?)?;
    }
    Ok(())
}

// The base and the duty.
fn node_text(alloc: Global, base: Code, key: &Key) -> Result<Vec<u8>, AllocError>
    ensures { IfOk result (λ line. line.items
        ≡ codes "front " ++ base ++ codes " " ++ Spec.key_text key.now) }
{
    let mut line = Vec::new(alloc);
    line.extend_from_slice(b"front ")?;
    line.extend_from_slice(&base.get())?;
    line.push(b' ')?;
    put_key(&mut line, key)?;
    Ok(line)
}

// The line where there is no front.
fn none_line(alloc: Global, base: Code, key: &Key) -> Result<Vec<u8>, AllocError>
    ensures { IfOk result (λ line. line.items ≡ Spec.no_front_line base key.now) }
{
    let mut line = node_text(alloc, base, key)?;
    line.extend_from_slice(b" none\n")?;
    Ok(line)
}

// The line before the entries.
fn count_line(
    alloc: Global,
    base: Code,
    key: &Key,
    front: &FrontView<'_>,
) -> Result<Vec<u8>, AllocError>
    ensures { IfOk result (λ line. line.items
        ≡ codes "front " ++ base ++ codes " " ++ Spec.key_text key.now
        ++ codes " entries " ++ decimal (length front.now) ++ codes "\n") }
{
    let mut line = node_text(alloc, base, key)?;
    line.extend_from_slice(b" entries ")?;
    put_number(&mut line, front.len())?;
    line.push(b'\n')?;
    Ok(line)
}

// Writes how many entries a front has, and a line for each.
fn write_listed<W: Write>(
    alloc: Global,
    writer: &mut W,
    settings: &Settings,
    base: Code,
    key: &Key,
    front: &FrontView<'_>,
) -> Result<(), SessionFault>
    ensures written { OnOk result (Appends (W.contents writer.old) (W.contents writer.new)
        (Spec.front_lines settings.now base key.now (Some front.now))) }
    ensures begun { OnErr result (AppendsBeginning (W.contents writer.old) (W.contents writer.new)
        (Spec.front_lines settings.now base key.now (Some front.now))) }
    ensures fault { IfErr result IsLineFault }
{
    write_line(writer, &count_line(alloc, base, key, front)?)?;
    write_entries(alloc, writer, settings, front)
}

// Writes a front, or that there is none.
fn write_front<W: Write>(
    alloc: Global,
    writer: &mut W,
    settings: &Settings,
    base: Code,
    key: &Key,
    front: Option<FrontView<'_>>,
) -> Result<(), SessionFault>
    ensures written { OnOk result (Appends (W.contents writer.old) (W.contents writer.new)
        (Spec.front_lines settings.now base key.now front.entry)) }
    ensures begun { OnErr result
        (AppendsBeginning (W.contents writer.old) (W.contents writer.new)
        (Spec.front_lines settings.now base key.now front.entry)) }
    ensures fault { IfErr result IsLineFault }
{
    match front {
        None => write_line(writer, &none_line(alloc, base, key)?),
        Some(front) => write_listed(alloc, writer, settings, base, key, &front),
    }
}

/// Writes the front of a base and the duty of a key in a version.
pub(crate) fn answer_front<W: Write>(
    alloc: Global,
    writer: &mut W,
    base: Code,
    key: &Key,
    version: &Version,
) -> Result<(), SessionFault>
    ensures answered { OnOk result ((text : List ℕ)
        × Appends (W.contents writer.old) (W.contents writer.new) text
        × ShowsFront base key.now version.now text) }
    ensures begun { OnErr result (BeginsOne (W.contents writer.old) (W.contents writer.new)
        (ShowsFront base key.now version.now)) }
    ensures fault { IfErr result IsLineFault }
{
    let front = version.front(base, key);
    write_front(alloc, writer, version.settings(), base, key, front)
}
