//! The answer to a record of pairings, and to one of the best pairing of a base.

ghost use Rattle.std.specs.Prelude.{◌≡◌, ◌++◌, List, ℕ, IfErr, IfOk, OnErr, OnOk, codes, decimal, length};
ghost use Rattle.std.specs.Io.KnownBytes.{Appends};
ghost use Rattle.std.specs.List.{flat_map};
ghost use Rattle.crew_session.specs.Faults.{IsLineFault};
ghost use Rattle.crew_session.specs.Lines as Spec;
ghost use Rattle.crew_session.specs.Texts.{AppendsBeginning, BeginsOne};
ghost use Rattle.crew_session.specs.Pairings.{ShowsApart, ShowsApartOf, ShowsBestOf, ShowsCheapest, ShowsCheapestOf};

use crate::fault::SessionFault;
use crate::lines::{pairing_line, put_number, write_best_line, write_line};
use crew_flights::Code;
use crew_vector::PricedPairing;
use crew_version::Version;
use std::alloc::{AllocError, Global};
use std::io::Write;

// The line before the pairings.
fn count_line(alloc: Global, pairings: &[PricedPairing]) -> Result<Vec<u8>, AllocError>
    ensures { IfOk result (λ line. line.items
        ≡ codes "pairings " ++ decimal (length pairings.now) ++ codes "\n") }
{
    let mut line = Vec::new(alloc);
    line.extend_from_slice(b"pairings ")?;
    put_number(&mut line, pairings.len())?;
    line.push(b'\n')?;
    Ok(line)
}

// Writes a line for each pairing.
fn write_each<W: Write>(
    alloc: Global,
    writer: &mut W,
    pairings: &[PricedPairing],
) -> Result<(), SessionFault>
    ensures written { OnOk result (Appends (W.contents writer.old) (W.contents writer.new)
        (flat_map (Spec.pairing_line (codes "pairing")) pairings.now)) }
    ensures begun { OnErr result
        (AppendsBeginning (W.contents writer.old) (W.contents writer.new)
        (flat_map (Spec.pairing_line (codes "pairing")) pairings.now)) }
    ensures fault { IfErr result IsLineFault }
{
    for pairing in pairings {
        write_line(writer, &pairing_line(alloc, b"pairing", pairing)?)?;
    }
    Ok(())
}

// Writes how many pairings there are, and a line for each.
fn write_pairings<W: Write>(
    alloc: Global,
    writer: &mut W,
    pairings: &[PricedPairing],
) -> Result<(), SessionFault>
    ensures written { OnOk result (Appends (W.contents writer.old) (W.contents writer.new)
        (Spec.pairings_lines pairings.now)) }
    ensures begun { OnErr result
        (AppendsBeginning (W.contents writer.old) (W.contents writer.new)
        (Spec.pairings_lines pairings.now)) }
    ensures fault { IfErr result IsLineFault }
{
    write_line(writer, &count_line(alloc, pairings)?)?;
    write_each(alloc, writer, pairings)
}

/// Writes the cheapest pairings of a version, up to a limit.
pub(crate) fn answer_cheapest<W: Write>(
    alloc: Global,
    writer: &mut W,
    limit: u32,
    version: &Version,
) -> Result<(), SessionFault>
    ensures answered { OnOk result ((text : List ℕ)
        × Appends (W.contents writer.old) (W.contents writer.new) text
        × ShowsCheapest limit version.now text) }
    ensures begun { OnErr result (BeginsOne (W.contents writer.old) (W.contents writer.new)
        (ShowsCheapest limit version.now)) }
    ensures fault { IfErr result IsLineFault }
{
    let pairings = version.cheapest(alloc, limit as usize)?;
    write_pairings(alloc, writer, &pairings)
}

/// Writes the pairings of a version that share few flights, up to a limit.
pub(crate) fn answer_apart<W: Write>(
    alloc: Global,
    writer: &mut W,
    limit: u32,
    share: u32,
    version: &Version,
) -> Result<(), SessionFault>
    ensures answered { OnOk result ((text : List ℕ)
        × Appends (W.contents writer.old) (W.contents writer.new) text
        × ShowsApart limit share version.now text) }
    ensures begun { OnErr result (BeginsOne (W.contents writer.old) (W.contents writer.new)
        (ShowsApart limit share version.now)) }
    ensures fault { IfErr result IsLineFault }
{
    let pairings = version.apart(alloc, limit as usize, share)?;
    write_pairings(alloc, writer, &pairings)
}

/// Writes the best pairing of a base in a version, if there is one.
pub(crate) fn answer_best_of<W: Write>(
    alloc: Global,
    writer: &mut W,
    base: Code,
    version: &Version,
) -> Result<(), SessionFault>
    ensures answered { OnOk result ((text : List ℕ)
        × Appends (W.contents writer.old) (W.contents writer.new) text
        × ShowsBestOf base version.now text) }
    ensures begun { OnErr result (BeginsOne (W.contents writer.old) (W.contents writer.new)
        (ShowsBestOf base version.now)) }
    ensures fault { IfErr result IsLineFault }
{
    let best = version.best_of(alloc, base)?;
    write_best_line(alloc, writer, best.as_ref())
}

/// Writes the cheapest pairings of a base in a version, up to a limit.
pub(crate) fn answer_cheapest_of<W: Write>(
    alloc: Global,
    writer: &mut W,
    base: Code,
    limit: u32,
    version: &Version,
) -> Result<(), SessionFault>
    ensures answered { OnOk result ((text : List ℕ)
        × Appends (W.contents writer.old) (W.contents writer.new) text
        × ShowsCheapestOf base limit version.now text) }
    ensures begun { OnErr result (BeginsOne (W.contents writer.old) (W.contents writer.new)
        (ShowsCheapestOf base limit version.now)) }
    ensures fault { IfErr result IsLineFault }
{
    let pairings = version.cheapest_of(alloc, base, limit as usize)?;
    write_pairings(alloc, writer, &pairings)
}

/// Writes the pairings of a base in a version that share few flights, up to a limit.
pub(crate) fn answer_apart_of<W: Write>(
    alloc: Global,
    writer: &mut W,
    base: Code,
    limit: u32,
    share: u32,
    version: &Version,
) -> Result<(), SessionFault>
    ensures answered { OnOk result ((text : List ℕ)
        × Appends (W.contents writer.old) (W.contents writer.new) text
        × ShowsApartOf base limit share version.now text) }
    ensures begun { OnErr result (BeginsOne (W.contents writer.old) (W.contents writer.new)
        (ShowsApartOf base limit share version.now)) }
    ensures fault { IfErr result IsLineFault }
{
    let pairings = version.apart_of(alloc, base, limit as usize, share)?;
    write_pairings(alloc, writer, &pairings)
}
