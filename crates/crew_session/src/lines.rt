//! The lines that a session writes.
//!
//! A line goes out by `write`, and not by `write_all`, whose contract says nothing of what was
//! written where it fails.

ghost use Rattle.std.specs.Prelude.{◌≡◌, ◌++◌, ◌+◌, ◌≤◌, IfErr, IfOk, OnErr, OnOk, Some, decimal, drop, length, string_bytes};
ghost use Rattle.std.specs.Fmt.{signed_decimal};
ghost use Rattle.std.specs.Io.KnownBytes.{Appends};
ghost use Rattle.std.specs.Option.{option_copied};
ghost use Rattle.crew_session.specs.Faults.{IsLineFault};
ghost use Rattle.crew_session.specs.Lines as Spec;
ghost use Rattle.crew_session.specs.Texts.{AppendsBeginning};
ghost use Rattle.crew_session.specs.Verdicts.{verdict_text};
ghost use Rattle.crew_version.specs.Versions.{verdicts_of};

use crate::fault::SessionFault;
use crate::text::write_text;
use crew_audit::Tally;
use crew_flights::Verdict;
use crew_pairing::{Key, Leg, Walk};
use crew_vector::PricedPairing;
use crew_version::Version;
use std::alloc::{AllocError, Global};
use std::io::Write;

// Writes a whole line, at once.
pub(crate) fn write_line<W: Write>(writer: &mut W, line: &[u8]) -> Result<(), SessionFault>
    ensures written { OnOk result
        (Appends (W.contents writer.old) (W.contents writer.new) line.now) }
    ensures begun { OnErr result
        (AppendsBeginning (W.contents writer.old) (W.contents writer.new)
        line.now) }
    ensures fault { IfErr result (λ why. why ≡ SessionFault.Write) }
{
    write_text(writer, line).map_err(|_| SessionFault::Write)
}

// Appends a number.
pub(crate) fn put_number(line: &mut Vec<u8>, number: usize) -> Result<(), AllocError>
    ensures { OnOk result (line.new.items ≡ line.old.items ++ decimal number) }
{
    write!(line, "{number}").map_err(|_| AllocError)
}

// Appends a leg.
fn put_leg(line: &mut Vec<u8>, leg: Leg) -> Result<(), AllocError>
    ensures { OnOk result (line.new.items ≡ line.old.items ++ Spec.leg_text leg) }
{
    put_number(line, leg.flight().get() as usize)?;
    if leg.is_deadhead() {
        line.push(b'd')?;
    }
    Ok(())
}

// Appends a duty.
pub(crate) fn put_key(line: &mut Vec<u8>, key: &Key) -> Result<(), AllocError>
    ensures { OnOk result (line.new.items ≡ line.old.items ++ Spec.key_text key.now) }
{
    let Some((first, others)) = key.legs().split_first() else {
        return Ok(());
    };
    put_leg(line, *first)?;
    for leg in others {
        line.push(b'-')?;
        put_leg(line, *leg)?;
    }
    Ok(())
}

// Appends a walk.
pub(crate) fn put_walk(line: &mut Vec<u8>, walk: &Walk) -> Result<(), AllocError>
    ensures { OnOk result (line.new.items ≡ line.old.items ++ Spec.walk_text walk.now) }
{
    let Some((first, others)) = walk.keys().split_first() else {
        return Ok(());
    };
    put_key(line, first)?;
    for key in others {
        line.push(b' ')?;
        put_key(line, key)?;
    }
    Ok(())
}

// Appends a signed number.
pub(crate) fn put_signed(line: &mut Vec<u8>, number: i64) -> Result<(), AllocError>
    ensures { OnOk result (line.new.items ≡ line.old.items ++ signed_decimal number) }
{
    write!(line, "{number}").map_err(|_| AllocError)
}

// The line of a pairing, after a word.
pub(crate) fn pairing_line(
    alloc: Global,
    word: &[u8],
    pairing: &PricedPairing,
) -> Result<Vec<u8>, AllocError>
    ensures { IfOk result (λ line. line.items ≡ Spec.pairing_line word.now pairing.now) }
{
    let mut line = Vec::new(alloc);
    line.extend_from_slice(word)?;
    line.push(b' ')?;
    line.extend_from_slice(&pairing.base.get())?;
    line.extend_from_slice(b" cost ")?;
    put_signed(&mut line, pairing.cost)?;
    line.extend_from_slice(b" pay ")?;
    put_signed(&mut line, pairing.pay)?;
    line.extend_from_slice(b" away ")?;
    put_signed(&mut line, pairing.away)?;
    line.push(b' ')?;
    put_walk(&mut line, &pairing.walk)?;
    line.push(b'\n')?;
    Ok(line)
}

// The line of a refused record.
fn refused_line(alloc: Global, number: u32, why: u8) -> Result<String, AllocError>
    ensures { IfOk result (λ line. string_bytes line ≡ Spec.refused_line number why) }
{
    let line = format!(in alloc; "record {number} refused {why}\n")?;
    Ok(line)
}

/// Writes that a record is refused, by its number. `Write` where the writer fails, or `Memory`; what was
/// written is then a beginning of the line.
pub fn write_refused<W: Write>(
    alloc: Global,
    writer: &mut W,
    number: u32,
    why: u8,
) -> Result<(), SessionFault>
    ensures written { OnOk result (Appends (W.contents writer.old) (W.contents writer.new)
        (Spec.refused_line number why)) }
    ensures begun { OnErr result
        (AppendsBeginning (W.contents writer.old) (W.contents writer.new)
        (Spec.refused_line number why)) }
    ensures fault { IfErr result IsLineFault }
{
    let line = refused_line(alloc, number, why)?;
    write_line(writer, line.as_bytes())
}

/// Writes what a verdict on the entry that a record made writes: a line where it is a refusal.
/// `Write` where the writer fails, or `Memory`; what was written is then a beginning of the line.
pub fn write_verdict<W: Write>(
    alloc: Global,
    writer: &mut W,
    number: u32,
    verdict: Option<Verdict>,
) -> Result<(), SessionFault>
    ensures written { OnOk result (Appends (W.contents writer.old) (W.contents writer.new)
        (verdict_text number verdict)) }
    ensures begun { OnErr result
        (AppendsBeginning (W.contents writer.old) (W.contents writer.new)
        (verdict_text number verdict)) }
    ensures fault { IfErr result IsLineFault }
{
    match verdict {
        Some(Verdict::Refused(why)) => write_refused(alloc, writer, number, why.number()),
        _ => Ok(()),
    }
}

// Writes the refusals among the verdicts on the entries from `first` on, which these records made.
pub(crate) fn write_refusals<W: Write>(
    alloc: Global,
    writer: &mut W,
    numbers: &[u32],
    version: &Version,
    first: usize,
) -> Result<(), SessionFault>
    requires { first + length numbers.now ≤ 1_000_000 }
    ensures written { OnOk result (Appends (W.contents writer.old) (W.contents writer.new)
        (Spec.refused_lines numbers.now (drop first (verdicts_of version.now.entries)))) }
    ensures begun { OnErr result
        (AppendsBeginning (W.contents writer.old) (W.contents writer.new)
        (Spec.refused_lines numbers.now (drop first (verdicts_of version.now.entries)))) }
    ensures fault { IfErr result IsLineFault }
{
    for (i, number) in numbers.iter().enumerate() {
        write_verdict(alloc, writer, *number, version.verdict(first + i))?;
    }
    Ok(())
}

// The line of a version: its number and what it has.
fn version_line(alloc: Global, version: &Version) -> Result<String, AllocError>
    ensures { IfOk result (λ line. string_bytes line ≡ Spec.version_line version.now) }
{
    let number = version.number();
    let entries = version.count();
    let flights = version.flights();
    let line = format!(in alloc; "version {number} entries {entries} flights {flights}\n")?;
    Ok(line)
}

/// Writes the number of a version and what it has. `Write` where the writer fails, or `Memory`; what
/// was written is then a beginning of the line.
pub fn write_version<W: Write>(
    alloc: Global,
    writer: &mut W,
    version: &Version,
) -> Result<(), SessionFault>
    ensures written { OnOk result (Appends (W.contents writer.old) (W.contents writer.new)
        (Spec.version_line version.now)) }
    ensures begun { OnErr result
        (AppendsBeginning (W.contents writer.old) (W.contents writer.new)
        (Spec.version_line version.now)) }
    ensures fault { IfErr result IsLineFault }
{
    let line = version_line(alloc, version)?;
    write_line(writer, line.as_bytes())
}

// Writes the line of a best pairing, if there is one.
pub(crate) fn write_best_line<W: Write>(
    alloc: Global,
    writer: &mut W,
    best: Option<&PricedPairing>,
) -> Result<(), SessionFault>
    ensures written { OnOk result (Appends (W.contents writer.old) (W.contents writer.new)
        (Spec.best_line (option_copied best.entry))) }
    ensures begun { OnErr result
        (AppendsBeginning (W.contents writer.old) (W.contents writer.new)
        (Spec.best_line (option_copied best.entry))) }
    ensures fault { IfErr result IsLineFault }
{
    match best {
        None => write_line(writer, b"best none\n"),
        Some(best) => write_line(writer, &pairing_line(alloc, b"best", best)?),
    }
}

// Writes the best pairing of a version, if it has one.
pub(crate) fn write_best<W: Write>(
    alloc: Global,
    writer: &mut W,
    version: &Version,
) -> Result<(), SessionFault>
    ensures written { OnOk result (Appends (W.contents writer.old) (W.contents writer.new)
        (Spec.best_line version.now.best)) }
    ensures begun { OnErr result
        (AppendsBeginning (W.contents writer.old) (W.contents writer.new)
        (Spec.best_line version.now.best)) }
    ensures fault { IfErr result IsLineFault }
{
    write_best_line(alloc, writer, version.best())
}

// Appends the least cost of a pairing, if there is one.
fn put_cost(line: &mut Vec<u8>, cost: Option<i64>) -> Result<(), AllocError>
    ensures { OnOk result (line.new.items ≡ line.old.items ++ Spec.cost_text cost) }
{
    match cost {
        None => line.extend_from_slice(b"none"),
        Some(cost) => put_signed(line, cost),
    }
}

// The line of an audit.
fn counts_line(alloc: Global, tally: &Tally) -> Result<Vec<u8>, AllocError>
    ensures { IfOk result (λ line. line.items ≡ Spec.audit_line tally.now) }
{
    let mut line = Vec::new(alloc);
    line.extend_from_slice(b"audit partials ")?;
    put_number(&mut line, tally.partials)?;
    line.extend_from_slice(b" pairings ")?;
    put_number(&mut line, tally.pairings)?;
    line.extend_from_slice(b" cost ")?;
    put_cost(&mut line, tally.cost)?;
    line.push(b'\n')?;
    Ok(line)
}

// Writes what an audit counted.
pub(crate) fn write_audit<W: Write>(
    alloc: Global,
    writer: &mut W,
    tally: &Tally,
) -> Result<(), SessionFault>
    ensures written { OnOk result (Appends (W.contents writer.old) (W.contents writer.new)
        (Spec.audit_line tally.now)) }
    ensures begun { OnErr result
        (AppendsBeginning (W.contents writer.old) (W.contents writer.new)
        (Spec.audit_line tally.now)) }
    ensures fault { IfErr result IsLineFault }
{
    write_line(writer, &counts_line(alloc, tally)?)
}
