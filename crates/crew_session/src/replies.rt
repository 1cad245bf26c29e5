//! The lines of a schedule's replies.

ghost use Rattle.std.specs.Prelude.{◌≡◌, ◌++◌, IfErr, IfOk, OnErr, OnOk, codes, drop};
ghost use Rattle.std.specs.Io.KnownBytes.{Appends};
ghost use Rattle.crew_session.specs.Faults.{IsLineFault};
ghost use Rattle.crew_session.specs.Lines as Line;
ghost use Rattle.crew_session.specs.Machinery.Told.{answer_line, claim_line, told_line, told_lines, told_refusals};
ghost use Rattle.crew_session.specs.ReplyLines as Spec;
ghost use Rattle.crew_session.specs.Texts.{AppendsBeginning};
ghost use Rattle.crew_session.specs.Verdicts.{place_text};
ghost use Rattle.crew_version.specs.Versions.{verdicts_of};

use crate::fault::SessionFault;
use crate::lines::{pairing_line, put_key, put_number, write_line};
use crew_core::Reply;
use crew_flights::Verdict;
use crew_machine::Brought;
use crew_net::Node;
use crew_version::Version;
use std::alloc::{AllocError, Global};
use std::io::Write;

// Appends a number between two texts.
fn put_numbered(
    line: &mut Vec<u8>,
    before: &[u8],
    number: usize,
    after: &[u8],
) -> Result<(), AllocError>
    ensures { OnOk result (line.new.items
        ≡ line.old.items ++ Spec.numbered before.now number after.now) }
{
    line.extend_from_slice(before)?;
    put_number(line, number)?;
    line.extend_from_slice(after)
}

// Appends a node, by its base and the key of its duty.
fn put_node(line: &mut Vec<u8>, node: &Node) -> Result<(), AllocError>
    ensures { OnOk result (line.new.items
        ≡ line.old.items ++ Spec.node_text node.now.base node.now.key) }
{
    line.extend_from_slice(&node.base.get())?;
    line.push(b' ')?;
    put_key(line, &node.key)?;
    line.push(b'\n')?;
    Ok(())
}

// Appends the line of a job that is handed out.
fn put_claim(line: &mut Vec<u8>, job: usize, node: &Node) -> Result<(), AllocError>
    ensures { OnOk result (line.new.items
        ≡ line.old.items ++ claim_line job node.now) }
{
    put_numbered(line, b"claim ", job, b" ")?;
    put_node(line, node)
}

// Appends the line of a round that isn't done, with the node.
fn put_undone(line: &mut Vec<u8>, node: &Node) -> Result<(), AllocError>
    ensures { OnOk result (line.new.items ≡ line.old.items
        ++ (codes "seal refused 52 " ++ Spec.node_text node.now.base node.now.key)) }
{
    line.extend_from_slice(b"seal refused 52 ")?;
    put_node(line, node)
}

// Appends the best pairing of a version, if it has one.
fn put_best(alloc: Global, line: &mut Vec<u8>, version: &Version) -> Result<(), AllocError>
    ensures { OnOk result (line.new.items ≡ line.old.items ++ Line.best_line version.now.best) }
{
    match version.best() {
        None => line.extend_from_slice(b"best none\n"),
        Some(best) => line.extend_from_slice(&pairing_line(alloc, b"best", best)?),
    }
}

// Appends what a reader is answered.
fn put_answer(
    alloc: Global,
    line: &mut Vec<u8>,
    reader: u8,
    version: &Version,
) -> Result<(), AllocError>
    ensures { OnOk result (line.new.items ≡ line.old.items ++ answer_line reader version.now) }
{
    put_numbered(line, b"ask ", reader as usize, b"")?;
    put_numbered(line, b" version ", version.number() as usize, b" ")?;
    put_best(alloc, line, version)
}

// What becomes of the result of a job.
fn brought_text(brought: Brought) -> &'static [u8]
    ensures { result.now ≡ Spec.brought_text brought }
{
    match brought {
        Brought::Stored => b" stored\n",
        Brought::Again => b" again\n",
        Brought::Stale => b" stale\n",
    }
}

// Whether the node of a job waits again.
fn freed_text(freed: bool) -> &'static [u8]
    ensures { result.now ≡ Spec.freed_text freed }
{
    if freed { b" freed\n" } else { b" kept\n" }
}

// Whether there was a round.
fn abandoned_line(was_open: bool) -> &'static [u8]
    ensures { result.now ≡ Spec.abandoned_line was_open }
{
    if was_open {
        b"abandon ok\n"
    } else {
        b"abandon none\n"
    }
}

// Appends the line of a reply.
fn put_reply(alloc: Global, line: &mut Vec<u8>, reply: &Reply) -> Result<(), AllocError>
    ensures { OnOk result (line.new.items ≡ line.old.items ++ told_line reply.now) }
{
    match reply {
        Reply::Pushed(place) => put_numbered(line, b"push ", *place, b"\n"),
        Reply::Begun => line.extend_from_slice(b"begin ok\n"),
        Reply::Busy => line.extend_from_slice(b"begin refused 50\n"),
        Reply::LastVersion => line.extend_from_slice(b"begin refused 57\n"),
        Reply::TooManyDuties => line.extend_from_slice(b"begin refused 40\n"),
        Reply::Claimed { job, node } => put_claim(line, *job, node),
        Reply::NoneReady => line.extend_from_slice(b"claim none\n"),
        Reply::Brought { job, brought } => {
            put_numbered(line, b"bring ", *job as usize, brought_text(*brought))
        }
        Reply::NotBrought(job) => put_numbered(line, b"bring ", *job as usize, b" refused 54\n"),
        Reply::GivenBack { job, freed } => {
            put_numbered(line, b"giveback ", *job as usize, freed_text(*freed))
        }
        Reply::NotGivenBack(job) => {
            put_numbered(line, b"giveback ", *job as usize, b" refused 54\n")
        }
        Reply::Abandoned(was_open) => line.extend_from_slice(abandoned_line(*was_open)),
        Reply::Sealed { version, .. } => {
            put_numbered(line, b"seal ", version.number() as usize, b"\n")
        }
        Reply::NoRound => line.extend_from_slice(b"seal refused 53\n"),
        Reply::NotDone(node) => put_undone(line, node),
        Reply::Published(version) => {
            put_numbered(line, b"publish ", version.number() as usize, b"\n")
        }
        Reply::NothingNew => line.extend_from_slice(b"publish refused 55\n"),
        Reply::Answered { reader, version } => put_answer(alloc, line, *reader, version),
    }
}

// The line of a reply.
fn reply_line(alloc: Global, reply: &Reply) -> Result<Vec<u8>, AllocError>
    ensures { IfOk result (λ line. line.items ≡ told_line reply.now) }
{
    let mut line = Vec::new(alloc);
    put_reply(alloc, &mut line, reply)?;
    Ok(line)
}

// The line of an entry that is refused.
fn refused_line(alloc: Global, place: usize, why: u8) -> Result<Vec<u8>, AllocError>
    ensures { IfOk result (λ line. line.items ≡ Spec.numbered (codes "entry ") place
        (Spec.numbered (codes " refused ") why (codes "\n"))) }
{
    let mut line = Vec::new(alloc);
    put_numbered(&mut line, b"entry ", place, b"")?;
    put_numbered(&mut line, b" refused ", why as usize, b"\n")?;
    Ok(line)
}

// Writes what the verdict on the entry at a place writes.
fn write_verdict<W: Write>(
    alloc: Global,
    writer: &mut W,
    place: usize,
    verdict: Option<Verdict>,
) -> Result<(), SessionFault>
    ensures written { OnOk result (Appends (W.contents writer.old) (W.contents writer.new)
        (place_text place verdict)) }
    ensures begun { OnErr result
        (AppendsBeginning (W.contents writer.old) (W.contents writer.new)
        (place_text place verdict)) }
    ensures fault { IfErr result IsLineFault }
{
    match verdict {
        Some(Verdict::Refused(why)) => {
            write_line(writer, &refused_line(alloc, place, why.number())?)
        }
        _ => Ok(()),
    }
}

// Writes the refusals among the entries of a version from a place on.
fn write_verdicts<W: Write>(
    alloc: Global,
    writer: &mut W,
    version: &Version,
    first: usize,
) -> Result<(), SessionFault>
    ensures written { OnOk result (Appends (W.contents writer.old) (W.contents writer.new)
        (Spec.place_lines first (drop first (verdicts_of version.now.entries)))) }
    ensures begun { OnErr result
        (AppendsBeginning (W.contents writer.old) (W.contents writer.new)
        (Spec.place_lines first (drop first (verdicts_of version.now.entries)))) }
    ensures fault { IfErr result IsLineFault }
{
    for place in first..version.count() {
        write_verdict(alloc, writer, place, version.verdict(place))?;
    }
    Ok(())
}

// Writes what comes before the line of a reply: of a seal the refusals among its entries.
fn write_refusals<W: Write>(
    alloc: Global,
    writer: &mut W,
    reply: &Reply,
) -> Result<(), SessionFault>
    ensures written { OnOk result (Appends (W.contents writer.old) (W.contents writer.new)
        (told_refusals reply.now)) }
    ensures begun { OnErr result
        (AppendsBeginning (W.contents writer.old) (W.contents writer.new)
        (told_refusals reply.now)) }
    ensures fault { IfErr result IsLineFault }
{
    match reply {
        Reply::Sealed { settled, version } => write_verdicts(alloc, writer, version, *settled),
        _ => Ok(()),
    }
}

// Writes a reply.
pub(crate) fn write_reply<W: Write>(
    alloc: Global,
    writer: &mut W,
    reply: &Reply,
) -> Result<(), SessionFault>
    ensures written { OnOk result (Appends (W.contents writer.old) (W.contents writer.new)
        (told_lines reply.now)) }
    ensures begun { OnErr result
        (AppendsBeginning (W.contents writer.old) (W.contents writer.new)
        (told_lines reply.now)) }
    ensures fault { IfErr result IsLineFault }
{
    write_refusals(alloc, writer, reply)?;
    let line = reply_line(alloc, reply)?;
    write_line(writer, &line)
}
