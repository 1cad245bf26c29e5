//! The answers to questions of a version.

ghost use Rattle.std.specs.Prelude.{List, ℕ, IfErr, OnErr, OnOk};
ghost use Rattle.std.specs.Io.KnownBytes.{Appends};
ghost use Rattle.crew_session.specs.Faults.{IsLineFault};
ghost use Rattle.crew_session.specs.Questions.{IsQuestion, Tells};
ghost use Rattle.crew_session.specs.Texts.{BeginsOne};

use crate::audit::answer_audit;
use crate::explain::answer_explain;
use crate::fault::SessionFault;
use crate::front::answer_front;
use crate::lines::write_best;
use crate::pairings::{
    answer_apart, answer_apart_of, answer_best_of, answer_cheapest, answer_cheapest_of,
};
use crew_records::Command;
use crew_version::Version;
use std::alloc::Global;
use std::io::Write;

/// Answers a question, which is the record of this number, by a version. `Write` where the writer
/// fails, or `Memory`; what was written is then a beginning of the answer.
pub fn answer<W: Write>(
    alloc: Global,
    number: u32,
    question: &Command,
    version: &Version,
    writer: &mut W,
) -> Result<(), SessionFault>
    requires { IsQuestion question.now }
    ensures answered { OnOk result ((text : List ℕ)
        × Appends (W.contents writer.old) (W.contents writer.new) text
        × Tells number question.now version.now text) }
    ensures begun { OnErr result (BeginsOne (W.contents writer.old) (W.contents writer.new)
        (Tells number question.now version.now)) }
    ensures fault { IfErr result IsLineFault }
{
    match question {
        Command::Best => write_best(alloc, writer, version),
        Command::BestOf { base } => answer_best_of(alloc, writer, *base, version),
        Command::ShowFront { base, key } => answer_front(alloc, writer, *base, key, version),
        Command::Cheapest { limit } => answer_cheapest(alloc, writer, *limit, version),
        Command::Apart { limit, share } => answer_apart(alloc, writer, *limit, *share, version),
        Command::CheapestOf { base, limit } => {
            answer_cheapest_of(alloc, writer, *base, *limit, version)
        }
        Command::ApartOf { base, limit, share } => {
            answer_apart_of(alloc, writer, *base, *limit, *share, version)
        }
        Command::Explain { base, walk } => answer_explain(alloc, writer, *base, walk, version),
        Command::Audit { limit } => answer_audit(alloc, number, *limit, writer, version),
        _ => unreachable!(),
    }
}
