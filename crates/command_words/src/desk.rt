//! Reads the words of a report that is typed at a desk.
#![tactic(auto)]

ghost use Rattle.std.specs.Prelude.{◌≡◌, IfOk};
ghost use Rattle.command_words.specs.Desk.{IsAskedBy, desk_line, desk_question, is_count, is_plain};
ghost use Rattle.command_words.specs.Words.{texts_of};

use crate::words::chosen;
use crate::{Asked, Chosen, Format, Report, WordsFault};
use std::alloc::{AllocError, Global};

/// The options that stand for the desk's own setup and store, which are open already.
const OWN_SETUP: &str = "--setup=desk";

const OWN_STORE: &str = "--store=desk";

/// Returns a report's words as a command line: with a setup and a store. The first word is the
/// command's name. Fault: AllocError, if memory runs out.
pub fn desk_line<'a>(alloc: Global, words: &[&'a str]) -> Result<Vec<&'a str>, AllocError>
    ensures line { IfOk result (λ line. texts_of line.items ≡ desk_line (texts_of words.now)) }
{
    let (first, rest) = words.split_at(words.len().min(1));
    let mut line = first.to_vec(alloc)?;
    line.push(OWN_SETUP)?;
    line.push(OWN_STORE)?;
    line.extend_from_slice(rest)?;
    Ok(line)
}

/// Returns the question of a line that [`desk_line`] returned, as the command line has it. None if
/// the line is a usage error or asks for help, if it chooses another command than a report, and for
/// `count`, which reads a file. None also for a report that has `--upto`, `--csv`, `--json` or
/// `--table`: a desk prints plain lines about the whole record. Fault: AllocError, if memory runs
/// out.
pub fn asked<'a>(alloc: Global, line: &'a [&'a str]) -> Result<Option<Asked<'a>>, AllocError>
    ensures asked { IfOk result (IsAskedBy (texts_of line.now)) }
{
    match chosen(alloc, line) {
        Ok(chosen) => Ok(question_of(&chosen)),
        Err(WordsFault::NoMemory) => Err(AllocError),
        Err(_) => Ok(None),
    }
}

/// The question of a report that a desk can print.
fn question_of<'a>(chosen: &Chosen<'a>) -> Option<Asked<'a>>
    ensures { result ≡ desk_question chosen.now }
{
    match chosen {
        Chosen::Report(report, asked) if is_plain(report) && !is_count(asked) => Some(*asked),
        _ => None,
    }
}

/// Whether the report prints plain lines about the whole record.
fn is_plain(report: &Report<'_>) -> bool
    ensures { result ≡ is_plain report.now }
{
    matches!(report.format, Format::Lines) && report.upto.is_none()
}

/// Whether the question is that of a count list.
fn is_count(asked: &Asked<'_>) -> bool
    ensures { result ≡ is_count asked.now }
{
    matches!(asked, Asked::Count { .. })
}
