//! The words of a log's lines, each with its line feed, appended to a text.
ghost use Rattle.std.specs.Prelude.{◌≡◌, ◌<◌, length, reverse};
ghost use Rattle.hub_core.specs.Adds.{Adds};
ghost use Rattle.hub_core.specs.LineText.{station_text};
ghost use Rattle.serve_core.specs.Logs.{IsPlacedReply};
ghost use Rattle.serve_core.specs.Wording.{bad_item_line, logged_text, up_to};

use crate::{Item, LineFault, LogLine, Reply};
use hub_core::{Answer, add_answer, add_asked, add_bad, add_too_long};
use posting_core::{Ledger, PostedEntry};
use std::alloc::AllocError;

/// Appends a line of a log: the reply to its item, as a replay prints it, or `STATION line K bad
/// FAULT` for a faulty line. The ledger is the one after the whole log. After NoMemory the text may
/// end with a part of the line.
pub fn add_logged(text: &mut String, ledger: &Ledger, line: &LogLine) -> Result<(), AllocError>
    requires station { line.now.station < length ledger.now.museum.stations }
    requires placed { IsPlacedReply ledger.now.museum line.now.reply }
    ensures added { Adds text.old text.new
        (logged_text ledger.now.museum (reverse ledger.now.posted) line.now) result }
{
    let setup = ledger.setup();
    let station = line.station;
    match (&line.item, &line.reply) {
        (Item::Scan { n, .. }, Reply::Answered(answer)) => {
            let posted = up_to(ledger.posted(), *answer);
            add_answer(text, setup, station, *n, *answer, posted)
        }
        (Item::Ask(code), Reply::Found(place)) => add_asked(text, setup, station, code, place),
        (Item::Bad { line, fault }, Reply::Unread) => {
            add_bad_item(text, setup.station_name(station), *line, *fault)
        }
        // No log has another pair of item and reply.
        _ => Ok(()),
    }
}

/// The entries that were posted when this answer was given, oldest first.
fn up_to(posted: &[PostedEntry], answer: Answer) -> &[PostedEntry]
    ensures { result.now ≡ up_to answer posted.now }
{
    match answer {
        Answer::Posted { last, .. } => &posted[..posted.len().min(last as usize)],
        _ => posted,
    }
}

/// Appends `STATION line K bad FAULT`.
fn add_bad_item(
    text: &mut String,
    station: &str,
    line: u64,
    fault: LineFault,
) -> Result<(), AllocError>
    ensures { Adds text.old text.new (bad_item_line station.now line fault) result }
{
    text.push_str(station)?;
    text.push_str(" ")?;
    match fault {
        LineFault::TooLong => add_too_long(text, line),
        LineFault::Read(fault) => add_bad(text, line, fault),
    }
}
