//! The notes on rows whose messages aren't Applied.
ghost use Rattle.std.specs.Prelude.{◌≡◌, ◌<◌, ◌++◌, ◌∷◌, [], IfOk, OnOk, codes, decimal, length};
ghost use Rattle.std.specs.Prelude.{option_map, string_bytes};
ghost use Rattle.std.specs.Option.{option_to_list};
ghost use Rattle.posting_core.specs.VerdictNames.{is_applied};
ghost use Rattle.line_files.specs.Notes.{after_colon, gap_words, note_lines, row_note, unsent};
ghost use Rattle.line_files.specs.Notes.{verdict_note};

use crate::{GapFault, next_number};
use codes_core::NoMemory;
use nest_core::StationNo;
use posting_core::{Ledger, Verdict};
use reports::cause_text;
use std::alloc::Global;
use table_core::TableLine;

/// Adds a line with the note on a row, unless its message would be Applied now. Fails with
/// `NoMemory`.
pub(crate) fn push_note(
    alloc: Global,
    text: &mut String,
    prefix: &str,
    ledger: &Ledger,
    station: StationNo,
    line: &TableLine,
) -> Result<(), NoMemory>
    requires { station < length ledger.now.museum.stations }
    ensures { OnOk result (string_bytes text.new ≡ string_bytes text.old
        ++ note_lines prefix.now (option_to_list (row_note ledger.now station line.now))) }
{
    match row_note(alloc, ledger, station, line)? {
        Some(note) => push_line(text, prefix, note.as_str()),
        None => Ok(()),
    }
}

fn push_line(text: &mut String, prefix: &str, note: &str) -> Result<(), NoMemory>
    ensures { OnOk result
        (string_bytes text.new ≡ string_bytes text.old ++ note_lines prefix.now (note.now ∷ [])) }
{
    text.push_str(prefix)?;
    text.push_str(note)?;
    text.push_str("\n")?;
    Ok(())
}

/// The note on a row, unless its message would be Applied now.
fn row_note(
    alloc: Global,
    ledger: &Ledger,
    station: StationNo,
    line: &TableLine,
) -> Result<Option<String>, NoMemory>
    requires { station < length ledger.now.museum.stations }
    ensures { IfOk result (λ note. option_map (λ text. string_bytes text) note
        ≡ row_note ledger.now station line.now) }
{
    match next_number(ledger, station) {
        Ok(_) => verdict_note(alloc, ledger, line),
        Err(fault) => Ok(Some(unsent(alloc, line.row, fault)?)),
    }
}

/// The note on a row that can be sent, unless its message would be Applied now.
fn verdict_note(
    alloc: Global,
    ledger: &Ledger,
    line: &TableLine,
) -> Result<Option<String>, NoMemory>
    ensures { IfOk result (λ note. option_map (λ text. string_bytes text) note
        ≡ verdict_note ledger.now line.now) }
{
    let verdict = ledger.judge(alloc, &line.message)?;
    if is_applied(verdict) {
        return Ok(None);
    }
    let sentence = cause_text(alloc, ledger, &line.message, verdict)?;
    let cause = after_colon(alloc, sentence)?;
    Ok(Some(refusal(alloc, line.row, verdict.name(), cause.as_str())?))
}

/// Whether the message takes effect.
fn is_applied(verdict: Verdict) -> bool
    ensures { result ≡ is_applied verdict }
{
    matches!(verdict, Verdict::Applied)
}

fn refusal(alloc: Global, row: usize, name: &str, cause: &str) -> Result<String, NoMemory>
    ensures { IfOk result (λ note. string_bytes note
        ≡ codes "row " ++ decimal row ++ codes " would get " ++ name.now ++ cause.now) }
{
    Ok(format!(in alloc; "row {row} would get {name}{cause}")?)
}

/// The sentence behind a colon, or nothing if it is empty.
fn after_colon(alloc: Global, sentence: String) -> Result<String, NoMemory>
    ensures { IfOk result
        (λ text. string_bytes text ≡ after_colon (string_bytes sentence)) }
{
    if sentence.is_empty() {
        return Ok(sentence);
    }
    Ok([": ", sentence.as_str()].concat(alloc)?)
}

/// The note on a row that can't be sent.
fn unsent(alloc: Global, row: usize, fault: GapFault) -> Result<String, NoMemory>
    ensures { IfOk result (λ note. string_bytes note ≡ unsent row fault) }
{
    let words = gap_words(fault);
    Ok(format!(in alloc; "row {row} can't be sent: {words}")?)
}

/// The words of a fault, as it displays them.
fn gap_words(fault: GapFault) -> &'static str
    ensures { result.now ≡ gap_words fault }
{
    match fault {
        GapFault::SignedOff => "the station has signed off",
        GapFault::Full => "the station has no number left",
        GapFault::KnownLoan => "loan LO0000.1 was agreed",
        GapFault::NoMemory => "out of memory",
    }
}
