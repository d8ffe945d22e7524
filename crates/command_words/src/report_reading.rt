//! Reads the words of reports.
ghost use Rattle.std.specs.Prelude.{◌≡◌, IfOk, MatchResult, None, Some};
ghost use Rattle.clap.specs.Words.{found_of, kind_of, rows_of};
ghost use Rattle.command_words.specs.Commands.{all_needed, both_needed, report};
ghost use Rattle.command_words.specs.Tables.{app_by};
ghost use Rattle.command_words.specs.Words.{GivesReport, HoldsEntries, HoldsReport, IsFaultBy};
ghost use Rattle.command_words.specs.Words.{IsNoReport, format_by, is_given, texts_of, value};

use crate::reading::{files_of, is_set, needed, one, read, record_of};
use crate::shapes::{Name, bare};
use crate::{Entries, Format, Report, WordsFault};
use clap::error::ErrorKind;
use clap::{ArgMatches, Error};
use std::alloc::{AllocError, Global};

/// The form of a report, by which of `--csv`, `--json` and `--table` are given. None if more than
/// one is.
fn format_of(csv: bool, json: bool, table: bool) -> Option<Format>
    ensures { result ≡ format_by csv json table }
{
    match (csv, json, table) {
        (false, false, false) => Some(Format::Lines),
        (true, false, false) => Some(Format::Csv),
        (false, true, false) => Some(Format::Json),
        (false, false, true) => Some(Format::Table),
        _ => None,
    }
}

/// The setup, the store and the form of a report. Two of `--csv`, `--json` and `--table` are
/// rejected with the error that `clap` has for two options that exclude each other.
pub(crate) fn report_in<'a, 'b>(
    alloc: Global,
    name: Name,
    found: &'b ArgMatches<'a>,
) -> Result<Report<'a>, WordsFault>
    ensures { MatchResult result
        (HoldsReport (rows_of (found_of found.now)))
        (IsNoReport (rows_of (found_of found.now))) }
{
    let csv = is_set(found, "csv");
    let json = is_set(found, "json");
    let Some(format) = format_of(csv, json, is_set(found, "table")) else {
        return Err(WordsFault::Refused(both_formats(alloc, name, csv, json)?));
    };
    let record = record_of(files_of(found))?;
    Ok(Report {
        setup: record.setup,
        store: record.store,
        upto: one(found, "upto"),
        format,
    })
}

/// `clap`'s error for two of `--csv`, `--json` and `--table`.
fn both_formats(alloc: Global, name: Name, csv: bool, json: bool) -> Result<Error, AllocError>
    ensures { IfOk result (λ e. kind_of e ≡ ErrorKind.ArgumentConflict) }
{
    let mut command = bare(alloc, name);
    let error = command.error(ErrorKind::ArgumentConflict, conflict(csv, json));
    drop(command);
    error
}

/// The message that names the first two of `--csv`, `--json` and `--table`.
fn conflict(csv: bool, json: bool) -> &'static str {
    match (csv, json) {
        (true, true) => "the argument '--csv' cannot be used with '--json'",
        (true, false) => "the argument '--csv' cannot be used with '--table'",
        (false, _) => "the argument '--json' cannot be used with '--table'",
    }
}

/// Returns the setup, the store and the form of a report. Faults: Refused, if `clap` rejects the
/// words, or if they have two of `--csv`, `--json` and `--table`; Missing, if the setup or the
/// store is missing. NoMemory can come instead of any result.
pub(crate) fn read_report<'a>(
    alloc: Global,
    name: Name,
    words: &'a [&'a str],
) -> Result<Report<'a>, WordsFault>
    ensures { MatchResult result
        (GivesReport (app_by name) (texts_of words.now))
        (IsFaultBy (Some (report (both_needed (app_by name)))) (texts_of words.now)) }
{
    let matches = read(alloc, name, words)?;
    let report = report_in(alloc, name, &matches);
    drop(matches);
    report
}

/// Which entries the words ask for.
pub(crate) fn entries_of<'a, 'b>(found: &'b ArgMatches<'a>) -> Entries<'a>
    ensures { HoldsEntries (rows_of (found_of found.now)) result }
{
    Entries {
        from: one(found, "from"),
        to: one(found, "to"),
        station: one(found, "station"),
        thing: one(found, "thing"),
        loan: one(found, "loan"),
        refused: is_set(found, "refused"),
    }
}

/// Returns what [`read_report`] returns, and the value of one more argument, which is needed.
/// Faults: as for [`read_report`]; Missing also if this value is missing.
pub(crate) fn read_report_and<'a>(
    alloc: Global,
    name: Name,
    words: &'a [&'a str],
    id: &'static str,
) -> Result<(Report<'a>, &'a str), WordsFault>
    ensures { MatchResult result
        (λ r. GivesReport (app_by name) (texts_of words.now) r.0
        × (value (app_by name) (texts_of words.now) id.now ≡ Some r.1.now))
        (IsFaultBy (Some (report (all_needed (app_by name) id.now)))
        (texts_of words.now)) }
{
    let (report, own, _) = read_report_and_flag(alloc, name, words, id, id)?;
    Ok((report, own))
}

/// Returns what [`read_report_and`] returns, and whether a flag is given. Faults: as for
/// [`read_report_and`].
pub(crate) fn read_report_and_flag<'a>(
    alloc: Global,
    name: Name,
    words: &'a [&'a str],
    id: &'static str,
    flag: &'static str,
) -> Result<(Report<'a>, &'a str, bool), WordsFault>
    ensures { MatchResult result
        (λ r. GivesReport (app_by name) (texts_of words.now) r.0
        × (value (app_by name) (texts_of words.now) id.now ≡ Some r.1.now)
        × (is_given (app_by name) (texts_of words.now) flag.now ≡ r.2))
        (IsFaultBy (Some (report (all_needed (app_by name) id.now)))
        (texts_of words.now)) }
{
    let matches = read(alloc, name, words)?;
    let own = one(&matches, id);
    let is_given = is_set(&matches, flag);
    let report = report_in(alloc, name, &matches);
    drop(matches);
    Ok((report?, needed(own)?, is_given))
}
