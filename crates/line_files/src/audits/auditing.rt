//! The audit of a count list.
ghost use Rattle.std.specs.Prelude.{◌≡◌, ◌≢◌, ◌<◌, All, IfErr, IfOk, IsTrue, OnOk, length, not};
ghost use Rattle.std.specs.Prelude.{string_bytes};
ghost use Rattle.count_core.specs.Counts.{IsMissingIn, answers};
ghost use Rattle.count_core.specs.Sealed.{missing_unless_sealed};
ghost use Rattle.line_files.specs.Sightings.{seen_elsewhere};
ghost use Rattle.line_files.specs.AuditLines.{EachReads, audit_lines, has_numbers, moves};
ghost use Rattle.line_files.specs.AuditLines.{station_text};
ghost use Rattle.line_files.specs.AuditNotes.{audit_notes};

use crate::AuditFault;
use crate::audits::lines::{has_numbers, lines, loose, moves};
use crate::audits::notes::notes;
use crate::audits::sightings::seen_elsewhere;
use crate::audits::unmoved::unmoved_rows;
use codes_core::{Day, NoMemory};
use count_core::{CountReport, CountRow, check, check_sealed};
use nest_core::StationNo;
use posting_core::Ledger;
use std::alloc::Global;
use std::thread::Threads;

/// How a count list is audited.
#[derive(Clone, Copy, Debug)]
pub struct AuditOptions {
    /// The station that sends the lines.
    pub station: StationNo,
    /// The day of the moves.
    pub day: Day,
    /// The number of the first line.
    pub first: u32,
    /// Whether a container that was seen vouches for the objects in it.
    pub sealed: bool,
}

/// The audit of a count list, as text.
#[derive(Debug, Drop)]
pub struct AuditText {
    /// A line for each move, in the order of the list. Each ends with a line feed.
    pub lines: String,
    /// First the things that were seen elsewhere but lie in a container on record, then the rows
    /// that name something unknown, a thing again, or a thing that was never placed, both in the
    /// order of the list; then the missing objects, in the order of the count's report. Each note
    /// ends with a line feed.
    pub notes: String,
}

/// Returns the lines that move each thing which the list found elsewhere, and the notes on the
/// rest, from the record as it is. The lines are numbered one after the other. The station must be
/// in the setup.
///
/// Fails with `NumberOutside` if a line's number would not be from 1 to
/// [`LAST_NUMBER`](posting_core::LAST_NUMBER). `NoMemory` can come instead of any result.
pub fn audit<T: Threads + Sync>(
    threads: &T,
    alloc: Global,
    ledger: &Ledger,
    options: &AuditOptions,
    rows: &[CountRow],
) -> Result<AuditText, AuditFault>
    requires { options.now.station < length ledger.now.museum.stations }
    ensures lines { IfOk result (λ audit. string_bytes audit.lines
        ≡ audit_lines ledger.now options.now rows.now) }
    ensures reads_back { OnOk result (EachReads (station_text ledger.now options.now.station)
        options.now.first (moves ledger.now options.now.day rows.now)) }
    ensures notes { IfOk result (λ audit. string_bytes audit.notes
        ≡ audit_notes ledger.now options.now.sealed rows.now) }
    ensures numbers { OnOk result (IsTrue (has_numbers options.now.first
        (length (moves ledger.now options.now.day rows.now)))) }
    ensures fault { IfErr result (λ fault. fault ≢ AuditFault.NoMemory
        → (fault ≡ AuditFault.NumberOutside) × IsTrue (not (has_numbers options.now.first
        (length (moves ledger.now options.now.day rows.now))))) }
{
    let setup = ledger.setup();
    setup.is_museum();
    let CountReport { answers, missing } = checked(threads, alloc, ledger, rows, options.sealed)?;
    let seen = seen_elsewhere(alloc, rows, &answers)?;
    let loose = loose(alloc, ledger, &seen)?;
    let moves = moves(alloc, options.day, &loose)?;
    if !has_numbers(options.first, moves.len()) {
        return Err(AuditFault::NumberOutside);
    }
    let station = setup.station_name(options.station);
    let lines = lines(alloc, station, options.first, &moves)?;
    let unmoved = unmoved_rows(alloc, rows, &answers)?;
    let notes = notes(alloc, ledger, &seen, &unmoved, &missing)?;
    Ok(AuditText { lines, notes })
}

fn checked<T: Threads + Sync>(
    threads: &T,
    alloc: Global,
    ledger: &Ledger,
    rows: &[CountRow],
    sealed: bool,
) -> Result<CountReport, NoMemory>
    ensures answers { IfOk result (λ report. report.answers.items ≡ answers ledger.now rows.now) }
    ensures missing { IfOk result
        (λ report. report.missing.items ≡ missing_unless_sealed ledger.now sealed rows.now) }
    ensures within { IfOk result
        (λ report. All (IsMissingIn ledger.now.museum) report.missing.items) }
{
    if sealed {
        return check_sealed(threads, alloc, ledger, rows);
    }
    check(threads, alloc, ledger, rows)
}
