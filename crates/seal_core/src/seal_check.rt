//! Checks the seals in a file against the record.
ghost use Rattle.std.specs.Prelude.{◌≡◌, IfOk, OnOk, flat_map, map, string_bytes};
ghost use Rattle.std.specs.List.{list_all, list_any};
ghost use Rattle.seal_core.specs.FileLines.{trimmed};
ghost use Rattle.seal_core.specs.SealChecks.{AddsRow, AreChecked, Checks, IsChecked, are_fine};
ghost use Rattle.seal_core.specs.SealChecks.{bad_row, fault_name, help_on, holds_in, is_bad};
ghost use Rattle.seal_core.specs.SealChecks.{row_text, seal_row};

use crate::lines::{pieces_of, trimmed};
use crate::{LineFault, check_seal, read_seal};
use codes_core::NoMemory;
use posting_core::{EntryNo, Ledger};
use std::alloc::Global;
use std::thread::Threads;

/// A line of a file, checked against the record.
#[derive(Clone, Copy, Debug, PartialEq, Eq)]
pub enum CheckedSeal {
    /// The seal of so many entries.
    Seal { entries: EntryNo, holds: bool },
    /// The line with this number is not a seal.
    Bad { row: usize, fault: LineFault },
}

/// The checked seals of a file.
#[derive(Drop)]
pub struct CheckedSeals {
    /// A line for each line of the file that is not empty: `80000 holds`, `79000 broken` or
    /// `line 3 bad NoMark`.
    pub text: String,
    /// Whether the file has a seal, and each line that is not empty is a seal that holds.
    pub is_fine: bool,
    /// A `help:` line if the file has no seal, or a line that is neither empty nor a seal;
    /// otherwise empty.
    pub help: &'static str,
}

/// Checks the seals in a file, one on each line. Empty lines, and blanks at the ends of a line,
/// don't count. Takes time in proportion to the entries under each seal. Fails with `NoMemory`.
pub fn check_seals(
    rt: &(impl Threads + Sync),
    alloc: Global,
    ledger: &Ledger,
    bytes: &[u8],
) -> Result<CheckedSeals, NoMemory>
    ensures { IfOk result (λ checked. Checks ledger.now bytes.now
        (string_bytes checked.text) checked.is_fine checked.help.now) }
{
    let pieces = pieces_of(alloc, bytes)?;
    let rows = check_lines(rt, alloc, ledger, &pieces)?;
    let text = rows_text(alloc, &rows)?;
    Ok(CheckedSeals {
        text,
        is_fine: are_fine(&rows),
        help: help_on(&rows),
    })
}

/// Checks each line that is not empty. Fails with `NoMemory`.
fn check_lines(
    rt: &(impl Threads + Sync),
    alloc: Global,
    ledger: &Ledger,
    pieces: &[&[u8]],
) -> Result<Vec<CheckedSeal>, NoMemory>
    ensures { IfOk result (λ rows. AreChecked ledger.now 1
        (map trimmed (map (λ piece. piece.now) pieces.now)) rows.items) }
{
    let mut rows = Vec::new(alloc);
    for i in 0..pieces.len() {
        add_row(rt, alloc, ledger, i + 1, trimmed(pieces[i]), &mut rows)?;
    }
    Ok(rows)
}

/// Checks a line, and adds the result, unless the line is empty. Fails with `NoMemory`.
fn add_row(
    rt: &(impl Threads + Sync),
    alloc: Global,
    ledger: &Ledger,
    row: usize,
    line: &[u8],
    rows: &mut Vec<CheckedSeal>,
) -> Result<(), NoMemory>
    ensures { OnOk result (AddsRow ledger.now row line.now rows.old.items rows.new.items) }
{
    if !line.is_empty() {
        let checked = check_line(rt, alloc, ledger, row, line)?;
        rows.push(checked)?;
    }
    Ok(())
}

/// Checks a line. Fails with `NoMemory`.
fn check_line(
    rt: &(impl Threads + Sync),
    alloc: Global,
    ledger: &Ledger,
    row: usize,
    line: &[u8],
) -> Result<CheckedSeal, NoMemory>
    ensures { IfOk result (IsChecked ledger.now row line.now) }
{
    match read_seal(line) {
        Ok(seal) => Ok(CheckedSeal::Seal {
            entries: seal.entries,
            holds: check_seal(rt, alloc, ledger, &seal)?,
        }),
        Err(fault) => Ok(CheckedSeal::Bad { row, fault }),
    }
}

fn rows_text(alloc: Global, rows: &[CheckedSeal]) -> Result<String, NoMemory>
    ensures { IfOk result (λ text. string_bytes text ≡ flat_map row_text rows.now) }
{
    let mut text = String::new(alloc);
    for row in rows {
        let line = row_text(alloc, row)?;
        text.push_str(line.as_str())?;
    }
    Ok(text)
}

fn row_text(alloc: Global, row: &CheckedSeal) -> Result<String, NoMemory>
    ensures { IfOk result (λ text. string_bytes text ≡ row_text row.now) }
{
    match row {
        CheckedSeal::Seal { entries, holds } => seal_row(alloc, *entries, *holds),
        CheckedSeal::Bad { row, fault } => bad_row(alloc, *row, *fault),
    }
}

/// The line of a seal or a receipt that is checked: `12 holds`. Fails with `NoMemory`.
pub(crate) fn seal_row(alloc: Global, entries: EntryNo, holds: bool) -> Result<String, NoMemory>
    ensures { IfOk result (λ text. string_bytes text ≡ seal_row entries holds) }
{
    let word = if holds { "holds" } else { "broken" };
    Ok(format!(in alloc; "{entries} {word}\n")?)
}

fn bad_row(alloc: Global, row: usize, fault: LineFault) -> Result<String, NoMemory>
    ensures { IfOk result (λ text. string_bytes text ≡ bad_row row fault) }
{
    let name = fault_name(fault);
    Ok(format!(in alloc; "line {row} bad {name}\n")?)
}

fn fault_name(fault: LineFault) -> &'static str
    ensures { result.now ≡ fault_name fault }
{
    match fault {
        LineFault::NoMark => "NoMark",
        LineFault::BadNumber => "BadNumber",
        LineFault::BadDigits => "BadDigits",
    }
}

/// Whether there is a seal, and all rows are seals that hold.
fn are_fine(rows: &[CheckedSeal]) -> bool
    ensures { result ≡ are_fine rows.now }
{
    !rows.is_empty() && all_hold(rows)
}

fn all_hold(rows: &[CheckedSeal]) -> bool
    ensures { result ≡ list_all holds_in rows.now }
{
    rows.iter().all(|row| holds_in(row))
}

fn holds_in(row: &CheckedSeal) -> bool
    ensures { result ≡ holds_in row.now }
{
    matches!(row, CheckedSeal::Seal { holds: true, .. })
}

/// The `help:` line for these rows.
fn help_on(rows: &[CheckedSeal]) -> &'static str
    ensures { result.now ≡ help_on rows.now }
{
    if rows.is_empty() {
        return "help: the file has no seal: put a line of 'pairsalder seal' into it\n";
    }
    if has_bad(rows) {
        return "help: a seal is a line such as 80000 sha256:1029.., with 64 digits in lower case\n";
    }
    ""
}

fn has_bad(rows: &[CheckedSeal]) -> bool
    ensures { result ≡ list_any is_bad rows.now }
{
    rows.iter().any(|row| is_bad(row))
}

fn is_bad(row: &CheckedSeal) -> bool
    ensures { result ≡ is_bad row.now }
{
    matches!(row, CheckedSeal::Bad { .. })
}
