//! Finds *strangers*: rows that can't be read, and that no ledger could have.
ghost use Rattle.std.specs.Prelude.{◌≡◌, ◌<◌, true, length, map, IsTrue, IfOk, IfErr};
ghost use Rattle.std.specs.Bool.{Decides};
ghost use Rattle.std.specs.List.Sorted.{IsPermutation};
ghost use Rattle.sqlite.specs.Order.{column};
ghost use Rattle.sqlite.specs.declared.types.Value.TheVariants.{Int};
ghost use Rattle.register_store.specs.Registers.{is_failure};
ghost use Rattle.register_store.specs.StoredRows as stored;
ghost use Rattle.register_store.specs.StoredRows.{HasRows};
ghost use Rattle.register_sql.specs.Fits.{IsNoSpot, IsNoLine, IsNoTerm};
ghost use Rattle.register_sql.specs.Found.{AreFound};
ghost use Rattle.register_sql.specs.Strange.{IsNone, HasStranger, AreStrange, cells_of_spot};
ghost use Rattle.register_sql.specs.Strange.{cells_of_line, cells_of_term};

use crate::identity::{is_number, is_text};
use crate::row_values::{line_of, spot_of, term_of};
use codes_core::{Day, LoanCode};
use posting_core::{Ledger, LineStage, NewSpot};
use register_store::{LineKey, StoreFault, lines_of, spot_rows, terms_of};
use sqlite::Row;
use sqlite_value::value::ValueRef;
use std::alloc::Global;

/// Whether the cell is this day.
fn is_day(row: &Row, at: usize, day: Day) -> bool
    requires { at < length row.now }
    ensures { Decides result (column row.now at ≡ Int day) }
{
    match row.get_ref(at) {
        Ok(ValueRef::Int(found)) => found == i64::from(day.number()),
        _ => false,
    }
}

/// Whether the row is that of this spot.
fn is_spot(row: &Row, spot: &NewSpot) -> bool
    ensures { Decides result (row.now ≡ cells_of_spot spot.now) }
{
    row.column_count() == 5
        && is_number(row, 0, u64::from(spot.thing))
        && is_number(row, 1, u64::from(spot.k))
        && is_number(row, 2, u64::from(spot.spot.entry))
        && is_number(row, 3, u64::from(spot.spot.place))
        && is_day(row, 4, spot.spot.day)
}

/// Whether the row is that of this loan line.
fn is_line(row: &Row, line: &(LineKey, LineStage)) -> bool
    ensures { Decides result (row.now ≡ cells_of_line line.now) }
{
    row.column_count() == 3
        && is_text(row, 0, line.0.loan.as_str())
        && is_number(row, 1, u64::from(line.0.object))
        && is_number(row, 2, u64::from(line.1.number()))
}

/// Whether the row is that of this last day.
fn is_term(row: &Row, term: &(LoanCode, Day)) -> bool
    ensures { Decides result (row.now ≡ cells_of_term term.now) }
{
    row.column_count() == 2 && is_text(row, 0, term.0.as_str()) && is_day(row, 1, term.1)
}

/// Whether the row is that of none of these spots.
fn is_no_spot(row: &Row, wanted: &[NewSpot]) -> bool
    ensures { Decides result (IsNone cells_of_spot (length wanted.now) wanted.now row.now) }
{
    'wanted: for item in wanted {
        if is_spot(row, item) {
            return false;
        }
    }
    true
}

/// Whether the row is that of none of these loan lines.
fn is_no_line(row: &Row, wanted: &[(LineKey, LineStage)]) -> bool
    ensures { Decides result (IsNone cells_of_line (length wanted.now) wanted.now row.now) }
{
    'wanted: for item in wanted {
        if is_line(row, item) {
            return false;
        }
    }
    true
}

/// Whether the row is that of none of these last days.
fn is_no_term(row: &Row, wanted: &[(LoanCode, Day)]) -> bool
    ensures { Decides result (IsNone cells_of_term (length wanted.now) wanted.now row.now) }
{
    'wanted: for item in wanted {
        if is_term(row, item) {
            return false;
        }
    }
    true
}

/// Whether the row can't be read as a spot, and is none of the wanted spots.
fn is_strange_spot(row: &Row, wanted: &[NewSpot]) -> bool
    ensures { Decides result
        (IsNoSpot row.now × IsNone cells_of_spot (length wanted.now) wanted.now row.now) }
{
    match spot_of(row) {
        Some(_) => false,
        None => is_no_spot(row, wanted),
    }
}

/// Whether any row is a stranger among spots.
fn has_strange_spot(rows: &[Row], wanted: &[NewSpot]) -> bool
    ensures { Decides result (HasStranger IsNoSpot (map cells_of_spot wanted.now) rows.now) }
{
    'rows: for row in rows {
        if is_strange_spot(row, wanted) {
            return true;
        }
    }
    false
}

/// Whether the row can't be read as a loan line, and is none of the wanted ones.
fn is_strange_line(row: &Row, wanted: &[(LineKey, LineStage)]) -> bool
    ensures { Decides result
        (IsNoLine row.now × IsNone cells_of_line (length wanted.now) wanted.now row.now) }
{
    match line_of(row) {
        Some(_) => false,
        None => is_no_line(row, wanted),
    }
}

/// Whether any row is a stranger among loan lines.
fn has_strange_line(rows: &[Row], wanted: &[(LineKey, LineStage)]) -> bool
    ensures { Decides result (HasStranger IsNoLine (map cells_of_line wanted.now) rows.now) }
{
    'rows: for row in rows {
        if is_strange_line(row, wanted) {
            return true;
        }
    }
    false
}

/// Whether the row can't be read as a last day, and is none of the wanted ones.
fn is_strange_term(row: &Row, wanted: &[(LoanCode, Day)]) -> bool
    ensures { Decides result
        (IsNoTerm row.now × IsNone cells_of_term (length wanted.now) wanted.now row.now) }
{
    match term_of(row) {
        Some(_) => false,
        None => is_no_term(row, wanted),
    }
}

/// Whether any row is a stranger among last days.
fn has_strange_term(rows: &[Row], wanted: &[(LoanCode, Day)]) -> bool
    ensures { Decides result (HasStranger IsNoTerm (map cells_of_term wanted.now) rows.now) }
{
    'rows: for row in rows {
        if is_strange_term(row, wanted) {
            return true;
        }
    }
    false
}

/// Returns whether any of the store's rows is a stranger: then they aren't the rows of the ledger.
/// Fault: NoMemory; the contract allows Store, too.
pub(crate) fn are_strange(
    alloc: Global,
    spots: &[Row],
    lines: &[Row],
    terms: &[Row],
    ledger: &Ledger,
) -> Result<bool, StoreFault>
    ensures told { IfOk result (λ strange. Decides strange
        (AreStrange ledger.now.museum ledger.now.posted spots.now lines.now terms.now)) }
    ensures strange { IfOk result
        (λ strange. IsTrue strange → (c : stored.Content) → AreFound spots.now lines.now terms.now c
        → ¬ HasRows ledger.now.museum ledger.now.posted c) }
    ensures faults { IfErr result (λ fault. is_failure fault ≡ true) }
{
    let wanted_spots = spot_rows(alloc, ledger)?;
    if has_strange_spot(spots, &wanted_spots) {
        return Ok(true);
    }
    let wanted_lines = lines_of(alloc, ledger)?;
    if has_strange_line(lines, &wanted_lines) {
        return Ok(true);
    }
    let wanted_terms = terms_of(alloc, ledger)?;
    Ok(has_strange_term(terms, &wanted_terms))
}
