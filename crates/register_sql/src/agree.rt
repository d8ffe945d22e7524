//! Compares the spots, loan lines and last days of a whole store with those of a ledger.
ghost use Rattle.std.specs.Prelude.{◌≡◌, ◌&&◌, ◌∷◌, ◌++◌, [], true, false, map, IfOk, IfErr, OnOk};
ghost use Rattle.std.specs.Bool.{Decides};
ghost use Rattle.std.specs.List.Sorted.{IsPermutation};
ghost use Rattle.sqlite.specs.Held.{state};
ghost use Rattle.sqlite.specs.State.{HasCleanDisk};
ghost use Rattle.register_store.specs.Plain.{held_lines, term_rows};
ghost use Rattle.register_store.specs.Registers.{is_failure};
ghost use Rattle.register_store.specs.StoredRows as stored;
ghost use Rattle.register_store.specs.StoredRows.{HasRows, spot_row, line_row};
ghost use Rattle.register_sql.specs.Failing.{IsReading};
ghost use Rattle.register_sql.specs.Fits.{IsNoSpot};
ghost use Rattle.register_sql.specs.Found.{spots_shown, lines_shown, terms_shown, AreFound};
ghost use Rattle.register_sql.specs.Queries.{shown_in, IsPart};
ghost use Rattle.register_sql.specs.Rows.{AreRows};

use crate::mismatch::are_strange;
use crate::queries::{Query, read};
use crate::row_values::{line_of, spot_of, term_of};
use codes_core::{Day, LoanCode};
use indexmap::IndexMap;
use posting_core::{Ledger, LineStage, NewSpot};
use register_store::{LineKey, StoreFault, has_all, has_rows, lines_of, spot_rows, terms_of};
use sqlite::{Alter, Connection, Error, Row};
use std::alloc::Global;

/// Adds the spot of a row. Faults: Store if the row can't be a spot; NoMemory.
#[tactic(auto, using(crate::proofs::Agrees::more_spots))]
fn keep_spot(spots: &mut Vec<NewSpot>, row: &Row) -> Result<(), StoreFault>
    ensures kept { OnOk result
        (spots_shown spots.new.items ≡ spots_shown spots.old.items ++ row.now ∷ []) }
    ensures store { result ≡ Err StoreFault.Store → IsNoSpot row.now }
    ensures faults { IfErr result (λ fault. is_failure fault ≡ true) }
{
    let Some(spot) = spot_of(row) else {
        return Err(StoreFault::Store);
    };
    spots.push(spot)?;
    Ok(())
}

/// Adds the loan line of a row. Faults: Store if the row can't be a loan line, or if its loan and
/// object have one already; NoMemory.
fn keep_line(kept: &mut IndexMap<LineKey, LineStage>, row: &Row) -> Result<(), StoreFault>
    ensures kept { OnOk result
        (lines_shown kept.new.entries ≡ lines_shown kept.old.entries ++ row.now ∷ []) }
    ensures faults { IfErr result (λ fault. is_failure fault ≡ true) }
{
    let Some((key, stage)) = line_of(row) else {
        return Err(StoreFault::Store);
    };
    match kept.insert(key, stage) {
        Ok(None) => Ok(()),
        Ok(Some(_)) => Err(StoreFault::Store),
        Err(_) => Err(StoreFault::NoMemory),
    }
}

/// Adds the last day of a row. Faults: Store if the row can't be a last day, or if its loan has one
/// already; NoMemory.
fn keep_term(kept: &mut IndexMap<LoanCode, Day>, row: &Row) -> Result<(), StoreFault>
    ensures kept { OnOk result
        (terms_shown kept.new.entries ≡ terms_shown kept.old.entries ++ row.now ∷ []) }
    ensures faults { IfErr result (λ fault. is_failure fault ≡ true) }
{
    let Some((loan, day)) = term_of(row) else {
        return Err(StoreFault::Store);
    };
    match kept.insert(loan, day) {
        Ok(None) => Ok(()),
        Ok(Some(_)) => Err(StoreFault::Store),
        Err(_) => Err(StoreFault::NoMemory),
    }
}

/// Reads all rows as spots.
fn spots_in(alloc: Global, rows: &[Row]) -> Result<Vec<NewSpot>, StoreFault>
    ensures read { IfOk result (λ spots. spots_shown spots.items ≡ rows.now) }
    ensures faults { IfErr result (λ fault. is_failure fault ≡ true) }
{
    let mut spots = Vec::new(alloc);
    'rows: for row in rows {
        keep_spot(&mut spots, row)?;
    }
    Ok(spots)
}

/// Reads all rows as loan lines, by loan and object.
fn lines_in(alloc: Global, rows: &[Row]) -> Result<IndexMap<LineKey, LineStage>, StoreFault>
    ensures read { IfOk result (λ kept. lines_shown kept.entries ≡ rows.now) }
    ensures faults { IfErr result (λ fault. is_failure fault ≡ true) }
{
    let mut kept = IndexMap::new(alloc);
    'rows: for row in rows {
        keep_line(&mut kept, row)?;
    }
    Ok(kept)
}

/// Reads all rows as last days, by loan.
fn terms_in(alloc: Global, rows: &[Row]) -> Result<IndexMap<LoanCode, Day>, StoreFault>
    ensures read { IfOk result (λ kept. terms_shown kept.entries ≡ rows.now) }
    ensures faults { IfErr result (λ fault. is_failure fault ≡ true) }
{
    let mut kept = IndexMap::new(alloc);
    'rows: for row in rows {
        keep_term(&mut kept, row)?;
    }
    Ok(kept)
}

/// Whether all three are true.
fn are_all(spots: bool, lines: bool, terms: bool) -> bool
    ensures { result ≡ (spots && (lines && terms)) }
{
    spots && lines && terms
}

/// Returns whether these are the rows of the ledger. Sorts the spots.
fn are_rows(
    alloc: Global,
    spots: &mut Vec<NewSpot>,
    lines: &IndexMap<LineKey, LineStage>,
    terms: &IndexMap<LoanCode, Day>,
    ledger: &Ledger,
) -> Result<bool, StoreFault>
    ensures told { IfOk result
        (λ same. (c : stored.Content) → IsPermutation (map spot_row spots.old.items) c.spots
        → IsPermutation (map line_row (held_lines lines.now.entries)) c.lines
        → IsPermutation (term_rows terms.now.entries) c.terms
        → Decides same (HasRows ledger.now.museum ledger.now.posted c)) }
    ensures faults { IfErr result (λ fault. is_failure fault ≡ true) }
{
    let wanted_spots = spot_rows(alloc, ledger)?;
    let wanted_lines = lines_of(alloc, ledger)?;
    let wanted_terms = terms_of(alloc, ledger)?;
    ledger.is_lawful();
    let same_spots = has_rows(spots, &wanted_spots);
    let same_lines = has_all(lines, &wanted_lines);
    let same_terms = has_all(terms, &wanted_terms);
    Ok(are_all(same_spots, same_lines, same_terms))
}

/// Returns whether these are the rows of the ledger. Store if a row can't be read, or if two loan
/// lines or two last days have the same key.
fn compare_read(
    alloc: Global,
    spots: &[Row],
    lines: &[Row],
    terms: &[Row],
    ledger: &Ledger,
) -> Result<bool, StoreFault>
    ensures told { IfOk result
        (λ same. (c : stored.Content) → AreFound spots.now lines.now terms.now c
        → Decides same (HasRows ledger.now.museum ledger.now.posted c)) }
    ensures faults { IfErr result (λ fault. is_failure fault ≡ true) }
{
    let mut kept = spots_in(alloc, spots)?;
    let kept_lines = lines_in(alloc, lines)?;
    let kept_terms = terms_in(alloc, terms)?;
    let answer = are_rows(alloc, &mut kept, &kept_lines, &kept_terms, ledger);
    answer
}

/// The same for rows that `compare_read` rejected with Store: if one of them can't be a row of the
/// ledger, the answer is false. Otherwise the fault stays Store.
fn compare_unread(
    alloc: Global,
    spots: &[Row],
    lines: &[Row],
    terms: &[Row],
    ledger: &Ledger,
) -> Result<bool, StoreFault>
    ensures told { IfOk result
        (λ same. (c : stored.Content) → AreFound spots.now lines.now terms.now c
        → Decides same (HasRows ledger.now.museum ledger.now.posted c)) }
    ensures faults { IfErr result (λ fault. is_failure fault ≡ true) }
{
    let strange = are_strange(alloc, spots, lines, terms, ledger)?;
    if strange {
        return Ok(false);
    }
    Err(StoreFault::Store)
}

/// Returns whether these are the rows of the ledger. Store means that two rows have the same key,
/// though no clause promises that.
fn compare(
    alloc: Global,
    spots: &[Row],
    lines: &[Row],
    terms: &[Row],
    ledger: &Ledger,
) -> Result<bool, StoreFault>
    ensures told { IfOk result
        (λ same. (c : stored.Content) → AreFound spots.now lines.now terms.now c
        → Decides same (HasRows ledger.now.museum ledger.now.posted c)) }
    ensures faults { IfErr result (λ fault. is_failure fault ≡ true) }
{
    match compare_read(alloc, spots, lines, terms, ledger) {
        Err(StoreFault::Store) => compare_unread(alloc, spots, lines, terms, ledger),
        answer => answer,
    }
}

/// Reads the rows of the loan lines and of the last days.
fn loan_rows<S: Alter>(conn: &mut Connection<S>) -> Result<(Vec<Row>, Vec<Row>), Error>
    requires part { HasCleanDisk (state S.Store conn.old) → IsPart 6 (state S.Store conn.old) }
    ensures rows { HasCleanDisk (state S.Store conn.new) → IfOk result (λ rows.
        IsPermutation (shown_in Query.Lines (state S.Store conn.old).now.trees) rows.0.items
        × IsPermutation (shown_in Query.Terms (state S.Store conn.old).now.trees) rows.1.items) }
    ensures reading { IsReading (state S.Store conn.old) (state S.Store conn.new) result }
{
    let lines = read(conn, Query::Lines, 6)?;
    let terms = read(conn, Query::Terms, 6)?;
    Ok((lines, terms))
}

/// Returns whether the store's rows of spots, loan lines and last days are exactly those of the
/// ledger. The outer error is that of a failed statement. The store stays as it was.
pub(crate) fn agrees<S: Alter>(
    alloc: Global,
    conn: &mut Connection<S>,
    ledger: &Ledger,
) -> Result<Result<bool, StoreFault>, Error>
    requires part { HasCleanDisk (state S.Store conn.old) → IsPart 6 (state S.Store conn.old) }
    ensures told { HasCleanDisk (state S.Store conn.new)
        → IfOk result (λ answer. IfOk answer (λ same.
        (c : stored.Content) → AreRows (state S.Store conn.old).now.trees c
        → Decides same (HasRows ledger.now.museum ledger.now.posted c))) }
    ensures faults { IfOk result (λ answer. IfErr answer (λ fault. is_failure fault ≡ true)) }
    ensures reading { IsReading (state S.Store conn.old) (state S.Store conn.new) result }
{
    let spots = read(conn, Query::Spots, 6)?;
    let loans = loan_rows(conn)?;
    let answer = compare(alloc, &spots, &loans.0, &loans.1, ledger);
    Ok(answer)
}
