//! Reads the entries of a whole store, in the order of their numbers.
ghost use Rattle.std.specs.Prelude.{◌≡◌, ◌≢◌, true, map, reverse, All, ℕ, List, IfOk, IfErr};
ghost use Rattle.sqlite.specs.Held.{state};
ghost use Rattle.sqlite.specs.State.{HasCleanDisk};
ghost use Rattle.register_store.specs.Plain.{posting_row};
ghost use Rattle.register_store.specs.Registers.{is_of_listing, IsOfStation, IsWrongRow, IsWrongAt};
ghost use Rattle.register_store.specs.Registers.{IsListFault};
ghost use Rattle.register_store.specs.StoredRows as stored;
ghost use Rattle.register_store.specs.StoredRows.{IsPostingRow, ArePostings, HasList};
ghost use Rattle.register_sql.specs.Failing.{IsReading};
ghost use Rattle.register_sql.specs.Queries.{IsPart};
ghost use Rattle.register_sql.specs.Rows.{AreRows};
ghost use Rattle.register_sql.specs.Shown.{posting_shown, FitsPosting};

use crate::queries::{Query, read};
use posting_core::Entry;
use register_store::{KeptPosting, StoreFault, entry_of};
use sqlite::{Alter, Connection, Error, ErrorCode, Row};
use std::alloc::Global;

/// Reads a row of `posting`. Fails if a number doesn't fit an entry, if the body isn't text, or for
/// lack of memory.
fn typed(row: &Row) -> Result<KeptPosting, Error>
    ensures read { IfOk result (λ kept. posting_shown (posting_row kept) ≡ row.now) }
    ensures unreadable { IfErr result (λ e. e ≢ Error.SqliteFailure ErrorCode.OutOfMemory
        → (p : stored.PostingRow) → posting_shown p ≡ row.now → ¬ FitsPosting p) }
{
    if row.column_count() != 5 {
        return Err(Error::InvalidQuery);
    }
    Ok(KeptPosting {
        id: row.get(0)?,
        station: row.get(1)?,
        n: row.get(2)?,
        body: row.get(3)?,
        verdict: row.get(4)?,
    })
}

/// The fault of row `number`, which could not be read: NoMemory or Damaged.
fn unread(error: Error, number: u64) -> StoreFault
    ensures memory { error ≡ Error.SqliteFailure ErrorCode.OutOfMemory
        → result ≡ StoreFault.NoMemory }
    ensures damaged { error ≢ Error.SqliteFailure ErrorCode.OutOfMemory
        → result ≡ StoreFault.Damaged number }
{
    match error {
        Error::SqliteFailure(ErrorCode::OutOfMemory) => StoreFault::NoMemory,
        _ => StoreFault::Damaged(number),
    }
}

/// Returns the entry in row `number`, counted from 1. Faults: Damaged(number) if the row is that of
/// no entry of these stations; NoMemory.
pub(crate) fn entry_in(
    alloc: Global,
    row: &Row,
    number: u64,
    stations: u32,
) -> Result<Entry, StoreFault>
    ensures kept { IfOk result
        (λ entry. (p : stored.PostingRow) → posting_shown p ≡ row.now
        → IsPostingRow number entry p) }
    ensures stationed { IfOk result (IsOfStation stations) }
    ensures damaged { IfErr result
        (λ fault. fault ≢ StoreFault.NoMemory → fault ≡ StoreFault.Damaged number) }
    ensures wrong { IfErr result (λ fault. fault ≢ StoreFault.NoMemory
        → (p : stored.PostingRow) → posting_shown p ≡ row.now → IsWrongRow stations number p) }
{
    let kept = match typed(row) {
        Ok(kept) => kept,
        Err(e) => return Err(unread(e, number)),
    };
    entry_of(alloc, &kept, number, stations)
}

/// Returns the entries in the rows, oldest first. Faults: Damaged with the number of the first row
/// that is no entry of these stations; NoMemory.
fn entries_of(alloc: Global, rows: &[Row], stations: u32) -> Result<Vec<Entry>, StoreFault>
    ensures kept { IfOk result
        (λ entries. (ps : List stored.PostingRow) → map posting_shown ps ≡ rows.now
        → ArePostings (reverse entries.items) (reverse ps)) }
    ensures stationed { IfOk result (λ entries. All (IsOfStation stations) entries.items) }
    ensures faults { IfErr result
        (λ fault. fault ≢ StoreFault.NoMemory → (at : ℕ) × (fault ≡ StoreFault.Damaged at)
        × ((ps : List stored.PostingRow) → map posting_shown ps ≡ rows.now
        → IsWrongAt stations at ps)) }
{
    let mut entries = Vec::new(alloc);
    'rows: for i in 0..rows.len() {
        match entry_in(alloc, &rows[i], i as u64 + 1, stations) {
            Ok(entry) => entries.push(entry)?,
            Err(fault) => return Err(fault),
        }
    }
    Ok(entries)
}

/// Returns the entries of a whole store, oldest first. The inner fault is Damaged with the number
/// of the first wrong row, or NoMemory. The outer error is that of a failed statement. The store
/// stays as it was.
pub(crate) fn list<S: Alter>(
    alloc: Global,
    conn: &mut Connection<S>,
    stations: u32,
) -> Result<Result<Vec<Entry>, StoreFault>, Error>
    requires part { HasCleanDisk (state S.Store conn.old) → IsPart 6 (state S.Store conn.old) }
    ensures listed { HasCleanDisk (state S.Store conn.new)
        → IfOk result (λ answer. IfOk answer (λ entries.
        (c : stored.Content) → AreRows (state S.Store conn.old).now.trees c
        → HasList (reverse entries.items) c)) }
    ensures stationed { IfOk result
        (λ answer. IfOk answer (λ entries. All (IsOfStation stations) entries.items)) }
    ensures faults { IfOk result (λ answer. IfErr answer (λ fault. is_of_listing fault ≡ true)) }
    ensures not_store { IfOk result (λ answer. IfErr answer (λ fault. fault ≢ StoreFault.Store)) }
    ensures cause { HasCleanDisk (state S.Store conn.new)
        → IfOk result (λ answer. IfErr answer (λ fault.
        (c : stored.Content) → AreRows (state S.Store conn.old).now.trees c
        → IsListFault stations c fault)) }
    ensures reading { IsReading (state S.Store conn.old) (state S.Store conn.new) result }
{
    let rows = read(conn, Query::Postings, 6)?;
    let answer = entries_of(alloc, &rows, stations);
    Ok(answer)
}
