//! Reads the entries of a store of version 1, which has no extension and no verdict NotLater.
ghost use Rattle.std.specs.Prelude.{◌≡◌, ◌≢◌, true, map, reverse, All, ℕ, List, IfOk, IfErr};
ghost use Rattle.sqlite.specs.Held.{state};
ghost use Rattle.sqlite.specs.State.{HasCleanDisk};
ghost use Rattle.register_store.specs.Registers.{is_of_listing};
ghost use Rattle.register_store.specs.StoredRows as stored;
ghost use Rattle.register_store.specs.StoredRows.{IsPostingRow, ArePostings, HasList};
ghost use Rattle.register_sql.specs.Early.{is_early, IsEarlyOf, IsWrongEarly, IsEarlyWrongAt};
ghost use Rattle.register_sql.specs.Early.{IsFirstEarlyWrong};
ghost use Rattle.register_sql.specs.Failing.{IsReading};
ghost use Rattle.register_sql.specs.Queries.{IsPart};
ghost use Rattle.register_sql.specs.Rows.{HasPart};
ghost use Rattle.register_sql.specs.Shown.{posting_shown};

use crate::list::entry_in;
use crate::queries::{Query, read};
use posting_core::{Entry, Message, Verdict};
use register_store::StoreFault;
use sqlite::{Alter, Connection, Error, Row};
use std::alloc::Global;

/// Whether version 1 has the message's kind and the verdict.
fn is_early(entry: &Entry) -> bool
    ensures { result ≡ is_early entry.now }
{
    !matches!(entry.message, Message::Extend { .. }) && !matches!(entry.verdict, Verdict::NotLater)
}

/// Returns the entry of version 1 in row `number`, counted from 1. Faults: Damaged(number) if the
/// row is that of no such entry of these stations; NoMemory.
fn early_entry(alloc: Global, row: &Row, number: u64, stations: u32) -> Result<Entry, StoreFault>
    ensures kept { IfOk result
        (λ entry. (p : stored.PostingRow) → posting_shown p ≡ row.now
        → IsPostingRow number entry p) }
    ensures known { IfOk result (IsEarlyOf stations) }
    ensures damaged { IfErr result
        (λ fault. fault ≢ StoreFault.NoMemory → fault ≡ StoreFault.Damaged number) }
    ensures wrong { IfErr result (λ fault. fault ≢ StoreFault.NoMemory
        → (p : stored.PostingRow) → posting_shown p ≡ row.now → IsWrongEarly stations number p) }
{
    let entry = match entry_in(alloc, row, number, stations) {
        Ok(entry) => entry,
        Err(fault) => return Err(fault),
    };
    if is_early(&entry) {
        Ok(entry)
    } else {
        Err(StoreFault::Damaged(number))
    }
}

/// Returns the entries in the rows, oldest first. Faults: Damaged with the number of the first row
/// that is no entry of version 1 of these stations; NoMemory.
fn early_entries(alloc: Global, rows: &[Row], stations: u32) -> Result<Vec<Entry>, StoreFault>
    ensures kept { IfOk result
        (λ entries. (ps : List stored.PostingRow) → map posting_shown ps ≡ rows.now
        → ArePostings (reverse entries.items) (reverse ps)) }
    ensures known { IfOk result (λ entries. All (IsEarlyOf stations) entries.items) }
    ensures faults { IfErr result
        (λ fault. fault ≢ StoreFault.NoMemory → (at : ℕ) × (fault ≡ StoreFault.Damaged at)
        × ((ps : List stored.PostingRow) → map posting_shown ps ≡ rows.now
        → IsEarlyWrongAt stations at ps)) }
{
    let mut entries = Vec::new(alloc);
    'rows: for i in 0..rows.len() {
        match early_entry(alloc, &rows[i], i as u64 + 1, stations) {
            Ok(entry) => entries.push(entry)?,
            Err(fault) => return Err(fault),
        }
    }
    Ok(entries)
}

/// Returns the entries of a store of version 1, oldest first. The inner fault is Damaged with the
/// number of the first wrong row, or NoMemory. The outer error is that of a failed statement. The
/// store stays as it was.
pub(crate) fn early_list<S: Alter>(
    alloc: Global,
    conn: &mut Connection<S>,
    stations: u32,
) -> Result<Result<Vec<Entry>, StoreFault>, Error>
    requires part { HasCleanDisk (state S.Store conn.old) → IsPart 5 (state S.Store conn.old) }
    ensures listed { HasCleanDisk (state S.Store conn.new)
        → IfOk result (λ answer. IfOk answer (λ entries.
        (c : stored.Content) → HasPart 5 (state S.Store conn.old).now.trees c
        → HasList (reverse entries.items) c)) }
    ensures known { IfOk result
        (λ answer. IfOk answer (λ entries. All (IsEarlyOf stations) entries.items)) }
    ensures faults { IfOk result (λ answer. IfErr answer (λ fault. is_of_listing fault ≡ true)) }
    ensures able { IfOk result (λ answer. IfErr answer (λ fault. fault ≢ StoreFault.Store)) }
    ensures cause { HasCleanDisk (state S.Store conn.new)
        → IfOk result (λ answer. IfErr answer (λ fault. (at : ℕ) → fault ≡ StoreFault.Damaged at
        → (c : stored.Content) → HasPart 5 (state S.Store conn.old).now.trees c
        → IsFirstEarlyWrong stations at c)) }
    ensures reading { IsReading (state S.Store conn.old) (state S.Store conn.new) result }
{
    let rows = read(conn, Query::Postings, 5)?;
    let answer = early_entries(alloc, &rows, stations);
    Ok(answer)
}
