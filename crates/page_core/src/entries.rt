//! The table of the last entries.
ghost use Rattle.std.specs.Prelude.{◌≡◌, ◌<◌, ◌≤◌, ◌+◌, ◌-◌, IfOk, OnOk, length, map};
ghost use Rattle.std.specs.Prelude.{reverse, string_bytes};
ghost use Rattle.std.specs.List.{range_with_len};
ghost use Rattle.posting_core.specs.Past.{upto};
ghost use Rattle.page_core.specs.Pieces.{page_text};
ghost use Rattle.page_core.specs.Entries.{cells_with, entry_cells, entry_text, last_entries};
ghost use Rattle.page_core.specs.Values.{values_row};

use crate::values::values_row;
use codes_core::NoMemory;
use posting_core::{Ledger, PostedEntry, past, post_next};
use reports::cause_text;
use reports::sections::{Rows, Value, entry_at, station_name, word_if};
use std::alloc::Global;

/// The most entries that the page shows.
pub(crate) const MOST_SHOWN: usize = 200;

/// The rows of the last entries. They are kept oldest first, and written newest first.
#[derive(Drop)]
pub(crate) struct LastEntries {
    rows: Vec<String>,
}

impl Rows for LastEntries {
    ghost use Rattle.std.specs.Prelude.{map, reverse, string_bytes};

    ghost texts = { λ s. reverse (map string_bytes s.rows.items) };

    fn len(&self) -> usize {
        self.rows.len()
    }

    fn row(&self, alloc: Global, i: usize) -> Result<String, NoMemory> {
        let at = self.rows.len() - 1 - i;
        Ok(String::from_str(alloc, self.rows[at].as_str())?)
    }
}

impl LastEntries {
    /// Makes the rows of the last entries. Fails with `NoMemory`. Takes memory for these rows, and
    /// for a second ledger, to which it posts the entries once more: the cause of an entry depends
    /// on the record before it.
    pub(crate) fn find(alloc: Global, ledger: &Ledger) -> Result<LastEntries, NoMemory>
        ensures { IfOk result (λ found. reverse (map string_bytes found.rows.items)
            ≡ map (entry_text ledger.now) (last_entries ledger.now)) }
    {
        let count = ledger.entry_count() as usize;
        let first = count - count.min(MOST_SHOWN);
        let mut so_far = past(alloc, ledger, first)?;
        let rows = rows_from(alloc, ledger, &mut so_far, first);
        drop(so_far);
        Ok(LastEntries { rows: rows? })
    }
}

/// The rows of the entries from this index on, counted from 0, oldest first. Posts these entries to
/// `so_far`, which has the entries before them.
fn rows_from(
    alloc: Global,
    ledger: &Ledger,
    so_far: &mut Ledger,
    first: usize,
) -> Result<Vec<String>, NoMemory>
    requires within { first ≤ length ledger.now.posted }
    requires before { so_far.old ≡ upto ledger.now first }
    ensures { IfOk result (λ rows. map string_bytes rows.items
        ≡ map (entry_text ledger.now) (range_with_len first (length ledger.now.posted - first))) }
{
    let mut rows = Vec::new(alloc);
    for i in first..ledger.entry_count() as usize {
        rows.push(next_row(alloc, ledger, so_far, i)?)?;
    }
    Ok(rows)
}

/// The row of the entry at this index, from 0. Posts it to `so_far`, which has the entries before
/// it.
fn next_row(
    alloc: Global,
    ledger: &Ledger,
    so_far: &mut Ledger,
    i: usize,
) -> Result<String, NoMemory>
    requires within { i < length ledger.now.posted }
    requires before { so_far.old ≡ upto ledger.now i }
    ensures row { IfOk result (λ row. string_bytes row ≡ entry_text ledger.now i) }
    ensures after { OnOk result (so_far.new ≡ upto ledger.now (i + 1)) }
{
    let entry = entry_at(ledger, i);
    let _ = ledger.entry_count(); // its clause bounds the number of the entry
    let row = entry_row(alloc, so_far, i as u64 + 1, entry)?;
    post_next(alloc, ledger, so_far, i)?;
    Ok(row)
}

/// The row of the entry with this number, by the record before it.
fn entry_row(
    alloc: Global,
    before: &Ledger,
    number: u64,
    entry: &PostedEntry,
) -> Result<String, NoMemory>
    ensures { IfOk result (λ row. string_bytes row
        ≡ page_text (values_row (entry_cells before.now number entry.now))) }
{
    let message = entry.message().to_message(alloc)?;
    let cause = cause_text(alloc, before, &message, entry.verdict())?;
    let station = station_name(before.setup(), entry.station());
    row_with(alloc, number, station, entry, cause.as_str())
}

/// The row of the entry with this number, from this station and with this cause.
fn row_with<'a>(
    alloc: Global,
    number: u64,
    station: &'a str,
    entry: &PostedEntry,
    cause: &'a str,
) -> Result<String, NoMemory>
    ensures { IfOk result (λ row. string_bytes row
        ≡ page_text (values_row (cells_with number station.now entry.now cause.now))) }
{
    let values = [
        Value::Number(number),
        Value::Word(station),
        Value::Number(u64::from(entry.n())),
        Value::Word(entry.verdict().name()),
        word_if(cause),
    ];
    values_row(alloc, &values)
}
