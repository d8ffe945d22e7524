//! The posted entries.
ghost use Rattle.std.specs.Prelude.{◌≡◌, ◌<◌, All, IfOk, length, map};
ghost use Rattle.reports.specs.EntryFilters.{posted_rows, wanted};
ghost use Rattle.reports.specs.Stations.{entry_row, entry_row_at};
ghost use Rattle.reports.specs.Cells.{cell_of};

use crate::field::Field;
use crate::reports::entry_filter::is_wanted;
use crate::rows::Rows;
use crate::sections::{entry_at, station_name};
use crate::{EntryFilter, Form};
use codes_core::NoMemory;
use nest_core::Setup;
use posting_core::{Ledger, PostedEntry};
use register_store::message_text;
use std::alloc::Global;

/// The entries that a list has, oldest first, by index from 0.
#[derive(Drop)]
pub(crate) struct Posted<'a> {
    ledger: &'a Ledger,
    entries: Vec<usize>,
    ghost within: { All (λ i. i < length ledger.now.posted) entries.items },
}

impl<'a> Rows for Posted<'a> {
    ghost use Rattle.std.specs.Prelude.{map};
    ghost use Rattle.reports.specs.Stations.{entry_row_at};

    ghost rows = { λ s form. map (entry_row_at s.ledger.now) s.entries.items };

    fn len(&self, _form: Form) -> usize {
        self.entries.len()
    }

    fn row(&self, alloc: Global, _form: Form, i: usize) -> Result<Vec<Field<'_>>, NoMemory> {
        entry_row_at(alloc, self.ledger, self.entries[i])
    }
}

impl<'a> Posted<'a> {
    /// Finds the entries that the list has.
    pub(crate) fn find(
        alloc: Global,
        ledger: &'a Ledger,
        filter: &EntryFilter,
    ) -> Result<Posted<'a>, NoMemory>
        ensures { IfOk result (λ found. map (entry_row_at found.ledger.now) found.entries.items
            ≡ posted_rows ledger.entry.now filter.now) }
    {
        let entries = wanted(alloc, ledger, filter)?;
        Ok(Posted { ledger, entries })
    }
}

/// The indexes of the entries that the list has.
fn wanted(alloc: Global, ledger: &Ledger, asked: &EntryFilter) -> Result<Vec<usize>, NoMemory>
    ensures entries { IfOk result (λ found. found.items ≡ wanted ledger.now asked.now) }
    ensures within { IfOk result
        (λ found. All (λ i. i < length ledger.now.posted) found.items) }
{
    let mut found = Vec::new(alloc);
    for i in 0..ledger.entry_count() as usize {
        if is_wanted(
            alloc,
            ledger.setup(),
            asked,
            i as u64 + 1,
            entry_at(ledger, i),
        )? {
            found.push(i)?;
        }
    }
    Ok(found)
}

/// The row of the entry at this index, from 0.
fn entry_row_at<'a>(
    alloc: Global,
    ledger: &'a Ledger,
    at: usize,
) -> Result<Vec<Field<'a>>, NoMemory>
    requires { at < length ledger.now.posted }
    ensures { IfOk result (λ row. map cell_of row.items ≡ entry_row_at ledger.entry.now at) }
{
    let _ = ledger.entry_count();
    entry_row(alloc, ledger.setup(), at as u64 + 1, entry_at(ledger, at))
}

fn entry_row<'a>(
    alloc: Global,
    setup: &'a Setup,
    number: u64,
    entry: &PostedEntry,
) -> Result<Vec<Field<'a>>, NoMemory>
    ensures { IfOk result
        (λ row. map cell_of row.items ≡ entry_row setup.entry.now number entry.now) }
{
    let message = entry.message().to_message(alloc)?;
    let text = message_text(alloc, &message)?;
    Ok(vec![in alloc;
        Field::Number(number),
        Field::Word(station_name(setup, entry.station())),
        Field::Number(u64::from(entry.n())),
        Field::Word(entry.verdict().name()),
        Field::Json(text),
    ]?)
}
