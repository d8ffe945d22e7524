//! Reads the messages of a table.
ghost use Rattle.std.specs.Prelude.{MatchResult};
ghost use Rattle.table_core.specs.Tables.{IsTable, IsTableFault, texts_of};
ghost use Rattle.table_core.specs.SheetLines.{IsLines, IsLinesFault, coded_rows};

use crate::printed::coded_rows::{coded_rows, first_row};
use crate::{Labels, LinesFault, Table, TableFault, TableOptions, read_sheet, read_table};
use std::alloc::Global;

/// The messages of a table, and its heading.
#[derive(Drop)]
pub struct SheetLines {
    pub table: Table,
    /// The fields of the heading, as they are.
    pub heading: Vec<String>,
}

/// Returns the numbered messages of a table. A cell below the heading that is a label stands for
/// the label's code; blanks at its ends don't count then.
///
/// Fails with the table's fault (`Sheet`), otherwise with the heading's first fault (`Heading`),
/// otherwise with all faults of all rows (`Rows`). `NoMemory` can come instead of any.
pub fn read_lines(
    alloc: Global,
    options: &TableOptions,
    labels: &Labels,
    bytes: &[u8],
) -> Result<SheetLines, LinesFault>
    ensures exact { MatchResult result (IsLines options.now labels.now bytes.now)
        (IsLinesFault options.now labels.now bytes.now) }
{
    let rows = read_sheet(alloc, bytes)?;
    let table = read_coded(alloc, options, labels, rows.as_slice())?;
    let heading = first_row(alloc, rows.as_slice())?;
    Ok(SheetLines { table, heading })
}

/// Returns the messages of these rows, with codes in place of labels. Without labels no row is
/// copied. Fails as [`read_table`] does.
fn read_coded(
    alloc: Global,
    options: &TableOptions,
    labels: &Labels,
    rows: &[Vec<String>],
) -> Result<Table, TableFault>
    ensures { MatchResult result
        (IsTable options.now (coded_rows labels.now (texts_of rows.now)))
        (IsTableFault options.now (coded_rows labels.now (texts_of rows.now))) }
{
    if labels.is_empty() {
        return read_table(alloc, options, rows);
    }
    let coded = coded_rows(alloc, labels, rows)?;
    read_table(alloc, options, coded.as_slice())
}
