//! Reads the rows of a table.
ghost use Rattle.std.specs.Prelude.{◌≡◌, ◌≢◌, ◌<◌, None, Some, MatchResult, length, map, slice_get};
ghost use Rattle.std.specs.Prelude.{string_bytes};
ghost use Rattle.csv.specs.Reading.{records, strip_bom};
ghost use Rattle.csv.specs.Records.{fields_of};
ghost use Rattle.table_core.specs.Sheets.{parted_by, sheet_fault, sheet_rows, texts_of};

use crate::heading::{heading, is_utf16, separator};
use crate::sheet_fault::SheetFault;
use csv::{ReaderBuilder, StringRecord};
use std::alloc::Global;

/// Returns the rows of a table, each as its fields. Row 1 is the heading, which is the first line.
///
/// The separator is the one of comma, semicolon and tab that the heading has outside quotes. If it
/// has none, each row has one field. The rows are those of `csv` with this separator: fields in
/// quotes may have separators, line ends and doubled quotes, lines end with a line feed, a carriage
/// return or both, and empty lines are skipped. A byte order mark at the start is dropped.
///
/// Fails with the first of `Utf16`, `NotUtf8`, `Empty` and `TwoSeparators` that applies. `NoMemory`
/// can come instead of any.
pub fn read_sheet(alloc: Global, bytes: &[u8]) -> Result<Vec<Vec<String>>, SheetFault>
    ensures exact { MatchResult result
        (λ rows. (sheet_fault bytes.now ≡ None) × (texts_of rows.items ≡ sheet_rows bytes.now))
        (λ fault. fault ≢ SheetFault.NoMemory → sheet_fault bytes.now ≡ Some fault) }
{
    if is_utf16(bytes) {
        return Err(SheetFault::Utf16);
    }
    let Ok(_) = str::from_utf8(bytes) else {
        return Err(SheetFault::NotUtf8);
    };
    if heading(bytes).is_empty() {
        return Err(SheetFault::Empty);
    }
    match separator(bytes) {
        Some(separator) => read_rows(alloc, separator, bytes),
        None => Err(SheetFault::TwoSeparators),
    }
}

/// Returns the rows with this separator. Fault: `NoMemory`.
fn read_rows(alloc: Global, separator: u8, bytes: &[u8]) -> Result<Vec<Vec<String>>, SheetFault>
    ensures { MatchResult result
        (λ rows. texts_of rows.items ≡ records (parted_by separator) (strip_bom bytes.now))
        (λ fault. fault ≡ SheetFault.NoMemory) }
{
    let mut rows = Vec::new(alloc);
    let mut reader = ReaderBuilder::new()
        .has_headers(false)
        .flexible(true)
        .delimiter(separator)
        .from_reader(alloc, bytes);
    let mut record = StringRecord::new(alloc);
    for _turn in 0..u64::MAX {
        // Bytes in memory can always be read, and each field of a text is a text, so only memory
        // can be lacking.
        let Ok(found) = reader.read_record(&mut record) else {
            return Err(SheetFault::NoMemory);
        };
        if !found {
            return Ok(rows);
        }
        let row = row_of(alloc, &record)?;
        rows.push(row)?;
    }
    // No memory holds this many rows.
    Err(SheetFault::NoMemory)
}

/// The fields of a record. Fault: `NoMemory`.
fn row_of(alloc: Global, read: &StringRecord) -> Result<Vec<String>, SheetFault>
    ensures { MatchResult result
        (λ row. map string_bytes row.items ≡ fields_of read.now)
        (λ fault. fault ≡ SheetFault.NoMemory) }
{
    let mut row = Vec::new(alloc);
    for i in 0..read.len() {
        let text = String::from_str(alloc, field(read, i))?;
        row.push(text)?;
    }
    Ok(row)
}

/// A field of the record, which must have one at this index.
fn field(read: &StringRecord, i: usize) -> &str
    requires { i < length (fields_of read.now) }
    ensures { slice_get (fields_of read.now) i ≡ Some result.now }
{
    read.get(i).unwrap()
}
