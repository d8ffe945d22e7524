//! All faults of a count list.
ghost use Rattle.std.specs.Prelude.{◌≡◌, ◌+◌, ◌<◌, ◌++◌, [], IfOk, OnOk, length};
ghost use Rattle.std.specs.Option.{option_to_list};
ghost use Rattle.csv.specs.Records.{fields_of};
ghost use Rattle.nest_core.specs.RowReading.{ReadsRows};
ghost use Rattle.nest_core.specs.SetupRows.{field_count, rows_of};
ghost use Rattle.count_core.specs.CountRows.{counted, counts_of, has_codes, row_fault};
ghost use Rattle.count_core.specs.CountChecks.{count_faults, row_count, row_faults};

use crate::{CountFault, MOST_COUNT_ROWS};
use codes_core::{NoMemory, PlaceCode, ThingCode};
use csv::{ByteRecord, Reader, ReaderBuilder};
use nest_core::{field, field_count};
use std::alloc::Global;

/// What a check of a count list found.
#[derive(Drop)]
pub struct CountsCheck {
    /// The number of rows, without the skipped ones.
    pub rows: u64,
    /// The faults, in the order of their rows.
    pub faults: Vec<CountFault>,
}

/// Returns all faults of a count list, and the number of its rows, not counting skipped ones. The
/// rows are those of `read_counts`.
///
/// The faults are `NotCsv` alone, with no row, if the bytes aren't UTF-8. Otherwise each row has at
/// most one, the first of `BadFields`, `BadCode` and `TooMany` that applies. Rows with a fault
/// count towards the limit of [`MOST_COUNT_ROWS`]. The first fault is the one with which
/// `read_counts` rejects the list (see [`laws`](crate::check_laws)). Fails with `NoMemory`.
pub fn check_counts(alloc: Global, bytes: &[u8]) -> Result<CountsCheck, NoMemory>
    ensures rows { IfOk result (λ check. check.rows ≡ row_count bytes.now) }
    ensures faults { IfOk result (λ check. check.faults.items ≡ count_faults bytes.now) }
{
    let Ok(_) = str::from_utf8(bytes) else {
        let faults = vec![in alloc; CountFault::NotCsv]?;
        return Ok(CountsCheck { rows: 0, faults });
    };
    check_text(alloc, bytes)
}

/// Checks the rows. Fails with `NoMemory`.
fn check_text(alloc: Global, bytes: &[u8]) -> Result<CountsCheck, NoMemory>
    ensures rows { IfOk result (λ check. check.rows ≡ length (counts_of (rows_of bytes.now))) }
    ensures faults { IfOk result
        (λ check. check.faults.items ≡ row_faults [] (rows_of bytes.now)) }
{
    let mut check = CountsCheck {
        rows: 0,
        faults: Vec::new(alloc),
    };
    let mut reader = ReaderBuilder::new()
        .has_headers(false)
        .flexible(true)
        .from_reader(alloc, bytes);
    let mut row = ByteRecord::new(alloc);
    check_rows(&mut check, &mut reader, &mut row, bytes)?;
    Ok(check)
}

/// Checks the rows, and reads each into `row`. Fails with `NoMemory`.
fn check_rows(
    check: &mut CountsCheck,
    reader: &mut Reader<&[u8]>,
    row: &mut ByteRecord,
    bytes: &[u8],
) -> Result<(), NoMemory>
    requires no_rows { check.old.rows ≡ 0 }
    requires no_faults { check.old.faults.items ≡ [] }
    requires reads { ReadsRows reader.old bytes.now }
    ensures rows { OnOk result (check.new.rows ≡ length (counts_of (rows_of bytes.now))) }
    ensures faults { OnOk result (check.new.faults.items ≡ row_faults [] (rows_of bytes.now)) }
{
    // Each row has at least one byte, so there are no more rows than bytes.
    for before in 0..bytes.len() as u64 {
        match reader.read_byte_record(row) {
            Ok(true) => add_row(check, before + 1, row)?,
            Ok(false) => return Ok(()),
            Err(_) => return Err(NoMemory),
        }
    }
    Ok(())
}

/// Counts row `number`, unless it is skipped, and adds its first fault to the faults. Fails with
/// `NoMemory`.
fn add_row(check: &mut CountsCheck, number: u64, row: &ByteRecord) -> Result<(), NoMemory>
    requires { check.old.rows < number }
    ensures rows { OnOk result (check.new.rows
        ≡ check.old.rows + length (option_to_list (counted (fields_of row.now)))) }
    ensures faults { OnOk result (check.new.faults.items
        ≡ check.old.faults.items
        ++ option_to_list (row_fault check.old.rows number (fields_of row.now))) }
{
    if field_count(row) == 0 {
        return Ok(());
    }
    if let Some(fault) = row_fault(check.rows, number, row) {
        check.faults.push(fault)?;
    }
    check.rows += 1;
    Ok(())
}

/// The first fault of row `number`, which comes after this many rows that aren't skipped.
fn row_fault(above: u64, number: u64, row: &ByteRecord) -> Option<CountFault>
    ensures { result ≡ row_fault above number (fields_of row.now) }
{
    let fields = field_count(row);
    if fields == 0 {
        return None;
    }
    if fields > 2 {
        return Some(CountFault::BadFields(number));
    }
    if !has_codes(row, fields) {
        return Some(CountFault::BadCode(number));
    }
    if above >= MOST_COUNT_ROWS as u64 {
        return Some(CountFault::TooMany(number));
    }
    None
}

/// Whether the codes of a row with this many fields are valid.
fn has_codes(row: &ByteRecord, fields: usize) -> bool
    requires { fields ≡ field_count (fields_of row.now) }
    ensures { result ≡ has_codes (fields_of row.now) }
{
    PlaceCode::parse(field(row, 0)).is_ok()
        && (fields < 2 || ThingCode::parse(field(row, 1)).is_ok())
}
