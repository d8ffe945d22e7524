//! Reads a count list.
ghost use Rattle.std.specs.Prelude.{◌≡◌, ◌≢◌, ◌++◌, ◌∷◌, [], length, false, true, None, Some};
ghost use Rattle.std.specs.Prelude.{if◌then◌else◌, OnOk, IfErr, MatchResult};
ghost use Rattle.std.specs.Option.{option_to_list};
ghost use Rattle.std.specs.Str.{is_utf8};
ghost use Rattle.csv.specs.Records.{fields_of};
ghost use Rattle.nest_core.specs.SetupRows.{field_count, rows_of};
ghost use Rattle.count_core.specs.CountRows.{count_fault, count_row, counted, counts_of};
ghost use Rattle.count_core.specs.CountRows.{first_fault, has_codes, is_full, own_fault, row_fault};

use crate::{CountFault, CountRow, MOST_COUNT_ROWS};
use codes_core::{PlaceCode, ThingCode};
use csv::{ByteRecord, ReaderBuilder};
use nest_core::{field, field_count};
use std::alloc::Global;

/// Reads a count list: rows as `csv` returns them, without a header, and with a byte order mark at
/// the start dropped. Each row has a place and, if something was seen there, a thing. Empty fields
/// at a row's end don't count, and a row with no fields left is skipped.
///
/// Faults, in this order: NotCsv, if the bytes aren't UTF-8; then that of the first row with a
/// fault, and in it BadFields, BadCode, TooMany (one row more than [`MOST_COUNT_ROWS`]). NoMemory
/// can come instead of any but NotCsv.
pub fn read_counts(alloc: Global, bytes: &[u8]) -> Result<Vec<CountRow>, CountFault>
    ensures exact { MatchResult result
        (λ rows. (count_fault bytes.now ≡ None) × (rows.items ≡ counts_of (rows_of bytes.now)))
        (λ fault. fault ≢ CountFault.NoMemory → count_fault bytes.now ≡ Some fault) }
    ensures not_csv { is_utf8 bytes.now ≡ false → result ≡ Err CountFault.NotCsv }
{
    let Ok(_) = str::from_utf8(bytes) else {
        return Err(CountFault::NotCsv);
    };
    read_rows(alloc, bytes)
}

/// Reads the rows, up to the first that has a fault.
fn read_rows(alloc: Global, bytes: &[u8]) -> Result<Vec<CountRow>, CountFault>
    ensures { MatchResult result
        (λ rows. (first_fault [] (rows_of bytes.now) ≡ None)
        × (rows.items ≡ counts_of (rows_of bytes.now)))
        (λ fault. fault ≢ CountFault.NoMemory → first_fault [] (rows_of bytes.now) ≡ Some fault) }
{
    let mut kept = Vec::new(alloc);
    let mut reader = ReaderBuilder::new()
        .has_headers(false)
        .flexible(true)
        .from_reader(alloc, bytes);
    let mut row = ByteRecord::new(alloc);
    for number in 1..u64::MAX {
        // Bytes in memory can always be read, so only memory can be lacking.
        let Ok(found) = reader.read_byte_record(&mut row) else {
            return Err(CountFault::NoMemory);
        };
        if !found {
            return Ok(kept);
        }
        add_row(&mut kept, number, &row)?;
    }
    // No memory holds this many rows.
    Err(CountFault::NoMemory)
}

/// Adds row `number`, if it isn't skipped. Faults: BadFields, BadCode, TooMany; NoMemory.
fn add_row(kept: &mut Vec<CountRow>, number: u64, row: &ByteRecord) -> Result<(), CountFault>
    ensures ok { OnOk result (
        (row_fault (length kept.old.items) number (fields_of row.now) ≡ None)
        × (kept.new.items ≡ kept.old.items ++ option_to_list (counted (fields_of row.now)))) }
    ensures fault { IfErr result (λ fault. fault ≢ CountFault.NoMemory
        → row_fault (length kept.old.items) number (fields_of row.now) ≡ Some fault) }
{
    match read_row(number, row)? {
        Some(CountRow { place, object }) => keep(kept, number, place, object),
        None => Ok(()),
    }
}

/// Adds a row, which is number `number` of the file. Faults: TooMany; NoMemory.
fn keep(
    kept: &mut Vec<CountRow>,
    number: u64,
    place: PlaceCode,
    object: Option<ThingCode>,
) -> Result<(), CountFault>
    ensures ok { OnOk result (
        (is_full (length kept.old.items) ≡ false)
        × (kept.new.items ≡ kept.old.items ++ record { place = place; object = object } ∷ [])) }
    ensures fault { IfErr result (λ fault. fault ≢ CountFault.NoMemory
        → (is_full (length kept.old.items) ≡ true) × (fault ≡ CountFault.TooMany number)) }
{
    if kept.len() >= MOST_COUNT_ROWS {
        return Err(CountFault::TooMany(number));
    }
    kept.push(CountRow { place, object })?;
    Ok(())
}

/// Reads row `number`; None if it is skipped. Faults: BadFields, BadCode.
fn read_row(number: u64, row: &ByteRecord) -> Result<Option<CountRow>, CountFault>
    ensures { MatchResult result
        (λ read. (own_fault number (fields_of row.now) ≡ None)
        × (read ≡ counted (fields_of row.now)))
        (λ fault. own_fault number (fields_of row.now) ≡ Some fault) }
{
    let fields = field_count(row);
    if fields == 0 {
        return Ok(None);
    }
    if fields > 2 {
        return Err(CountFault::BadFields(number));
    }
    match count_row(row, fields) {
        Some(counted) => Ok(Some(counted)),
        None => Err(CountFault::BadCode(number)),
    }
}

/// Reads the codes of a row with this many fields; None if one is wrong.
fn count_row(row: &ByteRecord, fields: usize) -> Option<CountRow>
    requires { fields ≡ field_count (fields_of row.now) }
    ensures { result ≡ (if has_codes (fields_of row.now) then Some (count_row (fields_of row.now))
        else None) }
{
    let place = PlaceCode::parse(field(row, 0)).ok()?;
    if fields <= 1 {
        return Some(CountRow {
            place,
            object: None,
        });
    }
    let thing = ThingCode::parse(field(row, 1)).ok()?;
    Some(CountRow {
        place,
        object: Some(thing),
    })
}
