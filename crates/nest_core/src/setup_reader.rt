//! Reads a setup file.
ghost use Rattle.std.specs.Prelude.{◌≡◌, ◌≢◌, ◌⊎◌, [], true, false, None, Some, OnOk, IfErr};
ghost use Rattle.std.specs.Prelude.{MatchResult};
ghost use Rattle.std.specs.Str.{is_utf8};
ghost use Rattle.csv.specs.Reading.{has_failed};
ghost use Rattle.csv.specs.Records.{fields_of};
ghost use Rattle.nest_core.specs.Museum.{no_museum};
ghost use Rattle.nest_core.specs.SetupRows.{CanBeListed, first_fault, museum_of, row_fault};
ghost use Rattle.nest_core.specs.SetupRows.{rows_of, setup_fault, with_row};
ghost use Rattle.nest_core.specs.RowReading.{ReadsRows};

use crate::setup::Setup;
use crate::setup_fault::SetupFault;
use crate::setup_row::SetupRow;
use csv::{ByteRecord, Reader, ReaderBuilder};
use std::alloc::Global;

impl Setup {
    /// Returns the setup that the bytes list, with one station, place, container, own object or
    /// borrowed object in a row. The rows are those of `csv`, without a header and after at most
    /// one byte order mark. Empty fields at the end of a row don't count, and a row without any
    /// field is skipped.
    ///
    /// Fails with the first of these that applies: `NotCsv`; for the first row with a fault, the
    /// first of `BadKind`, `BadFields`, `BadCode`, `Repeated`, `UnknownNormal` and `TooMany`;
    /// `NoStation`. `NoMemory` may come instead of any of these but `NotCsv`.
    pub fn read(alloc: Global, bytes: &[u8]) -> Result<Setup, SetupFault>
        ensures exact { MatchResult result
            (λ setup. (setup_fault bytes.now ≡ None) × (setup ≡ museum_of (rows_of bytes.now)))
            (λ fault. fault ≢ SetupFault.NoMemory → setup_fault bytes.now ≡ Some fault) }
        ensures not_csv { is_utf8 bytes.now ≡ false → result ≡ Err SetupFault.NotCsv }
    {
        let Ok(_) = str::from_utf8(bytes) else {
            return Err(SetupFault::NotCsv);
        };
        let setup = read_rows(alloc, bytes)?;
        if setup.stations() == 0 {
            return Err(SetupFault::NoStation);
        }
        Ok(setup)
    }
}

/// Returns the setup that the rows list. Fails with the fault of the first row that has one, or
/// with `NoMemory`.
fn read_rows(alloc: Global, bytes: &[u8]) -> Result<Setup, SetupFault>
    ensures { MatchResult result
        (λ setup. (first_fault [] (rows_of bytes.now) ≡ None)
        × (setup ≡ museum_of (rows_of bytes.now)))
        (λ fault. fault ≢ SetupFault.NoMemory → first_fault [] (rows_of bytes.now) ≡ Some fault) }
{
    let mut setup = Setup::new(alloc);
    let mut reader = ReaderBuilder::new()
        .has_headers(false)
        .flexible(true)
        .from_reader(alloc, bytes);
    let mut row = ByteRecord::new(alloc);
    add_rows(&mut setup, &mut reader, &mut row, bytes)?;
    Ok(setup)
}

/// Adds the items that the rows list to an empty setup, and reads each row into `row`. Fails with
/// the fault of the first row that has one. Fails with `NoMemory` if the reader ran out of memory,
/// or if a row without a fault couldn't be added.
fn add_rows(
    setup: &mut Setup,
    reader: &mut Reader<&[u8]>,
    row: &mut ByteRecord,
    bytes: &[u8],
) -> Result<(), SetupFault>
    requires empty { setup.old ≡ no_museum }
    requires reads { ReadsRows reader.old bytes.now }
    ensures exact { MatchResult result
        (λ _. (first_fault [] (rows_of bytes.now) ≡ None)
        × (setup.new ≡ museum_of (rows_of bytes.now)))
        (λ fault. fault ≢ SetupFault.NoMemory → first_fault [] (rows_of bytes.now) ≡ Some fault) }
    ensures gives_up { result ≡ Err SetupFault.NoMemory
        → (has_failed reader.new ≡ true) ⊎ CanBeListed setup.new (fields_of row.new) }
{
    // Each row has at least one byte, so there are no more rows than bytes.
    for before in 0..bytes.len() as u64 {
        match reader.read_byte_record(row) {
            Ok(true) => add_row(setup, before + 1, row)?,
            Ok(false) => return Ok(()),
            Err(_) => return Err(SetupFault::NoMemory),
        }
    }
    Ok(())
}

/// Adds the item that row `number` lists, unless the row is skipped. Fails with the row's first
/// fault, or with `NoMemory` if it has none.
fn add_row(setup: &mut Setup, number: u64, row: &ByteRecord) -> Result<(), SetupFault>
    ensures ok { OnOk result
        ((row_fault setup.old number (fields_of row.now) ≡ None)
        × (setup.new ≡ with_row setup.old (fields_of row.now))) }
    ensures fault { IfErr result
        (λ fault. fault ≢ SetupFault.NoMemory
        → row_fault setup.old number (fields_of row.now) ≡ Some fault) }
    ensures gives_up { result ≡ Err SetupFault.NoMemory
        → CanBeListed setup.new (fields_of row.now) }
{
    match SetupRow::read(number, row)? {
        Some(item) => setup.add(number, item),
        None => Ok(()),
    }
}
