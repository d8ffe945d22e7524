//! The `help:` lines about the rows of setup files and count lists: the field that is wrong, and
//! what it has to be.

use crate::advice::{Advice, on_encoding};
use crate::growth_fault::row_of;
use codes_core::{PlaceCode, ThingCode, add_quoted};
use count_core::CountFault;
use csv::{ByteRecord, Reader, ReaderBuilder};
use nest_core::{GrowFault, MOST_GROWTHS, SetupFault, field, field_count};
use std::alloc::{AllocError, Global};

/// Returns the advice on a faulty setup file: the field that is wrong, and what it has to be.
pub fn on_setup(alloc: Global, path: &str, bytes: &[u8], fault: SetupFault) -> Advice {
    match fault.row() {
        Some(number) => {
            let mut rows = FileRows::of(alloc, bytes);
            let row = rows.row(number)?;
            let mut text = format!(in alloc; "{path} row {number}: ").ok()?;
            add_on_setup_row(&mut text, row, fault).ok()?;
            Some(text)
        }
        None => on_whole_setup(alloc, path, fault),
    }
}

/// The advice on a fault of a whole setup file.
fn on_whole_setup(alloc: Global, path: &str, fault: SetupFault) -> Advice {
    match fault {
        SetupFault::NoStation => format!(in alloc; "{path} has no row station,NAME").ok(),
        _ => on_encoding(alloc, path),
    }
}

/// What the rows of a setup file are read beside.
#[derive(Clone, Copy, PartialEq, Eq)]
pub enum Beside {
    /// The file is a whole setup.
    Nothing,
    /// The rows are added to the setup of a record.
    Record,
}

/// Returns the advice on one of the faults of a setup file: the field that is wrong, and what it
/// has to be. `rows` are those of the file, not read beyond the row of the fault.
pub fn on_growth(
    alloc: Global,
    path: &str,
    rows: &mut FileRows<'_>,
    fault: GrowFault,
    beside: Beside,
) -> Advice {
    match row_of(fault) {
        Some(number) => {
            let row = rows.row(number)?;
            let mut text = format!(in alloc; "{path} row {number}: ").ok()?;
            add_on_further_row(&mut text, row, fault, beside).ok()?;
            Some(text)
        }
        None => match fault {
            GrowFault::TooManyGrowths => {
                format!(in alloc; "a setup can grow {MOST_GROWTHS} times: begin a new store").ok()
            }
            GrowFault::Setup(fault) => on_whole_setup(alloc, path, fault),
            GrowFault::OtherSide(_) => None,
        },
    }
}

/// Appends the error in a row of a setup file.
fn add_on_further_row(
    text: &mut String,
    row: &ByteRecord,
    fault: GrowFault,
    beside: Beside,
) -> Result<(), AllocError> {
    match fault {
        GrowFault::OtherSide(_) => add_on_other_side(text, row),
        GrowFault::Setup(SetupFault::UnknownNormal(_)) if beside == Beside::Record => {
            add_field(text, row, 2)?;
            text.push_str(" is neither on record nor listed above: list a place before its objects")
        }
        GrowFault::Setup(fault) => add_on_setup_row(text, row, fault),
        GrowFault::TooManyGrowths => Ok(()),
    }
}

/// Appends that the store has the place with the other word.
fn add_on_other_side(text: &mut String, row: &ByteRecord) -> Result<(), AllocError> {
    add_field(text, row, 1)?;
    text.push_str(" is on record as ")?;
    text.push_str(match field(row, 2) {
        b"inside" => "elsewhere",
        _ => "inside",
    })?;
    text.push_str(", which can't change: give the new place another code")
}

/// Returns the advice on a fault of a count list: the field that is wrong, and what it has to be.
/// `rows` are those of the list, not read beyond the row of the fault.
pub fn on_count(alloc: Global, path: &str, rows: &mut FileRows<'_>, fault: CountFault) -> Advice {
    let Some(number) = fault.row() else {
        return on_encoding(alloc, path);
    };
    let row = rows.row(number)?;
    let mut text = format!(in alloc; "{path} row {number}: ").ok()?;
    add_on_count_row(&mut text, row, fault).ok()?;
    Some(text)
}

/// The rows of a CSV file, which are read once, from the first to the last.
#[derive(Drop)]
pub struct FileRows<'a> {
    reader: Reader<&'a [u8]>,
    row: ByteRecord,
    number: u64,
}

impl<'a> FileRows<'a> {
    /// The rows of these bytes.
    pub fn of(alloc: Global, bytes: &'a [u8]) -> FileRows<'a> {
        FileRows {
            reader: ReaderBuilder::new()
                .has_headers(false)
                .flexible(true)
                .from_reader(alloc, bytes),
            row: ByteRecord::new(alloc),
            number: 0,
        }
    }

    /// Reads on up to row `number`, counted from 1, and returns it. None if there is no such row,
    /// or if memory runs out. A row before the last that was read is not read again.
    fn row(&mut self, number: u64) -> Option<&ByteRecord> {
        for _ in self.number..number {
            if !matches!(self.reader.read_byte_record(&mut self.row), Ok(true)) {
                return None;
            }
        }
        self.number = number;
        Some(&self.row)
    }
}

/// Appends the error in a row of a setup.
fn add_on_setup_row(
    text: &mut String,
    row: &ByteRecord,
    fault: SetupFault,
) -> Result<(), AllocError> {
    match fault {
        SetupFault::BadKind(_) => {
            add_field(text, row, 0)?;
            text.push_str(" is not station, place, box, own or lent")?;
            add_separator(text, row)
        }
        SetupFault::BadFields(_) => {
            add_fields(text, row)?;
            text.push_str(": write ")?;
            text.push_str(shape(field(row, 0)))?;
            add_separator(text, row)
        }
        SetupFault::BadCode(_) => add_bad_code(text, row),
        SetupFault::UnknownNormal(_) => {
            add_field(text, row, 2)?;
            text.push_str(" is not listed above: list a place before its objects")
        }
        SetupFault::Repeated(_) => {
            add_field(text, row, 1)?;
            text.push_str(" is listed twice: delete one row")
        }
        _ => {
            add_field(text, row, 1)?;
            text.push_str(" exceeds the limit of 64 stations, 10000 places and 100000 things")
        }
    }
}

/// The fields of a row of this kind.
fn shape(kind: &[u8]) -> &'static str {
    match str::from_utf8(kind) {
        Ok("station") => "station,NAME",
        Ok("place") => "place,CODE,inside or place,CODE,elsewhere",
        Ok("box") => "box,CODE",
        Ok("own") => "own,OBJECT,PLACE",
        _ => "lent,OBJECT",
    }
}

/// Appends which code of a setup row is wrong, and the form that it has to have.
fn add_bad_code(text: &mut String, row: &ByteRecord) -> Result<(), AllocError> {
    let (at, wanted) = match str::from_utf8(field(row, 0)) {
        Ok("station") => (1, "a station's name: 1 to 16 of A-Z, a-z, 0-9 and -"),
        Ok("place") => (1, PLACE),
        Ok("box") => (1, "a container's code such as C17"),
        Ok("own") if ThingCode::parse(field(row, 1)).is_ok_and(is_own) => (2, PLACE),
        Ok("own") => (1, "the number of an own object such as 2001.4.1"),
        _ => (1, "the number of a borrowed object such as L1999.7"),
    };
    add_unlike(text, row, at, wanted)
}

/// The form of a place's code.
const PLACE: &str = "a place's code such as S1 or S1-A";

/// Whether this is an own object's code.
fn is_own(code: ThingCode) -> bool {
    matches!(code.kind(), codes_core::ThingKind::Own)
}

/// Appends the error in a row of a count list.
fn add_on_count_row(
    text: &mut String,
    row: &ByteRecord,
    fault: CountFault,
) -> Result<(), AllocError> {
    match fault {
        CountFault::BadFields(_) => {
            add_fields(text, row)?;
            text.push_str(": write PLACE,THING or PLACE")
        }
        CountFault::BadCode(_) if PlaceCode::parse(field(row, 0)).is_err() => {
            add_unlike(text, row, 0, PLACE)?;
            add_separator(text, row)
        }
        CountFault::BadCode(_) => {
            add_unlike(text, row, 1, "a thing's code such as 2001.4.1 or C17")
        }
        _ => text.push_str("a list has at most 100000 rows"),
    }
}

/// Appends a field, and what it has to be.
fn add_unlike(
    text: &mut String,
    row: &ByteRecord,
    at: usize,
    wanted: &str,
) -> Result<(), AllocError> {
    add_field(text, row, at)?;
    text.push_str(" is not ")?;
    text.push_str(wanted)
}

/// Appends a field in quotes.
fn add_field(text: &mut String, row: &ByteRecord, at: usize) -> Result<(), AllocError> {
    add_quoted(text, str::from_utf8(field(row, at)).unwrap_or(""))
}

/// Appends all fields in quotes.
fn add_fields(text: &mut String, row: &ByteRecord) -> Result<(), AllocError> {
    for at in 0..field_count(row) {
        if at > 0 {
            text.push_str(", ")?;
        }
        add_field(text, row, at)?;
    }
    Ok(())
}

/// Appends that the fields need commas, if the row seems to have semicolons or tabs.
fn add_separator(text: &mut String, row: &ByteRecord) -> Result<(), AllocError> {
    if field(row, 0).contains(&b';') || field(row, 0).contains(&b'\t') {
        return text.push_str("; separate the fields by commas");
    }
    Ok(())
}
