//! One row of a setup file: its fields, and the item that it lists.
ghost use Rattle.std.specs.Prelude.{◌≡◌, ◌≢◌, ◌==◌, is_none, true, None, Some, IfOk, IfErr};
ghost use Rattle.std.specs.Prelude.{IfSome, if◌then◌else◌};
ghost use Rattle.csv.specs.Records.{fields_of};
ghost use Rattle.nest_core.specs.SetupRows.{field, field_count, fields_of_kind, has_word};
ghost use Rattle.nest_core.specs.SetupRows.{has_codes, is_thing_code, is_place_code, is_right};
ghost use Rattle.nest_core.specs.SetupRows.{item_of, listed, own_fault, row_kind};

use crate::setup_fault::SetupFault;
use crate::station_name::StationName;
use codes_core::{PlaceCode, ThingCode, ThingKind};
use csv::ByteRecord;

/// The kind of item that a row lists, by the word in its first field. `box` is a container, `own`
/// an own object, and `lent` a borrowed one.
#[derive(Clone, Copy)]
pub(crate) enum RowKind {
    Station,
    Place,
    Box,
    Own,
    Lent,
}

/// The item that a row lists: a station; a place, and whether it is inside the museum; or a thing,
/// with its normal location if it is an own object.
#[derive(Clone, Copy)]
pub(crate) enum SetupRow {
    Station(StationName),
    Place(PlaceCode, bool),
    Thing(ThingCode, Option<PlaceCode>),
}

/// Field `i` of a row, from 0. Empty if the row is shorter.
pub fn field(row: &ByteRecord, i: usize) -> &[u8]
    ensures { result.now ≡ field (fields_of row.now) i }
{
    row.get(i).unwrap_or(&[])
}

/// The number of fields in a row, without the empty ones at its end.
pub fn field_count(row: &ByteRecord) -> usize
    ensures { result ≡ field_count (fields_of row.now) }
{
    let mut count = 0;
    for i in 0..row.len() {
        if !field(row, i).is_empty() {
            count = i + 1;
        }
    }
    count
}

/// The kind of item that a row lists, by its first field. `None` for any other word.
fn row_kind(word: &[u8]) -> Option<RowKind>
    ensures { result ≡ row_kind word.now }
{
    if word == "station".as_bytes() {
        Some(RowKind::Station)
    } else if word == "place".as_bytes() {
        Some(RowKind::Place)
    } else if word == "box".as_bytes() {
        Some(RowKind::Box)
    } else if word == "own".as_bytes() {
        Some(RowKind::Own)
    } else if word == "lent".as_bytes() {
        Some(RowKind::Lent)
    } else {
        None
    }
}

/// The number of fields that a row of this kind has, the first one included.
fn fields_of_kind(kind: RowKind) -> usize
    ensures { result ≡ fields_of_kind kind }
{
    match kind {
        RowKind::Station | RowKind::Box | RowKind::Lent => 2,
        RowKind::Place | RowKind::Own => 3,
    }
}

/// Whether the third field of a place's row is `inside` or `elsewhere`. True for rows of other
/// kinds.
fn has_word(kind: RowKind, row: &ByteRecord) -> bool
    ensures { result ≡ has_word kind (fields_of row.now) }
{
    match kind {
        RowKind::Place => {
            let word = field(row, 2);
            word == "inside".as_bytes() || word == "elsewhere".as_bytes()
        }
        _ => true,
    }
}

/// The code that the bytes spell, if it is that of a thing of this kind.
fn thing_code(bytes: &[u8], kind: ThingKind) -> Option<ThingCode>
    ensures { result ≡ (if is_thing_code kind bytes.now then Some bytes.now else None) }
{
    match ThingCode::parse(bytes) {
        Ok(code) if code.kind() == kind => Some(code),
        _ => None,
    }
}

/// The code that the bytes spell, if it is a place's.
fn place_code(bytes: &[u8]) -> Option<PlaceCode>
    ensures { result ≡ (if is_place_code bytes.now then Some bytes.now else None) }
{
    PlaceCode::parse(bytes).ok()
}

/// The item that a row of this kind lists. `None` if its name, or one of its codes, isn't valid for
/// this kind.
fn listed(kind: RowKind, row: &ByteRecord) -> Option<SetupRow>
    ensures { result
        ≡ (if has_codes kind (fields_of row.now) then Some (listed kind (fields_of row.now))
        else None) }
{
    let code = field(row, 1);
    match kind {
        RowKind::Station => Some(SetupRow::Station(StationName::parse(code)?)),
        RowKind::Place => {
            let place = place_code(code)?;
            let inside = field(row, 2) == "inside".as_bytes();
            Some(SetupRow::Place(place, inside))
        }
        RowKind::Box => {
            let thing = thing_code(code, ThingKind::Container)?;
            Some(SetupRow::Thing(thing, None))
        }
        RowKind::Own => {
            let thing = thing_code(code, ThingKind::Own)?;
            let normal = place_code(field(row, 2))?;
            Some(SetupRow::Thing(thing, Some(normal)))
        }
        RowKind::Lent => {
            let thing = thing_code(code, ThingKind::Borrowed)?;
            Some(SetupRow::Thing(thing, None))
        }
    }
}

impl SetupRow {
    /// Returns the item that row `number` lists, or `None` if the row has no fields and is skipped.
    /// Fails with the first of `BadKind`, `BadFields` and `BadCode` that applies.
    pub fn read(number: u64, row: &ByteRecord) -> Result<Option<SetupRow>, SetupFault>
        ensures ok { IfOk result
            (λ read. (own_fault number (fields_of row.now) ≡ None)
            × (read ≡ item_of (fields_of row.now))) }
        ensures right { IfOk result (λ read. IfSome read (λ item. is_right item ≡ true)) }
        ensures skips { IfOk result
            (λ read. (field_count (fields_of row.now) == 0) ≡ is_none read) }
        ensures told { IfErr result (λ fault. fault ≢ SetupFault.NoMemory) }
        ensures fault { IfErr result
            (λ fault. own_fault number (fields_of row.now) ≡ Some fault) }
    {
        let count = field_count(row);
        if count == 0 {
            return Ok(None);
        }
        let Some(kind) = row_kind(field(row, 0)) else {
            return Err(SetupFault::BadKind(number));
        };
        if count != fields_of_kind(kind) || !has_word(kind, row) {
            return Err(SetupFault::BadFields(number));
        }
        match listed(kind, row) {
            Some(item) => Ok(Some(item)),
            None => Err(SetupFault::BadCode(number)),
        }
    }
}
