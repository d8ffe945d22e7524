//! The rows of the table `place`.
ghost use Rattle.std.specs.Prelude.{◌≡◌, ◌<◌, ◌≤◌, IfOk, length, map, string_bytes, take};
ghost use Rattle.std.specs.List.{range_with_len};
ghost use Rattle.reports.specs.Values.{value_of};
ghost use Rattle.export_core.specs.Setups.{before_last_dash, inside, place_row};

use crate::statements::row;
use codes_core::{NoMemory, PlaceCode};
use nest_core::{PlaceNo, Setup};
use reports::sections::Value;
use std::alloc::Global;

/// Returns the rows of the places, in the setup's order. Fails with `NoMemory`.
pub(crate) fn place_rows(alloc: Global, setup: &Setup) -> Result<Vec<String>, NoMemory>
    ensures { IfOk result (λ rows. map string_bytes rows.items
        ≡ map (place_row setup.now) (range_with_len 0 (length setup.now.places))) }
{
    let mut rows = Vec::new(alloc);
    for place in 0..setup.places() {
        rows.push(place_row(alloc, setup, place)?)?;
    }
    Ok(rows)
}

/// The row of a place.
fn place_row(alloc: Global, setup: &Setup, place: PlaceNo) -> Result<String, NoMemory>
    requires { place < length setup.now.places }
    ensures { IfOk result (λ row. string_bytes row ≡ place_row setup.now place) }
{
    let code = setup.place_code(place);
    let inside = inside(code.as_bytes());
    row(alloc, &[Value::Place(code), inside])
}

/// The place that the place with this code is inside: the code without its last segment. No value
/// for a code of one segment.
fn inside<'a>(code: &[u8]) -> Value<'a>
    ensures { value_of result ≡ inside code.now }
{
    let end = last_dash(code);
    match PlaceCode::parse(&code[..end]) {
        Ok(above) => Value::Place(above),
        Err(_) => Value::Nothing,
    }
}

/// The number of bytes before the last dash. 0 if there is none.
fn last_dash(code: &[u8]) -> usize
    ensures within { result ≤ length code.now }
    ensures before { take result code.now ≡ before_last_dash code.now }
{
    let mut end = code.len();
    while end > 0 {
        end -= 1;
        if code[end] == b'-' {
            return end;
        }
    }
    0
}
