//! The cells of a row, and what is wrong with a cell.
ghost use Rattle.std.specs.Prelude.{◌≡◌};
ghost use Rattle.std.specs.List.{list_all};
ghost use Rattle.codes_core.specs.Name.{is_name_byte};
ghost use Rattle.table_core.specs.Cells.{end_fault, cell_fault, value_fault, kind_fault};
ghost use Rattle.table_core.specs.Cells.{thing_cell_fault, place_cell_fault, loan_cell_fault};
ghost use Rattle.table_core.specs.Cells.{day_cell_fault, day_words, name_fault, number_fault};
ghost use Rattle.table_core.specs.Cells.{number_in};

use crate::days::day_of;
use crate::digits::{are_digits, number_of};
use crate::objects::objects_fault;
use crate::{CellFault, Column, DateOrder, Kind};
use codes_core::{CodeFault, LONGEST_NAME, LoanCode, PlaceCode, ThingCode};

/// The first fault of a text in a column.
pub(crate) fn cell_fault(order: DateOrder, column: Column, text: &str) -> Option<CellFault>
    ensures { result ≡ cell_fault order column text.now }
{
    if text.is_empty() {
        return Some(CellFault::Empty);
    }
    match end_fault(text.as_bytes()) {
        Some(fault) => Some(fault),
        None => value_fault(order, column, text),
    }
}

/// A space at one of the text's ends.
fn end_fault(text: &[u8]) -> Option<CellFault>
    ensures { result ≡ end_fault text.now }
{
    if text.starts_with(b" ") {
        return Some(CellFault::SpaceBefore);
    }
    if text.starts_with(b"\xc2\xa0") {
        return Some(CellFault::NoBreakSpaceBefore);
    }
    if text.ends_with(b" ") {
        return Some(CellFault::SpaceBehind);
    }
    if text.ends_with(b"\xc2\xa0") {
        return Some(CellFault::NoBreakSpaceBehind);
    }
    None
}

fn value_fault(order: DateOrder, column: Column, text: &str) -> Option<CellFault>
    ensures { result ≡ value_fault order column text.now }
{
    let bytes = text.as_bytes();
    match column {
        Column::Kind => kind_fault(text),
        Column::Thing => thing_fault(bytes),
        Column::Container => thing_fault(bytes),
        Column::Place => place_fault(bytes),
        Column::Partner => place_fault(bytes),
        Column::Loan => loan_fault(bytes),
        Column::Day => day_fault(order, bytes),
        Column::First => day_fault(order, bytes),
        Column::Last => day_fault(order, bytes),
        Column::Objects => objects_fault(bytes),
        Column::By => name_fault(bytes),
        Column::N => number_fault(bytes),
    }
}

fn kind_fault(text: &str) -> Option<CellFault>
    ensures { result ≡ kind_fault text.now }
{
    match Kind::named(text) {
        Some(_) => None,
        None => Some(CellFault::NotAKind),
    }
}

fn thing_fault(text: &[u8]) -> Option<CellFault>
    ensures { result ≡ thing_cell_fault text.now }
{
    match ThingCode::parse(text) {
        Ok(_) => None,
        Err(fault) => Some(CellFault::BadCode(fault)),
    }
}

fn place_fault(text: &[u8]) -> Option<CellFault>
    ensures { result ≡ place_cell_fault text.now }
{
    match PlaceCode::parse(text) {
        Ok(_) => None,
        Err(fault) => Some(CellFault::BadCode(fault)),
    }
}

fn loan_fault(text: &[u8]) -> Option<CellFault>
    ensures { result ≡ loan_cell_fault text.now }
{
    match LoanCode::parse(text) {
        Ok(_) => None,
        Err(fault) => Some(CellFault::BadCode(fault)),
    }
}

fn day_fault(order: DateOrder, text: &[u8]) -> Option<CellFault>
    ensures { result ≡ day_cell_fault order text.now }
{
    match day_of(order, text) {
        Ok(_) => None,
        Err(fault) => Some(day_words(fault)),
    }
}

/// The fault of a day as that of a cell.
fn day_words(fault: CodeFault) -> CellFault
    ensures { result ≡ day_words fault }
{
    match fault {
        CodeFault::NoSuchDay => CellFault::NoSuchDay,
        CodeFault::Empty => CellFault::NotADay,
        CodeFault::BadShape => CellFault::NotADay,
        CodeFault::BadNumber => CellFault::NotADay,
    }
}

fn name_fault(text: &[u8]) -> Option<CellFault>
    ensures { result ≡ name_fault text.now }
{
    if text.len() <= LONGEST_NAME && are_name_bytes(text) {
        return None;
    }
    Some(CellFault::NotAName)
}

fn are_name_bytes(text: &[u8]) -> bool
    ensures { result ≡ list_all is_name_byte text.now }
{
    text.iter().all(|b| *b >= 32 && *b != 127)
}

fn number_fault(text: &[u8]) -> Option<CellFault>
    ensures { result ≡ number_fault text.now }
{
    match number_in(text) {
        Some(_) => None,
        None => Some(CellFault::NotANumber),
    }
}

/// The number from 1 to 999,999 that a text spells.
pub(crate) fn number_in(text: &[u8]) -> Option<u32>
    ensures { result ≡ number_in text.now }
{
    if text.is_empty() || text.len() > 6 || text.starts_with(b"0") || !are_digits(text) {
        return None;
    }
    Some(number_of(text))
}
