//! The rows of what an entry changed.
ghost use Rattle.std.specs.Prelude.{◌≡◌, ◌<◌, ◌++◌, All, IfOk, OnOk, length, map, option_map};
ghost use Rattle.std.specs.Prelude.{slice_get, string_bytes};
ghost use Rattle.std.specs.List.{flat_map};
ghost use Rattle.posting_core.specs.Book.{chain_in};
ghost use Rattle.reports.specs.Cells.{text_if};
ghost use Rattle.reports.specs.Texts.{thing_text};
ghost use Rattle.reports.specs.Values.{value_of};
ghost use Rattle.export_core.specs.Entries.{crossing_text, entry_column, line_text, movement_row};
ghost use Rattle.export_core.specs.Entries.{movement_values};
ghost use Rattle.export_core.specs.Statements.{row};

use crate::literals::literal;
use crate::statements::row;
use codes_core::NoMemory;
use nest_core::{Setup, ThingNo};
use posting_core::{EntryNo, Ledger, LineStage, NewLine, NewSpot, PostedEntry};
use reports::sections::{Value, place_value, station_name, thing_value};
use std::alloc::Global;

/// Adds the rows of the new locations of things, by the record after the entry. Fails with
/// `NoMemory`.
pub(crate) fn push_movements(
    alloc: Global,
    after: &Ledger,
    entry: &PostedEntry,
    spots: &[NewSpot],
    rows: &mut Vec<String>,
) -> Result<(), NoMemory>
    requires { All (λ s. s.thing < length after.now.museum.things) spots.now }
    ensures { OnOk result (map string_bytes rows.new.items
        ≡ map string_bytes rows.old.items ++ map (movement_row after.now entry.now) spots.now) }
{
    for i in 0..spots.len() {
        rows.push(movement_row(alloc, after, entry, &spots[i])?)?;
    }
    Ok(())
}

/// The row of a new location.
fn movement_row(
    alloc: Global,
    after: &Ledger,
    entry: &PostedEntry,
    new: &NewSpot,
) -> Result<String, NoMemory>
    requires { new.now.thing < length after.now.museum.things }
    ensures { IfOk result
        (λ row. string_bytes row ≡ movement_row after.now entry.now new.now) }
{
    let container = container(alloc, after, new.thing)?;
    row_with(alloc, after.setup(), entry, new, container)
}

/// The row of a new location of a thing that is in this container.
fn row_with(
    alloc: Global,
    setup: &Setup,
    entry: &PostedEntry,
    new: &NewSpot,
    container: Option<ThingNo>,
) -> Result<String, NoMemory>
    ensures { IfOk result (λ sql. string_bytes sql
        ≡ row (movement_values setup.now entry.now new.now container)) }
{
    let values = [
        Value::Number(u64::from(new.spot.entry)),
        Value::Day(new.spot.day),
        thing_value(setup, new.thing),
        place_value(setup, new.spot.place),
        thing_if(setup, container),
        Value::Word(station_name(setup, entry.station())),
        Value::Number(u64::from(entry.n())),
    ];
    row(alloc, &values)
}

/// The innermost container that a thing is in, if there is one.
fn container(alloc: Global, ledger: &Ledger, thing: ThingNo) -> Result<Option<ThingNo>, NoMemory>
    requires { thing < length ledger.now.museum.things }
    ensures { IfOk result (λ found. found ≡ slice_get (chain_in ledger.now thing) 0) }
{
    let chain = ledger.chain(alloc, thing)?;
    Ok(chain.as_slice().first().copied())
}

/// The code of the thing, if there is one.
fn thing_if<'a>(setup: &Setup, thing: Option<ThingNo>) -> Value<'a>
    ensures { value_of result ≡ text_if (option_map (thing_text setup.now) thing) }
{
    match thing {
        Some(thing) => thing_value(setup, thing),
        None => Value::Nothing,
    }
}

/// The statements for how far an entry brought loans. Fails with `NoMemory`.
pub(crate) fn line_texts(
    alloc: Global,
    setup: &Setup,
    entry: EntryNo,
    lines: &[NewLine],
) -> Result<String, NoMemory>
    ensures { IfOk result
        (λ sql. string_bytes sql ≡ flat_map (line_text setup.now entry) lines.now) }
{
    let mut texts = String::new(alloc);
    for i in 0..lines.len() {
        let text = line_text(alloc, setup, entry, &lines[i])?;
        texts.push_str(text.as_str())?;
    }
    Ok(texts)
}

/// The statement for the stage that an object reached, if its row has the entry.
fn line_text(
    alloc: Global,
    setup: &Setup,
    entry: EntryNo,
    line: &NewLine,
) -> Result<String, NoMemory>
    ensures { IfOk result (λ sql. string_bytes sql ≡ line_text setup.now entry line.now) }
{
    match entry_column(line.stage) {
        Some(column) => crossing_text(alloc, setup, entry, line, column),
        None => Ok(String::new(alloc)),
    }
}

/// The column for the entry that brings an object to a stage.
fn entry_column(stage: LineStage) -> Option<&'static str>
    ensures { option_map (λ column. column.now) result ≡ entry_column stage }
{
    match stage {
        LineStage::Awaiting => None,
        LineStage::Away | LineStage::Here => Some("out_entry"),
        LineStage::Back | LineStage::GivenBack => Some("back_entry"),
    }
}

/// The statement that sets a column to the entry.
fn crossing_text(
    alloc: Global,
    setup: &Setup,
    entry: EntryNo,
    line: &NewLine,
    column: &str,
) -> Result<String, NoMemory>
    ensures { IfOk result
        (λ sql. string_bytes sql ≡ crossing_text setup.now entry line.now column.now) }
{
    let loan = literal(alloc, &Value::Loan(line.loan))?;
    let thing = literal(alloc, &thing_value(setup, line.object))?;
    Ok(format!(in alloc;
        "UPDATE loan_object SET {column}={entry} WHERE loan={loan} AND thing={thing};\n"
    )?)
}
