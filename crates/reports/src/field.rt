//! One field of a row, as plain text and as JSON.
ghost use Rattle.std.specs.Prelude.{◌≡◌, IfOk, map, string_bytes};
ghost use Rattle.reports.specs.Cells.{flag_text, is_shown, json_text, plain_text, quoted, cell_of};
ghost use Rattle.reports.specs.Cells.{Cell};
ghost use Rattle.codes_core.specs.Day.{day_text};

use codes_core::{Day, LoanCode, NoMemory, PlaceCode, ThingCode};
use serde_json::Value;
use std::alloc::Global;

/// A field of a row, or a word of its plain line. Codes and days are copied without memory.
#[derive(Drop)]
pub(crate) enum Field<'a> {
    /// No value.
    Nothing,
    Number(u64),
    Flag(bool),
    Word(&'a str),
    Day(Day),
    Thing(ThingCode),
    Place(PlaceCode),
    Loan(LoanCode),
    /// The codes of several things.
    Things(Vec<ThingCode>),
    Text(String),
    /// The text of a JSON value.
    Json(String),
}

/// Whether the field is a word of a plain line: not nothing, nor an empty list of codes.
pub(crate) fn is_shown(field: &Field<'_>) -> bool
    ensures { result ≡ is_shown (cell_of field.now) }
{
    match field {
        Field::Nothing => false,
        Field::Things(codes) => !codes.is_empty(),
        _ => true,
    }
}

/// The field as plain text. Fails with `NoMemory`.
pub(crate) fn plain_text(alloc: Global, field: &Field<'_>) -> Result<String, NoMemory>
    ensures { IfOk result (λ text. string_bytes text ≡ plain_text (cell_of field.now)) }
{
    match field {
        Field::Nothing => Ok(String::new(alloc)),
        Field::Number(number) => Ok(number.to_string(alloc)?),
        Field::Flag(flag) => Ok(String::from_str(alloc, flag_word(*flag))?),
        Field::Word(text) => Ok(String::from_str(alloc, text)?),
        Field::Day(day) => day_text(alloc, *day),
        Field::Thing(code) => Ok(String::from_str(alloc, code.as_str())?),
        Field::Place(code) => Ok(String::from_str(alloc, code.as_str())?),
        Field::Loan(code) => Ok(String::from_str(alloc, code.as_str())?),
        Field::Things(codes) => spaced(alloc, codes.as_slice()),
        Field::Text(text) => Ok(String::from_str(alloc, text.as_str())?),
        Field::Json(text) => Ok(String::from_str(alloc, text.as_str())?),
    }
}

/// The field as JSON. Fails with `NoMemory`.
pub(crate) fn json_text(alloc: Global, field: &Field<'_>) -> Result<String, NoMemory>
    ensures { IfOk result (λ text. string_bytes text ≡ json_text (cell_of field.now)) }
{
    match field {
        Field::Nothing => Ok(String::from_str(alloc, "null")?),
        Field::Number(number) => Ok(number.to_string(alloc)?),
        Field::Flag(flag) => Ok(String::from_str(alloc, flag_word(*flag))?),
        Field::Word(text) => quoted(alloc, text),
        Field::Day(day) => quoted_day(alloc, *day),
        Field::Thing(code) => quoted(alloc, code.as_str()),
        Field::Place(code) => quoted(alloc, code.as_str()),
        Field::Loan(code) => quoted(alloc, code.as_str()),
        Field::Things(codes) => array_text(alloc, codes.as_slice()),
        Field::Text(text) => quoted(alloc, text.as_str()),
        Field::Json(text) => Ok(String::from_str(alloc, text.as_str())?),
    }
}

fn flag_word(flag: bool) -> &'static str
    ensures { result.now ≡ flag_text flag }
{
    if flag { "true" } else { "false" }
}

fn day_text(alloc: Global, day: Day) -> Result<String, NoMemory>
    ensures { IfOk result (λ text. string_bytes text ≡ plain_text (Cell.text (day_text day))) }
{
    let mut text = String::new(alloc);
    day.write(alloc, &mut text)?;
    Ok(text)
}

fn quoted_day(alloc: Global, day: Day) -> Result<String, NoMemory>
    ensures { IfOk result (λ text. string_bytes text ≡ quoted (day_text day)) }
{
    let text = day_text(alloc, day)?;
    quoted(alloc, text.as_str())
}

/// The codes with spaces between them.
fn spaced(alloc: Global, codes: &[ThingCode]) -> Result<String, NoMemory>
    ensures { IfOk result (λ all. string_bytes all ≡ plain_text (Cell.texts codes.now)) }
{
    let mut texts = Vec::new(alloc);
    for i in 0..codes.len() {
        texts.push(String::from_str(alloc, codes[i].as_str())?)?;
    }
    Ok(texts.as_slice().join(alloc, " ")?)
}

/// The text as a JSON string.
pub(crate) fn quoted(alloc: Global, text: &str) -> Result<String, NoMemory>
    ensures { IfOk result (λ written. string_bytes written ≡ quoted text.now) }
{
    let value = Value::try_from_str(alloc, text)?;
    Ok(value.to_string(alloc)?)
}

/// The codes as a JSON array.
fn array_text(alloc: Global, codes: &[ThingCode]) -> Result<String, NoMemory>
    ensures { IfOk result (λ all. string_bytes all ≡ json_text (Cell.texts codes.now)) }
{
    let mut items = Vec::new(alloc);
    for i in 0..codes.len() {
        items.push(quoted(alloc, codes[i].as_str())?)?;
    }
    let items = items.as_slice().join(alloc, ",")?;
    Ok(["[", items.as_str(), "]"].concat(alloc)?)
}
