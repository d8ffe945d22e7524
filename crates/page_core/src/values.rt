//! The rows of the tables, by their values.
ghost use Rattle.std.specs.Prelude.{◌≡◌, ◌++◌, IfOk, OnOk, map};
ghost use Rattle.std.specs.Prelude.{decimal, string_bytes};
ghost use Rattle.codes_core.specs.Day.{day_text};
ghost use Rattle.reports.specs.Cells.{plain_text};
ghost use Rattle.reports.specs.Values.{value_of};
ghost use Rattle.page_core.specs.Escapes.{escaped};
ghost use Rattle.page_core.specs.Pieces.{page_text};
ghost use Rattle.page_core.specs.Tables.{cell};
ghost use Rattle.page_core.specs.Values.{values_row};

use crate::escapes::escaped;
use crate::tables::push_cell;
use codes_core::{Day, NoMemory};
use reports::sections::Value;
use std::alloc::Global;

/// The row of a table with these values. Fails with `NoMemory`.
pub(crate) fn values_row(alloc: Global, values: &[Value<'_>]) -> Result<String, NoMemory>
    ensures { IfOk result (λ row. string_bytes row
        ≡ page_text (values_row (map value_of values.now))) }
{
    let mut row = String::from_str(alloc, "<tr>")?;
    for i in 0..values.len() {
        push_value(alloc, &mut row, &values[i])?;
    }
    row.push_str("</tr>\n")?;
    Ok(row)
}

/// Appends the cell of a value.
fn push_value(alloc: Global, row: &mut String, value: &Value<'_>) -> Result<(), NoMemory>
    ensures { OnOk result (string_bytes row.new
        ≡ string_bytes row.old ++ page_text (cell (plain_text (value_of value.now)))) }
{
    match value {
        Value::Nothing => push_text(alloc, row, ""),
        Value::Number(number) => push_number(alloc, row, *number),
        Value::Word(text) => push_text(alloc, row, text),
        Value::Day(day) => push_day(alloc, row, *day),
        Value::Thing(code) => push_text(alloc, row, code.as_str()),
        Value::Place(code) => push_text(alloc, row, code.as_str()),
        Value::Loan(code) => push_text(alloc, row, code.as_str()),
    }
}

fn push_text(alloc: Global, row: &mut String, text: &str) -> Result<(), NoMemory>
    ensures { OnOk result
        (string_bytes row.new ≡ string_bytes row.old ++ page_text (cell text.now)) }
{
    push_cell(alloc, row, text)?;
    Ok(())
}

fn push_number(alloc: Global, row: &mut String, number: u64) -> Result<(), NoMemory>
    ensures { OnOk result
        (string_bytes row.new ≡ string_bytes row.old ++ page_text (cell (decimal number))) }
{
    let text = number.to_string(alloc)?;
    push_text(alloc, row, text.as_str())
}

fn push_day(alloc: Global, row: &mut String, day: Day) -> Result<(), NoMemory>
    ensures { OnOk result
        (string_bytes row.new ≡ string_bytes row.old ++ page_text (cell (day_text day))) }
{
    let mut text = String::new(alloc);
    day.write(alloc, &mut text)?;
    push_text(alloc, row, text.as_str())
}

/// The day as it is written in a page.
pub(crate) fn escaped_day(alloc: Global, day: Day) -> Result<String, NoMemory>
    ensures { IfOk result (λ text. string_bytes text ≡ escaped (day_text day)) }
{
    let mut text = String::new(alloc);
    day.write(alloc, &mut text)?;
    Ok(escaped(alloc, text.as_str())?)
}
