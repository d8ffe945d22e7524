//! Values as SQL.
ghost use Rattle.std.specs.Prelude.{◌≡◌, ◌++◌, IfOk, OnOk, string_bytes};
ghost use Rattle.std.specs.Char.{encode_utf8};
ghost use Rattle.codes_core.specs.Day.{day_text};
ghost use Rattle.reports.specs.Values.{value_of};
ghost use Rattle.export_core.specs.Literals.{doubled, literal, quoted};

use codes_core::{Day, NoMemory};
use reports::sections::Value;
use std::alloc::{AllocError, Global};

/// Returns the value as SQL. Fails with `NoMemory`.
pub(crate) fn literal(alloc: Global, value: &Value<'_>) -> Result<String, NoMemory>
    ensures { IfOk result (λ sql. string_bytes sql ≡ literal (value_of value.now)) }
{
    match value {
        Value::Nothing => Ok(String::from_str(alloc, "NULL")?),
        Value::Number(number) => Ok(number.to_string(alloc)?),
        Value::Word(text) => quoted(alloc, text),
        Value::Day(day) => quoted_day(alloc, *day),
        Value::Thing(code) => quoted(alloc, code.as_str()),
        Value::Place(code) => quoted(alloc, code.as_str()),
        Value::Loan(code) => quoted(alloc, code.as_str()),
    }
}

fn quoted_day(alloc: Global, day: Day) -> Result<String, NoMemory>
    ensures { IfOk result (λ sql. string_bytes sql ≡ quoted (day_text day)) }
{
    let mut text = String::new(alloc);
    day.write(alloc, &mut text)?;
    quoted(alloc, text.as_str())
}

/// Returns the text as an SQL string. Fails with `NoMemory`.
fn quoted(alloc: Global, text: &str) -> Result<String, NoMemory>
    ensures { IfOk result (λ sql. string_bytes sql ≡ quoted text.now) }
{
    let inner = doubled(alloc, text)?;
    Ok(["'", inner.as_str(), "'"].concat(alloc)?)
}

/// Returns the text with each quote doubled. Fails if memory is refused.
fn doubled(alloc: Global, text: &str) -> Result<String, AllocError>
    ensures { IfOk result (λ sql. string_bytes sql ≡ doubled text.now) }
{
    let mut sql = String::new(alloc);
    for c in text.chars() {
        push_char(&mut sql, c)?;
    }
    Ok(sql)
}

/// Appends a character, or two quotes for a quote.
fn push_char(sql: &mut String, c: char) -> Result<(), AllocError>
    ensures { OnOk result
        (string_bytes sql.new ≡ string_bytes sql.old ++ doubled (encode_utf8 c)) }
{
    match c {
        '\'' => sql.push_str("''"),
        _ => sql.push(c),
    }
}
