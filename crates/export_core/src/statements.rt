//! The statements that insert rows.
ghost use Rattle.std.specs.Prelude.{◌≡◌, ◌<◌, ◌*◌, ◌++◌, IfOk, OnOk, length, map};
ghost use Rattle.std.specs.Prelude.{string_bytes};
ghost use Rattle.reports.specs.Values.{value_of};
ghost use Rattle.export_core.specs.Literals.{literal};
ghost use Rattle.export_core.specs.Statements.{insert, inserts, row, statement};

use crate::literals::literal;
use codes_core::NoMemory;
use reports::sections::Value;
use std::alloc::Global;

/// The most rows of a statement. The database takes no more.
pub(crate) const MOST_ROWS: usize = 500;

/// Adds the statements that insert these rows into a table. Fails with `NoMemory`.
pub(crate) fn add_inserts(
    alloc: Global,
    table: &str,
    rows: &[String],
    script: &mut String,
) -> Result<(), NoMemory>
    ensures { OnOk result (string_bytes script.new
        ≡ string_bytes script.old ++ inserts table.now (map string_bytes rows.now)) }
{
    for n in 0..rows.len().div_ceil(MOST_ROWS) {
        let sql = statement(alloc, table, rows, n)?;
        script.push_str(sql.as_str())?;
    }
    Ok(())
}

/// Statement `n`, from 0, of those that insert these rows.
fn statement(alloc: Global, table: &str, rows: &[String], n: usize) -> Result<String, NoMemory>
    requires { n * MOST_ROWS < length rows.now }
    ensures { IfOk result
        (λ sql. string_bytes sql ≡ statement table.now (map string_bytes rows.now) n) }
{
    let rest = &rows[n * MOST_ROWS..];
    insert(alloc, table, &rest[..MOST_ROWS.min(rest.len())])
}

/// The statement that inserts these rows.
fn insert(alloc: Global, table: &str, rows: &[String]) -> Result<String, NoMemory>
    ensures { IfOk result
        (λ sql. string_bytes sql ≡ insert table.now (map string_bytes rows.now)) }
{
    let rows = rows.join(alloc, ",\n")?;
    Ok(format!(in alloc; "INSERT INTO {table} VALUES\n{rows};\n")?)
}

/// Returns a row with these values. Fails with `NoMemory`.
pub(crate) fn row(alloc: Global, values: &[Value<'_>]) -> Result<String, NoMemory>
    ensures { IfOk result (λ sql. string_bytes sql ≡ row (map value_of values.now)) }
{
    let literals = literals(alloc, values)?;
    let joined = literals.as_slice().join(alloc, ",")?;
    Ok(["(", joined.as_str(), ")"].concat(alloc)?)
}

/// The values as SQL.
fn literals(alloc: Global, values: &[Value<'_>]) -> Result<Vec<String>, NoMemory>
    ensures { IfOk result (λ literals. map string_bytes literals.items
        ≡ map literal (map value_of values.now)) }
{
    let mut literals = Vec::new(alloc);
    for i in 0..values.len() {
        literals.push(literal(alloc, &values[i])?)?;
    }
    Ok(literals)
}
