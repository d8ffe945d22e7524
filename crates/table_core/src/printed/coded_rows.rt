//! The rows of a table with codes in place of labels.
ghost use Rattle.std.specs.Prelude.{◌≡◌, ◌++◌, IfOk, OnOk, map, string_bytes};
ghost use Rattle.table_core.specs.Tables.{texts_of};
ghost use Rattle.table_core.specs.SheetLines.{coded, coded_rows, first_row};

use crate::Labels;
use codes_core::NoMemory;
use std::alloc::Global;
use std::str;

/// Returns the rows with codes in place of labels. The heading, which is the first row, stays as it
/// is. Fails with `NoMemory`.
pub(crate) fn coded_rows(
    alloc: Global,
    labels: &Labels,
    rows: &[Vec<String>],
) -> Result<Vec<Vec<String>>, NoMemory>
    ensures { IfOk result
        (λ done. texts_of done.items ≡ coded_rows labels.now (texts_of rows.now)) }
{
    let mut done = Vec::new(alloc);
    match rows {
        [] => Ok(done),
        [heading, others @ ..] => {
            done.push(copied_row(alloc, heading.as_slice())?)?;
            add_coded_rows(alloc, &mut done, labels, others)?;
            Ok(done)
        }
    }
}

/// Adds the rows with codes in place of labels. Fails with `NoMemory`.
fn add_coded_rows(
    alloc: Global,
    done: &mut Vec<Vec<String>>,
    labels: &Labels,
    rows: &[Vec<String>],
) -> Result<(), NoMemory>
    ensures { OnOk result (texts_of done.new.items
        ≡ texts_of done.old.items ++ map (map (coded labels.now)) (texts_of rows.now)) }
{
    for row in rows {
        done.push(coded_row(alloc, labels, row.as_slice())?)?;
    }
    Ok(())
}

/// A row with codes in place of labels. Fails with `NoMemory`.
fn coded_row(alloc: Global, labels: &Labels, row: &[String]) -> Result<Vec<String>, NoMemory>
    ensures { IfOk result (λ done. map string_bytes done.items
        ≡ map (coded labels.now) (map string_bytes row.now)) }
{
    let mut done = Vec::new(alloc);
    for field in row {
        done.push(String::from_str(alloc, coded(labels, field.as_str()))?)?;
    }
    Ok(done)
}

/// The code that a field stands for, or the field as it is.
fn coded<'a>(labels: &'a Labels, field: &'a str) -> &'a str
    ensures { result.now ≡ coded labels.now field.now }
{
    match str::from_utf8(labels.code_for(field.as_bytes())) {
        Ok(code) => code,
        Err(_) => field,
    }
}

/// The fields of the heading. Fails with `NoMemory`.
pub(crate) fn first_row(alloc: Global, rows: &[Vec<String>]) -> Result<Vec<String>, NoMemory>
    ensures { IfOk result
        (λ heading. map string_bytes heading.items ≡ first_row (texts_of rows.now)) }
{
    match rows {
        [] => Ok(Vec::new(alloc)),
        [heading, ..] => copied_row(alloc, heading.as_slice()),
    }
}

fn copied_row(alloc: Global, row: &[String]) -> Result<Vec<String>, NoMemory>
    ensures { IfOk result (λ done. map string_bytes done.items ≡ map string_bytes row.now) }
{
    let mut done = Vec::new(alloc);
    for field in row {
        done.push(String::from_str(alloc, field.as_str())?)?;
    }
    Ok(done)
}
