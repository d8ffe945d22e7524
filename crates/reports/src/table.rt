//! A table: the widths of its columns, and its lines.
ghost use Rattle.std.specs.Prelude.{◌≡◌, ◌<◌, ◌≤◌, ◌∷◌, ◌++◌, [], IfOk, OnOk, Some, get_or, length};
ghost use Rattle.std.specs.Prelude.{map, max, set, slice_get, string_bytes};
ghost use Rattle.reports.specs.Aligned.{aligned_line, cell_text, filled, filled_texts, row_texts};
ghost use Rattle.reports.specs.Aligned.{wider, width};
ghost use Rattle.reports.specs.Cells.{cell_of};

use crate::field::{Field, is_shown, plain_text};
use codes_core::NoMemory;
use std::alloc::Global;
use unicode_width::UnicodeWidthStr;

/// The heading of a table whose columns have these widths.
pub(crate) fn table_heading(
    alloc: Global,
    widths: &[usize],
    names: &[&str],
) -> Result<String, NoMemory>
    ensures { IfOk result (λ line. string_bytes line
        ≡ aligned_line widths.now (map (λ n. n.now) names.now)) }
{
    let texts = name_texts(alloc, names)?;
    aligned_line(alloc, widths, texts.as_slice())
}

/// The line of a row in a table whose columns have these widths.
pub(crate) fn table_line(
    alloc: Global,
    widths: &[usize],
    row: &[Field<'_>],
) -> Result<String, NoMemory>
    ensures { IfOk result (λ line. string_bytes line
        ≡ aligned_line widths.now (row_texts (map cell_of row.now))) }
{
    let texts = row_texts(alloc, row)?;
    aligned_line(alloc, widths, texts.as_slice())
}

/// Widens the columns to the cells of a row.
pub(crate) fn widen_to_row(
    alloc: Global,
    widths: &mut Vec<usize>,
    row: &[Field<'_>],
) -> Result<(), NoMemory>
    ensures { OnOk result (widths.new.items
        ≡ wider widths.old.items (map width (row_texts (map cell_of row.now)))) }
{
    let texts = row_texts(alloc, row)?;
    widen(widths, texts.as_slice())
}

/// The widths of the columns, without a row.
pub(crate) fn name_widths(alloc: Global, names: &[&str]) -> Result<Vec<usize>, NoMemory>
    ensures { IfOk result
        (λ widths. widths.items ≡ map width (map (λ n. n.now) names.now)) }
{
    let texts = name_texts(alloc, names)?;
    let mut widths = Vec::new(alloc);
    widen(&mut widths, texts.as_slice())?;
    Ok(widths)
}

/// The texts of a row: a dash for a field without a value.
fn row_texts(alloc: Global, row: &[Field<'_>]) -> Result<Vec<String>, NoMemory>
    ensures { IfOk result (λ texts. map string_bytes texts.items
        ≡ row_texts (map cell_of row.now)) }
{
    let mut texts = Vec::new(alloc);
    for field in row {
        texts.push(cell_text(alloc, field)?)?;
    }
    Ok(texts)
}

/// The text of a field, or a dash if it has no value.
fn cell_text(alloc: Global, field: &Field<'_>) -> Result<String, NoMemory>
    ensures { IfOk result (λ text. string_bytes text ≡ cell_text (cell_of field.now)) }
{
    if is_shown(field) {
        plain_text(alloc, field)
    } else {
        Ok(String::from_str(alloc, "-")?)
    }
}

/// The texts of the heading.
fn name_texts(alloc: Global, names: &[&str]) -> Result<Vec<String>, NoMemory>
    ensures { IfOk result
        (λ texts. map string_bytes texts.items ≡ map (λ n. n.now) names.now) }
{
    let mut texts = Vec::new(alloc);
    for i in 0..names.len() {
        texts.push(String::from_str(alloc, names[i])?)?;
    }
    Ok(texts)
}

/// Widens the columns to the texts of a line.
fn widen(widths: &mut Vec<usize>, texts: &[String]) -> Result<(), NoMemory>
    ensures { OnOk result (widths.new.items
        ≡ wider widths.old.items (map width (map string_bytes texts.now))) }
{
    for i in 0..texts.len() {
        widen_column(widths, i, width(texts[i].as_str()))?;
    }
    Ok(())
}

/// Widens the column at index `i`, or adds it after the last one.
fn widen_column(widths: &mut Vec<usize>, i: usize, width: usize) -> Result<(), NoMemory>
    ensures within { i < length widths.old.items → OnOk result (widths.new.items
        ≡ set widths.old.items i (max (get_or widths.old.items i 0) width)) }
    ensures past { length widths.old.items ≤ i
        → OnOk result (widths.new.items ≡ widths.old.items ++ width ∷ []) }
{
    match widths.get_mut(i) {
        Some(old) => *old = width.max(*old),
        None => widths.push(width)?,
    }
    Ok(())
}

/// The columns of a terminal that a text takes.
fn width(text: &str) -> usize
    ensures { result ≡ width text.now }
{
    text.width()
}

/// A line with these texts.
fn aligned_line(alloc: Global, widths: &[usize], texts: &[String]) -> Result<String, NoMemory>
    ensures { IfOk result (λ line. string_bytes line
        ≡ aligned_line widths.now (map string_bytes texts.now)) }
{
    let texts = filled_texts(alloc, widths, texts)?;
    let line = texts.as_slice().join(alloc, "  ")?;
    Ok([line.as_str(), "\n"].concat(alloc)?)
}

/// The texts, each but the last filled to its column's width.
fn filled_texts(alloc: Global, widths: &[usize], texts: &[String]) -> Result<Vec<String>, NoMemory>
    ensures { IfOk result (λ all. map string_bytes all.items
        ≡ filled_texts widths.now (map string_bytes texts.now)) }
{
    let mut filled = Vec::new(alloc);
    for i in 0..texts.len() {
        filled.push(filled_text(alloc, widths, texts, i)?)?;
    }
    Ok(filled)
}

/// The text at `i`. It is filled to its column's width, unless it is the last.
fn filled_text(
    alloc: Global,
    widths: &[usize],
    texts: &[String],
    i: usize,
) -> Result<String, NoMemory>
    requires { i < length texts.now }
    ensures { IfOk result (λ text. slice_get
        (filled_texts widths.now (map string_bytes texts.now)) i ≡ Some (string_bytes text)) }
{
    let text = texts[i].as_str();
    if i + 1 >= texts.len() || i >= widths.len() {
        return Ok(String::from_str(alloc, text)?);
    }
    filled(alloc, text, widths[i])
}

/// The text, with spaces after it up to this width.
fn filled(alloc: Global, text: &str, width: usize) -> Result<String, NoMemory>
    ensures { IfOk result (λ whole. string_bytes whole ≡ filled width text.now) }
{
    let room = width.saturating_sub(crate::table::width(text));
    let spaces = " ".repeat(alloc, room)?;
    Ok([text, spaces.as_str()].concat(alloc)?)
}
