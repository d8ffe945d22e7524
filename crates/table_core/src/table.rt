//! Reads the rows of a table.
ghost use Rattle.std.specs.Prelude.{◌≡◌, ◌∷◌, ◌++◌, map, string_bytes};
ghost use Rattle.std.specs.Prelude.{IfOk, OnOk, MatchResult};
ghost use Rattle.std.specs.List.{list_all};
ghost use Rattle.table_core.specs.Tables.{IsTable, IsTableFault, texts_of};
ghost use Rattle.table_core.specs.TableRows.{is_space, is_blank, step_lines, step_faults};
ghost use Rattle.table_core.specs.TableRows.{step_number, lines_from, faults_from};

use crate::columns::{unknown_fields, words_fault, words_of};
use crate::row::{number_after, row_faults, row_line, row_number};
use crate::row_cells::RowCells;
use crate::word::Word;
use crate::{FaultyCell, HeadingFault, TableFault, TableLine, TableOptions};
use codes_core::NoMemory;
use std::alloc::Global;

/// A table without faults.
#[derive(Drop)]
pub struct Table {
    /// A line for each row that has text, in the order of the rows.
    pub lines: Vec<TableLine>,
    /// The fields of the heading that have text and name no column. They count from 1.
    pub unknown: Vec<usize>,
}

/// The lines and the faults of a table's rows.
#[derive(Drop)]
struct Readings {
    lines: Vec<TableLine>,
    faults: Vec<FaultyCell>,
}

/// Returns the messages of a table's rows, with their numbers. The first row is the heading.
///
/// Fails with the heading's first fault; otherwise with all faults of all rows, if there are any:
/// each row that has text has a message or a fault. Any call may fail with `NoMemory` instead.
pub fn read_table(
    alloc: Global,
    options: &TableOptions,
    rows: &[Vec<String>],
) -> Result<Table, TableFault>
    ensures exact { MatchResult result (IsTable options.now (texts_of rows.now))
        (IsTableFault options.now (texts_of rows.now)) }
{
    match rows {
        [] => Err(TableFault::Heading(HeadingFault::NoHeading)),
        [heading, others @ ..] => read_below(alloc, options, heading, others),
    }
}

/// Reads a heading, and the rows below it.
fn read_below(
    alloc: Global,
    options: &TableOptions,
    heading: &[String],
    rows: &[Vec<String>],
) -> Result<Table, TableFault>
    ensures { MatchResult result
        (IsTable options.now (map string_bytes heading.now ∷ texts_of rows.now))
        (IsTableFault options.now (map string_bytes heading.now ∷ texts_of rows.now)) }
{
    let words = words_of(alloc, heading)?;
    if let Some(fault) = words_fault(alloc, &words)? {
        return Err(TableFault::Heading(fault));
    }
    let Readings { lines, faults } = read_rows(alloc, options, &words, rows)?;
    if !faults.is_empty() {
        return Err(TableFault::Rows(faults));
    }
    let unknown = unknown_fields(alloc, &words)?;
    Ok(Table { lines, unknown })
}

/// Reads the rows below a heading. Fails with `NoMemory`.
fn read_rows(
    alloc: Global,
    options: &TableOptions,
    words: &[Word],
    rows: &[Vec<String>],
) -> Result<Readings, NoMemory>
    ensures { IfOk result (λ read.
        (read.lines.items
        ≡ lines_from options.now words.now 2 options.now.first (texts_of rows.now))
        × (read.faults.items
        ≡ faults_from options.now words.now 2 options.now.first (texts_of rows.now))) }
{
    let mut lines = Vec::new(alloc);
    let mut faults = Vec::new(alloc);
    let mut next = options.first;
    for i in 0..rows.len() {
        let cells = RowCells {
            options,
            words,
            row: i + 2,
            fields: &rows[i],
        };
        next = read_row(alloc, &cells, next, &mut lines, &mut faults)?;
    }
    Ok(Readings { lines, faults })
}

/// Adds a row's line or its faults, unless it is blank, and returns the number that the row behind
/// it takes. Fails with `NoMemory`.
fn read_row(
    alloc: Global,
    cells: &RowCells,
    next: u32,
    lines: &mut Vec<TableLine>,
    faults: &mut Vec<FaultyCell>,
) -> Result<u32, NoMemory>
    ensures next { IfOk result (λ after. after
        ≡ step_number cells.now.options.now cells.now.words.now next
        (map string_bytes cells.now.fields.now)) }
    ensures lines { OnOk result (lines.new.items ≡ lines.old.items
        ++ step_lines cells.now.options.now cells.now.words.now cells.now.row next
        (map string_bytes cells.now.fields.now)) }
    ensures faults { OnOk result (faults.new.items ≡ faults.old.items
        ++ step_faults cells.now.options.now cells.now.words.now cells.now.row next
        (map string_bytes cells.now.fields.now)) }
{
    if is_blank(cells.fields) {
        return Ok(next);
    }
    let after = number_after(row_number(cells, next));
    let mut found = row_faults(alloc, cells, next)?;
    if found.is_empty() {
        lines.push(row_line(alloc, cells, next)?)?;
        return Ok(after);
    }
    faults.append(&mut found)?;
    Ok(after)
}

/// Whether the fields have nothing but spaces.
fn is_blank(fields: &[String]) -> bool
    ensures { result ≡ is_blank (map string_bytes fields.now) }
{
    are_blank(fields)
}

fn are_blank(fields: &[String]) -> bool
    ensures { result ≡ list_all (λ s. list_all is_space (string_bytes s)) fields.now }
{
    fields.iter().all(|field| are_spaces(field.as_str()))
}

fn are_spaces(text: &str) -> bool
    ensures { result ≡ list_all is_space text.now }
{
    text.as_bytes().iter().all(|b| *b == b' ')
}
