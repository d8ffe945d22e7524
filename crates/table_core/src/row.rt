//! The faults and the line of a row.
ghost use Rattle.std.specs.Prelude.{◌≡◌, ◌++◌, ◌∷◌, [], IfOk, OnOk};
ghost use Rattle.std.specs.Option.{option_to_list};
ghost use Rattle.std.specs.List.{filter_map};
ghost use Rattle.table_core.specs.RowCells.{cells_of, order_of};
ghost use Rattle.table_core.specs.TableRows.{fault_at, row_columns, number_faults, row_faults};
ghost use Rattle.table_core.specs.TableRows.{row_number, row_lines, number_after, is_number};

use crate::cell::{cell_fault, number_in};
use crate::message::message_of;
use crate::row_cells::RowCells;
use crate::{CellFault, CellText, Column, FaultyCell, Kind};
use codes_core::NoMemory;
use posting_core::{LAST_NUMBER, Message};
use std::alloc::Global;

/// A row's message.
#[derive(Drop)]
pub struct TableLine {
    /// Counts from 1, which is the heading.
    pub row: usize,
    /// The number of the message.
    pub number: u32,
    pub message: Message,
}

/// All faults of a row that takes the number `next`, unless it has its own. Fails with `NoMemory`.
pub(crate) fn row_faults(
    alloc: Global,
    cells: &RowCells,
    next: u32,
) -> Result<Vec<FaultyCell>, NoMemory>
    ensures { IfOk result (λ faults. faults.items
        ≡ row_faults (order_of cells.now) cells.now.row (cells_of cells.now) next) }
{
    let mut faults = Vec::new(alloc);
    push_faults(alloc, &mut faults, cells, row_columns(cells))?;
    push_number_fault(alloc, &mut faults, cells, next)?;
    Ok(faults)
}

/// The columns of the row's kind, or the kind's own, if it is none.
fn row_columns(cells: &RowCells) -> &'static [Column]
    ensures { result.now ≡ row_columns (cells_of cells.now) }
{
    match Kind::named(cells.text(Column::Kind)) {
        Some(kind) => kind.columns(),
        None => &[Column::Kind],
    }
}

/// Adds the faults of the cells in these columns. Fails with `NoMemory`.
fn push_faults(
    alloc: Global,
    faults: &mut Vec<FaultyCell>,
    cells: &RowCells,
    columns: &[Column],
) -> Result<(), NoMemory>
    ensures { OnOk result (faults.new.items ≡ faults.old.items
        ++ filter_map (fault_at (order_of cells.now) cells.now.row (cells_of cells.now))
        columns.now) }
{
    for column in columns {
        push_fault(alloc, faults, cells, *column)?;
    }
    Ok(())
}

/// Adds the fault of the cell in a column, if it has one. Fails with `NoMemory`.
fn push_fault(
    alloc: Global,
    faults: &mut Vec<FaultyCell>,
    cells: &RowCells,
    column: Column,
) -> Result<(), NoMemory>
    ensures { OnOk result (faults.new.items ≡ faults.old.items
        ++ option_to_list (fault_at (order_of cells.now) cells.now.row (cells_of cells.now)
        column)) }
{
    let text = cells.text(column);
    match cell_fault(cells.options.dates, column, text) {
        None => Ok(()),
        Some(fault) => {
            let text = CellText::new(alloc, text)?;
            faults.push(FaultyCell {
                row: cells.row,
                column,
                text,
                fault,
            })?;
            Ok(())
        }
    }
}

/// Adds what is wrong with the row's number. Fails with `NoMemory`.
fn push_number_fault(
    alloc: Global,
    faults: &mut Vec<FaultyCell>,
    cells: &RowCells,
    next: u32,
) -> Result<(), NoMemory>
    ensures { OnOk result (faults.new.items ≡ faults.old.items
        ++ number_faults (order_of cells.now) cells.now.row (cells_of cells.now) next) }
{
    if !cells.text(Column::N).is_empty() {
        return push_fault(alloc, faults, cells, Column::N);
    }
    if is_number(next) {
        return Ok(());
    }
    let text = CellText::new(alloc, "")?;
    faults.push(FaultyCell {
        row: cells.row,
        column: Column::N,
        text,
        fault: CellFault::NumberOutside,
    })?;
    Ok(())
}

fn is_number(n: u32) -> bool
    ensures { result ≡ is_number n }
{
    n > 0 && n <= LAST_NUMBER
}

/// The row's own number, or the next.
pub(crate) fn row_number(cells: &RowCells, next: u32) -> u32
    ensures { result ≡ row_number (cells_of cells.now) next }
{
    number_in(cells.text(Column::N).as_bytes()).unwrap_or(next)
}

/// The number behind this one.
pub(crate) fn number_after(n: u32) -> u32
    ensures { result ≡ number_after n }
{
    if n <= LAST_NUMBER { n + 1 } else { n }
}

/// The line of a row without faults. Fails with `NoMemory`.
pub(crate) fn row_line(alloc: Global, cells: &RowCells, next: u32) -> Result<TableLine, NoMemory>
    requires { row_faults (order_of cells.now) cells.now.row (cells_of cells.now) next ≡ [] }
    ensures { IfOk result (λ line. line ∷ []
        ≡ row_lines (order_of cells.now) cells.now.row (cells_of cells.now) next) }
{
    let number = row_number(cells, next);
    match Kind::named(cells.text(Column::Kind)) {
        Some(kind) => {
            let message = message_of(alloc, cells, kind)?;
            Ok(TableLine {
                row: cells.row,
                number,
                message,
            })
        }
        None => unreachable!(),
    }
}
