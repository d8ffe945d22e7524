//! The lines that name the faults of a table.
ghost use Rattle.std.specs.Prelude.{◌≡◌, ◌++◌, IfOk, OnOk, string_bytes};
ghost use Rattle.table_core.specs.FaultTexts.{cell_text, cells_text, faults_text, heading_text};

use crate::printed::fault_words::{words_before, words_of};
use crate::{FaultyCell, HeadingFault, LinesFault};
use codes_core::{NoMemory, add_quoted};
use std::alloc::Global;

/// Returns the lines of all faults, in their order, each with its line feed: one of the table or
/// its heading, or one for each faulty cell. Fails with `NoMemory`.
pub fn faults_text(alloc: Global, fault: &LinesFault) -> Result<String, NoMemory>
    ensures { IfOk result (λ text. string_bytes text ≡ faults_text fault.now) }
{
    let mut text = String::new(alloc);
    match fault {
        LinesFault::Sheet(fault) => write!(text, "fault table {}\n", fault.name())?,
        LinesFault::Heading(fault) => add_heading(&mut text, *fault)?,
        LinesFault::Rows(faults) => add_cells(&mut text, faults.as_slice())?,
        LinesFault::NoMemory => text.push_str("fault memory\n")?,
    }
    Ok(text)
}

/// Appends the line of a heading's fault. Fails with `NoMemory`.
fn add_heading(text: &mut String, fault: HeadingFault) -> Result<(), NoMemory>
    ensures { OnOk result
        (string_bytes text.new ≡ string_bytes text.old ++ heading_text fault) }
{
    match fault {
        HeadingFault::NoHeading => text.push_str("fault table NoHeading\n")?,
        HeadingFault::NearHeading { field, column } => {
            let name = column.name();
            write!(
                text,
                "fault table NearHeading column {field}: nearly '{name}'\n"
            )?
        }
        HeadingFault::TwiceHeading { field, column } => {
            let name = column.name();
            write!(
                text,
                "fault table TwiceHeading column {field}: '{name}' a second time\n"
            )?
        }
    }
    Ok(())
}

/// Appends a line for each faulty cell. Fails with `NoMemory`.
fn add_cells(text: &mut String, cells: &[FaultyCell]) -> Result<(), NoMemory>
    ensures { OnOk result
        (string_bytes text.new ≡ string_bytes text.old ++ cells_text cells.now) }
{
    for cell in cells {
        add_cell(text, cell)?;
    }
    Ok(())
}

/// Appends the line of a faulty cell. Fails with `NoMemory`.
fn add_cell(text: &mut String, cell: &FaultyCell) -> Result<(), NoMemory>
    ensures { OnOk result
        (string_bytes text.new ≡ string_bytes text.old ++ cell_text cell.now) }
{
    write!(text, "fault table row {} {} ", cell.row, cell.column.name())?;
    add_quoted(text, cell.text.as_str())?;
    write!(
        text,
        ": {}{}\n",
        words_before(cell.fault),
        words_of(cell.fault)
    )?;
    Ok(())
}
