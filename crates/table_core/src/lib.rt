//! Reads a spreadsheet table as messages, and prints them as lines, or all of its faults.
//!
//! [`read_sheet`] takes the bytes of a CSV file with commas, semicolons or tabs between the fields,
//! works out from the heading which, and returns rows of text, or a [`SheetFault`].
//! [`without_mark`] skips the byte order mark that Windows programs put before the first line.
//!
//! The first row is the heading: it names the [`Column`]s, in any order. [`read_table`] returns a
//! [`Table`] with a numbered message for each row that has text, or all faults of all rows. A
//! [`CellFault`] is what is wrong with a cell; a [`FaultyCell`] is that with its row, its column
//! and its text. [`TableOptions`] has the texts that stand for empty cells.
//!
//! ```text
//! read_sheet(alloc, b"label;code\r\n87.12.1A;1987.12.1\r\n")?   // two rows of two fields
//!
//! match read_table(alloc, &options, rows) {
//!     Ok(table) => print_lines(&table.lines),
//!     Err(TableFault::Rows(faults)) => print_faults(&faults),
//!     Err(TableFault::Heading(fault)) => print_fault(fault),
//!     Err(TableFault::NoMemory) => Err(NoMemory),
//! }
//! ```
//!
//! Labels are what the museum has on its things and places that isn't a code, such as a barcode or
//! an old number. Each stands for a code. [`Labels`] are read from the rows of a labels file, or
//! the rows are rejected with a [`LabelFault`]. [`Labels::code_for`] returns the code that a text
//! stands for, or the text itself if it is no label.
//!
//! ```text
//! // label,code
//! // 87.12.1A,1987.12.1
//! let labels = Labels::of_rows(alloc, &setup, rows.as_slice())?;
//! labels.code_for(b"87.12.1A")      // 1987.12.1
//! labels.code_for(b"S1-A")          // S1-A
//! ```
//!
//! [`read_lines`] reads the bytes of a table, puts codes in place of labels, and returns the
//! numbered messages of the rows, or the faults that stop them. [`lines_text`] is the text of the
//! JSON lines that a station sends. [`faults_text`], [`help_text`] and [`notes_text`] are for the
//! user.
//!
//! ```text
//! match read_lines(alloc, &options, &labels, bytes) {
//!     Ok(sheet) => {
//!         print(lines_text(alloc, "REG", &sheet.table.lines)?);
//!         print_note(notes_text(alloc, &sheet)?);
//!     }
//!     Err(fault) => {
//!         print_error(faults_text(alloc, &fault)?);
//!         print_error(help_text(&fault));
//!     }
//! }
//! ```
#![tactic(auto)]

mod cell;
mod cell_text;
mod column;
mod columns;
mod days;
mod digits;
mod fault;
mod heading;
mod kind;
mod labels;
pub mod laws;
mod mark;
mod message;
mod objects;
mod options;
mod printed;
mod row;
mod row_cells;
mod sheet_fault;
mod sheet_reader;
mod table;
mod table_fault;
mod word;

pub use cell_text::CellText;
pub use column::Column;
pub use fault::{CellFault, FaultyCell, HeadingFault};
pub use kind::Kind;
pub use labels::Labels;
pub use labels::fault::LabelFault;
pub use mark::{past_mark, skip_mark, without_mark};
pub use options::{DateOrder, TableOptions};
pub use printed::fault_texts::faults_text;
pub use printed::help_lines::help_text;
pub use printed::line_texts::lines_text;
pub use printed::lines_fault::LinesFault;
pub use printed::note_texts::notes_text;
pub use printed::sheet_lines::{SheetLines, read_lines};
pub use row::TableLine;
pub use sheet_fault::SheetFault;
pub use sheet_reader::read_sheet;
pub use table::{Table, read_table};
pub use table_fault::TableFault;

/// All columns.
pub const COLUMNS: [Column; 12] = [
    Column::Kind,
    Column::Thing,
    Column::Container,
    Column::Place,
    Column::Day,
    Column::Loan,
    Column::Partner,
    Column::Objects,
    Column::First,
    Column::Last,
    Column::By,
    Column::N,
];
