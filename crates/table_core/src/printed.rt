//! The printed text for a table: the lines of its messages, or all of its faults with a `help:`
//! line, and notes.

mod coded_rows;
pub(crate) mod fault_texts;
mod fault_words;
pub(crate) mod help_lines;
pub(crate) mod line_texts;
pub(crate) mod lines_fault;
pub(crate) mod note_texts;
pub(crate) mod sheet_lines;
