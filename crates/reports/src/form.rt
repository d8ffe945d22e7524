//! The forms in which a report is printed.

/// The form of a report.
#[derive(Clone, Copy, Debug, PartialEq, Eq)]
pub enum Form {
    /// Lines of words.
    Plain,
    /// Comma-separated values, below a row of the column names.
    Csv,
    /// A JSON object on each line.
    Json,
    /// Aligned columns, below a row of the column names.
    Table,
}
