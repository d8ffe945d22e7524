//! The columns of a report.

/// The columns of a report.
#[derive(Drop)]
pub(crate) struct Columns<'a> {
    pub names: &'a [&'a str],
    /// Their widths in a table. Empty in the other forms.
    pub widths: Vec<usize>,
}
