//! Finds the cells of a row.
ghost use Rattle.std.specs.Prelude.{◌≡◌, [], map, string_bytes};
ghost use Rattle.std.specs.List.{position, slice_index_or};
ghost use Rattle.std.specs.Str.{bytes_eq};
ghost use Rattle.table_core.specs.Columns.{column_name};
ghost use Rattle.table_core.specs.TableRows.{field, option_text, or_text};
ghost use Rattle.table_core.specs.RowCells.{cells_of};

use crate::word::Word;
use crate::{Column, TableOptions};

/// A row, and what its cells are found by.
#[derive(Drop)]
pub(crate) struct RowCells<'a> {
    pub(crate) options: &'a TableOptions,
    /// The words of the heading, in the order of its fields.
    pub(crate) words: &'a [Word],
    /// Counts from 1, which is the heading.
    pub(crate) row: usize,
    pub(crate) fields: &'a [String],
}

impl<'a> RowCells<'a> {
    /// The cell in a column. Empty if there is none, and no option stands for it.
    pub(crate) fn text(&self, column: Column) -> &'a str
        ensures { result.now ≡ cells_of self.now column }
    {
        let own = field(self.fields, place_of(self.words, column.name()));
        if own.is_empty() {
            option_text(self.options, column)
        } else {
            own
        }
    }
}

/// The first field of the heading with this word.
fn place_of(words: &[Word], name: &str) -> Option<usize>
    ensures { result ≡ position (bytes_eq name.now) words.now }
{
    words
        .iter()
        .position(|word| name.as_bytes() == word.as_bytes())
}

/// The field in this place. Empty if the row has fewer.
fn field<'a>(fields: &'a [String], place: Option<usize>) -> &'a str
    ensures { result.now ≡ field (map string_bytes fields.now) place }
{
    match place {
        Some(i) => field_at(fields, i),
        None => "",
    }
}

/// The field at this index. Empty if there is none.
pub(crate) fn field_at<'a>(fields: &'a [String], i: usize) -> &'a str
    ensures { result.now ≡ slice_index_or (map string_bytes fields.now) i [] }
{
    if i < fields.len() {
        fields[i].as_str()
    } else {
        ""
    }
}

/// The text that is used for an empty cell in a column.
fn option_text<'a>(options: &'a TableOptions, column: Column) -> &'a str
    ensures { result.now ≡ option_text options.now column }
{
    match column {
        Column::Kind => options.kind.as_str(),
        Column::Day => options.day.as_str(),
        Column::Place => options.place.as_str(),
        Column::Loan => options.loan.as_str(),
        Column::By => options.by.as_str(),
        Column::Thing
        | Column::Container
        | Column::Partner
        | Column::Objects
        | Column::First
        | Column::Last
        | Column::N => "",
    }
}
