//! One row of a labels file: its columns and its fields.
ghost use Rattle.std.specs.Prelude.{◌≡◌, ◌<◌, IfSome, length, map, string_bytes};
ghost use Rattle.std.specs.List.{list_any, position};
ghost use Rattle.table_core.specs.LabelRows.{column, columns_of, field, is_word};

use crate::labels::text::trim;

/// The indexes of the columns of labels and codes.
#[derive(Clone, Copy)]
pub(crate) struct Columns {
    pub label: usize,
    pub code: usize,
}

/// The columns of this heading. None if it doesn't have each exactly once.
pub(crate) fn columns_of(heading: &[String]) -> Option<Columns>
    ensures { result ≡ columns_of (map string_bytes heading.now) }
{
    let label = column(b"label", heading)?;
    let code = column(b"code", heading)?;
    Some(Columns { label, code })
}

/// The index of the only field that is this word. None if none is, or more than one.
fn column(word: &[u8], heading: &[String]) -> Option<usize>
    ensures { result ≡ column word.now (map string_bytes heading.now) }
{
    let first = first_column(word, heading)?;
    if is_among(word, heading.split_at(first + 1).1) {
        return None;
    }
    Some(first)
}

/// The index of the first field that is this word.
fn first_column(word: &[u8], heading: &[String]) -> Option<usize>
    ensures found { result ≡ position (is_word word.now) (map string_bytes heading.now) }
    ensures within { IfSome result (λ i. i < length heading.now) }
{
    heading.iter().position(|f| is_word(word, f))
}

/// Whether one of the fields is this word.
fn is_among(word: &[u8], fields: &[String]) -> bool
    ensures { result ≡ list_any (is_word word.now) (map string_bytes fields.now) }
{
    fields.iter().any(|f| is_word(word, f))
}

/// Whether the field is this word, in any case and with blanks at its ends or without.
fn is_word(word: &[u8], field: &String) -> bool
    ensures { result ≡ is_word word.now (string_bytes field.now) }
{
    trim(field.as_bytes()).eq_ignore_ascii_case(word)
}

/// A field of a row without the blanks at its ends. Empty if the row is shorter.
pub(crate) fn field(row: &[String], i: usize) -> &[u8]
    ensures { result.now ≡ field (map string_bytes row.now) i }
{
    match row.get(i) {
        Some(text) => trim(text.as_bytes()),
        None => b"",
    }
}
