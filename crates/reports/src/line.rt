//! The line of a row, and the heading above all rows. Each ends with a line feed.
ghost use Rattle.std.specs.Prelude.{◌≡◌, IfOk, length, map, string_bytes};
ghost use Rattle.std.specs.List.{filter};
ghost use Rattle.csv.specs.Writing.{default_writer, row_text};
ghost use Rattle.reports.specs.Columns.{names_in};
ghost use Rattle.reports.specs.Forms.{heading, line_text};
ghost use Rattle.reports.specs.Cells.{is_shown, member, object_line, plain_text, cell_of};
ghost use Rattle.reports.specs.Cells.{joined_words, words_line};

use crate::Form;
use crate::columns::Columns;
use crate::field::{Field, is_shown, json_text, plain_text, quoted};
use crate::table::{table_heading, table_line};
use codes_core::NoMemory;
use csv::WriterBuilder;
use std::alloc::Global;

/// The heading: the column names as a line of comma-separated values or of a table. Empty in the
/// other forms.
pub(crate) fn heading(alloc: Global, form: Form, columns: &Columns<'_>) -> Result<String, NoMemory>
    ensures { IfOk result (λ text. string_bytes text
        ≡ heading form (names_in columns.now) columns.now.widths.items) }
{
    match form {
        Form::Plain | Form::Json => Ok(String::new(alloc)),
        Form::Csv => separated(alloc, columns.names),
        Form::Table => table_heading(alloc, columns.widths.as_slice(), columns.names),
    }
}

/// The line of a row with these fields. Fails with `NoMemory`.
pub(crate) fn line(
    alloc: Global,
    form: Form,
    columns: &Columns<'_>,
    row: &[Field<'_>],
) -> Result<String, NoMemory>
    ensures { IfOk result (λ text. string_bytes text
        ≡ line_text form (names_in columns.now) columns.now.widths.items
        (map cell_of row.now)) }
{
    match form {
        Form::Plain => words_line(alloc, row),
        Form::Csv => separated_fields(alloc, row),
        Form::Json => object(alloc, columns.names, row),
        Form::Table => table_line(alloc, columns.widths.as_slice(), row),
    }
}

/// A plain line: the words that have a text, with spaces between them.
fn words_line(alloc: Global, words: &[Field<'_>]) -> Result<String, NoMemory>
    ensures { IfOk result (λ line. string_bytes line ≡ words_line (map cell_of words.now)) }
{
    let line = joined_words(alloc, words)?;
    Ok([line.as_str(), "\n"].concat(alloc)?)
}

/// The words that have a text, with spaces between them.
pub(crate) fn joined_words(alloc: Global, words: &[Field<'_>]) -> Result<String, NoMemory>
    ensures { IfOk result
        (λ line. string_bytes line ≡ joined_words (map cell_of words.now)) }
{
    let texts = word_texts(alloc, words)?;
    Ok(texts.as_slice().join(alloc, " ")?)
}

/// The text of each of these words, if it has one.
fn word_texts(alloc: Global, words: &[Field<'_>]) -> Result<Vec<String>, NoMemory>
    ensures { IfOk result (λ texts. map string_bytes texts.items
        ≡ map plain_text (filter is_shown (map cell_of words.now))) }
{
    let mut texts = Vec::new(alloc);
    for word in words {
        if is_shown(word) {
            texts.push(plain_text(alloc, word)?)?;
        }
    }
    Ok(texts)
}

/// A JSON object with a member for each name and field.
fn object(alloc: Global, names: &[&str], fields: &[Field<'_>]) -> Result<String, NoMemory>
    ensures { IfOk result (λ line. string_bytes line
        ≡ object_line (map (λ name. name.now) names.now) (map cell_of fields.now)) }
{
    let mut texts = Vec::new(alloc);
    for i in 0..names.len().min(fields.len()) {
        texts.push(member(alloc, names[i], &fields[i])?)?;
    }
    let members = texts.as_slice().join(alloc, ",")?;
    Ok(["{", members.as_str(), "}\n"].concat(alloc)?)
}

/// A member of a JSON object.
fn member(alloc: Global, name: &str, field: &Field<'_>) -> Result<String, NoMemory>
    ensures { IfOk result (λ text. string_bytes text ≡ member name.now (cell_of field.now)) }
{
    let name = quoted(alloc, name)?;
    let value = json_text(alloc, field)?;
    Ok([name.as_str(), ":", value.as_str()].concat(alloc)?)
}

/// A row of comma-separated values with these fields.
fn separated_fields(alloc: Global, fields: &[Field<'_>]) -> Result<String, NoMemory>
    ensures { IfOk result (λ line. string_bytes line
        ≡ row_text default_writer (map plain_text (map cell_of fields.now))) }
{
    let texts = plain_texts(alloc, fields)?;
    let mut values = Vec::new(alloc);
    for text in texts.iter() {
        values.push(text.as_bytes())?;
    }
    row_line(alloc, values.as_slice())
}

/// The text of each field.
fn plain_texts(alloc: Global, fields: &[Field<'_>]) -> Result<Vec<String>, NoMemory>
    ensures { IfOk result
        (λ texts. map string_bytes texts.items ≡ map plain_text (map cell_of fields.now)) }
{
    let mut texts = Vec::new(alloc);
    for field in fields {
        texts.push(plain_text(alloc, field)?)?;
    }
    Ok(texts)
}

/// A row of comma-separated values with these texts.
fn separated(alloc: Global, texts: &[&str]) -> Result<String, NoMemory>
    ensures { IfOk result (λ text. string_bytes text
        ≡ row_text default_writer (map (λ t. t.now) texts.now)) }
{
    let mut fields = Vec::new(alloc);
    for i in 0..texts.len() {
        fields.push(texts[i].as_bytes())?;
    }
    row_line(alloc, fields.as_slice())
}

/// A row of comma-separated values with these bytes.
fn row_line(alloc: Global, fields: &[&[u8]]) -> Result<String, NoMemory>
    ensures { IfOk result (λ text. string_bytes text
        ≡ row_text default_writer (map (λ f. f.now) fields.now)) }
{
    let Ok(bytes) = row_bytes(alloc, fields) else {
        return Err(NoMemory);
    };
    match String::from_utf8(bytes) {
        Ok(text) => Ok(text),
        Err(_) => Err(NoMemory),
    }
}

/// The bytes of a row of comma-separated values.
fn row_bytes(alloc: Global, fields: &[&[u8]]) -> Result<Vec<u8>, csv::Error>
    ensures { IfOk result (λ bytes. bytes.items
        ≡ row_text default_writer (map (λ f. f.now) fields.now)) }
{
    let mut wtr = WriterBuilder::new().from_writer(Vec::new(alloc));
    wtr.write_fields(fields)?;
    match wtr.into_inner() {
        Ok(bytes) => Ok(bytes),
        Err(error) => Err(error.into_error()),
    }
}
