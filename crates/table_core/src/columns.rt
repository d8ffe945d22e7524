//! Which columns a heading names.
ghost use Rattle.std.specs.Prelude.{◌≡◌, ◌<◌, ◌+◌, ◌++◌, ◌^◌, [], length, map};
ghost use Rattle.std.specs.Prelude.{string_bytes, IfOk, OnOk};
ghost use Rattle.std.specs.Prelude.{if◌then◌else◌, ◌∷◌};
ghost use Rattle.std.specs.List.{find, list_any};
ghost use Rattle.std.specs.Str.{bytes_eq};
ghost use Rattle.table_core.specs.Columns.{column_name, is_near, near_column};
ghost use Rattle.table_core.specs.Columns.{named_fault, unnamed_fault, word_fault, words_fault};
ghost use Rattle.table_core.specs.Columns.{is_unknown, unknown_from, word_of};

use crate::word::Word;
use crate::{COLUMNS, Column, HeadingFault};
use codes_core::NoMemory;
use std::alloc::Global;
use strsim::generic_levenshtein;

/// The words of a heading. Fails with `NoMemory`.
pub(crate) fn words_of(alloc: Global, heading: &[String]) -> Result<Vec<Word>, NoMemory>
    ensures { IfOk result (λ words. words.items ≡ map word_of (map string_bytes heading.now)) }
{
    let mut words = Vec::new(alloc);
    for field in heading {
        words.push(Word::new(alloc, field.as_str())?)?;
    }
    Ok(words)
}

/// The first fault of a heading: a word that is nearly a column's name, or names one a second time.
/// Fails with `NoMemory`.
pub(crate) fn words_fault(alloc: Global, words: &[Word]) -> Result<Option<HeadingFault>, NoMemory>
    ensures { IfOk result (λ fault. fault ≡ words_fault [] words.now) }
{
    for i in 0..words.len() {
        let fault = word_fault(alloc, &words[..i], &words[i])?;
        if fault.is_some() {
            return Ok(fault);
        }
    }
    Ok(None)
}

/// The fault of a word behind others. Fails with `NoMemory`.
fn word_fault(
    alloc: Global,
    earlier: &[Word],
    word: &Word,
) -> Result<Option<HeadingFault>, NoMemory>
    ensures { IfOk result (λ fault. fault ≡ word_fault earlier.now word.now) }
{
    match column_named(&COLUMNS, word.as_bytes()) {
        Some(column) => Ok(named_fault(earlier, word.as_bytes(), column)),
        None => unnamed_fault(alloc, earlier, word.as_bytes()),
    }
}

/// The fault of a word that names a column: an earlier one names it, too.
fn named_fault(earlier: &[Word], word: &[u8], column: Column) -> Option<HeadingFault>
    ensures { result ≡ named_fault earlier.now word.now column }
{
    if is_among(earlier, word) {
        return Some(HeadingFault::TwiceHeading {
            field: earlier.len() + 1,
            column,
        });
    }
    None
}

fn is_among(words: &[Word], word: &[u8]) -> bool
    ensures { result ≡ list_any (bytes_eq word.now) words.now }
{
    words.iter().any(|other| word == other.as_bytes())
}

/// The fault of a word that names no column: it is nearly the name of one. Fails with `NoMemory`.
fn unnamed_fault(
    alloc: Global,
    earlier: &[Word],
    word: &[u8],
) -> Result<Option<HeadingFault>, NoMemory>
    ensures { IfOk result (λ fault. fault ≡ unnamed_fault earlier.now word.now) }
{
    match near_column(alloc, word)? {
        Some(column) => Ok(Some(HeadingFault::NearHeading {
            field: earlier.len() + 1,
            column,
        })),
        None => Ok(None),
    }
}

/// The column of this name among these.
fn column_named(columns: &[Column], word: &[u8]) -> Option<Column>
    ensures { result ≡ find (λ column. bytes_eq (column_name column) word.now) columns.now }
{
    for column in columns {
        if column.name().as_bytes() == word {
            return Some(*column);
        }
    }
    None
}

/// The first column that a word is near. Fails with `NoMemory`.
fn near_column(alloc: Global, word: &[u8]) -> Result<Option<Column>, NoMemory>
    ensures { IfOk result (λ column. column ≡ near_column word.now) }
{
    if word.is_empty() {
        return Ok(None);
    }
    first_near(alloc, &COLUMNS, word)
}

/// The first of these columns that a word is near. Fails with `NoMemory`.
fn first_near(alloc: Global, columns: &[Column], word: &[u8]) -> Result<Option<Column>, NoMemory>
    ensures { IfOk result (λ column. column ≡ find (is_near word.now) columns.now) }
{
    for column in columns {
        if is_near(alloc, word, *column)? {
            return Ok(Some(*column));
        }
    }
    Ok(None)
}

/// Whether one byte has to be added, dropped or changed to make the word the column's name. Fails
/// with `NoMemory`.
fn is_near(alloc: Global, word: &[u8], column: Column) -> Result<bool, NoMemory>
    ensures { IfOk result (λ near. near ≡ is_near word.now column) }
{
    let edits = generic_levenshtein(alloc, word, column.name().as_bytes())?;
    Ok(edits == 1)
}

/// The numbers of the fields that have text and name no column. Fails with `NoMemory`.
pub(crate) fn unknown_fields(alloc: Global, words: &[Word]) -> Result<Vec<usize>, NoMemory>
    ensures { IfOk result (λ unknown. unknown.items ≡ unknown_from 1 words.now) }
{
    let mut unknown = Vec::new(alloc);
    for i in 0..words.len() {
        push_unknown(&mut unknown, i, words[i].as_bytes())?;
    }
    Ok(unknown)
}

/// Adds the number of the field behind `earlier` others, if it is unknown. Fails with `NoMemory`.
fn push_unknown(unknown: &mut Vec<usize>, earlier: usize, word: &[u8]) -> Result<(), NoMemory>
    requires { earlier + 1 < 2 ^ 64 }
    ensures { OnOk result (unknown.new.items ≡ unknown.old.items
        ++ (if is_unknown word.now then (earlier + 1) ∷ [] else [])) }
{
    if is_unknown(word) {
        unknown.push(earlier + 1)?;
    }
    Ok(())
}

fn is_unknown(word: &[u8]) -> bool
    ensures { result ≡ is_unknown word.now }
{
    !word.is_empty() && column_named(&COLUMNS, word).is_none()
}
