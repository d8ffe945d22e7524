//! Why entries got their verdicts.
ghost use Rattle.std.specs.Prelude.{◌≡◌, ◌<◌, ◌+◌, IfOk, OnOk, length, map, not, option_map};
ghost use Rattle.std.specs.Prelude.{string_bytes};
ghost use Rattle.std.specs.Option.{option_to_list};
ghost use Rattle.posting_core.specs.Past.{upto};
ghost use Rattle.reports.specs.Causes.{cause_cell, cause_row, cause_rows, cause_rows_at};
ghost use Rattle.reports.specs.Causes.{cause_values, cause_words, code_of, entry_words};
ghost use Rattle.reports.specs.Causes.{is_empty, verdict_word};
ghost use Rattle.reports.specs.Cells.{cell_of, text_if};
ghost use Rattle.reports.specs.declared.form.Form.{Form};
ghost use Rattle.reports.specs.Aligned.{column_widths, row_texts, wider};
ghost use Rattle.reports.specs.Columns.{names_in};
ghost use Rattle.reports.specs.Forms.{Prints, lines_text, rows_text, widths_in};

use crate::columns::Columns;
use crate::field::Field;
use crate::line::joined_words;
use crate::optional_fields::{loan_if, place_if, thing_if};
use crate::reports::cause::{code_field, sentence};
use crate::reports::entry_filter::is_wanted;
use crate::rows::{print_heading, print_line};
use crate::sections::{entry_at, station_name};
use crate::table::{name_widths, widen_to_row};
use crate::{EntryFilter, Form, PrintFault};
use codes_core::NoMemory;
use nest_core::Setup;
use posting_core::{
    Culprit, Ledger, Message, PostedEntry, Verdict, container_named, find_culprit, kind_name,
    loan_named, past, place_named, post_next, thing_named,
};
use std::alloc::Global;
use std::io::Write;

/// Prints why the entries that the list has got their verdicts. It goes through the record from its
/// first entry, and judges each entry on the record before it. For a table it does so twice.
pub(crate) fn print_causes<W: Write>(
    alloc: Global,
    ledger: &Ledger,
    asked: &EntryFilter,
    form: Form,
    names: &[&str],
    out: &mut W,
) -> Result<(), PrintFault>
    ensures { Prints (W.contents out.old) (W.contents out.new) result
        (rows_text form (map (λ n. n.now) names.now) (cause_rows ledger.now form asked.now)) }
{
    let columns = cause_columns(alloc, ledger, asked, form, names)?;
    print_heading(alloc, form, &columns, out)?;
    print_each(alloc, ledger, asked, form, &columns, out)
}

/// The columns of the report.
fn cause_columns<'a>(
    alloc: Global,
    ledger: &Ledger,
    asked: &EntryFilter,
    form: Form,
    names: &'a [&'a str],
) -> Result<Columns<'a>, NoMemory>
    ensures names { IfOk result
        (λ columns. names_in columns ≡ map (λ n. n.now) names.entry.now) }
    ensures widths { IfOk result (λ columns. columns.widths.items ≡ widths_in form
        (map (λ n. n.now) names.entry.now) (cause_rows ledger.now form asked.now)) }
{
    let widths = match form {
        Form::Plain | Form::Csv | Form::Json => Vec::new(alloc),
        Form::Table => cause_widths(alloc, ledger, asked, names)?,
    };
    Ok(Columns { names, widths })
}

/// The widths of the columns of a table.
fn cause_widths(
    alloc: Global,
    ledger: &Ledger,
    asked: &EntryFilter,
    names: &[&str],
) -> Result<Vec<usize>, NoMemory>
    ensures { IfOk result (λ widths. widths.items ≡ widths_in Form.Table
        (map (λ n. n.now) names.now) (cause_rows ledger.now Form.Table asked.now)) }
{
    let mut widths = name_widths(alloc, names)?;
    let mut before = past(alloc, ledger, 0)?;
    for i in 0..ledger.entry_count() as usize {
        widen_to_wanted(alloc, ledger, &before, i, asked, &mut widths)?;
        post_next(alloc, ledger, &mut before, i)?;
    }
    Ok(widths)
}

/// Widens the columns to the row of the entry at index `i`, if the list has it.
fn widen_to_wanted(
    alloc: Global,
    ledger: &Ledger,
    before: &Ledger,
    i: usize,
    asked: &EntryFilter,
    widths: &mut Vec<usize>,
) -> Result<(), NoMemory>
    requires within { i < length ledger.now.posted }
    requires before { before.now ≡ upto ledger.now i }
    ensures { OnOk result (widths.new.items ≡ wider widths.old.items
        (column_widths (map row_texts (cause_rows_at ledger.now Form.Table asked.now i)))) }
{
    match wanted_row(alloc, ledger, before, i, asked, Form::Table)? {
        None => Ok(()),
        Some(row) => widen_to_row(alloc, widths, row.as_slice()),
    }
}

/// Prints the lines of these entries.
fn print_each<W: Write>(
    alloc: Global,
    ledger: &Ledger,
    asked: &EntryFilter,
    form: Form,
    columns: &Columns<'_>,
    out: &mut W,
) -> Result<(), PrintFault>
    ensures { Prints (W.contents out.old) (W.contents out.new) result
        (lines_text form (names_in columns.now) columns.now.widths.items
        (cause_rows ledger.now form asked.now)) }
{
    let mut before = past(alloc, ledger, 0)?;
    for i in 0..ledger.entry_count() as usize {
        print_wanted(alloc, ledger, &before, i, asked, form, columns, out)?;
        post_next(alloc, ledger, &mut before, i)?;
    }
    Ok(())
}

/// Prints the line of the entry at index `i`, if the list has it. `before` is the record before the
/// entry.
fn print_wanted<W: Write>(
    alloc: Global,
    ledger: &Ledger,
    before: &Ledger,
    i: usize,
    asked: &EntryFilter,
    form: Form,
    columns: &Columns<'_>,
    out: &mut W,
) -> Result<(), PrintFault>
    requires within { i < length ledger.now.posted }
    requires before { before.now ≡ upto ledger.now i }
    ensures { Prints (W.contents out.old) (W.contents out.new) result
        (lines_text form (names_in columns.now) columns.now.widths.items
        (cause_rows_at ledger.now form asked.now i)) }
{
    match wanted_row(alloc, ledger, before, i, asked, form)? {
        None => Ok(()),
        Some(row) => print_line(alloc, form, columns, row.as_slice(), out),
    }
}

/// The row of the entry at index `i`, if the list has it.
fn wanted_row<'a>(
    alloc: Global,
    ledger: &Ledger,
    before: &'a Ledger,
    i: usize,
    asked: &EntryFilter,
    form: Form,
) -> Result<Option<Vec<Field<'a>>>, NoMemory>
    requires within { i < length ledger.now.posted }
    requires before { before.now ≡ upto ledger.now i }
    ensures { IfOk result (λ row. option_to_list (option_map (λ r. map cell_of r.items) row)
        ≡ cause_rows_at ledger.now form asked.now i) }
{
    let _ = ledger.entry_count();
    let number = i as u64 + 1;
    let entry = entry_at(ledger, i);
    if !is_wanted(alloc, ledger.setup(), asked, number, entry)? {
        return Ok(None);
    }
    Ok(Some(cause_row(alloc, before, form, number, entry)?))
}

/// The row of an entry, from the record before it.
fn cause_row<'a>(
    alloc: Global,
    before: &'a Ledger,
    form: Form,
    number: u64,
    entry: &PostedEntry,
) -> Result<Vec<Field<'a>>, NoMemory>
    ensures { IfOk result
        (λ row. map cell_of row.items ≡ cause_row before.entry.now form number entry.now) }
{
    let message = entry.message().to_message(alloc)?;
    match form {
        Form::Plain => cause_words(alloc, before, number, entry, &message),
        Form::Csv | Form::Json | Form::Table => cause_values(
            alloc, before, number, entry, &message,
        ),
    }
}

/// The words of an entry's plain line.
fn cause_words<'a>(
    alloc: Global,
    before: &'a Ledger,
    number: u64,
    entry: &PostedEntry,
    message: &Message,
) -> Result<Vec<Field<'a>>, NoMemory>
    requires { message.now ≡ entry.now.message }
    ensures { IfOk result
        (λ row. map cell_of row.items ≡ cause_words before.entry.now number entry.now) }
{
    let mut words = sentence(alloc, before, message, entry.verdict())?;
    let has_sentence = has_words(words.as_slice());
    let mut row = entry_words(alloc, before.setup(), number, entry, message, has_sentence)?;
    row.append(&mut words)?;
    Ok(row)
}

fn has_words(words: &[Field<'_>]) -> bool
    ensures { result ≡ not (is_empty (map cell_of words.now)) }
{
    !words.is_empty()
}

/// The words before the sentence.
fn entry_words<'a>(
    alloc: Global,
    setup: &'a Setup,
    number: u64,
    entry: &PostedEntry,
    message: &Message,
    has_sentence: bool,
) -> Result<Vec<Field<'a>>, NoMemory>
    requires { message.now ≡ entry.now.message }
    ensures { IfOk result (λ row. map cell_of row.items
        ≡ entry_words setup.entry.now number entry.now has_sentence) }
{
    let verdict = verdict_word(alloc, entry.verdict(), has_sentence)?;
    Ok(vec![in alloc;
        Field::Number(number),
        Field::Word(station_name(setup, entry.station())),
        Field::Number(u64::from(entry.n())),
        Field::Word(kind_name(message)),
        thing_if(thing_named(message)),
        thing_if(container_named(message)),
        loan_if(loan_named(message)),
        place_if(place_named(message)),
        Field::Text(verdict),
    ]?)
}

/// The verdict's name, with a colon before a sentence.
fn verdict_word(alloc: Global, verdict: Verdict, has_sentence: bool) -> Result<String, NoMemory>
    ensures { IfOk result (λ word. string_bytes word ≡ verdict_word verdict has_sentence) }
{
    let end = if has_sentence { ":" } else { "" };
    Ok([verdict.name(), end].concat(alloc)?)
}

/// The values of an entry's row.
fn cause_values<'a>(
    alloc: Global,
    before: &'a Ledger,
    number: u64,
    entry: &PostedEntry,
    message: &Message,
) -> Result<Vec<Field<'a>>, NoMemory>
    requires { message.now ≡ entry.now.message }
    ensures { IfOk result
        (λ row. map cell_of row.items ≡ cause_values before.entry.now number entry.now) }
{
    let culprit = find_culprit(alloc, before, message, entry.verdict())?;
    let words = sentence(alloc, before, message, entry.verdict())?;
    let cause = cause_field(alloc, words.as_slice())?;
    Ok(vec![in alloc;
        Field::Number(number),
        Field::Word(station_name(before.setup(), entry.station())),
        Field::Number(u64::from(entry.n())),
        Field::Word(kind_name(message)),
        Field::Word(entry.verdict().name()),
        culprit_if(culprit),
        cause,
    ]?)
}

/// The code of the culprit, if there is one.
fn culprit_if<'a>(culprit: Option<Culprit>) -> Field<'a>
    ensures { cell_of result ≡ text_if (option_map code_of culprit) }
{
    match culprit {
        Some(culprit) => code_field(culprit),
        None => Field::Nothing,
    }
}

/// The sentence as one text.
fn cause_field<'a>(alloc: Global, words: &[Field<'_>]) -> Result<Field<'a>, NoMemory>
    ensures { IfOk result (λ field. cell_of field ≡ cause_cell (map cell_of words.now)) }
{
    if words.is_empty() {
        return Ok(Field::Nothing);
    }
    Ok(Field::Text(joined_words(alloc, words)?))
}
