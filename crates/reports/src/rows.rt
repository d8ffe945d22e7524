//! Prints the rows of a report one after another.
ghost use Rattle.std.specs.Prelude.{◌≡◌, ◌<◌, List, IfOk, OnOk, Some, length, map, slice_get};
ghost use Rattle.std.specs.Option.{option_to_list};
ghost use Rattle.reports.specs.declared.form.Form.{Form};
ghost use Rattle.reports.specs.Aligned.{column_widths, row_texts, wider};
ghost use Rattle.reports.specs.Columns.{names_in};
ghost use Rattle.reports.specs.Forms.{Prints, heading, line_text, lines_text, rows_text, widths_in};
ghost use Rattle.reports.specs.Cells.{Cell, cell_of};

use crate::columns::Columns;
use crate::field::Field;
use crate::line::{heading, line};
use crate::table::{name_widths, widen_to_row};
use crate::writing::write_text;
use crate::{Form, PrintFault};
use codes_core::NoMemory;
use std::alloc::Global;
use std::io::Write;

/// The rows of a report, numbered from 0. Each is made when it is printed.
pub(crate) trait Rows {
    // The cells of each row, in this form.
    ghost rows: { Self → Form → List (List Cell) };

    /// The number of rows in this form.
    fn len(&self, form: Form) -> usize
        ensures { result ≡ length (rows self.now form) };

    /// The fields of row `i`.
    fn row(&self, alloc: Global, form: Form, i: usize) -> Result<Vec<Field<'_>>, NoMemory>
        requires { i < length (rows self.now form) }
        ensures { IfOk result
            (λ row. slice_get (rows self.now form) i ≡ Some (map cell_of row.items)) };
}

/// Prints the heading of a report, if its form has one, and a line for each row.
pub(crate) fn print_rows<R: Rows, W: Write>(
    alloc: Global,
    form: Form,
    names: &[&str],
    rows: &R,
    out: &mut W,
) -> Result<(), PrintFault>
    ensures { Prints (W.contents out.old) (W.contents out.new) result
        (rows_text form (map (λ n. n.now) names.now) (R.rows rows.now form)) }
{
    let columns = columns_of(alloc, form, names, rows)?;
    print_heading(alloc, form, &columns, out)?;
    print_lines(alloc, form, &columns, rows, out)
}

/// The columns of a report with these rows. For a table it goes through the rows.
fn columns_of<'a, R: Rows>(
    alloc: Global,
    form: Form,
    names: &'a [&'a str],
    rows: &R,
) -> Result<Columns<'a>, NoMemory>
    ensures names { IfOk result
        (λ columns. names_in columns ≡ map (λ n. n.now) names.entry.now) }
    ensures widths { IfOk result (λ columns. columns.widths.items
        ≡ widths_in form (map (λ n. n.now) names.entry.now) (R.rows rows.now form)) }
{
    let widths = match form {
        Form::Plain | Form::Csv | Form::Json => Vec::new(alloc),
        Form::Table => widths_of(alloc, names, rows)?,
    };
    Ok(Columns { names, widths })
}

/// The widths of the columns of a table with these rows.
fn widths_of<R: Rows>(alloc: Global, names: &[&str], rows: &R) -> Result<Vec<usize>, NoMemory>
    ensures { IfOk result (λ widths. widths.items
        ≡ widths_in Form.Table (map (λ n. n.now) names.now) (R.rows rows.now Form.Table)) }
{
    let mut widths = name_widths(alloc, names)?;
    for i in 0..rows.len(Form::Table) {
        widen_to(alloc, rows, i, &mut widths)?;
    }
    Ok(widths)
}

/// Widens the columns to the cells of row `i`.
fn widen_to<R: Rows>(
    alloc: Global,
    rows: &R,
    i: usize,
    widths: &mut Vec<usize>,
) -> Result<(), NoMemory>
    requires { i < length (R.rows rows.now Form.Table) }
    ensures { OnOk result (widths.new.items ≡ wider widths.old.items
        (column_widths (map row_texts
        (option_to_list (slice_get (R.rows rows.now Form.Table) i))))) }
{
    let row = rows.row(alloc, Form::Table, i)?;
    widen_to_row(alloc, widths, row.as_slice())
}

pub(crate) fn print_heading<W: Write>(
    alloc: Global,
    form: Form,
    columns: &Columns<'_>,
    out: &mut W,
) -> Result<(), PrintFault>
    ensures { Prints (W.contents out.old) (W.contents out.new) result
        (heading form (names_in columns.now) columns.now.widths.items) }
{
    let text = heading(alloc, form, columns)?;
    write_text(out, text.as_bytes())
}

fn print_lines<R: Rows, W: Write>(
    alloc: Global,
    form: Form,
    columns: &Columns<'_>,
    rows: &R,
    out: &mut W,
) -> Result<(), PrintFault>
    ensures { Prints (W.contents out.old) (W.contents out.new) result
        (lines_text form (names_in columns.now) columns.now.widths.items
        (R.rows rows.now form)) }
{
    for i in 0..rows.len(form) {
        print_row(alloc, form, columns, rows, i, out)?;
    }
    Ok(())
}

/// Prints the line of row `i`.
fn print_row<R: Rows, W: Write>(
    alloc: Global,
    form: Form,
    columns: &Columns<'_>,
    rows: &R,
    i: usize,
    out: &mut W,
) -> Result<(), PrintFault>
    requires { i < length (R.rows rows.now form) }
    ensures { Prints (W.contents out.old) (W.contents out.new) result
        (lines_text form (names_in columns.now) columns.now.widths.items
        (option_to_list (slice_get (R.rows rows.now form) i))) }
{
    let row = rows.row(alloc, form, i)?;
    print_line(alloc, form, columns, row.as_slice(), out)
}

/// Prints the line of a row with these fields.
pub(crate) fn print_line<W: Write>(
    alloc: Global,
    form: Form,
    columns: &Columns<'_>,
    row: &[Field<'_>],
    out: &mut W,
) -> Result<(), PrintFault>
    ensures { Prints (W.contents out.old) (W.contents out.new) result
        (line_text form (names_in columns.now) columns.now.widths.items
        (map cell_of row.now)) }
{
    let text = line(alloc, form, columns, row)?;
    write_text(out, text.as_bytes())
}
