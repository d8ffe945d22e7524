//! Writes the rows of a section one after another.
ghost use Rattle.std.specs.Prelude.{◌≡◌, ◌<◌, ◌++◌, ℕ, IfOk, List, Some, length};
ghost use Rattle.std.specs.Prelude.{slice_get};
ghost use Rattle.std.specs.Prelude.{string_bytes};
ghost use Rattle.std.specs.Option.{option_to_list};
ghost use Rattle.reports.specs.Writes.{Writes, rows_text};

use crate::PrintFault;
use crate::sections::writing::write_text;
use codes_core::NoMemory;
use std::alloc::Global;
use std::io::Write;

/// The rows of a section, numbered from 0. Each is made when it is written.
pub trait Rows {
    // The text of each row.
    ghost texts: { Self → List (List ℕ) };

    /// The number of rows.
    fn len(&self) -> usize
        ensures { result ≡ length (texts self.now) };

    /// The text of row `i`.
    fn row(&self, alloc: Global, i: usize) -> Result<String, NoMemory>
        requires { i < length (texts self.now) }
        ensures { IfOk result
            (λ row. slice_get (texts self.now) i ≡ Some (string_bytes row)) };
}

/// Writes a section: the markup before its rows, its rows, and the markup after them.
pub fn write_section<R: Rows, W: Write>(
    alloc: Global,
    before: &str,
    rows: &R,
    after: &str,
    out: &mut W,
) -> Result<(), PrintFault>
    ensures { Writes (W.contents out.old) (W.contents out.new) result
        (before.now ++ (rows_text (R.texts rows.now) ++ after.now)) }
{
    write_text(out, before)?;
    write_rest(alloc, rows, after, out)
}

/// Writes the rows of a section and the markup after them.
fn write_rest<R: Rows, W: Write>(
    alloc: Global,
    rows: &R,
    after: &str,
    out: &mut W,
) -> Result<(), PrintFault>
    ensures { Writes (W.contents out.old) (W.contents out.new) result
        (rows_text (R.texts rows.now) ++ after.now) }
{
    write_rows(alloc, rows, out)?;
    write_text(out, after)
}

/// Writes the rows.
pub fn write_rows<R: Rows, W: Write>(alloc: Global, rows: &R, out: &mut W) -> Result<(), PrintFault>
    ensures { Writes (W.contents out.old) (W.contents out.new) result
        (rows_text (R.texts rows.now)) }
{
    for i in 0..rows.len() {
        write_row(alloc, rows, i, out)?;
    }
    Ok(())
}

/// Writes row `i`.
fn write_row<R: Rows, W: Write>(
    alloc: Global,
    rows: &R,
    i: usize,
    out: &mut W,
) -> Result<(), PrintFault>
    requires { i < length (R.texts rows.now) }
    ensures { Writes (W.contents out.old) (W.contents out.new) result
        (rows_text (option_to_list (slice_get (R.texts rows.now) i))) }
{
    let row = rows.row(alloc, i)?;
    write_text(out, row.as_str())
}
