//! Cells of tables.
ghost use Rattle.std.specs.Prelude.{◌≡◌, ◌++◌, OnOk, string_bytes};
ghost use Rattle.page_core.specs.Pieces.{page_text};
ghost use Rattle.page_core.specs.Tables.{cell};

use crate::escapes::escaped;
use std::alloc::{AllocError, Global};

/// Appends a cell of a table with this text, escaped. Fails if memory is refused.
pub(crate) fn push_cell(alloc: Global, row: &mut String, text: &str) -> Result<(), AllocError>
    ensures { OnOk result
        (string_bytes row.new ≡ string_bytes row.old ++ page_text (cell text.now)) }
{
    let shown = escaped(alloc, text)?;
    let cell = format!(in alloc; "<td>{shown}</td>")?;
    row.push_str(cell.as_str())
}
