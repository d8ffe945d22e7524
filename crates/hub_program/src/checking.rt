//! Checks files before they are used.
ghost use Rattle.std.specs.Prelude.{◌≡◌, [], OnOk};
ghost use Rattle.std.specs.Io.KnownBytes.{Appends};
ghost use Rattle.count_core.specs.CountChecks.{count_faults, row_count};
ghost use Rattle.count_core.specs.Summaries.{counts_summary};
ghost use Rattle.line_files.specs.Checked.{bad_lines, check_text};

use crate::fault::CommandFault;
use crate::files::read_file;
use crate::growth_fault::growth_fault;
use crate::lines::write_line;
use crate::list_fault::list_fault;
use crate::row_advice::Beside;
use count_core::{check_counts, check_setup, counts_summary, setup_summary};
use line_files::{check_help, check_lines, check_text};
use std::alloc::Global;
use std::io::Write;
use table_core::past_mark;

/// Checks the files that are named, and prints a line about each that has no fault.
///
/// Faults, in this order: Words, if no file is named; for the first file with a fault, of the
/// setup, the count list and the lines: File, if it can't be read; all its faults; WriteFailed.
/// NoMemory can come instead of any of them.
pub fn check_files<W: Write>(
    rt: &HostRuntime,
    setup: Option<&str>,
    counts: Option<&str>,
    lines: Option<&str>,
    output: &mut W,
) -> Result<(), CommandFault> {
    let alloc = rt.alloc();
    if setup.is_none() && counts.is_none() && lines.is_none() {
        let advice = format!(in alloc; "check needs --setup, --counts or --lines");
        return Err(CommandFault::Words(advice.ok()));
    }
    if let Some(path) = setup {
        let bytes = read_file(rt, path)?;
        check_setup_file(alloc, path, &bytes, output)?;
    }
    if let Some(path) = counts {
        let bytes = read_file(rt, path)?;
        check_counts_file(alloc, path, &bytes, output)?;
    }
    if let Some(path) = lines {
        let bytes = read_file(rt, path)?;
        check_lines_file(alloc, past_mark(&bytes), output)?;
    }
    Ok(())
}

/// Checks the bytes of a setup file. The path is used only for the advice.
fn check_setup_file<W: Write>(
    alloc: Global,
    path: &str,
    bytes: &[u8],
    output: &mut W,
) -> Result<(), CommandFault> {
    let checked = check_setup(alloc, bytes)?;
    if !checked.faults.is_empty() {
        return Err(growth_fault(alloc, path, bytes, &checked.faults, Beside::Nothing));
    }
    let line = setup_summary(alloc, &checked.setup)?;
    write_line(output, &line)
}

/// Checks the bytes of a count list. The path is used only for the advice.
fn check_counts_file<W: Write>(
    alloc: Global,
    path: &str,
    bytes: &[u8],
    output: &mut W,
) -> Result<(), CommandFault>
    ensures { OnOk result ((count_faults bytes.now ≡ [])
        × Appends (W.contents output.old) (W.contents output.new)
        (counts_summary (row_count bytes.now))) }
{
    let checked = check_counts(alloc, bytes)?;
    if !checked.faults.is_empty() {
        return Err(list_fault(alloc, path, bytes, &checked.faults));
    }
    let line = counts_summary(alloc, checked.rows)?;
    write_line(output, &line)
}

/// Checks the bytes of a file of lines, without a byte order mark before the first.
fn check_lines_file<W: Write>(
    alloc: Global,
    bytes: &[u8],
    output: &mut W,
) -> Result<(), CommandFault>
    ensures { OnOk result ((bad_lines bytes.now ≡ [])
        × Appends (W.contents output.old) (W.contents output.new) (check_text bytes.now)) }
{
    let checked = check_lines(alloc, bytes)?;
    let mut text = check_text(alloc, bytes)?;
    if !checked.bad.is_empty() {
        text.push_str(check_help(bytes))?;
        return Err(CommandFault::Faults(text));
    }
    write_line(output, &text)
}
