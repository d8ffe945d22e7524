//! Lists the lines of a file that no record takes, whatever its setup.
ghost use Rattle.std.specs.Prelude.{◌≡◌, ◌++◌, ◌∷◌, [], IfOk, OnOk, count_by, flat_map, map, not};
ghost use Rattle.std.specs.Prelude.{string_bytes};
ghost use Rattle.nest_core.specs.Museum.{no_museum};
ghost use Rattle.hub_core.specs.Lines.{is_empty};
ghost use Rattle.line_files.specs.Checked.{bad_at, bad_from, bad_lines, bad_text, check_text};
ghost use Rattle.line_files.specs.Checked.{check_help, count_text, found_text};
ghost use Rattle.line_files.specs.Checked.{line_count, line_fault, lines_noun};
ghost use Rattle.line_files.specs.Checked.{request_fault};

use crate::LineFault;
use crate::lines::{is_blank, is_too_long, lines_of};
use crate::reading::is_number;
use borrowed_json::Scratch;
use codes_core::NoMemory;
use hub_core::{Request, read_line_with};
use nest_core::Setup;
use register_store::ReadFault;
use std::alloc::Global;

/// A line that no record takes.
#[derive(Clone, Copy, Debug, PartialEq, Eq)]
pub struct BadLine {
    /// The line's place in the file, from 1.
    pub row: usize,
    /// TooLong, Unread or BadNumber.
    pub fault: LineFault,
}

/// The lines of a file, checked without a setup.
#[derive(Drop)]
pub struct CheckedLines {
    /// The number of lines that are not empty.
    pub count: usize,
    /// The lines that no record takes, in the order of the file.
    pub bad: Vec<BadLine>,
}

/// Returns every line of a file that no record takes, each with its first fault, and the number of
/// lines. An empty line is left out, as in a replay. Whether a setup has the line's station is not
/// checked. Fails with `NoMemory`.
pub fn check_lines(alloc: Global, bytes: &[u8]) -> Result<CheckedLines, NoMemory>
    ensures count { IfOk result (λ checked. checked.count ≡ line_count bytes.now) }
    ensures bad { IfOk result (λ checked. checked.bad.items ≡ bad_lines bytes.now) }
{
    let lines = lines_of(alloc, bytes)?;
    let bad = bad_among(alloc, &lines)?;
    let count = count_lines(&lines);
    Ok(CheckedLines { count, bad })
}

/// Returns the printed faults of a file of lines, or the number of its lines if there is no fault.
/// Fails with `NoMemory`.
pub fn check_text(alloc: Global, bytes: &[u8]) -> Result<String, NoMemory>
    ensures { IfOk result (λ text. string_bytes text ≡ check_text bytes.now) }
{
    let checked = check_lines(alloc, bytes)?;
    found_text(alloc, checked.count, &checked.bad)
}

/// The `help:` line for a file of lines with faults: one if the file does not begin as a line does,
/// with `{`. Otherwise empty.
pub fn check_help(bytes: &[u8]) -> &'static str
    ensures { result.now ≡ check_help bytes.now }
{
    if bytes.starts_with(b"{") {
        return "";
    }
    "help: a line is a JSON object and begins with {: 'pairsalder lines' makes lines of a table\n"
}

fn count_lines(lines: &[&[u8]]) -> usize
    ensures { result ≡ count_by (λ line. not (is_empty line.now)) lines.now }
{
    let mut count = 0;
    for line in lines {
        if !is_blank(line) {
            count += 1;
        }
    }
    count
}

/// The bad lines. Fails with `NoMemory`.
fn bad_among(alloc: Global, lines: &[&[u8]]) -> Result<Vec<BadLine>, NoMemory>
    ensures { IfOk result (λ bad. bad.items ≡ bad_from 1 (map (λ line. line.now) lines.now)) }
{
    let mut bad = Vec::new(alloc);
    let mut scratch = Scratch::new(alloc);
    let setup = Setup::new(alloc);
    for i in 0..lines.len() {
        add_bad(alloc, &mut scratch, &setup, i + 1, lines[i], &mut bad)?;
    }
    Ok(bad)
}

/// Adds the line, if it is bad. Fails with `NoMemory`.
fn add_bad(
    alloc: Global,
    scratch: &mut Scratch,
    setup: &Setup,
    row: usize,
    line: &[u8],
    bad: &mut Vec<BadLine>,
) -> Result<(), NoMemory>
    requires { setup.now ≡ no_museum }
    ensures { OnOk result (bad.new.items ≡ bad.old.items ++ bad_at row line.now) }
{
    if is_blank(line) {
        return Ok(());
    }
    if let Some(fault) = line_fault(alloc, scratch, setup, line)? {
        bad.push(BadLine { row, fault })?;
    }
    Ok(())
}

/// The first fault of a line that is not empty. Fails with `NoMemory`.
fn line_fault(
    alloc: Global,
    scratch: &mut Scratch,
    setup: &Setup,
    line: &[u8],
) -> Result<Option<LineFault>, NoMemory>
    requires { setup.now ≡ no_museum }
    ensures { IfOk result (λ fault. fault ≡ line_fault line.now) }
{
    if is_too_long(line) {
        return Ok(Some(LineFault::TooLong));
    }
    match read_line_with(alloc, scratch, setup, line) {
        Ok(line) => Ok(request_fault(&line.request)),
        Err(ReadFault::NoMemory) => Err(NoMemory),
        Err(fault) => Ok(Some(LineFault::Unread(fault))),
    }
}

fn request_fault(request: &Request) -> Option<LineFault>
    ensures { result ≡ request_fault request.now }
{
    match request {
        Request::Scan { n, .. } => {
            if is_number(*n) {
                return None;
            }
            Some(LineFault::BadNumber)
        }
        Request::Ask { .. } => None,
    }
}

fn found_text(alloc: Global, count: usize, bad: &[BadLine]) -> Result<String, NoMemory>
    ensures { IfOk result (λ text. string_bytes text ≡ found_text count bad.now) }
{
    if bad.is_empty() {
        return count_text(alloc, count);
    }
    let mut text = String::new(alloc);
    for one in bad {
        let line = bad_text(alloc, one)?;
        text.push_str(line.as_str())?;
    }
    Ok(text)
}

fn bad_text(alloc: Global, bad: &BadLine) -> Result<String, NoMemory>
    ensures { IfOk result (λ text. string_bytes text ≡ bad_text bad.now) }
{
    let words = bad.fault.text(alloc)?;
    let row = bad.row;
    Ok(format!(in alloc; "fault lines {words} row {row}\n")?)
}

fn count_text(alloc: Global, count: usize) -> Result<String, NoMemory>
    ensures { IfOk result (λ text. string_bytes text ≡ count_text count) }
{
    let noun = lines_noun(count);
    Ok(format!(in alloc; "ok: {count} {noun}\n")?)
}

fn lines_noun(count: usize) -> &'static str
    ensures { result.now ≡ lines_noun count }
{
    if count == 1 { "line" } else { "lines" }
}
