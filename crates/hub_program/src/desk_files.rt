//! The files of a desk: its log, and its labels.
ghost use Rattle.std.specs.Prelude.{◌≡◌, None, IfOk, OnOk};
ghost use Rattle.table_core.specs.LabelRows.{label_fault, labels_of};
ghost use Rattle.table_core.specs.Sheets.{sheet_rows};

use crate::advice::{on_labels, on_log, on_sheet, on_taken_log};
use crate::fault::{CommandFault, SheetFile};
use crate::files::{are_same, read_file};
use command_words::DeskWords;
use nest_core::Setup;
use std::alloc::Global;
use std::fs::{File, OpenFile, OpenOptions};
use std::io;
use std::io::Write;
use std::os::unix::fs::FileExt;
use table_core::{LabelFault, Labels, SheetFault, read_sheet};

/// No log, for a command that writes none.
pub fn no_log() -> Option<File> {
    None
}

/// Fails with Log if the log is one of the desk's other files: lines appended to it would spoil it.
pub fn refuse_log(rt: &HostRuntime, wanted: &DeskWords<'_>) -> Result<(), CommandFault> {
    let Some(log) = wanted.log else {
        return Ok(());
    };
    let store_log = format!(in rt.alloc(); "{}-wal", wanted.store)?;
    let labels = wanted.labels.unwrap_or(wanted.setup);
    for other in [wanted.setup, wanted.store, store_log.as_str(), labels] {
        if are_same(rt, log, other) {
            return Err(CommandFault::Log(on_taken_log(rt.alloc(), log, other)));
        }
    }
    Ok(())
}

/// Opens the log, if one is named, so that lines are appended. Creates it if it does not exist. A
/// last line that was cut off is ended, so that no line is appended to it. Fault: Log, if the file
/// cannot be opened, read or written.
pub fn open_log(rt: &HostRuntime, path: Option<&str>) -> Result<Option<File>, CommandFault> {
    let Some(path) = path else {
        return Ok(None);
    };
    match opened(rt, path) {
        Ok(log) => Ok(Some(log)),
        Err(error) => Err(CommandFault::Log(on_log(rt.alloc(), path, error.kind()))),
    }
}

/// Opens a log, and ends its last line.
fn opened(rt: &HostRuntime, path: &str) -> io::Result<File> {
    let mut log = OpenOptions::new()
        .read(true)
        .append(true)
        .create(true)
        .open(rt, path)?;
    if is_cut(&log)? {
        log.write_all(b"\n")?;
    }
    Ok(log)
}

/// Whether the file's last line has no line feed.
fn is_cut(log: &File) -> io::Result<bool> {
    let length = log.metadata()?.len();
    if length == 0 {
        return Ok(false);
    }
    let mut last = [b'\n'; 1];
    log.read_at(&mut last, length - 1)?;
    Ok(last[0] != b'\n')
}

/// Returns the labels in a file, or none if no file is named. Faults, in this order: those of
/// [`read_file`]; Sheet, if the file is no table; Labels, for the first fault of the labels.
/// NoMemory can come instead of any result.
pub fn read_labels(
    rt: &HostRuntime,
    setup: &Setup,
    path: Option<&str>,
) -> Result<Labels, CommandFault> {
    match path {
        Some(path) => {
            let bytes = read_file(rt, path)?;
            labels_in(rt.alloc(), setup, path, bytes.as_slice())
        }
        None => Ok(Labels::none(rt.alloc())),
    }
}

/// The labels in the bytes of a file. The path is used only for the advice.
fn labels_in(alloc: Global, setup: &Setup, path: &str, bytes: &[u8]) -> Result<Labels, CommandFault>
    ensures labels { IfOk result (λ labels. labels ≡ labels_of (sheet_rows bytes.now)) }
    ensures right { OnOk result (label_fault setup.now (sheet_rows bytes.now) ≡ None) }
{
    let rows = match read_sheet(alloc, bytes) {
        Ok(rows) => rows,
        Err(SheetFault::NoMemory) => return Err(CommandFault::NoMemory),
        Err(fault) => {
            let advice = on_sheet(alloc, path, fault);
            return Err(CommandFault::Sheet(SheetFile::Labels, fault, advice));
        }
    };
    match Labels::of_rows(alloc, setup, rows.as_slice()) {
        Ok(labels) => Ok(labels),
        Err(LabelFault::NoMemory) => Err(CommandFault::NoMemory),
        Err(fault) => Err(CommandFault::Labels(fault, on_labels(alloc, path, &rows, fault))),
    }
}
