//! Reads the files that a command names.
ghost use Rattle.std.specs.Prelude.{◌≡◌, vec_len, IfOk};
ghost use Rattle.nest_core.specs.SetupRows.{museum_of, rows_of};

use crate::advice::{folder_of, on_feeds, on_file};
use crate::fault::CommandFault;
use crate::list_fault::list_fault;
use crate::row_advice::on_setup;
use count_core::{CountFault, CountRow, read_counts};
use nest_core::{Setup, SetupFault};
use serve_core::TextFeed;
use std::alloc::Global;
use std::fs;
use std::io::{BufRead, ErrorKind};
use std::os::unix::fs::MetadataExt;
use table_core::past_mark;

/// Returns the setup in a file. Faults, in this order: those of [`read_file`]; Setup, for the
/// setup's first fault. NoMemory can come instead of any result.
pub fn read_setup(rt: &HostRuntime, alloc: Global, path: &str) -> Result<Setup, CommandFault> {
    let bytes = read_file(rt, path)?;
    setup_in(alloc, path, bytes.as_slice())
}

/// Returns the setup in the bytes of a file. Faults: Setup, for the setup's first fault; NoMemory.
/// The path is used only for the advice.
pub fn setup_in(alloc: Global, path: &str, bytes: &[u8]) -> Result<Setup, CommandFault>
    ensures { IfOk result (λ setup. setup ≡ museum_of (rows_of bytes.now)) }
{
    match Setup::read(alloc, bytes) {
        Ok(setup) => Ok(setup),
        Err(SetupFault::NoMemory) => Err(CommandFault::NoMemory),
        Err(fault) => Err(CommandFault::Setup(fault, on_setup(alloc, path, bytes, fault))),
    }
}

/// Returns the rows of the count list in a file. Faults, in this order: those of [`read_file`];
/// Counts, for the list's first fault. NoMemory can come instead of any result.
pub fn read_list(
    rt: &HostRuntime,
    alloc: Global,
    path: &str,
) -> Result<Vec<CountRow>, CommandFault> {
    let bytes = read_file(rt, path)?;
    match read_counts(alloc, bytes.as_slice()) {
        Ok(rows) => Ok(rows),
        Err(CountFault::NoMemory) => Err(CommandFault::NoMemory),
        Err(fault) => Err(list_fault(alloc, path, bytes.as_slice(), &[fault])),
    }
}

/// Returns a feed for each station, in the order of the files. A byte order mark before the first
/// line of a file is dropped. Faults, in this order: Feeds, if
/// there are more or fewer files than stations; those of [`read_file`]. NoMemory can come instead
/// of any result.
pub fn read_feeds(
    rt: &HostRuntime,
    stations: u32,
    files: &[&str],
) -> Result<Vec<TextFeed>, CommandFault>
    ensures { IfOk result (λ feeds. vec_len feeds ≡ stations) }
{
    if files.len() != stations as usize {
        return Err(CommandFault::Feeds(on_feeds(rt.alloc(), stations, files.len())));
    }
    let mut feeds = Vec::new(rt.alloc());
    for file in files {
        let bytes = read_file(rt, file)?;
        feeds.push(TextFeed::new(without_mark(bytes)))?;
    }
    Ok(feeds)
}

/// The bytes without the byte order mark at their start, if there is one.
fn without_mark(mut bytes: Vec<u8>) -> Vec<u8> {
    let marked = bytes.len().saturating_sub(past_mark(&bytes).len());
    drop(bytes.drain(..marked));
    bytes
}

/// Returns the bytes of a file. Faults: File, if it cannot be read; NoMemory.
pub fn read_file(rt: &HostRuntime, path: &str) -> Result<Vec<u8>, CommandFault> {
    match fs::read(rt, path) {
        Ok(bytes) => Ok(bytes),
        Err(error) if error.kind() == ErrorKind::OutOfMemory => Err(CommandFault::NoMemory),
        Err(error) => Err(CommandFault::File(on_file(rt.alloc(), path, error.kind()))),
    }
}

/// Returns the bytes of a file, or those of the input if the path is `-`. Faults: File or
/// ReadFailed, if they cannot be read; NoMemory.
pub fn read_named<R: BufRead>(
    rt: &HostRuntime,
    path: &str,
    input: &mut R,
) -> Result<Vec<u8>, CommandFault> {
    if path != "-" {
        return read_file(rt, path);
    }
    let mut bytes = Vec::new(rt.alloc());
    match input.read_to_end(&mut bytes) {
        Ok(_) => Ok(bytes),
        Err(error) if error.kind() == ErrorKind::OutOfMemory => Err(CommandFault::NoMemory),
        Err(_) => Err(CommandFault::ReadFailed),
    }
}

/// Returns whether the two paths name the same file. If neither exists, whether they would.
pub fn are_same(rt: &HostRuntime, path: &str, other: &str) -> bool {
    match (identity_of(rt, path), identity_of(rt, other)) {
        (None, None) => {
            let folder = identity_of(rt, folder_of(path));
            folder.is_some()
                && folder == identity_of(rt, folder_of(other))
                && name_of(path) == name_of(other)
        }
        (found, others) => found == others,
    }
}

/// The numbers of the device and of the file on it. None if there is no file, or if it can't be
/// found out.
fn identity_of(rt: &HostRuntime, path: &str) -> Option<(u64, u64)> {
    let found = fs::metadata(rt, path).ok()?;
    Some((found.dev(), found.ino()))
}

/// The name of a file in its folder.
fn name_of(path: &str) -> &str {
    match path.rsplit_once('/') {
        Some((_, name)) => name,
        None => path,
    }
}
