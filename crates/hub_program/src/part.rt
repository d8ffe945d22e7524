//! A file that gets its name when it is whole: until then it is a part file beside the target.

use crate::advice::{folder_of, on_target};
use crate::fault::CommandFault;
use codes_core::NoMemory;
use std::alloc::Global;
use std::fs::{File, OpenOptions, TryLockError};
use std::io::ErrorKind;
use std::os::unix::fs::OpenOptionsExt;
use std::{fs, io};

/// Returns the path of the target's part file.
pub fn part_of(alloc: Global, to: &str) -> Result<String, NoMemory> {
    Ok(format!(in alloc; "{to}.part")?)
}

/// Fails if the target exists, or a log beside it. The log would be taken for the new file's.
pub fn refuse_target(rt: &HostRuntime, to: &str) -> Result<(), CommandFault> {
    let alloc = rt.alloc();
    let log = format!(in alloc; "{to}-wal")?;
    for path in [to, log.as_str()] {
        match fs::symlink_metadata(rt, path) {
            Err(error) if error.kind() == ErrorKind::NotFound => {}
            _ => {
                let advice = format!(in alloc; "{path} already exists: choose another name");
                return Err(CommandFault::File(advice.ok()));
            }
        }
    }
    Ok(())
}

/// Opens an empty part file, with the store's permissions if they can be set. A part file that an
/// interrupted run left behind is reused, and its log is removed. The returned file is locked, so
/// that no other run writes to it.
pub fn open_part(rt: &HostRuntime, store: &str, part: &str) -> Result<File, CommandFault> {
    let alloc = rt.alloc();
    let opened = OpenOptions::new()
        .read(true)
        .write(true)
        .create(true)
        .mode(0o600)
        .open(rt, part);
    let file = match opened {
        Ok(file) => file,
        Err(error) => return Err(unwritten(rt, part, error.kind())),
    };
    if let Err(TryLockError::WouldBlock) = file.try_lock() {
        let advice = format!(in alloc; "another run writes {part}: wait for it to end");
        return Err(CommandFault::File(advice.ok()));
    }
    let _ = fs::remove_file(rt, format!(in alloc; "{part}-wal")?.as_str());
    match emptied(rt, store, &file) {
        Ok(()) => Ok(file),
        Err(error) => Err(unwritten(rt, part, error.kind())),
    }
}

/// Empties the part file, and gives it the store's permissions. A file system without permissions,
/// for example on a memory stick, cannot set them. The part file then keeps those that it has.
fn emptied(rt: &HostRuntime, store: &str, file: &File) -> io::Result<()> {
    file.set_len(0)?;
    if let Ok(found) = fs::metadata(rt, store) {
        let _ = file.set_permissions(found.permissions());
    }
    Ok(())
}

/// Renames the part file to the target, and syncs the folder.
pub fn publish(rt: &HostRuntime, part: &str, to: &str) -> Result<(), CommandFault> {
    refuse_target(rt, to)?;
    match renamed(rt, part, to) {
        Ok(()) => Ok(()),
        Err(error) => Err(unwritten(rt, to, error.kind())),
    }
}

fn renamed(rt: &HostRuntime, part: &str, to: &str) -> io::Result<()> {
    fs::rename(rt, part, to)?;
    File::open(rt, folder_of(to))?.sync_all()
}

/// The fault of a file that cannot be written.
pub fn unwritten(rt: &HostRuntime, path: &str, kind: ErrorKind) -> CommandFault {
    match kind {
        ErrorKind::OutOfMemory => CommandFault::NoMemory,
        _ => CommandFault::File(on_target(rt.alloc(), path, kind)),
    }
}
